//! The entries of a tree in order, lent.
ghost use Rattle.std.specs.Prelude.{◌≡◌, ◌+◌, ◌-◌, ◌<◌, ◌≤◌, ◌++◌, length, slice_get, take, drop};
ghost use Rattle.std.specs.Iterator.{YieldsFirstRef, item_count};
ghost use Rattle.std.specs.Option.{option_copied};
ghost use Rattle.counted.specs.Descents.{AreNext};
ghost use Rattle.counted.specs.Few.{IsFew};
ghost use Rattle.counted.specs.Paths.{AreFrom, IsReached};

use crate::SharedEntry;
use crate::node::Child;
use crate::tree::CountedTree;
use std::marker::Model;

/// The entries that are left, in order: those of a leaf, and so many from an index on. The children behind the leaf at its
/// parent are at hand, so that only the first leaf of each parent is found from the root. It takes no memory.
#[derive(Drop)]
pub struct Iter<'a> {
    tree: &'a CountedTree,
    leaf: &'a [SharedEntry],
    behind: &'a [Child],
    next: usize,
    left: usize,
}

impl<'a> Model for Iter<'a> {
    ghost use Rattle.std.specs.Prelude.{◌++◌, List, take, drop};
    ghost use Rattle.model.specs.declared.entry.Entry.{Entry};
    ghost use Rattle.counted.specs.Paths.{IsReached};

    ghost Value = { List Entry };

    ghost view = { λ i. i.leaf.now ++ take i.left (drop i.next i.tree.now.entries) };

    ghost invariant = { λ i. IsReached i.tree.now.entries i.next i.left i.behind.now };
}

impl<'a> Iterator for Iter<'a> {
    type Item = &'a SharedEntry;

    ghost next_gives = { YieldsFirstRef (λ s. s) };

    ghost remaining = { item_count (λ s. s) };

    fn next(&mut self) -> Option<&'a SharedEntry> {
        if self.leaf.is_empty() && self.left > 0 {
            let (leaf, behind) = next_leaf(self.tree, self.behind, self.next, self.left);
            self.next += leaf.len();
            self.left -= leaf.len();
            self.leaf = leaf;
            self.behind = behind;
        }
        let (first, others) = self.leaf.split_first()?;
        self.leaf = others;
        Some(first)
    }
}

impl<'a> Iter<'a> {
    /// The entry that comes next, if there is one. It takes no memory.
    pub fn first(&self) -> Option<&'a SharedEntry>
        ensures { option_copied result ≡ slice_get self.now 0 }
    {
        if self.leaf.is_empty() && self.left > 0 {
            return next_leaf(self.tree, self.behind, self.next, self.left)
                .0
                .first();
        }
        self.leaf.first()
    }
}

impl CountedTree {
    /// The entries from an index on, so many of them. It takes no memory.
    pub fn iter(&self, from: usize, count: usize) -> Iter<'_>
        requires { from + count ≤ length self.now.entries }
        ensures { result ≡ take count (drop from self.now.entries) }
    {
        Iter {
            tree: self,
            leaf: &[],
            behind: &[],
            next: from,
            left: count,
        }
    }

    /// The entries from an index on, where those next in a leaf are at hand.
    pub(crate) fn iter_in<'a>(&'a self, from: usize, leaf: &'a [SharedEntry]) -> Iter<'a>
        requires { AreNext self.now.entries from leaf.now }
        ensures { result ≡ drop from self.now.entries }
    {
        let len = self.len();
        let next = from + leaf.len();
        Iter {
            tree: self,
            leaf,
            behind: &[],
            next,
            left: len - next,
        }
    }
}

/// The entries from an index on that lie in one leaf, so many of them at most, and the children behind it.
fn next_leaf<'a>(
    tree: &'a CountedTree,
    behind: &'a [Child],
    from: usize,
    left: usize,
) -> (&'a [SharedEntry], &'a [Child])
    requires some { 1 ≤ left }
    requires reached { IsReached tree.now.entries from left behind.now }
    ensures few { IsFew (length tree.now.entries) }
    ensures some { 1 ≤ length result.0.now }
    ensures within { length result.0.now ≤ left }
    ensures rest { drop from tree.now.entries ≡ result.0.now ++ drop (from + length result.0.now) tree.now.entries }
    ensures reached { IsReached tree.now.entries (from + length result.0.now) (left - length result.0.now) result.1.now }
{
    let (leaf, behind) = leaf_after(tree, behind, from);
    if leaf.len() <= left {
        (leaf, behind)
    } else {
        (&leaf[..left], behind)
    }
}

/// The entries from an index on that lie in one leaf, and the children behind it: of the children at hand, where there are
/// some, and else from the root.
fn leaf_after<'a>(
    tree: &'a CountedTree,
    behind: &'a [Child],
    from: usize,
) -> (&'a [SharedEntry], &'a [Child])
    requires within { from < length tree.now.entries }
    requires at_hand { AreFrom tree.now.entries from behind.now }
    ensures few { IsFew (length tree.now.entries) }
    ensures some { 1 ≤ length result.0.now }
    ensures rest { drop from tree.now.entries ≡ result.0.now ++ drop (from + length result.0.now) tree.now.entries }
    ensures at_hand { AreFrom tree.now.entries (from + length result.0.now) result.1.now }
{
    prove!(tree.len() < 1 << 61);
    match behind.split_first() {
        Some((child, others)) => child.node.leaf_from(0, others),
        None => tree.leaf_from(from),
    }
}
