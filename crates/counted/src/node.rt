//! The nodes of a tree. What a node holds is seen in this module and those below it alone, which make, change and measure
//! nodes, and count none. The searches are outside: they come to a node's contents by `read`, which counts it.
ghost use Rattle.std.specs.Prelude.{◌≡◌, ◌+◌, ◌<◌, ◌≤◌, ◌++◌, Some, length, drop, slice_get, IfOk};
ghost use Rattle.std.specs.List.{All};
ghost use Rattle.counted.specs.Edits.{put_items};
ghost use Rattle.counted.specs.Few.{IsCountable};
ghost use Rattle.counted.specs.Paths.{Begins, HasSome};
ghost use Rattle.counted.specs.Shapes.{all_items, view_of, IsBalanced};
ghost use Rattle.counted.specs.Sums.{total};
ghost use Rattle.counted.specs.Trees.{IsDepth, IsRoot};

pub(crate) mod bulk;
mod edit;
mod grown;
mod in_place;
mod path;

use crate::children::{child_of, count_of, net_of};
use crate::entry::Lead;
use crate::leaf::{push_some, total_of};
use crate::{SharedEntry, Steps};
use std::alloc::{AllocError, Global};
use std::marker::Model;
use std::sync::Arc;
use std::sync::ledger::Ledger;

/// The most entries or children of a node: an edit of a shared path copies so many on each level, and a search looks at as
/// many.
pub(crate) const MAX_WIDTH: usize = 16;

/// The fewest, but at the root. The most is twice as many, so that a node of one too many falls into two, and one of one too
/// few makes one with its neighbour, or two.
pub(crate) const MIN_WIDTH: usize = 8;

/// A node: entries, or shared children.
#[cycle(node)]
#[derive(Drop)]
pub(crate) struct Node {
    /// Not to be seen by a search, so that none reads a node without counting it.
    body: Body,
}

#[cycle(node)]
#[derive(Drop)]
pub(crate) enum Body {
    Leaf(Vec<SharedEntry>),
    Inner(Vec<Child>),
}

/// A child, with its number of entries, its inserts minus deletes and the lead of its first entry, so that a search seldom
/// looks at a child that it does not go into, and a copy of a node shares nothing but its children.
#[cycle(node)]
#[derive(Drop)]
pub(crate) struct Child {
    pub(crate) count: usize,
    pub(crate) net: i64,
    pub(crate) lead: Lead,
    pub(crate) node: Arc<Node, Global>,
}

impl Model for Node {
    ghost use Rattle.counted.specs.Views.{View};

    ghost Value = { View };

    ghost use Rattle.counted.specs.Shapes.{view_of, IsBalanced};

    ghost view = { λ a. view_of a.body };

    ghost invariant = { λ a. IsBalanced a.body };

    ghost size = { λ d. d.depth };

    ghost use Rattle.counted.specs.Falls.{children_are_less};

    ghost size_decreases = { λ a h. children_are_less a.body h };
}

impl Node {
    /// A leaf with the entry, if there is one.
    pub(crate) fn leaf_of(alloc: Global, put: Option<SharedEntry>) -> Result<Node, AllocError>
        ensures depth { IfOk result (λ n. n.depth ≡ 1) }
        ensures items { IfOk result (λ n. n.items ≡ put_items put) }
    {
        let mut entries = Vec::with_capacity(alloc, 1)?;
        push_some(&mut entries, put)?;
        Ok(Node {
            body: Body::Leaf(entries),
        })
    }

    /// How many entries lie below it.
    pub(crate) fn len(&self) -> usize
        requires { IsCountable (length self.now.items) }
        ensures { result ≡ length self.now.items }
    {
        match &self.body {
            Body::Leaf(entries) => entries.len(),
            Body::Inner(children) => count_of(children),
        }
    }

    /// What the entries below it add.
    pub(crate) fn total(&self) -> i64
        requires { IsCountable (length self.now.items) }
        ensures { result ≡ total self.now.items }
    {
        match &self.body {
            Body::Leaf(entries) => total_of(entries),
            Body::Inner(children) => net_of(children),
        }
    }

    /// The number of levels.
    pub(crate) fn depth(&self) -> usize
        requires { IsCountable (length self.now.items) }
        ensures depth { result ≡ self.now.depth }
        ensures levels { IsRoot self.now → IsDepth self.now.depth (length self.now.items) }
    {
        match &self.body {
            Body::Leaf(_) => 1,
            Body::Inner(children) => children[0].node.depth() + 1,
        }
    }

    /// The entries from an index on that lie in one leaf, and the children at the leaf's parent behind it; at a leaf those
    /// that are given.
    pub(crate) fn leaf_from<'a>(
        &'a self,
        at: usize,
        behind: &'a [Child],
    ) -> (&'a [SharedEntry], &'a [Child])
        requires within { at < length self.now.items }
        requires some { All HasSome behind.now }
        ensures some { 1 ≤ length result.0.now }
        ensures children { All HasSome result.1.now }
        ensures rest { Begins (result.0.now ++ all_items result.1.now) (drop at self.now.items ++ all_items behind.now) }
    {
        let (mut node, mut at, mut behind) = (self, at, behind);
        loop {
            match &node.body {
                Body::Leaf(entries) => return (&entries[at..], behind),
                Body::Inner(children) => {
                    let (index, rest) = child_of(children, at);
                    node = &children[index].node;
                    at = rest;
                    behind = &children[index + 1..];
                }
            }
        }
    }

    /// How many levels it has, as a root; it does nothing.
    pub(crate) fn levels(&self)
        ensures { IsRoot self.now → IsDepth self.now.depth (length self.now.items) }
    {
        let _body = &self.body;
    }

    /// Its first entry, for a step on each level.
    pub(crate) fn first<L: Ledger>(&self, steps: &mut Steps<L>) -> &SharedEntry
        requires { 1 ≤ length self.now.items }
        ensures { slice_get self.now.items 0 ≡ Some result.now }
    {
        let mut node = self;
        loop {
            match node.read(steps) {
                Body::Leaf(entries) => return &entries[0],
                Body::Inner(children) => node = &children[0].node,
            }
        }
    }

    /// What the node holds, for one step: the one way to it from outside this module.
    pub(crate) fn read<L: Ledger>(&self, steps: &mut Steps<L>) -> &Body
        ensures view { view_of result.now ≡ self.now }
        ensures balanced { IsBalanced result.now }
        ensures steps { steps.new ≡ steps.old + 1 }
        ensures levels { IsRoot self.now → IsDepth self.now.depth (length self.now.items) }
    {
        steps.tick();
        &self.body
    }
}
