//! Edits in place: a node that others share is copied once, where the descent comes to it, and is changed in place from then on.
ghost use Rattle.std.specs.Prelude.{◌≡◌, ◌+◌, ◌<◌, ◌≤◌, ◌++◌, ◌∷◌, [], Some, None, length, take, drop, slice_index_or, IfOk};
ghost use Rattle.std.specs.Prelude.{IfErr, IfSome, OnOk};
ghost use Rattle.std.specs.Arc.{arc_value};
ghost use Rattle.std.specs.List.{All};
ghost use Rattle.counted.specs.Few.{IsFew};
ghost use Rattle.counted.specs.declared.node.TheConstants.{MAX_WIDTH};
ghost use Rattle.counted.specs.declared.node.Child.{Child};
ghost use Rattle.counted.specs.Edits.{IsEdit, IsEditedNode, put_items, edited};
ghost use Rattle.counted.specs.Shapes.{AreChildren, IsChild, all_items, depth_of, items_of};
ghost use Rattle.counted.specs.Splits.{IsSplit};

use crate::children::child_at;
use crate::leaf::{copied_entries, count_put, edited_leaf};
use crate::node::grown::{copied_children, grown_leaf, with_grown};
use crate::node::{Body, Child, MAX_WIDTH, MIN_WIDTH, Node};
use crate::{CountedTree, SharedEntry};
use std::alloc::{AllocError, Global};
use std::sync::Arc;

impl CountedTree {
    /// Replaces so many entries from an index on, one at most, by another, if there is one, where the leaf has room, or its
    /// parent has room for two, and it keeps enough, and no memory is refused. Otherwise nothing is changed, and the entry
    /// comes back.
    pub(crate) fn edit_in_place(
        &mut self,
        alloc: Global,
        at: usize,
        gone: usize,
        put: Option<SharedEntry>,
    ) -> Result<(), Option<SharedEntry>>
        requires one { gone ≤ 1 }
        requires within { at + gone ≤ length self.old.entries }
        requires few { IsFew (length self.old.entries + 1) }
        ensures ok { OnOk result (self.new.entries ≡ edited at gone (put_items put) self.old.entries) }
        ensures err { IfErr result (λ back. (self.new ≡ self.old) × (back ≡ put)) }
    {
        let more = count_put(&put);
        let Some(root) = &mut self.root else {
            return Err(put);
        };
        if own(alloc, root).is_err() {
            return Err(put);
        }
        let Some(node) = Arc::get_mut(root) else {
            return Err(put);
        };
        match node.edit_in_place(alloc, at, gone, put, 0) {
            Ok(added) => {
                self.len = self.len + more - gone;
                self.net += added;
                Ok(())
            }
            Err(put) => Err(put),
        }
    }
}

impl Node {
    /// The same below a node that nobody shares, which keeps so many entries or children: what that adds.
    #[cycle(edit)]
    fn edit_in_place(
        &mut self,
        alloc: Global,
        at: usize,
        gone: usize,
        put: Option<SharedEntry>,
        least: usize,
    ) -> Result<i64, Option<SharedEntry>>
        requires one { gone ≤ 1 }
        requires within { at + gone ≤ length self.old.items }
        requires few { IsFew (length self.old.items) }
        ensures { IsEditedNode at gone least put self.old self.new result }
    {
        match &mut self.body {
            Body::Leaf(entries) => edit_leaf(entries, at, gone, put, least),
            Body::Inner(children) => {
                let (index, end) = child_at(children, at + gone);
                if let Some(split) = split_of(alloc, children, index, end - gone, gone, &put) {
                    drop(put);
                    *children = split.children;
                    return Ok(split.added);
                }
                children[index].edit_in_place(alloc, end - gone, gone, put)
            }
        }
    }

    /// The same node, of nodes and changes that it shares. A leaf gets room for the most.
    fn copied(&self, alloc: Global) -> Result<Node, AllocError>
        ensures { IfOk result (λ n. n ≡ self.now) }
    {
        match &self.body {
            Body::Leaf(entries) => Ok(Node {
                body: Body::Leaf(copied_entries(alloc, entries)?),
            }),
            Body::Inner(children) => Ok(Node {
                body: Body::Inner(copied_children(alloc, children)?),
            }),
        }
    }
}

impl Child {
    /// The same below a child, which keeps what that changes.
    #[cycle(edit)]
    fn edit_in_place(
        &mut self,
        alloc: Global,
        at: usize,
        gone: usize,
        put: Option<SharedEntry>,
    ) -> Result<i64, Option<SharedEntry>>
        requires one { gone ≤ 1 }
        requires within { at + gone ≤ length (items_of self.old) }
        requires few { IsFew (length (items_of self.old)) }
        requires child { IsChild (arc_value self.old.node).depth self.old }
        ensures child { IsChild (arc_value self.old.node).depth self.new }
        ensures ok { IfOk result (IsEdit at gone put (items_of self.old) (items_of self.new)) }
        ensures err { IfErr result (λ back. (items_of self.new ≡ items_of self.old) × (back ≡ put)) }
    {
        let more = count_put(&put);
        if own(alloc, &mut self.node).is_err() {
            return Err(put);
        }
        let Some(node) = Arc::get_mut(&mut self.node) else {
            return Err(put);
        };
        match node.edit_in_place(alloc, at, gone, put, MIN_WIDTH) {
            Ok(added) => {
                self.lead = node.lead();
                self.count = self.count + more - gone;
                self.net += added;
                Ok(added)
            }
            Err(put) => Err(put),
        }
    }
}

/// Children of which a leaf became two, and what that adds.
#[derive(Drop)]
struct Split {
    children: Vec<Child>,
    added: i64,
}

/// The children with an entry put into one that is a full leaf, which becomes two, if there is room for a child more. None
/// where the edit is another one, or memory is refused.
fn split_of(
    alloc: Global,
    children: &[Child],
    index: usize,
    at: usize,
    gone: usize,
    put: &Option<SharedEntry>,
) -> Option<Split>
    requires children { AreChildren children.now }
    requires index { index < length children.now }
    requires within { (d : Child) → at + gone ≤ length (items_of (slice_index_or children.now index d)) }
    requires few { IsFew (length (all_items children.now)) }
    ensures { IfSome result (λ split. IsSplit children.now index at gone put.now split.children.items split.added) }
{
    if gone > 0 || children.len() >= MAX_WIDTH {
        return None;
    }
    match (put, &children[index].node.body) {
        (Some(entry), Body::Leaf(entries)) if entries.len() >= MAX_WIDTH => {
            match with_entry(alloc, children, index, entries, at, entry) {
                Ok(children) => Some(Split {
                    children,
                    added: entry.weight(),
                }),
                Err(_) => None,
            }
        }
        _ => None,
    }
}

/// The children with an entry put into one that is a full leaf of these entries, which becomes two.
#[inline(never)]
fn with_entry(
    alloc: Global,
    children: &[Child],
    index: usize,
    entries: &[SharedEntry],
    at: usize,
    put: &SharedEntry,
) -> Result<Vec<Child>, AllocError>
    requires children { AreChildren children.now }
    requires index { index < length children.now }
    requires level { depth_of children.now ≡ 1 }
    requires full { length entries.now ≡ MAX_WIDTH }
    requires at { at ≤ MAX_WIDTH }
    ensures items { IfOk result (λ v. all_items v.items ≡ all_items (take index children.now)
        ++ edited at 0 (put.now ∷ []) entries.now ++ all_items (drop (index + 1) children.now)) }
    ensures one_more { IfOk result (λ v. length v.items ≤ length children.now + 1) }
    ensures not_fewer { IfOk result (λ v. length children.now ≤ length v.items) }
    ensures each { IfOk result (λ v. All (IsChild 1) v.items) }
{
    let more = edited_leaf(alloc, entries, at, 0, Some(put.copy()?))?;
    with_grown(alloc, children, index, index + 1, grown_leaf(more)?)
}

/// A node that nobody else shares: where others do, a copy comes to stand in its place.
fn own(alloc: Global, shared: &mut Arc<Node, Global>) -> Result<(), AllocError>
    ensures { arc_value shared.new ≡ arc_value shared.old }
{
    if Arc::strong_count(shared) > 1 {
        *shared = Arc::new(alloc, shared.copied(alloc)?)?;
    }
    Ok(())
}

/// The edit in a leaf, unless it is full, or would keep too few: what that adds.
fn edit_leaf(
    entries: &mut Vec<SharedEntry>,
    at: usize,
    gone: usize,
    put: Option<SharedEntry>,
    least: usize,
) -> Result<i64, Option<SharedEntry>>
    requires one { gone ≤ 1 }
    requires within { at + gone ≤ length entries.old.items }
    requires room { length entries.old.items ≤ MAX_WIDTH }
    ensures room { length entries.new.items ≤ MAX_WIDTH }
    ensures least { least ≤ length entries.old.items → least ≤ length entries.new.items }
    ensures ok { IfOk result (IsEdit at gone put entries.old.items entries.new.items) }
    ensures err { IfErr result (λ back. (entries.new.items ≡ entries.old.items) × (back ≡ put)) }
{
    let Some(entry) = put else {
        return take_from_leaf(entries, at, gone, least);
    };
    put_in_leaf(entries, at, gone, entry)
}

/// Puts an entry in the place of so many from an index on, one at most, unless the leaf is full. A leaf gets room for
/// the most at once.
fn put_in_leaf(
    entries: &mut Vec<SharedEntry>,
    at: usize,
    gone: usize,
    put: SharedEntry,
) -> Result<i64, Option<SharedEntry>>
    requires one { gone ≤ 1 }
    requires within { at + gone ≤ length entries.old.items }
    requires room { length entries.old.items ≤ MAX_WIDTH }
    ensures room { length entries.new.items ≤ MAX_WIDTH }
    ensures no_fewer { length entries.old.items ≤ length entries.new.items }
    ensures ok { IfOk result (IsEdit at gone (Some put) entries.old.items entries.new.items) }
    ensures err { IfErr result (λ back. (entries.new.items ≡ entries.old.items) × (back ≡ Some put)) }
{
    let weight = put.weight();
    if gone == 1 {
        let before = entries[at].weight();
        entries[at] = put;
        return Ok(weight - before);
    }
    let len = entries.len();
    if len >= MAX_WIDTH || entries.reserve_exact(MAX_WIDTH - len).is_err() {
        return Err(Some(put));
    }
    match entries.insert(at, put) {
        Ok(()) => Ok(weight),
        Err(refused) => Err(Some(refused.value)),
    }
}

/// Takes so many entries away from an index on, one at most, unless that leaves too few.
fn take_from_leaf(
    entries: &mut Vec<SharedEntry>,
    at: usize,
    gone: usize,
    least: usize,
) -> Result<i64, Option<SharedEntry>>
    requires one { gone ≤ 1 }
    requires within { at + gone ≤ length entries.old.items }
    ensures no_more { length entries.new.items ≤ length entries.old.items }
    ensures least { least ≤ length entries.old.items → least ≤ length entries.new.items }
    ensures ok { IfOk result (IsEdit at gone None entries.old.items entries.new.items) }
    ensures err { IfErr result (λ back. (entries.new.items ≡ entries.old.items) × (back ≡ None)) }
{
    if gone == 0 {
        return Ok(0);
    }
    if entries.len() <= least {
        return Err(None);
    }
    let taken = entries.remove(at);
    Ok(-taken.weight())
}
