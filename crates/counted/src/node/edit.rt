//! Edits by path copying: the nodes of a tree stay as they are, and what changes is in new ones.
ghost use Rattle.std.specs.Prelude.{◌≡◌, ◌+◌, ◌-◌, ◌*◌, ◌<◌, ◌≤◌, ◌++◌, ◌∷◌, [], length, take, drop, IfOk, IfSome, IfNone};
ghost use Rattle.std.specs.Arc.{arc_value};
ghost use Rattle.std.specs.List.{All};
ghost use Rattle.counted.specs.Few.{IsCountable, IsFew};
ghost use Rattle.counted.specs.declared.node.TheConstants.{MIN_WIDTH};
ghost use Rattle.counted.specs.Edits.{put_items, edited};
ghost use Rattle.counted.specs.Grown.{IsGrown, grown_items};
ghost use Rattle.counted.specs.Shapes.{IsChild, AreChildren, all_items, depth_of};
ghost use Rattle.counted.specs.Trees.{IsRoot};

use crate::SharedEntry;
use crate::leaf::{both_leaves, edited_leaf};
use crate::node::grown::{Grown, above, grown_inner, grown_leaf, push_children, with_grown};
use crate::node::{Body, Child, MIN_WIDTH, Node};
use std::alloc::{AllocError, Global};
use std::sync::Arc;

impl Node {
    /// The root with so many entries from an index on, one at most, replaced by another, if there is one.
    pub(crate) fn edited_root(
        &self,
        alloc: Global,
        at: usize,
        gone: usize,
        put: Option<SharedEntry>,
    ) -> Result<Arc<Node, Global>, AllocError>
        requires root { IsRoot self.now }
        requires one { gone ≤ 1 }
        requires within { at + gone ≤ length self.now.items }
        requires few { IsFew (length self.now.items + 1) }
        ensures root { IfOk result (λ a. IsRoot (arc_value a)) }
        ensures items { IfOk result (λ a. (arc_value a).items ≡ edited at gone (put_items put) self.now.items) }
    {
        let path = self.path_to(alloc, at + gone);
        let entries = edited_leaf(alloc, path.leaf, path.end - gone, gone, put)?;
        match path.grown(alloc, grown_leaf(entries)?)? {
            Grown::One(node) => root_of(alloc, node),
            Grown::Two(left, right) => Ok(Arc::new(alloc, above(alloc, left, right)?)?),
        }
    }

    /// How many entries or children it has.
    fn width(&self) -> usize
        ensures { result ≡ self.now.width }
    {
        match &self.body {
            Body::Leaf(entries) => entries.len(),
            Body::Inner(children) => children.len(),
        }
    }

    /// Two nodes side by side as one, or as two that are at least half full.
    fn joined(&self, alloc: Global, right: &Node) -> Result<Grown, AllocError>
        requires depth { self.now.depth ≡ right.now.depth }
        requires enough { 2 * MIN_WIDTH ≤ self.now.width + right.now.width + 1 }
        ensures { IfOk result (IsGrown self.now.depth MIN_WIDTH (self.now.items ++ right.now.items)) }
    {
        match &self.body {
            Body::Leaf(one) => match &right.body {
                Body::Leaf(two) => grown_leaf(both_leaves(alloc, one, two)?),
                Body::Inner(_) => unreachable!(),
            },
            Body::Inner(one) => match &right.body {
                Body::Leaf(_) => unreachable!(),
                Body::Inner(two) => grown_inner(both_inner(alloc, one, two)?),
            },
        }
    }
}

/// The children of one node and then those of another.
fn both_inner(alloc: Global, left: &[Child], right: &[Child]) -> Result<Vec<Child>, AllocError>
    requires left { AreChildren left.now }
    requires right { AreChildren right.now }
    requires depth { depth_of left.now ≡ depth_of right.now }
    ensures items { IfOk result (λ v. all_items v.items ≡ all_items left.now ++ all_items right.now) }
    ensures count { IfOk result (λ v. length v.items ≡ length left.now + length right.now) }
    ensures each { IfOk result (λ v. All (IsChild (depth_of left.now)) v.items) }
{
    let mut children = Vec::with_capacity(alloc, left.len() + right.len())?;
    push_children(&mut children, left)?;
    push_children(&mut children, right)?;
    Ok(children)
}

/// The node as a root: its only child is in its place where it has one alone.
fn root_of(alloc: Global, node: Node) -> Result<Arc<Node, Global>, AllocError>
    ensures root { IfOk result (λ a. IsRoot (arc_value a)) }
    ensures items { IfOk result (λ a. (arc_value a).items ≡ node.items) }
{
    if let Some(only) = only_child(&node)? {
        return Ok(only);
    }
    Ok(Arc::new(alloc, node)?)
}

/// The children with one of them replaced by what it became; where that is too little for a child, it is joined with a
/// neighbour.
pub(crate) fn replaced(
    alloc: Global,
    children: &[Child],
    index: usize,
    grown: Grown,
) -> Result<Vec<Child>, AllocError>
    requires children { AreChildren children.now }
    requires two { 2 ≤ length children.now }
    requires index { index < length children.now }
    requires grown { IsGrown (depth_of children.now) (MIN_WIDTH - 1) (grown_items grown) grown }
    requires few { IsCountable (length (all_items children.now) + length (grown_items grown)) }
    ensures items { IfOk result (λ v. all_items v.items
        ≡ all_items (take index children.now) ++ grown_items grown ++ all_items (drop (index + 1) children.now)) }
    ensures few_more { IfOk result (λ v. length v.items ≤ length children.now + 1) }
    ensures not_fewer { IfOk result (λ v. length children.now ≤ length v.items + 1) }
    ensures each { IfOk result (λ v. All (IsChild (depth_of children.now)) v.items) }
{
    match grown {
        Grown::One(node) => {
            if node.width() < MIN_WIDTH {
                return mended(alloc, children, index, node);
            }
            with_grown(alloc, children, index, index + 1, Grown::One(node))
        }
        Grown::Two(left, right) => with_grown(
            alloc,
            children,
            index,
            index + 1,
            Grown::Two(left, right),
        ),
    }
}

/// The children with one of them replaced by a node that has one too few, which is joined with a neighbour.
fn mended(
    alloc: Global,
    children: &[Child],
    index: usize,
    node: Node,
) -> Result<Vec<Child>, AllocError>
    requires children { AreChildren children.now }
    requires two { 2 ≤ length children.now }
    requires index { index < length children.now }
    requires depth { node.depth ≡ depth_of children.now }
    requires nearly { MIN_WIDTH ≤ node.width + 1 }
    requires few { IsCountable (length (all_items children.now) + length node.items) }
    ensures items { IfOk result (λ v. all_items v.items
        ≡ all_items (take index children.now) ++ node.items ++ all_items (drop (index + 1) children.now)) }
    ensures few_more { IfOk result (λ v. length v.items ≤ length children.now + 1) }
    ensures not_fewer { IfOk result (λ v. length children.now ≤ length v.items + 1) }
    ensures each { IfOk result (λ v. All (IsChild (depth_of children.now)) v.items) }
{
    if index > 0 {
        let joined = children[index - 1].node.joined(alloc, &node)?;
        return with_grown(alloc, children, index - 1, index + 1, joined);
    }
    let joined = node.joined(alloc, &children[1].node)?;
    with_grown(alloc, children, 0, 2, joined)
}

/// The only child of a node that has one alone.
fn only_child(node: &Node) -> Result<Option<Arc<Node, Global>>, AllocError>
    ensures some { IfOk result (λ o. IfSome o (λ a. IsRoot (arc_value a) × ((arc_value a).items ≡ node.now.items))) }
    ensures none { IfOk result (λ o. IfNone o (IsRoot node.now)) }
{
    match &node.body {
        Body::Inner(children) if children.len() == 1 => Ok(Some(Arc::try_clone(
            &children[0].node,
        )?)),
        _ => Ok(None),
    }
}
