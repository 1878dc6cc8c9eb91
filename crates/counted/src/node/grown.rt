//! What a node grows to, and what is kept of it.
ghost use Rattle.std.specs.Prelude.{◌≡◌, ◌+◌, ◌-◌, ◌*◌, ◌≤◌, ◌++◌, length, take, drop, slice_get, Some, ℕ, IfOk, OnOk};
ghost use Rattle.std.specs.List.{All};
ghost use Rattle.model.specs.declared.entry.Entry.{Entry};
ghost use Rattle.counted.specs.Few.{IsCountable};
ghost use Rattle.counted.specs.declared.node.TheConstants.{MAX_WIDTH, MIN_WIDTH};
ghost use Rattle.counted.specs.Grown.{IsGrown, grown_items, grown_width, AreGrown, IsSameChild, IsSized, AreCounts};
ghost use Rattle.counted.specs.Leads.{lead_of};
ghost use Rattle.counted.specs.Shapes.{IsChild, all_items, items_of, depth_of};

use crate::SharedEntry;
use crate::children::{count_of, net_of};
use crate::entry::Lead;
use crate::leaf::total_of;
use crate::node::{Body, Child, MAX_WIDTH, Node};
use std::alloc::{AllocError, Global};
use std::sync::Arc;

/// A node, or two where one has no room.
#[derive(Drop)]
pub(crate) enum Grown {
    One(Node),
    Two(Node, Node),
}

/// What is kept of a node beside it.
#[derive(Clone, Copy)]
pub(crate) struct Counts {
    pub(crate) count: usize,
    pub(crate) net: i64,
}

impl Node {
    /// What is kept of a node that is at least half full.
    fn counts(&self) -> Counts
        requires full { MIN_WIDTH ≤ self.now.width }
        requires few { IsCountable (length self.now.items) }
        ensures { AreCounts self.now result }
    {
        match &self.body {
            Body::Leaf(entries) => Counts {
                count: entries.len(),
                net: total_of(entries),
            },
            Body::Inner(children) => Counts {
                count: count_of(children),
                net: net_of(children),
            },
        }
    }

    /// What is kept of its first entry.
    pub(crate) fn lead(&self) -> Lead
        requires full { MIN_WIDTH ≤ self.now.width }
        ensures lead { (e : Entry) → slice_get self.now.items 0 ≡ Some e → result ≡ lead_of e }
        ensures sized { IsSized self.now }
    {
        match &self.body {
            Body::Leaf(entries) => entries[0].lead(),
            Body::Inner(children) => children[0].lead,
        }
    }
}

impl Child {
    /// A child with its counts.
    pub(crate) fn new(alloc: Global, node: Node) -> Result<Child, AllocError>
        requires full { MIN_WIDTH ≤ node.width }
        requires few { IsCountable (length node.items) }
        ensures counts { IfOk result (IsChild node.depth) }
        ensures items { IfOk result (λ c. items_of c ≡ node.items) }
    {
        let counts = node.counts();
        let lead = node.lead();
        Ok(Child {
            count: counts.count,
            net: counts.net,
            lead,
            node: Arc::new(alloc, node)?,
        })
    }

    /// The same child.
    #[inline(always)]
    pub(crate) fn copy(&self) -> Result<Child, AllocError>
        ensures { IfOk result (IsSameChild self.now) }
    {
        let node = Arc::try_clone(&self.node)?;
        Ok(Child {
            count: self.count,
            net: self.net,
            lead: self.lead,
            node,
        })
    }
}

/// The children with those of a range replaced by what they grew to.
pub(crate) fn with_grown(
    alloc: Global,
    children: &[Child],
    from: usize,
    to: usize,
    grown: Grown,
) -> Result<Vec<Child>, AllocError>
    requires range { from ≤ to }
    requires within { to ≤ length children.now }
    requires few { IsCountable (length (grown_items grown)) }
    requires full { MIN_WIDTH ≤ grown_width grown }
    ensures items { IfOk result (λ v. all_items v.items
        ≡ all_items (take from children.now) ++ grown_items grown ++ all_items (drop to children.now)) }
    ensures few_more { IfOk result (λ v. length v.items + (to - from) ≤ length children.now + 2) }
    ensures not_fewer { IfOk result (λ v. length children.now + 1 ≤ length v.items + (to - from)) }
    ensures each { IfOk result (λ v. (depth : ℕ) → All (IsChild depth) children.now → AreGrown depth grown → All (IsChild depth) v.items) }
{
    let mut out = Vec::with_capacity(alloc, children.len() + 2)?;
    push_children(&mut out, &children[..from])?;
    push_grown(alloc, &mut out, grown)?;
    push_children(&mut out, &children[to..])?;
    Ok(out)
}

/// What a node grew to, at the end of a vector.
fn push_grown(alloc: Global, out: &mut Vec<Child>, grown: Grown) -> Result<(), AllocError>
    requires few { IsCountable (length (grown_items grown)) }
    requires full { MIN_WIDTH ≤ grown_width grown }
    ensures items { OnOk result (all_items out.new.items ≡ all_items out.old.items ++ grown_items grown) }
    ensures some { OnOk result (length out.old.items + 1 ≤ length out.new.items) }
    ensures few_more { OnOk result (length out.new.items ≤ length out.old.items + 2) }
    ensures each { OnOk result ((depth : ℕ) → AreGrown depth grown → All (IsChild depth) out.old.items
        → All (IsChild depth) out.new.items) }
{
    match grown {
        Grown::One(node) => push_node(alloc, out, node),
        Grown::Two(left, right) => {
            push_node(alloc, out, left)?;
            push_node(alloc, out, right)
        }
    }
}

/// A node as a child, at the end of a vector.
pub(crate) fn push_node(alloc: Global, out: &mut Vec<Child>, node: Node) -> Result<(), AllocError>
    requires full { MIN_WIDTH ≤ node.width }
    requires few { IsCountable (length node.items) }
    ensures items { OnOk result (all_items out.new.items ≡ all_items out.old.items ++ node.items) }
    ensures count { OnOk result (length out.new.items ≡ length out.old.items + 1) }
    ensures each { OnOk result (All (IsChild node.depth) out.old.items → All (IsChild node.depth) out.new.items) }
{
    out.push(Child::new(alloc, node)?)?;
    Ok(())
}

/// The same children, at the end of a vector.
pub(crate) fn push_children(out: &mut Vec<Child>, children: &[Child]) -> Result<(), AllocError>
    ensures items { OnOk result (all_items out.new.items ≡ all_items out.old.items ++ all_items children.now) }
    ensures count { OnOk result (length out.new.items ≡ length out.old.items + length children.now) }
    ensures each { OnOk result ((depth : ℕ) → All (IsChild depth) out.old.items → All (IsChild depth) children.now
        → All (IsChild depth) out.new.items) }
{
    for child in children {
        out.push(child.copy()?)?;
    }
    Ok(())
}

/// The same children.
pub(crate) fn copied_children(alloc: Global, children: &[Child]) -> Result<Vec<Child>, AllocError>
    ensures items { IfOk result (λ v. all_items v.items ≡ all_items children.now) }
    ensures count { IfOk result (λ v. length v.items ≡ length children.now) }
    ensures each { IfOk result (λ v. (depth : ℕ) → All (IsChild depth) children.now → All (IsChild depth) v.items) }
{
    let mut out = Vec::with_capacity(alloc, children.len())?;
    for child in children {
        out.push_reserved(child.copy()?);
    }
    Ok(out)
}

/// A leaf, or two.
pub(crate) fn grown_leaf(entries: Vec<SharedEntry>) -> Result<Grown, AllocError>
    requires { length entries.items ≤ 2 * MAX_WIDTH }
    ensures { IfOk result (IsGrown 1 (length entries.items) entries.items) }
{
    let mut entries = entries;
    if entries.len() <= MAX_WIDTH {
        return Ok(Grown::One(Node {
            body: Body::Leaf(entries),
        }));
    }
    let right = entries.split_off(entries.len() / 2)?;
    Ok(Grown::Two(
        Node {
            body: Body::Leaf(entries),
        },
        Node {
            body: Body::Leaf(right),
        },
    ))
}

/// An inner node, or two.
pub(crate) fn grown_inner(children: Vec<Child>) -> Result<Grown, AllocError>
    requires some { 1 ≤ length children.items }
    requires room { length children.items ≤ 2 * MAX_WIDTH }
    requires each { All (IsChild (depth_of children.items)) children.items }
    ensures { IfOk result (IsGrown (1 + depth_of children.items) (length children.items) (all_items children.items)) }
{
    let mut children = children;
    if children.len() <= MAX_WIDTH {
        return Ok(Grown::One(Node {
            body: Body::Inner(children),
        }));
    }
    let right = children.split_off(children.len() / 2)?;
    Ok(Grown::Two(
        Node {
            body: Body::Inner(children),
        },
        Node {
            body: Body::Inner(right),
        },
    ))
}

/// The inner node above two nodes.
pub(crate) fn above(alloc: Global, left: Node, right: Node) -> Result<Node, AllocError>
    requires depth { left.depth ≡ right.depth }
    requires left_full { MIN_WIDTH ≤ left.width }
    requires right_full { MIN_WIDTH ≤ right.width }
    requires few { IsCountable (length left.items + length right.items) }
    ensures width { IfOk result (λ n. n.width ≡ 2) }
    ensures items { IfOk result (λ n. n.items ≡ left.items ++ right.items) }
{
    let mut children = Vec::with_capacity(alloc, 2)?;
    push_node(alloc, &mut children, left)?;
    push_node(alloc, &mut children, right)?;
    Ok(Node {
        body: Body::Inner(children),
    })
}
