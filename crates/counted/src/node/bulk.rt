//! A tree of entries that are in order: level by level, each from the left.
ghost use Rattle.std.specs.Prelude.{◌≡◌, suc, ◌+◌, ◌<◌, ◌≤◌, ◌++◌, length, IfOk, OnOk};
ghost use Rattle.std.specs.List.{All};
ghost use Rattle.std.specs.Vec.Iter.{into_iter_items, into_iter_len};
ghost use Rattle.counted.specs.Few.{IsFew};
ghost use Rattle.counted.specs.declared.node.TheConstants.{MAX_WIDTH, MIN_WIDTH};
ghost use Rattle.counted.specs.Shapes.{IsChild, all_items, depth_of};
ghost use Rattle.counted.specs.Trees.{IsRoot};

use crate::SharedEntry;
use crate::node::grown::push_node;
use crate::node::{Body, Child, MAX_WIDTH, Node};
use model::Entry;
use std::alloc::{AllocError, Global};
use std::vec::IntoIter;

/// The root over these entries.
pub(crate) fn root_over(alloc: Global, entries: Vec<SharedEntry>) -> Result<Node, AllocError>
    requires few { IsFew (length entries.items) }
    ensures root { IfOk result IsRoot }
    ensures items { IfOk result (λ n. n.items ≡ entries.items) }
{
    if entries.len() <= MAX_WIDTH {
        return Ok(Node {
            body: Body::Leaf(entries),
        });
    }
    let mut level = leaves(alloc, entries)?;
    while level.len() > MAX_WIDTH {
        level = parents(alloc, level)?;
    }
    Ok(Node {
        body: Body::Inner(level),
    })
}

/// The entries, each with a change that nobody shares yet.
pub(crate) fn shared(alloc: Global, entries: Vec<Entry>) -> Result<Vec<SharedEntry>, AllocError>
    ensures { IfOk result (λ v. v.items ≡ entries.items) }
{
    let mut out = Vec::with_capacity(alloc, entries.len())?;
    for entry in entries {
        out.push(SharedEntry::new(alloc, entry)?)?;
    }
    Ok(out)
}

/// Leaves of the entries.
fn leaves(alloc: Global, entries: Vec<SharedEntry>) -> Result<Vec<Child>, AllocError>
    requires many { MAX_WIDTH < length entries.items }
    requires few { IsFew (length entries.items) }
    ensures some { IfOk result (λ v. 2 ≤ length v.items) }
    ensures items { IfOk result (λ v. all_items v.items ≡ entries.items) }
    ensures each { IfOk result (λ v. All (IsChild 1) v.items) }
{
    let mut children = Vec::with_capacity(alloc, entries.len() / MAX_WIDTH + 1)?;
    let mut rest = entries.into_iter();
    while rest.len() > 0 {
        let count = share_of(rest.len());
        let entries = next_of(alloc, &mut rest, count)?;
        let leaf = Node {
            body: Body::Leaf(entries),
        };
        push_node(alloc, &mut children, leaf)?;
    }
    Ok(children)
}

/// Inner nodes of the children.
fn parents(alloc: Global, children: Vec<Child>) -> Result<Vec<Child>, AllocError>
    requires many { MAX_WIDTH < length children.items }
    requires each { All (IsChild (depth_of children.items)) children.items }
    requires few { IsFew (length (all_items children.items)) }
    ensures some { IfOk result (λ v. 2 ≤ length v.items) }
    ensures fewer { IfOk result (λ v. length v.items < length children.items) }
    ensures items { IfOk result (λ v. all_items v.items ≡ all_items children.items) }
    ensures each { IfOk result (λ v. All (IsChild (suc (depth_of children.items))) v.items) }
{
    let mut out = Vec::with_capacity(alloc, children.len() / MAX_WIDTH + 1)?;
    let mut rest = children.into_iter();
    while rest.len() > 0 {
        let count = share_of(rest.len());
        let children = next_of(alloc, &mut rest, count)?;
        let inner = Node {
            body: Body::Inner(children),
        };
        push_node(alloc, &mut out, inner)?;
    }
    Ok(out)
}

/// How many of those that are left make the next node: a full one, and of the last two each about a half.
fn share_of(left: usize) -> usize
    requires { MIN_WIDTH ≤ left }
    ensures full { MIN_WIDTH ≤ result }
    ensures room { result ≤ MAX_WIDTH }
    ensures within { result ≤ left }
    ensures rest { result < left → result + MIN_WIDTH ≤ left }
{
    if left >= 2 * MAX_WIDTH {
        MAX_WIDTH
    } else if left > MAX_WIDTH {
        left / 2
    } else {
        left
    }
}

/// The next so many of what is left.
fn next_of<T: Drop>(
    alloc: Global,
    rest: &mut IntoIter<T, Global>,
    count: usize,
) -> Result<Vec<T>, AllocError>
    requires within { count ≤ into_iter_len rest.old }
    ensures items { IfOk result (λ v. into_iter_items rest.old ≡ v.items ++ into_iter_items rest.new) }
    ensures count { IfOk result (λ v. length v.items ≡ count) }
    ensures left { OnOk result (into_iter_len rest.new + count ≡ into_iter_len rest.old) }
{
    let mut out = Vec::with_capacity(alloc, count)?;
    for _ in 0..count {
        if let Some(item) = rest.next() {
            out.push(item)?;
        }
    }
    Ok(out)
}
