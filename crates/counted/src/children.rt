//! The children of a node, read by what is kept of each.
ghost use Rattle.std.specs.Prelude.{◌≡◌, ◌+◌, ◌<◌, ◌≤◌, length, slice_index_or, take, drop};
ghost use Rattle.counted.specs.Few.{IsCountable};
ghost use Rattle.counted.specs.declared.node.Child.{Child};
ghost use Rattle.counted.specs.Leads.{lead_at};
ghost use Rattle.counted.specs.Shapes.{AreChildren, all_items, items_of};
ghost use Rattle.counted.specs.Sums.{total};

use crate::entry::Lead;
use crate::node::Child;

/// How many entries the children have.
pub(crate) fn count_of(children: &[Child]) -> usize
    requires children { AreChildren children.now }
    requires few { IsCountable (length (all_items children.now)) }
    ensures { result ≡ length (all_items children.now) }
{
    let mut count = 0;
    for child in children {
        count += child.count;
    }
    count
}

/// What the children's entries add.
pub(crate) fn net_of(children: &[Child]) -> i64
    requires children { AreChildren children.now }
    requires few { IsCountable (length (all_items children.now)) }
    ensures { result ≡ total (all_items children.now) }
{
    let mut net = 0;
    for child in children {
        net += child.net;
    }
    net
}

/// How many entries the children before an index have, and what those add.
pub(crate) fn sums_before(children: &[Child], index: usize) -> (usize, i64)
    requires children { AreChildren children.now }
    requires within { index < length children.now }
    requires few { IsCountable (length (all_items children.now)) }
    ensures count { result.0 ≡ length (all_items (take index children.now)) }
    ensures net { result.1 ≡ total (all_items (take index children.now)) }
{
    let mut count = 0;
    let mut net = 0;
    for child in &children[..index] {
        count += child.count;
        net += child.net;
    }
    (count, net)
}

/// The lead of the first entry after those of a child: that of the next one, or else the one that is given.
pub(crate) fn lead_behind(children: &[Child], index: usize, next: Option<Lead>) -> Option<Lead>
    requires children { AreChildren children.now }
    requires within { index < length children.now }
    ensures more { index + 1 < length children.now → result ≡ lead_at (all_items (drop (index + 1) children.now)) 0 }
    ensures last { length children.now ≤ index + 1 → result ≡ next }
{
    if index + 1 < children.len() {
        Some(children[index + 1].lead)
    } else {
        next
    }
}

/// The child at which so many entries end, and how many of them are its own: none only where there is none in all.
pub(crate) fn child_at(children: &[Child], at: usize) -> (usize, usize)
    requires children { AreChildren children.now }
    requires within { at ≤ length (all_items children.now) }
    ensures child { result.0 < length children.now }
    ensures index { result.1 + length (all_items (take result.0 children.now)) ≡ at }
    ensures room { (d : Child) → result.1 ≤ length (items_of (slice_index_or children.now result.0 d)) }
    ensures some { 1 ≤ at → 1 ≤ result.1 }
{
    let mut index = 0;
    let mut rest = at;
    while index + 1 < children.len() && children[index].count < rest {
        rest -= children[index].count;
        index += 1;
    }
    (index, rest)
}

/// The child that holds the entry at an index, and the index within it.
pub(crate) fn child_of(children: &[Child], at: usize) -> (usize, usize)
    requires children { AreChildren children.now }
    requires within { at < length (all_items children.now) }
    ensures child { result.0 < length children.now }
    ensures index { result.1 + length (all_items (take result.0 children.now)) ≡ at }
    ensures holds { (d : Child) → result.1 < length (items_of (slice_index_or children.now result.0 d)) }
{
    let mut index = 0;
    let mut rest = at;
    while index + 1 < children.len() && children[index].count <= rest {
        rest -= children[index].count;
        index += 1;
    }
    (index, rest)
}
