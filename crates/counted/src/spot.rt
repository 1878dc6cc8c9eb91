//! Where a search ended.
ghost use Rattle.std.specs.Prelude.{◌≡◌, ◌+◌, ◌<◌, ◌≤◌, ◌+ℤ◌, pos, None, List, [], length, take, slice_index_or};
ghost use Rattle.model.specs.declared.entry.Entry.{Entry};
ghost use Rattle.counted.specs.Few.{IsFew};
ghost use Rattle.counted.specs.declared.node.Child.{Child};
ghost use Rattle.counted.specs.Descents.{AreBelow, IsAt};
ghost use Rattle.counted.specs.Leads.{lead_at};
ghost use Rattle.counted.specs.Shapes.{AreChildren, all_items, items_of};
ghost use Rattle.counted.specs.Sums.{total};

use crate::children::{lead_behind, sums_before};
use crate::entry::Lead;
use crate::leaf::total_of;
use crate::node::Child;
use crate::{SharedEntry, Steps};
use std::sync::ledger::Ledger;

/// Where a search ended: how many entries are before it, what those add, the entries that come next in its leaf, and the
/// lead of the entry there.
#[derive(Clone, Copy)]
pub struct Spot<'a> {
    pub index: usize,
    pub shift: i64,
    pub leaf: &'a [SharedEntry],
    pub lead: Option<Lead>,
}

impl<'a> Spot<'a> {
    /// The place before all entries where there are none, which takes a step too.
    pub(crate) fn first<L: Ledger>(steps: &mut Steps<L>) -> Spot<'a>
        ensures index { result.index ≡ 0 }
        ensures at { IsAt [] 0 result.shift result.leaf.now result.lead }
        ensures steps { steps.new ≡ steps.old + 1 }
    {
        steps.tick();
        Spot {
            index: 0,
            shift: 0,
            leaf: &[],
            lead: None,
        }
    }
}

/// How far a descent has come: how many entries are before a node, what those add, and the lead of the one behind it.
#[derive(Clone, Copy)]
pub(crate) struct Above {
    index: usize,
    pub(crate) shift: i64,
    next: Option<Lead>,
}

impl Above {
    /// Before the root.
    pub(crate) fn root() -> Above
        ensures { result ≡ record { index = 0; shift = pos 0; next = None } }
    {
        Above {
            index: 0,
            shift: 0,
            next: None,
        }
    }

    /// Before a child of the node.
    pub(crate) fn child(self, children: &[Child], at: usize) -> Above
        requires children { AreChildren children.now }
        requires within { at < length children.now }
        requires below { (items : List Entry) × IsFew (length items)
            × AreBelow items self.index self.shift (all_items children.now) self.next }
        ensures index { result.index ≡ self.index + length (all_items (take at children.now)) }
        ensures shift { result.shift ≡ self.shift +ℤ total (all_items (take at children.now)) }
        ensures below { (items : List Entry) (d : Child)
            → AreBelow items self.index self.shift (all_items children.now) self.next
            → AreBelow items result.index result.shift (items_of (slice_index_or children.now at d)) result.next }
    {
        let (count, net) = sums_before(children, at);
        Above {
            index: self.index + count,
            shift: self.shift + net,
            next: lead_behind(children, at, self.next),
        }
    }

    /// A place among the entries of the node, which is a leaf.
    pub(crate) fn spot(self, entries: &[SharedEntry], at: usize) -> Spot<'_>
        requires within { at ≤ length entries.now }
        requires below { (items : List Entry) × IsFew (length items)
            × AreBelow items self.index self.shift entries.now self.next }
        ensures index { result.index ≡ self.index + at }
        ensures at { (items : List Entry)
            → AreBelow items self.index self.shift entries.now self.next
            → IsAt items result.index result.shift result.leaf.now result.lead }
    {
        Spot {
            index: self.index + at,
            shift: self.shift + total_of(&entries[..at]),
            leaf: &entries[at..],
            lead: lead_or(entries, at, self.next),
        }
    }
}

/// The lead of the entry at an index, or else the one that is given.
fn lead_or(entries: &[SharedEntry], at: usize, next: Option<Lead>) -> Option<Lead>
    ensures lead { at < length entries.now → result ≡ lead_at entries.now at }
    ensures next { length entries.now ≤ at → result ≡ next }
{
    if at < entries.len() {
        Some(entries[at].lead())
    } else {
        next
    }
}
