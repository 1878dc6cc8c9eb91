//! Positions in the image above: how far the entries move what is at a SID, and what is at a position.
ghost use Rattle.std.specs.Prelude.{◌≡◌, false, ◌<◌, ◌≤◌, ◌^◌, ◌+ℤ◌, ◌≤ℤ◌, Option, drop, length, pos, take};
ghost use Rattle.std.specs.Option.{option_copied, option_map};
ghost use Rattle.std.specs.Ordering.{is_gt};
ghost use Rattle.values.specs.declared.row.Row.{Row};
ghost use Rattle.counted.specs.Changes.{change_of};
ghost use Rattle.counted.specs.declared.search.Target.TheVariants.{Rid};
ghost use Rattle.counted.specs.Leads.{lead_of};
ghost use Rattle.counted.specs.Search.{is_before, IsPlace};
ghost use Rattle.counted.specs.Sums.{total};
ghost use Rattle.model.specs.declared.entry.Entry.{Entry};
ghost use Rattle.model.specs.Entries.{is_delete, IsLawful};
ghost use Rattle.model.specs.declared.entry.Change.TheVariants.{Ins};
ghost use Rattle.model.specs.Places.{delete_count, rid_of_insert};
ghost use Rattle.delta.specs.Positions.{shift_before, past_deletes, past_where, IsAtRid};
ghost use Rattle.delta.specs.Depth.{CountsEachLevel};
ghost use Rattle.delta.specs.Walks.{IsWalk, place_at};

use crate::tree::DeltaTree;
use counted::{ChangeRef, CountedTree, Iter, Lead, Probe, SharedEntry, Steps, Target};
use std::cmp::Ordering;
use std::sync::ledger::Ledger;

/// Where the row at a position of the image comes from.
#[derive(Clone, Copy, Debug, PartialEq, Eq)]
pub enum Place {
    /// The insert that is the entry at this index.
    Inserted(usize),
    /// The base row at this SID.
    Base(u64),
}

/// Where a walk over the image begins.
#[derive(Drop)]
pub struct Walk<'a> {
    /// How many entries it has passed.
    pub index: usize,
    /// The base row that is next.
    pub sid: u64,
    /// The entries from there on.
    pub entries: Iter<'a>,
}

/// The row at a position, which is after the deletes there, and before its own modifies.
struct RowThere;

impl Probe for RowThere {
    ghost stand = { λ p c. past_where (is_delete c) };

    ghost by_weight = { λ p. past_deletes };

    fn compare(&self, change: ChangeRef<'_>) -> Ordering {
        past_where(is_delete(change))
    }

    fn compare_weight(&self, weight: i64) -> Option<Ordering> {
        Some(past_where(weight < 0))
    }
}

impl DeltaTree {
    /// The inserts less the deletes of the entries at SIDs below this one: how far they move what stands there. It reads
    /// one node on each level, and takes no memory.
    pub fn shift_before<L: Ledger>(&self, sid: u64, steps: &mut Steps<L>) -> i64
        ensures shift { result ≡ shift_before sid self.now.entries }
        ensures steps { CountsEachLevel (length self.now.entries) steps.old steps.new }
    {
        self.tree.shift_before(sid, steps)
    }

    /// Where the row at a position of the image comes from; the base is thought to go on without end. It reads one node on
    /// each level, and takes no memory.
    pub fn find_rid<L: Ledger>(&self, rid: u64, steps: &mut Steps<L>) -> Place
        requires { rid < 2 ^ 63 }
        ensures at { IsAtRid self.now.entries rid result }

        // No other place has the position.
        ensures only { (place : Place) → IsAtRid self.now.entries rid place → place ≡ result }
        ensures steps { CountsEachLevel (length self.now.entries) steps.old steps.new }
    {
        let found = self.tree.place_of(Target::Rid(rid), &RowThere, steps);
        let sid = next_row(&self.tree, rid, &RowThere, found.index, found.shift);
        row_of(found.lead, found.index, sid)
    }

    /// Where a walk over the image begins at a position: at the insert whose row stands there, or before the modifies of the
    /// base row; the base is thought to go on without end. One descent finds the place and hands over the entries; it takes
    /// no memory.
    pub fn find_walk(&self, rid: u64) -> Walk<'_>
        requires { rid < 2 ^ 63 }
        ensures walk { IsWalk self.now.entries rid result.sid result.index }
        ensures rest { result.entries ≡ drop result.index self.now.entries }
        ensures lawful { IsLawful self.now.key_cols self.now.entries }
    {
        let place = self.tree.place(Target::Rid(rid), &RowThere);
        Walk {
            index: place.index,
            sid: next_row(&self.tree, rid, &RowThere, place.index, place.shift),
            entries: place.entries,
        }
    }
}

/// The base row that is next where something comes to stand at a position, behind so many entries that add so much.
pub(crate) fn next_row<P: Probe>(
    tree: &CountedTree,
    rid: u64,
    probe: &P,
    index: usize,
    shift: i64,
) -> u64
    requires rid { rid < 2 ^ 63 }
    requires few { length tree.now.entries ≤ 2 ^ 40 }

    // It comes behind no insert there.
    requires first { (row : Row) → is_gt (P.stand probe.now (Ins row)) ≡ false }
    requires place { IsPlace (is_before (P.stand probe.now) (Rid rid)) (pos 0) tree.now.entries index }
    requires shift { shift ≡ total (take index tree.now.entries) }
    ensures { (pos result +ℤ total (take index tree.now.entries)) ≡ pos rid }
{
    moved(rid, -shift)
}

/// The position of what is at a SID behind so many entries, which add so much.
pub(crate) fn row_behind(tree: &DeltaTree, sid: u64, index: usize, shift: i64) -> u64
    requires sid { sid < 2 ^ 63 }
    requires few { delete_count (take index tree.now.entries) ≤ sid }
    requires shift { shift ≡ total (take index tree.now.entries) }
    requires lawful { IsLawful tree.now.key_cols tree.now.entries }
    ensures { result ≡ rid_of_insert (take index tree.now.entries) sid }
{
    moved(sid, shift)
}

/// The row that is before a base row, by the entry there: that of an insert at its SID, or else the base row.
pub(crate) fn row_at(entry: Option<&SharedEntry>, index: usize, sid: u64) -> Place
    ensures { result ≡ place_at index sid (option_copied entry.entry) }
{
    match entry {
        Some(found) => row_of(Some(found.lead()), index, sid),
        None => Place::Base(sid),
    }
}

/// The same by the lead of the entry there.
fn row_of(lead: Option<Lead>, index: usize, sid: u64) -> Place
    ensures { (entry : Option Entry) → lead ≡ option_map lead_of entry → result ≡ place_at index sid entry }
{
    match lead {
        Some(found) if found.sid == sid && found.weight > 0 => Place::Inserted(index),
        _ => Place::Base(sid),
    }
}

/// How something stands to a change that it comes behind, where that is so, or before.
pub(crate) fn past_where(behind: bool) -> Ordering
    ensures { result ≡ past_where behind }
{
    if behind {
        Ordering::Greater
    } else {
        Ordering::Less
    }
}

/// Whether the change is a delete.
fn is_delete(change: ChangeRef<'_>) -> bool
    ensures { result ≡ is_delete (change_of change.entry) }
{
    match change {
        ChangeRef::Del(_) => true,
        ChangeRef::Ins(_) | ChangeRef::Mod(..) => false,
    }
}

/// A position, moved up by so much, or down.
fn moved(position: u64, by: i64) -> u64
    requires small { position < 2 ^ 63 }
    requires above { by ≤ℤ pos (2 ^ 61) }
    requires below { pos 0 ≤ℤ (by +ℤ pos (2 ^ 61)) }
    requires within { pos 0 ≤ℤ (pos position +ℤ by) }
    ensures { pos result ≡ pos position +ℤ by }
{
    if by < 0 {
        position - (-by) as u64
    } else {
        position + by as u64
    }
}
