//! Binary search in the entries of a tree: by SID, and among those of one SID by what the change is.
ghost use Rattle.std.specs.Prelude.{◌≡◌, T, drop, slice_get, take};
ghost use Rattle.std.specs.Option.{option_copied};
ghost use Rattle.std.specs.List.{list_all};
ghost use Rattle.model.specs.Entries.{change_cmp, IsLawful};
ghost use Rattle.counted.specs.Changes.{change_of};
ghost use Rattle.counted.specs.Sums.{total};
ghost use Rattle.delta.specs.Ahead.{IsAhead};
ghost use Rattle.delta.specs.BySid.{stand_of};
ghost use Rattle.delta.specs.Search.{first_cmp, insert_cmp, base_cmp, modify_cmp, past_cmp, stands_before, IsClosed, IsSplit};
ghost use Rattle.delta.specs.Search.{insert_by_weight, base_by_weight, modify_by_weight, past_by_weight};

use crate::by_sid::Sought;
use crate::tree::DeltaTree;
use counted::{ChangeRef, EntryPlace, First, Iter, Probe, SharedEntry, Target};
use std::cmp::Ordering;
use values::Value;

/// An insert of a key.
#[derive(Drop)]
struct InsertOf<'a> {
    key_cols: usize,
    key: &'a [Value],
}

/// What becomes of the base row.
struct BaseRow;

/// A modify of a column.
#[derive(Drop)]
struct ModifyOf {
    col: usize,
}

/// What is past all at a SID.
struct Past;

/// The entries from an index on, with the first of them, if there is one, at hand.
#[derive(Drop)]
pub(crate) struct Ahead<'a> {
    pub(crate) index: usize,
    pub(crate) next: Option<&'a SharedEntry>,
    /// Those after it.
    pub(crate) rest: Iter<'a>,
}

impl<'a> Probe for InsertOf<'a> {
    ghost stand = { λ p. insert_cmp p.key_cols p.key.now };

    ghost by_weight = { λ p. insert_by_weight };

    fn compare(&self, change: ChangeRef<'_>) -> Ordering {
        compare_insert(self.key_cols, self.key, change)
    }

    fn compare_weight(&self, weight: i64) -> Option<Ordering> {
        if weight > 0 {
            None
        } else {
            Some(Ordering::Less)
        }
    }
}

impl Probe for BaseRow {
    ghost stand = { λ p. base_cmp };

    ghost by_weight = { λ p. base_by_weight };

    fn compare(&self, change: ChangeRef<'_>) -> Ordering {
        compare_base(change)
    }

    fn compare_weight(&self, weight: i64) -> Option<Ordering> {
        if weight > 0 {
            Some(Ordering::Greater)
        } else {
            Some(Ordering::Equal)
        }
    }
}

impl Probe for ModifyOf {
    ghost stand = { λ p. modify_cmp p.col };

    ghost by_weight = { λ p. modify_by_weight };

    fn compare(&self, change: ChangeRef<'_>) -> Ordering {
        compare_modify(self.col, change)
    }

    fn compare_weight(&self, weight: i64) -> Option<Ordering> {
        if weight > 0 {
            Some(Ordering::Greater)
        } else if weight < 0 {
            Some(Ordering::Equal)
        } else {
            None
        }
    }
}

impl Probe for Past {
    ghost stand = { λ p. past_cmp };

    ghost by_weight = { λ p. past_by_weight };

    fn compare(&self, _change: ChangeRef<'_>) -> Ordering {
        Ordering::Greater
    }

    fn compare_weight(&self, _weight: i64) -> Option<Ordering> {
        Some(Ordering::Greater)
    }
}

impl DeltaTree {
    /// Where what is looked for at the SID stands, what the entries before it add, and the entries from there on. One descent.
    fn place<P: Probe>(&self, sid: u64, probe: &P) -> EntryPlace<'_>
        requires { IsClosed self.now.key_cols (P.stand probe.now) }
        ensures split { IsSplit (stands_before (P.stand probe.now) sid) self.now.entries result.index }
        ensures shift { result.shift ≡ total (take result.index self.now.entries) }
        ensures rest { result.entries ≡ drop result.index self.now.entries }
        ensures lawful { IsLawful self.now.key_cols self.now.entries }
    {
        self.tree.place(Target::Sid(sid), probe)
    }

    /// Where what is looked for at the SID stands, from a place on where it may stand, and the entry there: past the entries
    /// from there on that stand before it.
    fn onward<'a, P: Probe>(
        &self,
        ahead: Ahead<'a>,
        sid: u64,
        probe: &P,
    ) -> (usize, Option<&'a SharedEntry>)
        requires closed { IsClosed self.now.key_cols (P.stand probe.now) }
        requires lawful { IsLawful self.now.key_cols self.now.entries }
        requires ahead { IsAhead self.now.entries ahead }
        requires before { T (list_all (stands_before (P.stand probe.now) sid) (take ahead.index self.now.entries)) }
        ensures split { IsSplit (stands_before (P.stand probe.now) sid) self.now.entries result.0 }
        ensures entry { option_copied result.1 ≡ slice_get self.now.entries result.0 }
    {
        let Ahead {
            mut index,
            mut next,
            mut rest,
        } = ahead;
        while let Some(entry) = next {
            if !entry.is_before(Target::Sid(sid), 0, probe) {
                break;
            }
            next = rest.next();
            index += 1;
        }
        (index, next)
    }

    /// The end of the entries at the SID, past those of the base row from here on.
    pub(crate) fn end_of(&self, ahead: Ahead<'_>, sid: u64) -> usize
        requires lawful { IsLawful self.now.key_cols self.now.entries }
        requires ahead { IsAhead self.now.entries ahead }
        requires before { T (list_all (stands_before base_cmp sid) (take ahead.index self.now.entries)) }
        ensures { IsSplit (stands_before past_cmp sid) self.now.entries result }
    {
        self.onward(ahead, sid, &Past).0
    }

    /// Where the modifies of this column, or a greater one, stand at the SID, among those of the base row from here on.
    pub(crate) fn modify_from<'a>(
        &self,
        ahead: Ahead<'a>,
        sid: u64,
        col: usize,
    ) -> (usize, Option<&'a SharedEntry>)
        requires lawful { IsLawful self.now.key_cols self.now.entries }
        requires ahead { IsAhead self.now.entries ahead }
        requires before { T (list_all (stands_before base_cmp sid) (take ahead.index self.now.entries)) }
        ensures split { IsSplit (stands_before (modify_cmp col) sid) self.now.entries result.0 }
        ensures entry { option_copied result.1 ≡ slice_get self.now.entries result.0 }
    {
        self.onward(ahead, sid, &ModifyOf { col })
    }

    /// How many entries stand at SIDs below this one.
    pub(crate) fn index_of_sid(&self, sid: u64) -> usize
        ensures { IsSplit (stands_before first_cmp sid) self.now.entries result }
    {
        self.place(sid, &First).index
    }

    /// Where the inserts of this key, or a greater one, stand at the SID.
    pub(crate) fn place_of_insert(&self, sid: u64, key: &[Value]) -> EntryPlace<'_>
        ensures split { IsSplit (stands_before (insert_cmp self.now.key_cols key.now) sid) self.now.entries result.index }
        ensures shift { result.shift ≡ total (take result.index self.now.entries) }
        ensures rest { result.entries ≡ drop result.index self.now.entries }
        ensures lawful { IsLawful self.now.key_cols self.now.entries }
    {
        self.place(
            sid,
            &InsertOf {
                key_cols: self.key_cols,
                key,
            },
        )
    }

    /// How many entries stand before the inserts of this key, or a greater one, at the SID.
    pub(crate) fn index_of_insert(&self, sid: u64, key: &[Value]) -> usize
        ensures { IsSplit (stands_before (insert_cmp self.now.key_cols key.now) sid) self.now.entries result }
    {
        self.place_of_insert(sid, key).index
    }

    /// Where what becomes of the base row at the SID stands: its delete or its modifies, past the inserts there.
    pub(crate) fn place_of_base(&self, sid: u64) -> EntryPlace<'_>
        ensures split { IsSplit (stands_before base_cmp sid) self.now.entries result.index }
        ensures shift { result.shift ≡ total (take result.index self.now.entries) }
        ensures rest { result.entries ≡ drop result.index self.now.entries }
        ensures lawful { IsLawful self.now.key_cols self.now.entries }
    {
        self.place(sid, &BaseRow)
    }

    /// How many entries stand at SIDs up to this one.
    pub(crate) fn index_past(&self, sid: u64) -> usize
        ensures { IsSplit (stands_before past_cmp sid) self.now.entries result }
    {
        self.place(sid, &Past).index
    }

    /// Where the modifies of this column, or a greater one, stand at the SID.
    pub(crate) fn place_of_modify(&self, sid: u64, col: usize) -> EntryPlace<'_>
        ensures split { IsSplit (stands_before (modify_cmp col) sid) self.now.entries result.index }
        ensures shift { result.shift ≡ total (take result.index self.now.entries) }
        ensures rest { result.entries ≡ drop result.index self.now.entries }
        ensures lawful { IsLawful self.now.key_cols self.now.entries }
    {
        self.place(sid, &ModifyOf { col })
    }

    /// Where what is looked for at the SID stands, or would stand.
    pub(crate) fn place_of(&self, sid: u64, sought: Sought<'_>) -> EntryPlace<'_>
        ensures split { IsSplit (stands_before (stand_of self.now.key_cols sought.entry) sid) self.now.entries result.index }
        ensures shift { result.shift ≡ total (take result.index self.now.entries) }
        ensures rest { result.entries ≡ drop result.index self.now.entries }
        ensures lawful { IsLawful self.now.key_cols self.now.entries }
    {
        match sought {
            Sought::Insert(key) => self.place_of_insert(sid, key),
            Sought::Base => self.place_of_base(sid),
            Sought::Change(change) => self.place_of_change(sid, change),
        }
    }

    /// Where a change stands at the SID, or would stand.
    fn place_of_change(&self, sid: u64, change: ChangeRef<'_>) -> EntryPlace<'_>
        ensures split { IsSplit (stands_before (change_cmp self.now.key_cols (change_of change.entry)) sid) self.now.entries result.index }
        ensures shift { result.shift ≡ total (take result.index self.now.entries) }
        ensures rest { result.entries ≡ drop result.index self.now.entries }
        ensures lawful { IsLawful self.now.key_cols self.now.entries }
    {
        match change {
            ChangeRef::Ins(row) => self.place_of_insert(sid, row.key(self.key_cols)),
            ChangeRef::Del(_) => self.place_of_base(sid),
            ChangeRef::Mod(col, _) => self.place_of_modify(sid, col),
        }
    }
}

/// How an insert of the key stands to a change at its SID.
pub(crate) fn compare_insert(key_cols: usize, key: &[Value], change: ChangeRef<'_>) -> Ordering
    ensures { result ≡ insert_cmp key_cols key.now (change_of change.entry) }
{
    match change {
        ChangeRef::Ins(row) => key.cmp(row.key(key_cols)),
        _ => Ordering::Less,
    }
}

/// How what becomes of the base row stands to a change at its SID.
fn compare_base(change: ChangeRef<'_>) -> Ordering
    ensures { result ≡ base_cmp (change_of change.entry) }
{
    match change {
        ChangeRef::Ins(_) => Ordering::Greater,
        _ => Ordering::Equal,
    }
}

/// How a modify of the column stands to a change at its SID.
fn compare_modify(col: usize, change: ChangeRef<'_>) -> Ordering
    ensures { result ≡ modify_cmp col (change_of change.entry) }
{
    match change {
        ChangeRef::Ins(_) => Ordering::Greater,
        ChangeRef::Del(_) => Ordering::Equal,
        ChangeRef::Mod(other, _) => col.cmp(&other),
    }
}
