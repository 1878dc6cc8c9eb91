//! The search by SID: where an insert, what becomes of the base row, or a change is among the entries at a SID, with what
//! is there. A caller who then changes what it found searches no more.
ghost use Rattle.std.specs.Prelude.{◌≡◌, ◌<◌, ◌^◌, ◌&&◌, ◌||◌, List, [], not, is_some, length, drop, take, slice_get, IsNone};
ghost use Rattle.std.specs.Option.{option_copied};
ghost use Rattle.model.specs.declared.entry.Entry.{Entry};
ghost use Rattle.model.specs.Entries.{IsLawful};
ghost use Rattle.model.specs.Places.{rid_of_insert};
ghost use Rattle.delta.specs.BySid.{base_change, is_deleted, row_sought, stand_of};
ghost use Rattle.delta.specs.Search.{stands_before, IsSplit};
ghost use Rattle.delta.specs.declared.by_sid.BaseChange.TheVariants.{Kept, Modified};

use crate::places::row_behind;
use crate::tree::DeltaTree;
use counted::{ChangeRef, EntryPlace, Iter, SharedEntry};
use values::{SharedRow, Value};

/// What is looked for at a SID.
#[derive(Clone, Copy)]
pub enum Sought<'a> {
    /// The insert of the key of these cells.
    Insert(&'a [Value]),
    /// What becomes of the base row: its delete, or its modifies.
    Base,
    /// A change.
    Change(ChangeRef<'a>),
}

/// What becomes of the base row at a SID.
#[derive(Clone, Copy, Debug, PartialEq, Eq)]
pub enum BaseChange {
    /// It stays as it is.
    Kept,
    /// It has other cells.
    Modified,
    Deleted,
}

/// The place of what is looked for at a SID, and what is there.
#[derive(Drop)]
pub struct SidPlace<'a> {
    /// How many entries stand before it.
    pub index: usize,
    /// The position of its row in the image; of a deleted row, that of the next one.
    pub rid: u64,
    /// The row that is inserted with the key, where an insert is looked for and there is one.
    pub row: Option<&'a SharedRow>,
    /// By the entry that stands there, what becomes of the base row. Where that has the key, so that no insert of a greater
    /// one stands before its changes, this is all that becomes of it.
    pub base: BaseChange,
    /// The entries from there on.
    pub entries: Iter<'a>,
}

impl<'a> SidPlace<'a> {
    /// The entry there, if there is one.
    pub fn entry(&self) -> Option<&'a SharedEntry>
        ensures { (es : List Entry) → self.now.entries ≡ drop self.now.index es → option_copied result ≡ slice_get es self.now.index }
    {
        self.entries.first()
    }

    /// Whether the image has the key, from whether the rows below the tree have it.
    pub fn is_there(&self, is_below: bool) -> bool
        ensures { result ≡ (is_some (option_copied self.now.row) || (is_below && not (is_deleted self.now.base))) }
    {
        match self.row {
            Some(_) => true,
            None => is_below && !is_deleted(self.base),
        }
    }
}

impl DeltaTree {
    /// Where what is looked for stands at a SID, or would stand, and what stands there. One descent; it takes no memory.
    pub fn find(&self, sid: u64, sought: Sought<'_>) -> SidPlace<'_>
        requires { sid < 2 ^ 63 }
        ensures split { IsSplit (stands_before (stand_of self.now.key_cols sought.entry) sid) self.now.entries result.index }
        ensures rid { result.rid ≡ rid_of_insert (take result.index self.now.entries) sid }
        ensures row { option_copied result.row ≡ row_sought self.now.key_cols sid sought.entry self.now.entries }
        ensures base { result.base ≡ base_change sid (slice_get self.now.entries result.index) }
        ensures small { result.base ≡ Modified → sid < 2 ^ 32 }
        ensures rest { result.entries ≡ drop result.index self.now.entries }
        ensures lawful { IsLawful self.now.key_cols self.now.entries }
    {
        if self.tree.len() == 0 {
            return self.nothing_at(sid);
        }
        let place = self.place_of(sid, sought);
        let row = self.row_sought(&place, sid, sought);
        let base = base_change(place.entry(), sid);
        SidPlace {
            index: place.index,
            rid: row_behind(self, sid, place.index, place.shift),
            row,
            base,
            entries: place.entries,
        }
    }

    /// The place of whatever is looked for at a SID, where there are no entries.
    fn nothing_at(&self, sid: u64) -> SidPlace<'_>
        requires { length self.now.entries ≡ 0 }
        ensures index { result.index ≡ 0 }
        ensures rid { result.rid ≡ sid }
        ensures row { IsNone (option_copied result.row) }
        ensures base { result.base ≡ Kept }
        ensures rest { result.entries ≡ [] }
    {
        SidPlace {
            index: 0,
            rid: sid,
            row: None,
            base: BaseChange::Kept,
            entries: self.tree.iter(0, 0),
        }
    }

    /// The row that is inserted with the key, where an insert is looked for, by the place of it.
    fn row_sought<'a>(
        &self,
        place: &EntryPlace<'a>,
        sid: u64,
        sought: Sought<'_>,
    ) -> Option<&'a SharedRow>
        requires split { IsSplit (stands_before (stand_of self.now.key_cols sought) sid) self.now.entries place.now.index }
        requires rest { place.now.entries ≡ drop place.now.index self.now.entries }
        ensures { option_copied result ≡ row_sought self.now.key_cols sid sought.entry self.now.entries }
    {
        match sought {
            Sought::Insert(key) => self.insert_at(place, sid, key),
            Sought::Base | Sought::Change(_) => None,
        }
    }
}

/// Whether the base row goes.
fn is_deleted(base: BaseChange) -> bool
    ensures { result ≡ is_deleted base }
{
    match base {
        BaseChange::Kept | BaseChange::Modified => false,
        BaseChange::Deleted => true,
    }
}

/// What the entry makes of the base row at the SID.
fn base_change(there: Option<&SharedEntry>, sid: u64) -> BaseChange
    ensures { result ≡ base_change sid (option_copied there.entry) }
{
    match there {
        Some(entry) if entry.sid() == sid => match entry.change() {
            ChangeRef::Ins(_) => BaseChange::Kept,
            ChangeRef::Del(_) => BaseChange::Deleted,
            ChangeRef::Mod(..) => BaseChange::Modified,
        },
        _ => BaseChange::Kept,
    }
}
