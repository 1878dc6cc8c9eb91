//! The changes of a tree: an insert, a delete or a modify that comes, changes or goes.
ghost use Rattle.std.specs.Prelude.{◌≡◌, ℕ, cond, List, ◌<◌, ◌≤◌, ◌^◌, IsFalse, IsNone, IsSome, IsSomeAnd, Some, OnOk, OnErr, IfOk};
ghost use Rattle.std.specs.Prelude.{drop, length, set, slice_get};
ghost use Rattle.std.specs.Option.{option_copied};
ghost use Rattle.std.specs.List.{remove};
ghost use Rattle.model.specs.declared.entry.Entry.{Entry};
ghost use Rattle.values.specs.Shape.{key_of};
ghost use Rattle.model.specs.Entries.{entry_at, IsLawful};
ghost use Rattle.model.specs.Edits.{change_with_cell, put_ins, put_del, put_mod, take_ins, set_ins};
ghost use Rattle.delta.specs.Lookups.{has_delete, inserted_row};
ghost use Rattle.delta.specs.Search.{base_cmp, past_cmp, stands_before, IsSplit};
ghost use Rattle.delta.specs.Changes.{is_modify_at, modify_count, has_cell, entries_with, MayBePut, MayBePutAt, IsRun};

use crate::tree::{DeltaTree, copy_entry};
use counted::{ChangeRef, EntryPlace, SharedEntry};
use model::{Change, Entry};
use std::alloc::Global;
use values::{Key, NoMemory, Row, Value};

impl DeltaTree {
    /// Puts in an insert of the row, after those of smaller keys at its SID.
    ///
    /// # Errors
    ///
    /// `NoMemory` where a growth is refused: the tree is as it was, and the row is dropped.
    pub fn put_ins(&mut self, sid: u64, row: Row) -> Result<(), NoMemory>
        requires free { IsNone (inserted_row self.old.key_cols sid (key_of self.old.key_cols row) self.old.entries) }
        requires sid { sid < 2 ^ 32 }
        requires room { length (put_ins self.old.key_cols sid row self.old.entries) ≤ 2 ^ 40 }
        ensures ok { OnOk result (self.new ≡ record self.old { entries = put_ins self.old.key_cols sid row self.old.entries }) }
        ensures err { OnErr result (self.new ≡ self.old) }
    {
        let change = Change::Ins(row);
        let entry = SharedEntry::new(self.alloc, Entry { sid, change })?;
        self.put_shared(entry)
    }

    /// Puts in a delete of the base row at the SID, which has this key. The modifies of that row go away.
    ///
    /// # Errors
    ///
    /// `NoMemory` where a growth is refused: the tree is as it was, and the key is dropped.
    pub fn put_del(&mut self, sid: u64, key: Key) -> Result<(), NoMemory>
        requires free { IsFalse (has_delete sid self.old.entries) }
        requires sid { sid < 2 ^ 32 }
        requires room { length (put_del self.old.key_cols sid key self.old.entries) ≤ 2 ^ 40 }
        ensures ok { OnOk result (self.new ≡ record self.old { entries = put_del self.old.key_cols sid key self.old.entries }) }
        ensures err { OnErr result (self.new ≡ self.old) }
    {
        let change = Change::Del(key);
        let entry = SharedEntry::new(self.alloc, Entry { sid, change })?;
        self.put_shared(entry)
    }

    /// Puts in a modify of a column of the base row at the SID, in place of one that is there.
    ///
    /// # Errors
    ///
    /// `NoMemory` where a growth is refused: the tree is as it was, and the value is dropped.
    pub fn put_mod(&mut self, sid: u64, col: usize, value: Value) -> Result<(), NoMemory>
        requires free { IsFalse (has_delete sid self.old.entries) }
        requires sid { sid < 2 ^ 32 }
        requires room { length (put_mod self.old.key_cols sid col value self.old.entries) ≤ 2 ^ 40 }
        ensures ok { OnOk result (self.new ≡ record self.old { entries = put_mod self.old.key_cols sid col value self.old.entries }) }
        ensures err { OnErr result (self.new ≡ self.old) }
    {
        let change = Change::Mod(col, value);
        let entry = SharedEntry::new(self.alloc, Entry { sid, change })?;
        self.put_shared(entry)
    }

    /// Puts an entry in, as its change asks: an insert after those of smaller keys at its SID, a delete in place of the
    /// modifies of its row, a modify in place of one of its column. It goes on sharing its change.
    ///
    /// # Errors
    ///
    /// `NoMemory` where a growth is refused: the tree is as it was.
    fn put_shared(&mut self, entry: SharedEntry) -> Result<(), NoMemory>
        requires free { MayBePut self.old.key_cols entry.sid entry.change self.old.entries }
        requires sid { entry.sid < 2 ^ 32 }
        requires room { length (entries_with self.old.key_cols entry.sid entry.change self.old.entries) ≤ 2 ^ 40 }
        ensures ok { OnOk result (self.new
            ≡ record self.old { entries = entries_with self.old.key_cols entry.sid entry.change self.old.entries }) }
        ensures err { OnErr result (self.new ≡ self.old) }
    {
        let (start, end) = self.run_of(&entry);
        self.put_run(start, end, entry)
    }

    /// Puts an entry in, in the place of those from `start` up to `end`, as a search has found them. It goes on sharing its
    /// change.
    ///
    /// # Errors
    ///
    /// `NoMemory` where a growth is refused: the tree is as it was.
    pub fn put_run(&mut self, start: usize, end: usize, entry: SharedEntry) -> Result<(), NoMemory>
        requires { MayBePutAt self.old.key_cols entry.sid entry.change self.old.entries start end }
        ensures ok { OnOk result (self.new ≡ record self.old
            { entries = entries_with self.old.key_cols entry.sid entry.change self.old.entries }) }
        ensures err { OnErr result (self.new ≡ self.old) }
    {
        self.tree.replace_shared(self.alloc, start, end, entry)?;
        Ok(())
    }

    /// The places of the entries that an entry replaces, from the first up to the end.
    fn run_of(&self, entry: &SharedEntry) -> (usize, usize)
        requires free { MayBePut self.now.key_cols entry.now.sid entry.now.change self.now.entries }
        ensures run { IsRun self.now.key_cols entry.now.sid entry.now.change self.now.entries result.0 result.1 }
    {
        let sid = entry.sid();
        match entry.change() {
            ChangeRef::Ins(row) => {
                let index = self.index_of_insert(sid, row.key(self.key_cols));
                (index, index)
            }
            ChangeRef::Del(_) => {
                let place = self.place_of_base(sid);
                (place.index, self.end_of_row(&place, sid))
            }
            ChangeRef::Mod(col, _) => {
                let place = self.place_of_modify(sid, col);
                (
                    place.index,
                    place.index + modify_worth(place.entry(), sid, col),
                )
            }
        }
    }

    /// Takes the insert of this key at the SID away.
    ///
    /// # Errors
    ///
    /// `NoMemory` where a growth is refused, for the nodes on the way to it are made anew where another tree shares them or too
    /// few entries would be left beside it: the tree is as it was.
    pub fn take_ins(&mut self, sid: u64, key: &Key) -> Result<(), NoMemory>
        requires { IsSome (inserted_row self.old.key_cols sid key.now self.old.entries) }
        ensures ok { OnOk result (self.new ≡ record self.old { entries = take_ins self.old.key_cols sid key.now self.old.entries }) }
        ensures err { OnErr result (self.new ≡ self.old) }
    {
        let index = self.index_of_insert(sid, key.cells());
        self.tree.remove(self.alloc, index)?;
        Ok(())
    }

    /// Takes the entry at an index away, as one does with the insert that a search has found there.
    ///
    /// # Errors
    ///
    /// `NoMemory` where a growth is refused, for the nodes on the way to it are made anew where another tree shares them or too
    /// few entries would be left beside it: the tree is as it was.
    pub fn take_at(&mut self, at: usize) -> Result<(), NoMemory>
        requires { at < length self.old.entries }
        ensures ok { OnOk result (self.new ≡ record self.old { entries = remove self.old.entries at }) }
        ensures err { OnErr result (self.new ≡ self.old) }
    {
        self.tree.remove(self.alloc, at)?;
        Ok(())
    }

    /// Puts another value into a cell of the row that the entry at an index inserts, as a search has found it there.
    ///
    /// # Errors
    ///
    /// `NoMemory` where a growth is refused, for its row is made anew, and the nodes on the way to it where another tree shares
    /// them: the tree is as it was.
    pub fn set_at(&mut self, at: usize, col: usize, value: Value) -> Result<(), NoMemory>
        requires within { at < length self.old.entries }
        requires there { (e : Entry) → slice_get self.old.entries at ≡ Some e → has_cell col e.change }
        requires outside_key { self.old.key_cols ≤ col }
        ensures ok { OnOk result ((e : Entry) → slice_get self.old.entries at ≡ Some e → self.new
            ≡ record self.old { entries = set self.old.entries at (entry_at e.sid (change_with_cell col value e.change)) }) }
        ensures err { OnErr result (self.new ≡ self.old) }
    {
        let entry = with_cell(self.alloc, self.tree.get(at), col, value)?;
        self.tree.replace_run(self.alloc, at, at + 1, entry)?;
        Ok(())
    }

    /// Puts another value into a cell of the row that is inserted with this key at the SID.
    ///
    /// # Errors
    ///
    /// `NoMemory` where a growth is refused, for its row is made anew, and the nodes on the way to it where another tree shares
    /// them: the tree is as it was.
    pub fn set_ins(&mut self, sid: u64, key: &Key, col: usize, value: Value) -> Result<(), NoMemory>
        requires there { IsSomeAnd (inserted_row self.old.key_cols sid key.now self.old.entries) (λ row. col < length row) }
        requires outside_key { self.old.key_cols ≤ col }
        ensures ok { OnOk result (self.new
            ≡ record self.old { entries = set_ins self.old.key_cols sid key.now col value self.old.entries }) }
        ensures err { OnErr result (self.new ≡ self.old) }
    {
        let index = self.index_of_insert(sid, key.cells());
        let entry = with_cell(self.alloc, self.tree.get(index), col, value)?;
        self.tree.replace_run(self.alloc, index, index + 1, entry)?;
        Ok(())
    }

    /// The end of the entries at the SID, where a search has found what becomes of the base row. It searches again only
    /// where something does.
    fn end_of_row(&self, place: &EntryPlace<'_>, sid: u64) -> usize
        requires lawful { IsLawful self.now.key_cols self.now.entries }
        requires split { IsSplit (stands_before base_cmp sid) self.now.entries place.now.index }
        requires rest { place.now.entries ≡ drop place.now.index self.now.entries }
        ensures { IsSplit (stands_before past_cmp sid) self.now.entries result }
    {
        match place.entry() {
            Some(entry) => if entry.sid() == sid {
                self.index_past(sid)
            } else {
                place.index
            },
            None => place.index,
        }
    }
}

/// One for a modify of the column at the SID, and none for another entry, or where there is none.
pub(crate) fn modify_worth(entry: Option<&SharedEntry>, sid: u64, col: usize) -> usize
    ensures { (es : List Entry) (n : ℕ) → option_copied entry.entry ≡ slice_get es n → result ≡ modify_count sid col (drop n es) }
{
    match entry {
        Some(found) => worth_of(found, sid, col),
        None => 0,
    }
}

/// One for a modify of the column at the SID, and none for another entry.
fn worth_of(entry: &SharedEntry, sid: u64, col: usize) -> usize
    ensures { result ≡ cond (is_modify_at sid col entry.now) 1 0 }
{
    match entry.change() {
        ChangeRef::Mod(other, _) if entry.sid() == sid && other == col => 1,
        _ => 0,
    }
}

/// The entry with another value in a cell of the row that it inserts.
fn with_cell(
    alloc: Global,
    entry: &SharedEntry,
    col: usize,
    value: Value,
) -> Result<Entry, NoMemory>
    requires { has_cell col entry.now.change }
    ensures { IfOk result (λ e. e ≡ entry_at entry.now.sid (change_with_cell col value entry.now.change)) }
{
    let mut changed = copy_entry(alloc, entry)?;
    set_cell(&mut changed, col, value)?;
    Ok(changed)
}

/// Puts another value into a cell of the row that the entry inserts.
fn set_cell(entry: &mut Entry, col: usize, value: Value) -> Result<(), NoMemory>
    requires { has_cell col entry.old.change }
    ensures { OnOk result (entry.new ≡ entry_at entry.old.sid (change_with_cell col value entry.old.change)) }
{
    match &mut entry.change {
        Change::Ins(row) => row.set(col, value),
        Change::Del(_) | Change::Mod(..) => unreachable!(),
    }
}
