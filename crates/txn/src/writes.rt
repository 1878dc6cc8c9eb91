//! The change of the tree that a write makes.
ghost use Rattle.std.specs.Prelude.{◌≡◌, ◌<◌, ◌≤◌, ◌^◌, ◌&&◌, ◌||◌, not, cond, is_some, IfOk, IsNone, IsTrue, OnOk, OnErr, length};
ghost use Rattle.std.specs.Option.{option_copied};
ghost use Rattle.values.specs.declared.limits.TheConstants.{MAX_ROWS};
ghost use Rattle.model.specs.Entries.{are_ordered};
ghost use Rattle.model.specs.Writes.{is_done, key_of_write, write_fits_schema};
ghost use Rattle.delta.specs.BySid.{is_deleted};
ghost use Rattle.delta.specs.Changes.{entries_with, IsRun, MayBePut};
ghost use Rattle.delta.specs.Search.{insert_cmp, past_cmp, stands_before, IsSplit};
ghost use Rattle.delta.specs.declared.by_sid.BaseChange.TheVariants as base_change;
ghost use Rattle.txn.specs.Edit.{edited, is_inserted, is_kept, is_there, MayBeEdited};

use delta::{BaseChange, DeltaTree, SharedEntry, SidPlace};
use model::{Change, Entry, Write, WriteReply, is_done};
use std::alloc::Global;
use values::{NoMemory, Row, Schema, ShapeFault};

/// What a transaction finds at a key.
#[derive(Clone, Copy)]
pub(crate) struct Found {
    /// How many keys of the version's table are below the key.
    pub(crate) sid: u64,
    /// How many entries of the transaction's tree stand before an insert of the key.
    pub(crate) index: usize,
    /// The row of the key in the transaction's image.
    pub(crate) row: FoundRow,
}

/// Where the row of a key comes from.
#[derive(Clone, Copy)]
pub(crate) enum FoundRow {
    /// The image has none.
    Absent,
    /// The transaction inserted it.
    Inserted,
    /// It is one of the version's table, as it is there.
    Kept,
    /// It is one of the version's table, of which the transaction set cells.
    Modified,
}

impl FoundRow {
    /// What a key's place in the transaction's tree says of its row, from whether the version's table has the key.
    pub(crate) fn at(place: &SidPlace<'_>, in_base: bool) -> FoundRow
        ensures there { is_there result ≡ (is_some (option_copied place.now.row) || (in_base && not (is_deleted place.now.base))) }
        ensures inserted { is_inserted result ≡ is_some (option_copied place.now.row) }
        ensures kept { IsTrue (is_kept result) → IsTrue in_base × IsNone (option_copied place.now.row)
            × (place.now.base ≡ base_change.Kept) }
    {
        match (place.row, place.base) {
            (Some(_), _) => FoundRow::Inserted,
            (None, BaseChange::Kept) if in_base => FoundRow::Kept,
            (None, BaseChange::Modified) if in_base => FoundRow::Modified,
            (None, _) => FoundRow::Absent,
        }
    }

    /// Whether there is one.
    pub(crate) fn is_there(self) -> bool
        ensures { result ≡ is_there self }
    {
        match self {
            FoundRow::Absent => false,
            FoundRow::Inserted | FoundRow::Kept | FoundRow::Modified => true,
        }
    }

    /// Whether it is one that the transaction inserted.
    fn is_inserted(self) -> bool
        ensures { result ≡ is_inserted self }
    {
        match self {
            FoundRow::Inserted => true,
            FoundRow::Absent | FoundRow::Kept | FoundRow::Modified => false,
        }
    }

    /// Whether it is one of the version's table, as it is there.
    fn is_kept(self) -> bool
        ensures { result ≡ is_kept self }
    {
        match self {
            FoundRow::Kept => true,
            FoundRow::Absent | FoundRow::Inserted | FoundRow::Modified => false,
        }
    }
}

/// Tests a write against the columns. Takes no memory.
///
/// # Errors
///
/// The first fault of the row, or of the key and then the cell.
pub(crate) fn check_write(schema: &Schema, write: &Write) -> Result<(), ShapeFault>
    ensures { OnOk result (IsTrue (write_fits_schema schema.now write.now)) }
{
    match write {
        Write::Insert(row) => schema.check_row(row),
        Write::Delete(key) => schema.check_key(key),
        Write::Set(key, col, value) => {
            schema.check_key(key)?;
            schema.check_cell(*col, value)
        }
    }
}

/// The write, in which a row that it inserts is shared: its record and the tree have one list of the values.
pub(crate) fn with_shared_row(write: Write) -> Result<Write, NoMemory>
    ensures { IfOk result (λ shared. shared ≡ write) }
{
    match write {
        Write::Insert(row) => Ok(Write::Insert(Row::of_shared(row.into_shared()?))),
        other => Ok(other),
    }
}

/// Changes the tree as the write does, where it is done.
pub(crate) fn edit(
    alloc: Global,
    tree: &mut DeltaTree,
    found: Found,
    write: &Write,
    reply: WriteReply,
) -> Result<(), NoMemory>
    requires may { IsTrue (is_done reply) → MayBeEdited tree.old.key_cols found.sid (is_inserted found.row) write.now tree.old.entries }
    requires sid { found.sid ≤ MAX_ROWS }
    requires ordered { IsTrue (are_ordered tree.old.key_cols tree.old.entries) }
    requires place { IsSplit
        (stands_before
        (insert_cmp tree.old.key_cols (key_of_write tree.old.key_cols write.now)) found.sid) tree.old.entries found.index }
    requires kept { IsTrue (is_kept found.row) → IsSplit (stands_before past_cmp found.sid) tree.old.entries found.index }
    requires room { IsTrue (is_done reply)
        → length (edited tree.old.key_cols found.sid (is_inserted found.row) write.now tree.old.entries) ≤ 2 ^ 40 }
    ensures ok { OnOk result (tree.new
        ≡ record tree.old {
          entries = cond (is_done reply)
              (edited tree.old.key_cols found.sid (is_inserted found.row) write.now tree.old.entries) tree.old.entries;
        }) }
    ensures err { OnErr result (tree.new ≡ tree.old) }
{
    if !is_done(reply) {
        return Ok(());
    }
    let Found { sid, index, row } = found;
    let inserted = row.is_inserted();
    let kept = row.is_kept();
    match write {
        Write::Insert(row) => put_at(alloc, tree, index, sid, Change::Ins(row.copy()?)),
        Write::Delete(_) if inserted => tree.take_at(index),
        Write::Delete(key) if kept => put_at(alloc, tree, index, sid, Change::Del(key.copy()?)),
        Write::Delete(key) => tree.put_del(sid, key.copy()?),
        Write::Set(_, col, value) if inserted => tree.set_at(index, *col, value.copy()?),
        Write::Set(_, col, value) if kept => {
            put_at(alloc, tree, index, sid, Change::Mod(*col, value.copy()?))
        }
        Write::Set(_, col, value) => tree.put_mod(sid, *col, value.copy()?),
    }
}

/// Puts in a change where it replaces no entry, as a search has found it: an insert at the place of its key, or what becomes of
/// a base row of which no entry tells yet.
fn put_at(
    alloc: Global,
    tree: &mut DeltaTree,
    at: usize,
    sid: u64,
    change: Change,
) -> Result<(), NoMemory>
    requires run { IsRun tree.old.key_cols sid change tree.old.entries at at }
    requires free { MayBePut tree.old.key_cols sid change tree.old.entries }
    requires sid { sid < 2 ^ 32 }
    requires room { length (entries_with tree.old.key_cols sid change tree.old.entries) ≤ 2 ^ 40 }
    ensures ok { OnOk result (tree.new ≡ record tree.old { entries = entries_with tree.old.key_cols sid change tree.old.entries }) }
    ensures err { OnErr result (tree.new ≡ tree.old) }
{
    tree.put_run(at, at, SharedEntry::new(alloc, Entry { sid, change })?)
}
