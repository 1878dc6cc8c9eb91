//! What a tree makes of numbers and truths, packed for scans: its inserts and deletes side by side, and for each column of numbers or
//! of truths the numbers of the rows that it inserts and those that it sets. A scan of a column reads them in order, where in the tree
//! it waits for each node and each row; what other columns are set to it doesn't meet.
ghost use Rattle.std.specs.Prelude.{◌≡◌, ◌<◌, ◌^◌, List, length, map, take, drop, get_or, is_some, None, IfOk, IfSome};
ghost use Rattle.std.specs.List.Sorted.{IsNonDecreasingBy};
ghost use Rattle.std.specs.Option.{option_copied};
ghost use Rattle.values.specs.Lent.{value_of};
ghost use Rattle.model.specs.declared.entry.Entry.{Entry};
ghost use Rattle.merge.specs.Filling.{patches_from};
ghost use Rattle.merge.specs.Packed.{IsPacked, IsPackedColumn, is_fixed_width, number_at, number_of, patch_at, patches_in};
ghost use Rattle.merge.specs.Packed.{row_change_at, row_changes_from, rows_after, rows_in, is_gone, place_of, row_in, sid_of};

use delta::{ChangeRef, DeltaTree, SharedEntry};
use std::alloc::Global;
use std::marker::Model;
use values::{ColumnType, NoMemory, Schema, SharedRow, ValueRef};

/// An entry that changes which rows there are, packed. A SID is below 2^32, since a table has no more rows. The place is the entry's
/// among all of its tree.
#[derive(Clone, Copy, Debug, PartialEq, Eq)]
pub(crate) enum RowChange {
    /// An insert at the SID, at the place, of the row with this number among the inserted ones.
    Insert(u32, usize, usize),
    /// A delete of the base row at the SID, at the place.
    Delete(u32, usize),
}

/// A modify of the base row at the SID: in a column it has the number then.
#[derive(Clone, Copy, Debug, PartialEq, Eq)]
pub(crate) struct Patch {
    pub(crate) sid: u32,
    pub(crate) number: i64,
}

/// What a tree makes of a column of numbers or of truths.
#[derive(Debug, Drop)]
pub(crate) struct PackedColumn {
    /// The numbers of the rows that are inserted, in order.
    inserted: Vec<i64>,
    /// The modifies of the column, in order.
    modified: Vec<Patch>,
}

impl Model for PackedColumn {
    ghost use Rattle.merge.specs.Packed.{ColumnView};

    ghost Value = { ColumnView };

    ghost view = { λ c. record { inserted = c.inserted.items; modified = c.modified.items } };
}

/// The entries of a tree, packed.
#[derive(Debug, Drop)]
pub struct Packed {
    /// The inserts and the deletes, in order.
    changes: Vec<RowChange>,
    /// What becomes of each column; none where it is one of texts.
    columns: Vec<Option<PackedColumn>>,
}

impl Model for Packed {
    ghost use Rattle.merge.specs.Packed.{PackedView};

    ghost Value = { PackedView };

    ghost view = { λ p. record { changes = p.changes.items; columns = p.columns.items } };
}

impl PackedColumn {
    /// The numbers of the inserted rows.
    #[inline(always)]
    pub(crate) fn inserted(&self) -> &[i64]
        ensures { result.now ≡ self.now.inserted }
    {
        self.inserted.as_slice()
    }

    /// The modifies.
    #[inline(always)]
    pub(crate) fn modified(&self) -> &[Patch]
        ensures { result.now ≡ self.now.modified }
    {
        self.modified.as_slice()
    }
}

impl Packed {
    /// The entries of a tree over rows with these columns, packed.
    ///
    /// # Errors
    ///
    /// `NoMemory` where a growth is refused.
    pub fn of(alloc: Global, tree: &DeltaTree, schema: &Schema) -> Result<Packed, NoMemory>
        ensures packed { IfOk result (λ packed. IsPacked tree.now.entries packed) }

        // The columns of numbers and of truths are packed, and no other ones.
        ensures columns { IfOk result (λ packed. map is_some packed.columns ≡ map is_fixed_width schema.now.types) }
    {
        let mut columns = Vec::new(alloc);
        for ty in schema.types() {
            let column = column_in(alloc, tree, *ty, columns.len())?;
            columns.push(column)?;
        }
        Ok(Packed {
            changes: row_changes(alloc, tree)?,
            columns,
        })
    }

    /// The inserts and the deletes.
    #[inline(always)]
    pub(crate) fn changes(&self) -> &[RowChange]
        ensures { result.now ≡ self.now.changes }
    {
        self.changes.as_slice()
    }

    /// What becomes of a column, where it is packed.
    #[inline(always)]
    pub(crate) fn column(&self, col: usize) -> Option<&PackedColumn>
        ensures { option_copied result ≡ get_or self.now.columns col None }
    {
        match self.columns.get(col) {
            Some(Some(column)) => Some(column),
            _ => None,
        }
    }
}

impl RowChange {
    /// The position in the base at which it is.
    #[inline(always)]
    pub(crate) fn sid(&self) -> u64
        ensures { result ≡ sid_of self.now }
    {
        match *self {
            RowChange::Insert(sid, ..) | RowChange::Delete(sid, _) => u64::from(sid),
        }
    }

    /// Its place among the entries.
    #[inline(always)]
    pub(crate) fn place(&self) -> usize
        ensures { result ≡ place_of self.now }
    {
        match *self {
            RowChange::Insert(_, place, _) | RowChange::Delete(_, place) => place,
        }
    }

    /// Whether it deletes a base row.
    #[inline(always)]
    pub(crate) fn is_delete(&self) -> bool
        ensures { result ≡ is_gone self.now }
    {
        matches!(self, RowChange::Delete(..))
    }

    /// The number of the row that it inserts, if it inserts one.
    #[inline(always)]
    pub(crate) fn inserted(&self) -> Option<usize>
        ensures { result ≡ row_in self.now }
    {
        match *self {
            RowChange::Insert(_, _, row) => Some(row),
            RowChange::Delete(..) => None,
        }
    }
}

/// A value's number: its own, 1 for true and 0 for false. A text has none, and counts as 0.
#[inline(always)]
pub(crate) fn number_of(value: ValueRef<'_>) -> i64
    ensures { result ≡ number_of (value_of value.entry) }
{
    match value {
        ValueRef::Int(number) => number,
        ValueRef::Bool(truth) => i64::from(truth),
        ValueRef::Text(_) => 0,
    }
}

/// The inserts and the deletes of a tree, packed.
fn row_changes(alloc: Global, tree: &DeltaTree) -> Result<Vec<RowChange>, NoMemory>
    ensures { IfOk result (λ changes. changes.items ≡ row_changes_from 0 0 tree.now.entries) }
{
    let mut changes = Vec::new(alloc);
    let mut rows = 0;
    let mut place = 0;
    for entry in tree.iter() {
        if let Some(change) = row_change(entry, rows, place) {
            changes.push(change)?;
        }
        rows = rows_after(entry, rows);
        place += 1;
    }
    Ok(changes)
}

/// An insert or a delete, packed, where so many rows are inserted and so many entries stand before it.
fn row_change(entry: &SharedEntry, rows: usize, place: usize) -> Option<RowChange>
    requires { entry.now.sid < 2 ^ 32 }
    ensures { result ≡ row_change_at rows place entry.now.sid entry.now.change }
{
    let sid = entry.sid() as u32;
    match entry.change() {
        ChangeRef::Ins(_) => Some(RowChange::Insert(sid, place, rows)),
        ChangeRef::Del(_) => Some(RowChange::Delete(sid, place)),
        ChangeRef::Mod(..) => None,
    }
}

/// How many rows are inserted up to an entry and with it.
fn rows_after(entry: &SharedEntry, rows: usize) -> usize
    requires { rows < 2 ^ 40 }
    ensures { result ≡ rows_after rows entry.now.change }
{
    match entry.change() {
        ChangeRef::Ins(_) => rows + 1,
        ChangeRef::Del(_) | ChangeRef::Mod(..) => rows,
    }
}

/// What a tree makes of a column, where it is one of numbers or of truths.
fn column_in(
    alloc: Global,
    tree: &DeltaTree,
    ty: ColumnType,
    col: usize,
) -> Result<Option<PackedColumn>, NoMemory>
    ensures fixed { IfOk result (λ column. is_some column ≡ is_fixed_width ty) }
    ensures packed { IfOk result (λ column. IfSome column (IsPackedColumn col tree.now.entries)) }
{
    match ty {
        ColumnType::Int | ColumnType::Bool => Ok(Some(PackedColumn {
            inserted: inserted_numbers(alloc, tree, col)?,
            modified: modifies(alloc, tree, col)?,
        })),
        ColumnType::Text => Ok(None),
    }
}

/// The numbers in a column of the rows that a tree inserts.
fn inserted_numbers(alloc: Global, tree: &DeltaTree, col: usize) -> Result<Vec<i64>, NoMemory>
    ensures { IfOk result (λ numbers. numbers.items ≡ map (number_at col) (rows_in tree.now.entries)) }
{
    let mut numbers = Vec::new(alloc);
    for entry in tree.iter() {
        if let ChangeRef::Ins(row) = entry.change() {
            numbers.push(number_in(row, col))?;
        }
    }
    Ok(numbers)
}

/// The modifies of a column in a tree.
fn modifies(alloc: Global, tree: &DeltaTree, col: usize) -> Result<Vec<Patch>, NoMemory>
    ensures { IfOk result (λ patches. patches.items ≡ patches_in col tree.now.entries) }
{
    let mut patches = Vec::new(alloc);
    for entry in tree.iter() {
        if let Some(patch) = patch_of(entry, col) {
            patches.push(patch)?;
        }
    }
    Ok(patches)
}

/// A modify of the column, packed.
fn patch_of(entry: &SharedEntry, col: usize) -> Option<Patch>
    requires { entry.now.sid < 2 ^ 32 }
    ensures { result ≡ patch_at col entry.now.sid entry.now.change }
{
    match entry.change() {
        ChangeRef::Mod(other, value) if other == col => Some(Patch {
            sid: entry.sid() as u32,
            number: number_of(value),
        }),
        _ => None,
    }
}

/// The inserts and deletes that are left where so many entries are passed.
pub(crate) fn changes_at<'a>(changes: &'a [RowChange], place: usize) -> &'a [RowChange]
    ensures { (entries : List Entry) → changes.now ≡ row_changes_from 0 0 entries
        → result.now ≡ row_changes_from (length (rows_in (take place entries))) place (drop place entries) }
{
    let passed = changes.partition_point(|change| change.place() < place);
    &changes[passed..]
}

/// The modifies of a column from a SID on.
pub(crate) fn patches_at<'a>(patches: &'a [Patch], sid: u64) -> &'a [Patch]
    ensures { IsNonDecreasingBy (λ p. p.sid) patches.now → result.now ≡ patches_from sid patches.now }
{
    let passed = patches.partition_point(|patch| u64::from(patch.sid) < sid);
    &patches[passed..]
}

/// The number of a row in a column, and 0 where it ends before.
#[inline(always)]
pub(crate) fn number_in(row: &SharedRow, col: usize) -> i64
    ensures { result ≡ number_at col row.now }
{
    match row.cells().get(col) {
        Some(cell) => number_of(cell.as_ref()),
        None => 0,
    }
}
