//! The stable rows under a packed tree, of which a column's numbers are handed out: those of base rows that stand together are
//! copied, what the tree modifies of them is put in, and rows that it inserts come from their column.
ghost use Rattle.std.specs.Prelude.{◌≡◌, ℕ, ◌+◌, ◌-◌, ◌%◌, ◌<◌, ◌≤◌, ◌^◌, ◌∷◌, [], T, IsTrue, MatchOption, Some, length, drop, slice_get};
ghost use Rattle.std.specs.List.{list_all};
ghost use Rattle.values.specs.declared.value.ColumnType.{ColumnType};
ghost use Rattle.values.specs.declared.value.ColumnType.TheVariants as column;
ghost use Rattle.values.specs.declared.limits.TheConstants.{MAX_BLOCK_VALUES};
ghost use Rattle.merge.specs.Cursor.{DeletesNone, entries_left, starts_with_delete};
ghost use Rattle.merge.specs.Filling.{FillsRows, InsertsNone, KeepsModified, is_from, numbers_in, patched, patches_before, patches_from};
ghost use Rattle.merge.specs.PackedLeft.{HasPackedColumn, IsInsertNext, IsPackedRows, base_left, count_passed, cursor_of, packed_left};
ghost use Rattle.merge.specs.Packed.{is_fixed_width, place_of};
ghost use Rattle.merge.specs.declared.packed.RowChange.{RowChange};

use crate::level::StableRows;
use crate::number_runs::NumberRun;
use crate::numbers::{Numbers, fill};
use crate::packed::{Patch, RowChange};
use delta::DeltaTree;
use values::limits::MAX_BLOCK_VALUES;

/// The rows that are left under a tree, of which a column is packed too.
#[derive(Drop)]
pub(crate) struct PackedRows<'a> {
    pub(crate) below: StableRows<'a>,
    pub(crate) tree: &'a DeltaTree,
    /// The entries that are passed at least. Modifies behind them are passed too where they lie before the next base row.
    pub(crate) place: usize,
    /// The base row that is next.
    pub(crate) sid: u64,
    /// The inserts and the deletes that are left.
    pub(crate) changes: &'a [RowChange],
    /// The modifies of the column that are left.
    pub(crate) patches: &'a [Patch],
    /// The numbers of all rows that the tree inserts.
    pub(crate) inserted: &'a [i64],
}

impl<'a> PackedRows<'a> {
    /// The next insert or delete.
    #[inline(always)]
    fn next_change(&self) -> Option<RowChange>
        ensures { result ≡ slice_get self.now.changes.now 0 }
    {
        self.changes.get(0).copied()
    }

    /// Goes past the deletes that come next.
    fn pass_deleted(&mut self)
        requires lawful { IsPackedRows self.old }
        ensures lawful { IsPackedRows self.new }
        ensures rows { packed_left self.new ≡ packed_left self.old }
        ensures column { (ty : ColumnType) (col : ℕ) → HasPackedColumn ty col self.old → HasPackedColumn ty col self.new }
        ensures none { DeletesNone (cursor_of self.new) }
    {
        while self.deletes_next() {
            self.pass_change();
            self.below.skip_row();
            self.sid += 1;
        }
    }

    /// Goes past the next insert or delete.
    #[inline(always)]
    fn pass_change(&mut self)
        requires lawful { IsPackedRows self.old }
        requires some { 0 < length self.old.changes.now }
        ensures place { (change : RowChange) → slice_get self.old.changes.now 0 ≡ Some change → self.new.place ≡ place_of change + 1 }
        ensures changes { self.new.changes.now ≡ drop 1 self.old.changes.now }
        ensures same { self.new ≡ record self.old { place = self.new.place; changes = self.new.changes } }
    {
        self.place = self.changes[0].place() + 1;
        self.changes = &self.changes[1..];
    }

    /// Whether a delete of the next base row is next.
    #[inline(always)]
    fn deletes_next(&self) -> bool
        requires { IsPackedRows self.now }
        ensures { result ≡ starts_with_delete self.now.sid (entries_left (cursor_of self.now)) }
    {
        let Some(change) = self.next_change() else {
            return false;
        };
        change.sid() == self.sid && change.is_delete()
    }

    /// The number of the row that is inserted next, before the next base row, if one is.
    #[inline(always)]
    fn inserted_next(&self) -> Option<usize>
        requires { IsPackedRows self.now }
        ensures { MatchOption result (InsertsNone (cursor_of self.now)) (λ row. IsInsertNext row self.now) }
    {
        let change = self.next_change()?;
        if change.sid() == self.sid {
            change.inserted()
        } else {
            None
        }
    }

    /// The number of the row that is inserted next, which has this number among the inserted ones.
    #[inline(always)]
    fn next_inserted(&mut self, row: usize) -> i64
        requires lawful { IsPackedRows self.old }
        requires next { IsInsertNext row self.old }
        requires column { (ty : ColumnType) × (col : ℕ) × HasPackedColumn ty col self.old }
        ensures lawful { IsPackedRows self.new }
        ensures column { (ty : ColumnType) (col : ℕ) → HasPackedColumn ty col self.old → HasPackedColumn ty col self.new }
        ensures number { (ty : ColumnType) (col : ℕ) → HasPackedColumn ty col self.old
            → FillsRows col (packed_left self.old) (result ∷ []) (packed_left self.new) }
    {
        let number = self.inserted[row];
        self.pass_inserted();
        number
    }

    /// Goes past the row that is inserted next.
    #[inline(always)]
    fn pass_inserted(&mut self)
        requires lawful { IsPackedRows self.old }
        requires next { (row : ℕ) × IsInsertNext row self.old }
        ensures lawful { IsPackedRows self.new }
        ensures column { (ty : ColumnType) (col : ℕ) → HasPackedColumn ty col self.old → HasPackedColumn ty col self.new }
        ensures rows { (row : ℕ) (next : IsInsertNext row self.old) → packed_left self.old ≡ next.inserted ∷ packed_left self.new }
    {
        self.pass_change();
    }

    /// How many base rows come before the next row that is inserted or deleted, at most so many.
    #[inline(always)]
    fn kept(&self, most: usize) -> usize
        requires lawful { IsPackedRows self.now }
        requires few { most < 2 ^ 63 }
        requires deleted { DeletesNone (cursor_of self.now) }
        requires inserted { InsertsNone (cursor_of self.now) }
        ensures kept { KeepsModified most (count_passed result (cursor_of self.now)) result (cursor_of self.now) }
    {
        match self.next_change() {
            Some(change) => (change.sid() - self.sid).min(most as u64) as usize,
            None => most,
        }
    }

    /// Fills the room with the numbers of as many base rows, which stand together but for what is modified of them.
    #[inline(always)]
    fn fill_modified(&mut self, col: usize, out: &mut [i64])
        requires lawful { IsPackedRows self.old }
        requires column { (ty : ColumnType) × IsTrue (is_fixed_width ty) × HasPackedColumn ty col self.old }
        requires kept { (most : ℕ) × KeepsModified most (count_passed (length out.old) (cursor_of self.old)) (length out.old)
            (cursor_of self.old) }
        requires room { length out.old ≤ length (base_left self.old) }
        ensures lawful { IsPackedRows self.new }
        ensures column { (ty : ColumnType) → HasPackedColumn ty col self.old → HasPackedColumn ty col self.new }
        ensures length { length out.new ≡ length out.old }
        ensures numbers { FillsRows col (packed_left self.old) out.new (packed_left self.new) }
    {
        fill(&mut self.below, col, out);
        self.patches = patch(self.patches, self.sid, out);
        self.sid += out.len() as u64;
    }
}

impl<'a> PackedRows<'a> {
    /// How many of the next base rows, at most so many, have no modify of the column before them or on them, and are in one block.
    #[inline(always)]
    fn plain(&self, most: usize) -> usize
        requires near { T (list_all (is_from self.now.sid) self.now.patches.now) }
        ensures few { result ≤ most }
        ensures block { result ≤ MAX_BLOCK_VALUES - self.now.below.sid % MAX_BLOCK_VALUES }
        ensures none { patches_before (self.now.sid + result) self.now.patches.now ≡ [] }
    {
        let in_block = MAX_BLOCK_VALUES - self.below.sid as usize % MAX_BLOCK_VALUES;
        let few = most.min(in_block);
        match self.patches.get(0) {
            Some(patch) => (u64::from(patch.sid) - self.sid).min(few as u64) as usize,
            None => few,
        }
    }

    /// The number of the next base row, with what is modified of it.
    #[inline(always)]
    fn next_modified(&mut self, col: usize) -> NumberRun<'a>
        requires lawful { IsPackedRows self.old }
        requires column { HasPackedColumn column.Int col self.old }
        requires kept { KeepsModified 1 (count_passed 1 (cursor_of self.old)) 1 (cursor_of self.old) }
        requires room { 0 < length (base_left self.old) }
        ensures lawful { IsPackedRows self.new }
        ensures column { HasPackedColumn column.Int col self.new }
        ensures count { length (numbers_in result) ≡ 1 }
        ensures numbers { FillsRows col (packed_left self.old) (numbers_in result) (packed_left self.new) }
    {
        let mut one = [0; 1];
        self.fill_modified(col, &mut one);
        NumberRun::One(one[0])
    }

    /// The numbers of as many base rows, which are in one block and stand together, with no modify of the column.
    #[inline(always)]
    fn next_plain(&mut self, col: usize, rows: usize) -> NumberRun<'a>
        requires lawful { IsPackedRows self.old }
        requires column { HasPackedColumn column.Int col self.old }
        requires kept { (most : ℕ) × KeepsModified most (count_passed rows (cursor_of self.old)) rows (cursor_of self.old) }
        requires some { 0 < rows }
        requires room { rows ≤ length (base_left self.old) }
        requires block { rows ≤ MAX_BLOCK_VALUES - self.old.below.sid % MAX_BLOCK_VALUES }
        requires none { patches_before (self.old.sid + rows) self.old.patches.now ≡ [] }
        ensures lawful { IsPackedRows self.new }
        ensures column { HasPackedColumn column.Int col self.new }
        ensures count { length (numbers_in result) ≡ rows }
        ensures numbers { FillsRows col (packed_left self.old) (numbers_in result) (packed_left self.new) }
    {
        let run = self.below.next_in_block(col, rows);
        self.sid += run.len() as u64;
        run
    }
}

impl<'a> Numbers<'a> for PackedRows<'a> {
    ghost left = { λ p. packed_left p };

    ghost is_lawful = { λ p. IsPackedRows p };

    ghost has_column = { λ ty col p. HasPackedColumn ty col p };

    fn fill_next(&mut self, col: usize, out: &mut [i64]) -> usize {
        self.pass_deleted();
        if let Some(row) = self.inserted_next() {
            out[0] = self.next_inserted(row);
            return 1;
        }
        let rows = self.kept(out.len());
        self.fill_modified(col, &mut out[..rows]);
        rows
    }

    fn next_run(&mut self, col: usize, most: usize) -> NumberRun<'a> {
        self.pass_deleted();
        if let Some(row) = self.inserted_next() {
            return NumberRun::One(self.next_inserted(row));
        }
        let plain = self.plain(most);
        if plain == 0 {
            return self.next_modified(col);
        }
        let rows = self.kept(plain);
        self.next_plain(col, rows)
    }

    fn skip_row(&mut self) {
        self.pass_deleted();
        if let Some(_) = self.inserted_next() {
            self.pass_inserted();
            return;
        }
        self.below.skip_row();
        self.sid += 1;
        self.patches = past(self.patches, self.sid);
    }
}

/// Puts what packed modifies of a column give in the place of the numbers of base rows from a SID on, and answers which are left.
#[inline(always)]
fn patch<'a>(patches: &'a [Patch], first: u64, out: &mut [i64]) -> &'a [Patch]
    requires near { T (list_all (is_from first) patches.now) }
    requires few { first + length out.old < 2 ^ 64 }
    ensures length { length out.new ≡ length out.old }
    ensures patched { out.new ≡ patched first (patches_before (first + length out.old) patches.now) out.old }
    ensures left { result.now ≡ patches_from (first + length out.old) patches.now }
{
    let end = first + out.len() as u64;
    let mut done = 0;
    while let Some(patch) = patches.get(done) {
        let sid = u64::from(patch.sid);
        if sid >= end {
            break;
        }
        out[(sid - first) as usize] = patch.number;
        done += 1;
    }
    &patches[done..]
}

/// The packed modifies from the first one on that doesn't lie before a SID.
fn past<'a>(patches: &'a [Patch], sid: u64) -> &'a [Patch]
    ensures { result.now ≡ patches_from sid patches.now }
{
    let mut done = 0;
    while let Some(patch) = patches.get(done) {
        if u64::from(patch.sid) >= sid {
            break;
        }
        done += 1;
    }
    &patches[done..]
}
