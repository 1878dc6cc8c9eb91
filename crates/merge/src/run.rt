//! Values of one column that stand together.
ghost use Rattle.std.specs.Prelude.{◌≡◌, ◌<◌, ◌≤◌, ◌+◌, ◌-◌, ◌%◌, ◌++◌, length, take, drop, min};
ghost use Rattle.std.specs.List.{All};
ghost use Rattle.values.specs.declared.value.ColumnType.{ColumnType};
ghost use Rattle.values.specs.declared.limits.TheConstants.{MAX_BLOCK_VALUES};
ghost use Rattle.stable.specs.Rows.{column_values};
ghost use Rattle.merge.specs.Fitting.{StandsAt};
ghost use Rattle.merge.specs.Runs.{IsRun, range_values, run_values};
ghost use Rattle.merge.specs.Stretches.{IsStableStretch, stretch_rows};
ghost use Rattle.merge.specs.declared.stretch.Stretch.TheVariants.{Stable};

use crate::stretch::StableStretch;
use blocks::{Bits, Block, BlockValues, Texts};
use stable::Column;
use values::ValueRef;
use values::limits::MAX_BLOCK_VALUES;

/// So many texts of a block, from one of them on.
#[derive(Clone, Copy)]
pub struct TextRun<'a> {
    pub texts: &'a Texts,
    pub first: usize,
    pub count: usize,
}

/// So many truths of a block, from one of them on.
#[derive(Clone, Copy)]
pub struct TruthRun<'a> {
    pub truths: &'a Bits,
    pub first: usize,
    pub count: usize,
}

/// Values of a column that stand together, lent.
#[derive(Clone, Copy)]
pub enum Run<'a> {
    /// Numbers of a block, where they lie.
    Ints(&'a [i64]),
    /// Texts of a block.
    Texts(TextRun<'a>),
    /// Truths of a block.
    Truths(TruthRun<'a>),
    /// The value of a row that a layer inserts or modifies.
    Value(ValueRef<'a>),
}

/// So many values of a column, from one of them on.
#[derive(Clone, Copy)]
pub(crate) struct ColumnRange<'a> {
    pub(crate) column: &'a Column,
    pub(crate) first: usize,
    pub(crate) count: usize,
}

impl<'a> ColumnRange<'a> {
    /// The values of a stretch's rows in a column that its table has.
    pub(crate) fn of_stretch(stretch: StableStretch<'a>, col: usize) -> ColumnRange<'a>
        requires is { IsStableStretch stretch }
        requires stand { (ty : ColumnType) × All (StandsAt ty col) (stretch_rows (Stable stretch)) }
        ensures values { range_values result ≡ column_values col (stretch_rows (Stable stretch.entry)) }
        ensures typed { (ty : ColumnType) → All (StandsAt ty col) (stretch_rows (Stable stretch.entry)) → result.column.now.ty ≡ ty }
        ensures place { (result.first ≡ stretch.entry.sid) × (result.count ≡ stretch.entry.len) }
        ensures some { 0 < result.count }
        ensures within { result.first + result.count ≤ length result.column.now.values }
    {
        let width = stretch.table.schema().width();
        prove!(col < width);
        ColumnRange {
            column: stretch.table.column(col),
            first: stretch.sid as usize,
            count: stretch.len as usize,
        }
    }

    /// The first values of the range, as far as one block has them. The range goes on after them.
    pub(crate) fn next_run(&mut self) -> Run<'a>
        requires some { 0 < self.old.count }
        requires within { self.old.first + self.old.count ≤ length self.old.column.now.values }
        ensures values { range_values self.old ≡ run_values result ++ range_values self.new }
        ensures some { 0 < length (run_values result) }
        ensures count { length (run_values result) ≡ min (MAX_BLOCK_VALUES - self.old.first % MAX_BLOCK_VALUES) self.old.count }
        ensures run { IsRun self.old.column.now.ty result }
        ensures column { self.new.column ≡ self.old.column }
        ensures within { self.new.first + self.new.count ≤ length self.old.column.now.values }
    {
        let length = self.column.len();
        prove!(self.first + self.count <= length);
        let first = self.first % MAX_BLOCK_VALUES;
        let count = (MAX_BLOCK_VALUES - first).min(self.count);
        let block = self.column.block(self.first / MAX_BLOCK_VALUES);
        self.first += count;
        self.count -= count;
        run_of(block, first, count)
    }
}

/// So many values of a block, from one of them on.
fn run_of(block: &Block, first: usize, count: usize) -> Run<'_>
    requires { first + count ≤ length block.now.values }
    ensures values { run_values result ≡ take count (drop first block.now.values) }
    ensures run { IsRun block.now.ty result }
{
    let length = block.len();
    prove!(first + count <= length);
    match block.values() {
        BlockValues::Ints(ints) => Run::Ints(&ints[first..first + count]),
        BlockValues::Texts(texts) => Run::Texts(TextRun {
            texts,
            first,
            count,
        }),
        BlockValues::Truths(truths) => Run::Truths(TruthRun {
            truths,
            first,
            count,
        }),
    }
}
