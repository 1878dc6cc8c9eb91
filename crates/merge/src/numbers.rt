//! The numbers of one column, of numbers or of truths, batch by batch: each level fills the caller's room with those of the rows below
//! it, and puts its own where it changes them (Boncz, Zukowski and Nes 2005, "MonetDB/X100", has vectors for the same reason).
ghost use Rattle.std.specs.Prelude.{◌≡◌, ℕ, List, ◌<◌, ◌≤◌, ◌+◌, ◌-◌, ◌%◌, IsTrue, length, take, drop, map, min};
ghost use Rattle.std.specs.List.{All};
ghost use Rattle.values.specs.declared.row.Row.{Row as Cells};
ghost use Rattle.values.specs.declared.limits.TheConstants.{MAX_ROWS, MAX_BLOCK_VALUES};
ghost use Rattle.values.specs.declared.value.ColumnType.{ColumnType};
ghost use Rattle.values.specs.declared.value.ColumnType.TheVariants as column;
ghost use Rattle.merge.specs.Cursor.{DeletesNone, IsCursor, rows_left};
ghost use Rattle.merge.specs.Filling.{FillsRows, HaveValues, IsWide, numbers_in};
ghost use Rattle.merge.specs.Packed.{is_fixed_width, number_of};
ghost use Rattle.merge.specs.ColumnStretches.{PassesRow};
ghost use Rattle.merge.specs.Runs.{IsRun, run_values};

use crate::cursor::Next;
use crate::level::{Level, StableRows};
use crate::number_runs::NumberRun;
use crate::packed::{number_in, number_of};
use crate::run::{ColumnRange, Run};
use crate::stretch::StableStretch;

/// Rows that are left, of which the numbers of a column are handed out.
pub(crate) trait Numbers<'a> {
    /// The rows that are left.
    ghost left: { Self → List Cells };

    /// What keeps the rows as they are to be.
    ghost is_lawful: { Self → Type 0 };

    /// The rows have the column, those below too, and the stable ones have values of the type in it.
    ghost has_column: { ColumnType → ℕ → Self → Type 0 };

    /// Puts the numbers of the next rows at the begin of the room, of as many as come together, and answers how many: at least one.
    fn fill_next(&mut self, col: usize, out: &mut [i64]) -> usize
        requires lawful { is_lawful self.old }
        requires column { (ty : ColumnType) × IsTrue (is_fixed_width ty) × has_column ty col self.old }
        requires some { 0 < length out.old }
        requires room { length out.old ≤ length (left self.old) }
        ensures lawful { is_lawful self.new }
        ensures column { (ty : ColumnType) → has_column ty col self.old → has_column ty col self.new }
        ensures length { length out.new ≡ length out.old }
        ensures some { 0 < result }
        ensures few { result ≤ length out.old }
        ensures numbers { FillsRows col (left self.old) (take result out.new) (left self.new) };

    /// The next rows' numbers in a column of numbers that come from one place: at least one, and at most so many.
    fn next_run(&mut self, col: usize, most: usize) -> NumberRun<'a>
        requires lawful { is_lawful self.old }
        requires column { has_column column.Int col self.old }
        requires some { 0 < most }
        requires room { most ≤ length (left self.old) }
        ensures lawful { is_lawful self.new }
        ensures column { has_column column.Int col self.new }
        ensures some { 0 < length (numbers_in result) }
        ensures few { length (numbers_in result) ≤ most }
        ensures numbers { FillsRows col (left self.old) (numbers_in result) (left self.new) };

    /// Goes past the next row.
    fn skip_row(&mut self)
        requires lawful { is_lawful self.old }
        requires some { 0 < length (left self.old) }
        ensures lawful { is_lawful self.new }
        ensures column { (ty : ColumnType) (col : ℕ) → has_column ty col self.old → has_column ty col self.new }
        ensures row { PassesRow (left self.old) (left self.new) };
}

/// Fills the room with the numbers of the next rows in a column.
#[inline(always)]
pub(crate) fn fill<'a, N: Numbers<'a>>(rows: &mut N, col: usize, out: &mut [i64])
    requires lawful { N.is_lawful rows.old }
    requires column { (ty : ColumnType) × IsTrue (is_fixed_width ty) × N.has_column ty col rows.old }
    requires room { length out.old ≤ length (N.left rows.old) }
    ensures lawful { N.is_lawful rows.new }
    ensures column { (ty : ColumnType) → N.has_column ty col rows.old → N.has_column ty col rows.new }
    ensures length { length out.new ≡ length out.old }
    ensures numbers { FillsRows col (N.left rows.old) out.new (N.left rows.new) }
{
    let mut done = 0;
    while done < out.len() {
        done += rows.fill_next(col, &mut out[done..]);
    }
}

impl<'a> Numbers<'a> for StableRows<'a> {
    ghost left = { λ r. drop r.sid r.table.now.rows };

    ghost is_lawful = { λ r. length r.table.now.rows ≤ MAX_ROWS };

    ghost has_column = { λ ty col r. HaveValues ty col (drop r.sid r.table.now.rows) };

    #[inline(always)]
    fn fill_next(&mut self, col: usize, out: &mut [i64]) -> usize {
        let stretch = StableStretch {
            table: self.table,
            sid: self.sid,
            len: out.len() as u64,
        };
        let run = ColumnRange::of_stretch(stretch, col).next_run();
        let count = put_run(run, out);
        self.sid += count as u64;
        count
    }

    #[inline(always)]
    fn next_run(&mut self, col: usize, most: usize) -> NumberRun<'a> {
        self.next_in_block(col, most)
    }

    #[inline(always)]
    fn skip_row(&mut self) {
        self.sid += 1;
    }
}

impl<'a> StableRows<'a> {
    /// The next rows' numbers in a column of numbers, at most so many, as far as one block has them.
    #[inline(always)]
    pub(crate) fn next_in_block(&mut self, col: usize, most: usize) -> NumberRun<'a>
        requires few { length self.old.table.now.rows ≤ MAX_ROWS }
        requires column { HaveValues column.Int col (drop self.old.sid self.old.table.now.rows) }
        requires some { 0 < most }
        requires room { most ≤ length (drop self.old.sid self.old.table.now.rows) }
        ensures count { length (numbers_in result) ≡ min (MAX_BLOCK_VALUES - self.old.sid % MAX_BLOCK_VALUES) most }
        ensures sid { self.new.sid ≡ self.old.sid + length (numbers_in result) }
        ensures table { self.new.table ≡ self.old.table }
        ensures numbers { FillsRows col (drop self.old.sid self.old.table.now.rows) (numbers_in result)
            (drop self.new.sid self.new.table.now.rows) }
    {
        let stretch = StableStretch {
            table: self.table,
            sid: self.sid,
            len: most as u64,
        };
        let run = ColumnRange::of_stretch(stretch, col).next_run();
        let numbers = run_of_numbers(run);
        self.sid += numbers.len() as u64;
        numbers
    }
}

/// A run of a column of numbers.
#[inline(always)]
fn run_of_numbers(run: Run<'_>) -> NumberRun<'_>
    requires { IsRun column.Int run }
    ensures { numbers_in result ≡ map number_of (run_values run.entry) }
{
    match run {
        Run::Ints(ints) => NumberRun::Lent(ints),
        Run::Value(value) => NumberRun::One(number_of(value)),
        Run::Texts(_) | Run::Truths(_) => unreachable!(),
    }
}

/// Puts the numbers of a run's values at the begin of the room, and answers how many there are.
#[inline(always)]
fn put_run(run: Run<'_>, out: &mut [i64]) -> usize
    requires typed { (ty : ColumnType) × IsTrue (is_fixed_width ty) × IsRun ty run }
    requires room { length (run_values run) ≤ length out.old }
    ensures length { length out.new ≡ length out.old }
    ensures count { result ≡ length (run_values run.entry) }
    ensures numbers { take result out.new ≡ map number_of (run_values run.entry) }
{
    match run {
        Run::Ints(ints) => {
            out[..ints.len()].copy_from_slice(ints);
            ints.len()
        }
        Run::Truths(together) => {
            let count = together.count;
            together
                .truths
                .put_numbers(together.first, &mut out[..count]);
            count
        }
        Run::Value(value) => {
            out[0] = number_of(value);
            1
        }
        Run::Texts(_) => unreachable!(),
    }
}

impl<'a, B: Numbers<'a> + Drop> Level<'a, B> {
    /// Goes past the deletes that come next.
    #[inline(always)]
    fn pass_deleted(&mut self)
        requires below { B.is_lawful self.old.below }
        requires cursor { IsCursor (length (B.left self.old.below)) self.old.cursor }
        ensures rows { rows_left self.new.cursor (B.left self.new.below) ≡ rows_left self.old.cursor (B.left self.old.below) }
        ensures below { B.is_lawful self.new.below }
        ensures column { (ty : ColumnType) (col : ℕ) → B.has_column ty col self.old.below → B.has_column ty col self.new.below }
        ensures wide { (col : ℕ) → All (IsWide col) (B.left self.old.below) → All (IsWide col) (B.left self.new.below) }
        ensures cursor { IsCursor (length (B.left self.new.below)) self.new.cursor }
        ensures none { DeletesNone self.new.cursor }
    {
        while self.cursor.skip_delete() {
            self.below.skip_row();
        }
    }
}

impl<'a, B: Numbers<'a> + Drop> Numbers<'a> for Level<'a, B> {
    ghost left = { λ l. rows_left l.cursor (B.left l.below) };

    ghost is_lawful = { λ l. B.is_lawful l.below × IsCursor (length (B.left l.below)) l.cursor };

    ghost has_column = { λ ty col l. B.has_column ty col l.below × All (IsWide col) (B.left l.below) };

    #[inline(always)]
    fn fill_next(&mut self, col: usize, out: &mut [i64]) -> usize {
        self.pass_deleted();
        match self.cursor.step(out.len() as u64) {
            Next::Inserted(row) => {
                out[0] = number_in(row, col);
                1
            }
            Next::Modified(modifies) => {
                match modifies.value(col) {
                    Some(value) => {
                        self.below.skip_row();
                        out[0] = number_of(value);
                    }
                    None => fill(&mut self.below, col, &mut out[..1]),
                }
                1
            }
            Next::Kept(count) => {
                fill(&mut self.below, col, &mut out[..count as usize]);
                self.cursor.pass(count);
                count as usize
            }
        }
    }

    #[inline(always)]
    fn next_run(&mut self, col: usize, most: usize) -> NumberRun<'a> {
        self.pass_deleted();
        match self.cursor.step(most as u64) {
            Next::Inserted(row) => NumberRun::One(number_in(row, col)),
            Next::Modified(modifies) => match modifies.value(col) {
                Some(value) => {
                    self.below.skip_row();
                    NumberRun::One(number_of(value))
                }
                None => self.below.next_run(col, 1),
            },
            Next::Kept(count) => {
                let run = self.below.next_run(col, count as usize);
                self.cursor.pass(run.len() as u64);
                run
            }
        }
    }

    #[inline(always)]
    fn skip_row(&mut self) {
        self.pass_deleted();
        match self.cursor.step(1) {
            Next::Inserted(_) => {}
            Next::Modified(_) => self.below.skip_row(),
            Next::Kept(_) => {
                self.below.skip_row();
                self.cursor.pass(1);
            }
        }
    }
}
