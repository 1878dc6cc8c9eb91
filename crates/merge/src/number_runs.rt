//! A walk over one column of numbers, run by run. Where the column is packed, changes of other columns aren't met.
ghost use Rattle.std.specs.Prelude.{◌≡◌, ◌≤◌, length, map, take};
ghost use Rattle.std.specs.Iterator.{at_most};
ghost use Rattle.values.specs.declared.value.ColumnType.TheVariants as column;
ghost use Rattle.merge.specs.Filling.{numbers_in};
ghost use Rattle.merge.specs.NumberRows.{AreNumberRows, HasNumberColumn, YieldsNumbers, number_rows_left};
ghost use Rattle.merge.specs.Packed.{number_at};

use crate::number_rows::NumberRows;
use crate::numbers::Numbers;
use std::iter::FusedIterator;
use std::marker::Model;

/// Numbers of a column that come from one place.
#[derive(Clone, Copy)]
pub enum NumberRun<'a> {
    /// Those of stable rows that stand together, where they lie.
    Lent(&'a [i64]),
    /// That of a row which a layer inserts, or modifies in this column.
    One(i64),
}

impl NumberRun<'_> {
    /// How many there are.
    #[inline(always)]
    pub(crate) fn len(&self) -> usize
        ensures { result ≡ length (numbers_in self.now) }
    {
        match self {
            NumberRun::Lent(numbers) => numbers.len(),
            NumberRun::One(_) => 1,
        }
    }
}

/// The numbers that are left of a column in a range of the image, in order, run by run. A contract sees them as their list.
#[derive(Drop)]
pub struct NumberRuns<'a> {
    rows: NumberRows<'a>,
    col: usize,
    /// How many are wanted of those that are left.
    left: usize,
}

impl<'a> Model for NumberRuns<'a> {
    ghost use Rattle.std.specs.Prelude.{List, ℤ, ◌≤◌, length, map, take};
    ghost use Rattle.values.specs.declared.value.ColumnType.TheVariants as column;
    ghost use Rattle.merge.specs.NumberRows.{AreNumberRows, HasNumberColumn, number_rows_left};
    ghost use Rattle.merge.specs.Packed.{number_at};

    ghost Value = { List ℤ };

    ghost view = { λ r. take r.left (map (number_at r.col) (number_rows_left r.rows)) };

    ghost invariant = { λ r. AreNumberRows r.rows × HasNumberColumn column.Int r.col r.rows × (r.left ≤ length (number_rows_left r.rows)) };
}

impl<'a> NumberRuns<'a> {
    /// The runs of so many rows.
    pub(crate) fn new(rows: NumberRows<'a>, col: usize, left: usize) -> NumberRuns<'a>
        requires lawful { AreNumberRows rows }
        requires column { HasNumberColumn column.Int col rows }
        requires left { left ≤ length (number_rows_left rows) }
        ensures { result ≡ take left (map (number_at col) (number_rows_left rows.entry)) }
    {
        NumberRuns { rows, col, left }
    }
}

impl<'a> Iterator for NumberRuns<'a> {
    type Item = NumberRun<'a>;

    ghost next_gives = { λ s r t. YieldsNumbers s r t };

    ghost remaining = { λ s. at_most (length s) };

    #[inline(always)]
    fn next(&mut self) -> Option<NumberRun<'a>> {
        let NumberRuns { rows, col, left } = self;
        if *left == 0 {
            return None;
        }
        let run = rows.next_run(*col, *left);
        *left -= run.len();
        Some(run)
    }
}

impl<'a> FusedIterator for NumberRuns<'a> {}
