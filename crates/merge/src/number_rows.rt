//! The rows that are left of an image, of which the numbers of a column are handed out.
ghost use Rattle.merge.specs.NumberRows.{AreNumberRows, HasNumberColumn, number_rows_left};

use crate::level::Level;
use crate::number_runs::NumberRun;
use crate::numbers::Numbers;
use crate::read_rows::ReadRows;

/// The rows that are left, with a transaction's tree on top or with none.
#[derive(Drop)]
pub(crate) enum NumberRows<'a> {
    Committed(Level<'a, ReadRows<'a>>),
    Own(Level<'a, Level<'a, ReadRows<'a>>>),
}

impl<'a> Numbers<'a> for NumberRows<'a> {
    ghost left = { λ r. number_rows_left r };

    ghost is_lawful = { λ r. AreNumberRows r };

    ghost has_column = { λ ty col r. HasNumberColumn ty col r };

    #[inline(always)]
    fn fill_next(&mut self, col: usize, out: &mut [i64]) -> usize {
        match self {
            NumberRows::Committed(rows) => rows.fill_next(col, out),
            NumberRows::Own(rows) => rows.fill_next(col, out),
        }
    }

    #[inline(always)]
    fn next_run(&mut self, col: usize, most: usize) -> NumberRun<'a> {
        match self {
            NumberRows::Committed(rows) => rows.next_run(col, most),
            NumberRows::Own(rows) => rows.next_run(col, most),
        }
    }

    #[inline(always)]
    fn skip_row(&mut self) {
        match self {
            NumberRows::Committed(rows) => rows.skip_row(),
            NumberRows::Own(rows) => rows.skip_row(),
        }
    }
}
