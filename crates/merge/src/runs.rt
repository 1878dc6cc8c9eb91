//! A walk over one column of a range of the image, run by run: no row is made on the way, and no value of a block is
//! looked at (Héman et al. 2010, "MergeScan").
ghost use Rattle.std.specs.Prelude.{◌≡◌};
ghost use Rattle.std.specs.List.{All};
ghost use Rattle.stable.specs.Rows.{column_values};
ghost use Rattle.merge.specs.Fitting.{StandsAt};
ghost use Rattle.merge.specs.Runs.{YieldsRun};

use crate::column_stretch::ColumnStretch;
use crate::run::{ColumnRange, Run};
use crate::scan::Stretches;
use stable::Column;
use std::iter::FusedIterator;
use std::marker::Model;

/// The runs that are left of one column of a range of the image, in order. A contract sees them as the column's type and
/// the values that are left.
#[derive(Drop)]
pub struct ColumnRuns<'a> {
    stretches: Stretches<'a>,
    col: usize,
    /// What is left of the stretch that was begun.
    range: ColumnRange<'a>,
}

impl<'a> Model for ColumnRuns<'a> {
    ghost use Rattle.std.specs.Prelude.{◌+◌, ◌++◌, ◌≤◌, length};
    ghost use Rattle.std.specs.List.{All};
    ghost use Rattle.blocks.specs.Column.{Column as Values};
    ghost use Rattle.stable.specs.Rows.{column_values};
    ghost use Rattle.merge.specs.Fitting.{StandsAt};
    ghost use Rattle.merge.specs.Runs.{range_values};

    ghost Value = { Values };

    ghost view = { λ r. record {
      ty = r.range.column.now.ty;
      values = range_values r.range ++ column_values r.col r.stretches;
    } };

    ghost invariant = { λ r. (r.range.first + r.range.count ≤ length r.range.column.now.values)
        × All (StandsAt r.range.column.now.ty r.col) r.stretches };
}

impl<'a> ColumnRuns<'a> {
    /// The runs of the column with this number in the rows of stretches; the column given is of its type.
    pub(crate) fn new(column: &'a Column, col: usize, stretches: Stretches<'a>) -> ColumnRuns<'a>
        requires { All (StandsAt column.now.ty col) stretches }
        ensures { result ≡ record { ty = column.now.ty; values = column_values col stretches.entry } }
    {
        let range = ColumnRange {
            column,
            first: 0,
            count: 0,
        };
        ColumnRuns {
            stretches,
            col,
            range,
        }
    }
}

impl<'a> Iterator for ColumnRuns<'a> {
    type Item = Run<'a>;

    ghost use Rattle.std.specs.Prelude.{length};
    ghost use Rattle.std.specs.Iterator.{at_most};

    ghost next_gives = { λ s r t. YieldsRun s r t };

    ghost remaining = { λ s. at_most (length s.values) };

    fn next(&mut self) -> Option<Run<'a>> {
        if self.range.count > 0 {
            return Some(self.range.next_run());
        }
        match self.stretches.next_of_column(self.col)? {
            ColumnStretch::Value(value) => Some(Run::Value(value)),
            ColumnStretch::Stable(stretch) => {
                let mut range = ColumnRange::of_stretch(stretch, self.col);
                let run = range.next_run();
                self.range = range;
                Some(run)
            }
        }
    }
}

impl<'a> FusedIterator for ColumnRuns<'a> {}
