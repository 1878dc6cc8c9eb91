//! The rows of the image that are left, under the layers that are there.
ghost use Rattle.std.specs.Prelude.{◌≡◌, ◌<◌, ◌≤◌, List, ◌++◌, length};
ghost use Rattle.values.specs.declared.row.Row.{Row as Cells};
ghost use Rattle.merge.specs.Left.{AreAlike, AreCursors, image_left, image_over};
ghost use Rattle.merge.specs.Stretches.{IsStretch, PassesOver, stretch_rows};
ghost use Rattle.merge.specs.ColumnStretches.{HasFirst, PassesColumn, value_count};

use crate::column_stretch::ColumnStretch;
use crate::level::{Level, Rows, StableRows};
use crate::stretch::Stretch;

/// The rows under the Read- and the Write-PDT.
pub(crate) type CommittedRows<'a> = Level<'a, Level<'a, StableRows<'a>>>;

/// The rows that are left of an image, with a transaction's tree on top or with none.
#[derive(Drop)]
pub(crate) enum Image<'a> {
    Committed(CommittedRows<'a>),
    Own(Level<'a, CommittedRows<'a>>),
}

impl<'a> Image<'a> {
    /// The next rows that come from one place: at least one, and at most so many.
    #[inline(always)]
    pub(crate) fn next_stretch(&mut self, most: u64) -> Stretch<'a>
        requires cursors { AreCursors self.old }
        requires some { 0 < most }
        requires most { most ≤ length (image_left self.old) }
        ensures rows { image_left self.old ≡ stretch_rows result ++ image_left self.new }
        ensures over { (base : List Cells) → AreAlike base self.old
            → PassesOver base (image_over base self.old) result (image_over base self.new) }
        ensures alike { (base : List Cells) → AreAlike base self.old → AreAlike base self.new }
        ensures stretch { IsStretch 3 result }
        ensures most { length (stretch_rows result) ≤ most }
        ensures cursors { AreCursors self.new }
    {
        match self {
            Image::Committed(rows) => rows.next_stretch(most),
            Image::Own(rows) => rows.next_stretch(most),
        }
    }
    /// The next values of a column that come from one place: at least one, and at most so many.
    #[inline(always)]
    pub(crate) fn next_of_column(&mut self, col: usize, most: u64) -> ColumnStretch<'a>
        requires cursors { AreCursors self.old }
        requires some { 0 < most }
        requires most { most ≤ length (image_left self.old) }
        requires first { HasFirst col (image_left self.old) }
        ensures values { PassesColumn col (image_left self.old) result (image_left self.new) }
        ensures most { value_count result ≤ most }
        ensures cursors { AreCursors self.new }
    {
        match self {
            Image::Committed(rows) => rows.next_of_column(col, most),
            Image::Own(rows) => rows.next_of_column(col, most),
        }
    }
}
