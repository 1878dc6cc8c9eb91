//! Walks over a range of the image: stretch by stretch, and row by row (Héman et al. 2010, "MergeScan").
ghost use Rattle.std.specs.Prelude.{◌≡◌, ◌++◌, ◌≤◌, ◌<◌, ◌^◌, min, length, drop, take, Some};
ghost use Rattle.std.specs.Iterator.{YieldsFirstBy, at_most};
ghost use Rattle.merge.specs.View.{row_of};
ghost use Rattle.merge.specs.Stretches.{YieldsStretch};
ghost use Rattle.merge.specs.ColumnStretches.{HasFirst, YieldsColumn};

use crate::column_stretch::ColumnStretch;
use crate::image::Image;
use crate::stretch::{StableStretch, Stretch};
use crate::view::RowView;
use stable::StableTable;
use std::iter::FusedIterator;
use std::marker::Model;

/// The stretches that are left of a range of the image, in order. A contract sees them as their rows.
#[derive(Drop)]
pub struct Stretches<'a> {
    rows: Image<'a>,
    /// How many rows are wanted of those that are left.
    left: u64,
}

impl<'a> Model for Stretches<'a> {
    ghost use Rattle.std.specs.Prelude.{List, ◌≤◌, ◌<◌, ◌^◌, length, take};
    ghost use Rattle.values.specs.declared.row.Row.{Row};

    ghost Value = { List Row };

    ghost use Rattle.merge.specs.Left.{AreCursors, image_left};

    ghost view = { λ r. take r.left (image_left r.rows) };

    ghost invariant = { λ r. AreCursors r.rows × (r.left ≤ length (image_left r.rows)) × (r.left < 2 ^ 62) };
}

impl<'a> Stretches<'a> {
    ghost use Rattle.merge.specs.Left.{AreCursors, image_left};

    /// The stretches of so many rows.
    pub(crate) fn new(rows: Image<'a>, left: u64) -> Stretches<'a>
        requires cursors { AreCursors rows }
        requires left { left ≤ length (image_left rows) }
        requires few { left < 2 ^ 62 }
        ensures { result ≡ take left (image_left rows.entry) }
    {
        Stretches { rows, left }
    }

    /// How many rows are left.
    pub fn rows_left(&self) -> u64
        ensures count { result ≡ length self.now }
        ensures few { result < 2 ^ 62 }
    {
        self.left
    }

    /// The next values of a column that come from one place.
    #[inline(always)]
    pub(crate) fn next_of_column(&mut self, col: usize) -> Option<ColumnStretch<'a>>
        requires { HasFirst col self.old }
        ensures { YieldsColumn col self.old result self.new }
    {
        let Stretches { rows, left } = self;
        if *left == 0 {
            return None;
        }
        let values = rows.next_of_column(col, *left);
        *left -= values.count();
        Some(values)
    }
}

impl<'a> Iterator for Stretches<'a> {
    type Item = Stretch<'a>;

    ghost next_gives = { λ s r t. YieldsStretch s r t };

    ghost remaining = { λ s. at_most (length s) };

    #[inline(always)]
    fn next(&mut self) -> Option<Stretch<'a>> {
        let Stretches { rows, left } = self;
        if *left == 0 {
            return None;
        }
        let stretch = rows.next_stretch(*left);
        *left -= stretch.count();
        Some(stretch)
    }

    /// At least one stretch where a row is left, and no more than there are rows.
    fn size_hint(&self) -> (usize, Option<usize>)
        ensures least { result.0 ≡ min 1 (length self.now) }
        ensures most { result.1 ≡ Some (length self.now) }
    {
        let left = self.rows_left() as usize;
        (left.min(1), Some(left))
    }
}

impl<'a> FusedIterator for Stretches<'a> {}

/// The rows that are left of a range of the image, in order, lent one by one. A row between two entries costs an
/// increment; no key of a stable row is read. A contract sees them as their rows.
#[derive(Drop)]
pub struct MergeScan<'a> {
    stretches: Stretches<'a>,
    /// What is left of the stretch that was begun.
    stretch: StableStretch<'a>,
}

impl<'a> Model for MergeScan<'a> {
    ghost use Rattle.std.specs.Prelude.{List, ◌+◌, ◌++◌, ◌≤◌, length, take, drop};
    ghost use Rattle.values.specs.declared.row.Row.{Row};
    ghost use Rattle.values.specs.declared.limits.TheConstants.{MAX_ROWS};

    ghost Value = { List Row };

    ghost view = { λ s. take s.stretch.len (drop s.stretch.sid s.stretch.table.now.rows) ++ s.stretches };

    ghost invariant = { λ s. (s.stretch.sid + s.stretch.len ≤ length s.stretch.table.now.rows)
        × (length s.stretch.table.now.rows ≤ MAX_ROWS) };
}

impl<'a> MergeScan<'a> {
    /// The rows of these stretches.
    pub(crate) fn new(table: &'a StableTable, stretches: Stretches<'a>) -> MergeScan<'a>
        ensures { result ≡ stretches.entry }
    {
        let stretch = StableStretch {
            table,
            sid: table.len(),
            len: 0,
        };
        MergeScan { stretches, stretch }
    }
}

impl<'a> Iterator for MergeScan<'a> {
    type Item = RowView<'a>;

    ghost next_gives = { YieldsFirstBy row_of (λ s. s) };

    ghost remaining = { λ s. at_most (length s) };

    #[inline(always)]
    fn next(&mut self) -> Option<RowView<'a>> {
        if self.stretch.len > 0 {
            return Some(self.stretch.next_view());
        }
        match self.stretches.next()? {
            Stretch::Row(view) => Some(view),
            Stretch::Stable(stretch) => {
                let mut rest = stretch;
                let view = rest.next_view();
                self.stretch = rest;
                Some(view)
            }
        }
    }

    /// How many rows are left, twice.
    fn size_hint(&self) -> (usize, Option<usize>)
        ensures least { result.0 ≡ length self.now }
        ensures most { result.1 ≡ Some (length self.now) }
    {
        let len = self.len();
        (len, Some(len))
    }
}

impl<'a> ExactSizeIterator for MergeScan<'a> {
    /// How many rows are left.
    fn len(&self) -> usize {
        (self.stretch.len + self.stretches.rows_left()) as usize
    }
}

impl<'a> FusedIterator for MergeScan<'a> {}
