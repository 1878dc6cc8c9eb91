//! A stretch of rows that stand together.
ghost use Rattle.std.specs.Prelude.{◌≡◌, ℕ, ◌+◌, ◌-◌, ◌<◌, List, ◌∷◌, length, drop};
ghost use Rattle.values.specs.declared.row.Row.{Row as Cells};
ghost use Rattle.merge.specs.View.{IsBare, row_of, row_over};
ghost use Rattle.merge.specs.Stretches.{IsStretch, IsStableStretch, stretch_over, stretch_rows};
ghost use Rattle.merge.specs.declared.stretch.Stretch.TheVariants.{Stable};

use crate::view::RowView;
use stable::StableTable;

/// Rows of a stable table that no layer changes: so many, from the SID on.
#[derive(Clone, Copy)]
pub struct StableStretch<'a> {
    pub table: &'a StableTable,
    pub sid: u64,
    pub len: u64,
}

/// Rows of the image that stand together and come from one place.
#[derive(Clone, Copy)]
pub enum Stretch<'a> {
    /// Stable rows as they are.
    Stable(StableStretch<'a>),
    /// A row that a layer inserts or modifies.
    Row(RowView<'a>),
}

impl<'a> StableStretch<'a> {
    /// The first row of the stretch, which goes on after it.
    #[inline(always)]
    pub(crate) fn next_view(&mut self) -> RowView<'a>
        requires { IsStableStretch self.old }
        ensures rows { stretch_rows (Stable self.old) ≡ row_of result ∷ stretch_rows (Stable self.new) }
        ensures moved { self.new ≡ record self.old { sid = self.old.sid + 1; len = self.old.len - 1 } }
    {
        let view = RowView::stable(self.table, self.sid);
        self.sid += 1;
        self.len -= 1;
        view
    }
}

impl<'a> Stretch<'a> {
    /// How many rows the stretch has.
    #[inline(always)]
    pub(crate) fn count(&self) -> u64
        requires { (depth : ℕ) × IsStretch depth self.now }
        ensures { result ≡ length (stretch_rows self.now) }
    {
        match self {
            Stretch::Stable(stretch) => stretch.len,
            Stretch::Row(_) => 1,
        }
    }

    /// The first row of the stretch.
    #[inline(always)]
    pub(crate) fn first(&self) -> RowView<'a>
        requires { (depth : ℕ) × IsStretch depth self.now }
        ensures row { stretch_rows self.now ≡ row_of result ∷ drop 1 (stretch_rows self.now) }
        ensures over { (base : List Cells) → 0 < length (stretch_over base self.now)
            → stretch_over base self.now ≡ row_over base result ∷ drop 1 (stretch_over base self.now) }
        ensures bare { (depth : ℕ) → IsStretch depth self.now → IsBare depth result }
    {
        match self {
            Stretch::Stable(stretch) => RowView::stable(stretch.table, stretch.sid),
            Stretch::Row(view) => *view,
        }
    }
}
