//! The rows under the Read-PDT, of which the numbers of a column are handed out: as it is packed, or by its tree.
ghost use Rattle.std.specs.Prelude.{◌≡◌, ◌≤◌, IfSome, length};
ghost use Rattle.std.specs.Option.{option_copied};
ghost use Rattle.values.specs.declared.value.ColumnType.{ColumnType};
ghost use Rattle.values.specs.declared.limits.TheConstants.{MAX_ROWS};
ghost use Rattle.merge.specs.Cursor.{IsCursor, rows_left};
ghost use Rattle.merge.specs.Filling.{HaveValues};
ghost use Rattle.merge.specs.Left.{stable_left};
ghost use Rattle.merge.specs.Packed.{IsPacked};
ghost use Rattle.merge.specs.ReadRows.{AreReadRows, HasReadColumn, rows_of_read};

use crate::cursor::Cursor;
use crate::level::{Level, StableRows};
use crate::number_runs::NumberRun;
use crate::numbers::Numbers;
use crate::packed::{Packed, changes_at, patches_at};
use crate::packed_rows::PackedRows;
use crate::view::Layer;

/// The rows that are left under a Read-PDT.
#[derive(Drop)]
pub(crate) enum ReadRows<'a> {
    /// As it is packed.
    Packed(PackedRows<'a>),
    /// By its tree.
    Tree(Level<'a, StableRows<'a>>),
}

impl<'a> ReadRows<'a> {
    /// The rows over stable ones from where a cursor in the Read-PDT is: as it is packed, where the column is.
    pub(crate) fn at(
        stable: StableRows<'a>,
        read: Cursor<'a>,
        packed: Option<&'a Packed>,
        col: usize,
    ) -> ReadRows<'a>
        requires few { length stable.table.now.rows ≤ MAX_ROWS }
        requires sid { stable.sid ≡ read.sid }
        requires inside { read.index ≤ length read.tree.entries }
        requires cursor { IsCursor (length (stable_left stable)) read }
        requires packed { IfSome (option_copied packed) (IsPacked read.tree.entries) }
        ensures rows { rows_of_read result ≡ rows_left read.entry (stable_left stable.entry) }
        ensures lawful { AreReadRows result }
        ensures column { (ty : ColumnType) → HaveValues ty col (stable_left stable.entry) → HasReadColumn ty col result }
    {
        if let Some(packed) = packed {
            if let Some(column) = packed.column(col) {
                return ReadRows::Packed(PackedRows {
                    place: read.index(),
                    sid: stable.sid,
                    below: stable,
                    tree: read.tree(),
                    changes: changes_at(packed.changes(), read.index()),
                    patches: patches_at(column.modified(), read.sid()),
                    inserted: column.inserted(),
                });
            }
        }
        ReadRows::Tree(Level {
            below: stable,
            cursor: read,
            layer: Layer::Read,
        })
    }
}

impl<'a> Numbers<'a> for ReadRows<'a> {
    ghost left = { λ r. rows_of_read r };

    ghost is_lawful = { λ r. AreReadRows r };

    ghost has_column = { λ ty col r. HasReadColumn ty col r };

    #[inline(always)]
    fn fill_next(&mut self, col: usize, out: &mut [i64]) -> usize {
        match self {
            ReadRows::Packed(rows) => rows.fill_next(col, out),
            ReadRows::Tree(rows) => rows.fill_next(col, out),
        }
    }

    #[inline(always)]
    fn next_run(&mut self, col: usize, most: usize) -> NumberRun<'a> {
        match self {
            ReadRows::Packed(rows) => rows.next_run(col, most),
            ReadRows::Tree(rows) => rows.next_run(col, most),
        }
    }

    #[inline(always)]
    fn skip_row(&mut self) {
        match self {
            ReadRows::Packed(rows) => rows.skip_row(),
            ReadRows::Tree(rows) => rows.skip_row(),
        }
    }
}
