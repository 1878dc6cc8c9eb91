//! The image as a table of its own.
ghost use Rattle.std.specs.Prelude.{◌≡◌, ℕ, ◌≤◌, ◌<◌, ◌+◌, ◌^◌, [], ◌++◌, IfOk, OnOk, drop, get_or, length, take};
ghost use Rattle.std.specs.List.{All};
ghost use Rattle.values.specs.declared.limits.TheConstants.{MAX_ROWS};
ghost use Rattle.blocks.specs.Column.{Column as Values};
ghost use Rattle.stable.specs.Rows.{column_values, first_columns};
ghost use Rattle.merge.specs.Columns.{grown};
ghost use Rattle.merge.specs.Fitting.{StandsAt};
ghost use Rattle.merge.specs.Image.{image_rows};
ghost use Rattle.merge.specs.Stretches.{IsStretch, stretch_rows};

use crate::layers::Layers;
use crate::stretch::Stretch;
use stable::{Column, StableTable};
use std::alloc::Global;
use values::limits::MAX_ROWS;
use values::{ColumnType, NoMemory};

impl<'a> Layers<'a> {
    /// The image as a stable table, by one walk over its stretches: stable rows go from block to block, and no row is made on
    /// the way.
    ///
    /// # Errors
    ///
    /// `NoMemory` where a growth is refused.
    pub fn to_table(&self, alloc: Global) -> Result<StableTable, NoMemory>
        requires { length (image_rows self.now) ≤ MAX_ROWS }
        ensures { IfOk result (λ table. table ≡ record { schema = self.now.schema; rows = image_rows self.now }) }
    {
        self.table_between(alloc, 0, self.len())
    }

    /// The rows from one position up to another, and without that, as a stable table in the same way; both are cut to the
    /// length of the image.
    ///
    /// # Errors
    ///
    /// `NoMemory` where a growth is refused.
    pub fn table_between(&self, alloc: Global, from: u64, to: u64) -> Result<StableTable, NoMemory>
        requires { length (image_rows self.now) ≤ MAX_ROWS }
        ensures { IfOk result (λ table. table ≡ record { schema = self.now.schema; rows = drop from (take to (image_rows self.now)) }) }
    {
        let rows = self.len();
        prove!(rows <= MAX_ROWS);
        let schema = self.schema();
        let width = schema.width();
        prove!(width > 0);
        let mut columns = empty_columns(alloc, schema.types())?;
        for stretch in self.stretches(from, to) {
            add_to_each(&mut columns, stretch)?;
        }
        Ok(StableTable::of_columns(schema.copy()?, columns))
    }
}

/// Columns of these types, with no values.
fn empty_columns(alloc: Global, types: &[ColumnType]) -> Result<Vec<Column>, NoMemory>
    ensures { IfOk result (λ columns. columns.items ≡ first_columns types.now [] (length types.now)) }
{
    let mut columns = Vec::with_capacity(alloc, types.len())?;
    for col in 0..types.len() {
        columns.push(Column::new(alloc, types[col]))?;
    }
    Ok(columns)
}

/// Puts the values of a stretch's rows in each column after the others.
fn add_to_each(columns: &mut Vec<Column>, stretch: Stretch<'_>) -> Result<(), NoMemory>
    requires is { IsStretch 3 stretch }
    requires stand { (col : ℕ) (d : Values) → col < length columns.old.items
        → All (StandsAt (get_or columns.old.items col d).ty col) (stretch_rows stretch) }
    requires room { (col : ℕ) (d : Values) → col < length columns.old.items
        → length (get_or columns.old.items col d).values + length (stretch_rows stretch) < 2 ^ 63 }
    ensures { OnOk result (columns.new.items ≡ grown 0 columns.old.items (stretch_rows stretch.entry)) }
{
    for col in 0..columns.len() {
        add_stretch(&mut columns[col], stretch, col)?;
    }
    Ok(())
}

/// Puts the values of a stretch's rows in one column after the others.
fn add_stretch(column: &mut Column, stretch: Stretch<'_>, col: usize) -> Result<(), NoMemory>
    requires is { IsStretch 3 stretch }
    requires stand { All (StandsAt column.old.ty col) (stretch_rows stretch) }
    requires room { length column.old.values + length (stretch_rows stretch) < 2 ^ 63 }
    ensures { OnOk result (column.new ≡ record column.old {
      values = column.old.values ++ column_values col (stretch_rows stretch.entry);
    }) }
{
    match stretch {
        Stretch::Stable(stretch) => {
            let width = stretch.table.schema().width();
            prove!(col < width);
            column.extend_from(
                stretch.table.column(col),
                stretch.sid as usize,
                stretch.len as usize,
            )
        }
        Stretch::Row(view) => column.push(view.value(col)),
    }
}
