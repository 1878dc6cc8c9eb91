//! Columns that are filled record by record: a cell goes from its field into its column, and no row is made.
ghost use Rattle.std.specs.Prelude.{◌≡◌, ◌≢◌, ◌<◌, ◌+◌, ◌^◌, ◌++◌, ◌∷◌, [], length, map, List, IfOk, IfErr, OnOk, Ok, Err};
ghost use Rattle.std.specs.List.{All};
ghost use Rattle.csv.specs.Records.{fields_of};
ghost use Rattle.values.specs.declared.value.Value.{Value};
ghost use Rattle.inputs.specs.Filling.{empty_column, extended, types_in, IsAdded};
ghost use Rattle.inputs.specs.Input.{cell_of, cells_of, row_of};

use crate::cell::lent_cell;
use crate::fault::TableFault;
use csv::ByteRecord;
use stable::Column;
use std::alloc::Global;
use values::limits::MAX_ROWS;
use values::{ColumnType, NoMemory};

/// A column of each type, with no values.
pub(crate) fn empty_columns(alloc: Global, types: &[ColumnType]) -> Result<Vec<Column>, NoMemory>
    ensures { IfOk result (λ columns. columns.items ≡ map empty_column types.now) }
{
    let mut columns = Vec::with_capacity(alloc, types.len())?;
    for column in types {
        columns.push(Column::new(alloc, *column))?;
    }
    Ok(columns)
}

/// Puts the cells of the record of this number after the values of their columns.
pub(crate) fn add_record(
    columns: &mut Vec<Column>,
    number: u64,
    fields: &ByteRecord,
) -> Result<(), TableFault>
    requires { All (λ c. length c.values + 2 ≡ number) columns.old.items }
    ensures ok { OnOk result (IsAdded columns.old.items number (fields_of fields.now) columns.new.items) }
    ensures err { IfErr result
        (λ fault. fault ≢ TableFault.NoMemory → row_of (types_in columns.old.items) number (fields_of fields.now) ≡ Err fault) }
{
    // The header is record 1, so that so many records before this one hold the most rows.
    if number > MAX_ROWS + 1 {
        return Err(TableFault::TooManyRows);
    }
    if fields.len() != columns.len() {
        return Err(TableFault::BadCount(number));
    }
    add_cells(columns, number, fields)
}

/// Puts the cells of a record that has one for each column after their values.
fn add_cells(columns: &mut Vec<Column>, number: u64, fields: &ByteRecord) -> Result<(), TableFault>
    requires count { length (fields_of fields.now) ≡ length columns.old.items }
    requires room { All (λ c. length c.values < 2 ^ 63) columns.old.items }
    ensures ok { OnOk result ((cells : List Value)
        × (cells_of number 0 (types_in columns.old.items) (fields_of fields.now) ≡ Ok cells)
        × (length cells ≡ length columns.old.items)
        × (columns.new.items ≡ extended columns.old.items cells)) }
    ensures err { IfErr result
        (λ fault. fault ≢ TableFault.NoMemory → cells_of number 0 (types_in columns.old.items) (fields_of fields.now) ≡ Err fault) }
{
    for i in 0..columns.len() {
        let bytes = match fields.get(i) {
            Some(bytes) => bytes,
            None => unreachable!(),
        };
        add_cell(&mut columns[i], number, i, bytes)?;
    }
    Ok(())
}

/// Puts the cell `at` of the record of this number after the values of its column.
fn add_cell(column: &mut Column, number: u64, at: usize, bytes: &[u8]) -> Result<(), TableFault>
    requires { length column.old.values < 2 ^ 63 }
    ensures ok { OnOk result ((value : Value)
        × (cell_of column.old.ty number at bytes.now ≡ Ok value)
        × (column.new ≡ record { ty = column.old.ty; values = column.old.values ++ value ∷ [] })) }
    ensures err { IfErr result (λ fault. fault ≢ TableFault.NoMemory → cell_of column.old.ty number at bytes.now ≡ Err fault) }
{
    let value = lent_cell(column.column_type(), number, at, bytes)?;
    column.push(value)?;
    Ok(())
}
