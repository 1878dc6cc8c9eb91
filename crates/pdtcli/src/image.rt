//! The records of an image: the header, whose cells name the columns as a table's header does, and the rows.
ghost use Rattle.std.specs.Prelude.{◌≡◌, ◌++◌, ◌∷◌, [], OnOk, IfOk};
ghost use Rattle.values.specs.Lent.{value_of};
ghost use Rattle.values.specs.Shown.{cell_text};
ghost use Rattle.merge.specs.View.{row_of};
ghost use Rattle.pdtcli.specs.Output.{header_fields};
ghost use Rattle.pdtcli.specs.Records.{TakesFields};
ghost use Rattle.pdtcli.specs.Shown.{row_fields};

use crate::records::Records;
use inputs::kind_word;
use itoa::Buffer;
use merge::RowView;
use std::alloc::Global;
use values::{NoMemory, Schema, ValueRef};

/// Adds a header cell for each column.
pub(crate) fn push_header(
    alloc: Global,
    records: &mut Records,
    schema: &Schema,
) -> Result<(), NoMemory>
    ensures { OnOk result (TakesFields records.old records.new (header_fields schema.now)) }
{
    for col in 0..schema.width() {
        let kind = kind_word(schema.column_type(col), col < schema.key_cols());
        let cell = header_cell(alloc, schema.name(col), kind)?;
        records.push_field(cell.as_slice())?;
    }
    Ok(())
}

/// A column's name, a colon and what is after it.
fn header_cell(alloc: Global, name: &str, kind: &str) -> Result<Vec<u8>, NoMemory>
    ensures { IfOk result (λ cell. cell.items ≡ name.now ++ 58 ∷ kind.now) }
{
    let mut cell = Vec::from_slice(alloc, name.as_bytes())?;
    cell.push(b':')?;
    cell.extend_from_slice(kind.as_bytes())?;
    Ok(cell)
}

/// Adds a field for each cell of a row.
pub(crate) fn push_row(records: &mut Records, row: &RowView<'_>) -> Result<(), NoMemory>
    ensures { OnOk result (TakesFields records.old records.new (row_fields (row_of row.now))) }
{
    for col in 0..row.width() {
        push_cell(records, row.value(col))?;
    }
    Ok(())
}

/// Adds a cell: a number in decimal, a text as it is, a truth by its name.
#[inline(always)]
pub(crate) fn push_cell(records: &mut Records, cell: ValueRef<'_>) -> Result<(), NoMemory>
    ensures { OnOk result (TakesFields records.old records.new (cell_text (value_of cell.entry) ∷ [])) }
{
    let mut digits = Buffer::new();
    let text = match cell {
        ValueRef::Int(number) => digits.format(number),
        ValueRef::Text(text) => text,
        ValueRef::Bool(true) => "true",
        ValueRef::Bool(false) => "false",
    };
    records.push_field(text.as_bytes())
}
