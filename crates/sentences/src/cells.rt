//! What is wrong with a cell, and where it is.
ghost use Rattle.std.specs.Prelude.{◌≡◌, IfOk, string_bytes};
ghost use Rattle.csv.specs.Records.{fields_of};
ghost use Rattle.sentences.specs.Cells.{cell_fault, cell_sentence, in_column, missing_cell, missing_record, not_typed, place_of};

use crate::headings::{name_in, type_of};
use crate::quoting::{ROOM, quoted};
use csv::ByteRecord;
use std::alloc::Global;
use values::{ColumnType, NoMemory};

/// What is wrong with a cell.
#[derive(Clone, Copy)]
pub(crate) enum CellFault {
    /// It is no value of the column's type.
    NotTyped,
    /// It is no UTF-8.
    NotText,
    /// It has more bytes than a text may have.
    TooLong,
}

/// A cell that has a fault.
#[derive(Clone, Copy)]
pub(crate) struct BadCell {
    /// Its column.
    pub(crate) col: usize,
    pub(crate) fault: CellFault,
}

/// Where a record begins: its line, and its number where that is another one.
pub(crate) fn place_of(alloc: Global, line: u64, number: u64) -> Result<String, NoMemory>
    ensures { IfOk result (λ text. string_bytes text ≡ place_of line number) }
{
    if line == number {
        Ok(format!(in alloc; "line {line}")?)
    } else {
        Ok(format!(in alloc; "line {line} (record {number})")?)
    }
}

/// The sentence where a text has no such record.
pub(crate) fn missing_record(alloc: Global, number: u64) -> Result<String, NoMemory>
    ensures { IfOk result (λ text. string_bytes text ≡ missing_record number) }
{
    Ok(format!(in alloc; "record {number}: the text has no such record")?)
}

/// The sentence where a record has no such cell.
pub(crate) fn missing_cell(alloc: Global, place: &str, at: usize) -> Result<String, NoMemory>
    ensures { IfOk result (λ text. string_bytes text ≡ missing_cell place.now at) }
{
    let from_one = at as u128 + 1;
    Ok(format!(in alloc; "{place}, column {from_one}: there is no such cell")?)
}

/// How a column is named behind a place.
pub(crate) fn in_column(alloc: Global, place: &str, name: &[u8]) -> Result<String, NoMemory>
    ensures { IfOk result (λ text. string_bytes text ≡ in_column place.now name.now) }
{
    let shown = quoted(alloc, ROOM, name)?;
    Ok(format!(in alloc; "{place}, column {shown}: ")?)
}

/// The sentence of a cell: its column by the name in the header, and what the record has there.
pub(crate) fn cell_sentence(
    alloc: Global,
    types: &[ColumnType],
    place: &str,
    header: &ByteRecord,
    fields: &ByteRecord,
    bad: BadCell,
) -> Result<String, NoMemory>
    ensures { IfOk result (λ text. string_bytes text
        ≡ cell_sentence types.now place.now (fields_of header.now) (fields_of fields.now) bad.col bad.fault) }
{
    let BadCell { col, fault } = bad;
    let heading = match header.get(col) {
        Some(heading) => heading,
        None => return missing_cell(alloc, place, col),
    };
    let cell = match fields.get(col) {
        Some(cell) => cell,
        None => return missing_cell(alloc, place, col),
    };
    let mut sentence = in_column(alloc, place, name_in(types, heading))?;
    let told = cell_fault(alloc, fault, type_of(types, header, col), cell)?;
    sentence.push_str(told.as_str())?;
    Ok(sentence)
}

/// What is wrong with a cell whose column has this type.
fn cell_fault(
    alloc: Global,
    fault: CellFault,
    column: Option<ColumnType>,
    cell: &[u8],
) -> Result<String, NoMemory>
    ensures { IfOk result (λ text. string_bytes text ≡ cell_fault fault column cell.now) }
{
    match fault {
        CellFault::NotTyped => not_typed(alloc, column, cell),
        CellFault::NotText => {
            let shown = quoted(alloc, ROOM, cell)?;
            Ok(format!(in alloc; "the text {shown} is not UTF-8")?)
        }
        CellFault::TooLong => {
            let bytes = cell.len();
            Ok(format!(in alloc; "the text has {bytes} bytes, and 4096 are the most")?)
        }
    }
}

/// What is wrong with a cell that is no value of its column's type.
pub(crate) fn not_typed(
    alloc: Global,
    column: Option<ColumnType>,
    cell: &[u8],
) -> Result<String, NoMemory>
    ensures { IfOk result (λ text. string_bytes text ≡ not_typed column cell.now) }
{
    let shown = quoted(alloc, ROOM, cell)?;
    Ok(match column {
        Some(ColumnType::Int) => {
            format!(in alloc; "{shown} is not an int: a whole number of 64 bits is wanted")?
        }
        Some(ColumnType::Bool) => {
            format!(in alloc; "{shown} is not a bool: true or false is wanted")?
        }
        Some(ColumnType::Text) => format!(in alloc; "{shown} is not a text")?,
        None => format!(in alloc; "{shown} is not of the column's type")?,
    })
}
