//! Why a text is no table, and where: as numbers that C is told.
ghost use Rattle.std.specs.Prelude.{◌≡◌, ◌≢◌, ◌<◌};
ghost use Rattle.pdt_c.specs.Told.{IsPut};
ghost use Rattle.pdt_c.specs.TextFaults.{at, Explains, told_of, told_of_plain, told_of_schema};
ghost use Rattle.pdt_c.specs.declared.codes.TheConstants.{BAD_TABLE};

use crate::codes::{BAD_TABLE, code_of_table};
use inputs::{PlainFault, TableFault};
use sentences::explain_table;
use std::alloc::Global;
use values::limits::MAX_COLUMNS;
use values::{ColumnType, SchemaFault};

/// The first fault of a text. The row is the record, which counts from 1 with the header; the column counts from 0.
#[repr(C)]
#[derive(Clone, Copy)]
pub struct TextFault {
    pub row: u64,
    pub column: u64,
    /// Which sentence says it, from 1 on; 0 where the text isn't what is wrong.
    pub cause: u32,
}

/// The code of why a text makes no table; at `BAD_TABLE` it is told which fault is the first, and where.
pub(crate) fn tell(fault: TableFault, told: &mut TextFault) -> u32
    ensures some { 0 < result }
    ensures bad { result ≡ BAD_TABLE → (fault ≢ TableFault.NoMemory) × (told.new ≡ told_of fault) }
{
    *told = told_of(fault);
    code_of_table(fault)
}

/// The same of a text whose header names no types. A name of the key that no column has is told by its index.
pub(crate) fn tell_plain(fault: PlainFault, told: &mut TextFault) -> u32
    ensures some { 0 < result }
    ensures bad { result ≡ BAD_TABLE → (fault ≢ PlainFault.Table TableFault.NoMemory) × (told.new ≡ told_of_plain fault) }
{
    match fault {
        PlainFault::NoColumn(name) => {
            *told = at(1, name, 12);
            BAD_TABLE
        }
        PlainFault::Table(TableFault::BadHeader(column)) => {
            *told = at(1, column, 13);
            BAD_TABLE
        }
        PlainFault::Table(fault) => tell(fault, told),
    }
}

fn told_of(fault: TableFault) -> TextFault
    ensures { result ≡ told_of fault }
{
    match fault {
        TableFault::NoHeader => at(1, 0, 1),
        TableFault::BadHeader(column) => at(1, column, 2),
        TableFault::Schema(fault) => told_of_schema(fault),
        TableFault::BadCount(row) => at(row, 0, 7),
        TableFault::BadText(row, column) => at(row, column, 8),
        TableFault::BadCell(row, column) => at(row, column, 9),
        TableFault::TextTooLong(row, column) => at(row, column, 10),
        TableFault::RepeatedKey(row) => at(row, 0, 11),
        TableFault::TooManyRows | TableFault::NoMemory => at(0, 0, 0),
    }
}

fn told_of_schema(fault: SchemaFault) -> TextFault
    ensures { result ≡ told_of_schema fault }
{
    match fault {
        SchemaFault::NoColumns => at(1, 0, 3),
        SchemaFault::TooManyColumns => at(1, MAX_COLUMNS, 4),
        SchemaFault::BadKeyCount => at(1, 0, 5),
        SchemaFault::RepeatedName(column) => at(1, column, 6),
        SchemaFault::NoMemory => at(0, 0, 0),
    }
}

fn at(row: u64, column: usize, cause: u32) -> TextFault
    ensures { result ≡ at row column cause }
{
    TextFault {
        row,
        column: column as u64,
        cause,
    }
}

/// Puts the sentence that explains a fault of a text where there is room, and answers how many bytes it has: 0 where a growth was refused.
/// The types are those that were found, or none where the header names them.
pub(crate) fn explain(
    alloc: Global,
    text: &[u8],
    types: &[ColumnType],
    fault: TableFault,
    sentence: &mut [u8],
) -> usize
    ensures { Explains text.now types.now fault result sentence.new }
{
    match explain_table(alloc, text, types, fault) {
        Ok(told) => put(told.as_str().as_bytes(), sentence),
        Err(_) => 0,
    }
}

pub(crate) fn put(bytes: &[u8], room: &mut [u8]) -> usize
    ensures { IsPut result room.new bytes.now }
{
    if bytes.len() <= room.len() {
        room[..bytes.len()].copy_from_slice(bytes);
    }
    bytes.len()
}
