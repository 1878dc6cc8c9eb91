//! What a header cell names, and what is wrong with one that names no column.
ghost use Rattle.std.specs.Prelude.{◌≡◌, ◌++◌, [], None, IfOk, codes, string_bytes};
ghost use Rattle.csv.specs.Records.{fields_of};
ghost use Rattle.sentences.specs.Quoting.{quoted};
ghost use Rattle.sentences.specs.declared.quoting.TheConstants.{ROOM};
ghost use Rattle.sentences.specs.Headings.{before_colon, heading_fault, is_key_heading, kind_fault, kind_in, name_fault, name_in, type_of};

use crate::quoting::{ROOM, is_text, quoted};
use csv::ByteRecord;
use inputs::{first_colon, read_kind};
use std::alloc::Global;
use values::limits::MAX_NAME_BYTES;
use values::{ColumnType, NoMemory};

/// The column's name in a header cell: the whole cell where the types are given beside the text.
pub(crate) fn name_in<'a>(types: &[ColumnType], cell: &'a [u8]) -> &'a [u8]
    ensures { result.now ≡ name_in types.now cell.now }
{
    if types.is_empty() {
        before_colon(cell)
    } else {
        cell
    }
}

/// What is before the first colon, or all where there is none.
fn before_colon(cell: &[u8]) -> &[u8]
    ensures { result.now ≡ name_in [] cell.now }
{
    match first_colon(cell) {
        Some(colon) => &cell[..colon],
        None => cell,
    }
}

/// The type that a header cell names, and whether the column is one of the key.
pub(crate) fn kind_in(cell: &[u8]) -> Option<(ColumnType, bool)>
    ensures { result ≡ kind_in cell.now }
{
    match first_colon(cell) {
        Some(colon) => read_kind(&cell[colon + 1..]),
        None => None,
    }
}

/// Whether a header cell names a key column.
pub(crate) fn is_key_heading(cell: &[u8]) -> bool
    ensures { result ≡ is_key_heading cell.now }
{
    match kind_in(cell) {
        Some((_, is_key)) => is_key,
        None => false,
    }
}

/// The type of a column, which its header cell names, or which is given.
pub(crate) fn type_of(types: &[ColumnType], header: &ByteRecord, col: usize) -> Option<ColumnType>
    ensures { result ≡ type_of types.now (fields_of header.now) col }
{
    if types.is_empty() {
        named_type(header, col)
    } else {
        types.get(col).copied()
    }
}

/// The type that a column's header cell names.
fn named_type(header: &ByteRecord, col: usize) -> Option<ColumnType>
    ensures { result ≡ type_of [] (fields_of header.now) col }
{
    match header.get(col) {
        Some(cell) => kind_in(cell).map(|kind| kind.0),
        None => None,
    }
}

/// What is wrong with a header cell.
pub(crate) fn heading_fault(
    alloc: Global,
    types: &[ColumnType],
    cell: &[u8],
) -> Result<String, NoMemory>
    ensures { IfOk result (λ text. string_bytes text ≡ heading_fault types.now cell.now) }
{
    if !types.is_empty() {
        let shown = quoted(alloc, ROOM, cell)?;
        return Ok(format!(in alloc;
            "{shown} is not a column's name: 1 to 64 bytes of UTF-8 without a colon are wanted"
        )?);
    }
    match kind_in(cell) {
        Some(_) => name_fault(alloc, cell, before_colon(cell)),
        None => untyped(alloc, cell),
    }
}

/// What is wrong with a cell that has no type.
fn untyped(alloc: Global, cell: &[u8]) -> Result<String, NoMemory>
    ensures { IfOk result (λ text. string_bytes text ≡ kind_fault cell.now None) }
{
    let shown = quoted(alloc, ROOM, cell)?;
    Ok(format!(in alloc;
        "{shown} is not a name, a colon and a type (int, text or bool, with :key behind it for a key column)"
    )?)
}

/// What is wrong with a cell of this name that has a type.
fn name_fault(alloc: Global, cell: &[u8], name: &[u8]) -> Result<String, NoMemory>
    ensures { IfOk result (λ text. string_bytes text ≡ name_fault cell.now name.now) }
{
    if name.is_empty() {
        let shown = quoted(alloc, ROOM, cell)?;
        return Ok(format!(in alloc; "{shown} has no name before the colon")?);
    }
    let shown = quoted(alloc, ROOM, name)?;
    if name.len() > MAX_NAME_BYTES {
        let bytes = name.len();
        return Ok(format!(in alloc; "the name {shown} has {bytes} bytes, and 64 are the most")?);
    }
    if !is_text(name) {
        return Ok(format!(in alloc; "the name {shown} is not UTF-8")?);
    }
    late_key(alloc, cell)
}

/// What is wrong with a cell that names a key column after one that is not.
fn late_key(alloc: Global, cell: &[u8]) -> Result<String, NoMemory>
    ensures { IfOk result (λ text. string_bytes text ≡ quoted ROOM cell.now
        ++ codes " is a key column after one that is not: the key columns come first") }
{
    let shown = quoted(alloc, ROOM, cell)?;
    Ok(format!(in alloc;
        "{shown} is a key column after one that is not: the key columns come first"
    )?)
}
