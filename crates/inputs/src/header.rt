//! The header: the columns that the first record names, as a schema.
ghost use Rattle.std.specs.Prelude.{◌≡◌, ◌≢◌, ◌<◌, ◌∷◌, ℕ, List, [], IfOk, IfErr, IfSome, Ok, Err, Some, true, length, position};
ghost use Rattle.csv.specs.Records.{fields_of};
ghost use Rattle.inputs.specs.Input.{IsFaultOf};
ghost use Rattle.inputs.specs.Reading.{Fields, IsReading};
ghost use Rattle.inputs.specs.Header.{as_schema, headings_of, heading_of, is_colon, heading_kind, kind_word, named, placed, schema_of};

use crate::fault::TableFault;
use crate::reading::next_record;
use csv::{ByteRecord, Reader};
use std::alloc::Global;
use values::limits::MAX_NAME_BYTES;
use values::{ColumnType, NoMemory, Schema, SchemaFault, Text};

/// Every type, in the key and outside it, once.
const KINDS: [(ColumnType, bool); 6] = [
    (ColumnType::Int, false),
    (ColumnType::Text, false),
    (ColumnType::Bool, false),
    (ColumnType::Int, true),
    (ColumnType::Text, true),
    (ColumnType::Bool, true),
];

/// A column, as its header cell names it.
#[derive(Drop)]
pub(crate) struct Heading {
    pub(crate) name: Text,
    pub(crate) column: ColumnType,
    pub(crate) is_key: bool,
}

/// The schema of the first record that the reader gives.
pub(crate) fn first_schema<'a>(
    alloc: Global,
    reader: &mut Reader<&'a [u8]>,
    fields: &mut ByteRecord,
) -> Result<Schema, TableFault>
    requires { (text : List ℕ) × IsReading text [] reader.old }
    ensures ok { IfOk result (λ schema. (header : Fields) × (schema_of header ≡ Ok schema)
        × ((text : List ℕ) → IsReading text [] reader.old → IsReading text (header ∷ []) reader.new)) }
    ensures err { IfErr result
        (λ fault. fault ≢ TableFault.NoMemory → (text : List ℕ) → IsReading text [] reader.old → IsFaultOf text fault) }
{
    let found = next_record(reader, fields)?;
    if !found {
        return Err(TableFault::NoHeader);
    }
    read_header(alloc, fields)
}

/// The schema that the header names.
fn read_header(alloc: Global, fields: &ByteRecord) -> Result<Schema, TableFault>
    ensures ok { IfOk result (λ schema. schema_of (fields_of fields.now) ≡ Ok schema) }
    ensures err { IfErr result (λ fault. fault ≢ TableFault.NoMemory → schema_of (fields_of fields.now) ≡ Err fault) }
{
    let headings = read_headings(alloc, fields)?;
    schema_named(alloc, headings)
}

/// The columns that the header's cells name, in their order.
fn read_headings(alloc: Global, fields: &ByteRecord) -> Result<Vec<Heading>, TableFault>
    ensures ok { IfOk result (λ headings. headings_of 0 true (fields_of fields.now) ≡ Ok headings.items) }
    ensures err { IfErr result (λ fault. fault ≢ TableFault.NoMemory → headings_of 0 true (fields_of fields.now) ≡ Err fault) }
{
    let mut headings = Vec::new(alloc);
    let mut in_key = true;
    for i in 0..fields.len() {
        let bytes = match fields.get(i) {
            Some(bytes) => bytes,
            None => unreachable!(),
        };
        let heading = place_heading(alloc, i, in_key, bytes)?;
        in_key = heading.is_key;
        headings.push(heading)?;
    }
    Ok(headings)
}

/// The column that cell `at` names, a key column only where `in_key` says that one may be there.
fn place_heading(
    alloc: Global,
    at: usize,
    in_key: bool,
    bytes: &[u8],
) -> Result<Heading, TableFault>
    ensures ok { IfOk result (λ heading. placed at in_key (heading_of bytes.now) ≡ Ok heading) }
    ensures err { IfErr result (λ fault. fault ≢ TableFault.NoMemory → placed at in_key (heading_of bytes.now) ≡ Err fault) }
{
    match read_heading(alloc, bytes)? {
        Some(heading) => {
            if heading.is_key && !in_key {
                Err(TableFault::BadHeader(at))
            } else {
                Ok(heading)
            }
        }
        None => Err(TableFault::BadHeader(at)),
    }
}

/// The column that a header cell names.
fn read_heading(alloc: Global, bytes: &[u8]) -> Result<Option<Heading>, NoMemory>
    ensures { IfOk result (λ heading. heading ≡ heading_of bytes.now) }
{
    let colon = match first_colon(bytes) {
        Some(colon) => colon,
        None => return Ok(None),
    };
    let (column, is_key) = match read_kind(&bytes[colon + 1..]) {
        Some(kind) => kind,
        None => return Ok(None),
    };
    name_heading(alloc, &bytes[..colon], column, is_key)
}

/// Where the first colon is.
pub fn first_colon(bytes: &[u8]) -> Option<usize>
    ensures first { result ≡ position is_colon bytes.now }
    ensures within { IfSome result (λ colon. colon < length bytes.now) }
{
    bytes.iter().position(|c| *c == b':')
}

/// A column of this name, where it may have it.
pub(crate) fn name_heading(
    alloc: Global,
    name: &[u8],
    column: ColumnType,
    is_key: bool,
) -> Result<Option<Heading>, NoMemory>
    ensures { IfOk result (λ heading. heading ≡ named name.now (Some (column, is_key))) }
{
    if name.is_empty() {
        return Ok(None);
    }
    if name.len() > MAX_NAME_BYTES {
        return Ok(None);
    }
    let text = match str::from_utf8(name) {
        Ok(text) => text,
        Err(_) => return Ok(None),
    };
    Ok(Some(Heading {
        name: Text::new(String::from_str(alloc, text)?),
        column,
        is_key,
    }))
}

/// What a header cell has after the column's name and a colon: its type, and whether the column is one of the key.
pub fn kind_word(column: ColumnType, is_key: bool) -> &'static str
    ensures { result.now ≡ kind_word column is_key }
{
    match (column, is_key) {
        (ColumnType::Int, false) => "int",
        (ColumnType::Text, false) => "text",
        (ColumnType::Bool, false) => "bool",
        (ColumnType::Int, true) => "int:key",
        (ColumnType::Text, true) => "text:key",
        (ColumnType::Bool, true) => "bool:key",
    }
}

/// The type and the key of this word.
pub fn read_kind(bytes: &[u8]) -> Option<(ColumnType, bool)>
    ensures { result ≡ heading_kind bytes.now }
{
    KINDS
        .iter()
        .copied()
        .find(|kind| kind_word(kind.0, kind.1).as_bytes() == bytes)
}

/// The schema of columns, those of the key first.
pub(crate) fn schema_named(alloc: Global, headings: Vec<Heading>) -> Result<Schema, TableFault>
    ensures ok { IfOk result (λ schema. as_schema (Ok headings.items) ≡ Ok schema) }
    ensures err { IfErr result (λ fault. fault ≢ TableFault.NoMemory → as_schema (Ok headings.items) ≡ Err fault) }
{
    let mut cols = Vec::with_capacity(alloc, headings.len())?;
    let mut key_cols = 0;
    for heading in headings {
        if heading.is_key {
            key_cols += 1;
        }
        cols.push((heading.name.into_string(), heading.column))?;
    }
    match Schema::new(alloc, cols, key_cols) {
        Ok(schema) => Ok(schema),
        Err(SchemaFault::NoMemory) => Err(TableFault::NoMemory),
        Err(fault) => Err(TableFault::Schema(fault)),
    }
}
