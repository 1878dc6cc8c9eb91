//! The key of a record, in a sentence.
ghost use Rattle.std.specs.Prelude.{◌≡◌, ◌++◌, IfOk, OnOk, string_bytes};
ghost use Rattle.csv.specs.Records.{fields_of};
ghost use Rattle.sentences.specs.Keys.{key_count, key_part, key_parts, key_value};

use crate::headings::{is_key_heading, kind_in, name_in};
use crate::quoting::{KEY_ROOM, label, quoted};
use csv::ByteRecord;
use std::alloc::Global;
use values::{ColumnType, NoMemory};

/// Each key column's name and its cell, behind a text.
pub(crate) fn push_key(
    alloc: Global,
    text: &mut String,
    header: &ByteRecord,
    fields: &ByteRecord,
) -> Result<(), NoMemory>
    ensures { OnOk result (string_bytes text.new ≡ string_bytes text.old ++ key_parts 0 (fields_of header.now) (fields_of fields.now)) }
{
    for at in 0..header.len() {
        let heading = match header.get(at) {
            Some(heading) => heading,
            None => unreachable!(),
        };
        let cell = match fields.get(at) {
            Some(cell) => cell,
            None => return Ok(()),
        };
        if !is_key_heading(heading) {
            return Ok(());
        }
        push_part(alloc, text, at, heading, cell)?;
    }
    Ok(())
}

/// A key column's name and its cell, behind a text.
fn push_part(
    alloc: Global,
    text: &mut String,
    at: usize,
    heading: &[u8],
    cell: &[u8],
) -> Result<(), NoMemory>
    ensures { OnOk result (string_bytes text.new ≡ string_bytes text.old ++ key_part at heading.now cell.now) }
{
    let name = label(alloc, KEY_ROOM, name_in(&[], heading))?;
    let value = key_value(alloc, kind_in(heading), cell)?;
    let before = if at == 0 { " " } else { ", " };
    let part = format!(in alloc; "{before}{name}={value}")?;
    text.push_str(part.as_str())?;
    Ok(())
}

/// A key cell: a text in quotes.
fn key_value(
    alloc: Global,
    kind: Option<(ColumnType, bool)>,
    cell: &[u8],
) -> Result<String, NoMemory>
    ensures { IfOk result (λ text. string_bytes text ≡ key_value kind cell.now) }
{
    match kind {
        Some((ColumnType::Int | ColumnType::Bool, _)) => label(alloc, KEY_ROOM, cell),
        Some((ColumnType::Text, _)) | None => quoted(alloc, KEY_ROOM, cell),
    }
}

/// How many key columns the header names.
pub(crate) fn key_count(header: &ByteRecord) -> usize
    ensures { result ≡ key_count (fields_of header.now) }
{
    let mut count = 0;
    for at in 0..header.len() {
        let heading = match header.get(at) {
            Some(heading) => heading,
            None => unreachable!(),
        };
        if is_key_heading(heading) {
            count += 1;
        }
    }
    count
}
