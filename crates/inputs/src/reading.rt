//! The records of a text, one after the other, or by their numbers: no header taken, nothing trimmed, records of any length.
ghost use Rattle.std.specs.Prelude.{◌≡◌, ◌-◌, ◌≤◌, IfOk, List, [], ℕ, length, option_map, slice_get};
ghost use Rattle.csv.specs.Records.{fields_of};
ghost use Rattle.inputs.specs.Reading.{AreRecordsOf, Fields, IsReading, ReadsOne, found_fields};

use csv::{ByteRecord, ErrorKind, Reader, ReaderBuilder};
use std::alloc::Global;
use values::NoMemory;

/// The byte order mark, which the crate `csv` passes over at the start of a text.
const MARK: &[u8] = b"\xef\xbb\xbf";

/// A reader of the text's records. It has 8 KB of the text in its value, which a box spares the stack of each function that
/// holds it.
///
/// # Errors
///
/// `NoMemory` where the box is refused.
#[inline(never)]
pub(crate) fn records_of<'a>(
    alloc: Global,
    text: &'a [u8],
) -> Result<Box<Reader<&'a [u8]>>, NoMemory>
    ensures { IfOk result (λ reader. IsReading text.now [] reader.value) }
{
    let reader = ReaderBuilder::new()
        .has_headers(false)
        .flexible(true)
        .from_reader(alloc, text);
    Ok(Box::new(alloc, reader)?)
}

/// Takes the next record into `fields`, or says that there is none.
///
/// # Errors
///
/// `NoMemory` where a growth is refused. The reader then gives no more records.
pub(crate) fn next_record<'a>(
    reader: &mut Reader<&'a [u8]>,
    fields: &mut ByteRecord,
) -> Result<bool, NoMemory>
    requires { (text : List ℕ) × (read : List Fields) × IsReading text read reader.old }
    ensures { IfOk result (λ found. (text : List ℕ) (read : List Fields) → IsReading text read reader.old
        → ReadsOne text read reader.new found (fields_of fields.new)) }
{
    match reader.read_byte_record(fields) {
        Ok(found) => Ok(found),
        Err(error) => match error.into_kind() {
            ErrorKind::Io(_) | ErrorKind::OutOfMemory => Err(NoMemory),
            // A record of any length is taken, as bytes.
            _ => unreachable!(),
        },
    }
}

/// A record of a text, and the line on which it begins.
#[derive(Drop)]
pub struct PlacedRecord {
    /// The line of its first byte, from 1. What ends a line is a line feed, also one within a cell.
    pub line: u64,
    /// Its cells.
    pub fields: ByteRecord,
}

/// The record of this number, from 1; none where the text has fewer. The text is read up to there.
///
/// # Errors
///
/// `NoMemory` where a growth is refused.
pub fn record_at(alloc: Global, text: &[u8], number: u64) -> Result<Option<PlacedRecord>, NoMemory>
    ensures { IfOk result (λ found. (records : List Fields) → AreRecordsOf text.now records
        → option_map (λ r. fields_of r.fields) found ≡ slice_get records (number - 1)) }
{
    let mut reader = records_of(alloc, text)?;
    let mut fields = ByteRecord::new(alloc);
    let found = read_up_to(reader.as_mut(), &mut fields, number)?;
    if !found {
        return Ok(None);
    }
    let line = line_of(text, &fields);
    Ok(Some(PlacedRecord { line, fields }))
}

/// Takes the record of this number into `fields`, or says that there is none. The reader has given none yet.
fn read_up_to<'a>(
    reader: &mut Reader<&'a [u8]>,
    fields: &mut ByteRecord,
    number: u64,
) -> Result<bool, NoMemory>
    requires { (text : List ℕ) × IsReading text [] reader.old }
    ensures { IfOk result (λ found. (text : List ℕ) → IsReading text [] reader.old → (records : List Fields) → AreRecordsOf text records
        → found_fields found (fields_of fields.new) ≡ slice_get records (number - 1)) }
{
    for _before in 1..number {
        let more = next_record(reader, fields)?;
        if !more {
            return Ok(false);
        }
    }
    next_record(reader, fields)
}

/// The line on which a record begins. The crate `csv` passes over empty lines before it.
fn line_of(text: &[u8], fields: &ByteRecord) -> u64 {
    let given = match fields.position() {
        Some(position) => position.byte() as usize,
        None => 0,
    };
    let from = if given == 0 && text.starts_with(MARK) {
        MARK.len()
    } else {
        given.min(text.len())
    };
    let empty = text[from..]
        .iter()
        .position(|byte| *byte != b'\n' && *byte != b'\r')
        .unwrap_or(0);
    let ends = text[..from + empty]
        .iter()
        .filter(|byte| **byte == b'\n')
        .count();
    ends as u64 + 1
}
