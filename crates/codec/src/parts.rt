//! The parts of a payload, and the entries of one table's.
ghost use Rattle.std.specs.Prelude.{◌≡◌, ◌<◌, ◌≤◌, length, IfOk, MatchOption};
ghost use Rattle.codec.specs.Reading.{Gives, entries_in, found_span, maybe_span, span_at, span_in, word_at};
ghost use Rattle.codec.specs.Tables.{tables_in};

use crate::entries::entries_to;
use crate::fault::PayloadFault;
use delta::Entry;
use std::alloc::Global;
use values::Schema;

/// A table's number and the bytes of its entries, which are lent from the payload and end at the offset `end` of it.
#[derive(Clone, Copy)]
pub struct PartBytes<'a> {
    pub table: u32,
    pub end: usize,
    pub bytes: &'a [u8],
}

/// The entries of the table, of this schema, that the payload says: none where it has no part of the table. The frame of each
/// part is looked at, so that parts that are cut short or out of order are a fault whichever table is asked for. It takes
/// memory for the entries that it has read, whatever the bytes claim.
///
/// # Errors
///
/// The first fault of the parts' frames, from the left: `Short` where a part is cut short, `BadTable` where its table isn't
/// above the one before. Then the first fault of the table's entries: `Short`, `BadKind`, `BadColumn` or `BadCell`. Or
/// `NoMemory` where a growth is refused.
pub fn read_part(
    alloc: Global,
    schema: &Schema,
    table: u32,
    payload: &[u8],
) -> Result<Vec<Entry>, PayloadFault>
    ensures { Gives (λ entries. entries.items) result (entries_in schema.now table payload.now) }
{
    match part_in(table, payload)? {
        Some(part) => entries_to(alloc, schema, part.end, part.bytes),
        None => Ok(Vec::new(alloc)),
    }
}

/// The tables of which the payload has parts, in ascending order. It reads the frame of each part, and none of its entries.
///
/// # Errors
///
/// The first fault of the parts' frames, from the left: `Short` where a part is cut short, `BadTable` where its table isn't
/// above the one before. Or `NoMemory` where a growth is refused.
pub fn tables_in(alloc: Global, payload: &[u8]) -> Result<Vec<u32>, PayloadFault>
    ensures { Gives (λ tables. tables.items) result (tables_in payload.now) }
{
    let mut tables = Vec::new(alloc);
    let mut low = 0;
    let mut rest = payload;
    while !rest.is_empty() {
        let (part, after) = part_at(payload.len(), low, rest)?;
        low = part.table as u64 + 1;
        tables.push(part.table)?;
        rest = after;
    }
    Ok(tables)
}

/// The bytes of the table's part, where the payload has one.
fn part_in(table: u32, payload: &[u8]) -> Result<Option<PartBytes<'_>>, PayloadFault>
    ensures read { Gives maybe_span result (span_in table payload.now) }
    ensures within { IfOk result (λ found. MatchOption found (Unit {0}) (λ part. length part.bytes.now ≤ part.end)) }
{
    let mut found = None;
    let mut low = 0;
    let mut rest = payload;
    while !rest.is_empty() {
        let (part, after) = part_at(payload.len(), low, rest)?;
        low = part.table as u64 + 1;
        if part.table == table {
            found = Some(part);
        }
        rest = after;
    }
    Ok(found)
}

/// The part at the front of the bytes, of a table not below `low`, and the bytes after it.
#[tactic(auto, unfolding(crate::specs::Reading::span_at))]
fn part_at(end: usize, low: u64, bytes: &[u8]) -> Result<(PartBytes<'_>, &[u8]), PayloadFault>
    requires { length bytes.now ≤ end }
    ensures read { Gives found_span result (span_at end low bytes.now) }
    ensures shorter { IfOk result (λ found. length found.1.now < length bytes.now) }
    ensures within { IfOk result (λ found. length found.0.bytes.now ≤ found.0.end) }
{
    let at = end - bytes.len();
    if bytes.len() < 8 {
        return Err(PayloadFault::Short(at));
    }
    let table = u32::from_be_bytes([bytes[0], bytes[1], bytes[2], bytes[3]]);
    let size = u32::from_be_bytes([bytes[4], bytes[5], bytes[6], bytes[7]]) as usize;
    if (table as u64) < low {
        return Err(PayloadFault::BadTable(at));
    }
    let body = &bytes[8..];
    if body.len() < size {
        return Err(PayloadFault::Short(at));
    }
    let (bytes, rest) = body.split_at(size);
    let part = PartBytes {
        table,
        end: end - rest.len(),
        bytes,
    };
    Ok((part, rest))
}
