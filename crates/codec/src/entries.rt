//! Entries, read from the bytes of a part.
ghost use Rattle.std.specs.Prelude.{◌≡◌, ◌<◌, ◌≤◌, length, take, IfOk};
ghost use Rattle.codec.specs.Reading.{Gives, change_at, entries_to, entry_at, found_now, modify_at, settable};

use crate::cells::{cell_at, cells_at};
use crate::fault::PayloadFault;
use crate::format::{DELETE, INSERT, MODIFY};
use delta::{Change, Entry};
use std::alloc::Global;
use values::{ColumnType, Key, Row, Schema};

/// The entries that the bytes say, which go on to the offset `end`. Takes memory for what it has read, entry by entry.
pub(crate) fn entries_to(
    alloc: Global,
    schema: &Schema,
    end: usize,
    bytes: &[u8],
) -> Result<Vec<Entry>, PayloadFault>
    requires { length bytes.now ≤ end }
    ensures { Gives (λ entries. entries.items) result (entries_to schema.now end bytes.now) }
{
    let mut entries = Vec::new(alloc);
    let mut rest = bytes;
    while !rest.is_empty() {
        let (entry, after) = entry_at(alloc, schema, end, rest)?;
        entries.push(entry)?;
        rest = after;
    }
    Ok(entries)
}

/// The entry at the front of the bytes, and the bytes after it.
#[tactic(auto, unfolding(crate::specs::Reading::entry_at))]
fn entry_at<'a>(
    alloc: Global,
    schema: &Schema,
    end: usize,
    bytes: &'a [u8],
) -> Result<(Entry, &'a [u8]), PayloadFault>
    requires { length bytes.now ≤ end }
    ensures read { Gives found_now result (entry_at schema.now end bytes.now) }
    ensures shorter { IfOk result (λ found. length found.1.now < length bytes.now) }
{
    if bytes.len() < 5 {
        return Err(PayloadFault::Short(end - bytes.len()));
    }
    let sid = u32::from_be_bytes([bytes[0], bytes[1], bytes[2], bytes[3]]) as u64;
    let (change, rest) = change_at(alloc, schema, end, &bytes[4..])?;
    Ok((Entry { sid, change }, rest))
}

/// What an entry does, and the bytes after it: its kind is the first byte.
#[tactic(auto, unfolding(crate::specs::Reading::change_at))]
fn change_at<'a>(
    alloc: Global,
    schema: &Schema,
    end: usize,
    bytes: &'a [u8],
) -> Result<(Change, &'a [u8]), PayloadFault>
    requires some { 0 < length bytes.now }
    requires within { length bytes.now ≤ end }
    ensures read { Gives found_now result (change_at schema.now end bytes.now) }
    ensures shorter { IfOk result (λ found. length found.1.now < length bytes.now) }
{
    let rest = &bytes[1..];
    match bytes[0] {
        INSERT => {
            let (row, after) = cells_at(alloc, schema.types(), end, rest)?;
            Ok((Change::Ins(Row::new(row)), after))
        }
        DELETE => {
            let (key, after) = cells_at(alloc, key_types(schema), end, rest)?;
            Ok((Change::Del(Key::new(key)), after))
        }
        MODIFY => modify_at(alloc, schema, end, rest),
        _ => Err(PayloadFault::BadKind(end - bytes.len())),
    }
}

/// A modify: its column, and its cell.
#[tactic(auto, unfolding(crate::specs::Reading::modify_at))]
fn modify_at<'a>(
    alloc: Global,
    schema: &Schema,
    end: usize,
    bytes: &'a [u8],
) -> Result<(Change, &'a [u8]), PayloadFault>
    requires { length bytes.now ≤ end }
    ensures read { Gives found_now result (modify_at schema.now end bytes.now) }
    ensures within { IfOk result (λ found. length found.1.now ≤ length bytes.now) }
{
    let at = end - bytes.len();
    if bytes.is_empty() {
        return Err(PayloadFault::Short(at));
    }
    let col = bytes[0] as usize;
    let Some(ty) = settable(schema, col) else {
        return Err(PayloadFault::BadColumn(at));
    };
    let (value, after) = cell_at(alloc, ty, end, &bytes[1..])?;
    Ok((Change::Mod(col, value), after))
}

/// The types of the key's columns, lent.
fn key_types(schema: &Schema) -> &[ColumnType]
    ensures { result.now ≡ take schema.now.key_cols schema.now.types }
{
    let key_cols = schema.key_cols();
    &schema.types()[..key_cols]
}

/// The type of a column outside the key.
#[tactic(auto, unfolding(crate::specs::Reading::settable))]
fn settable(schema: &Schema, col: usize) -> Option<ColumnType>
    ensures { result ≡ settable schema.now col }
{
    if col < schema.key_cols() {
        return None;
    }
    schema.types().get(col).copied()
}
