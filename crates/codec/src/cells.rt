//! Cells, read from the front of bytes.
ghost use Rattle.std.specs.Prelude.{◌≡◌, ◌≤◌, length, IfOk};
ghost use Rattle.codec.specs.Reading.{Gives, cell_at, cells_at, found_now, int_at, text_at, truth_at};

use crate::fault::PayloadFault;
use crate::format::{FALSE, TRUE};
use std::alloc::Global;
use values::limits::MAX_TEXT_BYTES;
use values::{ColumnType, Text, Value};

/// A cell of each type, and the bytes after them. The bytes go on to the offset `end`.
pub(crate) fn cells_at<'a>(
    alloc: Global,
    types: &[ColumnType],
    end: usize,
    bytes: &'a [u8],
) -> Result<(Vec<Value>, &'a [u8]), PayloadFault>
    requires { length bytes.now ≤ end }
    ensures read { Gives (λ found. (found.0.items, found.1.now)) result (cells_at types.now end bytes.now) }
    ensures within { IfOk result (λ found. length found.1.now ≤ length bytes.now) }
{
    let mut values = Vec::with_capacity(alloc, types.len())?;
    let mut rest = bytes;
    for ty in types {
        let (value, after) = cell_at(alloc, *ty, end, rest)?;
        values.push(value)?;
        rest = after;
    }
    Ok((values, rest))
}

/// A cell of the type, and the bytes after it. The bytes go on to the offset `end`.
pub(crate) fn cell_at<'a>(
    alloc: Global,
    ty: ColumnType,
    end: usize,
    bytes: &'a [u8],
) -> Result<(Value, &'a [u8]), PayloadFault>
    requires { length bytes.now ≤ end }
    ensures read { Gives found_now result (cell_at ty end bytes.now) }
    ensures within { IfOk result (λ found. length found.1.now ≤ length bytes.now) }
{
    match ty {
        ColumnType::Int => int_at(end, bytes),
        ColumnType::Text => text_at(alloc, end, bytes),
        ColumnType::Bool => truth_at(end, bytes),
    }
}

/// A number, in eight bytes.
#[tactic(auto, unfolding(crate::specs::Reading::int_at))]
fn int_at(end: usize, bytes: &[u8]) -> Result<(Value, &[u8]), PayloadFault>
    requires { length bytes.now ≤ end }
    ensures read { Gives found_now result (int_at end bytes.now) }
    ensures within { IfOk result (λ found. length found.1.now ≤ length bytes.now) }
{
    match bytes.split_first_chunk::<8>() {
        Some((word, rest)) => Ok((Value::Int(i64::from_be_bytes(*word)), rest)),
        None => Err(PayloadFault::Short(end - bytes.len())),
    }
}

/// A text, after its length in two bytes.
#[tactic(auto, unfolding(crate::specs::Reading::text_at))]
fn text_at<'a>(
    alloc: Global,
    end: usize,
    bytes: &'a [u8],
) -> Result<(Value, &'a [u8]), PayloadFault>
    requires { length bytes.now ≤ end }
    ensures read { Gives found_now result (text_at end bytes.now) }
    ensures within { IfOk result (λ found. length found.1.now ≤ length bytes.now) }
{
    let at = end - bytes.len();
    let Some((length, rest)) = bytes.split_first_chunk::<2>() else {
        return Err(PayloadFault::Short(at));
    };
    let length = u16::from_be_bytes(*length) as usize;
    if length > MAX_TEXT_BYTES {
        return Err(PayloadFault::BadCell(at));
    }
    if rest.len() < length {
        return Err(PayloadFault::Short(at));
    }
    let (text, after) = rest.split_at(length);
    match str::from_utf8(text) {
        Ok(text) => Ok((
            Value::Text(Text::new(String::from_str(alloc, text)?)),
            after,
        )),
        Err(_) => Err(PayloadFault::BadCell(at)),
    }
}

/// A truth, in one byte.
#[tactic(auto, unfolding(crate::specs::Reading::truth_at))]
fn truth_at(end: usize, bytes: &[u8]) -> Result<(Value, &[u8]), PayloadFault>
    requires { length bytes.now ≤ end }
    ensures read { Gives found_now result (truth_at end bytes.now) }
    ensures within { IfOk result (λ found. length found.1.now ≤ length bytes.now) }
{
    let at = end - bytes.len();
    if bytes.is_empty() {
        return Err(PayloadFault::Short(at));
    }
    match bytes[0] {
        TRUE => Ok((Value::Bool(true), &bytes[1..])),
        FALSE => Ok((Value::Bool(false), &bytes[1..])),
        _ => Err(PayloadFault::BadCell(at)),
    }
}
