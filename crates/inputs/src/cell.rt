//! The value that a cell's bytes say.
ghost use Rattle.std.specs.Prelude.{◌≡◌, ◌≢◌, ◌==◌, ◌<◌, ◌^◌, pos, get_or, IfOk, IfErr, IfSome, IsTrue, IsFalse, Ok, Err, Some, None};
ghost use Rattle.std.specs.Str.Parse.{digits_value};
ghost use Rattle.values.specs.Lent.{value_of as lent_value_of};
ghost use Rattle.values.specs.Shape.{has_type, is_too_long};
ghost use Rattle.inputs.specs.Cells.{int_of, is_numeral, position_of, truth_of, value_of};
ghost use Rattle.inputs.specs.Input.{cell_of};

use crate::fault::TableFault;
use std::alloc::Global;
use values::limits::MAX_TEXT_BYTES;
use values::{ColumnType, NoMemory, Text, Value, ValueRef};

/// So many digits write a number of 64 bits with a sign, whichever they are.
const MAX_FITTING_DIGITS: usize = 18;

/// The cell `at` of the record of this number, as a value of its column's type, lent from the bytes.
#[inline(always)]
pub(crate) fn lent_cell(
    column: ColumnType,
    number: u64,
    at: usize,
    bytes: &[u8],
) -> Result<ValueRef<'_>, TableFault>
    ensures ok { IfOk result (λ value. cell_of column number at bytes.now ≡ Ok (lent_value_of value)) }
    ensures typed { IfOk result (λ value. IsTrue (has_type column (lent_value_of value))) }
    ensures short { IfOk result (λ value. IsFalse (is_too_long (lent_value_of value))) }
    ensures err { IfErr result (λ fault. cell_of column number at bytes.now ≡ Err fault) }
{
    match column {
        ColumnType::Int => match read_int(bytes) {
            Some(number) => Ok(ValueRef::Int(number)),
            None => Err(TableFault::BadCell(number, at)),
        },
        ColumnType::Bool => match read_truth(bytes) {
            Some(truth) => Ok(ValueRef::Bool(truth)),
            None => Err(TableFault::BadCell(number, at)),
        },
        ColumnType::Text => lent_text(number, at, bytes),
    }
}

/// The same of a text column.
#[inline(always)]
fn lent_text(number: u64, at: usize, bytes: &[u8]) -> Result<ValueRef<'_>, TableFault>
    ensures ok { IfOk result (λ value. cell_of ColumnType.Text number at bytes.now ≡ Ok (lent_value_of value)) }
    ensures typed { IfOk result (λ value. IsTrue (has_type ColumnType.Text (lent_value_of value))) }
    ensures short { IfOk result (λ value. IsFalse (is_too_long (lent_value_of value))) }
    ensures err { IfErr result (λ fault. cell_of ColumnType.Text number at bytes.now ≡ Err fault) }
{
    let text = match str::from_utf8(bytes) {
        Ok(text) => text,
        Err(_) => return Err(TableFault::BadText(number, at)),
    };
    if text.len() > MAX_TEXT_BYTES {
        return Err(TableFault::TextTooLong(number, at));
    }
    Ok(ValueRef::Text(text))
}

/// The value of this type that the bytes say, if they say one. A text may have any length.
pub(crate) fn read_value(
    alloc: Global,
    column: ColumnType,
    bytes: &[u8],
) -> Result<Option<Value>, NoMemory>
    ensures { IfOk result (λ value. value ≡ value_of column bytes.now) }
{
    match column {
        ColumnType::Int => match read_int(bytes) {
            Some(number) => Ok(Some(Value::Int(number))),
            None => Ok(None),
        },
        ColumnType::Bool => match read_truth(bytes) {
            Some(truth) => Ok(Some(Value::Bool(truth))),
            None => Ok(None),
        },
        ColumnType::Text => read_any_text(alloc, bytes),
    }
}

/// The same of a text column.
fn read_any_text(alloc: Global, bytes: &[u8]) -> Result<Option<Value>, NoMemory>
    ensures { IfOk result (λ value. value ≡ value_of ColumnType.Text bytes.now) }
{
    let text = match str::from_utf8(bytes) {
        Ok(text) => text,
        Err(_) => return Ok(None),
    };
    Ok(Some(Value::Text(Text::new(String::from_str(alloc, text)?))))
}

/// The number that the bytes write, of 64 bits with a sign.
#[inline(always)]
pub(crate) fn read_int(bytes: &[u8]) -> Option<i64>
    ensures { result ≡ int_of bytes.now }
{
    match short_int(bytes) {
        Some(number) => Some(number),
        None => parsed_int(bytes),
    }
}

/// The same of any number of digits, and after a plus.
fn parsed_int(bytes: &[u8]) -> Option<i64>
    ensures { result ≡ int_of bytes.now }
{
    let text = match str::from_utf8(bytes) {
        Ok(text) => text,
        Err(_) => return None,
    };
    text.parse::<i64>().ok()
}

/// The number that the bytes write where they are few digits, which may follow a minus.
#[inline(always)]
fn short_int(bytes: &[u8]) -> Option<i64>
    ensures { IfSome result (λ number. int_of bytes.now ≡ Some number) }
{
    if begins_with(bytes, b'-') {
        match few_digits(&bytes[1..]) {
            Some(number) => Some(-number),
            None => None,
        }
    } else {
        few_digits(bytes)
    }
}

/// The number that the bytes write where they are digits, one or more and so few that any of them fit.
#[inline(always)]
fn few_digits(bytes: &[u8]) -> Option<i64>
    ensures digits { IfSome result (λ number. IsTrue (is_numeral bytes.now)) }
    ensures value { IfSome result (λ number. number ≡ pos (digits_value 10 bytes.now)) }
    ensures small { IfSome result (λ number. digits_value 10 bytes.now < 2 ^ 63) }
{
    if bytes.is_empty() || bytes.len() > MAX_FITTING_DIGITS {
        return None;
    }
    let mut number = 0u64;
    for byte in bytes {
        if !byte.is_ascii_digit() {
            return None;
        }
        number = 10 * number + u64::from(*byte - b'0');
    }
    Some(number as i64)
}

/// The position that the bytes write: digits alone, of 64 bits.
pub(crate) fn read_position(bytes: &[u8]) -> Option<u64>
    ensures { result ≡ position_of bytes.now }
{
    if begins_with(bytes, b'+') {
        return None;
    }
    let text = match str::from_utf8(bytes) {
        Ok(text) => text,
        Err(_) => return None,
    };
    text.parse::<u64>().ok()
}

/// Whether this sign is first. A number may have a plus there, and a position may not.
#[inline(always)]
fn begins_with(bytes: &[u8], sign: u8) -> bool
    requires { 0 < sign }
    ensures { result ≡ (get_or bytes.now 0 0 == sign) }
{
    match bytes.first() {
        Some(first) => *first == sign,
        None => false,
    }
}

/// The truth that the bytes name.
pub(crate) fn read_truth(bytes: &[u8]) -> Option<bool>
    ensures { result ≡ truth_of bytes.now }
{
    if bytes == b"true".as_slice() {
        Some(true)
    } else if bytes == b"false".as_slice() {
        Some(false)
    } else {
        None
    }
}
