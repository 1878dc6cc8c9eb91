//! Cells that C is handed: a number for each, and the bytes of the texts, one after the other.
ghost use Rattle.std.specs.Prelude.{◌≡◌, ◌≤◌, ◌<◌, ◌+◌, ◌++◌, ◌⊎◌, ℕ, [], ◌∷◌, length, map, take};
ghost use Rattle.merge.specs.View.{row_of};
ghost use Rattle.values.specs.Lent.{value_of};
ghost use Rattle.pdt_c.specs.Cells.{number_of, bytes_of, numbers_of, texts_of};
ghost use Rattle.pdt_c.specs.declared.codes.TheConstants.{DONE, TOO_SMALL};

use crate::codes::{DONE, TOO_SMALL};
use merge::RowView;
use values::{Value, ValueRef};

/// Puts a row's cells where C has room for them, and `needed` says how many bytes its texts have. Answers `TOO_SMALL` where
/// there is less room, and then some of them stand there.
pub(crate) fn put_row(
    view: RowView<'_>,
    numbers: &mut [i64],
    texts: &mut [u8],
    needed: &mut usize,
) -> u32
    ensures code { (result ≡ DONE) ⊎ (result ≡ TOO_SMALL) }
    ensures numbers { result ≡ DONE → take (length (row_of view.entry)) numbers.new ≡ numbers_of (row_of view.entry) }
    ensures texts { result ≡ DONE → take needed.new texts.new ≡ texts_of (row_of view.entry) }
    ensures needed { result ≡ DONE → needed.new ≤ length texts.old }
    ensures small { result ≡ TOO_SMALL → length (row_of view.entry) ≤ length numbers.old → length texts.old < needed.new }
{
    let mut bytes = 0usize;
    let width = view.width();
    if width > numbers.len() {
        return TOO_SMALL;
    }
    for col in 0..width {
        let value = view.value(col);
        let number = number_of(value);
        let end = put_bytes(value, texts, bytes);
        numbers[col] = number;
        bytes = end;
    }
    *needed = bytes;
    if bytes <= texts.len() {
        DONE
    } else {
        TOO_SMALL
    }
}

/// The same of cells that are given as values.
pub(crate) fn put_cells(
    cells: &[Value],
    numbers: &mut [i64],
    texts: &mut [u8],
    needed: &mut usize,
) -> u32
    ensures code { (result ≡ DONE) ⊎ (result ≡ TOO_SMALL) }
    ensures numbers { result ≡ DONE → take (length cells.now) numbers.new ≡ numbers_of cells.now }
    ensures texts { result ≡ DONE → take needed.new texts.new ≡ texts_of cells.now }
    ensures small { result ≡ TOO_SMALL → length cells.now ≤ length numbers.old → length texts.old < needed.new }
{
    let mut bytes = 0usize;
    let width = cells.len();
    if width > numbers.len() {
        return TOO_SMALL;
    }
    for col in 0..width {
        let value = cells[col].as_ref();
        let number = number_of(value);
        let end = put_bytes(value, texts, bytes);
        numbers[col] = number;
        bytes = end;
    }
    *needed = bytes;
    if bytes <= texts.len() {
        DONE
    } else {
        TOO_SMALL
    }
}

/// The same of one cell.
pub(crate) fn put_cell(
    value: ValueRef<'_>,
    numbers: &mut [i64],
    texts: &mut [u8],
    needed: &mut usize,
) -> u32
    ensures code { (result ≡ DONE) ⊎ (result ≡ TOO_SMALL) }
    ensures numbers { result ≡ DONE → take 1 numbers.new ≡ numbers_of (value_of value.entry ∷ []) }
    ensures texts { result ≡ DONE → take needed.new texts.new ≡ texts_of (value_of value.entry ∷ []) }
    ensures small { result ≡ TOO_SMALL → 1 ≤ length numbers.old → length texts.old < needed.new }
{
    if numbers.is_empty() {
        return TOO_SMALL;
    }
    numbers[0] = number_of(value);
    *needed = put_bytes(value, texts, 0);
    if *needed <= texts.len() {
        DONE
    } else {
        TOO_SMALL
    }
}

/// A cell's number.
pub(crate) fn number_of(value: ValueRef<'_>) -> i64
    ensures { result ≡ number_of (value_of value.entry) }
{
    match value {
        ValueRef::Int(number) => number,
        ValueRef::Bool(truth) => i64::from(truth),
        ValueRef::Text(text) => text.len() as i64,
    }
}

/// Puts a cell's bytes after the first `at` where there is room for them, and answers where they end, or would end.
pub(crate) fn put_bytes(value: ValueRef<'_>, texts: &mut [u8], at: usize) -> usize
    ensures length { length texts.new ≡ length texts.old }
    ensures after { at ≤ result }
    ensures put { result ≤ length texts.old → take result texts.new ≡ take at texts.old ++ bytes_of (value_of value.entry) }
    ensures full { length texts.old < result → texts.new ≡ texts.old }
{
    match value {
        ValueRef::Int(_) | ValueRef::Bool(_) => at,
        ValueRef::Text(text) => put_text(texts, at, text.as_bytes()),
    }
}

/// Puts a text after the first `at` bytes where there is room for it, and answers where it ends, or would end.
fn put_text(texts: &mut [u8], at: usize, text: &[u8]) -> usize
    ensures length { length texts.new ≡ length texts.old }
    ensures after { at ≤ result }
    ensures put { result ≤ length texts.old → take result texts.new ≡ take at texts.old ++ text.now }
    ensures full { length texts.old < result → texts.new ≡ texts.old }
{
    let end = at.saturating_add(text.len());
    if end <= texts.len() {
        texts[at..end].copy_from_slice(text);
    }
    end
}
