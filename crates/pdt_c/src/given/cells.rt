//! Cells that C gives: a number for each, and the bytes of the texts, one after the other.
ghost use Rattle.std.specs.Prelude.{◌≡◌, ◌++◌, ◌≤◌, pos, IfOk};
ghost use Rattle.values.specs.declared.value.Value.TheVariants as cell;
ghost use Rattle.pdt_c.specs.Cells.{AreGiven, IsGiven, type_of, number_of, bytes_of};

use std::alloc::{AllocError, AllocFailed, Global};
use std::str;
use values::{ColumnType, Text, Value};

/// Why there are no cells of what C gave.
#[derive(Clone, Copy, Debug, PartialEq, Eq, Drop)]
pub(crate) enum CellFault {
    /// Not as many numbers as columns, a truth that is neither 0 nor 1, a text that is no UTF-8, or fewer or more bytes
    /// than the numbers of the texts say.
    Shape,
    /// A growth was refused.
    NoMemory,
}

impl From<AllocError> for CellFault {
    fn from(_: AllocError) -> CellFault {
        CellFault::NoMemory
    }
}

impl<T: Drop> From<AllocFailed<T>> for CellFault {
    fn from(_: AllocFailed<T>) -> CellFault {
        CellFault::NoMemory
    }
}

/// The cell of a type that C gives by its number and its bytes, which are all of them.
pub(crate) fn given_cell(
    alloc: Global,
    ty: ColumnType,
    number: i64,
    text: &[u8],
) -> Result<Value, CellFault>
    ensures { IfOk result (λ cell. IsGiven ty number text.now cell) }
{
    let (cell, rest) = first_cell(alloc, ty, &number, text)?;
    if rest.is_empty() {
        Ok(cell)
    } else {
        Err(CellFault::Shape)
    }
}

/// The cells of these types that C gives.
pub(crate) fn given_cells(
    alloc: Global,
    types: &[ColumnType],
    numbers: &[i64],
    texts: &[u8],
) -> Result<Vec<Value>, CellFault>
    ensures { IfOk result (λ cells. AreGiven types.now numbers.now texts.now cells.items) }
{
    if numbers.len() != types.len() {
        return Err(CellFault::Shape);
    }
    let mut cells = Vec::with_capacity(alloc, types.len())?;
    let mut rest = texts;
    for col in 0..types.len() {
        let (cell, left) = first_cell(alloc, types[col], &numbers[col], rest)?;
        cells.push(cell)?;
        rest = left;
    }
    if rest.is_empty() {
        Ok(cells)
    } else {
        Err(CellFault::Shape)
    }
}

/// The first cell of these bytes, and the bytes after it.
fn first_cell<'a>(
    alloc: Global,
    ty: ColumnType,
    number: &i64,
    bytes: &'a [u8],
) -> Result<(Value, &'a [u8]), CellFault>
    ensures typed { IfOk result (λ r. type_of r.0 ≡ ty) }
    ensures number { IfOk result (λ r. number_of r.0 ≡ number.now) }
    ensures text { IfOk result (λ r. bytes_of r.0 ++ r.1.now ≡ bytes.now) }
{
    match ty {
        ColumnType::Int => Ok((Value::Int(*number), bytes)),
        ColumnType::Bool => Ok((Value::Bool(truth_of(*number)?), bytes)),
        ColumnType::Text => {
            let count = text_len(*number, bytes.len())?;
            let (text, rest) = bytes.split_at(count);
            Ok((Value::Text(text_of(alloc, text)?), rest))
        }
    }
}

/// The truth of a number.
fn truth_of(number: i64) -> Result<bool, CellFault>
    ensures { IfOk result (λ truth. number_of (cell.Bool truth) ≡ number) }
{
    match number {
        0 => Ok(false),
        1 => Ok(true),
        _ => Err(CellFault::Shape),
    }
}

/// How many bytes a text has by its number, where there are as many.
fn text_len(number: i64, most: usize) -> Result<usize, CellFault>
    ensures number { IfOk result (λ count. pos count ≡ number) }
    ensures within { IfOk result (λ count. count ≤ most) }
{
    match usize::try_from(number) {
        Ok(count) if count <= most => Ok(count),
        _ => Err(CellFault::Shape),
    }
}

/// The text of these bytes.
fn text_of(alloc: Global, bytes: &[u8]) -> Result<Text, CellFault>
    ensures { IfOk result (λ text. text ≡ bytes.now) }
{
    match str::from_utf8(bytes) {
        Ok(text) => Ok(Text::new(String::from_str(alloc, text)?)),
        Err(_) => Err(CellFault::Shape),
    }
}
