//! Columns of the values that C gives, filled row by row: no row is made.
ghost use Rattle.std.specs.Prelude.{◌≡◌, ◌≢◌, ◌<◌, ◌^◌, ℕ, List, IfOk, IfErr, IfSome, IsTrue, IsFalse, MatchOption, Some, None, length, slice_get};
ghost use Rattle.values.specs.Lent.{value_of};
ghost use Rattle.values.specs.Shape.{has_type, is_too_long};
ghost use Rattle.pdt_c.specs.Filling.{count_of, value_at, text_between, text_of, truth_of, IsFilled, IsUnfilled};
ghost use Rattle.pdt_c.specs.declared.given.filling.FillFault.TheVariants as fill_fault;

use stable::Column;
use std::alloc::Global;
use std::marker::Model;
use std::str;
use values::limits::MAX_TEXT_BYTES;
use values::{ColumnType, NoMemory, ValueRef};

/// Why the values that C gives fill no column.
#[derive(Clone, Copy, Debug, PartialEq, Eq, Drop)]
pub(crate) enum FillFault {
    /// No value of the column's type is given for this row, or one is given for the row after the last.
    Row(usize),
    /// A growth was refused.
    NoMemory,
}

impl From<NoMemory> for FillFault {
    ghost from_gives = { λ _ fault. fault ≡ fill_fault.NoMemory };

    fn from(_: NoMemory) -> FillFault {
        FillFault::NoMemory
    }
}

/// What C gives of a column: numbers, or bytes, and for texts where each begins and the last one ends.
#[derive(Drop)]
pub(crate) struct GivenColumn<'a> {
    pub(crate) numbers: &'a [i64],
    pub(crate) offsets: &'a [u64],
    pub(crate) bytes: &'a [u8],
}

impl<'a> Model for GivenColumn<'a> {
    ghost use Rattle.pdt_c.specs.Filling.{Given};

    ghost Value = { Given };

    ghost view = { λ p. record { numbers = p.numbers.now; offsets = p.offsets.now; bytes = p.bytes.now } };
}

impl<'a> GivenColumn<'a> {
    /// The value of the type that is given for a row, if there is one.
    #[inline(always)]
    fn value(&self, ty: ColumnType, row: usize) -> Option<ValueRef<'a>>
        requires { row < 2 ^ 63 }
        ensures value { MatchOption result (value_at ty self.now row ≡ None) (λ v. value_at ty self.now row ≡ Some (value_of v)) }
        ensures typed { IfSome result (λ v. IsTrue (has_type ty (value_of v))) }
        ensures short { IfSome result (λ v. IsFalse (is_too_long (value_of v))) }
    {
        match ty {
            ColumnType::Int => match self.numbers.get(row) {
                Some(number) => Some(ValueRef::Int(*number)),
                None => None,
            },
            ColumnType::Bool => match self.bytes.get(row) {
                Some(byte) => truth_of(*byte),
                None => None,
            },
            ColumnType::Text => match (self.offsets.get(row), self.offsets.get(row + 1)) {
                (Some(begin), Some(end)) => text_between(self.bytes, *begin, *end),
                _ => None,
            },
        }
    }

    /// How many values of the type are given.
    fn count(&self, ty: ColumnType) -> usize
        ensures { result ≡ count_of ty self.now }
    {
        match ty {
            ColumnType::Int => self.numbers.len(),
            ColumnType::Bool => self.bytes.len(),
            ColumnType::Text => self.offsets.len().saturating_sub(1),
        }
    }

    /// The column of the values that are given for so many rows.
    pub(crate) fn fill(
        &self,
        alloc: Global,
        ty: ColumnType,
        rows: usize,
    ) -> Result<Column, FillFault>
        requires { rows < 2 ^ 63 }
        ensures ok { IfOk result (IsFilled ty self.now rows) }

        // The fault is the first row's that isn't as it should be.
        ensures err { (row : ℕ) → result ≡ Err (fill_fault.Row row) → IsUnfilled ty self.now rows row }
    {
        let mut column = Column::new(alloc, ty);
        for row in 0..rows {
            match self.value(ty, row) {
                Some(value) => column.push(value)?,
                None => return Err(FillFault::Row(row)),
            }
        }
        if self.count(ty) > rows {
            return Err(FillFault::Row(rows));
        }
        Ok(column)
    }
}

/// The truth of a byte, which is 0 or 1.
#[inline(always)]
fn truth_of<'a>(byte: u8) -> Option<ValueRef<'a>>
    ensures value { MatchOption result (truth_of (Some byte) ≡ None) (λ v. truth_of (Some byte) ≡ Some (value_of v)) }
    ensures typed { IfSome result (λ v. IsTrue (has_type ColumnType.Bool (value_of v))) }
    ensures short { IfSome result (λ v. IsFalse (is_too_long (value_of v))) }
{
    match byte {
        0 => Some(ValueRef::Bool(false)),
        1 => Some(ValueRef::Bool(true)),
        _ => None,
    }
}

/// The text between two places of the bytes, which stand in order and within them.
#[inline(always)]
fn text_between(bytes: &[u8], begin: u64, end: u64) -> Option<ValueRef<'_>>
    ensures value { MatchOption result (text_between bytes.now (Some begin) (Some end) ≡ None)
        (λ v. text_between bytes.now (Some begin) (Some end) ≡ Some (value_of v)) }
    ensures typed { IfSome result (λ v. IsTrue (has_type ColumnType.Text (value_of v))) }
    ensures short { IfSome result (λ v. IsFalse (is_too_long (value_of v))) }
{
    if end < begin || end > bytes.len() as u64 {
        return None;
    }
    text_of(&bytes[begin as usize..end as usize])
}

/// The text of bytes, which are UTF-8, and at most 4,096.
#[inline(always)]
fn text_of(bytes: &[u8]) -> Option<ValueRef<'_>>
    ensures value { MatchOption result (text_of bytes.now ≡ None) (λ v. text_of bytes.now ≡ Some (value_of v)) }
    ensures typed { IfSome result (λ v. IsTrue (has_type ColumnType.Text (value_of v))) }
    ensures short { IfSome result (λ v. IsFalse (is_too_long (value_of v))) }
{
    if bytes.len() > MAX_TEXT_BYTES {
        return None;
    }
    match str::from_utf8(bytes) {
        Ok(text) => Some(ValueRef::Text(text)),
        Err(_) => None,
    }
}
