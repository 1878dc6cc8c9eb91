//! The bytes that name something in a payload.

/// The entry is an insert, and a row follows.
pub(crate) const INSERT: u8 = 1;

/// The entry is a delete, and a key follows.
pub(crate) const DELETE: u8 = 2;

/// The entry is a modify, and a column and a cell follow.
pub(crate) const MODIFY: u8 = 3;

/// The cell that is false.
pub(crate) const FALSE: u8 = 0;

/// The cell that is true: the first bit of its byte, as in a block of one truth.
pub(crate) const TRUE: u8 = 0x80;
