//! What is refused: a growth, a schema, a row, a key or a cell. Each shows as its name and its numbers.
ghost use Rattle.std.specs.Prelude.{◌≡◌};
ghost use Rattle.values.specs.declared.fault.SchemaFault.TheVariants as schema_fault;

use std::alloc::{AllocError, AllocFailed};
use thiserror::Error;

/// A growth was refused, and nothing has changed.
#[derive(Clone, Copy, Debug, PartialEq, Eq, Error)]
#[error("NoMemory")]
pub struct NoMemory;

impl From<AllocError> for NoMemory {
    fn from(_: AllocError) -> NoMemory {
        NoMemory
    }
}

impl<T: Drop> From<AllocFailed<T>> for NoMemory {
    fn from(_: AllocFailed<T>) -> NoMemory {
        NoMemory
    }
}

/// Why columns make no schema. The first that holds is answered, in the order of the variants. Columns count from 0.
#[derive(Clone, Copy, Debug, PartialEq, Eq, Error)]
pub enum SchemaFault {
    /// There is no column.
    #[error("NoColumns")]
    NoColumns,
    /// There are more than 32 columns.
    #[error("TooManyColumns")]
    TooManyColumns,
    /// The key has no column, more than 4, or more than there are.
    #[error("BadKeyCount")]
    BadKeyCount,
    /// The name of this column is that of an earlier one, and no column before it is so.
    #[error("RepeatedName {0}")]
    RepeatedName(usize),
    /// A growth was refused.
    #[error("NoMemory")]
    NoMemory,
}

impl From<NoMemory> for SchemaFault {
    ghost from_gives = { λ _ fault. fault ≡ schema_fault.NoMemory };

    fn from(_: NoMemory) -> SchemaFault {
        SchemaFault::NoMemory
    }
}

/// The first fault of a row, a key or a cell. Columns count from 0.
#[derive(Clone, Copy, Debug, PartialEq, Eq, Error)]
pub enum ShapeFault {
    /// There are not as many values as columns, or in a key as key columns.
    #[error("WrongCount")]
    WrongCount,
    /// The value of this column is not of the column's type.
    #[error("WrongType {0}")]
    WrongType(usize),
    /// The text of this column has more than 4,096 bytes.
    #[error("TextTooLong {0}")]
    TextTooLong(usize),
    /// The schema has no such column.
    #[error("NoSuchColumn")]
    NoSuchColumn,
    /// The cell is one of the key, which is never set.
    #[error("KeyColumn")]
    KeyColumn,
}
