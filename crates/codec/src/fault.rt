//! Why bytes are no payload, and why entries are not written.
ghost use Rattle.std.specs.Prelude.{◌≡◌};
ghost use Rattle.codec.specs.declared.fault.PayloadFault.TheVariants as payload_fault;
ghost use Rattle.codec.specs.declared.fault.SpellFault.TheVariants as spell_fault;

use std::alloc::{AllocError, AllocFailed};
use thiserror::Error;
use values::NoMemory;

/// The first fault of a payload, read from the left. Each offset counts the payload's bytes from 0.
#[derive(Clone, Copy, Debug, PartialEq, Eq, Error)]
pub enum PayloadFault {
    /// The bytes end inside the part, the entry, the column or the cell that begins at this offset. The bytes of an entry end
    /// with its part.
    #[error("Short {0}")]
    Short(usize),
    /// The part that begins at this offset is of a table that isn't above the one before.
    #[error("BadTable {0}")]
    BadTable(usize),
    /// The byte at this offset names no kind of entry.
    #[error("BadKind {0}")]
    BadKind(usize),
    /// The byte at this offset names no column of the schema outside its key.
    #[error("BadColumn {0}")]
    BadColumn(usize),
    /// The cell that begins at this offset is a text of more than 4,096 bytes or none of UTF-8, or a truth whose byte is
    /// neither 80 nor 00 (hexadecimal).
    #[error("BadCell {0}")]
    BadCell(usize),
    /// A growth was refused.
    #[error("NoMemory")]
    NoMemory,
}

impl From<NoMemory> for PayloadFault {
    ghost from_gives = { λ _ fault. fault ≡ payload_fault.NoMemory };

    fn from(_: NoMemory) -> PayloadFault {
        PayloadFault::NoMemory
    }
}

impl From<AllocError> for PayloadFault {
    ghost from_gives = { λ _ fault. fault ≡ payload_fault.NoMemory };

    fn from(_: AllocError) -> PayloadFault {
        PayloadFault::NoMemory
    }
}

impl<T: Drop> From<AllocFailed<T>> for PayloadFault {
    ghost from_gives = { λ _ fault. fault ≡ payload_fault.NoMemory };

    fn from(_: AllocFailed<T>) -> PayloadFault {
        PayloadFault::NoMemory
    }
}

/// Why a part is not written.
#[derive(Clone, Copy, Debug, PartialEq, Eq, Error)]
pub enum SpellFault {
    /// The entries of the part have 2^32 bytes or more.
    #[error("TooLong")]
    TooLong,
    /// A growth was refused.
    #[error("NoMemory")]
    NoMemory,
}

impl From<AllocError> for SpellFault {
    ghost from_gives = { λ _ fault. fault ≡ spell_fault.NoMemory };

    fn from(_: AllocError) -> SpellFault {
        SpellFault::NoMemory
    }
}

impl<T: Drop> From<AllocFailed<T>> for SpellFault {
    ghost from_gives = { λ _ fault. fault ≡ spell_fault.NoMemory };

    fn from(_: AllocFailed<T>) -> SpellFault {
        SpellFault::NoMemory
    }
}
