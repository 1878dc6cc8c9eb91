//! Why a schema has no header.
ghost use Rattle.std.specs.Prelude.{◌≡◌};
ghost use Rattle.headers.specs.declared.fault.HeaderFault.TheVariants as header_fault;

use std::alloc::{AllocError, AllocFailed};
use thiserror::Error;
use values::NoMemory;

/// Why a schema has no header.
#[derive(Clone, Copy, Debug, PartialEq, Eq, Error)]
pub enum HeaderFault {
    /// The name of this column isn't one of 1 to 64 bytes without a colon.
    #[error("BadName {0}")]
    BadName(usize),
    /// A growth was refused.
    #[error("NoMemory")]
    NoMemory,
}

impl From<AllocError> for HeaderFault {
    ghost from_gives = { λ _ fault. fault ≡ header_fault.NoMemory };

    fn from(_: AllocError) -> HeaderFault {
        HeaderFault::NoMemory
    }
}

impl<T: Drop> From<AllocFailed<T>> for HeaderFault {
    ghost from_gives = { λ _ fault. fault ≡ header_fault.NoMemory };

    fn from(_: AllocFailed<T>) -> HeaderFault {
        HeaderFault::NoMemory
    }
}

impl From<NoMemory> for HeaderFault {
    ghost from_gives = { λ _ fault. fault ≡ header_fault.NoMemory };

    fn from(_: NoMemory) -> HeaderFault {
        HeaderFault::NoMemory
    }
}
