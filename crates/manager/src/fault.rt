//! Why a table isn't opened, why a commit isn't made again, and why there is no checkpoint.
ghost use Rattle.std.specs.Prelude.{◌≡◌};
ghost use Rattle.manager.specs.declared.fault.CheckpointFault.TheVariants as checkpoint_fault;
ghost use Rattle.manager.specs.declared.fault.OpenFault.TheVariants as open_fault;
ghost use Rattle.manager.specs.declared.fault.RedoFault.TheVariants as redo_fault;

use std::alloc::{AllocError, AllocFailed};
use thiserror::Error;
use values::NoMemory;

/// Why a table isn't opened.
#[derive(Clone, Copy, Debug, PartialEq, Eq, Error)]
pub enum OpenFault {
    /// The row limit isn't 1 to 2,147,483,647, or the recent commits aren't 1 to 65,536.
    #[error("BadLimit")]
    BadLimit,
    /// The table has more rows than the row limit.
    #[error("TooManyRows")]
    TooManyRows,
    /// A growth was refused.
    #[error("NoMemory")]
    NoMemory,
}

impl<T: Drop> From<AllocFailed<T>> for OpenFault {
    ghost from_gives = { λ _ fault. fault ≡ open_fault.NoMemory };

    fn from(_: AllocFailed<T>) -> OpenFault {
        OpenFault::NoMemory
    }
}

impl From<AllocError> for OpenFault {
    ghost from_gives = { λ _ fault. fault ≡ open_fault.NoMemory };

    fn from(_: AllocError) -> OpenFault {
        OpenFault::NoMemory
    }
}

impl From<NoMemory> for OpenFault {
    ghost from_gives = { λ _ fault. fault ≡ open_fault.NoMemory };

    fn from(_: NoMemory) -> OpenFault {
        OpenFault::NoMemory
    }
}

/// Why a commit isn't made again.
#[derive(Clone, Copy, Debug, PartialEq, Eq, Error)]
pub enum RedoFault {
    /// The table after it has more rows than the row limit.
    #[error("TooManyRows")]
    TooManyRows,
    /// A growth was refused, or 2^62 records were made.
    #[error("NoMemory")]
    NoMemory,
}

impl From<NoMemory> for RedoFault {
    ghost from_gives = { λ _ fault. fault ≡ redo_fault.NoMemory };

    fn from(_: NoMemory) -> RedoFault {
        RedoFault::NoMemory
    }
}

/// Why there is no checkpoint. Devices count from 0.
#[derive(Clone, Copy, Debug, PartialEq, Eq, Error)]
pub enum CheckpointFault {
    /// An earlier append to the store has failed.
    #[error("StoreFailed")]
    StoreFailed,
    /// The next generation would be 2^32.
    #[error("GenerationsSpent")]
    GenerationsSpent,
    /// A growth was refused.
    #[error("NoMemory")]
    NoMemory,
    /// This device of the store failed.
    #[error("DeviceFailed {0}")]
    DeviceFailed(usize),
}

impl From<NoMemory> for CheckpointFault {
    ghost from_gives = { λ _ fault. fault ≡ checkpoint_fault.NoMemory };

    fn from(_: NoMemory) -> CheckpointFault {
        CheckpointFault::NoMemory
    }
}
