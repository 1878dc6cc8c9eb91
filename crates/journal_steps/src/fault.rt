//! Why a commit isn't added.
ghost use Rattle.std.specs.Prelude.{◌≡◌};
ghost use Rattle.journal_steps.specs.declared.fault.AddFault.TheVariants as add_fault;

use std::alloc::{AllocError, AllocFailed};

/// Why a commit isn't added to a journal.
#[derive(Clone, Copy, Debug, PartialEq, Eq)]
pub enum AddFault {
    /// A growth was refused.
    NoMemory,
    /// The payload has 2^32 bytes or more.
    TooLong,
    /// The commit's number would be 2^63 or more.
    Full,
}

impl From<AllocError> for AddFault {
    ghost from_gives = { λ _ fault. fault ≡ add_fault.NoMemory };

    fn from(_: AllocError) -> AddFault {
        AddFault::NoMemory
    }
}

impl<T: Drop> From<AllocFailed<T>> for AddFault {
    ghost from_gives = { λ _ fault. fault ≡ add_fault.NoMemory };

    fn from(_: AllocFailed<T>) -> AddFault {
        AddFault::NoMemory
    }
}
