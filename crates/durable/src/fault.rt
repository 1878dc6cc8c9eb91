//! Why a commit isn't answered.
ghost use Rattle.std.specs.Prelude.{◌≡◌};
ghost use Rattle.durable.specs.Durable.{fault_of_spelling};
ghost use Rattle.durable.specs.declared.fault.CommitFault.TheVariants as commit_fault;

use codec::SpellFault;
use thiserror::Error;
use values::NoMemory;

/// Why a commit isn't answered. The manager is as it was, and the transaction comes back.
#[derive(Clone, Copy, Debug, PartialEq, Eq, Error)]
pub enum CommitFault {
    /// A growth was refused, or the manager has made 2^62 records. Nothing was logged.
    #[error("NoMemory")]
    NoMemory,
    /// What it changes has 2^32 bytes or more as a payload. Nothing was logged.
    #[error("TooLong")]
    TooLong,
    /// The device failed over it. Whether it is kept is known once the journal is read again.
    #[error("Unsure")]
    Unsure,
    /// The device had failed before. Nothing was logged.
    #[error("JournalFailed")]
    JournalFailed,
}

impl From<NoMemory> for CommitFault {
    ghost from_gives = { λ _ fault. fault ≡ commit_fault.NoMemory };

    fn from(_: NoMemory) -> CommitFault {
        CommitFault::NoMemory
    }
}

impl From<SpellFault> for CommitFault {
    ghost from_gives = { λ spelling fault. fault ≡ fault_of_spelling spelling };

    fn from(fault: SpellFault) -> CommitFault {
        match fault {
            SpellFault::TooLong => CommitFault::TooLong,
            SpellFault::NoMemory => CommitFault::NoMemory,
        }
    }
}
