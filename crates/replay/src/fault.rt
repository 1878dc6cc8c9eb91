//! Why a logged commit isn't made again, and why a table isn't recovered.
ghost use Rattle.std.specs.Prelude.{◌≡◌};
ghost use Rattle.replay.specs.declared.fault.CommitFault.TheVariants as commit_fault;
ghost use Rattle.replay.specs.declared.fault.RecoverFault.TheVariants as recover_fault;

use codec::PayloadFault;
use thiserror::Error;
use values::NoMemory;

/// Why a logged commit isn't made again.
#[derive(Clone, Copy, Debug, PartialEq, Eq, Error)]
pub enum CommitFault {
    /// Its entries are those of no commit over this table.
    #[error("Misfit")]
    Misfit,
    /// The table after it has more rows than the row limit.
    #[error("TooManyRows")]
    TooManyRows,
    /// A growth was refused, or 2^62 commits were made.
    #[error("NoMemory")]
    NoMemory,
}

impl From<NoMemory> for CommitFault {
    ghost from_gives = { λ _ fault. fault ≡ commit_fault.NoMemory };

    fn from(_: NoMemory) -> CommitFault {
        CommitFault::NoMemory
    }
}

/// Why a table isn't recovered from its image and its journal. Commits are named by their numbers.
#[derive(Clone, Copy, Debug, PartialEq, Eq, Error)]
pub enum RecoverFault {
    /// The frame of this commit is damaged, though a later one says that it was safe.
    #[error("Rot {0}")]
    Rot(u64),
    /// This commit is the first that is missing: it comes after the last frame that was read, where another one stands in its place
    /// or the journal ends before the image, or after the image, where the journal begins later.
    #[error("Gap {0}")]
    Gap(u64),
    /// The payload of this commit's frame has this fault.
    #[error("BadPayload {0} {1}")]
    BadPayload(u64, PayloadFault),
    /// What is logged of this commit makes none over the table: the journal is that of another one.
    #[error("Misfit {0}")]
    Misfit(u64),
    /// The row limit isn't 1 to 2,147,483,647, or the recent commits aren't 1 to 65,536.
    #[error("BadLimit")]
    BadLimit,
    /// The image, or the table after one of the commits, has more rows than the row limit.
    #[error("TooManyRows")]
    TooManyRows,
    /// The newest commit has a number above 2^62.
    #[error("NumbersSpent")]
    NumbersSpent,
    /// A growth was refused.
    #[error("NoMemory")]
    NoMemory,
}

impl From<NoMemory> for RecoverFault {
    ghost from_gives = { λ _ fault. fault ≡ recover_fault.NoMemory };

    fn from(_: NoMemory) -> RecoverFault {
        RecoverFault::NoMemory
    }
}
