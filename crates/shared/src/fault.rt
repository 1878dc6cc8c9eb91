//! Why a call of a session, or of what sessions share, is refused. Nothing has changed then.
ghost use Rattle.std.specs.Prelude.{◌≡◌};
ghost use Rattle.shared.specs.declared.fault.BeginFault.TheVariants as begin_fault;
ghost use Rattle.shared.specs.declared.fault.SessionFault.TheVariants as session_fault;
ghost use Rattle.shared.specs.declared.fault.ShareFault.TheVariants as share_fault;

use publishing::ReadingFault;
use std::alloc::AllocError;
use thiserror::Error;
use txn::WriteFault;
use values::{NoMemory, ShapeFault};

/// Why sessions aren't opened. The manager and the store are dropped.
#[derive(Clone, Copy, Debug, PartialEq, Eq, Error)]
pub enum ShareFault {
    /// There aren't 1 to 64 clients.
    #[error("BadLimit")]
    BadLimit,
    /// A reader's slot was refused.
    #[error("NoReader")]
    NoReader,
    /// A growth was refused.
    #[error("NoMemory")]
    NoMemory,
}

impl From<NoMemory> for ShareFault {
    ghost from_gives = { λ _ fault. fault ≡ share_fault.NoMemory };

    fn from(_: NoMemory) -> ShareFault {
        ShareFault::NoMemory
    }
}

impl From<AllocError> for ShareFault {
    ghost from_gives = { λ _ fault. fault ≡ share_fault.NoMemory };

    fn from(_: AllocError) -> ShareFault {
        ShareFault::NoMemory
    }
}

/// Why a transaction doesn't begin.
#[derive(Clone, Copy, Debug, PartialEq, Eq, Error)]
pub enum BeginFault {
    /// The session has a transaction open.
    #[error("AlreadyOpen")]
    AlreadyOpen,
    /// What the sessions share is closed, or no reader is admitted.
    #[error("Ended")]
    Ended,
    /// A growth was refused.
    #[error("NoMemory")]
    NoMemory,
}

impl From<ReadingFault> for BeginFault {
    ghost use Rattle.shared.specs.Faults.{fault_of_reading};

    ghost from_gives = { λ fault begin. begin ≡ fault_of_reading fault };

    fn from(fault: ReadingFault) -> BeginFault {
        match fault {
            ReadingFault::Ended => BeginFault::Ended,
            ReadingFault::NoMemory => BeginFault::NoMemory,
        }
    }
}

impl From<NoMemory> for BeginFault {
    ghost from_gives = { λ _ fault. fault ≡ begin_fault.NoMemory };

    fn from(_: NoMemory) -> BeginFault {
        BeginFault::NoMemory
    }
}

/// The session has no transaction open.
#[derive(Clone, Copy, Debug, PartialEq, Eq, Error)]
#[error("NotOpen")]
pub struct NotOpen;

/// Why a write of a session is not answered. It isn't recorded.
#[derive(Clone, Copy, Debug, PartialEq, Eq, Error)]
pub enum SessionFault {
    /// The session has no transaction open.
    #[error("NotOpen")]
    NotOpen,
    /// The row, the key or the cell doesn't fit the schema.
    #[error("{0}")]
    Shape(ShapeFault),
    /// A growth was refused.
    #[error("NoMemory")]
    NoMemory,
}

impl From<WriteFault> for SessionFault {
    ghost use Rattle.shared.specs.Faults.{fault_of_write};

    ghost from_gives = { λ fault refused. refused ≡ fault_of_write fault };

    fn from(fault: WriteFault) -> SessionFault {
        match fault {
            WriteFault::Shape(fault) => SessionFault::Shape(fault),
            WriteFault::NoMemory => SessionFault::NoMemory,
        }
    }
}

impl From<NoMemory> for SessionFault {
    ghost from_gives = { λ _ fault. fault ≡ session_fault.NoMemory };

    fn from(_: NoMemory) -> SessionFault {
        SessionFault::NoMemory
    }
}

/// Why a session's commit isn't decided. Its transaction stays open.
#[derive(Clone, Copy, Debug, PartialEq, Eq, Error)]
pub enum CommitFault {
    /// The session has no transaction open.
    #[error("NotOpen")]
    NotOpen,
    /// A growth was refused.
    #[error("NoMemory")]
    NoMemory,
    /// The session has seen more commits than are held.
    #[error("Stranger")]
    Stranger,
}
