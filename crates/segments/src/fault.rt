//! Why files aren't those of a database, which of them isn't there, and why no table is meant.
ghost use Rattle.std.specs.Prelude.{◌≡◌};
ghost use Rattle.segments.specs.declared.fault.JoinFault.TheVariants as join_fault;

use std::alloc::{AllocError, AllocFailed};
use values::NoMemory;

/// Why files are no journal of a database.
#[derive(Clone, Copy, Debug, PartialEq, Eq)]
pub enum JoinFault {
    /// The header of one is another database's.
    OtherStore,
    /// The manifest's salt makes no seed, or the commit that was safe, and stands for a first header, isn't below 2^63.
    BadManifest,
    /// A growth was refused.
    NoMemory,
}

/// A file of a journal that isn't there.
#[derive(Clone, Copy, Debug, PartialEq, Eq)]
pub struct MissingFile {
    /// Its number.
    pub number: u64,
}

/// Why a file is none of a journal.
#[derive(Clone, Copy, Debug, PartialEq, Eq)]
pub enum SegmentFault {
    /// Another file is the next after those before it.
    NotInTurn,
    /// Its header is another database's.
    OtherStore,
    /// Its header is of a later version of the format, and its check is right.
    LaterVersion,
}

/// Why a journal in files doesn't go on.
#[derive(Clone, Copy, Debug, PartialEq, Eq)]
pub enum EndFault {
    /// The commit after the newest one is damaged.
    Damaged(u64),
    /// It was durable, and no bytes are left of it.
    Missing(u64),
}

/// Why no table is meant.
#[derive(Clone, Copy, Debug, PartialEq, Eq)]
pub enum NameFault {
    /// No table has the name.
    NoTable,
    /// None is named, and there isn't one alone.
    NotNamed,
}

impl From<AllocError> for JoinFault {
    ghost from_gives = { λ _ fault. fault ≡ join_fault.NoMemory };

    fn from(_: AllocError) -> JoinFault {
        JoinFault::NoMemory
    }
}

impl<T: Drop> From<AllocFailed<T>> for JoinFault {
    ghost from_gives = { λ _ fault. fault ≡ join_fault.NoMemory };

    fn from(_: AllocFailed<T>) -> JoinFault {
        JoinFault::NoMemory
    }
}

impl From<NoMemory> for JoinFault {
    ghost from_gives = { λ _ fault. fault ≡ join_fault.NoMemory };

    fn from(_: NoMemory) -> JoinFault {
        JoinFault::NoMemory
    }
}
