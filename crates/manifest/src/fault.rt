//! Why a manifest isn't read, or isn't written.
ghost use Rattle.std.specs.Prelude.{◌≡◌};
ghost use Rattle.manifest.specs.declared.fault.ManifestFault.TheVariants as manifest_fault;
ghost use Rattle.manifest.specs.declared.fault.WriteFault.TheVariants as write_fault;

use std::alloc::{AllocError, AllocFailed};
use thiserror::Error;

/// Why a manifest isn't read.
#[derive(Clone, Copy, Debug, PartialEq, Eq, Error)]
pub enum ManifestFault {
    /// The bytes are the spelling of no manifest.
    #[error("Damaged")]
    Damaged,
    /// A growth was refused.
    #[error("NoMemory")]
    NoMemory,
}

impl From<AllocError> for ManifestFault {
    ghost from_gives = { λ _ fault. fault ≡ manifest_fault.NoMemory };

    fn from(_: AllocError) -> ManifestFault {
        ManifestFault::NoMemory
    }
}

impl<T: Drop> From<AllocFailed<T>> for ManifestFault {
    ghost from_gives = { λ _ fault. fault ≡ manifest_fault.NoMemory };

    fn from(_: AllocFailed<T>) -> ManifestFault {
        ManifestFault::NoMemory
    }
}

/// Why a manifest isn't written.
#[derive(Clone, Copy, Debug, PartialEq, Eq, Error)]
pub enum WriteFault {
    /// The manifest has no spelling.
    #[error("Unlawful")]
    Unlawful,
    /// A growth was refused.
    #[error("NoMemory")]
    NoMemory,
}

impl From<AllocError> for WriteFault {
    ghost from_gives = { λ _ fault. fault ≡ write_fault.NoMemory };

    fn from(_: AllocError) -> WriteFault {
        WriteFault::NoMemory
    }
}
