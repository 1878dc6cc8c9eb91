//! Why a store takes no image.
ghost use Rattle.std.specs.Prelude.{◌≡◌};
ghost use Rattle.devices.specs.declared.fault.StoreFault.TheVariants as store_fault;

use thiserror::Error;
use values::NoMemory;

/// Why a store isn't made, or takes no image. Devices count from 0.
#[derive(Clone, Copy, Debug, PartialEq, Eq, Error)]
pub enum StoreFault {
    /// There aren't as many devices as columns.
    #[error("WrongCount")]
    WrongCount,
    /// An earlier append has failed.
    #[error("StoreFailed")]
    StoreFailed,
    /// The next generation would be 2^32.
    #[error("GenerationsSpent")]
    GenerationsSpent,
    /// A growth was refused.
    #[error("NoMemory")]
    NoMemory,
    /// This device failed.
    #[error("DeviceFailed {0}")]
    DeviceFailed(usize),
}

impl From<NoMemory> for StoreFault {
    ghost from_gives = { λ _ fault. fault ≡ store_fault.NoMemory };

    fn from(_: NoMemory) -> StoreFault {
        StoreFault::NoMemory
    }
}
