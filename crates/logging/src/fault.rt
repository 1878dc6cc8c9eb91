//! Why a commit isn't logged.
ghost use Rattle.std.specs.Prelude.{◌≡◌};
ghost use Rattle.logging.specs.declared.fault.LogFault.TheVariants as log_fault;

use crate::device::DeviceFault;
use thiserror::Error;
use values::NoMemory;

/// Why a commit isn't known to be logged.
#[derive(Clone, Copy, Debug, PartialEq, Eq, Error)]
pub enum LogFault {
    /// A growth was refused: nothing was appended, and the next commit may be logged.
    #[error("NoMemory")]
    NoMemory,
    /// The device failed: some beginning of what was logged may be there, which may be all of it. Nothing is logged after it.
    #[error("DeviceFailed")]
    DeviceFailed,
}

impl From<NoMemory> for LogFault {
    ghost from_gives = { λ _ fault. fault ≡ log_fault.NoMemory };

    fn from(_: NoMemory) -> LogFault {
        LogFault::NoMemory
    }
}

impl From<DeviceFault> for LogFault {
    ghost from_gives = { λ _ fault. fault ≡ log_fault.DeviceFailed };

    fn from(_: DeviceFault) -> LogFault {
        LogFault::DeviceFailed
    }
}
