//! Why a batch isn't written.
use thiserror::Error;

/// Why a batch isn't known to be durable. Once the device has failed, no later batch is written.
#[derive(Clone, Copy, Debug, PartialEq, Eq, Error)]
pub enum WriteFault {
    /// The device failed during this write: a prefix of the batch may be in the file, which may be all of it.
    #[error("Unsure")]
    Unsure,
    /// The device had failed before, or the batch doesn't follow the last one. Nothing was appended.
    #[error("Failed")]
    Failed,
}
