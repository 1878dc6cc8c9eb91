//! Why an image isn't stored, and what is replied then.
ghost use Rattle.std.specs.Prelude.{◌≡◌};
ghost use Rattle.journaled.specs.Journaled.{image_reply, image_refusal};
ghost use Rattle.journaled.specs.declared.fault.ImageFault.TheVariants as image_fault;

use devices::StoreFault;
use logging::LogFault;
use manager::CheckpointFault;
use pdtcli::{Refusal, Reply, reply_of};

/// Why an image isn't stored.
#[derive(Clone, Copy, Debug, PartialEq, Eq)]
pub enum ImageFault {
    /// It isn't marked, and was not offered to the store.
    Unmarked(LogFault),
    /// The store doesn't have it.
    Unstored(CheckpointFault),
}

impl From<LogFault> for ImageFault {
    ghost from_gives = { λ fault image. image ≡ image_fault.Unmarked fault };

    fn from(fault: LogFault) -> ImageFault {
        ImageFault::Unmarked(fault)
    }
}

/// The reply that tells how an image was stored.
pub(crate) fn image_reply(answer: Result<u32, ImageFault>) -> Reply
    ensures { result ≡ image_reply answer }
{
    match answer {
        Ok(generation) => reply_of(Ok(generation)),
        Err(ImageFault::Unstored(fault)) => reply_of(Err(fault)),
        Err(ImageFault::Unmarked(LogFault::NoMemory)) => Reply::NoMemory,
        Err(ImageFault::Unmarked(LogFault::DeviceFailed)) => Reply::JournalFailed,
    }
}

/// The refusal of a store whose first image isn't stored.
pub(crate) fn image_refusal(fault: ImageFault) -> Refusal
    ensures { result ≡ image_refusal fault }
{
    match fault {
        ImageFault::Unmarked(LogFault::NoMemory) => Refusal::Store(StoreFault::NoMemory),
        ImageFault::Unmarked(LogFault::DeviceFailed) => Refusal::JournalFailed,
        ImageFault::Unstored(CheckpointFault::StoreFailed) => Refusal::Store(
            StoreFault::StoreFailed,
        ),
        ImageFault::Unstored(CheckpointFault::GenerationsSpent) => {
            Refusal::Store(StoreFault::GenerationsSpent)
        }
        ImageFault::Unstored(CheckpointFault::NoMemory) => Refusal::Store(StoreFault::NoMemory),
        ImageFault::Unstored(CheckpointFault::DeviceFailed(device)) => {
            Refusal::Store(StoreFault::DeviceFailed(device))
        }
    }
}
