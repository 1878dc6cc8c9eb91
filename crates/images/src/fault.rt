//! Why the number of an image isn't known.
ghost use Rattle.std.specs.Prelude.{◌≡◌};
ghost use Rattle.images.specs.declared.fault.ImagesFault.TheVariants as images_fault;

use thiserror::Error;
use values::NoMemory;

/// Why the number of an image isn't known. Frames are named by their numbers. The first that holds is answered, in the order of the
/// variants, but for want of memory.
#[derive(Clone, Copy, Debug, PartialEq, Eq, Error)]
pub enum ImagesFault {
    /// This frame is damaged, though a later one says that it was safe.
    #[error("Rot {0}")]
    Rot(u64),
    /// Another frame stands in the place of this one.
    #[error("Gap {0}")]
    Gap(u64),
    /// The payload of this frame is no mark.
    #[error("BadMark {0}")]
    BadMark(u64),
    /// No mark is of this generation.
    #[error("Unmarked {0}")]
    Unmarked(u32),
    /// A growth was refused.
    #[error("NoMemory")]
    NoMemory,
}

impl From<NoMemory> for ImagesFault {
    ghost from_gives = { λ _ fault. fault ≡ images_fault.NoMemory };

    fn from(_: NoMemory) -> ImagesFault {
        ImagesFault::NoMemory
    }
}
