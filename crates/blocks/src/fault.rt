//! Why bytes are no payload of so many values of a type.
ghost use Rattle.std.specs.Prelude.{◌≡◌};
ghost use Rattle.blocks.specs.declared.fault.BlockFault.TheVariants as block_fault;

use thiserror::Error;
use values::NoMemory;

/// The first fault of a payload, read value by value from the left. Offsets count bytes and values count from 0.
#[derive(Clone, Copy, Debug, PartialEq, Eq, Error)]
pub enum BlockFault {
    /// The bytes end within the value that begins at this offset, or before it. For truths the offset is 0.
    #[error("Short {0}")]
    Short(usize),
    /// The values end at this offset, and bytes are left.
    #[error("Long {0}")]
    Long(usize),
    /// This value is a text whose bytes are not UTF-8.
    #[error("BadText {0}")]
    BadText(usize),
    /// This value is a text of more than 4,096 bytes.
    #[error("TextTooLong {0}")]
    TextTooLong(usize),
    /// A bit after the last truth is 1.
    #[error("BadPadding")]
    BadPadding,
    /// The bytes name no encoding, or another than the one in which so many such values are stored.
    #[error("BadEncoding")]
    BadEncoding,
    /// A growth was refused.
    #[error("NoMemory")]
    NoMemory,
}

impl From<NoMemory> for BlockFault {
    ghost from_gives = { λ _ fault. fault ≡ block_fault.NoMemory };

    fn from(_: NoMemory) -> BlockFault {
        BlockFault::NoMemory
    }
}
