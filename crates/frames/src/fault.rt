//! Why columns are no image.
ghost use Rattle.std.specs.Prelude.{◌≡◌};
ghost use Rattle.frames.specs.declared.fault.ReadFault.TheVariants as read_fault;

use blocks::BlockFault;
use std::alloc::AllocFailed;
use thiserror::Error;
use values::NoMemory;

/// The first fault of columns as a stored image. Columns, bytes and rows count from 0.
#[derive(Clone, Copy, Debug, PartialEq, Eq, Error)]
pub enum ReadFault {
    /// There aren't as many columns as the schema has.
    #[error("WrongCount")]
    WrongCount,
    /// In this column no frame begins at this offset that may stand there.
    #[error("BadFrame {0} {1}")]
    BadFrame(usize, usize),
    /// A header of this column is of another type than the schema's.
    #[error("TypesDiffer {0}")]
    TypesDiffer(usize),
    /// In this column the frame at this offset is a block whose payload has this fault.
    #[error("BadBlock {0} {1} {2}")]
    BadBlock(usize, usize, BlockFault),
    /// No generation is whole in every column.
    #[error("NoImage")]
    NoImage,
    /// The columns haven't all as many values in that generation.
    #[error("CountsDiffer")]
    CountsDiffer,
    /// There are more than 2,147,483,647 rows.
    #[error("TooManyRows")]
    TooManyRows,
    /// The key of this row isn't above that of the row before it.
    #[error("NotAscending {0}")]
    NotAscending(usize),
    /// A growth was refused.
    #[error("NoMemory")]
    NoMemory,
}

impl From<NoMemory> for ReadFault {
    ghost from_gives = { λ _ fault. fault ≡ read_fault.NoMemory };

    fn from(_: NoMemory) -> ReadFault {
        ReadFault::NoMemory
    }
}

impl<T: Drop> From<AllocFailed<T>> for ReadFault {
    ghost from_gives = { λ _ fault. fault ≡ read_fault.NoMemory };

    fn from(_: AllocFailed<T>) -> ReadFault {
        ReadFault::NoMemory
    }
}
