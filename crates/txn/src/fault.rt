//! Why a write is not answered.
ghost use Rattle.std.specs.Prelude.{◌≡◌};
ghost use Rattle.txn.specs.declared.fault.WriteFault.TheVariants as write_fault;

use thiserror::Error;
use values::{NoMemory, ShapeFault};

/// Why a write is not answered. Nothing has changed, and it isn't recorded.
#[derive(Clone, Copy, Debug, PartialEq, Eq, Error)]
pub enum WriteFault {
    /// The row, the key or the cell doesn't fit the schema.
    #[error("{0}")]
    Shape(ShapeFault),
    /// A growth was refused.
    #[error("NoMemory")]
    NoMemory,
}

impl From<ShapeFault> for WriteFault {
    ghost from_gives = { λ shape fault. fault ≡ write_fault.Shape shape };

    fn from(shape: ShapeFault) -> WriteFault {
        WriteFault::Shape(shape)
    }
}

impl From<NoMemory> for WriteFault {
    ghost from_gives = { λ _ fault. fault ≡ write_fault.NoMemory };

    fn from(_: NoMemory) -> WriteFault {
        WriteFault::NoMemory
    }
}
