//! Why rows make no table.
ghost use Rattle.std.specs.Prelude.{◌≡◌};
ghost use Rattle.stable.specs.declared.fault.BuildFault.TheVariants as build_fault;

use thiserror::Error;
use values::{NoMemory, ShapeFault};

/// The first fault of rows as a table. Rows count from 0.
#[derive(Clone, Copy, Debug, PartialEq, Eq, Error)]
pub enum BuildFault {
    /// There are more than 2,147,483,647 rows.
    #[error("TooManyRows")]
    TooManyRows,
    /// This row doesn't fit the schema.
    #[error("Shape {0} {1}")]
    Shape(usize, ShapeFault),
    /// The key of this row isn't above that of the row before it.
    #[error("NotAscending {0}")]
    NotAscending(usize),
    /// A growth was refused.
    #[error("NoMemory")]
    NoMemory,
}

impl From<NoMemory> for BuildFault {
    ghost from_gives = { λ _ fault. fault ≡ build_fault.NoMemory };

    fn from(_: NoMemory) -> BuildFault {
        BuildFault::NoMemory
    }
}
