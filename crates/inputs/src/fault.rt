//! What is refused of a table or a script. Each fault shows as its name and its numbers.
ghost use Rattle.std.specs.Prelude.{◌≡◌};
ghost use Rattle.inputs.specs.declared.fault.TableFault.TheVariants as table_fault;
ghost use Rattle.inputs.specs.declared.fault.PlainFault.TheVariants as plain_fault;
ghost use Rattle.inputs.specs.declared.fault.ScriptFault.TheVariants as script_fault;

use std::alloc::{AllocError, AllocFailed};
use thiserror::Error;
use values::{NoMemory, SchemaFault};

/// The first fault of a table's text. Records count from 1, the header included, and cells from 0.
#[derive(Clone, Copy, Debug, PartialEq, Eq, Error)]
pub enum TableFault {
    /// There is no record.
    #[error("NoHeader")]
    NoHeader,
    /// This cell of the header is not a name of 1 to 64 bytes, a colon and a type, or it is a key column after one that
    /// is not.
    #[error("BadHeader {0}")]
    BadHeader(usize),
    /// The header's columns make no schema.
    #[error("{0}")]
    Schema(SchemaFault),
    /// This record has not as many cells as the header.
    #[error("BadCount {0}")]
    BadCount(u64),
    /// In this record, this cell of a text column is not UTF-8.
    #[error("BadText {0} {1}")]
    BadText(u64, usize),
    /// In this record, this cell of an int or bool column is not one.
    #[error("BadCell {0} {1}")]
    BadCell(u64, usize),
    /// In this record, this cell of a text column has more than 4,096 bytes.
    #[error("TextTooLong {0} {1}")]
    TextTooLong(u64, usize),
    /// This record's key stands in an earlier record, and no record before it is so. Only where no other fault stands.
    #[error("RepeatedKey {0}")]
    RepeatedKey(u64),
    /// There is a record past 2,147,483,647 rows.
    #[error("TooManyRows")]
    TooManyRows,
    /// A growth was refused.
    #[error("NoMemory")]
    NoMemory,
}

/// The first fault of a table's text whose header names no types.
#[derive(Clone, Copy, Debug, PartialEq, Eq, Error)]
pub enum PlainFault {
    /// The name of this index in the key is no column's, or is there twice.
    #[error("NoColumn {0}")]
    NoColumn(usize),
    /// The text is wrong, or a growth was refused. Cells count in the text's order.
    #[error("{0}")]
    Table(TableFault),
}

/// The first fault of a script's text. Records count from 1, and fields from 0, the client's name being field 0.
#[derive(Clone, Copy, Debug, PartialEq, Eq, Error)]
pub enum ScriptFault {
    /// Some field of this record is not UTF-8.
    #[error("BadText {0}")]
    BadText(u64),
    /// This record's first field is not a client: 1 to 32 ASCII letters, digits, `-` or `_`.
    #[error("BadClient {0}")]
    BadClient(u64),
    /// This record names the 65th client.
    #[error("TooManyClients {0}")]
    TooManyClients(u64),
    /// This record has no verb, or not as many arguments as its verb wants.
    #[error("BadCount {0}")]
    BadCount(u64),
    /// This record's verb is none that there is.
    #[error("BadVerb {0}")]
    BadVerb(u64),
    /// In this record, this field is not a cell of its column's type, not a column's name, or not a position.
    #[error("BadArgument {0} {1}")]
    BadArgument(u64, usize),
    /// A growth was refused.
    #[error("NoMemory")]
    NoMemory,
}

impl From<NoMemory> for TableFault {
    ghost from_gives = { λ _ fault. fault ≡ table_fault.NoMemory };

    fn from(_: NoMemory) -> TableFault {
        TableFault::NoMemory
    }
}

impl From<AllocError> for TableFault {
    ghost from_gives = { λ _ fault. fault ≡ table_fault.NoMemory };

    fn from(_: AllocError) -> TableFault {
        TableFault::NoMemory
    }
}

impl<T: Drop> From<AllocFailed<T>> for TableFault {
    ghost from_gives = { λ _ fault. fault ≡ table_fault.NoMemory };

    fn from(_: AllocFailed<T>) -> TableFault {
        TableFault::NoMemory
    }
}

impl From<NoMemory> for ScriptFault {
    ghost from_gives = { λ _ fault. fault ≡ script_fault.NoMemory };

    fn from(_: NoMemory) -> ScriptFault {
        ScriptFault::NoMemory
    }
}

impl From<AllocError> for ScriptFault {
    ghost from_gives = { λ _ fault. fault ≡ script_fault.NoMemory };

    fn from(_: AllocError) -> ScriptFault {
        ScriptFault::NoMemory
    }
}

impl<T: Drop> From<AllocFailed<T>> for ScriptFault {
    ghost from_gives = { λ _ fault. fault ≡ script_fault.NoMemory };

    fn from(_: AllocFailed<T>) -> ScriptFault {
        ScriptFault::NoMemory
    }
}

impl From<TableFault> for PlainFault {
    ghost from_gives = { λ given fault. fault ≡ plain_fault.Table given };

    fn from(fault: TableFault) -> PlainFault {
        PlainFault::Table(fault)
    }
}

impl From<NoMemory> for PlainFault {
    ghost from_gives = { λ _ fault. fault ≡ plain_fault.Table table_fault.NoMemory };

    fn from(_: NoMemory) -> PlainFault {
        PlainFault::Table(TableFault::NoMemory)
    }
}

impl<T: Drop> From<AllocFailed<T>> for PlainFault {
    ghost from_gives = { λ _ fault. fault ≡ plain_fault.Table table_fault.NoMemory };

    fn from(_: AllocFailed<T>) -> PlainFault {
        PlainFault::Table(TableFault::NoMemory)
    }
}

impl From<AllocError> for PlainFault {
    ghost from_gives = { λ _ fault. fault ≡ plain_fault.Table table_fault.NoMemory };

    fn from(_: AllocError) -> PlainFault {
        PlainFault::Table(TableFault::NoMemory)
    }
}
