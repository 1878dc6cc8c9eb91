//! What a column is made of.
ghost use Rattle.std.specs.Prelude.{◌≡◌};
ghost use Rattle.frames.specs.Bytes.{type_byte};

use crate::stored::StoredBlock;
use values::ColumnType;

/// How the payloads after a header are stored.
#[derive(Clone, Copy)]
pub enum Format {
    /// A payload is that of its values.
    First,
    /// A payload begins with a byte that names its encoding: equal values are stored as one.
    Second,
}

/// What a header says of the blocks after it.
#[derive(Clone, Copy)]
pub struct Kind {
    pub format: Format,
    pub ty: ColumnType,
}

/// The numbers in front of a block, as their bytes spell them.
#[derive(Clone, Copy)]
pub struct Head {
    pub generation: u32,
    /// Which block of its generation, from 0.
    pub number: u32,
    /// 1 where it is the last of its generation, else 0.
    pub flag: u8,
    /// How many values.
    pub count: u16,
    /// How many bytes their payload has.
    pub size: u32,
}

/// One block of a generation.
#[derive(Drop)]
pub struct Part<'a> {
    pub format: Format,
    pub generation: u32,
    /// Which block of its generation, from 0.
    pub number: u32,
    /// Whether it is the last of its generation.
    pub last: bool,
    pub block: StoredBlock<'a>,
}

/// A piece of a column that has a meaning of its own.
#[derive(Drop)]
pub enum Frame<'a> {
    /// The blocks that follow are of this kind, up to the next header.
    Header(Kind),
    Block(Part<'a>),
    /// What a device writes at its end where it never failed.
    End,
}

/// The byte of a type.
pub(crate) fn type_byte(ty: ColumnType) -> u8
    ensures { result ≡ type_byte ty }
{
    match ty {
        ColumnType::Int => 1,
        ColumnType::Text => 2,
        ColumnType::Bool => 3,
    }
}
