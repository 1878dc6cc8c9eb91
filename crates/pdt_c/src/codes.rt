//! What a call answers C, as numbers. `pdt.h` has their names.
ghost use Rattle.std.specs.Prelude.{◌≡◌, ◌≢◌, ◌<◌, ◌⊎◌, IfOk, IfErr, Ok, Err};
ghost use Rattle.pdt_c.specs.Importing.{told_marks, told_reading};
ghost use Rattle.pdt_c.specs.Reopening.{told_fault};
ghost use Rattle.pdt_c.specs.Told.{told, code_of_reply};
ghost use Rattle.pdt_c.specs.declared.codes.TheConstants.{BAD_LIMIT, BAD_STORE, BAD_TABLE, DONE, NOT_ASCENDING, NO_MEMORY, ROT, SHAPE, TOO_LONG, TOO_MANY_ROWS};
ghost use Rattle.codec.specs.declared.fault.SpellFault.TheVariants as spell_fault;
ghost use Rattle.txn.specs.declared.fault.WriteFault.TheVariants as write_fault;

use crate::given::cells::CellFault;
use codec::SpellFault;
use devices::StoreFault;
use frames::ReadFault;
use images::ImagesFault;
use inputs::TableFault;
use manager::OpenFault;
use model::{CommitReply, WriteReply};
use replay::RecoverFault;
use txn::WriteFault;
use values::SchemaFault;

pub(crate) const DONE: u32 = 0;

pub(crate) const NO_MEMORY: u32 = 1;

pub(crate) const CONFLICT: u32 = 2;

pub(crate) const TOO_OLD: u32 = 3;

pub(crate) const FULL: u32 = 4;

pub(crate) const DUPLICATE: u32 = 5;

pub(crate) const MISSING: u32 = 6;

pub(crate) const SHAPE: u32 = 7;

pub(crate) const BAD_TABLE: u32 = 8;

pub(crate) const BAD_LIMIT: u32 = 9;

pub(crate) const TOO_MANY_ROWS: u32 = 10;

pub(crate) const TOO_SMALL: u32 = 11;

pub(crate) const BAD_STORE: u32 = 12;

pub(crate) const NO_IMAGE: u32 = 13;

pub(crate) const NOT_ASCENDING: u32 = 18;

pub(crate) const ROT: u32 = 21;

pub(crate) const GAP: u32 = 22;

pub(crate) const MISFIT: u32 = 23;

pub(crate) const TOO_LONG: u32 = 26;

/// The bytes are of a later version of their format, and have its check.
pub(crate) const NEWER_FORMAT: u32 = 27;

/// No column has this number.
pub(crate) const NO_COLUMN: u64 = 64;

/// The code of cells that aren't there.
pub(crate) fn code_of_cells(fault: CellFault) -> u32
    ensures { (result ≡ SHAPE) ⊎ (result ≡ NO_MEMORY) }
{
    match fault {
        CellFault::Shape => SHAPE,
        CellFault::NoMemory => NO_MEMORY,
    }
}

/// The code of a reply to a write.
pub(crate) fn code_of_reply(reply: WriteReply) -> u32
    ensures { result ≡ code_of_reply reply }
{
    match reply {
        WriteReply::Done => DONE,
        WriteReply::Duplicate => DUPLICATE,
        WriteReply::Full => FULL,
        WriteReply::Missing => MISSING,
    }
}

/// The code of why a write has no reply.
pub(crate) fn code_of_fault(fault: WriteFault) -> u32
    ensures { (result ≡ SHAPE) ⊎ (result ≡ NO_MEMORY) }
{
    match fault {
        WriteFault::Shape(_) => SHAPE,
        WriteFault::NoMemory => NO_MEMORY,
    }
}

/// The code of a commit's reply, and the number of the newest table.
pub(crate) fn code_of_commit(reply: CommitReply) -> (u32, u64)
    ensures { result ≡ told reply }
{
    match reply {
        CommitReply::Committed(number) => (DONE, number),
        CommitReply::Conflict(number) => (CONFLICT, number),
        CommitReply::TooOld(number) => (TOO_OLD, number),
        CommitReply::Full(number) => (FULL, number),
    }
}

pub(crate) fn code_of_table(fault: TableFault) -> u32
    ensures some { 0 < result }
    ensures below { result < ROT }
    ensures bad { result ≡ BAD_TABLE → fault ≢ TableFault.NoMemory }
    ensures other { (result ≢ SHAPE) × (result ≢ NOT_ASCENDING) }
    ensures text { result ≢ BAD_STORE }
    ensures limit { result ≢ BAD_LIMIT }
    ensures many { result ≡ TOO_MANY_ROWS → fault ≡ TableFault.TooManyRows }
{
    match fault {
        TableFault::NoMemory => NO_MEMORY,
        TableFault::Schema(SchemaFault::NoMemory) => NO_MEMORY,
        TableFault::TooManyRows => TOO_MANY_ROWS,
        _ => BAD_TABLE,
    }
}

pub(crate) fn code_of_opening(fault: OpenFault) -> u32
    ensures some { 0 < result }
    ensures other { (result ≢ SHAPE) × (result ≢ NOT_ASCENDING) }
    ensures well { result ≢ BAD_TABLE }
{
    match fault {
        OpenFault::BadLimit => BAD_LIMIT,
        OpenFault::TooManyRows => TOO_MANY_ROWS,
        OpenFault::NoMemory => NO_MEMORY,
    }
}

pub(crate) fn code_of_reading(fault: ReadFault) -> u32
    ensures some { 0 < result }
    ensures below { result < ROT }
    ensures other { (result ≢ BAD_LIMIT) × (result ≢ TOO_MANY_ROWS) }
{
    match fault {
        ReadFault::NoMemory => NO_MEMORY,
        ReadFault::NoImage => NO_IMAGE,
        _ => BAD_STORE,
    }
}

/// The code of why columns store no image, and the column that the fault names: `NO_COLUMN` where it names none.
pub(crate) fn code_of_columns(fault: ReadFault) -> (u32, u64)
    ensures { result ≡ told_reading fault }
{
    match fault {
        ReadFault::BadFrame(column, _)
        | ReadFault::TypesDiffer(column)
        | ReadFault::BadBlock(column, _, _) => (BAD_STORE, column as u64),
        ReadFault::NoImage => (NO_IMAGE, NO_COLUMN),
        ReadFault::NoMemory => (NO_MEMORY, NO_COLUMN),
        ReadFault::WrongCount
        | ReadFault::CountsDiffer
        | ReadFault::TooManyRows
        | ReadFault::NotAscending(_) => (BAD_STORE, NO_COLUMN),
    }
}

pub(crate) fn code_of_store(fault: StoreFault) -> u32
    ensures { 0 < result }
{
    match fault {
        // A device in memory fails only where memory is refused.
        StoreFault::NoMemory | StoreFault::DeviceFailed(_) => NO_MEMORY,
        _ => BAD_STORE,
    }
}

/// The code of why a part isn't spelt.
pub(crate) fn code_of_spelling(fault: SpellFault) -> u32
    ensures some { result ≢ DONE }
    ensures long { result ≡ TOO_LONG → fault ≡ spell_fault.TooLong }
{
    match fault {
        SpellFault::TooLong => TOO_LONG,
        SpellFault::NoMemory => NO_MEMORY,
    }
}

/// The code of why nothing is recovered, and the commit that the fault names: 0 where it names none.
pub(crate) fn code_of_recovery(fault: RecoverFault) -> (u32, u64)
    ensures { result ≡ told_fault fault }
{
    match fault {
        RecoverFault::Rot(commit) => (ROT, commit),
        RecoverFault::Gap(commit) => (GAP, commit),
        RecoverFault::BadPayload(commit, _) | RecoverFault::Misfit(commit) => (MISFIT, commit),
        RecoverFault::NumbersSpent => (MISFIT, 0),
        RecoverFault::BadLimit => (BAD_LIMIT, 0),
        RecoverFault::TooManyRows => (TOO_MANY_ROWS, 0),
        RecoverFault::NoMemory => (NO_MEMORY, 0),
    }
}

/// The code of why the number of an image isn't known, and the mark that the fault names: 0 where it names none.
pub(crate) fn code_of_marks(fault: ImagesFault) -> (u32, u64)
    ensures { result ≡ told_marks fault }
{
    match fault {
        ImagesFault::Rot(mark) => (ROT, mark),
        ImagesFault::Gap(mark) => (GAP, mark),
        ImagesFault::BadMark(mark) => (MISFIT, mark),
        ImagesFault::Unmarked(_) => (MISFIT, 0),
        ImagesFault::NoMemory => (NO_MEMORY, 0),
    }
}
