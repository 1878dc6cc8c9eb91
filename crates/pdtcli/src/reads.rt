//! The reads of an open transaction: what each is answered.
ghost use Rattle.std.specs.Prelude.{◌≡◌, ◌<◌, IfErr, IfOk, IsTrue, length};
ghost use Rattle.std.specs.Option.{option_map};
ghost use Rattle.values.specs.Shape.{key_fault};
ghost use Rattle.values.specs.declared.fault.ShapeFault.TheVariants as shape;
ghost use Rattle.inputs.specs.Typed.{is_typed_read, are_of_types};
ghost use Rattle.inputs.specs.Calls.{key_types};
ghost use Rattle.merge.specs.View.{row_of};
ghost use Rattle.pdtcli.specs.Reads.{IsFoundRow, IsScan, OpenReadStep, read_fault, rows_between};

use crate::reply::Reply;
use crate::shown::ShownRows;
use inputs::Read;
use merge::RowView;
use std::alloc::Global;
use txn::Txn;
use values::{Key, NoMemory, Schema, ShapeFault};

/// What an open transaction answers to a read.
pub(crate) fn read_in(alloc: Global, txn: &Txn, read: &Read) -> Reply
    requires typed { IsTrue (is_typed_read txn.now.schema read.now) }
    ensures { OpenReadStep (read_fault txn.now.schema read.now) txn.now read.now result }
{
    if let Some(cell) = long_text_in(txn.schema(), read) {
        return Reply::TextTooLong(cell);
    }
    match read {
        Read::Get(key) => found(alloc, txn.get(key), Reply::Missing),
        Read::At(rid) => found(alloc, txn.row_at(*rid), Reply::NoRow),
        Read::Rank(key) => {
            let (below, there) = txn.rank(key);
            Reply::Place(below, there)
        }
        Read::Len => Reply::Rows(txn.len()),
        Read::Scan(from, to) => scanned(alloc, txn, *from, *to),
    }
}

/// The cell of the key that is read whose text is too long. Counts and types are those of the schema, as the script was
/// read.
fn long_text_in(schema: &Schema, read: &Read) -> Option<usize>
    requires typed { IsTrue (is_typed_read schema.now read.now) }
    ensures { option_map shape.TextTooLong result ≡ read_fault schema.now read.now }
{
    match read {
        Read::Get(key) => long_text(schema, key),
        Read::Rank(key) => long_text(schema, key),
        Read::At(_) | Read::Len | Read::Scan(_, _) => None,
    }
}

/// The cell of the key whose text is too long.
fn long_text(schema: &Schema, key: &Key) -> Option<usize>
    requires typed { IsTrue (are_of_types (key_types schema.now) key.now) }
    ensures { option_map shape.TextTooLong result ≡ key_fault schema.now key.now }
{
    match schema.check_key(key) {
        Ok(()) => None,
        Err(fault) => match fault {
            ShapeFault::TextTooLong(cell) => Some(cell),
            _ => unreachable!(),
        },
    }
}

/// The reply that shows the row that was looked for, or says that there is none.
fn found(alloc: Global, view: Option<RowView<'_>>, absent: Reply) -> Reply
    ensures { IsFoundRow (option_map row_of view.entry) absent result }
{
    match view {
        None => absent,
        Some(view) => match view.copy(alloc) {
            Ok(row) => Reply::Row(row),
            Err(_) => Reply::NoMemory,
        },
    }
}

/// The reply that shows the rows from one position up to another.
fn scanned(alloc: Global, txn: &Txn, from: u64, to: u64) -> Reply
    ensures { IsScan (rows_between txn.now from to) result }
{
    match copied_rows(alloc, txn, from, to) {
        Ok(rows) => Reply::Scanned(rows),
        Err(NoMemory) => Reply::NoMemory,
    }
}

/// The rows from one position up to another, copied. Where there is none it takes no memory.
fn copied_rows(alloc: Global, txn: &Txn, from: u64, to: u64) -> Result<ShownRows, NoMemory>
    ensures ok { IfOk result (λ rows. rows ≡ rows_between txn.now from to) }
    ensures err { IfErr result (λ _. 0 < length (rows_between txn.now from to)) }
{
    if txn.stretches(from, to).rows_left() == 0 {
        return Ok(ShownRows::none());
    }
    ShownRows::of(alloc, txn.table_between(alloc, from, to)?)
}
