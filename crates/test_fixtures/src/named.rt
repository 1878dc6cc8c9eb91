//! Writes of a transaction and changes of a tree, as a test names them.
ghost use Rattle.std.specs.Prelude.{◌≡◌, IfOk, map};
ghost use Rattle.test_fixtures.specs.Named.{named_write};

use crate::rows::{item, key};
use model::Write;
use std::alloc::Global;
use values::{NoMemory, Value, ValueRef};

/// A write of a row of the base table's columns: its number, and what else the write says.
#[derive(Clone, Copy)]
pub enum ItemWrite {
    Insert(i64, &'static str, i64),
    Delete(i64),
    /// Another name.
    Name(i64, &'static str),
    /// Another quantity.
    Set(i64, i64),
}

/// One change of a tree over rows of the base table's columns. The first number is the SID.
#[derive(Clone, Copy)]
pub enum Step {
    Insert(u64, i64, &'static str, i64),
    Delete(u64, i64),
    Modify(u64, usize, ValueRef<'static>),
    TakeInsert(u64, i64),
    SetInsert(u64, i64, usize, ValueRef<'static>),
}

/// The write.
///
/// # Errors
///
/// `NoMemory` where a growth is refused.
pub fn write_of(alloc: Global, named: ItemWrite) -> Result<Write, NoMemory>
    ensures { IfOk result (λ write. write ≡ named_write named) }
{
    Ok(match named {
        ItemWrite::Insert(id, name, quantity) => Write::Insert(item(alloc, id, name, quantity)?),
        ItemWrite::Delete(id) => Write::Delete(key(alloc, id)?),
        ItemWrite::Name(id, name) => {
            Write::Set(key(alloc, id)?, 1, ValueRef::Text(name).copy(alloc)?)
        }
        ItemWrite::Set(id, quantity) => Write::Set(key(alloc, id)?, 2, Value::Int(quantity)),
    })
}

/// The writes.
///
/// # Errors
///
/// `NoMemory` where a growth is refused.
pub fn writes_of(alloc: Global, named: &[ItemWrite]) -> Result<Vec<Write>, NoMemory>
    ensures { IfOk result (λ writes. writes.items ≡ map named_write named.now) }
{
    let mut writes = Vec::with_capacity(alloc, named.len())?;
    for write in named {
        writes.push(write_of(alloc, *write)?)?;
    }
    Ok(writes)
}
