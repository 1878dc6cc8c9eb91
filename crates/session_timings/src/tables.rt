//! A manager of a table, and a column in memory.
ghost use Rattle.std.specs.Prelude.{◌≡◌, [], IfOk};

use devices::MemColumn;
use inputs::load_table;
use manager::Manager;
use model::ConflictRule;
use std::alloc::Global;
use std::sync::{Arc, OnceLock};
use values::NoMemory;
use values::limits::MAX_ROWS;

/// A manager of a table of so many rows: a number, which is the key, and a quantity.
pub(crate) fn manager_of(alloc: Global, rows: u64) -> anyhow::Result<Manager>
    ensures { IfOk result (λ manager. manager.history ≡ []) }
{
    let mut text = String::from_str(alloc, "id:int:key,qty:int\n")?;
    for id in 0..rows {
        text.push_str(format!(in alloc; "{id},{id}\n")?.as_str())?;
    }
    let table = load_table(alloc, text.as_bytes())?;
    match Manager::open(alloc, table, 65_536, MAX_ROWS, ConflictRule::ByColumn) {
        Ok(manager) => Ok(manager),
        Err(fault) => Err(anyhow::Error::from(fault)),
    }
}

/// A column in memory.
pub(crate) fn memory_column(alloc: Global) -> Result<MemColumn, NoMemory>
    ensures { IfOk result (λ column. column.failures ≡ 0) }
{
    MemColumn::new(Vec::new(alloc), Arc::new(alloc, OnceLock::new())?)
}
