//! Runs whose store is in memory.
ghost use Rattle.std.specs.Prelude.{◌≡◌, IfOk};

use super::{BASE_COLUMNS, BASE_TEXT, USUAL};
use devices::{ColumnDevice, MemColumn, Store, StoreFault, have_failed};
use pdtcli::{FileFault, Left, OpenOptions, Opened, Refusal, open_texts, run_opened, run_serial};
use std::alloc::Global;
use std::io::Write;
use std::sync::{Arc, OnceLock};

/// A device in memory, whose bytes nobody reads.
pub(crate) fn memory_column(alloc: Global) -> Result<MemColumn, Refusal>
    ensures { IfOk result (λ column. column.failures ≡ 0) }
{
    Ok(MemColumn::new(Vec::new(alloc), Arc::new(alloc, OnceLock::new())?)?)
}

/// The devices of a store, one for each column.
pub(super) type Devices = Vec<Box<dyn ColumnDevice + Send>>;

/// Runs the script over a table that is opened so, as the program does.
pub(crate) fn run_texts<W: Write>(
    alloc: Global,
    table: Result<&[u8], FileFault>,
    script: Result<&[u8], FileFault>,
    options: OpenOptions,
    out: &mut W,
) -> Result<u8, Refusal> {
    let opened = open_texts(alloc, table, script, options)?;
    let mut devices: Devices = Vec::new(alloc);
    for _ in 0..opened.schema().width() {
        devices.push(Box::new(alloc, memory_column(alloc)?)?)?;
    }
    run_over(alloc, opened, devices, out)
}

/// The same over what was opened, and a store of these devices.
fn run_over<W: Write>(
    alloc: Global,
    opened: Opened,
    devices: Devices,
    out: &mut W,
) -> Result<u8, Refusal>
    requires { opened.script.schema ≡ opened.manager.schema }
{
    if have_failed(devices.as_slice()) {
        return Err(Refusal::Store(StoreFault::StoreFailed));
    }
    let store = Store::new(alloc, devices, opened.schema(), 1)?;
    let (status, _outcome) = run_opened(alloc, opened, store, out)?;
    Ok(status)
}

/// What is left of a run of the script over the base table.
pub(crate) fn left_of(alloc: Global, script: &[u8]) -> Result<Left, Refusal> {
    let mut devices: Devices = Vec::new(alloc);
    for _ in 0..BASE_COLUMNS {
        devices.push(Box::new(alloc, memory_column(alloc)?)?)?;
    }
    left_over(alloc, devices, script)
}

/// The same with a store of these devices.
fn left_over(alloc: Global, devices: Devices, script: &[u8]) -> Result<Left, Refusal> {
    if have_failed(devices.as_slice()) {
        return Err(Refusal::Store(StoreFault::StoreFailed));
    }
    let opened = open_texts(alloc, Ok(BASE_TEXT), Ok(script), USUAL)?;
    let store = Store::new(alloc, devices, opened.schema(), 1)?;
    Ok(run_serial(alloc, opened.manager, store, opened.script)?.left)
}
