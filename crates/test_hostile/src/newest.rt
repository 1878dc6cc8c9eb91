//! Images of managers beside the rows that are due.
use manager::Manager;
use std::alloc::Global;
use values::{NoMemory, Row};

/// Whether these are the manager's rows.
pub(crate) fn has_rows(alloc: Global, manager: &Manager, rows: &[Row]) -> Result<bool, NoMemory> {
    let newest = manager.newest();
    if newest.len() != rows.len() as u64 {
        return Ok(false);
    }
    for (view, row) in newest.scan(0, newest.len()).zip(rows.iter()) {
        if view.copy(alloc)?.cells() != row.cells() {
            return Ok(false);
        }
    }
    Ok(true)
}
