//! Tables that are recovered, beside the slow program's.
use crate::journals::{TABLE, frames_behind};
use crate::slow::Slow;
use manager::Manager;
use model::ConflictRule;
use replay::{Image, Limits, RecoverFault, Recovered, recover};
use stable::StableTable;
use std::alloc::Global;
use std::test::Fail;
use test_fixtures::item_columns;
use values::{NoMemory, Row};

/// So few rows that an insert or a commit is Full now and then.
pub(crate) const LIMITS: Limits = Limits {
    row_limit: 20,
    recent: 64,
    conflicts: ConflictRule::ByColumn,
};

/// The image of the slow program's table of a number.
pub(crate) fn image_at(alloc: Global, slow: &Slow, number: u64) -> Result<Image, Fail> {
    match slow.rows_at(number)? {
        Some(rows) => Ok(Image {
            table: StableTable::build(alloc, item_columns(alloc)?, rows)?,
            number,
        }),
        None => Err(Fail::new("a number of no table")),
    }
}

/// What is recovered of these frames from the commit 1 on, over the image of a number.
pub(crate) fn recovered_over(
    alloc: Global,
    slow: &Slow,
    number: u64,
    bytes: &[u8],
) -> Result<Result<Recovered, RecoverFault>, Fail> {
    let image = image_at(alloc, slow, number)?;
    Ok(recover(alloc, image, LIMITS, TABLE, frames_behind(0, bytes)))
}

/// Whether a manager has the slow program's table of a number, and that number.
pub(crate) fn has_table(
    alloc: Global,
    manager: &Manager,
    slow: &Slow,
    number: u64,
) -> Result<bool, NoMemory> {
    match slow.rows_at(number)? {
        Some(rows) => Ok(
            manager.version().number() == number && has_rows(alloc, manager, rows.as_slice())?,
        ),
        None => Ok(false),
    }
}

/// Whether these are the manager's rows.
pub(crate) fn has_rows(alloc: Global, manager: &Manager, rows: &[Row]) -> Result<bool, NoMemory> {
    let newest = manager.newest();
    if newest.len() != rows.len() as u64 {
        return Ok(false);
    }
    for (view, row) in newest.scan(0, newest.len()).zip(rows.iter()) {
        if view.copy(alloc)?.cells() != row.cells() {
            return Ok(false);
        }
    }
    Ok(true)
}

/// Whether this was recovered: the table of a number, of so many bytes that are whole.
pub(crate) fn is_recovered(
    alloc: Global,
    found: &Result<Recovered, RecoverFault>,
    slow: &Slow,
    number: u64,
    whole: usize,
) -> Result<bool, NoMemory> {
    match found {
        Ok(found) => Ok(found.whole == whole && has_table(alloc, &found.manager, slow, number)?),
        Err(_) => Ok(false),
    }
}

/// Whether this was refused, with this fault.
pub(crate) fn is_refused(found: &Result<Recovered, RecoverFault>, fault: RecoverFault) -> bool {
    match found {
        Ok(_) => false,
        Err(found) => *found == fault,
    }
}
