//! What a recovery takes.

use crate::logged::{Kind, LIMITS, SEED, TABLE, log_all, manager_of, table_of};
use anyhow::anyhow;
use manager::Manager;
use merge::RowView;
use replay::{FrameBytes, Image, recover};
use std::time::Instant;

/// A journal that is recovered: what its commits do, over how many rows, and how many there are.
#[derive(Clone, Copy)]
pub(crate) struct Run {
    pub(crate) kind: Kind,
    pub(crate) rows: u64,
    pub(crate) commits: u64,
}

/// What was measured.
#[derive(Clone, Copy)]
pub(crate) struct Figures {
    /// How many bytes the journal has.
    pub(crate) bytes: usize,
    /// How long its recovery took.
    pub(crate) millis: u64,
}

/// The figures of a run, where the rows that are recovered are the manager's.
pub(crate) fn measured(rt: &HostRuntime, run: Run) -> anyhow::Result<Figures> {
    let alloc = rt.alloc();
    let mut manager = manager_of(alloc, run.rows)?;
    let bytes = log_all(alloc, &mut manager, run.kind, run.commits)?;
    let frames = FrameBytes {
        seed: SEED,
        base: 0,
        bytes: bytes.as_slice(),
    };
    let image = Image {
        table: table_of(alloc, run.rows)?,
        number: 0,
    };
    let start = Instant::now(rt)?;
    let found = recover(alloc, image, LIMITS, TABLE, frames)?;
    let millis = millis_since(rt, start)?;
    if !are_same(&found.manager, &manager) {
        return Err(anyhow!("what is recovered isn't the table that was logged"));
    }
    Ok(Figures {
        bytes: bytes.len(),
        millis,
    })
}

/// Whether two managers have one table, under one number.
fn are_same(found: &Manager, due: &Manager) -> bool {
    let (newest, wanted) = (found.newest(), due.newest());
    if found.version().number() != due.version().number() || newest.len() != wanted.len() {
        return false;
    }
    for (row, other) in newest
        .scan(0, newest.len())
        .zip(wanted.scan(0, wanted.len()))
    {
        if !is_same_row(&row, &other) {
            return false;
        }
    }
    true
}

/// Whether two rows of two cells are the same.
fn is_same_row(row: &RowView<'_>, other: &RowView<'_>) -> bool {
    row.width() == 2
        && other.width() == 2
        && row.value(0) == other.value(0)
        && row.value(1) == other.value(1)
}

fn millis_since(rt: &HostRuntime, start: Instant) -> anyhow::Result<u64> {
    let millis = start.elapsed(rt)?.as_millis();
    Ok(u64::try_from(millis).unwrap_or(u64::MAX))
}
