//! A manager whose commits are logged.
ghost use Rattle.std.specs.Prelude.{IfOk};
ghost use Rattle.manager.specs.Managed.{Managed, IsOwn};

use crate::draws::Draws;
use anyhow::anyhow;
use codec::{entries_fit, write_part};
use inputs::load_table;
use journal::{Frame, write_frame};
use manager::{Manager, Prepared};
use model::{CommitReply, ConflictRule, WriteReply};
use replay::Limits;
use stable::StableTable;
use std::alloc::Global;
use txn::{Txn, WriteFault};
use values::limits::MAX_ROWS;
use values::{Key, NoMemory, Row, Value};

/// The seed of the journal.
pub(crate) const SEED: u32 = 0x1234_5678;

/// The number of the table in the payloads.
pub(crate) const TABLE: u32 = 1;

/// By what the manager is opened.
pub(crate) const LIMITS: Limits = Limits {
    row_limit: MAX_ROWS,
    recent: 64,
    conflicts: ConflictRule::ByColumn,
};

/// After so many commits the Write-PDT is folded.
const FOLD_EACH: u64 = 1 << 14;

/// What each commit does.
#[derive(Clone, Copy)]
pub(crate) enum Kind {
    /// It sets the quantity of a drawn row.
    Set,
    /// It inserts a row between two others.
    Insert,
}

impl Kind {
    pub(crate) fn name(self) -> &'static str {
        match self {
            Kind::Set => "a set",
            Kind::Insert => "an insert",
        }
    }
}

/// A table of so many rows: an even number, which is the key, and a quantity.
pub(crate) fn table_of(alloc: Global, rows: u64) -> anyhow::Result<StableTable> {
    let mut text = String::from_str(alloc, "id:int:key,qty:int\n")?;
    for place in 0..rows {
        let id = place.wrapping_mul(2);
        text.push_str(format!(in alloc; "{id},{place}\n")?.as_str())?;
    }
    Ok(load_table(alloc, text.as_bytes())?)
}

/// A manager of that table.
pub(crate) fn manager_of(alloc: Global, rows: u64) -> anyhow::Result<Manager> {
    let mut manager = Manager::open(
        alloc,
        table_of(alloc, rows)?,
        LIMITS.recent,
        LIMITS.row_limit,
        LIMITS.conflicts,
    )?;
    manager.count_only();
    Ok(manager)
}

/// Makes so many commits of one write, and gives their journal.
pub(crate) fn log_all(
    alloc: Global,
    manager: &mut Manager,
    kind: Kind,
    commits: u64,
) -> anyhow::Result<Vec<u8>> {
    let rows = manager.newest().len().max(1);
    let mut draws = Draws::new(1);
    let mut journal = Vec::new(alloc);
    for number in 1..=commits {
        let place = place_of(kind, number, &mut draws) % rows;
        let txn = begun(alloc, manager, kind, place)?;
        log(alloc, manager, txn, number, &mut journal)?;
        if number % FOLD_EACH == 0 {
            manager.fold()?;
        }
    }
    Ok(journal)
}

/// A number whose rest by the count of the rows says which row is meant. Inserts meet no row twice where that count is a power of ten,
/// since the factor has neither 2 nor 5 in it.
fn place_of(kind: Kind, number: u64, draws: &mut Draws) -> u64 {
    match kind {
        Kind::Set => draws.number(),
        Kind::Insert => number.wrapping_mul(618_033),
    }
}

/// A transaction that begins now and makes its write.
fn begun(alloc: Global, manager: &Manager, kind: Kind, place: u64) -> anyhow::Result<Txn>
    ensures { IfOk result (λ txn. IsOwn manager.now txn) }
{
    let id = i64::try_from(place)?.wrapping_mul(2);
    let mut txn = manager.begin(1)?;
    match wrote(alloc, &mut txn, kind, id) {
        Ok(WriteReply::Done) => Ok(txn),
        _ => {
            txn.abort();
            Err(anyhow!("a write isn't done"))
        }
    }
}

/// The reply to the write at the row of this number, or behind it.
fn wrote(alloc: Global, txn: &mut Txn, kind: Kind, id: i64) -> Result<WriteReply, WriteFault>
    ensures own { (m : Managed) → IsOwn m txn.old → IsOwn m txn.new }
{
    match kind {
        Kind::Set => txn.set(&key_of(alloc, id)?, 1, Value::Int(7)),
        Kind::Insert => txn.insert(row_of(alloc, id.wrapping_add(1))?),
    }
}

/// The key of a row.
fn key_of(alloc: Global, id: i64) -> Result<Key, NoMemory> {
    let mut cells = Vec::new(alloc);
    cells.push(Value::Int(id))?;
    Ok(Key::new(cells))
}

/// A row of this number.
fn row_of(alloc: Global, id: i64) -> Result<Row, NoMemory> {
    let mut cells = Vec::new(alloc);
    cells.push(Value::Int(id))?;
    cells.push(Value::Int(7))?;
    Ok(Row::new(cells))
}

/// Commits a transaction, and adds its frame.
fn log(
    alloc: Global,
    manager: &mut Manager,
    txn: Txn,
    number: u64,
    journal: &mut Vec<u8>,
) -> anyhow::Result<()>
    requires own { IsOwn manager.old txn }
{
    let prepared = match manager.prepare(&txn) {
        Ok(prepared) => prepared,
        Err(fault) => {
            txn.abort();
            return Err(fault.into());
        }
    };
    if let Err(fault) = add_frame(alloc, manager, &prepared, number, journal) {
        txn.abort();
        return Err(fault);
    }
    match manager.install(txn, prepared) {
        CommitReply::Committed(_) => Ok(()),
        _ => Err(anyhow!("a commit isn't granted")),
    }
}

/// Adds the frame of what was prepared.
fn add_frame(
    alloc: Global,
    manager: &Manager,
    prepared: &Prepared,
    number: u64,
    journal: &mut Vec<u8>,
) -> anyhow::Result<()> {
    let schema = manager.version().schema();
    let Some(tree) = prepared.tree() else {
        return Err(anyhow!("a commit isn't granted"));
    };
    if !entries_fit(schema, tree) {
        return Err(anyhow!("a tree doesn't fit its schema"));
    }
    let mut payload = Vec::new(alloc);
    write_part(schema, TABLE, tree, &mut payload)?;
    if payload.len() > u32::MAX as usize {
        return Err(anyhow!("a payload is too long"));
    }
    let frame = Frame {
        number,
        synced: number.wrapping_sub(1),
        payload: payload.as_slice(),
    };
    Ok(write_frame(SEED, &frame, journal)?)
}
