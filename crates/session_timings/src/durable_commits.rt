//! What commits of durable sessions take, over a journal whose sync takes a millisecond.
ghost use Rattle.std.specs.Prelude.{◌≡◌, ◌≤◌, [], length};

use crate::slow_journal::SlowJournal;
use crate::tables::{manager_of, memory_column};
use anyhow::anyhow;
use devices::{ColumnDevice, Store, have_failed};
use durable_sessions::{
    DurableOpening, DurableParts, DurableSession, DurableShared, FrameSettings, NewJournal, open,
};
use logging::{Appender, JournalDevice, MemJournal};
use manager::Manager;
use model::{CommitReply, WriteReply};
use shared::{ImageStore, NewOpening};
use std::alloc::Global;
use std::marker::Brand;
use std::sync::{Arc, OnceLock, Wait};
use std::thread::{Threads, map_vec};
use std::time::{Clock, Instant};
use values::{Key, NoMemory, Value};
use watermark::NewWatermark;

/// How many rows the table has: each session commits to one of its own.
const ROWS: u64 = 64;

const SEED: u32 = 77;

const TABLE: u32 = 1;

/// How long so many commits of each of so many sessions take, in nanoseconds.
pub(crate) fn durable_nanos<T: Threads + Wait + Clock + Sync>(
    rt: &T,
    alloc: Global,
    sessions: u32,
    commits: u32,
) -> anyhow::Result<u64> {
    let manager = manager_of(alloc, ROWS)?;
    let mut devices: Vec<Box<dyn ColumnDevice + Send>> = Vec::new(alloc);
    for _ in 0..manager.version().schema().width() {
        devices.push(Box::new(alloc, memory_column(alloc)?)?)?;
    }
    if have_failed(&devices) {
        return Err(anyhow!("a device has failed before its first append"));
    }
    let store = Store::new(alloc, devices, manager.version().schema(), 1)?;
    let fresh = NewOpening::new(&manager, sessions);
    let memory = MemJournal::new(Vec::new(alloc), Arc::new(alloc, OnceLock::new())?);
    let journal = NewJournal {
        log: Appender::new(alloc, SlowJournal::new(memory, rt), SEED),
        frames: FrameSettings {
            seed: SEED,
            table: TABLE,
        },
        watermark: NewWatermark::new(alloc)?,
    };
    match nanos_of::<Brand, Store, SlowJournal<'_, T>, T>(
        rt, alloc, manager, store, journal, sessions, fresh, commits,
    ) {
        Some(nanos) => Ok(nanos),
        None => Err(anyhow!("an answer isn't the one that is due")),
    }
}

/// Opens the sessions, has each commit so often on a thread of its own, and closes them.
fn nanos_of<
    O: DurableOpening + Send + Sync,
    S: ImageStore + Send,
    D: JournalDevice + Send,
    T: Threads + Wait + Clock + Sync,
>(
    rt: &T,
    alloc: Global,
    manager: Manager,
    store: S,
    journal: NewJournal<D>,
    sessions: u32,
    fresh: NewOpening,
    commits: u32,
) -> Option<u64>
    requires name { (fresh.blank.name ≡ O.name) × (fresh.blank.parts ≡ O.parts) × (O.clients ≡ O.parts) × (O.clients ≡ sessions) }
    requires opening { (fresh.book.list.opening ≡ O.opened) × (fresh.book.list.list ≡ []) × (O.opened.manager ≡ manager) }
    requires store { S.columns store ≡ manager.schema }
    requires watermark { journal.watermark.cell.table.shared.table_id ≡ O.watermark }
    requires log { (journal.log.device.appended ≡ O.front) × (length O.front ≤ journal.log.device.safe) × (journal.log.seed ≡ O.seed) }
    requires frames { (journal.frames.seed ≡ O.seed) × (journal.frames.table ≡ O.table) }
    requires base { (O.base ≡ O.opened.manager.start.base) × (O.opened.manager.history ≡ []) }
{
    let Ok(DurableParts { shared, clients }) = open::<O, S, D, T>(
        alloc, manager, store, journal, sessions, fresh, rt,
    ) else {
        return None;
    };
    let nanos = timed(rt, alloc, &shared, clients, commits);
    shared.close(Vec::new(alloc), rt);
    nanos
}

/// How long it takes until each session has committed so often; none where a commit isn't acknowledged.
fn timed<
    O: DurableOpening + Send + Sync,
    S: ImageStore + Send,
    D: JournalDevice + Send,
    T: Threads + Wait + Clock + Sync,
>(
    rt: &T,
    alloc: Global,
    shared: &DurableShared<O, S, D>,
    clients: Vec<DurableSession<O>>,
    commits: u32,
) -> Option<u64> {
    let start = Instant::now(rt).ok()?;
    let one = move |client: DurableSession<O>| -> bool {
        commit_often(rt, alloc, shared, client, commits)
    };
    let good = map_vec(rt, clients, &one).ok()?;
    let took = start.elapsed(rt).ok()?;
    if good.contains(&false) {
        return None;
    }
    u64::try_from(took.as_nanos()).ok()
}

/// Commits so often to a row of the session's own. Answers whether each commit was acknowledged, and known to be durable.
fn commit_often<O: DurableOpening, S: ImageStore, D: JournalDevice, T: Wait>(
    rt: &T,
    alloc: Global,
    shared: &DurableShared<O, S, D>,
    mut client: DurableSession<O>,
    commits: u32,
) -> bool {
    let Ok(key) = key_of(alloc, i64::from(client.session.client())) else {
        return false;
    };
    for turn in 0..commits {
        if !commits_once(rt, shared, &mut client, &key, i64::from(turn)) {
            return false;
        }
    }
    true
}

/// Whether a commit is acknowledged, and known to be durable.
fn commits_once<O: DurableOpening, S: ImageStore, D: JournalDevice, T: Wait>(
    rt: &T,
    shared: &DurableShared<O, S, D>,
    client: &mut DurableSession<O>,
    key: &Key,
    quantity: i64,
) -> bool {
    if client.session.begin().is_err() {
        return false;
    }
    if client.session.set(key, 1, Value::Int(quantity)) != Ok(WriteReply::Done) {
        return false;
    }
    match shared.commit(client, rt) {
        Ok(CommitReply::Committed(number)) => client.reader.number() >= number,
        _ => false,
    }
}

fn key_of(alloc: Global, id: i64) -> Result<Key, NoMemory> {
    let mut cells = Vec::new(alloc);
    cells.push(Value::Int(id))?;
    Ok(Key::new(cells))
}
