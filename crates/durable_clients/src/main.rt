//! Two clients on threads of their own commit over one journal in a file, which is then recovered, opened again, and recovered whole.
#![tactic(auto)]

ghost use Rattle.std.specs.Prelude.{◌≡◌, ◌≤◌, [], length};

mod tables;

use crate::tables::{manager_of, memory_column, table_of};
use anyhow::anyhow;
use devices::{ColumnDevice, Store, have_failed};
use durable_sessions::{
    DurableOpening, DurableParts, DurableSession, DurableShared, FrameSettings, NewJournal, open,
};
use logging::{Appender, FileJournal, JournalDevice};
use manager::Manager;
use model::{CommitReply, ConflictRule, WriteReply};
use replay::{FrameBytes, Image, Limits, recover};
use shared::{ImageStore, NewOpening};
use std::alloc::Global;
use std::fs;
use std::fs::{File, OpenOptions};
use std::marker::Brand;
use std::sync::Wait;
use std::thread::{Threads, join};
use values::limits::MAX_ROWS;
use values::{Key, NoMemory, Value};
use watermark::NewWatermark;

const ROWS: u64 = 100;

const SEED: u32 = 77;

const TABLE: u32 = 1;

const TURNS: u64 = 5;

/// The journal's file, in the folder that the program runs in.
const PATH: &str = "clients.journal";

fn main(rt: HostRuntime) -> anyhow::Result<()> {
    let alloc = rt.alloc();
    let journal = FileJournal::new(File::create(&rt, PATH)?, &[]);
    run(&rt, alloc, manager_of(alloc, ROWS)?, journal)?;
    let found = recovered(&rt)?;
    println!(&rt; "{} commits are recovered", found.version().number())?;

    // The journal is opened again behind these commits.
    let bytes = fs::read(&rt, PATH)?;
    let file = OpenOptions::new().append(true).open(&rt, PATH)?;
    let mut manager = found;
    manager.cut();
    run(
        &rt,
        alloc,
        manager,
        FileJournal::new(file, bytes.as_slice()),
    )?;
    let found = recovered(&rt)?;
    println!(&rt;
        "{} commits of both are recovered",
        found.version().number()
    )?;
    fs::remove_file(&rt, PATH)?;
    Ok(())
}

/// Has two clients commit over a journal, with a store in memory.
fn run<T: Threads + Wait + Sync>(
    rt: &T,
    alloc: Global,
    manager: Manager,
    journal: FileJournal,
) -> anyhow::Result<()>
    requires new { manager.history ≡ [] }
    requires durable { length journal.appended ≤ journal.safe }
{
    let mut devices: Vec<Box<dyn ColumnDevice + Send>> = Vec::new(alloc);
    for _ in 0..manager.version().schema().width() {
        devices.push(Box::new(alloc, memory_column(alloc)?)?)?;
    }
    if have_failed(&devices) {
        return Err(anyhow!("a device has failed before its first append"));
    }
    let Ok(store) = Store::new(alloc, devices, manager.version().schema(), 1) else {
        return Err(anyhow!("no store"));
    };
    let fresh = NewOpening::new(&manager, 2);
    let watermark = NewWatermark::new(alloc)?;
    let journal = Appender::new(alloc, journal, SEED);
    if !two_clients::<Brand, Store, FileJournal, _>(
        rt, alloc, manager, store, journal, fresh, watermark,
    ) {
        return Err(anyhow!("an answer isn't the one that is due"));
    }
    Ok(())
}

/// The manager of what the journal's file has.
fn recovered(rt: &HostRuntime) -> anyhow::Result<Manager> {
    let alloc = rt.alloc();
    let bytes = fs::read(rt, PATH)?;
    let image = Image {
        table: table_of(alloc, ROWS)?,
        number: 0,
    };
    let limits = Limits {
        row_limit: MAX_ROWS,
        recent: 64,
        conflicts: ConflictRule::ByColumn,
    };
    let frames = FrameBytes {
        seed: SEED,
        base: 0,
        bytes: bytes.as_slice(),
    };
    Ok(recover(alloc, image, limits, TABLE, frames)?.manager)
}

/// Opens two clients, each of which commits on a thread of its own, and closes them.
fn two_clients<
    O: DurableOpening + Send + Sync,
    S: ImageStore + Send,
    D: JournalDevice + Send,
    T: Threads + Wait + Sync,
>(
    rt: &T,
    alloc: Global,
    manager: Manager,
    store: S,
    journal: Appender<D>,
    fresh: NewOpening,
    watermark: NewWatermark,
) -> bool
    requires name { (fresh.blank.name ≡ O.name) × (fresh.blank.parts ≡ O.parts) × (O.clients ≡ O.parts) × (O.clients ≡ 2) }
    requires opening { (fresh.book.list.opening ≡ O.opened) × (fresh.book.list.list ≡ []) × (O.opened.manager ≡ manager) }
    requires store { S.columns store ≡ manager.schema }
    requires watermark { watermark.cell.table.shared.table_id ≡ O.watermark }
    requires journal { (journal.device.appended ≡ O.front) × (length O.front ≤ journal.device.safe) × (journal.seed ≡ O.seed) }
    requires rules { (O.seed ≡ 77) × (O.table ≡ 1) }
    requires base { (O.base ≡ O.opened.manager.start.base) × (O.opened.manager.history ≡ []) }
{
    let journal = NewJournal {
        log: journal,
        frames: FrameSettings {
            seed: SEED,
            table: TABLE,
        },
        watermark,
    };
    let Ok(
        DurableParts {
            shared,
            mut clients,
        },
    ) = open::<O, S, D, T>(alloc, manager, store, journal, 2, fresh, rt)
    else {
        return false;
    };
    let good = all_commit(rt, alloc, &shared, clients.as_mut_slice()) && shared.fold(rt).is_ok();
    let ended = shared.close(clients, rt);
    good && ended.counts.as_slice() == [TURNS, TURNS].as_slice()
}

/// Whether an image is stored, whose commits the client knows to be durable.
fn is_stored<O: DurableOpening, S: ImageStore, D: JournalDevice, T: Wait>(
    rt: &T,
    shared: &DurableShared<O, S, D>,
    client: &mut DurableSession<O>,
) -> bool {
    match shared.checkpoint(client, rt) {
        Ok(image) => client.reader.number() >= image.number,
        Err(_) => false,
    }
}

/// Whether two clients commit, each on a thread of its own.
fn both_commit<
    O: DurableOpening + Send + Sync,
    S: ImageStore + Send,
    D: JournalDevice + Send,
    T: Threads + Wait + Sync,
>(
    rt: &T,
    alloc: Global,
    shared: &DurableShared<O, S, D>,
    a: &mut DurableSession<O>,
    b: &mut DurableSession<O>,
) -> bool {
    let (one, other) = join(
        rt,
        || takes_turns(rt, alloc, shared, a, 7),
        || takes_turns(rt, alloc, shared, b, 8),
    );
    one && other
}

/// Whether there are two clients, and they commit.
fn all_commit<
    O: DurableOpening + Send + Sync,
    S: ImageStore + Send,
    D: JournalDevice + Send,
    T: Threads + Wait + Sync,
>(
    rt: &T,
    alloc: Global,
    shared: &DurableShared<O, S, D>,
    clients: &mut [DurableSession<O>],
) -> bool {
    let [a, b] = clients else {
        return false;
    };
    both_commit(rt, alloc, shared, a, b)
}

/// Whether each commit of a client to a row of its own is answered as committed, and known to be safe, and an image is stored then.
fn takes_turns<O: DurableOpening, S: ImageStore, D: JournalDevice, T: Wait>(
    rt: &T,
    alloc: Global,
    shared: &DurableShared<O, S, D>,
    client: &mut DurableSession<O>,
    id: i64,
) -> bool {
    for turn in 0..TURNS {
        if !commits(rt, alloc, shared, client, id, turn as i64) {
            return false;
        }
    }
    is_stored(rt, shared, client)
}

/// Whether a commit of a client is answered as committed, and known to be safe.
fn commits<O: DurableOpening, S: ImageStore, D: JournalDevice, T: Wait>(
    rt: &T,
    alloc: Global,
    shared: &DurableShared<O, S, D>,
    client: &mut DurableSession<O>,
    id: i64,
    turn: i64,
) -> bool {
    let Ok(key) = key_of(alloc, id) else {
        return false;
    };
    if shared.begin(client, rt).is_err() {
        return false;
    }
    if client.session.set(&key, 1, Value::Int(turn)) != Ok(WriteReply::Done) {
        return false;
    }
    match shared.commit(client, rt) {
        Ok(CommitReply::Committed(number)) => client.reader.number() >= number,
        _ => false,
    }
}

fn key_of(alloc: Global, id: i64) -> Result<Key, NoMemory> {
    let mut cells = Vec::new(alloc);
    cells.push(Value::Int(id))?;
    Ok(Key::new(cells))
}
