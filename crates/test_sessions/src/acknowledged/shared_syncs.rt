//! Commits of several clients share a sync, as a device tells that counts its syncs.
ghost use Rattle.std.specs.Prelude.{◌≡◌, ◌≤◌, [], length};

use super::{CLIENTS, SEED, TABLE};
use crate::acts::written;
use crate::assertions::assert_holds;
use crate::managers::base_manager;
use devices::{ColumnDevice, Store, have_failed};
use durable_sessions::{
    DurableOpening, DurableParts, DurableSession, DurableShared, FrameSettings, NewJournal, open,
};
use logging::{Appender, DeviceFault, JournalDevice, LeftJournal, MemJournal};
use manager::Manager;
use model::CommitReply;
use shared::{ImageStore, NewOpening};
use std::alloc::Global;
use std::marker::{Brand, Model};
use std::process::Abort;
use std::sync::atomic::{AtomicU64, Ordering};
use std::sync::{Arc, OnceLock, Wait};
use std::test::Fail;
use std::thread::{Threads, map_vec, sleep};
use std::time::{Clock, Duration};
use test_fixtures::{ItemWrite, device_over, empty_slots};
use values::limits::MAX_ROWS;
use watermark::NewWatermark;

/// How often a client commits.
const ROUNDS: u32 = 5;

/// How long a sync takes: long beside a commit, so that the others get ready meanwhile.
const SYNC_MILLIS: u64 = 20;

/// A journal in memory whose syncs take time and are counted.
#[derive(Drop)]
struct CountedJournal<'e, C: Clock> {
    journal: MemJournal,
    clock: &'e C,
    syncs: &'e AtomicU64,
}

impl<'e, C: Clock> Model for CountedJournal<'e, C> {
    ghost use Rattle.logging.specs.Device.{Device};

    ghost Value = { Device };

    ghost view = { λ s. s.journal };
}

impl<'e, C: Clock> CountedJournal<'e, C> {
    fn new(journal: MemJournal, clock: &'e C, syncs: &'e AtomicU64) -> CountedJournal<'e, C>
        ensures { result ≡ journal }
    {
        CountedJournal {
            journal,
            clock,
            syncs,
        }
    }
}

impl<'e, C: Clock> JournalDevice for CountedJournal<'e, C> {
    ghost appended = { λ s. s.appended };

    ghost safe = { λ s. s.safe };

    ghost faults = { λ s. s.failures };

    fn append(&mut self, piece: &[u8]) -> Result<(), DeviceFault> {
        self.journal.append(piece)
    }

    fn sync(&mut self) -> Result<(), DeviceFault> {
        sleep(self.clock, Duration::from_millis(SYNC_MILLIS));
        self.syncs.fetch_add(1, Ordering::SeqCst);
        self.journal.sync()
    }

    fn failures(&self) -> u64 {
        self.journal.failures()
    }
}

/// Whether each of a client's inserts of a row of its own is acknowledged.
fn inserts_all<O: DurableOpening, S: ImageStore, D: JournalDevice, R: Wait>(
    rt: &R,
    alloc: Global,
    shared: &DurableShared<O, S, D>,
    mut client: DurableSession<O>,
) -> bool {
    let first = i64::from(client.session.client())
        .wrapping_add(1)
        .wrapping_mul(100);
    for round in 0..ROUNDS {
        let row = ItemWrite::Insert(first.wrapping_add(i64::from(round)), "Own", 1);
        if client.session.begin().is_err() || written(alloc, &mut client.session, row).is_err() {
            return false;
        }
        match shared.commit(&mut client, rt) {
            Ok(CommitReply::Committed(_)) => {}
            _ => return false,
        }
    }
    true
}

/// Whether all commits of all clients are acknowledged, each client being on a thread of its own.
fn all_insert<
    O: DurableOpening + Send + Sync,
    S: ImageStore + Send,
    D: JournalDevice + Send,
    R: Threads + Wait + Sync,
>(
    rt: &R,
    alloc: Global,
    manager: Manager,
    store: S,
    journal: NewJournal<D>,
    fresh: NewOpening,
) -> Result<bool, Fail>
    requires name { (fresh.blank.name ≡ O.name) × (fresh.blank.parts ≡ O.parts) × (O.clients ≡ O.parts) × (O.clients ≡ 4) }
    requires opening { (fresh.book.list.opening ≡ O.opened) × (fresh.book.list.list ≡ []) × (O.opened.manager ≡ manager) }
    requires store { S.columns store ≡ manager.schema }
    requires watermark { journal.watermark.cell.table.shared.table_id ≡ O.watermark }
    requires log { (journal.log.device.appended ≡ O.front) × (length O.front ≤ journal.log.device.safe) × (journal.log.seed ≡ O.seed) }
    requires frames { (journal.frames.seed ≡ O.seed) × (journal.frames.table ≡ O.table) }
    requires base { (O.base ≡ O.opened.manager.start.base) × (O.opened.manager.history ≡ []) }
{
    let DurableParts { shared, clients } = open::<O, S, D, R>(
        alloc, manager, store, journal, CLIENTS, fresh, rt,
    )?;
    let good = threads_insert(rt, alloc, &shared, clients);
    shared.close(Vec::new(alloc), rt);
    good
}

/// Whether all commits are acknowledged.
fn threads_insert<
    O: DurableOpening + Send + Sync,
    S: ImageStore + Send,
    D: JournalDevice + Send,
    R: Threads + Wait + Sync,
>(
    rt: &R,
    alloc: Global,
    shared: &DurableShared<O, S, D>,
    clients: Vec<DurableSession<O>>,
) -> Result<bool, Fail> {
    let one = move |client: DurableSession<O>| -> bool { inserts_all(rt, alloc, shared, client) };
    let good = map_vec(rt, clients, &one)?;
    Ok(!good.contains(&false))
}

/// Has four clients commit over a journal whose syncs are counted.
fn plays<R: Threads + Wait + Clock + Abort + Sync>(rt: &R, alloc: Global) -> Result<(), Fail> {
    let slots = empty_slots(alloc, 3)?;
    let mut devices: Vec<Box<dyn ColumnDevice + Send>> = Vec::new(alloc);
    for (number, slot) in slots.iter().enumerate() {
        devices.push(Box::new(alloc, device_over(alloc, slot, number, None)?)?)?;
    }
    if have_failed(&devices) {
        return Err(Fail::new("a device has failed before its first append"));
    }
    let manager = base_manager(alloc, 64, MAX_ROWS)?;
    let store = Store::new(alloc, devices, manager.version().schema(), 1)?;
    let fresh = NewOpening::new(&manager, CLIENTS);
    let slot: Arc<OnceLock<LeftJournal>> = Arc::new(alloc, OnceLock::new())?;
    let syncs = AtomicU64::new(0);
    let device = CountedJournal::new(MemJournal::new(Vec::new(alloc), slot), rt, &syncs);
    let journal = NewJournal {
        log: Appender::new(alloc, device, SEED),
        frames: FrameSettings {
            seed: SEED,
            table: TABLE,
        },
        watermark: NewWatermark::new(alloc)?,
    };
    let good = all_insert::<Brand, Store, CountedJournal<'_, R>, R>(
        rt, alloc, manager, store, journal, fresh,
    )?;
    assert_holds(rt, good, "a commit isn't acknowledged");
    let commits = u64::from(CLIENTS).wrapping_mul(u64::from(ROUNDS));
    assert_holds(
        rt,
        syncs.load(Ordering::SeqCst) < commits,
        "each commit has a sync of its own",
    );
    Ok(())
}

#[test]
fn commits_share_a_sync(rt: HostRuntime) -> Result<(), Fail> {
    plays(&rt, rt.alloc())
}
