//! Durable sessions on threads: what is acknowledged is recovered, whatever the device does and wherever a crash falls. The slow program
//! says what the recovered table is.
ghost use Rattle.std.specs.Prelude.{◌≡◌, ◌≤◌, [], length};

mod shared_syncs;

use crate::acts::written;
use crate::assertions::{assert_holds, assert_holds_at};
use crate::managers::base_manager;
use crate::replays::Replay;
use devices::{ColumnDevice, Store, have_failed};
use durable_sessions::{
    ClosedParts, DurableOpening, DurableParts, DurableSession, DurableShared, FrameSettings,
    ImageFault, NewJournal, open,
};
use logging::{Appender, FailingJournal, Failure, JournalDevice, LeftJournal, MemJournal};
use manager::Manager;
use model::{CommitReply, ConflictRule};
use replay::{FrameBytes, Image, Limits, recover};
use shared::{ImageStore, NewOpening};
use std::alloc::Global;
use std::marker::Brand;
use std::process::Abort;
use std::sync::{Arc, OnceLock, Wait};
use std::test::Fail;
use std::thread::{Threads, map_vec};
use test_fixtures::{BASE, ItemWrite, base_table, device_over, empty_slots, items};
use values::NoMemory;
use values::limits::MAX_ROWS;
use watermark::NewWatermark;

pub(crate) const CLIENTS: u32 = 4;

/// How often a client commits.
const ROUNDS: u32 = 6;

const RECENT: u32 = 64;

pub(crate) const SEED: u32 = 77;

pub(crate) const TABLE: u32 = 3;

/// How often an append and a sync is tried at each place.
const TURNS: u64 = 4;

/// What a run left.
#[derive(Drop)]
struct Played {
    manager: Manager,
    /// The greatest number that a client was told as committed, or 0.
    acknowledged: u64,
    /// How a checkpoint at the end was answered, with the number of its image.
    image: Result<u64, ImageFault>,
}

/// What a client sets in a round: a cell of a row of its own, and one that all share.
fn asked(client: u32, round: u32) -> [ItemWrite; 2] {
    let number = i64::from(round);
    let own = i64::from(client).wrapping_add(100);
    if round == 0 {
        [
            ItemWrite::Insert(own, "Own", number),
            ItemWrite::Set(10, number),
        ]
    } else {
        [ItemWrite::Set(own, number), ItemWrite::Set(20, number)]
    }
}

/// Whether a transaction begins over durable commits, and its writes are answered.
fn is_ready<O: DurableOpening, S: ImageStore, D: JournalDevice, R: Wait>(
    rt: &R,
    alloc: Global,
    shared: &DurableShared<O, S, D>,
    client: &mut DurableSession<O>,
    round: u32,
) -> bool {
    let [own, common] = asked(client.session.client(), round);
    shared.begin(client, rt).is_ok()
        && written(alloc, &mut client.session, own).is_ok()
        && written(alloc, &mut client.session, common).is_ok()
}

/// A client's rounds, up to the first in which something is refused. Gives the greatest number that it was told as committed.
fn run<O: DurableOpening, S: ImageStore, D: JournalDevice, R: Wait>(
    rt: &R,
    alloc: Global,
    shared: &DurableShared<O, S, D>,
    mut client: DurableSession<O>,
) -> (DurableSession<O>, u64) {
    let mut newest = 0;
    for round in 0..ROUNDS {
        if !is_ready(rt, alloc, shared, &mut client, round) {
            break;
        }
        match shared.commit(&mut client, rt) {
            Ok(CommitReply::Committed(number)) => newest = number,
            Ok(_) => {}
            Err(_) => break,
        }
    }
    (client, newest)
}

/// Runs each client on a thread of its own. Gives the greatest number that one was told as committed.
fn run_all<
    O: DurableOpening + Send + Sync,
    S: ImageStore + Send,
    D: JournalDevice + Send,
    R: Threads + Wait + Sync,
>(
    rt: &R,
    alloc: Global,
    shared: &DurableShared<O, S, D>,
    clients: Vec<DurableSession<O>>,
) -> Result<(Vec<DurableSession<O>>, u64), NoMemory> {
    let one = move |client| -> (DurableSession<O>, u64) { run(rt, alloc, shared, client) };
    let ran = map_vec(rt, clients, &one)?;
    let mut back = Vec::new(alloc);
    let mut acknowledged = 0;
    for (client, newest) in ran {
        back.push(client)?;
        acknowledged = newest.max(acknowledged);
    }
    Ok((back, acknowledged))
}

/// The number of the image that a client has stored.
fn stored<O: DurableOpening, S: ImageStore, D: JournalDevice, R: Wait>(
    rt: &R,
    shared: &DurableShared<O, S, D>,
    clients: &mut [DurableSession<O>],
) -> Result<u64, ImageFault> {
    let [client, ..] = clients else {
        return Err(ImageFault::JournalFailed);
    };
    let image = shared.checkpoint(client, rt)?;
    Ok(image.number)
}

/// Opens the clients, has them make their rounds, stores an image, and closes them.
fn play<
    O: DurableOpening + Send + Sync,
    S: ImageStore + Send,
    D: JournalDevice + Send,
    R: Threads + Wait + Sync,
>(
    rt: &R,
    alloc: Global,
    manager: Manager,
    store: S,
    journal: NewJournal<D>,
    fresh: NewOpening,
) -> Result<Played, Fail>
    requires name { (fresh.blank.name ≡ O.name) × (fresh.blank.parts ≡ O.parts) × (O.clients ≡ O.parts) × (O.clients ≡ 4) }
    requires opening { (fresh.book.list.opening ≡ O.opened) × (fresh.book.list.list ≡ []) × (O.opened.manager ≡ manager) }
    requires store { S.columns store ≡ manager.schema }
    requires watermark { journal.watermark.cell.table.shared.table_id ≡ O.watermark }
    requires log { (journal.log.device.appended ≡ O.front) × (length O.front ≤ journal.log.device.safe) × (journal.log.seed ≡ O.seed) }
    requires frames { (journal.frames.seed ≡ O.seed) × (journal.frames.table ≡ O.table) }
    requires base { (O.base ≡ O.opened.manager.start.base) × (O.opened.manager.history ≡ []) }
{
    let DurableParts { shared, clients } = open::<O, S, D, R>(
        alloc, manager, store, journal, CLIENTS, fresh, rt,
    )?;
    match run_all(rt, alloc, &shared, clients) {
        Ok((mut back, acknowledged)) => {
            let image = stored(rt, &shared, back.as_mut_slice());
            drop(back);
            let ClosedParts { manager, .. } = shared.close(Vec::new(alloc), rt);
            Ok(Played {
                manager,
                acknowledged,
                image,
            })
        }
        Err(refused) => {
            shared.close(Vec::new(alloc), rt);
            Err(refused.into())
        }
    }
}

/// The same over a store in memory and a journal that begins with these bytes and fails so. The slot gets what the journal leaves.
fn plays_over<R: Threads + Wait + Sync>(
    rt: &R,
    alloc: Global,
    manager: Manager,
    bytes: Vec<u8>,
    failure: Failure,
    left: &Arc<OnceLock<LeftJournal>>,
) -> Result<Played, Fail>
    requires { manager.history ≡ [] }
{
    let slots = empty_slots(alloc, 3)?;
    let mut devices: Vec<Box<dyn ColumnDevice + Send>> = Vec::new(alloc);
    for (number, slot) in slots.iter().enumerate() {
        devices.push(Box::new(alloc, device_over(alloc, slot, number, None)?)?)?;
    }
    if have_failed(&devices) {
        return Err(Fail::new("a device has failed before its first append"));
    }
    let store = Store::new(alloc, devices, manager.version().schema(), 1)?;
    let device = FailingJournal::new(MemJournal::new(bytes, left.clone()?), failure);
    let journal = NewJournal {
        log: Appender::new(alloc, device, SEED),
        frames: FrameSettings {
            seed: SEED,
            table: TABLE,
        },
        watermark: NewWatermark::new(alloc)?,
    };
    let fresh = NewOpening::new(&manager, CLIENTS);
    play::<Brand, Store, FailingJournal, R>(rt, alloc, manager, store, journal, fresh)
}

/// The manager that is recovered of these frames.
fn recovered(alloc: Global, bytes: &[u8]) -> Result<Manager, Fail> {
    let image = Image {
        table: base_table(alloc)?,
        number: 0,
    };
    let limits = Limits {
        row_limit: MAX_ROWS,
        recent: RECENT as usize,
        conflicts: ConflictRule::ByColumn,
    };
    let frames = FrameBytes {
        seed: SEED,
        base: 0,
        bytes,
    };
    Ok(recover(alloc, image, limits, TABLE, frames)?.manager)
}

/// That what a crash leaves is the table after a prefix of the history, with all that was acknowledged.
fn assert_recovered(
    rt: &impl Abort,
    alloc: Global,
    runs: &[&Played],
    bytes: &[u8],
) -> Result<(), Fail> {
    let found = recovered(alloc, bytes)?;
    let number = found.version().number();
    let mut replay = Replay::new(alloc, items(alloc, &BASE)?, RECENT, CLIENTS)?;
    for run in runs {
        assert_holds(
            rt,
            run.acknowledged <= number,
            "an acknowledged commit is lost",
        );
        assert_holds(
            rt,
            replay.goes_on_to(run.manager.history(), number)?,
            "history",
        );
    }
    assert_holds(rt, replay.is_image(&found)?, "rows");
    Ok(())
}

/// That the bytes that a journal has left are recovered, as far as they were durable, whole, and between.
fn assert_left(
    rt: &impl Abort,
    alloc: Global,
    runs: &[&Played],
    left: &LeftJournal,
) -> Result<(), Fail> {
    let (safe, all) = (left.safe, left.bytes.len());
    let middle = safe.wrapping_add(all) / 2;
    for end in [safe, middle, all] {
        match left.bytes.get(..end) {
            Some(bytes) => assert_recovered(rt, alloc, runs, bytes)?,
            None => return Err(Fail::new("more is durable than was written")),
        }
    }
    Ok(())
}

/// What a journal has left in its slot.
fn left_in(slot: &OnceLock<LeftJournal>) -> Result<&LeftJournal, Fail> {
    match slot.get() {
        Some(left) => Ok(left),
        None => Err(Fail::new("the journal has left nothing")),
    }
}

/// Has the clients commit over a journal that fails so, and looks at what it leaves.
fn fails_so<R: Threads + Wait + Abort + Sync>(
    rt: &R,
    alloc: Global,
    failure: Failure,
) -> Result<(), Fail> {
    let slot = Arc::new(alloc, OnceLock::new())?;
    let manager = base_manager(alloc, RECENT as usize, MAX_ROWS)?;
    let run = plays_over(rt, alloc, manager, Vec::new(alloc), failure, &slot)?;
    assert_holds(
        rt,
        run.image.is_err(),
        "an image over a journal that failed",
    );
    assert_left(rt, alloc, &[&run], left_in(&slot)?)
}

#[test]
fn each_failed_sync_leaves_what_was_acknowledged(rt: HostRuntime) -> Result<(), Fail> {
    for turn in 1..=TURNS {
        fails_so(&rt, rt.alloc(), Failure::Sync { turn })?;
    }
    Ok(())
}

#[test]
fn each_failed_append_leaves_what_was_acknowledged(rt: HostRuntime) -> Result<(), Fail> {
    for turn in 1..=TURNS {
        for takes in [0, 20, 1_000_000] {
            fails_so(&rt, rt.alloc(), Failure::Append { turn, takes })?;
        }
    }
    Ok(())
}

#[test]
fn a_journal_that_is_opened_again_has_the_commits_of_both(rt: HostRuntime) -> Result<(), Fail> {
    let alloc = rt.alloc();
    let sound = Failure::Sync { turn: 0 };
    let (slot, next) = (
        Arc::new(alloc, OnceLock::new())?,
        Arc::new(alloc, OnceLock::new())?,
    );
    let manager = base_manager(alloc, RECENT as usize, MAX_ROWS)?;
    let first = plays_over(&rt, alloc, manager, Vec::new(alloc), sound, &slot)?;
    let number = first.manager.version().number();
    assert_holds(&rt, first.image == Ok(number), "the image of all commits");
    let left = left_in(&slot)?;
    assert_left(&rt, alloc, &[&first], left)?;

    let mut manager = recovered(alloc, left.bytes.as_slice())?;
    manager.cut();
    let mut bytes = Vec::new(alloc);
    bytes.extend_from_slice(left.bytes.as_slice())?;
    let second = plays_over(&rt, alloc, manager, bytes, Failure::Sync { turn: 3 }, &next)?;
    assert_left(&rt, alloc, &[&first, &second], left_in(&next)?)
}
