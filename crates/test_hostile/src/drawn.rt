//! Scripts drawn by chance, of two to eight clients, beside the slow program: on threads of their own, where a replay of
//! the history gives what each was told, and in order, with cuts and failing devices among the calls.
ghost use Rattle.std.specs.Prelude.{◌<◌, ◌≡◌};

mod asked;
mod judged;
mod lines;
mod past;
mod seat;
mod serial;

use crate::assertions::assert_holds;
use crate::yielding::{Devices, Texts, run_yielding};
use asked::{Call, WITH_CUTS, WITHOUT_CUTS, drawn_calls, script_of};
use devices::{ReadFault, Store, have_failed, read_store};
use judged::{Ran, difference_in_order, difference_on_threads};
use model::ConflictRule;
use past::Past;
use pdtcli::{Left, OpenOptions, Opened, open_texts, run_serial, show, show_store};
use serial::Serial;
use std::alloc::Global;
use std::process::Abort;
use std::sync::Wait;
use std::test::Fail;
use std::thread::Threads;
use test_fixtures::{BASE, Draws, Failure, Slot, all_left_in, device_over, empty_slots, items};

/// The base table as a file.
const TABLE: &[u8] = b"id:int:key,name:text,qty:int\n10,Ann,1\n20,Bob,2\n30,Cid,3\n";

/// How many calls are drawn for each client, and how many in each hundredth script.
const CALLS: u64 = 20;

const MANY_CALLS: u64 = 250;

/// Replies that have to be met in the runs of a test.
static REPLIES: [&str; 6] = [
    ",Committed,",
    ",Conflict,",
    ",TooOld,",
    ",commit,Full,",
    ",insert,Full",
    ",Duplicate",
];

/// What is drawn by a seed.
#[derive(Drop)]
struct Drawn {
    clients: u64,
    options: OpenOptions,
    failing: Option<Failure>,
    calls: Vec<Call>,
    past: Past,
}

/// So few rows and recent commits that an insert or a commit is Full now and then, and a transaction comes too late.
fn draw_options(draws: &mut Draws) -> OpenOptions {
    OpenOptions {
        recent: draws.below(20).wrapping_add(1) as usize,
        limit: draws.below(5).wrapping_add(4),
        conflicts: match draws.below(2) {
            0 => ConflictRule::ByColumn,
            _ => ConflictRule::ByRow,
        },
    }
}

/// In every second store a device fails after its header.
fn draw_failure(draws: &mut Draws) -> Option<Failure> {
    let failure = Failure {
        device: draws.below(3) as usize,
        turn: draws.below(6).wrapping_add(2),
        takes: draws.below(9) as usize,
    };
    match draws.below(2) {
        0 => Some(failure),
        _ => None,
    }
}

/// A script of two to eight clients, with what is before its run.
fn draw(alloc: Global, seed: u64, kinds: u64) -> Result<Drawn, Fail>
    requires { 0 < kinds }
{
    let mut draws = Draws::new(seed);
    let clients = draws.below(7) + 2;
    let options = draw_options(&mut draws);
    let failing = draw_failure(&mut draws);
    let each = if seed % 100 == 0 { MANY_CALLS } else { CALLS };
    let count = clients.wrapping_mul(each);
    let calls = drawn_calls(alloc, &mut draws, clients, count, kinds)?;
    let past = Past::new(alloc, options, items(alloc, &BASE)?)?;
    Ok(Drawn {
        clients,
        options,
        failing,
        calls,
        past,
    })
}

/// The image in the slots' columns, as a file, with its generation; none where they have none.
fn stored_in(alloc: Global, left: &Left, slots: &[Slot]) -> Result<Option<(u64, String)>, Fail> {
    let newest = left.manager().newest();
    let columns = all_left_in(alloc, slots)?;
    let image = match read_store(alloc, newest.schema(), columns.as_slice()) {
        Ok(image) => image,
        Err(ReadFault::NoImage) => return Ok(None),
        Err(fault) => return Err(fault.into()),
    };
    let mut out = Vec::new(alloc);
    show_store(alloc, newest.schema(), &image, &mut out)?;
    let text = String::from_str(alloc, str::from_utf8(out.as_slice())?)?;
    Ok(Some((u64::from(image.generation), text)))
}

/// What is left of a run, and what it writes.
fn ran(alloc: Global, left: Left, slots: &[Slot]) -> Result<Ran, Fail> {
    let mut out = Vec::new(alloc);
    show(alloc, &left, &mut out)?;
    let stored = stored_in(alloc, &left, slots)?;
    Ok(Ran { left, out, stored })
}

/// Runs the script in order.
fn run_in_order(alloc: Global, drawn: &Drawn) -> Result<Ran, Fail> {
    let script = script_of(alloc, drawn.calls.as_slice())?;
    let texts = (TABLE, script.as_str().as_bytes(), drawn.options);
    let slots = empty_slots(alloc, 3)?;
    let left = left_in_order(alloc, texts, slots.as_slice(), drawn.failing)?;
    ran(alloc, left, slots.as_slice())
}

/// What is left of a run in order, with a slot for each column.
fn left_in_order(
    alloc: Global,
    texts: Texts<'_>,
    slots: &[Slot],
    failing: Option<Failure>,
) -> Result<Left, Fail> {
    let mut devices: Devices = Vec::new(alloc);
    for (device, slot) in slots.iter().enumerate() {
        devices.push(Box::new(alloc, device_over(alloc, slot, device, failing)?)?)?;
    }
    left_by(alloc, devices, texts)
}

/// The same with a store of these devices.
fn left_by(
    alloc: Global,
    devices: Devices,
    (table, script, options): Texts<'_>,
) -> Result<Left, Fail> {
    if have_failed(devices.as_slice()) {
        return Err(Fail::new("a device has failed before its first append"));
    }
    let opened = open_texts(alloc, Ok(table), Ok(script), options)?;
    let store = Store::new(alloc, devices, opened.schema(), 1)?;
    left_over(alloc, opened, store)
}

/// The same over what was opened, and this store.
fn left_over(alloc: Global, opened: Opened, store: Store) -> Result<Left, Fail>
    requires script { opened.script.schema ≡ opened.manager.schema }
    requires store { store.schema ≡ opened.manager.schema }
{
    let Opened { manager, script } = opened;
    let outcome = run_serial(alloc, manager, store, script)?;
    Ok(outcome.left)
}

/// Runs the script with each client on a thread of its own.
fn run_on_threads<R: Threads + Wait + Sync>(
    rt: &R,
    alloc: Global,
    drawn: &Drawn,
) -> Result<Ran, Fail> {
    let script = script_of(alloc, drawn.calls.as_slice())?;
    let texts = (TABLE, script.as_str().as_bytes(), drawn.options);
    let slots = empty_slots(alloc, 3)?;
    let left = run_yielding(rt, alloc, texts, slots.as_slice(), drawn.clients)?;
    ran(alloc, left, slots.as_slice())
}

/// That nothing differs, or the seed.
fn assert_same(rt: &impl Abort, seed: u64, difference: Option<&'static str>) {
    if let Some(what) = difference {
        assert!(rt; false, "seed {seed}: {what} differs");
    }
}

/// Marks the replies that are met.
fn meet(met: &mut [bool; 6], ran: &Ran) {
    for (place, reply) in REPLIES.iter().enumerate() {
        if ran.told().contains(*reply) {
            met[place] = true;
        }
    }
}

/// What differs between a run on threads and a replay of its history.
fn replayed(drawn: Drawn, ran: &Ran) -> Result<Option<&'static str>, Fail> {
    let Drawn {
        calls,
        mut past,
        ..
    } = drawn;
    Ok(difference_on_threads(&mut past, calls.as_slice(), ran)?)
}

/// Judges the run of a seed's script on threads.
fn judge_one_on_threads<R: Threads + Wait + Sync + Abort>(
    rt: &R,
    alloc: Global,
    seed: u64,
    met: &mut [bool; 6],
) -> Result<(), Fail> {
    let drawn = draw(alloc, seed, WITHOUT_CUTS)?;
    let ran = run_on_threads(rt, alloc, &drawn)?;
    assert_same(rt, seed, replayed(drawn, &ran)?);
    meet(met, &ran);
    Ok(())
}

/// Judges the runs of the scripts of these seeds on threads.
fn judge_on_threads<R: Threads + Wait + Sync + Abort>(
    rt: &R,
    alloc: Global,
    (first, end): (u64, u64),
) -> Result<(), Fail> {
    let mut met = [false; 6];
    for seed in first..end {
        judge_one_on_threads(rt, alloc, seed, &mut met)?;
    }
    assert_holds(rt, met == [true; 6], "each reply is met");
    Ok(())
}

/// What the slow program makes of what was drawn.
fn serial_of(alloc: Global, drawn: Drawn) -> Result<Serial, Fail> {
    let Drawn {
        clients,
        failing,
        calls,
        past,
        ..
    } = drawn;
    Ok(Serial::new(alloc, past, clients, failing)?.after(calls.as_slice())?)
}

/// Judges the run of a seed's script in order.
fn judge_one_in_order(
    rt: &impl Abort,
    alloc: Global,
    seed: u64,
    met: &mut [bool; 6],
) -> Result<(), Fail> {
    let drawn = draw(alloc, seed, WITH_CUTS)?;
    let ran = run_in_order(alloc, &drawn)?;
    let serial = serial_of(alloc, drawn)?;
    assert_same(rt, seed, difference_in_order(&serial, &ran)?);
    meet(met, &ran);
    Ok(())
}

/// Judges the runs of the scripts of these seeds in order.
fn judge_in_order(rt: &impl Abort, alloc: Global, (first, end): (u64, u64)) -> Result<(), Fail> {
    let mut met = [false; 6];
    for seed in first..end {
        judge_one_in_order(rt, alloc, seed, &mut met)?;
    }
    assert_holds(rt, met == [true; 6], "each reply is met");
    Ok(())
}

#[test]
fn drawn_scripts_run_on_threads(rt: HostRuntime) -> Result<(), Fail> {
    judge_on_threads(&rt, rt.alloc(), (0, 250))
}

#[test]
fn drawn_scripts_run_on_threads_a_second_time(rt: HostRuntime) -> Result<(), Fail> {
    judge_on_threads(&rt, rt.alloc(), (250, 500))
}

#[test]
fn drawn_scripts_run_on_threads_a_third_time(rt: HostRuntime) -> Result<(), Fail> {
    judge_on_threads(&rt, rt.alloc(), (500, 750))
}

#[test]
fn drawn_scripts_run_on_threads_a_fourth_time(rt: HostRuntime) -> Result<(), Fail> {
    judge_on_threads(&rt, rt.alloc(), (750, 1_000))
}

#[test]
fn drawn_scripts_run_in_order(rt: HostRuntime) -> Result<(), Fail> {
    judge_in_order(&rt, rt.alloc(), (1_000, 1_200))
}

#[test]
fn drawn_scripts_run_in_order_a_second_time(rt: HostRuntime) -> Result<(), Fail> {
    judge_in_order(&rt, rt.alloc(), (1_200, 1_400))
}
