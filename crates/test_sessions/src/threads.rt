//! Sessions on two threads. What they are answered is the same whatever the schedule.
ghost use Rattle.std.specs.Prelude.{◌≡◌, []};

use crate::assertions::assert_holds;
use crate::managers::base_manager;
use crate::shown::{has_items, is_item};
use devices::{ColumnDevice, Store, have_failed};
use manager::Manager;
use model::{CommitReply, WriteReply};
use publishing::Opening;
use shared::{Closed, ImageStore, NewOpening, Session, Shared, open};
use std::alloc::Global;
use std::marker::Brand;
use std::process::Abort;
use std::sync::Wait;
use std::test::Fail;
use std::thread::{Threads, join};
use test_fixtures::{device_over, empty_slots, item, key};
use values::limits::MAX_ROWS;
use values::{Key, NoMemory, Row, Value};

/// How often a session begins.
const TURNS: u64 = 50;

/// Whether the row that was inserted is third of four.
fn is_inserted<O: Opening>(session: &Session<O>) -> bool {
    match session.row_at(2) {
        Ok(Some(view)) => session.len() == Ok(4) && is_item(&view, (25, "Dee", 4)),
        _ => false,
    }
}

/// Whether a session begins, writes, reads its write and aborts. It has nothing by which it could wait.
fn glances<O: Opening>(session: &mut Session<O>, row: Row) -> bool {
    session.begin() == Ok(())
        && session.insert(row) == Ok(WriteReply::Done)
        && is_inserted(session)
        && session.abort() == Ok(())
}

/// How many of these rows a session inserts, each in a transaction that it aborts.
fn glances_at_all<O: Opening>(session: &mut Session<O>, rows: Vec<Row>) -> u64 {
    let mut count = 0_u64;
    for row in rows {
        if glances(session, row) {
            count = count.wrapping_add(1);
        }
    }
    count
}

/// Whether a session sets a cell and commits that.
fn works<O: Opening, S: ImageStore, R: Wait>(
    rt: &R,
    shared: &Shared<O, S>,
    session: &mut Session<O>,
    key: &Key,
    turn: u64,
) -> bool {
    session.begin() == Ok(())
        && session.set(key, 2, Value::Int(7)) == Ok(WriteReply::Done)
        && shared.commit(session, rt) == Ok(CommitReply::Committed(turn.wrapping_add(1)))
}

/// How many times a session does so.
fn works_often<O: Opening, S: ImageStore, R: Wait>(
    rt: &R,
    shared: &Shared<O, S>,
    session: &mut Session<O>,
    key: &Key,
) -> u64 {
    let mut count = 0_u64;
    for turn in 0..TURNS {
        if works(rt, shared, session, key, turn) {
            count = count.wrapping_add(1);
        }
    }
    count
}

/// As many rows as there are turns.
fn rows(alloc: Global) -> Result<Vec<Row>, NoMemory> {
    let mut rows = Vec::new(alloc);
    for _ in 0..TURNS {
        rows.push(item(alloc, 25, "Dee", 4)?)?;
    }
    Ok(rows)
}

/// How many times each of two sessions does so, both at once on two threads.
fn both_glance<O: Opening + Send + Sync, R: Threads + Sync>(
    rt: &R,
    alloc: Global,
    a: &mut Session<O>,
    b: &mut Session<O>,
) -> Result<(u64, u64), NoMemory> {
    let (own, other) = (rows(alloc)?, rows(alloc)?);
    let both = join(rt, || glances_at_all(a, own), || glances_at_all(b, other));
    Ok(both)
}

/// How many times the one does so while the other one commits, and how many times that does.
fn one_works<O: Opening + Send + Sync, S: ImageStore + Send, R: Threads + Wait + Sync>(
    rt: &R,
    alloc: Global,
    shared: &Shared<O, S>,
    a: &mut Session<O>,
    b: &mut Session<O>,
) -> Result<(u64, u64), NoMemory> {
    let (ten, last) = (key(alloc, 10)?, rows(alloc)?);
    let one = join(
        rt,
        || glances_at_all(a, last),
        || works_often(rt, shared, b, &ten),
    );
    Ok(one)
}

/// Whether two sessions take all their turns, first both and then the one while the other one commits.
fn take_turns<O: Opening + Send + Sync, S: ImageStore + Send, R: Threads + Wait + Sync>(
    rt: &R,
    alloc: Global,
    shared: &Shared<O, S>,
    sessions: &mut Vec<Session<O>>,
) -> Result<bool, NoMemory> {
    let [a, b] = sessions.as_mut_slice() else {
        return Ok(false);
    };
    let both = both_glance(rt, alloc, a, b)?;
    let one = one_works(rt, alloc, shared, a, b)?;
    Ok(both == (TURNS, TURNS) && one == (TURNS, TURNS))
}

/// That the other one's commits are counted, and the last of them is the newest.
fn assert_closed<S: ImageStore>(rt: &impl Abort, closed: &Closed<S>) {
    let counts = closed.counts.as_slice();
    assert_holds(rt, counts == [0, TURNS].as_slice(), "counts");
    let rows = [(10, "Ann", 7), (20, "Bob", 2), (30, "Cid", 3)];
    assert_holds(rt, has_items(&closed.manager, &rows), "rows");
}

/// Two sessions on two threads: both begin and abort, and then one does while the other one commits.
fn play<O: Opening + Send + Sync, S: ImageStore + Send, R: Threads + Wait + Abort + Sync>(
    rt: &R,
    alloc: Global,
    manager: Manager,
    store: S,
    fresh: NewOpening,
) -> Result<(), Fail>
    requires name { (fresh.blank.name ≡ O.name) × (fresh.blank.parts ≡ O.parts) × (O.clients ≡ O.parts) × (O.clients ≡ 2) }
    requires opening { (fresh.book.list.opening ≡ O.opened) × (fresh.book.list.list ≡ []) × (O.opened.manager ≡ manager) }
    requires store { S.columns store ≡ manager.schema }
{
    let (shared, mut sessions) = open::<O, S, R>(alloc, manager, store, 2, fresh, rt)?;
    let taken = take_turns(rt, alloc, &shared, &mut sessions);
    let closed = shared.close(sessions, rt);
    assert_closed(rt, &closed);
    assert_holds(rt, taken?, "turns");
    Ok(())
}

#[test]
fn sessions_on_two_threads_wait_for_nobody(rt: HostRuntime) -> Result<(), Fail> {
    let alloc = rt.alloc();
    let slots = empty_slots(alloc, 3)?;
    let mut devices: Vec<Box<dyn ColumnDevice + Send>> = Vec::new(alloc);
    for (number, slot) in slots.iter().enumerate() {
        devices.push(Box::new(alloc, device_over(alloc, slot, number, None)?)?)?;
    }
    if have_failed(&devices) {
        return Err(Fail::new("a device has failed before its first append"));
    }
    let manager = base_manager(alloc, 64, MAX_ROWS)?;
    let store = Store::new(alloc, devices, manager.version().schema(), 1)?;
    let fresh = NewOpening::new(&manager, 2);
    play::<Brand, Store, _>(&rt, alloc, manager, store, fresh)
}
