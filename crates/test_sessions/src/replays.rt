//! Many commits of sessions on threads of their own. What they are answered hangs on the schedule, and a plain replay of the
//! history gives it.
ghost use Rattle.std.specs.Prelude.{◌≡◌, []};

mod record_replay;

use crate::acts::written;
use crate::assertions::{assert_holds, assert_holds_at};
use crate::managers::base_manager;
use devices::{ColumnDevice, Store, have_failed};
use manager::{History, Manager};
use model::CommitReply;
use publishing::Opening;
pub(crate) use record_replay::Replay;
use shared::{Closed, ImageStore, NewOpening, Session, Shared, open};
use std::alloc::Global;
use std::marker::Brand;
use std::process::Abort;
use std::sync::Wait;
use std::test::Fail;
use std::thread::{Threads, map_vec};
use test_fixtures::{BASE, ItemWrite, device_over, empty_slots, items};
use values::NoMemory;
use values::limits::MAX_ROWS;

const CLIENTS: u32 = 8;

/// How often a client commits.
const ROUNDS: u32 = 125;

/// The layers are folded once in so many rounds of the first client.
const FOLDS: u32 = 10;

/// The history is cut once in so many rounds of the first client.
const CUTS: u32 = 25;

/// So few that a transaction may come too late.
const RECENT: u32 = 16;

/// What a client's thread gives back: its session, the replies to its commits, and the histories that it cut off.
type Ran<O> = (Session<O>, Vec<CommitReply>, Vec<History>);

/// What was heard from all threads: the replies by client, and the histories in order.
#[derive(Drop)]
struct Heard {
    replies: Vec<Vec<CommitReply>>,
    histories: Vec<History>,
}

/// What a client writes in a round: to a row of its own, and to one that all share.
fn asked(client: u32, round: u32) -> [ItemWrite; 2] {
    let number = i64::from(round);
    let own = i64::from(client)
        .wrapping_add(1)
        .wrapping_mul(1_000)
        .wrapping_add(number / 4);
    match round % 4 {
        0 => [
            ItemWrite::Insert(own, "Own", number),
            ItemWrite::Set(10, number),
        ],
        1 => [ItemWrite::Set(own, number), ItemWrite::Set(20, number)],
        2 => [ItemWrite::Name(own, "Old"), ItemWrite::Name(20, "Bea")],
        _ => [ItemWrite::Delete(own), ItemWrite::Insert(40, "All", number)],
    }
}

/// Whether the writes are answered.
fn writes<O: Opening>(alloc: Global, session: &mut Session<O>, asked: [ItemWrite; 2]) -> bool {
    let [own, common] = asked;
    written(alloc, session, own).is_ok() && written(alloc, session, common).is_ok()
}

/// Whether a transaction begins, writes and gets a commit reply, which is kept.
fn commits<O: Opening, S: ImageStore, R: Wait>(
    rt: &R,
    alloc: Global,
    shared: &Shared<O, S>,
    session: &mut Session<O>,
    round: u32,
    replies: &mut Vec<CommitReply>,
) -> bool {
    let asked = asked(session.client(), round);
    if session.begin().is_err() || !writes(alloc, session, asked) {
        return false;
    }
    match shared.commit(session, rt) {
        Ok(reply) => replies.push(reply).is_ok(),
        Err(_) => false,
    }
}

/// Whether the layers are folded and the history is cut where that is due after a round. What is cut off is kept.
fn tidies<O: Opening, S: ImageStore, R: Wait>(
    rt: &R,
    shared: &Shared<O, S>,
    round: u32,
    histories: &mut Vec<History>,
) -> bool {
    if round % FOLDS == 1 && shared.fold(rt).is_err() {
        return false;
    }
    if round % CUTS != 1 {
        return true;
    }
    match shared.cut(rt) {
        Ok(history) => histories.push(history).is_ok(),
        Err(NoMemory) => false,
    }
}

/// A client's rounds, up to the first in which something is refused. The first client folds and cuts between them.
fn run<O: Opening, S: ImageStore, R: Wait>(
    rt: &R,
    alloc: Global,
    shared: &Shared<O, S>,
    mut session: Session<O>,
) -> Ran<O> {
    let first = session.client() == 0;
    let (mut replies, mut histories) = (Vec::new(alloc), Vec::new(alloc));
    for round in 0..ROUNDS {
        if !commits(rt, alloc, shared, &mut session, round, &mut replies)
            || first && !tidies(rt, shared, round, &mut histories)
        {
            break;
        }
    }
    (session, replies, histories)
}

/// The sessions, and what their threads heard.
fn parted<O: Opening>(
    alloc: Global,
    ran: Vec<Ran<O>>,
) -> Result<(Vec<Session<O>>, Heard), NoMemory> {
    let mut sessions = Vec::new(alloc);
    let mut replies = Vec::new(alloc);
    let mut all = Vec::new(alloc);
    for (session, own, mut histories) in ran {
        sessions.push(session)?;
        replies.push(own)?;
        all.append(&mut histories)?;
    }
    Ok((
        sessions,
        Heard {
            replies,
            histories: all,
        },
    ))
}

/// Runs each session on a thread of its own.
fn run_all<O: Opening + Send + Sync, S: ImageStore + Send, R: Threads + Wait + Sync>(
    rt: &R,
    alloc: Global,
    shared: &Shared<O, S>,
    sessions: Vec<Session<O>>,
) -> Result<(Vec<Session<O>>, Heard), NoMemory> {
    let one = move |session| -> Ran<O> { run(rt, alloc, shared, session) };
    let ran = map_vec(rt, sessions, &one)?;
    parted(alloc, ran)
}

/// That the slow program answers as the clients were answered, and comes to the manager's rows.
fn assert_replayed<S: ImageStore>(
    rt: &impl Abort,
    alloc: Global,
    closed: &Closed<S>,
    heard: &Heard,
) -> Result<(), Fail> {
    let mut replay = Replay::new(alloc, items(alloc, &BASE)?, RECENT, CLIENTS)?;
    for (place, history) in heard.histories.iter().enumerate() {
        assert_holds_at(rt, replay.goes_on(history)?, place);
    }
    assert_holds(rt, replay.goes_on(closed.manager.history())?, "records");
    assert_holds(rt, replay.replies() == heard.replies.as_slice(), "replies");
    assert_holds(rt, replay.is_image(&closed.manager)?, "rows");
    Ok(())
}

/// Has each client make its rounds, and looks at what is left.
fn play<O: Opening + Send + Sync, S: ImageStore + Send, R: Threads + Wait + Abort + Sync>(
    rt: &R,
    alloc: Global,
    manager: Manager,
    store: S,
    fresh: NewOpening,
) -> Result<(), Fail>
    requires name { (fresh.blank.name ≡ O.name) × (fresh.blank.parts ≡ O.parts) × (O.clients ≡ O.parts) × (O.clients ≡ 8) }
    requires opening { (fresh.book.list.opening ≡ O.opened) × (fresh.book.list.list ≡ []) × (O.opened.manager ≡ manager) }
    requires store { S.columns store ≡ manager.schema }
{
    let (shared, sessions) = open::<O, S, R>(alloc, manager, store, CLIENTS, fresh, rt)?;
    match run_all(rt, alloc, &shared, sessions) {
        Ok((back, heard)) => {
            let closed = shared.close(back, rt);
            if closed.counts.as_slice() != [u64::from(ROUNDS); 8].as_slice() {
                return Err(Fail::new("a call of a client was refused"));
            }
            assert_replayed(rt, alloc, &closed, &heard)
        }
        Err(refused) => {
            shared.close(Vec::new(alloc), rt);
            Err(refused.into())
        }
    }
}

#[test]
fn a_thousand_commits_on_eight_threads_are_replayed(rt: HostRuntime) -> Result<(), Fail> {
    let alloc = rt.alloc();
    let slots = empty_slots(alloc, 3)?;
    let mut devices: Vec<Box<dyn ColumnDevice + Send>> = Vec::new(alloc);
    for (number, slot) in slots.iter().enumerate() {
        devices.push(Box::new(alloc, device_over(alloc, slot, number, None)?)?)?;
    }
    if have_failed(&devices) {
        return Err(Fail::new("a device has failed before its first append"));
    }
    let manager = base_manager(alloc, RECENT as usize, MAX_ROWS)?;
    let store = Store::new(alloc, devices, manager.version().schema(), 1)?;
    let fresh = NewOpening::new(&manager, CLIENTS);
    play::<Brand, Store, _>(&rt, alloc, manager, store, fresh)
}
