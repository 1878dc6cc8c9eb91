//! Scenes: what the sessions of one manager are answered, in turn, and what they leave.
ghost use Rattle.std.specs.Prelude.{◌≡◌, []};

mod conflicts;
mod cuts;
mod endings;
mod folds;
mod openings;
mod readings;
mod refusals;
mod swaps;
mod tellings;

use crate::acts::{Act, Client, is_answered, is_done};
use crate::assertions::{assert_holds, assert_holds_at};
use crate::managers::base_manager;
use crate::shown::{Recorded, are_records, has_items};
use devices::{ColumnDevice, ReadFault, Store, have_failed, read_store};
use manager::Manager;
use model::{CommitReply, ConflictRule};
use publishing::Opening;
use shared::{Closed, CommitFault, ImageStore, NewOpening, Session, Shared, open};
use std::alloc::Global;
use std::marker::Brand;
use std::process::Abort;
use std::sync::Wait;
use std::test::Fail;
use test_fixtures::{
    BASE, Item, Slot, all_left_in, device_over, empty_slots, entries_text, item_columns,
};
use values::NoMemory;
use values::limits::MAX_ROWS;

/// What sessions are asked over the base table, in turn, and what they leave.
#[derive(Clone, Copy)]
pub(crate) struct Scene {
    /// How many commits may come between a begin and its commit.
    recent: usize,
    /// How many rows the table may have.
    limit: u64,
    clients: u32,
    /// The generation of the store's first image.
    first: u32,
    steps: &'static [(Client, Act)],
    last: Option<Last>,
    left: Left,
    /// What the last client does after the others have closed, where it does anything.
    after: &'static [Act],
    /// The generation of the table that is stored, and its rows.
    stored: Option<(u32, &'static [Item])>,
}

/// A last commit. Where a growth is refused in it, steps follow in its place, and something else is left.
#[derive(Clone, Copy)]
pub(crate) struct Last {
    client: Client,
    reply: CommitReply,
    instead: &'static [(Client, Act)],
    left: Left,
}

/// How many rows the stable table has, and the entries of the Read- and of the Write-PDT.
pub(crate) type Layers = (u64, &'static str, &'static str);

/// What is left of the manager, and of the sessions that are handed back.
#[derive(Clone, Copy)]
pub(crate) struct Left {
    /// How many commit replies each session got.
    counts: &'static [u64],
    /// How many those got that were dropped.
    lost: u64,
    /// The number at which the history starts.
    base: u64,
    records: &'static [Recorded],
    rows: &'static [Item],
    /// The layers, where they are compared.
    layers: Option<Layers>,
}

/// Two clients, and the limits of the program.
const PLAIN: Scene = Scene {
    recent: 64,
    limit: MAX_ROWS,
    clients: 2,
    first: 1,
    steps: &[],
    last: None,
    left: NONE,
    after: &[],
    stored: None,
};

/// Two sessions that got no replies, and the base table.
const NONE: Left = Left {
    counts: &[0, 0],
    lost: 0,
    base: 0,
    records: &[],
    rows: &BASE,
    layers: None,
};

/// That each step is answered as is due.
fn assert_steps<O: Opening, S: ImageStore, R: Wait + Abort>(
    rt: &R,
    alloc: Global,
    shared: &Shared<O, S>,
    sessions: &mut Vec<Session<O>>,
    steps: &[(Client, Act)],
) -> Result<(), Fail> {
    for (place, (client, act)) in steps.iter().enumerate() {
        let answered = is_answered(rt, alloc, shared, sessions, *client, *act)?;
        assert_holds_at(rt, answered, place);
    }
    Ok(())
}

/// What is left once each step was answered as is due, and the last commit so or refused.
fn assert_played<O: Opening, S: ImageStore, R: Wait + Abort>(
    rt: &R,
    alloc: Global,
    shared: &Shared<O, S>,
    sessions: &mut Vec<Session<O>>,
    scene: &Scene,
) -> Result<Left, Fail> {
    assert_steps(rt, alloc, shared, sessions, scene.steps)?;
    let Some(last) = scene.last else {
        return Ok(scene.left);
    };
    let Some(session) = sessions.get_mut(last.client) else {
        return Err(Fail::new("no such client"));
    };
    match shared.commit(session, rt) {
        Err(CommitFault::NoMemory) => {
            assert_steps(rt, alloc, shared, sessions, last.instead)?;
            Ok(last.left)
        }
        answer => {
            assert_holds(rt, answer == Ok(last.reply), "the last commit");
            Ok(scene.left)
        }
    }
}

/// That the session is answered so after the end.
fn assert_after<O: Opening>(
    rt: &impl Abort,
    alloc: Global,
    mut session: Session<O>,
    acts: &[Act],
) -> Result<(), Fail> {
    for (place, act) in acts.iter().enumerate() {
        let answered = is_done(alloc, &mut session, *act)?;
        assert_holds_at(rt, answered, place);
    }
    Ok(())
}

/// How many records were made.
fn made_in(left: &Left) -> u64 {
    left.counts
        .iter()
        .fold(left.lost, |sum, count| sum.wrapping_add(*count))
}

/// Whether the manager has these layers, where they are compared.
fn has_layers(alloc: Global, manager: &Manager, due: Option<Layers>) -> Result<bool, NoMemory> {
    let Some((rows, read, write)) = due else {
        return Ok(true);
    };
    let in_read = entries_text(alloc, manager.read_tree().iter())?;
    let in_write = entries_text(alloc, manager.write_tree().iter())?;
    Ok(manager.stable().len() == rows && in_read.as_str() == read && in_write.as_str() == write)
}

/// Whether the manager keeps these records.
fn has_records(manager: &Manager, due: &[Recorded]) -> bool {
    match manager.history().records() {
        Some(records) => are_records(records, due),
        None => false,
    }
}

/// That this is left.
fn assert_left<S: ImageStore>(
    rt: &impl Abort,
    alloc: Global,
    closed: &Closed<S>,
    left: &Left,
) -> Result<(), NoMemory> {
    let manager = &closed.manager;
    assert_holds(rt, closed.counts.as_slice() == left.counts, "counts");
    assert_holds(rt, manager.made() == made_in(left), "records in all");
    assert_holds(rt, manager.base() == left.base, "base");
    assert_holds(rt, has_records(manager, left.records), "records");
    assert_holds(rt, has_items(manager, left.rows), "rows");
    assert_holds(rt, has_layers(alloc, manager, left.layers)?, "layers");
    Ok(())
}

/// Plays the scene between the sessions of the manager, and closes them.
fn play_in<O: Opening, S: ImageStore, R: Wait + Abort>(
    rt: &R,
    alloc: Global,
    manager: Manager,
    store: S,
    fresh: NewOpening,
    scene: &Scene,
) -> Result<(), Fail>
    requires name { (fresh.blank.name ≡ O.name) × (fresh.blank.parts ≡ O.parts) × (O.clients ≡ O.parts) × (O.clients ≡ scene.now.clients) }
    requires opening { (fresh.book.list.opening ≡ O.opened) × (fresh.book.list.list ≡ []) × (O.opened.manager ≡ manager) }
    requires store { S.columns store ≡ manager.schema }
{
    let (shared, mut sessions) = open::<O, S, R>(alloc, manager, store, scene.clients, fresh, rt)?;
    let played = assert_played(rt, alloc, &shared, &mut sessions, scene);
    let aside = match scene.after {
        [] => None,
        _ => sessions.pop(),
    };
    let closed = shared.close(sessions, rt);
    assert_left(rt, alloc, &closed, &played?)?;
    match aside {
        Some(session) => assert_after(rt, alloc, session, scene.after),
        None => Ok(()),
    }
}

/// That this is stored.
fn assert_stored(
    rt: &impl Abort,
    alloc: Global,
    slots: &[Slot],
    due: Option<(u32, &'static [Item])>,
) -> Result<(), Fail> {
    let columns = all_left_in(alloc, slots)?;
    match (read_store(alloc, &item_columns(alloc)?, &columns), due) {
        (Ok(image), Some((generation, rows))) => {
            assert_holds(rt, image.generation == generation, "generation");
            let stored = Manager::open(alloc, image.table, 1, MAX_ROWS, ConflictRule::ByColumn)?;
            assert_holds(rt, has_items(&stored, rows), "stored rows");
        }
        (Err(ReadFault::NoImage), None) => {}
        (Err(fault), _) => return Err(fault.into()),
        (Ok(_), None) => assert_holds(rt, false, "nothing is stored"),
    }
    Ok(())
}

/// Plays the scene over a manager of the base table and a new store of its columns.
fn play<R: Wait + Abort>(rt: &R, alloc: Global, scene: &Scene) -> Result<(), Fail> {
    let slots = empty_slots(alloc, 3)?;
    play_over(rt, alloc, scene, &slots)?;
    assert_stored(rt, alloc, &slots, scene.stored)
}

/// The same, each device leaving its bytes in a slot.
fn play_over<R: Wait + Abort>(
    rt: &R,
    alloc: Global,
    scene: &Scene,
    slots: &[Slot],
) -> Result<(), Fail> {
    let mut devices: Vec<Box<dyn ColumnDevice + Send>> = Vec::new(alloc);
    for (number, slot) in slots.iter().enumerate() {
        devices.push(Box::new(alloc, device_over(alloc, slot, number, None)?)?)?;
    }
    if have_failed(&devices) {
        return Err(Fail::new("a device has failed before its first append"));
    }
    let manager = base_manager(alloc, scene.recent, scene.limit)?;
    let store = Store::new(alloc, devices, manager.version().schema(), scene.first)?;
    let fresh = NewOpening::new(&manager, scene.clients);
    play_in::<Brand, Store, R>(rt, alloc, manager, store, fresh, scene)
}
