//! Another store in the place of the held one.
ghost use Rattle.std.specs.Prelude.{◌≡◌, []};

use super::{assert_steps, assert_stored};
use crate::acts::{Act, Client};
use crate::assertions::assert_holds;
use crate::managers::base_manager;
use devices::{ColumnDevice, Store, have_failed};
use manager::{CheckpointFault, Manager};
use model::CommitReply::Committed;
use model::WriteReply::Done;
use publishing::Opening;
use shared::{ImageStore, NewOpening, Session, Shared, open};
use std::alloc::Global;
use std::marker::Brand;
use std::process::Abort;
use std::sync::Wait;
use std::test::Fail;
use test_fixtures::ItemWrite::Insert;
use test_fixtures::{BASE, Failure, Item, Slot, base_table, device_over, empty_slots, schema};
use values::limits::MAX_ROWS;
use values::{ColumnType, Schema};

/// The devices of a store, one for each column.
type Devices = Vec<Box<dyn ColumnDevice + Send>>;

/// What is asked before a swap and after it, the device of the first store that fails, and whether the store is taken.
struct Swap {
    failing: Option<Failure>,
    before: &'static [(Client, Act)],
    is_taken: bool,
    after: &'static [(Client, Act)],
}

/// The base table with a row before all others.
const FOUR: [Item; 4] = [
    (5, "Eve", 0),
    (10, "Ann", 1),
    (20, "Bob", 2),
    (30, "Cid", 3),
];

/// The second device fails in the second image.
static FAILED: Swap = Swap {
    failing: Some(Failure {
        device: 1,
        turn: 3,
        takes: 5,
    }),
    before: &[
        (0, Act::Checkpoint(1)),
        (0, Act::Begin),
        (0, Act::Write(Insert(5, "Eve", 0), Done)),
        (0, Act::Commit(Committed(1))),
        (0, Act::NoCheckpoint(CheckpointFault::DeviceFailed(1))),
        (0, Act::NoCheckpoint(CheckpointFault::StoreFailed)),
    ],
    is_taken: true,
    after: &[(0, Act::Checkpoint(1))],
};

/// The store that is offered is of other columns.
static REFUSED: Swap = Swap {
    failing: None,
    before: &[(0, Act::Checkpoint(1))],
    is_taken: false,
    after: &[
        (0, Act::Begin),
        (0, Act::Write(Insert(5, "Eve", 0), Done)),
        (0, Act::Commit(Committed(1))),
        (0, Act::Checkpoint(2)),
    ],
};

/// Plays the swap of the held store for another, between calls of one session.
fn assert_swapped<O: Opening, S: ImageStore, R: Wait + Abort>(
    rt: &R,
    alloc: Global,
    shared: &Shared<O, S>,
    sessions: &mut Vec<Session<O>>,
    other: S,
    swap: &Swap,
) -> Result<(), Fail> {
    assert_steps(rt, alloc, shared, sessions, swap.before)?;
    let is_taken = shared.swap_store(other, rt).is_ok();
    assert_holds(rt, is_taken == swap.is_taken, "taken");
    assert_steps(rt, alloc, shared, sessions, swap.after)
}

/// Opens one session over the manager and its store, plays the swap for another one, and closes it.
fn swap_in<O: Opening, S: ImageStore, R: Wait + Abort>(
    rt: &R,
    alloc: Global,
    manager: Manager,
    store: S,
    other: S,
    fresh: NewOpening,
    swap: &Swap,
) -> Result<(), Fail>
    requires name { (fresh.blank.name ≡ O.name) × (fresh.blank.parts ≡ O.parts) × (O.clients ≡ O.parts) × (O.clients ≡ 1) }
    requires opening { (fresh.book.list.opening ≡ O.opened) × (fresh.book.list.list ≡ []) × (O.opened.manager ≡ manager) }
    requires store { S.columns store ≡ manager.schema }
{
    let (shared, mut sessions) = open::<O, S, R>(alloc, manager, store, 1, fresh, rt)?;
    let swapped = assert_swapped(rt, alloc, &shared, &mut sessions, other, swap);
    let closed = shared.close(sessions, rt);
    assert_holds(rt, closed.counts.as_slice() == [1].as_slice(), "counts");
    swapped
}

/// Plays the swap of a store of the base table's columns for one of these, whose devices leave their bytes in the slots.
fn play<R: Wait + Abort>(
    rt: &R,
    alloc: Global,
    slots: &[Slot],
    others: &[Slot],
    columns: &Schema,
    swap: &Swap,
) -> Result<(), Fail> {
    let mut first: Devices = Vec::new(alloc);
    for (number, slot) in slots.iter().enumerate() {
        first.push(Box::new(alloc, device_over(alloc, slot, number, swap.failing)?)?)?;
    }
    let mut second: Devices = Vec::new(alloc);
    for (number, slot) in others.iter().enumerate() {
        second.push(Box::new(alloc, device_over(alloc, slot, number, None)?)?)?;
    }
    play_between(rt, alloc, (first, second), columns, swap)
}

/// The same between these devices.
fn play_between<R: Wait + Abort>(
    rt: &R,
    alloc: Global,
    (first, second): (Devices, Devices),
    columns: &Schema,
    swap: &Swap,
) -> Result<(), Fail> {
    if have_failed(&first) || have_failed(&second) {
        return Err(Fail::new("a device has failed before its first append"));
    }
    let other = Store::new(alloc, second, columns, 1)?;
    let manager = base_manager(alloc, 64, MAX_ROWS)?;
    let store = Store::new(alloc, first, manager.version().schema(), 1)?;
    let fresh = NewOpening::new(&manager, 1);
    swap_in::<Brand, Store, R>(rt, alloc, manager, store, other, fresh, swap)
}

#[test]
fn a_swapped_store_starts_anew(rt: HostRuntime) -> Result<(), Fail> {
    let alloc = rt.alloc();
    let slots = empty_slots(alloc, 3)?;
    let others = empty_slots(alloc, 3)?;
    let table = base_table(alloc)?;
    play(&rt, alloc, &slots, &others, table.schema(), &FAILED)?;
    assert_stored(&rt, alloc, &slots, Some((1, &BASE)))?;
    assert_stored(&rt, alloc, &others, Some((1, &FOUR)))
}

#[test]
fn a_store_of_other_columns_comes_back(rt: HostRuntime) -> Result<(), Fail> {
    let alloc = rt.alloc();
    let slots = empty_slots(alloc, 3)?;
    let others = empty_slots(alloc, 1)?;
    let columns = schema(alloc, &[("id", ColumnType::Int)], 1)?;
    play(&rt, alloc, &slots, &others, &columns, &REFUSED)?;
    assert_stored(&rt, alloc, &slots, Some((2, &FOUR)))
}
