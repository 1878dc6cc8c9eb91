//! How many sessions are opened, and what an opening that is refused leaves.
ghost use Rattle.std.specs.Prelude.{◌≡◌, []};

use crate::assertions::{assert_holds, assert_holds_at};
use crate::managers::base_manager;
use devices::{ColumnDevice, Store, have_failed};
use manager::Manager;
use publishing::Opening;
use shared::{ImageStore, NewOpening, Session, ShareFault, open};
use std::alloc::Global;
use std::marker::Brand;
use std::process::Abort;
use std::sync::Wait;
use std::test::Fail;
use test_fixtures::{Slot, device_over, empty_slots, left_in};
use values::limits::MAX_ROWS;

/// The headers of the base table's columns, each with a clean end.
static ENDED: [[u8; 4]; 3] = [[0x48, 2, 1, 0x45], [0x48, 2, 2, 0x45], [0x48, 2, 1, 0x45]];

/// Whether these are the sessions of the clients from 0 on.
fn are_in_order<O: Opening>(sessions: &[Session<O>]) -> bool {
    sessions
        .iter()
        .enumerate()
        .all(|(client, session)| session.client() as usize == client)
}

/// How many sessions are opened, which are closed again, or why none are.
fn opened_in<O: Opening, S: ImageStore, R: Wait + Abort>(
    rt: &R,
    alloc: Global,
    manager: Manager,
    store: S,
    clients: u32,
    fresh: NewOpening,
) -> Result<usize, ShareFault>
    requires name { (fresh.blank.name ≡ O.name) × (fresh.blank.parts ≡ O.parts) × (O.clients ≡ O.parts) × (O.clients ≡ clients) }
    requires opening { (fresh.book.list.opening ≡ O.opened) × (fresh.book.list.list ≡ []) × (O.opened.manager ≡ manager) }
    requires store { S.columns store ≡ manager.schema }
{
    let (shared, sessions) = open::<O, S, R>(alloc, manager, store, clients, fresh, rt)?;
    let count = sessions.len();
    let ordered = are_in_order(&sessions);
    let closed = shared.close(sessions, rt);
    assert_holds(rt, ordered, "order");
    assert_holds(rt, closed.counts.len() == count, "counts");
    assert_holds(rt, closed.manager.made() == 0, "records");
    Ok(count)
}

/// Whether each column has its header and a clean end.
fn have_ended(slots: &[Slot]) -> bool {
    slots
        .iter()
        .zip(ENDED.iter())
        .all(|(slot, column)| left_in(slot) == column.as_slice())
}

/// How many sessions of the base table are opened and closed again. Each device that they had has ended well.
fn opened<R: Wait + Abort>(
    rt: &R,
    alloc: Global,
    clients: u32,
) -> Result<Result<usize, ShareFault>, Fail> {
    let slots = empty_slots(alloc, 3)?;
    let answer = opened_over(rt, alloc, clients, &slots)?;
    assert_holds(rt, have_ended(&slots), "columns");
    Ok(answer)
}

/// The same, each device leaving its bytes in a slot.
fn opened_over<R: Wait + Abort>(
    rt: &R,
    alloc: Global,
    clients: u32,
    slots: &[Slot],
) -> Result<Result<usize, ShareFault>, Fail> {
    let mut devices: Vec<Box<dyn ColumnDevice + Send>> = Vec::new(alloc);
    for (number, slot) in slots.iter().enumerate() {
        devices.push(Box::new(alloc, device_over(alloc, slot, number, None)?)?)?;
    }
    if have_failed(&devices) {
        return Err(Fail::new("a device has failed before its first append"));
    }
    let manager = base_manager(alloc, 64, MAX_ROWS)?;
    let store = Store::new(alloc, devices, manager.version().schema(), 1)?;
    let fresh = NewOpening::new(&manager, clients);
    Ok(opened_in::<Brand, Store, R>(rt, alloc, manager, store, clients, fresh))
}

#[test]
fn there_are_one_to_sixty_four_sessions(rt: HostRuntime) -> Result<(), Fail> {
    static CASES: [(u32, Result<usize, ShareFault>); 5] = [
        (0, Err(ShareFault::BadLimit)),
        (1, Ok(1)),
        (3, Ok(3)),
        (64, Ok(64)),
        (65, Err(ShareFault::BadLimit)),
    ];
    for (place, (clients, due)) in CASES.iter().enumerate() {
        let answer = match opened(&rt, rt.alloc(), *clients)? {
            Err(ShareFault::NoMemory) => opened(&rt, rt.alloc(), *clients)?,
            answer => answer,
        };
        assert_holds_at(&rt, answer == *due, place);
    }
    Ok(())
}
