//! A run whose second checkpoint meets a device that fails, and what is recovered of its store.

use crate::programs::{BASE_TEXT, USUAL};
use devices::{ColumnDevice, Store, have_failed};
use pdtcli::{open_texts, recover, run_opened};
use std::alloc::Global;
use std::test::Fail;
use test_fixtures::{Failure, Slot, all_left_in, device_over, empty_slots, item_columns};

/// What a run of the script writes, and its status, with a store of which one device fails and each leaves its bytes in a slot.
fn ran(alloc: Global, slots: &[Slot]) -> Result<(Vec<u8>, u8), Fail> {
    let mut devices: Vec<Box<dyn ColumnDevice + Send>> = Vec::new(alloc);
    for (device, slot) in slots.iter().enumerate() {
        devices.push(Box::new(alloc, device_over(alloc, slot, device, Some(FAILURE))?)?)?;
    }
    if have_failed(devices.as_slice()) {
        return Err(Fail::new("a device that has failed"));
    }
    let opened = open_texts(alloc, Ok(BASE_TEXT), Ok(SCRIPT), USUAL)?;
    let store = Store::new(alloc, devices, opened.schema(), 1)?;
    let mut lines = Vec::new(alloc);
    let (status, _outcome) = run_opened(alloc, opened, store, &mut lines)?;
    Ok((lines, status))
}

/// What is recovered of the store.
fn recovered(alloc: Global, slots: &[Slot]) -> Result<Vec<u8>, Fail> {
    let columns = all_left_in(alloc, slots)?;
    let mut image = Vec::new(alloc);
    recover(alloc, &item_columns(alloc)?, columns.as_slice(), &mut image)?;
    Ok(image)
}

/// The second checkpoint fails at the second column, whose device has taken its header and a block then.
const FAILURE: Failure = Failure {
    device: 1,
    turn: 3,
    takes: 5,
};

const SCRIPT: &[u8] =
    b"a,checkpoint\na,begin\na,insert,5,Eve,0\na,commit\na,checkpoint\na,checkpoint\n";

const WRITTEN: &str =
    "a,checkpoint,Done,1\na,begin,Begun\na,insert,Done\na,commit,Committed,1\na,checkpoint,DeviceFailed,1\na,checkpoint,StoreFailed\n\nid:int:key,name:text,qty:int\n5,Eve,0\n10,Ann,1\n20,Bob,2\n30,Cid,3\n";

const RECOVERED: &str = "id:int:key,name:text,qty:int\n10,Ann,1\n20,Bob,2\n30,Cid,3\n";

#[test]
fn a_failing_device_stops_the_store(rt: HostRuntime) -> Result<(), Fail> {
    let slots = empty_slots(rt.alloc(), 3)?;
    let (lines, status) = ran(rt.alloc(), slots.as_slice())?;
    assert!(&rt; status == 1 && lines.as_slice() == WRITTEN.as_bytes());
    let image = recovered(rt.alloc(), slots.as_slice())?;
    assert!(&rt; image.as_slice() == RECOVERED.as_bytes());
    Ok(())
}
