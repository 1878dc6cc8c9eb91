//! A store of the base table, made, asked to take it and read, where a growth is refused: the devices have what they had,
//! and the same call answers right when it is made again.
//!
//! One growth of a run is refused under `rt try --test --fail-alloc N`, for N from 1 on. Where it is one of such a call,
//! the test ends well; where it is one of what the test makes for itself, the test ends with that error. A device in
//! memory that finds none for its piece has failed: `DeviceFailed` answers that, and `StoreFailed` what comes after it.

use crate::assertions::assert_holds;
use crate::stores::has_items;
use crate::stores::rounds::MORE;
use devices::{ColumnDevice, ReadFault, Store, StoreFault, StoredImage, have_failed, read_store};
use stable::StableTable;
use std::alloc::Global;
use std::process::Abort;
use std::test::Fail;
use test_fixtures::{Slot, base_table, device_over, empty_slots, item_columns, left_in};
use values::{NoMemory, Schema};

/// What the devices are handed in turn, each at its column: the headers, the base table, and a table of one row more.
static PIECES: [[&[u8]; 3]; 3] = [
    [
        &[0x48, 2, 1],
        b"\x42\0\0\0\x01\0\0\0\0\x01\0\x03\0\0\0\x19\0\0\0\0\0\0\0\0\x0a\0\0\0\0\0\0\0\x14\0\0\0\0\0\0\0\x1e",
        b"\x42\0\0\0\x02\0\0\0\0\x01\0\x04\0\0\0\x21\0\0\0\0\0\0\0\0\x05\0\0\0\0\0\0\0\x0a\0\0\0\0\0\0\0\x14\0\0\0\0\0\0\0\x1e",
    ],
    [
        &[0x48, 2, 2],
        b"\x42\0\0\0\x01\0\0\0\0\x01\0\x03\0\0\0\x10\0\0\x03Ann\0\x03Bob\0\x03Cid",
        b"\x42\0\0\0\x02\0\0\0\0\x01\0\x04\0\0\0\x15\0\0\x03Eve\0\x03Ann\0\x03Bob\0\x03Cid",
    ],
    [
        &[0x48, 2, 1],
        b"\x42\0\0\0\x01\0\0\0\0\x01\0\x03\0\0\0\x19\0\0\0\0\0\0\0\0\x01\0\0\0\0\0\0\0\x02\0\0\0\0\0\0\0\x03",
        b"\x42\0\0\0\x02\0\0\0\0\x01\0\x04\0\0\0\x21\0\0\0\0\0\0\0\0\0\0\0\0\0\0\0\0\x01\0\0\0\0\0\0\0\x02\0\0\0\0\0\0\0\x03",
    ],
];

/// The bytes of a column that took so many pieces, with a clean end or without one.
fn column_of(
    alloc: Global,
    pieces: &[&[u8]],
    count: usize,
    clean: bool,
) -> Result<Vec<u8>, NoMemory> {
    let mut bytes = Vec::new(alloc);
    for piece in pieces.iter().take(count) {
        bytes.extend_from_slice(piece)?;
    }
    if clean {
        bytes.push(0x45)?;
    }
    Ok(bytes)
}

/// What a store of the base table answers to its table, and again where it didn't take it, or why it isn't made.
type Answers = Result<(Result<u32, StoreFault>, Result<u32, StoreFault>), StoreFault>;

/// The answers of a store whose devices leave their bytes in the slots.
fn answers(alloc: Global, slots: &[Slot], base: &StableTable) -> Result<Answers, Fail> {
    let mut devices: Vec<Box<dyn ColumnDevice + Send>> = Vec::new(alloc);
    for (number, slot) in slots.iter().enumerate() {
        devices.push(Box::new(alloc, device_over(alloc, slot, number, None)?)?)?;
    }
    answers_over(alloc, devices, base)
}

/// The answers of a store over these devices.
fn answers_over(
    alloc: Global,
    devices: Vec<Box<dyn ColumnDevice + Send>>,
    base: &StableTable,
) -> Result<Answers, Fail> {
    if have_failed(&devices) {
        return Err(Fail::new("a device has failed before its first append"));
    }
    let mut store = match Store::new(alloc, devices, base.schema(), 1) {
        Ok(store) => store,
        Err(fault) => return Ok(Err(fault)),
    };
    let first = store.append_image(base);
    let again = match first {
        Ok(_) => first,
        Err(_) => store.append_image(base),
    };
    Ok(Ok((first, again)))
}

/// How many pieces each device has then, and which of them failed at its next one. None where a store may not answer so.
fn reached(answers: Answers) -> Option<(usize, Option<usize>)> {
    match answers {
        Err(StoreFault::NoMemory) => Some((0, None)),
        Err(StoreFault::DeviceFailed(device)) => Some((0, Some(device))),
        Err(_) => None,
        Ok(both) => match both {
            (Ok(1), Ok(1)) => Some((2, None)),
            (Err(StoreFault::NoMemory), Ok(1)) => Some((2, None)),
            (Err(StoreFault::DeviceFailed(device)), Err(StoreFault::StoreFailed)) => {
                Some((1, Some(device)))
            }
            _ => None,
        },
    }
}

/// Whether the slot has the bytes of a column that took so many pieces, with a clean end or without one.
fn has(
    alloc: Global,
    slot: &Slot,
    pieces: &[&[u8]],
    (count, clean): (usize, bool),
) -> Result<bool, NoMemory> {
    let column = column_of(alloc, pieces, count, clean)?;
    Ok(left_in(slot) == column.as_slice())
}

/// Whether the slots have so many pieces, and one more before the device that failed, all but that one with a clean end.
fn have(
    alloc: Global,
    slots: &[Slot],
    (count, failed): (usize, Option<usize>),
) -> Result<bool, NoMemory> {
    for (device, (slot, pieces)) in slots.iter().zip(PIECES.iter()).enumerate() {
        let more = failed.is_some_and(|other| device < other);
        let count = count.saturating_add(usize::from(more));
        if !has(alloc, slot, pieces, (count, failed != Some(device)))? {
            return Ok(false);
        }
    }
    Ok(true)
}

/// The answers of a store of new devices, which leave what is due.
fn assert_answers(rt: &impl Abort, alloc: Global, base: &StableTable) -> Result<Answers, Fail> {
    let slots = empty_slots(alloc, 3)?;
    let answers = answers(alloc, &slots, base)?;
    let reached = reached(answers);
    assert_holds(rt, reached.is_some(), "answers");
    assert_holds(
        rt,
        have(alloc, &slots, reached.unwrap_or((0, None)))?,
        "columns",
    );
    Ok(answers)
}

#[test]
fn a_store_takes_a_table_when_it_is_asked_again(rt: HostRuntime) -> Result<(), Fail> {
    let base = base_table(rt.alloc())?;
    let answers = assert_answers(&rt, rt.alloc(), &base)?;
    if answers.is_err() {
        let again = assert_answers(&rt, rt.alloc(), &base)?;
        assert_holds(&rt, again == Ok((Ok(1), Ok(1))), "made again");
    }
    Ok(())
}

/// What columns store, read again where memory was refused.
fn reread(alloc: Global, schema: &Schema, columns: &[&[u8]]) -> Result<StoredImage, ReadFault> {
    match read_store(alloc, schema, columns) {
        Err(ReadFault::NoMemory) => read_store(alloc, schema, columns),
        read => read,
    }
}

#[test]
fn a_store_of_two_images_is_read_when_it_is_asked_again(rt: HostRuntime) -> Result<(), Fail> {
    let schema = item_columns(rt.alloc())?;
    let id = column_of(rt.alloc(), &PIECES[0], 3, true)?;
    let name = column_of(rt.alloc(), &PIECES[1], 3, true)?;
    let quantity = column_of(rt.alloc(), &PIECES[2], 3, true)?;
    let columns = [id.as_slice(), name.as_slice(), quantity.as_slice()];
    let image = reread(rt.alloc(), &schema, &columns)?;
    assert_holds(&rt, image.generation == 2, "generation");
    assert_holds(&rt, has_items(&image.table, &MORE), "rows");
    Ok(())
}
