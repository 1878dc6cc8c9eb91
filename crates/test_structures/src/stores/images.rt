//! What a store leaves of its images: several generations, several blocks, the last generation, and columns of both formats.

use crate::assertions::assert_holds;
use crate::stores::vectors::{TEN, generation};
use crate::stores::{numbers, one_column, one_row, stored};
use devices::{ColumnDevice, Store, StoreFault, read_store};
use stable::StableTable;
use std::alloc::Global;
use std::process::Abort;
use std::sync::{Arc, OnceLock};
use std::test::Fail;
use test_fixtures::{Slot, device_over, left_in};

/// What a store of one column of numbers, from this generation on, answers to two images of so many rows, one after the
/// other, whose device leaves its bytes in the slot.
fn twice(
    alloc: Global,
    slot: &Slot,
    first: u32,
    rows: i64,
) -> Result<[Result<u32, StoreFault>; 2], Fail> {
    let table = numbers(alloc, 0, rows)?;
    stored_twice(alloc, slot, first, &table)
}

/// The same of a table.
fn stored_twice(
    alloc: Global,
    slot: &Slot,
    first: u32,
    table: &StableTable,
) -> Result<[Result<u32, StoreFault>; 2], Fail> {
    let mut devices: Vec<Box<dyn ColumnDevice + Send>> = Vec::new(alloc);
    devices.push(Box::new(alloc, device_over(alloc, slot, 0, None)?)?)?;
    let mut store = Store::new(alloc, devices, table.schema(), first)?;
    let one = store.append_image(table);
    let other = store.append_image(table);
    Ok([one, other])
}

#[test]
fn generations_run_out(rt: HostRuntime) -> Result<(), Fail> {
    let slot = Arc::new(rt.alloc(), OnceLock::new())?;
    let answers = twice(rt.alloc(), &slot, u32::MAX, 1)?;
    assert_holds(
        &rt,
        answers == [Ok(u32::MAX), Err(StoreFault::GenerationsSpent)],
        "answers",
    );
    assert_holds(&rt, left_in(&slot).len() == 29, "as after the first");
    let read = generation(rt.alloc(), &one_column(rt.alloc())?, left_in(&slot));
    assert_holds(&rt, read == Ok(u32::MAX), "read");
    Ok(())
}

/// The generation that a column of numbers stores, and its number of rows.
fn read_of(alloc: Global, column: &[u8]) -> Result<(u32, u64), Fail> {
    let schema = one_column(alloc)?;
    let image = read_store(alloc, &schema, &[column])?;
    Ok((image.generation, image.table.len()))
}

/// That a column has a header of 3 bytes, then twice a block of 1,024 values, which isn't the last, and one of 1 value, which
/// is.
fn assert_two_blocks(rt: &impl Abort, column: &[u8]) {
    assert_holds(
        rt,
        column.len() == 3 + 2 * (17 + 8192 + 17 + 8) + 1,
        "length",
    );
    assert_holds(rt, column.get(12) == Some(&0), "not the last");
    assert_holds(rt, column.get(8212 + 9) == Some(&1), "the last");
}

#[test]
fn a_second_block(rt: HostRuntime) -> Result<(), Fail> {
    let slot = Arc::new(rt.alloc(), OnceLock::new())?;
    let answers = twice(rt.alloc(), &slot, 1, 1025)?;
    assert_holds(&rt, answers == [Ok(1), Ok(2)], "answers");
    assert_two_blocks(&rt, left_in(&slot));
    let read = read_of(rt.alloc(), left_in(&slot))?;
    assert_holds(&rt, read == (2, 1025), "read");
    Ok(())
}

// A header of 3 bytes, twice a block of three numbers in format 2, and a clean end.
#[test]
fn a_checkpoint_twice(rt: HostRuntime) -> Result<(), Fail> {
    let slot = Arc::new(rt.alloc(), OnceLock::new())?;
    let answers = twice(rt.alloc(), &slot, 1, 3)?;
    assert_holds(&rt, answers == [Ok(1), Ok(2)], "answers");
    assert_holds(&rt, left_in(&slot).len() == 86, "length");
    let read = read_of(rt.alloc(), left_in(&slot))?;
    assert_holds(&rt, read == (2, 3), "read");
    Ok(())
}

#[test]
fn no_rows_are_one_block(rt: HostRuntime) -> Result<(), Fail> {
    let slot = Arc::new(rt.alloc(), OnceLock::new())?;
    let answers = twice(rt.alloc(), &slot, 1, 0)?;
    assert_holds(&rt, answers == [Ok(1), Ok(2)], "answers");
    let read = read_of(rt.alloc(), left_in(&slot))?;
    assert_holds(&rt, read == (2, 0), "read");
    Ok(())
}

/// That a table goes into the slot behind an image in the first format.
fn assert_both_formats(
    rt: &impl Abort,
    alloc: Global,
    slot: &Slot,
    table: &StableTable,
) -> Result<(), Fail> {
    let answer = stored(alloc, slot, &TEN, table, 2)?;
    assert_holds(rt, answer == Ok(2), "answer");
    assert_holds(rt, left_in(slot).len() == 57, "length");
    let read = generation(alloc, table.schema(), left_in(slot));
    assert_holds(rt, read == Ok(2), "read");
    Ok(())
}

#[test]
fn both_formats_in_one_column(rt: HostRuntime) -> Result<(), Fail> {
    let out = Arc::new(rt.alloc(), OnceLock::new())?;
    assert_both_formats(&rt, rt.alloc(), &out, &one_row(rt.alloc())?)
}
