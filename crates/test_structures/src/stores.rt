//! What devices leave at their end, and what columns store.

mod cuts;
mod images;
mod pairs;
mod refusals;
mod rounds;
mod vectors;

use devices::{ColumnDevice, FailAt, MemColumn, Store, StoreFault};
use stable::StableTable;
use std::alloc::Global;
use std::sync::{Arc, OnceLock};
use std::test::Fail;
use test_fixtures::{Item, Slot, left_in, row_with, schema};
use values::{ColumnType, NoMemory, Row, Schema, ValueRef};

#[test]
fn a_sound_device_leaves_a_clean_end(rt: HostRuntime) -> Result<(), Fail> {
    let out = Arc::new(rt.alloc(), OnceLock::new())?;
    let mut column = MemColumn::new(Vec::new(rt.alloc()), Arc::try_clone(&out)?)?;
    assert!(rt; column.append(b"ab").is_ok());
    drop(column);
    assert!(rt; left_in(&out) == b"abE".as_slice());
    Ok(())
}

#[test]
fn a_failed_device_gets_no_clean_end(rt: HostRuntime) -> Result<(), Fail> {
    let out = Arc::new(rt.alloc(), OnceLock::new())?;
    let column = MemColumn::new(Vec::new(rt.alloc()), Arc::try_clone(&out)?)?;
    let mut column: Box<dyn ColumnDevice + Send> = Box::new(rt.alloc(), FailAt::new(column, 2, 1))?;
    if column.failures() == 0 {
        assert!(rt; column.append(b"ab").is_ok());
    }
    if column.failures() == 0 {
        assert!(rt; column.append(b"cd").is_err());
    }
    assert!(rt; column.failures() == 1);
    drop(column);
    assert!(rt; left_in(&out) == b"abc".as_slice());
    Ok(())
}

/// The schema of one column of numbers.
fn one_column(alloc: Global) -> Result<Schema, Fail> {
    schema(alloc, &[("id", ColumnType::Int)], 1)
}

/// The rows of that column with the numbers from the first up to but without the other.
fn number_rows(alloc: Global, from: i64, to: i64) -> Result<Vec<Row>, NoMemory> {
    let mut rows = Vec::new(alloc);
    for id in from..to {
        rows.push(row_with(alloc, &[ValueRef::Int(id)])?)?;
    }
    Ok(rows)
}

/// The table of those rows.
fn numbers(alloc: Global, from: i64, to: i64) -> Result<StableTable, Fail> {
    let rows = number_rows(alloc, from, to)?;
    Ok(StableTable::build(alloc, one_column(alloc)?, rows)?)
}

/// The table whose one row has the number ten.
fn one_row(alloc: Global) -> Result<StableTable, Fail> {
    numbers(alloc, 10, 11)
}

/// Whether the row of a table of the base table's columns is this one.
fn is_item(table: &StableTable, sid: u64, (id, name, quantity): Item) -> bool {
    table.schema().width() == 3
        && sid < table.len()
        && table.value(sid, 0) == ValueRef::Int(id)
        && table.value(sid, 1) == ValueRef::Text(name)
        && table.value(sid, 2) == ValueRef::Int(quantity)
}

/// Whether these are the rows of the table.
fn has_items(table: &StableTable, rows: &[Item]) -> bool {
    let mut count = 0;
    for row in rows {
        if !is_item(table, count, *row) {
            return false;
        }
        count = count.wrapping_add(1);
    }
    table.len() == count
}

/// The bytes of that table's column: its header, a frame of one row, and a clean end.
static NAMED: [u8; 29] = [
    0x48, 2, 1, 0x42, 0, 0, 0, 1, 0, 0, 0, 0, 1, 0, 1, 0, 0, 0, 9, 0, 0, 0, 0, 0, 0, 0, 0, 10, 0x45,
];

/// What a store answers to the image of a table of one column, from this generation on. Its device begins with these bytes, and
/// leaves its own in the slot.
fn stored(
    alloc: Global,
    slot: &Slot,
    before: &[u8],
    table: &StableTable,
    first: u32,
) -> Result<Result<u32, StoreFault>, Fail> {
    let column = MemColumn::new(Vec::from_slice(alloc, before)?, Arc::try_clone(slot)?)?;
    let mut devices: Vec<Box<dyn ColumnDevice + Send>> = Vec::new(alloc);
    devices.push(Box::new(alloc, column)?)?;
    let mut store = Store::new(alloc, devices, table.schema(), first)?;
    Ok(store.append_image(table))
}

#[test]
fn one_row_is_stored_as_it_is_named(rt: HostRuntime) -> Result<(), Fail> {
    let out = Arc::new(rt.alloc(), OnceLock::new())?;
    let table = one_row(rt.alloc())?;
    let answer = stored(rt.alloc(), &out, &[], &table, 1)?;
    assert!(rt; answer == Ok(1));
    assert!(rt; left_in(&out) == NAMED.as_slice());
    Ok(())
}
