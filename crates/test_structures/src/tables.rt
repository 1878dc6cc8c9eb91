//! Tables of one block and of two, at the edges of a block; the rank of a key; each fault of building.
//!
//! That a refused growth is answered shows under `rt try --test --fail-alloc N`, for N from 1 on: each test ends well,
//! or with the error of the growth.

mod faults;
mod keys;
mod kinds;
mod ranks;
mod runs;

use crate::assertions::assert_holds;
use blocks::Block;
use stable::{Column, StableTable};
use std::alloc::Global;
use std::process::Abort;
use std::test::Fail;
use test_fixtures::{key, row_with, schema};
use values::{ColumnType, NoMemory, Row, Schema, Value, ValueRef};

/// A number, the key, and a truth.
fn numbered(alloc: Global) -> Result<Schema, Fail> {
    let cols = [("id", ColumnType::Int), ("even", ColumnType::Bool)];
    schema(alloc, &cols, 1)
}

/// The row of a number and a truth.
fn numbered_row(alloc: Global, id: i64, even: bool) -> Result<Row, NoMemory> {
    row_with(alloc, &[ValueRef::Int(id), ValueRef::Bool(even)])
}

/// So many rows of the even numbers from 0 on.
fn even_rows(alloc: Global, count: u16) -> Result<Vec<Row>, NoMemory> {
    let mut rows = Vec::new(alloc);
    for place in 0..count {
        rows.push(numbered_row(alloc, i64::from(place) * 2, true)?)?;
    }
    Ok(rows)
}

/// The number of a lent value, or -1 where it is none.
fn number(value: ValueRef<'_>) -> i64 {
    match value {
        ValueRef::Int(number) => number,
        _ => -1,
    }
}

/// The table of so many even numbers.
fn even_table(alloc: Global, count: u16) -> Result<StableTable, Fail> {
    Ok(StableTable::build(alloc, numbered(alloc)?, even_rows(alloc, count)?)?)
}

/// That a table of so many rows has them, all of them below a greater key.
fn assert_edge(rt: &impl Abort, alloc: Global, label: &str, count: u16) -> Result<(), Fail> {
    let table = even_table(alloc, count)?;
    let past = key(alloc, 5_000)?;
    assert_holds(rt, table.len() == u64::from(count), label);
    assert_holds(rt, table.rank(&past) == u64::from(count), label);
    Ok(())
}

#[test]
fn tables_at_the_edges_of_a_block(rt: HostRuntime) -> Result<(), Fail> {
    static CASES: [(&str, u16); 5] = [
        ("no row", 0),
        ("one row", 1),
        ("a full block", 1_024),
        ("a second block of one", 1_025),
        ("two full blocks", 2_048),
    ];
    for (label, count) in &CASES {
        assert_edge(&rt, rt.alloc(), *label, *count)?;
    }
    Ok(())
}

/// The number at a place of the first column, or -1 where none is.
fn number_at(table: &StableTable, sid: u64) -> i64 {
    if sid < table.len() && table.schema().width() > 0 {
        number(table.value(sid, 0))
    } else {
        -1
    }
}

#[test]
fn the_second_block_begins_at_1024(rt: HostRuntime) -> Result<(), Fail> {
    let table = even_table(rt.alloc(), 1_025)?;
    assert!(rt; table.len() == 1_025);
    assert!(rt; table.schema().width() == 2);
    assert!(rt; number_at(&table, 1_023) == 2_046);
    assert!(rt; number_at(&table, 1_024) == 2_048);
    Ok(())
}

/// That the row at a place is of this number and true.
fn assert_row(
    rt: &impl Abort,
    alloc: Global,
    table: &StableTable,
    sid: u64,
    id: i64,
) -> Result<(), NoMemory> {
    assert!(rt; sid < table.len());
    let row = table.row(alloc, sid)?;
    let cells = row.cells();
    assert!(rt; cells.len() == 2);
    assert!(rt; cells[0] == Value::Int(id));
    assert!(rt; cells[1] == Value::Bool(true));
    Ok(())
}

#[test]
fn a_row_is_copied_cell_by_cell(rt: HostRuntime) -> Result<(), Fail> {
    let table = even_table(rt.alloc(), 1_025)?;
    assert!(rt; table.len() == 1_025);
    for (sid, id) in &[(0, 0), (1_023, 2_046), (1_024, 2_048)] {
        assert_row(&rt, rt.alloc(), &table, *sid, *id)?;
    }
    Ok(())
}

/// The first value of a block, a number, and how many there are.
fn first_and_length(block: &Block) -> (i64, usize) {
    let count = block.len();
    if count == 0 {
        return (-1, 0);
    }
    (number(block.get(0)), count)
}

/// That the column of numbers has a block of 1,024 and one of a number more.
fn assert_blocks(rt: &impl Abort, ids: &Column) {
    assert!(rt; ids.len() == 1_025);
    assert!(rt; first_and_length(ids.block(0)) == (0, 1_024));
    assert!(rt; first_and_length(ids.block(1)) == (2_048, 1));
}

#[test]
fn a_column_is_lent_block_by_block(rt: HostRuntime) -> Result<(), Fail> {
    let table = even_table(rt.alloc(), 1_025)?;
    assert!(rt; table.schema().width() == 2);
    assert_blocks(&rt, table.column(0));
    assert!(rt; table.column(1).column_type() == ColumnType::Bool);
    Ok(())
}

/// That the key of a number has its rank.
fn assert_rank(
    rt: &impl Abort,
    alloc: Global,
    table: &StableTable,
    (label, id, rank): (&str, i64, u64),
) -> Result<(), NoMemory> {
    let key = key(alloc, id)?;
    assert_holds(rt, table.rank(&key) == rank, label);
    Ok(())
}

#[test]
fn ranks_of_numbers(rt: HostRuntime) -> Result<(), Fail> {
    static CASES: [(&str, i64, u64); 7] = [
        ("below all", -1, 0),
        ("at the first", 0, 0),
        ("between the first two", 1, 1),
        ("at the second", 2, 1),
        ("at the last of the first block", 2_046, 1_023),
        ("at the last", 2_048, 1_024),
        ("above all", 2_049, 1_025),
    ];
    let table = even_table(rt.alloc(), 1_025)?;
    for case in &CASES {
        assert_rank(&rt, rt.alloc(), &table, *case)?;
    }
    Ok(())
}
