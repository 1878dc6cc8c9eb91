//! The truths of a column as they are filled, by their numbers, beside the rows that the plain program merges of the same entries.
ghost use Rattle.std.specs.Prelude.{◌<◌, IfOk};
ghost use Rattle.merge.specs.Image.{AreStacked};

use super::numbers::{EDGES, ROOMS, assert_numbers};
use super::{Stack, stacked_with};
use model::Write;
use std::alloc::Global;
use std::test::Fail;
use test_fixtures::{Draws, key, row_with, schema};
use values::{ColumnType, NoMemory, Row, Schema, Value, ValueRef};

/// The columns of a truth that changes from row to row, and of one that is the same in all rows of a block.
const MIXED: usize = 1;

const STEADY: usize = 3;

/// A key, a truth, a number and another truth.
fn columns(alloc: Global) -> Result<Schema, Fail> {
    let cols = [
        ("id", ColumnType::Int),
        ("mixed", ColumnType::Bool),
        ("qty", ColumnType::Int),
        ("steady", ColumnType::Bool),
    ];
    schema(alloc, &cols, 1)
}

/// A row with this key and these truths.
fn line(alloc: Global, id: i64, mixed: bool, steady: bool) -> Result<Row, NoMemory> {
    row_with(
        alloc,
        &[
            ValueRef::Int(id),
            ValueRef::Bool(mixed),
            ValueRef::Int(9),
            ValueRef::Bool(steady),
        ],
    )
}

/// So many rows of even keys from 0 on. One truth in three is true in one column; in the other the first block's are true, and no others.
fn even_rows(alloc: Global, count: u16) -> Result<Vec<Row>, NoMemory> {
    let mut rows = Vec::new(alloc);
    for place in 0..count {
        let id = i64::from(place) * 2;
        rows.push(line(alloc, id, place % 3 == 0, place < 1_024)?)?;
    }
    Ok(rows)
}

/// A write by chance on a row below a key: an insert, a delete, or a truth or a number that is set.
fn drawn_write(alloc: Global, draws: &mut Draws, ids: u64) -> Result<Write, NoMemory>
    requires { 0 < ids }
{
    let id = draws.below(ids) as i64;
    let truth = draws.below(2) == 0;
    Ok(match draws.below(6) {
        0 => Write::Insert(line(alloc, id, truth, !truth)?),
        1 => Write::Delete(key(alloc, id)?),
        2 => Write::Set(key(alloc, id)?, 2, Value::Int(7)),
        3 => Write::Set(key(alloc, id)?, STEADY, Value::Bool(truth)),
        _ => Write::Set(key(alloc, id)?, MIXED, Value::Bool(truth)),
    })
}

/// So many of them.
fn drawn_writes(
    alloc: Global,
    draws: &mut Draws,
    ids: u64,
    count: u64,
) -> Result<Vec<Write>, NoMemory>
    requires { 0 < ids }
{
    let mut writes = Vec::new(alloc);
    for _ in 0..count {
        writes.push(drawn_write(alloc, draws, ids)?)?;
    }
    Ok(writes)
}

/// So many rows under so many writes of each of three transactions.
fn drawn_stack(alloc: Global, rows: u16, count: u64) -> Result<Stack, Fail>
    ensures { IfOk result (λ made. AreStacked made.stable made.read.tree made.write.tree made.trans.tree) }
{
    let stable = even_rows(alloc, rows)?;
    let ids = u64::from(rows) * 2 + 2;
    let mut draws = Draws::new(2_011);
    let read = drawn_writes(alloc, &mut draws, ids, count)?;
    let write = drawn_writes(alloc, &mut draws, ids, count)?;
    let trans = drawn_writes(alloc, &mut draws, ids, count)?;
    stacked_with(
        alloc,
        columns(alloc)?,
        stable.as_slice(),
        [read.as_slice(), write.as_slice(), trans.as_slice()],
    )
}

#[test]
fn truths_are_filled_as_the_plain_program_merges_them(rt: HostRuntime) -> Result<(), Fail> {
    for count in [0, 60] {
        let stack = drawn_stack(rt.alloc(), 1_100, count)?;
        assert_numbers(&rt, rt.alloc(), &stack, &ROOMS)?;
    }
    Ok(())
}

#[test]
fn truths_are_filled_at_the_ends_of_blocks(rt: HostRuntime) -> Result<(), Fail> {
    for rows in [1_023, 1_024, 1_025] {
        let stack = drawn_stack(rt.alloc(), rows, 0)?;
        assert_numbers(&rt, rt.alloc(), &stack, &EDGES)?;
    }
    Ok(())
}

/// A write on the row of each key from 2,032 to 2,056, around the end of the first of two blocks.
fn edge_writes(alloc: Global) -> Result<Vec<Write>, NoMemory> {
    let mut writes = Vec::new(alloc);
    for id in 2_032_i64..2_057 {
        writes.push(match id % 6 {
            0 => Write::Delete(key(alloc, id)?),
            2 => Write::Set(key(alloc, id)?, STEADY, Value::Bool(id % 4 == 0)),
            4 => Write::Set(key(alloc, id)?, MIXED, Value::Bool(id % 4 == 0)),
            _ => Write::Insert(line(alloc, id, id % 3 == 0, id % 5 == 0)?),
        })?;
    }
    Ok(writes)
}

#[test]
fn truths_are_filled_where_rows_change_at_the_end_of_a_block(rt: HostRuntime) -> Result<(), Fail> {
    let alloc = rt.alloc();
    let rows = even_rows(alloc, 1_100)?;
    let read = edge_writes(alloc)?;
    let write = [Write::Delete(key(alloc, 2_045)?)];
    let stack = stacked_with(
        alloc,
        columns(alloc)?,
        rows.as_slice(),
        [read.as_slice(), &write, &[]],
    )?;
    assert_numbers(&rt, alloc, &stack, &EDGES)
}
