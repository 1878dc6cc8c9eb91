//! The ranks of drawn keys in tables of each type of key and of several columns, beside a linear search: first columns that
//! are equal in many rows or in all, tables of none, of one row, at the edges of a block and of three blocks, keys between the
//! rows, keys of fewer cells and of more, and cells of another type.
use super::keys::keyed;
use crate::assertions::assert_holds;
use stable::StableTable;
use std::alloc::Global;
use std::cmp::Ordering;
use std::process::Abort;
use std::test::Fail;
use test_fixtures::Draws;
use values::{ColumnType, Key, NoMemory, Row, Text, Value};

/// A column of a drawn table: its type, in how many rows after one another it has a cell, and how many cells it has.
#[derive(Clone, Copy)]
struct Wheel {
    ty: ColumnType,
    rows: u32,
    cells: u32,
}

/// A column of numbers.
const fn ints(rows: u32, cells: u32) -> Wheel {
    Wheel {
        ty: ColumnType::Int,
        rows,
        cells,
    }
}

/// A column of texts.
const fn texts(rows: u32, cells: u32) -> Wheel {
    Wheel {
        ty: ColumnType::Text,
        rows,
        cells,
    }
}

/// A column of truths.
const fn truths(rows: u32) -> Wheel {
    Wheel {
        ty: ColumnType::Bool,
        rows,
        cells: 2,
    }
}

/// How many keys are drawn for a table.
const KEYS: usize = 120;

/// Tables of none, of one row, at the edges of a block, and of three blocks.
const COUNTS: [u16; 6] = [0, 1, 1_023, 1_024, 1_025, 2_500];

/// The cell of a row in a column: a number twice what counts it, so that another is between two.
fn cell(alloc: Global, wheel: Wheel, row: u32, odd: u64) -> Result<Value, NoMemory> {
    let turn = u64::from(row / wheel.rows.max(1) % wheel.cells.max(1));
    let number = turn * 2 + odd % 2;
    match wheel.ty {
        ColumnType::Int => Ok(Value::Int(number as i64 - 40)),
        ColumnType::Text => {
            let text = format!(in alloc; "a text of some length, {}", 10_000_000_000 + number)?;
            Ok(Value::Text(Text::new(text)))
        }
        ColumnType::Bool => Ok(Value::Bool(turn > 0)),
    }
}

/// The key of a row.
fn key_of(alloc: Global, wheels: &[Wheel], row: u32) -> Result<Key, NoMemory> {
    let mut cells = Vec::new(alloc);
    for wheel in wheels {
        cells.push(cell(alloc, *wheel, row, 0)?)?;
    }
    Ok(Key::new(cells))
}

/// The keys of the first rows, which ascend.
fn keys_of(alloc: Global, wheels: &[Wheel], count: u16) -> Result<Vec<Key>, NoMemory> {
    let mut keys = Vec::new(alloc);
    for row in 0..count {
        keys.push(key_of(alloc, wheels, u32::from(row))?)?;
    }
    Ok(keys)
}

/// The table of these keys, which are the rows.
fn table_of(alloc: Global, wheels: &[Wheel], keys: &[Key]) -> Result<StableTable, Fail> {
    let mut types = Vec::new(alloc);
    for wheel in wheels {
        types.push(wheel.ty)?;
    }
    let mut rows = Vec::new(alloc);
    for key in keys {
        rows.push(Row::new(copy_cells(alloc, key.cells())?))?;
    }
    Ok(StableTable::build(alloc, keyed(alloc, types.as_slice())?, rows)?)
}

/// Cells, copied.
fn copy_cells(alloc: Global, cells: &[Value]) -> Result<Vec<Value>, NoMemory> {
    let mut copies = Vec::new(alloc);
    for value in cells {
        copies.push(value.copy()?)?;
    }
    Ok(copies)
}

/// A key near those of so many rows: each cell is of a drawn row or of the one that was drawn, or is past it, and one in
/// twenty is of another type. One key in six has fewer cells or more.
fn drawn_key(
    alloc: Global,
    draws: &mut Draws,
    wheels: &[Wheel],
    count: u16,
) -> Result<Key, NoMemory> {
    let near = u64::from(count) + 3;
    let row = draws.below(near) as u32;
    let fewer = draws.below(12);
    let mut cells = Vec::new(alloc);
    for wheel in wheels {
        let other = draws.below(near) as u32;
        let at = if draws.below(5) == 0 { other } else { row };
        let odd = u64::from(draws.below(4) == 0);
        if draws.below(20) == 0 {
            cells.push(cell(alloc, truths(1), at, odd)?)?;
        } else {
            cells.push(cell(alloc, *wheel, at, odd)?)?;
        }
    }
    if fewer == 0 {
        let _dropped = cells.pop();
    } else if fewer == 1 {
        cells.push(Value::Int(0))?;
    }
    Ok(Key::new(cells))
}

/// How many of the keys are below one, and whether it is among them.
fn searched(keys: &[Key], asked: &Key) -> (u64, bool) {
    let mut below = 0_u64;
    let mut there = false;
    for key in keys {
        match key.cmp(asked) {
            Ordering::Less => below = below.wrapping_add(1),
            Ordering::Equal => there = true,
            Ordering::Greater => {}
        }
    }
    (below, there)
}

/// That drawn keys have the ranks of a linear search in a table of so many rows.
fn assert_table(
    rt: &impl Abort,
    alloc: Global,
    draws: &mut Draws,
    wheels: &[Wheel],
    count: u16,
) -> Result<(), Fail> {
    let keys = keys_of(alloc, wheels, count)?;
    let table = table_of(alloc, wheels, keys.as_slice())?;
    for _ in 0..KEYS {
        let asked = drawn_key(alloc, draws, wheels, count)?;
        let due = searched(keys.as_slice(), &asked);
        assert_holds(
            rt,
            table.locate(asked.cells()) == due,
            "the place of a drawn key",
        );
        assert_holds(rt, table.rank(&asked) == due.0, "the rank of a drawn key");
    }
    Ok(())
}

/// That they have in tables of each size, but of no more rows than there are keys.
fn assert_tables(rt: &impl Abort, alloc: Global, wheels: &[Wheel], most: u16) -> Result<(), Fail> {
    let mut draws = Draws::new(u64::from(most) + 29);
    for count in COUNTS {
        assert_table(rt, alloc, &mut draws, wheels, count.min(most))?;
    }
    Ok(())
}

#[test]
fn drawn_keys_of_one_column(rt: HostRuntime) -> Result<(), Fail> {
    assert_tables(&rt, rt.alloc(), &[ints(1, 3_000)], 2_500)?;
    assert_tables(&rt, rt.alloc(), &[texts(1, 3_000)], 2_500)?;
    assert_tables(&rt, rt.alloc(), &[truths(1)], 2)
}

#[test]
fn drawn_keys_of_two_columns(rt: HostRuntime) -> Result<(), Fail> {
    assert_tables(&rt, rt.alloc(), &[ints(7, 500), ints(1, 7)], 2_500)?;
    assert_tables(&rt, rt.alloc(), &[texts(40, 80), ints(1, 40)], 2_500)?;
    assert_tables(&rt, rt.alloc(), &[ints(900, 4), texts(1, 900)], 2_500)?;
    assert_tables(&rt, rt.alloc(), &[truths(1_250), texts(1, 1_250)], 2_500)?;
    assert_tables(&rt, rt.alloc(), &[texts(2, 1_300), truths(1)], 2_500)
}

#[test]
fn drawn_keys_of_three_and_four_columns(rt: HostRuntime) -> Result<(), Fail> {
    assert_tables(
        &rt,
        rt.alloc(),
        &[ints(1, 1), texts(1, 1), ints(1, 3_000)],
        2_500,
    )?;
    assert_tables(
        &rt,
        rt.alloc(),
        &[ints(1, 1), ints(1, 1), ints(1, 1), ints(1, 3_000)],
        2_500,
    )?;
    assert_tables(
        &rt,
        rt.alloc(),
        &[ints(600, 5), truths(300), texts(10, 30), ints(1, 10)],
        2_500,
    )?;
    assert_tables(
        &rt,
        rt.alloc(),
        &[truths(1_250), texts(50, 25), ints(2, 25), truths(1)],
        2_500,
    )
}
