//! The rank of keys of one text, of one truth, of a text and a truth, of three columns and of four.
use crate::assertions::assert_holds;
use ValueRef::{Bool, Int, Text};
use stable::StableTable;
use std::alloc::Global;
use std::process::Abort;
use std::test::Fail;
use test_fixtures::{key_with, row_with, schema};
use values::{ColumnType, NoMemory, Schema, ValueRef};

/// The cells of a row or of a key.
type Cells = &'static [ValueRef<'static>];

/// What a key is, its cells, its rank, and whether it is there.
type Case = (&'static str, Cells, u64, bool);

/// The schema of columns of these types, all of which are the key.
pub(super) fn keyed(alloc: Global, types: &[ColumnType]) -> Result<Schema, Fail> {
    let mut cols = Vec::new(alloc);
    for (name, column) in ["first", "second", "third", "fourth"].iter().zip(types) {
        cols.push((*name, *column))?;
    }
    schema(alloc, cols.as_slice(), types.len())
}

/// The table of these rows, all of whose columns are the key.
fn table_of(alloc: Global, types: &[ColumnType], named: &[Cells]) -> Result<StableTable, Fail> {
    let mut rows = Vec::new(alloc);
    for cells in named {
        rows.push(row_with(alloc, *cells)?)?;
    }
    Ok(StableTable::build(alloc, keyed(alloc, types)?, rows)?)
}

/// That each key has its rank, and is there or isn't.
fn assert_ranks(
    rt: &impl Abort,
    alloc: Global,
    table: &StableTable,
    cases: &[Case],
) -> Result<(), NoMemory> {
    for (label, cells, rank, there) in cases {
        let key = key_with(alloc, *cells)?;
        assert_holds(rt, table.rank(&key) == *rank, label);
        assert_holds(rt, table.locate(key.cells()) == (*rank, *there), label);
    }
    Ok(())
}

/// That the keys of a table of these rows have their ranks.
fn ranks(
    rt: &impl Abort,
    alloc: Global,
    types: &[ColumnType],
    rows: &[Cells],
    cases: &[Case],
) -> Result<(), Fail> {
    let table = table_of(alloc, types, rows)?;
    assert_ranks(rt, alloc, &table, cases)?;
    Ok(())
}

#[test]
fn ranks_of_texts(rt: HostRuntime) -> Result<(), Fail> {
    static ROWS: [Cells; 4] = [&[Text("")], &[Text("Ann")], &[Text("Bob")], &[Text("Zoë")]];
    static CASES: [Case; 6] = [
        ("no character", &[Text("")], 0, true),
        ("A", &[Text("A")], 1, false),
        ("Ann", &[Text("Ann")], 1, true),
        ("Anna", &[Text("Anna")], 2, false),
        ("Zoë", &[Text("Zoë")], 3, true),
        ("Zoz", &[Text("Zoz")], 3, false),
    ];
    ranks(&rt, rt.alloc(), &[ColumnType::Text], &ROWS, &CASES)
}

#[test]
fn ranks_of_truths(rt: HostRuntime) -> Result<(), Fail> {
    static ROWS: [Cells; 1] = [&[Bool(true)]];
    static CASES: [Case; 2] = [
        ("false", &[Bool(false)], 0, false),
        ("true", &[Bool(true)], 0, true),
    ];
    ranks(&rt, rt.alloc(), &[ColumnType::Bool], &ROWS, &CASES)
}

#[test]
fn ranks_of_pairs(rt: HostRuntime) -> Result<(), Fail> {
    static TYPES: [ColumnType; 2] = [ColumnType::Text, ColumnType::Bool];
    static ROWS: [Cells; 3] = [
        &[Text("a"), Bool(false)],
        &[Text("a"), Bool(true)],
        &[Text("b"), Bool(true)],
    ];
    static CASES: [Case; 6] = [
        ("below all", &[Text(""), Bool(true)], 0, false),
        ("at the first", &[Text("a"), Bool(false)], 0, true),
        ("at the second", &[Text("a"), Bool(true)], 1, true),
        ("between two names", &[Text("aa"), Bool(false)], 2, false),
        (
            "below the last by its truth",
            &[Text("b"), Bool(false)],
            2,
            false,
        ),
        ("above all", &[Text("c"), Bool(false)], 3, false),
    ];
    ranks(&rt, rt.alloc(), &TYPES, &ROWS, &CASES)
}

#[test]
fn ranks_of_three_cells(rt: HostRuntime) -> Result<(), Fail> {
    static TYPES: [ColumnType; 3] = [ColumnType::Int, ColumnType::Text, ColumnType::Bool];
    static ROWS: [Cells; 3] = [
        &[Int(1), Text("a"), Bool(true)],
        &[Int(1), Text("b"), Bool(false)],
        &[Int(2), Text("a"), Bool(false)],
    ];
    static CASES: [Case; 5] = [
        ("below all", &[Int(0), Text("z"), Bool(true)], 0, false),
        (
            "below by the truth",
            &[Int(1), Text("a"), Bool(false)],
            0,
            false,
        ),
        (
            "between by the text",
            &[Int(1), Text("aa"), Bool(false)],
            1,
            false,
        ),
        ("at the last", &[Int(2), Text("a"), Bool(false)], 2, true),
        ("above all", &[Int(2), Text("a"), Bool(true)], 3, false),
    ];
    ranks(&rt, rt.alloc(), &TYPES, &ROWS, &CASES)
}

#[test]
fn ranks_of_four_cells(rt: HostRuntime) -> Result<(), Fail> {
    static TYPES: [ColumnType; 4] = [
        ColumnType::Int,
        ColumnType::Text,
        ColumnType::Bool,
        ColumnType::Int,
    ];
    static ROWS: [Cells; 3] = [
        &[Int(1), Text("a"), Bool(false), Int(5)],
        &[Int(1), Text("a"), Bool(true), Int(-5)],
        &[Int(1), Text("a"), Bool(true), Int(0)],
    ];
    static CASES: [Case; 6] = [
        (
            "below all by the last cell",
            &[Int(1), Text("a"), Bool(false), Int(4)],
            0,
            false,
        ),
        (
            "at the first",
            &[Int(1), Text("a"), Bool(false), Int(5)],
            0,
            true,
        ),
        (
            "between by the truth",
            &[Int(1), Text("a"), Bool(false), Int(6)],
            1,
            false,
        ),
        (
            "below the second",
            &[Int(1), Text("a"), Bool(true), Int(-6)],
            1,
            false,
        ),
        (
            "between the last two",
            &[Int(1), Text("a"), Bool(true), Int(-1)],
            2,
            false,
        ),
        (
            "above all",
            &[Int(1), Text("a"), Bool(true), Int(1)],
            3,
            false,
        ),
    ];
    ranks(&rt, rt.alloc(), &TYPES, &ROWS, &CASES)
}
