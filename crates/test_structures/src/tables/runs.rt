//! Columns that are extended by runs of another one's values: the same values come to stand there, wherever a run begins and
//! ends. Where a growth is refused, the first of them are there, and nothing else.

use crate::assertions::assert_holds;
use stable::{Column, StableTable};
use std::alloc::Global;
use std::process::Abort;
use std::test::Fail;
use test_fixtures::{row_with, schema};
use values::{ColumnType, NoMemory, Row, ValueRef};

/// Where a run begins in the column that is read, and how many values it has.
type Run = (usize, usize);

/// How many values the column that is read has: two whole blocks and a part of a third.
const COUNT: u16 = 2_500;

/// Texts of several lengths, one of them empty, and one with a character of two bytes.
static NAMES: [&str; 4] = ["Ann", "", "Zoë", "a longer text than the others"];

static RUNS: [(&str, &[Run]); 5] = [
    ("nothing", &[(0, 0), (2_500, 0)]),
    ("all at once", &[(0, 2_500)]),
    ("whole blocks", &[(0, 1_024), (1_024, 1_024)]),
    ("across blocks", &[(1_023, 2), (0, 1), (500, 2_000)]),
    (
        "one by one and many",
        &[(5, 1), (6, 1), (7, 2_493), (3, 1_500)],
    ),
];

/// The name that a row has with many others: a block of one name alone, one of two, and one in which another stands between equal ones.
fn shared_name(number: u16) -> &'static str {
    if number < 1_300 {
        NAMES[0]
    } else if number == 2_100 {
        NAMES[2]
    } else {
        NAMES[3]
    }
}

/// The row of a number.
fn row_of(alloc: Global, number: u16) -> Result<Row, NoMemory> {
    let name = NAMES[usize::from(number % 4)];
    row_with(
        alloc,
        &[
            ValueRef::Int(i64::from(number)),
            ValueRef::Text(name),
            ValueRef::Bool(number % 3 == 0),
            ValueRef::Text(shared_name(number)),
        ],
    )
}

/// A table with a column of each type, and one of texts of which many are equal.
fn table_of_all(alloc: Global) -> Result<StableTable, Fail> {
    let cols = [
        ("id", ColumnType::Int),
        ("name", ColumnType::Text),
        ("third", ColumnType::Bool),
        ("shared", ColumnType::Text),
    ];
    let mut rows = Vec::new(alloc);
    for number in 0..COUNT {
        rows.push(row_of(alloc, number)?)?;
    }
    Ok(StableTable::build(alloc, schema(alloc, &cols, 1)?, rows)?)
}

/// Extends a column by a run of another one, where it may be.
fn extend(column: &mut Column, source: &Column, (from, count): Run) -> Result<(), NoMemory> {
    let length = source.len();
    if from <= length
        && count <= length - from
        && count <= 10_000
        && column.len() <= 10_000
        && column.column_type() == source.column_type()
    {
        column.extend_from(source, from, count)?;
    }
    Ok(())
}

/// Whether a value of the column is that of the other one at a place of it.
fn is_same(column: &Column, number: usize, source: &Column, place: usize) -> bool {
    number < column.len() && place < source.len() && column.get(number) == source.get(place)
}

/// How many of the first values are those of the runs.
fn count_same(column: &Column, source: &Column, runs: &[Run]) -> usize {
    let mut count = 0_usize;
    for (from, length) in runs {
        for place in 0..*length {
            if !is_same(column, count, source, from.wrapping_add(place)) {
                return count;
            }
            count = count.wrapping_add(1);
        }
    }
    count
}

/// How many values the runs have.
fn count_of(runs: &[Run]) -> usize {
    runs.iter()
        .fold(0_usize, |sum, (_, length)| sum.wrapping_add(*length))
}

/// That a column is extended by the runs, one after the other.
fn assert_extended(
    rt: &impl Abort,
    alloc: Global,
    source: &Column,
    (label, runs): (&str, &[Run]),
) -> Result<(), Fail> {
    let mut column = Column::new(alloc, source.column_type());
    for run in runs {
        if let Err(fault) = extend(&mut column, source, *run) {
            assert_holds(rt, count_same(&column, source, runs) == column.len(), label);
            return Err(fault.into());
        }
    }
    let count = count_same(&column, source, runs);
    assert_holds(rt, count == column.len() && count == count_of(runs), label);
    Ok(())
}

#[test]
fn runs_begin_and_end_anywhere(rt: HostRuntime) -> Result<(), Fail> {
    let table = table_of_all(rt.alloc())?;
    for col in 0..4 {
        assert!(&rt; col < table.schema().width());
        for case in &RUNS {
            assert_extended(&rt, rt.alloc(), table.column(col), *case)?;
        }
    }
    Ok(())
}
