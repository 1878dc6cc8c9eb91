//! Each fault of building, and which of several comes first.

use super::{numbered, numbered_row};
use crate::assertions::assert_text;
use stable::{BuildFault, StableTable};
use std::alloc::Global;
use std::test::Fail;
use test_fixtures::row_with;
use values::{NoMemory, Row, ValueRef};

/// A row of a number, and where `is_whole` a truth after it.
fn cells(alloc: Global, id: i64, is_whole: bool) -> Result<Row, NoMemory> {
    if is_whole {
        numbered_row(alloc, id, true)
    } else {
        row_with(alloc, &[ValueRef::Int(id)])
    }
}

/// What building of three rows comes to: the fault, or `Ok`.
fn built(alloc: Global, cases: &[(i64, bool)]) -> Result<String, Fail> {
    let mut rows = Vec::new(alloc);
    for (id, is_whole) in cases {
        rows.push(cells(alloc, *id, *is_whole)?)?;
    }
    match StableTable::build(alloc, numbered(alloc)?, rows) {
        Ok(_) => Ok(String::from_str(alloc, "Ok")?),
        Err(BuildFault::NoMemory) => Err(Fail::from(NoMemory)),
        Err(fault) => Ok(format!(in alloc; "{fault}")?),
    }
}

#[test]
fn rows_that_make_no_table_are_refused(rt: HostRuntime) -> Result<(), Fail> {
    static CASES: [(&str, [(i64, bool); 3], &str); 6] = [
        ("ascending", [(1, true), (2, true), (3, true)], "Ok"),
        (
            "equal keys",
            [(1, true), (1, true), (3, true)],
            "NotAscending 1",
        ),
        (
            "a descent",
            [(1, true), (3, true), (2, true)],
            "NotAscending 2",
        ),
        (
            "a cell short",
            [(1, true), (2, true), (3, false)],
            "Shape 2 WrongCount",
        ),
        (
            "shape before order",
            [(2, true), (1, false), (3, true)],
            "Shape 1 WrongCount",
        ),
        (
            "the first row's fault",
            [(3, true), (2, true), (1, false)],
            "NotAscending 1",
        ),
    ];
    for (label, rows, becomes) in &CASES {
        let found = built(rt.alloc(), rows)?;
        assert_text(&rt, found.as_str(), *becomes, *label);
    }
    Ok(())
}
