//! What a call takes of memory stays within what its input has, whatever lengths the input claims.
use crate::assertions::assert_holds;
use devices::read_store;
use inputs::{ScriptFault, TableFault, read_script, read_table};
use std::alloc::Global;
use std::fs;
use std::fs::Files;
use std::process::Abort;
use std::test::Fail;
use test_fixtures::{item_columns, schema};
use values::{ColumnType, NoMemory, SchemaFault};

/// So many KiB a call may take, for at most 1 MiB that it is given.
const ROOM: u64 = 16 * 1024;

/// The most address space that the process has had, in KiB, as the system tells it; 0 where it doesn't.
fn peak<R: Files + AllocGlobal>(rt: &R) -> u64 {
    let Ok(status) = fs::read_to_string(rt, "/proc/self/status") else {
        return 0;
    };
    for line in status.as_str().lines() {
        if let Some(rest) = line.strip_prefix("VmPeak:") {
            let number = rest.trim().trim_end_matches(" kB");
            return number.parse::<u64>().unwrap_or(0);
        }
    }
    0
}

/// That the call that was made since the peak was so has taken no more than it may.
fn assert_room<R: Files + AllocGlobal + Abort>(rt: &R, before: u64, label: &str) {
    let taken = peak(rt).saturating_sub(before);
    assert_holds(rt, taken <= ROOM, label);
}

/// A text of a head, so many times the unit, and a tail.
fn repeated(alloc: Global, (head, unit, count, tail): Parts) -> Result<String, NoMemory> {
    let mut text = String::from_str(alloc, head)?;
    for _ in 0..count {
        text.push_str(unit)?;
    }
    text.push_str(tail)?;
    Ok(text)
}

/// What a text is made of: a head, a unit and how often it is, and a tail.
type Parts = (&'static str, &'static str, u32, &'static str);

static TABLES: [(&str, Parts, TableFault); 4] = [
    (
        "a header of 10,000 cells",
        ("id:int:key", ",a:int", 9_999, "\n"),
        TableFault::Schema(SchemaFault::TooManyColumns),
    ),
    (
        "a header cell of 1 MB",
        ("", "x", 1_000_000, ":int:key\n"),
        TableFault::BadHeader(0),
    ),
    (
        "a record of 1 MB in one cell",
        ("id:int:key,name:text\n1,", "x", 1_000_000, "\n"),
        TableFault::TextTooLong(2, 1),
    ),
    (
        "a record of 100,000 cells",
        ("id:int:key,name:text\n1", ",1", 99_999, "\n"),
        TableFault::BadCount(2),
    ),
];

#[test]
fn tables_take_no_more_than_they_have(rt: HostRuntime) -> Result<(), Fail> {
    for (label, parts, fault) in &TABLES {
        let text = repeated(rt.alloc(), *parts)?;
        let before = peak(&rt);
        let found = read_table(rt.alloc(), text.as_str().as_bytes());
        assert_room(&rt, before, label);
        assert_holds(&rt, found.err() == Some(*fault), label);
    }
    Ok(())
}

static SCRIPTS: [(&str, Parts, Option<ScriptFault>); 5] = [
    (
        "a client of 1 MB",
        ("", "x", 1_000_000, ",begin\n"),
        Some(ScriptFault::BadClient(1)),
    ),
    (
        "a verb of 1 MB",
        ("a,", "x", 1_000_000, "\n"),
        Some(ScriptFault::BadVerb(1)),
    ),
    (
        "a number of 1 MB",
        ("a,at,", "9", 1_000_000, "\n"),
        Some(ScriptFault::BadArgument(1, 2)),
    ),
    (
        "a record of 100,000 fields",
        ("a,begin", ",1", 99_999, "\n"),
        Some(ScriptFault::BadCount(1)),
    ),
    (
        "a text of 1 MB, which is refused at its call",
        ("a,insert,1,", "x", 1_000_000, ",2\n"),
        None,
    ),
];

#[test]
fn scripts_take_no_more_than_they_have(rt: HostRuntime) -> Result<(), Fail> {
    let columns = item_columns(rt.alloc())?;
    for (label, parts, fault) in &SCRIPTS {
        let text = repeated(rt.alloc(), *parts)?;
        let before = peak(&rt);
        let found = read_script(rt.alloc(), &columns, text.as_str().as_bytes());
        assert_room(&rt, before, label);
        assert_holds(&rt, found.err() == *fault, label);
    }
    Ok(())
}

/// Columns of numbers, texts and truths whose header claims a payload of 4 GiB, and of 1,024 values in a byte.
static COLUMNS: [(&str, &[u8], ColumnType); 6] = [
    (
        "numbers of 4 GiB",
        &[
            0x48, 2, 1, 0x42, 0, 0, 0, 1, 0, 0, 0, 0, 1, 4, 0, 0xff, 0xff, 0xff, 0xff, 0,
        ],
        ColumnType::Int,
    ),
    (
        "texts of 4 GiB",
        &[
            0x48, 1, 2, 0x42, 0, 0, 0, 1, 0, 0, 0, 0, 1, 4, 0, 0xff, 0xff, 0xff, 0xff, 0,
        ],
        ColumnType::Text,
    ),
    (
        "truths of 4 GiB",
        &[
            0x48, 2, 3, 0x42, 0, 0, 0, 1, 0, 0, 0, 0, 1, 4, 0, 0xff, 0xff, 0xff, 0xff, 1,
        ],
        ColumnType::Bool,
    ),
    (
        "1,024 numbers in a byte",
        &[
            0x48, 2, 1, 0x42, 0, 0, 0, 1, 0, 0, 0, 0, 1, 4, 0, 0, 0, 0, 1, 0,
        ],
        ColumnType::Int,
    ),
    (
        "1,024 texts in a byte",
        &[
            0x48, 1, 2, 0x42, 0, 0, 0, 1, 0, 0, 0, 0, 1, 4, 0, 0, 0, 0, 1, 0,
        ],
        ColumnType::Text,
    ),
    (
        "1,024 truths in a byte",
        &[
            0x48, 2, 3, 0x42, 0, 0, 0, 1, 0, 0, 0, 0, 1, 4, 0, 0, 0, 0, 1, 1,
        ],
        ColumnType::Bool,
    ),
];

#[test]
fn columns_take_no_more_than_they_have(rt: HostRuntime) -> Result<(), Fail> {
    for (label, bytes, column) in &COLUMNS {
        let columns = schema(rt.alloc(), &[("id", *column)], 1)?;
        let before = peak(&rt);
        let found = read_store(rt.alloc(), &columns, &[*bytes]);
        assert_room(&rt, before, label);
        assert_holds(&rt, found.is_err(), label);
    }
    Ok(())
}

#[test]
fn what_is_taken_is_measured(rt: HostRuntime) -> Result<(), Fail> {
    let before = peak(&rt);
    if 0 < before {
        let taken: Vec<u64> = Vec::with_capacity(rt.alloc(), 1 << 24)?;
        assert_holds(&rt, ROOM < peak(&rt).saturating_sub(before), "128 MiB");
        drop(taken);
    }
    Ok(())
}
