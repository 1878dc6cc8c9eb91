//! Parts, written and read again.
use crate::trees::{append, assert_reads, tree_of};
use delta::{Change, DeltaTree, Entry};
use std::alloc::Global;
use std::process::Abort;
use std::test::Fail;
use test_fixtures::{item, item_columns, key, row_with, schema};
use values::{ColumnType, NoMemory, Schema, Value, ValueRef};

/// The part of the table 7 that a person worked out, over the rows (10, Ann, 1), (20, Bob, 2) and (30, Cid, 3): Ann's quantity
/// becomes 7, Bob goes, and Dee comes in before Cid.
pub(crate) const WORKED: [u8; 61] = [
    0, 0, 0, 7, 0, 0, 0, 0x35, // the table, and 53 bytes of entries
    0, 0, 0, 0, 3, 2, 0, 0, 0, 0, 0, 0, 0, 7, // at SID 0 a modify of column 2 to 7
    0, 0, 0, 1, 2, 0, 0, 0, 0, 0, 0, 0, 0x14, // at SID 1 a delete of 20
    0, 0, 0, 2, 1, 0, 0, 0, 0, 0, 0, 0, 0x19, // at SID 2 an insert of 25,
    0, 3, 0x44, 0x65, 0x65, 0, 0, 0, 0, 0, 0, 0, 4, // Dee and 4
];

/// What it says.
pub(crate) const WORKED_TEXT: &str = "0:2=7 1-20 2+25,Dee,4";

/// An entry.
fn at(sid: u64, change: Change) -> Entry {
    Entry { sid, change }
}

/// The tree of that commit.
fn worked(rt: &impl Abort, alloc: Global) -> Result<DeltaTree, NoMemory> {
    let mut entries = Vec::new(alloc);
    entries.push(at(2, Change::Ins(item(alloc, 25, "Dee", 4)?)))?;
    entries.push(at(1, Change::Del(key(alloc, 20)?)))?;
    entries.push(at(0, Change::Mod(2, Value::Int(7))))?;
    tree_of(rt, alloc, entries)
}

#[test]
fn a_commit_has_these_bytes(rt: HostRuntime) -> Result<(), Fail> {
    let alloc = rt.alloc();
    let schema = item_columns(alloc)?;
    let mut out = Vec::new(alloc);
    append(&rt, &schema, 7, &worked(&rt, alloc)?, &mut out)?;
    assert!(&rt; out.as_slice() == WORKED.as_slice());
    assert_reads(&rt, alloc, &schema, 7, out.as_slice(), WORKED_TEXT)
}

/// The columns of a table with cells of each type.
fn typed_columns(alloc: Global) -> Result<Schema, Fail> {
    let cols = [
        ("id", ColumnType::Int),
        ("name", ColumnType::Text),
        ("on", ColumnType::Bool),
    ];
    schema(alloc, &cols, 1)
}

/// A change of each kind, with the least and the greatest number, texts of no character and of several bytes each, and both
/// truths.
fn of_each_kind(rt: &impl Abort, alloc: Global) -> Result<DeltaTree, NoMemory> {
    let least = [
        ValueRef::Int(i64::MIN),
        ValueRef::Text(""),
        ValueRef::Bool(true),
    ];
    let greatest = [
        ValueRef::Int(i64::MAX),
        ValueRef::Text("Zoë €"),
        ValueRef::Bool(false),
    ];
    let mut entries = Vec::new(alloc);
    entries.push(at(0, Change::Ins(row_with(alloc, &least)?)))?;
    entries.push(at(9, Change::Ins(row_with(alloc, &greatest)?)))?;
    entries.push(at(3, Change::Del(key(alloc, -1)?)))?;
    entries.push(at(5, Change::Mod(1, ValueRef::Text("€").copy(alloc)?)))?;
    entries.push(at(5, Change::Mod(2, Value::Bool(true))))?;
    entries.push(at(6, Change::Mod(2, Value::Bool(false))))?;
    tree_of(rt, alloc, entries)
}

#[test]
fn each_kind_and_type_reads_again(rt: HostRuntime) -> Result<(), Fail> {
    let alloc = rt.alloc();
    let schema = typed_columns(alloc)?;
    let mut out = Vec::new(alloc);
    append(&rt, &schema, 1, &of_each_kind(&rt, alloc)?, &mut out)?;
    let want =
        "0+-9223372036854775808,,true 3--1 5:1=€ 5:2=true 6:2=false 9+9223372036854775807,Zoë €,false";
    assert_reads(&rt, alloc, &schema, 1, out.as_slice(), want)
}

#[test]
fn each_table_reads_its_own_entries(rt: HostRuntime) -> Result<(), Fail> {
    let alloc = rt.alloc();
    let items = item_columns(alloc)?;
    let typed = typed_columns(alloc)?;
    let mut out = Vec::new(alloc);
    append(&rt, &typed, 3, &of_each_kind(&rt, alloc)?, &mut out)?;
    append(&rt, &items, 7, &worked(&rt, alloc)?, &mut out)?;
    append(&rt, &items, u32::MAX, &DeltaTree::new(alloc, 1), &mut out)?;
    assert_reads(&rt, alloc, &items, 7, out.as_slice(), WORKED_TEXT)?;
    for other in [0, 4, 8, u32::MAX] {
        assert_reads(&rt, alloc, &items, other, out.as_slice(), "")?;
    }
    Ok(())
}

#[test]
fn no_bytes_say_no_entries(rt: HostRuntime) -> Result<(), Fail> {
    let alloc = rt.alloc();
    assert_reads(&rt, alloc, &item_columns(alloc)?, 7, &[], "")
}
