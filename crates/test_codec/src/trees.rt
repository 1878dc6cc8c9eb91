//! Trees of entries that can be written, and what is read of a payload.
ghost use Rattle.std.specs.Prelude.{◌≡◌};
ghost use Rattle.delta.specs.Lookups.{has_delete};

use codec::{PayloadFault, entries_fit, read_part, write_part};
use delta::{Change, ChangeRef, DeltaTree, Entry, Sought};
use std::alloc::Global;
use std::process::Abort;
use std::test::Fail;
use test_fixtures::entries_text;
use values::{Key, NoMemory, Row, Schema, Value};

/// Whether the base row at the SID is deleted.
fn is_deleted(tree: &DeltaTree, sid: u64) -> bool
    ensures { result ≡ has_delete sid tree.now.entries }
{
    for entry in tree.entries_at(sid) {
        if matches!(entry.change(), ChangeRef::Del(_)) {
            return true;
        }
    }
    false
}

/// Puts the row in, where its key isn't inserted at the SID.
fn put_ins(rt: &impl Abort, tree: &mut DeltaTree, sid: u64, row: Row) -> Result<(), NoMemory>
    requires keyed { tree.old.key_cols ≡ 1 }
    ensures keyed { tree.new.key_cols ≡ 1 }
{
    assert!(rt; sid < 100_000);
    assert!(rt; tree.len() < 100_000);
    assert!(rt; tree.find(sid, Sought::Insert(row.key(1))).row.is_none());
    tree.put_ins(sid, row)
}

/// Deletes the base row at the SID, where it isn't deleted.
fn put_del(rt: &impl Abort, tree: &mut DeltaTree, sid: u64, key: Key) -> Result<(), NoMemory>
    requires keyed { tree.old.key_cols ≡ 1 }
    ensures keyed { tree.new.key_cols ≡ 1 }
{
    assert!(rt; sid < 100_000);
    assert!(rt; tree.len() < 100_000);
    assert!(rt; !is_deleted(tree, sid));
    tree.put_del(sid, key)
}

/// Modifies the base row at the SID, where it isn't deleted.
fn put_mod(
    rt: &impl Abort,
    tree: &mut DeltaTree,
    sid: u64,
    col: usize,
    value: Value,
) -> Result<(), NoMemory>
    requires keyed { tree.old.key_cols ≡ 1 }
    ensures keyed { tree.new.key_cols ≡ 1 }
{
    assert!(rt; sid < 100_000);
    assert!(rt; tree.len() < 100_000);
    assert!(rt; !is_deleted(tree, sid));
    tree.put_mod(sid, col, value)
}

/// Puts the change in.
fn put(rt: &impl Abort, tree: &mut DeltaTree, sid: u64, change: Change) -> Result<(), NoMemory>
    requires keyed { tree.old.key_cols ≡ 1 }
    ensures keyed { tree.new.key_cols ≡ 1 }
{
    match change {
        Change::Ins(row) => put_ins(rt, tree, sid, row),
        Change::Del(key) => put_del(rt, tree, sid, key),
        Change::Mod(col, value) => put_mod(rt, tree, sid, col, value),
    }
}

/// The tree of these entries, over rows whose key is their first cell.
pub(crate) fn tree_of(
    rt: &impl Abort,
    alloc: Global,
    entries: Vec<Entry>,
) -> Result<DeltaTree, NoMemory> {
    let mut tree = DeltaTree::new(alloc, 1);
    for entry in entries {
        put(rt, &mut tree, entry.sid, entry.change)?;
    }
    Ok(tree)
}

/// Appends the part of the table, which can be written.
pub(crate) fn append(
    rt: &impl Abort,
    schema: &Schema,
    table: u32,
    tree: &DeltaTree,
    out: &mut Vec<u8>,
) -> Result<(), Fail> {
    assert!(rt; entries_fit(schema, tree));
    Ok(write_part(schema, table, tree, out)?)
}

/// A person's text of the entries: `1+15,Flo,5` is an insert at SID 1, `1-20` a delete, `2:2=7` a modify of column 2.
pub(crate) fn text_of(rt: &impl Abort, alloc: Global, entries: Vec<Entry>) -> Result<String, Fail> {
    let tree = tree_of(rt, alloc, entries)?;
    Ok(entries_text(alloc, tree.iter())?)
}

/// That the payload says these entries of the table.
pub(crate) fn assert_reads(
    rt: &impl Abort,
    alloc: Global,
    schema: &Schema,
    table: u32,
    payload: &[u8],
    want: &str,
) -> Result<(), Fail> {
    let entries = read_part(alloc, schema, table, payload)?;
    let text = text_of(rt, alloc, entries)?;
    assert_eq!(rt; text.as_str(), want, "table {table}");
    Ok(())
}

/// That the payload has this fault.
pub(crate) fn assert_fault(
    rt: &impl Abort,
    alloc: Global,
    schema: &Schema,
    payload: &[u8],
    want: PayloadFault,
) -> Result<(), Fail> {
    match read_part(alloc, schema, 7, payload) {
        Ok(_) => assert!(rt; false, "no fault"),
        Err(fault) => assert!(rt; fault == want, "{fault}"),
    }
    Ok(())
}
