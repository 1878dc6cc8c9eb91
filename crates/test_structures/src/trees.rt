//! The changes of a tree over the rows (10, Ann, 1), (20, Bob, 2) and (30, Cid, 3), whose key is their first cell. The
//! entries are written as a person reads them: `1+15,Flo,5` is an insert at SID 1, `1-20` a delete, `2:2=7` a modify of
//! column 2.
//!
//! That a refused growth leaves the entries shows under `rt try --test --fail-alloc N`, for N from 1 on: a test ends well
//! after it has looked at them. (Where a row, a key or a text that a test makes for itself is refused, it ends with that
//! error.)
ghost use Rattle.std.specs.Prelude.{◌≡◌, ◌<◌, ◌^◌, IsTrue, IfOk, IfSome, IsSomeAnd, length};
ghost use Rattle.values.specs.Shape.{key_of};
ghost use Rattle.delta.specs.Lookups.{has_delete, inserted_row};

mod bulk;
mod depths;
mod in_place;
mod lists;
mod places;
mod removals;
mod shared;
mod steps;

use crate::assertions::{assert_holds_at, assert_text};
use delta::{ChangeRef, DeltaTree, Sought};
use std::alloc::Global;
use std::process::Abort;
use std::test::Fail;
use test_fixtures::{Step, entries_text, item, key};
use values::{Key, NoMemory, Row, Value, ValueRef};

/// Whether the base row at the SID is deleted.
fn is_deleted(tree: &DeltaTree, sid: u64) -> bool
    ensures { result ≡ has_delete sid tree.now.entries }
{
    for entry in tree.entries_at(sid) {
        if matches!(entry.change(), ChangeRef::Del(_)) {
            return true;
        }
    }
    false
}

/// Puts the row in, where its key isn't inserted at the SID.
fn put_ins(rt: &impl Abort, tree: &mut DeltaTree, sid: u64, row: Row) -> Result<(), NoMemory>
    requires keyed { tree.old.key_cols ≡ 1 }
    ensures keyed { tree.new.key_cols ≡ 1 }
{
    assert!(rt; sid < 100_000);
    assert!(rt; tree.len() < 100_000);
    assert!(rt; tree.find(sid, Sought::Insert(row.key(1))).row.is_none());
    tree.put_ins(sid, row)
}

/// Deletes the base row at the SID, where it isn't deleted.
fn put_del(rt: &impl Abort, tree: &mut DeltaTree, sid: u64, key: Key) -> Result<(), NoMemory>
    requires keyed { tree.old.key_cols ≡ 1 }
    ensures keyed { tree.new.key_cols ≡ 1 }
{
    assert!(rt; sid < 100_000);
    assert!(rt; tree.len() < 100_000);
    assert!(rt; !is_deleted(tree, sid));
    tree.put_del(sid, key)
}

/// Modifies the base row at the SID, where it isn't deleted.
fn put_mod(
    rt: &impl Abort,
    tree: &mut DeltaTree,
    sid: u64,
    col: usize,
    value: Value,
) -> Result<(), NoMemory>
    requires keyed { tree.old.key_cols ≡ 1 }
    ensures keyed { tree.new.key_cols ≡ 1 }
{
    assert!(rt; sid < 100_000);
    assert!(rt; tree.len() < 100_000);
    assert!(rt; !is_deleted(tree, sid));
    tree.put_mod(sid, col, value)
}

/// Takes the insert of the key away, where it is there.
fn take_ins(rt: &impl Abort, tree: &mut DeltaTree, sid: u64, key: &Key) -> Result<(), NoMemory>
    requires keyed { tree.old.key_cols ≡ 1 }
    ensures keyed { tree.new.key_cols ≡ 1 }
{
    assert!(rt; sid < 100_000);
    assert!(rt; tree.find(sid, Sought::Insert(key.cells())).row.is_some());
    tree.take_ins(sid, key)
}

/// Whether a row that has the column is inserted with the key at the SID.
fn has_cell(tree: &DeltaTree, sid: u64, key: &Key, col: usize) -> bool
    requires { sid < 2 ^ 63 }
    ensures { IsTrue result → IsSomeAnd (inserted_row tree.now.key_cols sid key.now tree.now.entries) (λ row. col < length row) }
{
    match tree.find(sid, Sought::Insert(key.cells())).row {
        Some(row) => col < row.cells().len(),
        None => false,
    }
}

/// Changes a cell of the row that is inserted with the key, where it is there.
fn set_ins(
    rt: &impl Abort,
    tree: &mut DeltaTree,
    sid: u64,
    key: &Key,
    col: usize,
    value: Value,
) -> Result<(), NoMemory>
    requires keyed { tree.old.key_cols ≡ 1 }
    ensures keyed { tree.new.key_cols ≡ 1 }
{
    assert!(rt; col > 0);
    assert!(rt; sid < 100_000);
    assert!(rt; has_cell(tree, sid, key, col));
    tree.set_ins(sid, key, col, value)
}

/// Makes the change. The answer within is that of the tree.
fn change(
    rt: &impl Abort,
    alloc: Global,
    tree: &mut DeltaTree,
    step: Step,
) -> Result<Result<(), NoMemory>, NoMemory>
    requires keyed { tree.old.key_cols ≡ 1 }
    ensures keyed { tree.new.key_cols ≡ 1 }
{
    match step {
        Step::Insert(sid, id, name, quantity) => {
            Ok(put_ins(rt, tree, sid, item(alloc, id, name, quantity)?))
        }
        Step::Delete(sid, id) => Ok(put_del(rt, tree, sid, key(alloc, id)?)),
        Step::Modify(sid, col, value) => Ok(put_mod(rt, tree, sid, col, value.copy(alloc)?)),
        Step::TakeInsert(sid, id) => Ok(take_ins(rt, tree, sid, &key(alloc, id)?)),
        Step::SetInsert(sid, id, col, value) => {
            Ok(set_ins(rt, tree, sid, &key(alloc, id)?, col, value.copy(alloc)?))
        }
    }
}

/// Makes the changes in turn in a tree with no entries, and looks at the entries after each. A change that is refused
/// leaves them as they were, and ends the turn: then there is no tree.
fn changed(
    rt: &impl Abort,
    alloc: Global,
    cases: &[(Step, &str)],
) -> Result<Option<DeltaTree>, Fail>
    ensures { IfOk result (λ made. IfSome made (λ tree. tree.key_cols ≡ 1)) }
{
    let mut tree = DeltaTree::new(alloc, 1);
    let mut before = "";
    for (step, after) in cases {
        let answer = change(rt, alloc, &mut tree, *step)?;
        let text = entries_text(alloc, tree.iter())?;
        match answer {
            Ok(()) => assert_text(rt, text.as_str(), *after, "after a change"),
            Err(NoMemory) => {
                assert_text(rt, text.as_str(), before, "a change that is refused");
                return Ok(None);
            }
        }
        before = after;
    }
    Ok(Some(tree))
}

#[test]
fn each_change_leaves_its_list(rt: HostRuntime) -> Result<(), Fail> {
    static CASES: [(Step, &str); 9] = [
        (Step::Insert(1, 15, "Flo", 5), "1+15,Flo,5"),
        (Step::Insert(0, 5, "Eve", 4), "0+5,Eve,4 1+15,Flo,5"),
        (
            Step::Modify(2, 2, ValueRef::Int(7)),
            "0+5,Eve,4 1+15,Flo,5 2:2=7",
        ),
        (Step::Delete(1, 20), "0+5,Eve,4 1+15,Flo,5 1-20 2:2=7"),
        (
            Step::SetInsert(1, 15, 2, ValueRef::Int(6)),
            "0+5,Eve,4 1+15,Flo,6 1-20 2:2=7",
        ),
        (
            Step::Modify(2, 2, ValueRef::Int(8)),
            "0+5,Eve,4 1+15,Flo,6 1-20 2:2=8",
        ),
        (Step::TakeInsert(0, 5), "1+15,Flo,6 1-20 2:2=8"),
        (
            Step::Insert(3, 40, "Gus", 9),
            "1+15,Flo,6 1-20 2:2=8 3+40,Gus,9",
        ),
        (Step::Delete(0, 10), "0-10 1+15,Flo,6 1-20 2:2=8 3+40,Gus,9"),
    ];
    changed(&rt, rt.alloc(), CASES.as_slice())?;
    Ok(())
}

#[test]
fn inserts_stand_by_key_before_a_delete(rt: HostRuntime) -> Result<(), Fail> {
    static CASES: [(Step, &str); 4] = [
        (Step::Delete(1, 20), "1-20"),
        (Step::Insert(1, 25, "Hal", 6), "1+25,Hal,6 1-20"),
        (Step::Insert(1, 15, "Flo", 5), "1+15,Flo,5 1+25,Hal,6 1-20"),
        (
            Step::Insert(1, 20, "Bea", 8),
            "1+15,Flo,5 1+20,Bea,8 1+25,Hal,6 1-20",
        ),
    ];
    changed(&rt, rt.alloc(), CASES.as_slice())?;
    Ok(())
}

#[test]
fn modifies_stand_by_column_until_their_row_is_deleted(rt: HostRuntime) -> Result<(), Fail> {
    static CASES: [(Step, &str); 6] = [
        (Step::Modify(1, 2, ValueRef::Int(7)), "1:2=7"),
        (Step::Modify(1, 1, ValueRef::Text("Bo")), "1:1=Bo 1:2=7"),
        (Step::Insert(1, 15, "Flo", 5), "1+15,Flo,5 1:1=Bo 1:2=7"),
        (
            Step::Modify(2, 2, ValueRef::Int(9)),
            "1+15,Flo,5 1:1=Bo 1:2=7 2:2=9",
        ),
        (
            Step::Modify(1, 1, ValueRef::Text("Ben")),
            "1+15,Flo,5 1:1=Ben 1:2=7 2:2=9",
        ),
        (Step::Delete(1, 20), "1+15,Flo,5 1-20 2:2=9"),
    ];
    changed(&rt, rt.alloc(), CASES.as_slice())?;
    Ok(())
}

#[test]
fn an_insert_changed_and_deleted_leaves_no_entry(rt: HostRuntime) -> Result<(), Fail> {
    static CASES: [(Step, &str); 3] = [
        (Step::Insert(1, 15, "Flo", 5), "1+15,Flo,5"),
        (
            Step::SetInsert(1, 15, 1, ValueRef::Text("Fay")),
            "1+15,Fay,5",
        ),
        (Step::TakeInsert(1, 15), ""),
    ];
    changed(&rt, rt.alloc(), CASES.as_slice())?;
    Ok(())
}

#[test]
fn a_replaced_row_is_an_insert_and_a_delete_at_one_sid(rt: HostRuntime) -> Result<(), Fail> {
    static CASES: [(Step, &str); 5] = [
        (Step::Modify(1, 2, ValueRef::Int(7)), "1:2=7"),
        (Step::Delete(1, 20), "1-20"),
        (Step::Insert(1, 20, "Bea", 8), "1+20,Bea,8 1-20"),
        (
            Step::SetInsert(1, 20, 2, ValueRef::Int(9)),
            "1+20,Bea,9 1-20",
        ),
        (Step::TakeInsert(1, 20), "1-20"),
    ];
    changed(&rt, rt.alloc(), CASES.as_slice())?;
    Ok(())
}

#[test]
fn a_tree_with_no_entries_says_so(rt: HostRuntime) -> Result<(), Fail> {
    let empty = DeltaTree::new(rt.alloc(), 1);
    assert!(rt; empty.len() == 0);
    assert!(rt; empty.total() == 0);
    assert!(rt; empty.iter().next().is_none());
    Ok(())
}

/// That an insert of the key is there at the SID, or isn't.
fn assert_insert(
    rt: &impl Abort,
    alloc: Global,
    tree: &DeltaTree,
    (sid, id, there): (u64, i64, bool),
) -> Result<(), NoMemory> {
    let key = key(alloc, id)?;
    assert!(rt; sid < 100_000);
    let found = tree.find(sid, Sought::Insert(key.cells())).row.is_some();
    assert_holds_at(rt, found == there, sid);
    Ok(())
}

#[test]
fn a_tree_says_what_is_in_it(rt: HostRuntime) -> Result<(), Fail> {
    static STEPS: [(Step, &str); 4] = [
        (Step::Delete(1, 20), "1-20"),
        (Step::Modify(2, 2, ValueRef::Int(7)), "1-20 2:2=7"),
        (Step::Delete(0, 10), "0-10 1-20 2:2=7"),
        (Step::Insert(1, 20, "Bea", 8), "0-10 1+20,Bea,8 1-20 2:2=7"),
    ];
    static DELETES: [(u64, bool); 4] = [(0, true), (1, true), (2, false), (3, false)];
    static INSERTS: [(u64, i64, bool); 6] = [
        (1, 20, true),
        (1, 15, false),
        (1, 25, false),
        (0, 20, false),
        (2, 20, false),
        (0, 10, false),
    ];
    let Some(tree) = changed(&rt, rt.alloc(), &STEPS)? else {
        return Ok(());
    };
    assert!(rt; tree.len() == 4);
    assert!(rt; tree.total() == -1);
    for (sid, deleted) in &DELETES {
        assert_holds_at(&rt, is_deleted(&tree, *sid) == *deleted, *sid);
    }
    for case in &INSERTS {
        assert_insert(&rt, rt.alloc(), &tree, *case)?;
    }
    Ok(())
}
