//! The counted tree made of a list, and its nodes shared with copies that must not change.
use crate::assertions::assert_holds_at;
use counted::CountedTree;
use model::{Change, Entry};
use std::alloc::{AllocError, Global};
use std::process::Abort;
use std::test::Fail;
use values::{Row, Value};

/// Inserts of one cell, at the SIDs from 0 on.
fn entries(alloc: Global, count: u32) -> Result<Vec<Entry>, AllocError> {
    let mut out = Vec::new(alloc);
    for number in 0..count {
        let mut cells = Vec::with_capacity(alloc, 1)?;
        cells.push(Value::Int(i64::from(number)))?;
        out.push(Entry {
            sid: u64::from(number),
            change: Change::Ins(Row::new(cells)),
        })?;
    }
    Ok(out)
}

/// Whether the SIDs of the entries are these, one after another.
fn counts_up(tree: &CountedTree, from: u64, to: u64) -> bool {
    let mut next = from;
    for entry in tree.iter(0, tree.len()) {
        if entry.sid() != next || next >= to {
            return false;
        }
        next += 1;
    }
    next == to
}

#[test]
fn a_list_fills_the_fewest_levels(rt: HostRuntime) -> Result<(), Fail> {
    let alloc = rt.alloc();
    for (count, depth) in [
        (0, 1),
        (1, 1),
        (16, 1),
        (17, 2),
        (31, 2),
        (33, 2),
        (256, 2),
        (257, 3),
        (1000, 3),
    ] {
        let list = entries(alloc, count)?;
        assert!(&rt; list.len() < 2000);
        let tree = CountedTree::from_sorted(alloc, list)?;
        let is_due = tree.depth() == depth && counts_up(&tree, 0, u64::from(count));
        assert_holds_at(&rt, is_due, u64::from(count));
    }
    Ok(())
}

/// Takes the last entry away, or the one in the midst, in turn.
fn take_one(
    rt: &impl Abort,
    alloc: Global,
    tree: &mut CountedTree,
    turn: usize,
) -> Result<(), Fail> {
    let len = tree.len();
    assert!(rt; len > 0);
    assert!(rt; len < 2000);
    let at = if turn % 2 == 0 { len / 2 } else { len - 1 };
    tree.remove(alloc, at)?;
    Ok(())
}

/// That the one tree has no entries any more, and its copy all of them.
fn assert_taken(rt: &impl Abort, tree: &CountedTree, kept: &CountedTree) {
    assert!(rt; tree.len() == 0);
    assert!(rt; tree.depth() == 1);
    assert!(rt; kept.depth() == 3);
    assert!(rt; counts_up(kept, 0, 257));
}

#[test]
fn a_copy_keeps_the_entries_that_an_edit_takes(rt: HostRuntime) -> Result<(), Fail> {
    let alloc = rt.alloc();
    let list = entries(alloc, 257)?;
    assert!(&rt; list.len() < 2000);
    let mut tree = CountedTree::from_sorted(alloc, list)?;
    let kept = tree.copy()?;
    for left in 0..257_usize {
        take_one(&rt, alloc, &mut tree, left)?;
    }
    assert_taken(&rt, &tree, &kept);
    Ok(())
}
