//! Depths of the counted tree, one entry at a time and all at once.
use counted::CountedTree;
use model::{Change, Entry};
use std::alloc::{AllocError, Global};
use std::process::Abort;
use std::test::Fail;
use values::{Row, Value};

pub(super) fn entry(alloc: Global, key: u32) -> Result<Entry, AllocError> {
    let mut cells = Vec::with_capacity(alloc, 1)?;
    cells.push(Value::Int(i64::from(key)))?;
    Ok(Entry {
        sid: u64::from(key),
        change: Change::Ins(Row::new(cells)),
    })
}

/// A tree of so many entries, each put in behind the others.
fn ascending(rt: &impl Abort, alloc: Global, count: u32) -> Result<CountedTree, Fail> {
    let mut tree = CountedTree::new();
    for key in 0..count {
        let len = tree.len();
        assert!(rt; len < 5000);
        tree.insert(alloc, len, entry(alloc, key)?)?;
    }
    Ok(tree)
}

/// The same, each put in before the others.
fn descending(rt: &impl Abort, alloc: Global, count: u32) -> Result<CountedTree, Fail> {
    let mut tree = CountedTree::new();
    for key in 0..count {
        assert!(rt; tree.len() < 5000);
        tree.insert(alloc, 0, entry(alloc, count - key)?)?;
    }
    Ok(tree)
}

/// The same, made of their list.
fn at_once(rt: &impl Abort, alloc: Global, count: u32) -> Result<CountedTree, Fail> {
    let mut list = Vec::new(alloc);
    for key in 0..count {
        list.push(entry(alloc, key)?)?;
    }
    assert!(rt; list.len() < 5000);
    Ok(CountedTree::from_sorted(alloc, list)?)
}

/// That the tree has so many entries and levels.
fn assert_depth(rt: &impl Abort, tree: &CountedTree, count: u32, depth: usize) {
    assert!(rt; tree.len() == count as usize);
    assert!(rt; tree.depth() == depth);
}

/// Takes the entries away from the front.
fn drain(rt: &impl Abort, alloc: Global, tree: &mut CountedTree) -> Result<(), Fail> {
    for _ in 0..tree.len() {
        let len = tree.len();
        assert!(rt; len > 0);
        assert!(rt; len < 5000);
        tree.remove(alloc, 0)?;
    }
    assert!(rt; tree.total() == 0);
    Ok(())
}

/// That each of these trees has so many levels, and that one keeps its entries when a copy of it is drained.
fn assert_depths(rt: &impl Abort, alloc: Global, (count, depth): (u32, usize)) -> Result<(), Fail> {
    assert_depth(rt, &descending(rt, alloc, count)?, count, depth);
    assert_depth(rt, &at_once(rt, alloc, count)?, count, depth);
    let kept = ascending(rt, alloc, count)?;
    let mut drained = kept.copy()?;
    drain(rt, alloc, &mut drained)?;
    assert_depth(rt, &drained, 0, 1);
    assert_depth(rt, &kept, count, depth);
    Ok(())
}

#[test]
fn depth_follows_the_count(rt: HostRuntime) -> Result<(), Fail> {
    for case in [(0, 1), (15, 1), (17, 2), (127, 2), (257, 3)] {
        assert_depths(&rt, rt.alloc(), case)?;
    }
    Ok(())
}

/// Entries that come in order leave eight or nine in each full node but the last one of a level, and a list is packed: so that a
/// tree of so many entries may have either number of levels, by how it was made.
#[test]
fn depth_follows_how_the_tree_was_made(rt: HostRuntime) -> Result<(), Fail> {
    for (count, packed, halved) in [(200, 2, 3), (256, 2, 3), (1500, 3, 4), (3000, 3, 4)] {
        assert_depth(&rt, &at_once(&rt, rt.alloc(), count)?, count, packed);
        assert_depth(&rt, &ascending(&rt, rt.alloc(), count)?, count, halved);
        assert_depth(&rt, &descending(&rt, rt.alloc(), count)?, count, halved);
    }
    Ok(())
}
