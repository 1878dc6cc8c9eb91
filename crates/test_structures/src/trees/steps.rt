//! A caller that counts the nodes which its searches read. A count has no bytes, so that a test can't print it: what it comes
//! to is proved of the functions that count, here and in the caller, and the tests run them.
ghost use Rattle.std.specs.Prelude.{◌≡◌, ◌+◌, ◌*◌, ◌^◌, ◌<◌, ◌≤◌, length};

use super::put_ins;
use delta::{DeltaTree, Steps};
use std::alloc::Global;
use std::marker::Brand;
use std::process::Abort;
use std::sync::ledger::{Blank, Ledger};
use std::test::Fail;
use test_fixtures::item;

/// Takes a count, which has come to so many.
fn expect_count<L: Ledger>(_steps: Steps<L>, _count: usize)
    requires { _steps ≡ _count }
{}

/// Searches by SID and by position, and says how many levels the tree has: each search reads one node on each of them.
fn search_both<L: Ledger>(tree: &DeltaTree, sid: u64, rid: u64, steps: &mut Steps<L>) -> usize
    requires rid { rid < 2 ^ 63 }

    // The tree has two levels then, whatever its nodes are.
    requires more { 17 ≤ length tree.now.entries }
    requires fewer { length tree.now.entries < 128 }
    ensures levels { result ≡ 2 }
    ensures steps { steps.new ≡ steps.old + 2 * result }
{
    let _shift = tree.shift_before(sid, steps);
    let _place = tree.find_rid(rid, steps);
    tree.depth()
}

/// The same, by a count that starts here, at 0: both searches have read twice as many nodes as there are levels.
fn search_counted<L: Ledger>(tree: &DeltaTree, sid: u64, rid: u64, blank: Blank) -> usize
    requires name { blank.name ≡ L.name }
    requires parts { blank.parts ≡ L.parts }
    requires some { 0 < L.parts }
    requires rid { rid < 2 ^ 63 }
    requires more { 17 ≤ length tree.now.entries }
    requires fewer { length tree.now.entries < 128 }
    ensures { result ≡ 2 }
{
    let mut steps = Steps::<L>::new(blank);
    let levels = search_both(tree, sid, rid, &mut steps);
    expect_count(steps, 2 * levels);
    levels
}

/// The same, where the caller has no ledger of its own.
fn levels_searched(tree: &DeltaTree, sid: u64, rid: u64) -> usize
    requires rid { rid < 2 ^ 63 }
    requires more { 17 ≤ length tree.now.entries }
    requires fewer { length tree.now.entries < 128 }
    ensures { result ≡ 2 }
{
    search_counted::<Brand>(tree, sid, rid, Blank::new(1))
}

/// A tree of so many inserts at the SIDs from 0 on.
fn inserts(rt: &impl Abort, alloc: Global, count: u32) -> Result<DeltaTree, Fail> {
    let mut tree = DeltaTree::new(alloc, 1);
    for sid in 0..count {
        let row = item(alloc, i64::from(sid), "Ann", 1)?;
        put_ins(rt, &mut tree, u64::from(sid), row)?;
    }
    Ok(tree)
}

#[test]
fn two_searches_read_a_node_a_level_each(rt: HostRuntime) -> Result<(), Fail> {
    for count in [17, 64, 127] {
        let tree = inserts(&rt, rt.alloc(), count)?;
        let len = tree.len();
        assert!(rt; len >= 17 && len < 128);
        let middle = u64::from(count / 2);
        assert!(rt; levels_searched(&tree, middle, middle) == tree.depth());
    }
    Ok(())
}
