//! Entries taken away one by one, beside a list of their SIDs.
ghost use Rattle.std.specs.Prelude.{◌<◌};

use super::depths::entry;
use counted::CountedTree;
use std::alloc::Global;
use std::process::Abort;
use std::test::Fail;

/// Which entry is taken away next.
#[derive(Clone, Copy)]
enum Taken {
    First,
    Middle,
    Last,
}

impl Taken {
    /// Its index among so many.
    fn index(self, count: usize) -> usize
        requires { 0 < count }
        ensures { result < count }
    {
        match self {
            Taken::First => 0,
            Taken::Middle => count / 2,
            Taken::Last => count - 1,
        }
    }
}

/// That the tree holds entries at these SIDs.
fn assert_sids(rt: &impl Abort, tree: &CountedTree, sids: &[u64]) {
    assert!(rt; tree.len() == sids.len());
    for (entry, sid) in tree.iter(0, tree.len()).zip(sids.iter()) {
        assert!(rt; entry.sid() == *sid);
    }
}

/// Puts an entry at the end.
fn put_one(
    rt: &impl Abort,
    alloc: Global,
    tree: &mut CountedTree,
    sids: &mut Vec<u64>,
    sid: u32,
) -> Result<(), Fail> {
    let len = tree.len();
    assert!(rt; len < 1000);
    tree.insert(alloc, len, entry(alloc, sid)?)?;
    sids.push(u64::from(sid))?;
    Ok(())
}

/// Takes an entry away.
fn take_one(
    rt: &impl Abort,
    alloc: Global,
    tree: &mut CountedTree,
    sids: &mut Vec<u64>,
    taken: Taken,
) -> Result<(), Fail> {
    let len = tree.len();
    assert!(rt; 0 < len);
    assert!(rt; len < 1000);
    assert!(rt; len == sids.len());
    let at = taken.index(len);
    tree.remove(alloc, at)?;
    sids.remove(at);
    assert_sids(rt, tree, sids.as_slice());
    Ok(())
}

/// Puts 257 entries in one by one, and takes them away again.
fn take_all(rt: &impl Abort, alloc: Global, taken: Taken) -> Result<(), Fail> {
    let mut tree = CountedTree::new();
    let mut sids = Vec::new(alloc);
    for sid in 0..257 {
        put_one(rt, alloc, &mut tree, &mut sids, sid)?;
    }
    assert!(rt; tree.depth() == 3);
    for _ in 0..257 {
        take_one(rt, alloc, &mut tree, &mut sids, taken)?;
    }
    assert!(rt; tree.depth() == 1);
    Ok(())
}

#[test]
fn entries_go_from_the_front_the_middle_and_the_back(rt: HostRuntime) -> Result<(), Fail> {
    for taken in [Taken::First, Taken::Middle, Taken::Last] {
        take_all(&rt, rt.alloc(), taken)?;
    }
    Ok(())
}
