//! Entries that go on sharing what they do: at another SID, in a tree that is made of them, and in place of others.
use super::depths::entry;
use counted::{ChangeRef, CountedTree, SharedEntry};
use std::alloc::Global;
use std::process::Abort;
use std::test::Fail;
use values::Value;

/// The SID of the entry, and the number that it inserts; -1 where it inserts none.
fn spot_of(entry: &SharedEntry) -> (u64, i64) {
    let number = match entry.change() {
        ChangeRef::Ins(row) => match row.cells().first() {
            Some(Value::Int(number)) => *number,
            _ => -1,
        },
        ChangeRef::Del(_) | ChangeRef::Mod(..) => -1,
    };
    (entry.sid(), number)
}

/// So many entries, each of which inserts its own SID as a number.
fn shared_entries(alloc: Global, count: u32) -> Result<Vec<SharedEntry>, Fail> {
    let mut entries = Vec::new(alloc);
    for key in 0..count {
        entries.push(SharedEntry::new(alloc, entry(alloc, key)?)?)?;
    }
    Ok(entries)
}

/// That the entries of the tree are in these spots.
fn assert_spots(rt: &impl Abort, tree: &CountedTree, spots: &[(u64, i64)]) {
    let mut left = spots.iter();
    for entry in tree.iter(0, tree.len()) {
        assert!(rt; left.next() == Some(&spot_of(entry)));
    }
    assert!(rt; left.next().is_none());
}

#[test]
fn an_entry_at_another_place_inserts_the_same_row(rt: HostRuntime) -> Result<(), Fail> {
    let first = SharedEntry::new(rt.alloc(), entry(rt.alloc(), 7)?)?;
    let moved = first.with_sid(9)?;
    assert!(rt; spot_of(&first) == (7, 7));
    assert!(rt; spot_of(&moved) == (9, 7));
    Ok(())
}

#[test]
fn a_tree_is_made_of_shared_entries_and_takes_one_in_place_of_others(
    rt: HostRuntime,
) -> Result<(), Fail> {
    let entries = shared_entries(rt.alloc(), 5)?;
    assert!(rt; entries.len() < 1000);
    let mut tree = CountedTree::from_shared(rt.alloc(), entries)?;
    assert_spots(&rt, &tree, &[(0, 0), (1, 1), (2, 2), (3, 3), (4, 4)]);
    let put = SharedEntry::new(rt.alloc(), entry(rt.alloc(), 7)?)?.with_sid(2)?;
    let len = tree.len();
    assert!(rt; len == 5);
    tree.replace_shared(rt.alloc(), 1, 4, put)?;
    assert_spots(&rt, &tree, &[(0, 0), (2, 7), (4, 4)]);
    Ok(())
}
