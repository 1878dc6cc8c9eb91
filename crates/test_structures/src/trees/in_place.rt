//! Edits of a counted tree beside a plain list, with copies that share its nodes and must stay as they were.
use super::depths::entry;
use counted::CountedTree;
use model::{Change, Entry};
use std::alloc::Global;
use std::process::Abort;
use std::test::Fail;
use test_fixtures::{Draws, key};
use values::{NoMemory, Value};

/// A tree, and the numbers of the entries that it is to hold, in order.
#[derive(Drop)]
struct Pair {
    tree: CountedTree,
    list: Vec<u32>,
}

/// The entry of a number, which is its SID: an insert, a delete or a modify.
fn numbered(alloc: Global, number: u32) -> Result<Entry, NoMemory> {
    let sid = u64::from(number);
    let change = match number % 3 {
        0 => return Ok(entry(alloc, number)?),
        1 => Change::Del(key(alloc, i64::from(number))?),
        _ => Change::Mod(1, Value::Int(i64::from(number))),
    };
    Ok(Entry { sid, change })
}

/// What the entry of a number adds to the rows below it.
fn weight(number: u32) -> i64 {
    match number % 3 {
        0 => 1,
        1 => -1,
        _ => 0,
    }
}

/// That the tree holds the entries of the list.
fn assert_list(rt: &impl Abort, tree: &CountedTree, list: &[u32]) {
    assert!(rt; tree.len() == list.len());
    let mut total = 0_i64;
    for (entry, number) in tree.iter(0, tree.len()).zip(list.iter()) {
        assert!(rt; entry.sid() == u64::from(*number));
        total = total.saturating_add(weight(*number));
    }
    assert!(rt; tree.total() == total);
}

/// Puts an entry in, or in the place of one or of two, or takes one away, in both.
fn edit_both(
    rt: &impl Abort,
    alloc: Global,
    draws: &mut Draws,
    pair: &mut Pair,
) -> Result<(), Fail> {
    let len = pair.tree.len();
    assert!(rt; len == pair.list.len());
    assert!(rt; len < 10_000);
    let at = draws.below(len as u64 + 1) as usize;
    let number = draws.below(1_000_000) as u32;
    match draws.below(6) {
        0 if at < len => {
            pair.tree.remove(alloc, at)?;
            pair.list.remove(at);
        }
        1 if at < len => {
            let entry = numbered(alloc, number)?;
            pair.tree.replace_run(alloc, at, at + 1, entry)?;
            pair.list[at] = number;
        }
        2 if at + 1 < len => {
            let entry = numbered(alloc, number)?;
            pair.tree.replace_run(alloc, at, at + 2, entry)?;
            pair.list[at] = number;
            pair.list.remove(at + 1);
        }
        _ => {
            pair.tree.insert(alloc, at, numbered(alloc, number)?)?;
            pair.list.insert(at, number)?;
        }
    }
    Ok(())
}

/// Makes four hundred such edits.
fn edit_often(
    rt: &impl Abort,
    alloc: Global,
    draws: &mut Draws,
    pair: &mut Pair,
) -> Result<(), Fail> {
    for _ in 0..400 {
        edit_both(rt, alloc, draws, pair)?;
    }
    Ok(())
}

/// A copy of both.
fn copied(alloc: Global, pair: &Pair) -> Result<Pair, Fail> {
    let tree = pair.tree.copy()?;
    let list = Vec::from_slice(alloc, pair.list.as_slice())?;
    Ok(Pair { tree, list })
}

#[test]
fn random_edits_leave_the_list_and_each_copy(rt: HostRuntime) -> Result<(), Fail> {
    let alloc = rt.alloc();
    let mut draws = Draws::new(11);
    let mut copies = Vec::new(alloc);
    let mut pair = Pair {
        tree: CountedTree::new(),
        list: Vec::new(alloc),
    };
    for _ in 0..10 {
        edit_often(&rt, alloc, &mut draws, &mut pair)?;
        assert_list(&rt, &pair.tree, pair.list.as_slice());
        copies.push(copied(alloc, &pair)?)?;
    }
    for kept in &copies {
        assert_list(&rt, &kept.tree, kept.list.as_slice());
    }
    assert!(&rt; pair.tree.depth() == 3);
    Ok(())
}
