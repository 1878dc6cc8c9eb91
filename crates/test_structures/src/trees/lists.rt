//! A tree beside a plain list of what it is to hold: random changes, many inserts at one SID, entries taken away one by one,
//! and changes of 257 entries, of which each growth may be refused, also where a copy shares all nodes.
ghost use Rattle.std.specs.Prelude.{◌≡◌, ◌≤◌, IfOk, length};

use super::places::{assert_key, made_again};
use super::{change, put_ins};
use delta::{ChangeRef, DeltaTree, SharedEntry};
use std::alloc::Global;
use std::process::Abort;
use std::test::Fail;
use test_fixtures::{Draws, Step, item};
use values::{Value, ValueRef};

/// The SIDs are the numbers below this one, and at each there are three keys.
const SIDS: u64 = 300;

/// Where an entry is among those at its SID.
#[derive(Clone, Copy, PartialEq, Eq, PartialOrd, Ord)]
enum Spot {
    /// The insert of a key.
    Insert(i64),
    Delete,
    /// The modify of a column.
    Modify(usize),
}

/// An entry of the plain list.
#[derive(Clone, Copy)]
struct Kept {
    sid: u64,
    spot: Spot,
    /// The last cell of an insert, the key of a delete, the cell of a modify.
    number: i64,
}

/// A tree, and what it is to hold, in order.
#[derive(Drop)]
struct Pair {
    tree: DeltaTree,
    list: Vec<Kept>,
}

/// How many of the entries are before this place.
fn index_of(list: &[Kept], sid: u64, spot: Spot) -> usize
    ensures { result ≤ length list.now }
{
    list.partition_point(|kept| (kept.sid, kept.spot) < (sid, spot))
}

/// Whether an entry is at this place.
fn is_there(list: &[Kept], sid: u64, spot: Spot) -> bool {
    match list.get(index_of(list, sid, spot)) {
        Some(kept) => kept.sid == sid && kept.spot == spot,
        None => false,
    }
}

/// Puts the entry in, in place of one that is there.
fn put(list: &mut Vec<Kept>, sid: u64, spot: Spot, number: i64) -> Result<(), Fail> {
    list.retain(|kept| kept.sid != sid || kept.spot != spot);
    let index = index_of(list.as_slice(), sid, spot);
    list.insert(index, Kept { sid, spot, number })?;
    Ok(())
}

/// Makes the change in the list.
fn change_list(list: &mut Vec<Kept>, step: Step) -> Result<(), Fail> {
    match step {
        Step::Insert(sid, id, _, number) => put(list, sid, Spot::Insert(id), number),
        Step::SetInsert(sid, id, _, ValueRef::Int(number)) => {
            put(list, sid, Spot::Insert(id), number)
        }
        Step::TakeInsert(sid, id) => {
            list.retain(|kept| kept.sid != sid || kept.spot != Spot::Insert(id));
            Ok(())
        }
        Step::Delete(sid, id) => {
            list.retain(|kept| kept.sid != sid || kept.spot < Spot::Delete);
            put(list, sid, Spot::Delete, id)
        }
        Step::Modify(sid, col, ValueRef::Int(number)) => put(list, sid, Spot::Modify(col), number),
        Step::SetInsert(..) | Step::Modify(..) => Ok(()),
    }
}

/// Whether the cell is the number.
fn is_number(cell: Option<&Value>, number: i64) -> bool {
    match cell {
        Some(Value::Int(found)) => *found == number,
        _ => false,
    }
}

/// Whether the entry is the one of the list.
fn is_kept(entry: &SharedEntry, kept: &Kept) -> bool {
    entry.sid() == kept.sid
        && match (entry.change(), kept.spot) {
            (ChangeRef::Ins(row), Spot::Insert(id)) => {
                is_number(row.cells().first(), id) && is_number(row.cells().last(), kept.number)
            }
            (ChangeRef::Del(key), Spot::Delete) => is_number(key.cells().first(), kept.number),
            (ChangeRef::Mod(col, value), Spot::Modify(other)) => {
                col == other && value == ValueRef::Int(kept.number)
            }
            _ => false,
        }
}

/// That the tree holds the entries of the list.
fn assert_list(rt: &impl Abort, tree: &DeltaTree, list: &[Kept]) {
    assert!(rt; tree.len() == list.len());
    for (entry, kept) in tree.iter().zip(list.iter()) {
        assert!(rt; is_kept(entry, kept), "at {}", kept.sid);
    }
}

/// Makes the change in both.
fn change_both(rt: &impl Abort, alloc: Global, pair: &mut Pair, step: Step) -> Result<(), Fail>
    requires keyed { pair.old.tree.key_cols ≡ 1 }
    ensures keyed { pair.new.tree.key_cols ≡ 1 }
{
    change(rt, alloc, &mut pair.tree, step)??;
    change_list(&mut pair.list, step)
}

/// Makes the change in both; where a growth of the tree is refused, in neither.
fn change_unless_refused(
    rt: &impl Abort,
    alloc: Global,
    pair: &mut Pair,
    step: Step,
) -> Result<(), Fail>
    requires keyed { pair.old.tree.key_cols ≡ 1 }
    ensures keyed { pair.new.tree.key_cols ≡ 1 }
{
    if change(rt, alloc, &mut pair.tree, step)?.is_ok() {
        change_list(&mut pair.list, step)?;
    }
    Ok(())
}

/// A change that may be made: of a row that is inserted already, its cell is changed, or it is taken away.
fn drawn_step(draws: &mut Draws, list: &[Kept]) -> Option<Step> {
    let sid = draws.below(SIDS);
    let id = draws.below(3) as i64;
    let number = draws.below(1_000) as i64;
    if draws.below(3) > 0 {
        return Some(if !is_there(list, sid, Spot::Insert(id)) {
            Step::Insert(sid, id, "x", number)
        } else if number % 2 == 0 {
            Step::TakeInsert(sid, id)
        } else {
            Step::SetInsert(sid, id, 2, ValueRef::Int(number))
        });
    }
    if is_there(list, sid, Spot::Delete) {
        None
    } else if number < 50 {
        Some(Step::Delete(sid, id))
    } else if id == 0 {
        Some(Step::Modify(sid, 1, ValueRef::Int(number)))
    } else {
        Some(Step::Modify(sid, 2, ValueRef::Int(number)))
    }
}

/// Makes so many random changes in both.
fn change_randomly(
    rt: &impl Abort,
    alloc: Global,
    draws: &mut Draws,
    pair: &mut Pair,
    count: u32,
) -> Result<(), Fail>
    requires keyed { pair.old.tree.key_cols ≡ 1 }
    ensures keyed { pair.new.tree.key_cols ≡ 1 }
{
    for _ in 0..count {
        if let Some(step) = drawn_step(draws, pair.list.as_slice()) {
            change_both(rt, alloc, pair, step)?;
        }
    }
    Ok(())
}

/// A copy of both.
fn copied(alloc: Global, pair: &Pair) -> Result<Pair, Fail> {
    let tree = pair.tree.copy()?;
    let list = Vec::from_slice(alloc, pair.list.as_slice())?;
    Ok(Pair { tree, list })
}

#[test]
fn ten_thousand_random_changes_leave_the_list_and_each_copy(rt: HostRuntime) -> Result<(), Fail> {
    let alloc = rt.alloc();
    let mut draws = Draws::new(7);
    let mut copies = Vec::new(alloc);
    let mut pair = Pair {
        tree: DeltaTree::new(alloc, 1),
        list: Vec::new(alloc),
    };
    for _ in 0..100 {
        change_randomly(&rt, alloc, &mut draws, &mut pair, 100)?;
        assert_list(&rt, &pair.tree, pair.list.as_slice());
        copies.push(copied(alloc, &pair)?)?;
    }
    for kept in &copies {
        assert_list(&rt, &kept.tree, kept.list.as_slice());
    }
    assert!(&rt; pair.tree.depth() == 3);
    Ok(())
}

/// Inserts of each second key from 0 on, all at one SID.
fn many_inserts(rt: &impl Abort, alloc: Global, sid: u64, count: u16) -> Result<DeltaTree, Fail> {
    let mut tree = DeltaTree::new(alloc, 1);
    for place in 0..count {
        let row = item(alloc, i64::from(place) * 2, "x", 0)?;
        put_ins(rt, &mut tree, sid, row)?;
    }
    Ok(tree)
}

#[test]
fn thousands_of_inserts_at_one_sid_are_found_by_key(rt: HostRuntime) -> Result<(), Fail> {
    let alloc = rt.alloc();
    let tree = many_inserts(&rt, alloc, 5, 3_000)?;
    assert!(&rt; tree.len() == 3_000);
    for place in 0..3_000_u16 {
        let id = i64::from(place) * 2;
        let index = usize::from(place);
        let rid = 5 + u64::from(place);
        assert_key(&rt, alloc, &tree, "there", (5, id, index, rid, true))?;
        assert_key(
            &rt,
            alloc,
            &tree,
            "next",
            (5, id + 1, index + 1, rid + 1, false),
        )?;
    }
    Ok(())
}

/// 257 entries: inserts at as many SIDs less two, and two modifies past them.
fn wide(rt: &impl Abort, alloc: Global) -> Result<Pair, Fail>
    ensures { IfOk result (λ pair. pair.tree.key_cols ≡ 1) }
{
    let mut pair = Pair {
        tree: DeltaTree::new(alloc, 1),
        list: Vec::new(alloc),
    };
    for place in 0..255_u16 {
        let step = Step::Insert(u64::from(place), i64::from(place), "x", 0);
        change_both(rt, alloc, &mut pair, step)?;
    }
    for col in 1..3 {
        let step = Step::Modify(300, col, ValueRef::Int(7));
        change_both(rt, alloc, &mut pair, step)?;
    }
    Ok(pair)
}

/// Changes of those entries.
static CHANGES: [Step; 6] = [
    Step::Insert(100, 50, "y", 1),
    Step::SetInsert(100, 100, 2, ValueRef::Int(2)),
    Step::TakeInsert(128, 128),
    Step::Modify(200, 2, ValueRef::Int(3)),
    Step::Delete(300, 600),
    Step::Delete(7, 14),
];

#[test]
fn a_refused_change_of_257_entries_leaves_them(rt: HostRuntime) -> Result<(), Fail> {
    let alloc = rt.alloc();
    let mut pair = wide(&rt, alloc)?;
    for step in &CHANGES {
        change_unless_refused(&rt, alloc, &mut pair, *step)?;
        assert_list(&rt, &pair.tree, pair.list.as_slice());
    }
    Ok(())
}

/// Makes the change in both, while a copy shares all nodes of the tree and goes on listing what it listed; where a growth of
/// the tree is refused, in neither.
fn change_beside_copy(
    rt: &impl Abort,
    alloc: Global,
    pair: &mut Pair,
    step: Step,
) -> Result<(), Fail>
    requires keyed { pair.old.tree.key_cols ≡ 1 }
    ensures keyed { pair.new.tree.key_cols ≡ 1 }
{
    let kept = pair.tree.copy()?;
    let answer = change(rt, alloc, &mut pair.tree, step)?;
    assert_list(rt, &kept, pair.list.as_slice());
    if answer.is_ok() {
        change_list(&mut pair.list, step)?;
    }
    assert_list(rt, &pair.tree, pair.list.as_slice());
    Ok(())
}

#[test]
fn a_refused_change_of_257_shared_entries_leaves_them(rt: HostRuntime) -> Result<(), Fail> {
    let alloc = rt.alloc();
    let mut pair = wide(&rt, alloc)?;
    for step in &CHANGES {
        change_beside_copy(&rt, alloc, &mut pair, *step)?;
    }
    Ok(())
}

#[test]
fn a_refused_change_of_full_shared_leaves_leaves_them(rt: HostRuntime) -> Result<(), Fail> {
    let alloc = rt.alloc();
    let mut pair = wide(&rt, alloc)?;
    pair.tree = made_again(alloc, &pair.tree)?;
    for step in &CHANGES {
        change_beside_copy(&rt, alloc, &mut pair, *step)?;
    }
    Ok(())
}

#[test]
fn a_refused_copy_of_257_entries_leaves_them(rt: HostRuntime) -> Result<(), Fail> {
    let alloc = rt.alloc();
    let pair = wide(&rt, alloc)?;
    for made in [pair.tree.copy(), made_again(alloc, &pair.tree)] {
        if let Ok(tree) = made {
            assert_list(&rt, &tree, pair.list.as_slice());
        }
        assert_list(&rt, &pair.tree, pair.list.as_slice());
    }
    Ok(())
}
