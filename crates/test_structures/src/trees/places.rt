//! What is at a SID and at a position of three layers' trees, over the base rows with the keys 10, 20 and 30. Each
//! layer is over the image of the one before it, so its SIDs are positions there.
ghost use Rattle.std.specs.Prelude.{◌≡◌, ◌<◌, ◌^◌, IfOk};

use super::changed;
use crate::assertions::{assert_holds, assert_holds_at, assert_text, assert_text_at};
use delta::{DeltaTree, Place, Sought, Steps};
use std::alloc::Global;
use std::marker::Brand;
use std::process::Abort;
use std::sync::ledger::{Blank, Ledger};
use std::test::Fail;
use test_fixtures::{Step, copy_entry, entries_text, key};
use values::{NoMemory, ValueRef};

/// The greatest position that a look-up takes.
const MOST: u64 = 9_223_372_036_854_775_807;

/// A SID and the number of a key; how many entries are before its insert there, at which position that is or would
/// stand, and whether it is there.
pub(super) type KeyCase = (u64, i64, usize, u64, bool);

/// Inserts (15, Flo, 5) and deletes 30: the image has the keys 10, 15 and 20.
static READ: [(Step, &str); 2] = [
    (Step::Insert(1, 15, "Flo", 5), "1+15,Flo,5"),
    (Step::Delete(2, 30), "1+15,Flo,5 2-30"),
];

/// Modifies 15 and inserts (30, Zed, 7): the keys 10, 15, 20 and 30.
static WRITE: [(Step, &str); 2] = [
    (Step::Modify(1, 2, ValueRef::Int(6)), "1:2=6"),
    (Step::Insert(3, 30, "Zed", 7), "1:2=6 3+30,Zed,7"),
];

/// Deletes 10 and inserts (35, Gus, 8): the keys 15, 20, 30 and 35.
static TRANS: [(Step, &str); 2] = [
    (Step::Delete(0, 10), "0-10"),
    (Step::Insert(4, 35, "Gus", 8), "0-10 4+35,Gus,8"),
];

/// An insert, a delete, another insert and two modifies: three SIDs, of which one has two entries.
static MIXED: [(Step, &str); 5] = [
    (Step::Insert(1, 20, "Bea", 8), "1+20,Bea,8"),
    (Step::Delete(1, 20), "1+20,Bea,8 1-20"),
    (Step::Insert(3, 40, "Gus", 9), "1+20,Bea,8 1-20 3+40,Gus,9"),
    (
        Step::Modify(2, 2, ValueRef::Int(7)),
        "1+20,Bea,8 1-20 2:2=7 3+40,Gus,9",
    ),
    (
        Step::Modify(2, 1, ValueRef::Text("Cy")),
        "1+20,Bea,8 1-20 2:1=Cy 2:2=7 3+40,Gus,9",
    ),
];

/// A tree of the same entries, made from copies of them.
pub(super) fn made_again(alloc: Global, tree: &DeltaTree) -> Result<DeltaTree, NoMemory>
    requires keyed { tree.now.key_cols ≡ 1 }
    ensures keyed { IfOk result (λ made. made.key_cols ≡ 1) }
{
    let mut entries = Vec::with_capacity(alloc, tree.len())?;
    for entry in tree.iter() {
        entries.push(copy_entry(alloc, entry)?)?;
    }
    DeltaTree::from_sorted(alloc, 1, entries)
}

/// Whether no look-up finds an entry.
fn has_none(tree: &DeltaTree) -> bool {
    let at_sid = tree.entries_at(0).next().is_none();
    let from_first = tree.iter().next().is_none();
    at_sid & from_first & (tree.find(3, Sought::Base).index == 0)
}

#[test]
fn a_tree_with_no_entries_has_none_anywhere(rt: HostRuntime) -> Result<(), Fail> {
    let tree = DeltaTree::new(rt.alloc(), 1);
    assert_holds(&rt, has_none(&tree), "look-ups");
    let copied = tree.copy()?;
    assert_holds(&rt, copied.len() == 0, "copied");
    let again = made_again(rt.alloc(), &tree)?;
    assert_holds(&rt, again.len() == 0, "made again");
    Ok(())
}

/// That the entries at a SID are these.
fn assert_entries_at(
    rt: &impl Abort,
    alloc: Global,
    tree: &DeltaTree,
    sid: u64,
    want: &str,
) -> Result<(), NoMemory> {
    let text = entries_text(alloc, tree.entries_at(sid))?;
    assert_text_at(rt, text.as_str(), want, sid);
    Ok(())
}

#[test]
fn the_entries_at_a_sid_are_found(rt: HostRuntime) -> Result<(), Fail> {
    static CASES: [(u64, &str); 5] = [
        (0, ""),
        (1, "1+20,Bea,8 1-20"),
        (2, "2:1=Cy 2:2=7"),
        (3, "3+40,Gus,9"),
        (4, ""),
    ];
    let Some(tree) = changed(&rt, rt.alloc(), MIXED.as_slice())? else {
        return Ok(());
    };
    for (sid, want) in &CASES {
        assert_entries_at(&rt, rt.alloc(), &tree, *sid, *want)?;
    }
    Ok(())
}

/// A SID; how many entries are before what becomes of its base row, and the entries from there on.
type BaseCase<'a> = (u64, usize, &'a str);

/// That what becomes of a base row is there.
fn assert_base(
    rt: &impl Abort,
    alloc: Global,
    tree: &DeltaTree,
    (sid, index, want): BaseCase<'_>,
) -> Result<(), NoMemory> {
    assert!(rt; sid <= MOST);
    let found = tree.find(sid, Sought::Base);
    assert_holds_at(rt, found.index == index, sid);
    let text = entries_text(alloc, found.entries)?;
    assert_text_at(rt, text.as_str(), want, sid);
    Ok(())
}

#[test]
fn a_base_rows_changes_stand_past_the_inserts_at_its_sid(rt: HostRuntime) -> Result<(), Fail> {
    static CASES: [BaseCase<'static>; 5] = [
        (0, 0, "1+20,Bea,8 1-20 2:1=Cy 2:2=7 3+40,Gus,9"),
        (1, 1, "1-20 2:1=Cy 2:2=7 3+40,Gus,9"),
        (2, 2, "2:1=Cy 2:2=7 3+40,Gus,9"),
        (3, 5, ""),
        (4, 5, ""),
    ];
    let Some(tree) = changed(&rt, rt.alloc(), MIXED.as_slice())? else {
        return Ok(());
    };
    for case in &CASES {
        assert_base(&rt, rt.alloc(), &tree, *case)?;
    }
    Ok(())
}

/// That a tree has the mixed entries.
fn assert_mixed(
    rt: &impl Abort,
    alloc: Global,
    tree: &DeltaTree,
    label: &str,
) -> Result<(), NoMemory> {
    const ALL: &str = "1+20,Bea,8 1-20 2:1=Cy 2:2=7 3+40,Gus,9";
    let text = entries_text(alloc, tree.iter())?;
    assert_text(rt, text.as_str(), ALL, label);
    assert_holds(rt, tree.len() == 5 && tree.total() == 1, label);
    Ok(())
}

/// That a copy of such a tree has them.
fn assert_copied(rt: &impl Abort, alloc: Global, tree: &DeltaTree) -> Result<(), NoMemory> {
    let copied = tree.copy()?;
    assert_mixed(rt, alloc, &copied, "copied")
}

/// That a tree made of them has them.
fn assert_made_again(rt: &impl Abort, alloc: Global, tree: &DeltaTree) -> Result<(), NoMemory>
    requires keyed { tree.now.key_cols ≡ 1 }
{
    let again = made_again(alloc, tree)?;
    assert_mixed(rt, alloc, &again, "made again")
}

#[test]
fn a_copy_and_a_tree_made_again_have_the_same_entries(rt: HostRuntime) -> Result<(), Fail> {
    let alloc = rt.alloc();
    let Some(tree) = changed(&rt, alloc, MIXED.as_slice())? else {
        return Ok(());
    };
    assert_copied(&rt, alloc, &tree)?;
    assert_made_again(&rt, alloc, &tree)?;
    Ok(())
}

/// That a tree finds a key at a SID so.
pub(super) fn assert_key(
    rt: &impl Abort,
    alloc: Global,
    tree: &DeltaTree,
    label: &str,
    (sid, id, index, rid, found): KeyCase,
) -> Result<(), NoMemory> {
    assert!(rt; sid <= MOST);
    let key = key(alloc, id)?;
    let there = tree.find(sid, Sought::Insert(key.cells()));
    assert_holds(
        rt,
        (there.index, there.rid, there.row.is_some()) == (index, rid, found),
        label,
    );
    Ok(())
}

/// What the entries below the SID add, by a count that is let go.
fn shift_of<L: Ledger>(tree: &DeltaTree, sid: u64, blank: Blank) -> i64
    requires name { blank.name ≡ L.name }
    requires parts { blank.parts ≡ L.parts }
    requires some { 0 < L.parts }
{
    let mut steps = Steps::<L>::new(blank);
    tree.shift_before(sid, &mut steps)
}

/// The same, where the caller has no ledger of its own.
fn shift_at(tree: &DeltaTree, sid: u64) -> i64 {
    shift_of::<Brand>(tree, sid, Blank::new(1))
}

/// Where the row at a position comes from, by a count that is let go.
fn row_of<L: Ledger>(tree: &DeltaTree, rid: u64, blank: Blank) -> Place
    requires name { blank.name ≡ L.name }
    requires parts { blank.parts ≡ L.parts }
    requires some { 0 < L.parts }
    requires rid { rid < 2 ^ 63 }
{
    let mut steps = Steps::<L>::new(blank);
    tree.find_rid(rid, &mut steps)
}

/// The same, where the caller has no ledger of its own.
fn row_at(tree: &DeltaTree, rid: u64) -> Place
    requires { rid < 2 ^ 63 }
{
    row_of::<Brand>(tree, rid, Blank::new(1))
}

#[test]
fn a_tree_with_no_entries_moves_nothing(rt: HostRuntime) -> Result<(), Fail> {
    let tree = DeltaTree::new(rt.alloc(), 1);
    for at in [0, 7, MOST] {
        assert!(rt; at <= MOST);
        assert_holds_at(&rt, shift_at(&tree, at) == 0, at);
        assert_holds_at(&rt, row_at(&tree, at) == Place::Base(at), at);
        assert_key(&rt, rt.alloc(), &tree, "no entries", (at, 15, 0, at, false))?;
    }
    Ok(())
}

/// That a tree of these changes moves what is at each SID so far.
fn assert_shifts(
    rt: &impl Abort,
    alloc: Global,
    label: &str,
    steps: &[(Step, &str)],
    cases: &[(u64, i64)],
) -> Result<(), Fail> {
    let Some(tree) = changed(rt, alloc, steps)? else {
        return Ok(());
    };
    for (sid, shift) in cases {
        assert_holds(rt, shift_at(&tree, *sid) == *shift, label);
    }
    Ok(())
}

#[test]
fn entries_move_what_stands_at_greater_sids(rt: HostRuntime) -> Result<(), Fail> {
    static READ_SHIFTS: [(u64, i64); 6] = [(0, 0), (1, 0), (2, 1), (3, 0), (4, 0), (MOST, 0)];
    static WRITE_SHIFTS: [(u64, i64); 6] = [(0, 0), (1, 0), (2, 0), (3, 0), (4, 1), (MOST, 1)];
    static TRANS_SHIFTS: [(u64, i64); 6] = [(0, 0), (1, -1), (3, -1), (4, -1), (5, 0), (MOST, 0)];
    assert_shifts(&rt, rt.alloc(), "read", &READ, &READ_SHIFTS)?;
    assert_shifts(&rt, rt.alloc(), "write", &WRITE, &WRITE_SHIFTS)?;
    assert_shifts(&rt, rt.alloc(), "trans", &TRANS, &TRANS_SHIFTS)
}

/// That a tree of these changes has at each position what is there.
fn assert_places(
    rt: &impl Abort,
    alloc: Global,
    label: &str,
    steps: &[(Step, &str)],
    cases: &[(u64, Place)],
) -> Result<(), Fail> {
    let Some(tree) = changed(rt, alloc, steps)? else {
        return Ok(());
    };
    for (rid, place) in cases {
        assert!(rt; *rid <= MOST);
        assert_holds(rt, row_at(&tree, *rid) == *place, label);
    }
    Ok(())
}

#[test]
fn each_position_has_its_place(rt: HostRuntime) -> Result<(), Fail> {
    static READ_PLACES: [(u64, Place); 6] = [
        (0, Place::Base(0)),
        (1, Place::Inserted(0)),
        (2, Place::Base(1)),
        (3, Place::Base(3)),
        (4, Place::Base(4)),
        (MOST, Place::Base(MOST)),
    ];
    static WRITE_PLACES: [(u64, Place); 6] = [
        (0, Place::Base(0)),
        (1, Place::Base(1)),
        (2, Place::Base(2)),
        (3, Place::Inserted(1)),
        (4, Place::Base(3)),
        (MOST, Place::Base(9_223_372_036_854_775_806)),
    ];
    static TRANS_PLACES: [(u64, Place); 6] = [
        (0, Place::Base(1)),
        (1, Place::Base(2)),
        (2, Place::Base(3)),
        (3, Place::Inserted(1)),
        (4, Place::Base(4)),
        (MOST, Place::Base(MOST)),
    ];
    assert_places(&rt, rt.alloc(), "read", &READ, &READ_PLACES)?;
    assert_places(&rt, rt.alloc(), "write", &WRITE, &WRITE_PLACES)?;
    assert_places(&rt, rt.alloc(), "trans", &TRANS, &TRANS_PLACES)
}

/// A position; how many entries a walk from there has passed, the base row that is next, and the entries that are left.
type WalkCase<'a> = (u64, usize, u64, &'a str);

/// That a walk begins so.
fn assert_walk(
    rt: &impl Abort,
    alloc: Global,
    tree: &DeltaTree,
    (rid, index, sid, want): WalkCase<'_>,
) -> Result<(), NoMemory> {
    assert!(rt; rid <= MOST);
    let walk = tree.find_walk(rid);
    assert_holds_at(rt, (walk.index, walk.sid) == (index, sid), rid);
    let text = entries_text(alloc, walk.entries)?;
    assert_text_at(rt, text.as_str(), want, rid);
    Ok(())
}

#[test]
fn a_walk_starts_past_deletes_and_before_modifies(rt: HostRuntime) -> Result<(), Fail> {
    static CASES: [WalkCase<'static>; 6] = [
        (0, 0, 0, "1+20,Bea,8 1-20 2:1=Cy 2:2=7 3+40,Gus,9"),
        (1, 0, 1, "1+20,Bea,8 1-20 2:1=Cy 2:2=7 3+40,Gus,9"),
        (2, 2, 2, "2:1=Cy 2:2=7 3+40,Gus,9"),
        (3, 4, 3, "3+40,Gus,9"),
        (4, 5, 3, ""),
        (MOST, 5, MOST - 1, ""),
    ];
    let Some(tree) = changed(&rt, rt.alloc(), MIXED.as_slice())? else {
        return Ok(());
    };
    for case in &CASES {
        assert_walk(&rt, rt.alloc(), &tree, *case)?;
    }
    Ok(())
}

/// That a tree of these changes finds each key so.
fn assert_keys(
    rt: &impl Abort,
    alloc: Global,
    label: &str,
    steps: &[(Step, &str)],
    cases: &[KeyCase],
) -> Result<(), Fail> {
    let Some(tree) = changed(rt, alloc, steps)? else {
        return Ok(());
    };
    for case in cases {
        assert_key(rt, alloc, &tree, label, *case)?;
    }
    Ok(())
}

#[test]
fn a_key_has_its_place_among_the_inserts_at_a_sid(rt: HostRuntime) -> Result<(), Fail> {
    static READ_KEYS: [KeyCase; 6] = [
        (0, 5, 0, 0, false),
        (1, 12, 0, 1, false),
        (1, 15, 0, 1, true),
        (1, 18, 1, 2, false),
        (2, 25, 1, 3, false),
        (3, 40, 2, 3, false),
    ];
    static WRITE_KEYS: [KeyCase; 6] = [
        (0, 5, 0, 0, false),
        (1, 12, 0, 1, false),
        (2, 18, 1, 2, false),
        (3, 25, 1, 3, false),
        (3, 30, 1, 3, true),
        (3, 35, 2, 4, false),
    ];
    static TRANS_KEYS: [KeyCase; 6] = [
        (0, 5, 0, 0, false),
        (1, 12, 1, 0, false),
        (3, 25, 1, 2, false),
        (4, 32, 1, 3, false),
        (4, 35, 1, 3, true),
        (4, 40, 2, 4, false),
    ];
    assert_keys(&rt, rt.alloc(), "read", &READ, &READ_KEYS)?;
    assert_keys(&rt, rt.alloc(), "write", &WRITE, &WRITE_KEYS)?;
    assert_keys(&rt, rt.alloc(), "trans", &TRANS, &TRANS_KEYS)
}
