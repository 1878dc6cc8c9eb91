//! A transaction over a version whose Read- and Write-PDT both have entries: images, places and entries that a person
//! worked out. Each lower tree is that of an earlier transaction.
ghost use Rattle.std.specs.Prelude.{◌≡◌, IfOk};
ghost use Rattle.merge.specs.Image.{IsLayer};
ghost use Rattle.txn.specs.Version.{AreLower, lower_table};

use super::{ROOM, answer};
use crate::assertions::{assert_holds, assert_text, assert_text_at};
use crate::shown::{row_text, rows_text};
use delta::DeltaTree;
use stable::StableTable;
use std::alloc::Global;
use std::process::Abort;
use std::sync::Arc;
use std::test::Fail;
use test_fixtures::{BASE, Item, ItemWrite, entries_text, item_table, key, write_of};
use txn::{Parts, ReadTree, Txn, Version, WriteReply};
use values::NoMemory;

/// A stable table with the trees of two transactions over it, the second over what the first left.
#[derive(Drop)]
struct Lower {
    stable: Arc<StableTable>,
    read: Arc<ReadTree>,
    write: Arc<DeltaTree>,
}

/// Makes a write, which has to be done.
fn make(alloc: Global, txn: &mut Txn, step: ItemWrite) -> Result<(), Fail>
    ensures schema { txn.new.schema ≡ txn.old.schema }
    ensures table { txn.new.table ≡ txn.old.table }
{
    match answer(txn, write_of(alloc, step)?)? {
        WriteReply::Done => Ok(()),
        _ => Err(Fail::new("a write isn't done")),
    }
}

fn make_all(alloc: Global, txn: &mut Txn, steps: &[ItemWrite]) -> Result<(), Fail>
    ensures schema { txn.new.schema ≡ txn.old.schema }
    ensures table { txn.new.table ≡ txn.old.table }
{
    for step in steps {
        make(alloc, txn, *step)?;
    }
    Ok(())
}

/// The tree that a transaction of these writes leaves over the version.
fn tree_over(alloc: Global, version: Version, steps: &[ItemWrite]) -> Result<DeltaTree, Fail>
    ensures { IfOk result (λ tree. IsLayer version.layers.stable.schema (lower_table version.layers) tree) }
{
    if version.len() > ROOM {
        return Err(Fail::new("many rows"));
    }
    let mut txn = Txn::open(alloc, version, 3, ROOM)?;
    let made = make_all(alloc, &mut txn, steps);
    let parts = txn.into_parts();
    made?;
    Ok(parts.tree)
}

/// A stable table under the trees of two transactions.
fn make_lower(alloc: Global, named: &[Item], steps: [&[ItemWrite]; 2]) -> Result<Lower, Fail>
    ensures { IfOk result (λ made. AreLower (record { stable = made.stable.value; read = made.read.value; write = made.write.value })) }
{
    let stable = Arc::new(alloc, item_table(alloc, named)?)?;
    let none = Arc::new(alloc, DeltaTree::new(alloc, stable.schema().key_cols()))?;
    let opening = Version::new(alloc, stable.clone()?, 0)?;
    let tree = tree_over(alloc, opening, steps[0])?;
    let read = Arc::new(alloc, ReadTree::new(tree))?;
    let middle = Version::stacked(alloc, stable.clone()?, read.clone()?, none, 1)?;
    let write = Arc::new(alloc, tree_over(alloc, middle, steps[1])?)?;
    Ok(Lower {
        stable,
        read,
        write,
    })
}

/// A transaction of the steps over those layers.
fn over(rt: &impl Abort, alloc: Global, lower: &Lower, steps: &[ItemWrite]) -> Result<Txn, Fail>
    requires { AreLower (record { stable = lower.now.stable.value; read = lower.now.read.value; write = lower.now.write.value }) }
{
    let version = Version::stacked(
        alloc,
        lower.stable.clone()?,
        lower.read.clone()?,
        lower.write.clone()?,
        2,
    )?;
    assert!(rt; version.len() <= ROOM);
    assert!(rt; version.number() == 2);
    let mut txn = Txn::open(alloc, version, 3, ROOM)?;
    match make_all(alloc, &mut txn, steps) {
        Ok(()) => Ok(txn),
        Err(fail) => {
            txn.abort();
            Err(fail)
        }
    }
}

/// That a position has this row, or none.
fn assert_row_at(
    rt: &impl Abort,
    alloc: Global,
    txn: &Txn,
    rid: u64,
    want: &str,
) -> Result<(), NoMemory> {
    let text = row_text(alloc, txn.row_at(rid))?;
    assert_text_at(rt, text.as_str(), want, rid);
    Ok(())
}

/// That a range has these rows.
fn assert_range(
    rt: &impl Abort,
    alloc: Global,
    txn: &Txn,
    (from, to): (u64, u64),
    want: &str,
) -> Result<(), NoMemory> {
    let text = rows_text(alloc, txn.scan(from, to))?;
    assert_text_at(rt, text.as_str(), want, from);
    Ok(())
}

/// That a key has this rank, and this row or none.
fn assert_key(
    rt: &impl Abort,
    alloc: Global,
    txn: &Txn,
    (id, rank, want): (i64, (u64, bool), &str),
) -> Result<(), NoMemory> {
    let key = key(alloc, id)?;
    let text = row_text(alloc, txn.get(&key))?;
    assert!(rt; txn.rank(&key) == rank);
    assert_text(rt, text.as_str(), want, "a row by its key");
    Ok(())
}

fn assert_reads(rt: &impl Abort, alloc: Global, txn: &Txn) -> Result<(), NoMemory> {
    static PLACES: [(u64, &str); 5] = [
        (0, "15,Flo,6"),
        (1, "20,Bob,2"),
        (2, "30,Zed,7"),
        (3, "35,Gus,8"),
        (4, ""),
    ];
    static RANGES: [((u64, u64), &str); 3] = [
        ((1, 9), "20,Bob,2 30,Zed,7 35,Gus,8"),
        ((3, 1), ""),
        ((0, 4), "15,Flo,6 20,Bob,2 30,Zed,7 35,Gus,8"),
    ];
    static KEYS: [(i64, (u64, bool), &str); 5] = [
        (10, (0, false), ""),
        (15, (0, true), "15,Flo,6"),
        (16, (1, false), ""),
        (30, (2, true), "30,Zed,7"),
        (99, (4, false), ""),
    ];
    assert!(rt; txn.len() == 4);
    for (rid, want) in &PLACES {
        assert_row_at(rt, alloc, txn, *rid, *want)?;
    }
    for (range, want) in &RANGES {
        assert_range(rt, alloc, txn, *range, *want)?;
    }
    for case in &KEYS {
        assert_key(rt, alloc, txn, *case)?;
    }
    Ok(())
}

/// That a tree has these entries.
fn assert_tree(
    rt: &impl Abort,
    alloc: Global,
    tree: &DeltaTree,
    want: &str,
    label: &str,
) -> Result<(), NoMemory> {
    let text = entries_text(alloc, tree.iter())?;
    assert_text(rt, text.as_str(), want, label);
    Ok(())
}

/// That the trees of a transaction's layers have these entries.
fn assert_trees(
    rt: &impl Abort,
    alloc: Global,
    (lower, own): (&Lower, &DeltaTree),
    changes: [&str; 3],
    label: &str,
) -> Result<(), NoMemory> {
    assert_tree(rt, alloc, lower.read.tree(), changes[0], label)?;
    assert_tree(rt, alloc, &lower.write, changes[1], label)?;
    assert_tree(rt, alloc, own, changes[2], label)
}

/// The parts of a transaction of the steps over those layers, after what it reads is looked at.
fn parts_after_reads(
    rt: &impl Abort,
    alloc: Global,
    lower: &Lower,
    steps: &[ItemWrite],
) -> Result<Parts, Fail>
    requires { AreLower (record { stable = lower.now.stable.value; read = lower.now.read.value; write = lower.now.write.value }) }
{
    let txn = over(rt, alloc, lower, steps)?;
    let reads = assert_reads(rt, alloc, &txn);
    let parts = txn.into_parts();
    reads?;
    Ok(parts)
}

#[test]
fn reads_are_of_all_layers(rt: HostRuntime) -> Result<(), Fail> {
    static READ: [ItemWrite; 2] = [ItemWrite::Insert(15, "Flo", 5), ItemWrite::Delete(30)];
    static WRITE: [ItemWrite; 2] = [ItemWrite::Set(15, 6), ItemWrite::Insert(30, "Zed", 7)];
    static TRANS: [ItemWrite; 2] = [ItemWrite::Delete(10), ItemWrite::Insert(35, "Gus", 8)];
    let entries = ["1+15,Flo,5 2-30", "1:2=6 3+30,Zed,7", "0-10 4+35,Gus,8"];
    let lower = make_lower(rt.alloc(), &BASE, [&READ, &WRITE])?;
    let parts = parts_after_reads(&rt, rt.alloc(), &lower, &TRANS)?;
    assert!(&rt; parts.begin == 2);
    assert_trees(&rt, rt.alloc(), (&lower, &parts.tree), entries, "the trees")?;
    Ok(())
}

/// A label, the stable rows, the writes of the two transactions below and of the one on top, the entries of the three,
/// and the rows of the image.
type Case = (
    &'static str,
    &'static [Item],
    [&'static [ItemWrite]; 3],
    [&'static str; 3],
    u64,
    &'static str,
);

/// That the transaction has so many rows, and this image.
fn assert_image(
    rt: &impl Abort,
    alloc: Global,
    txn: &Txn,
    (label, rows, image): (&str, u64, &str),
) -> Result<(), NoMemory> {
    let text = rows_text(alloc, txn.scan(0, u64::MAX))?;
    assert_text(rt, text.as_str(), image, label);
    assert_holds(rt, txn.row_at(rows).is_none(), label);
    assert_holds(rt, txn.len() == rows, label);
    Ok(())
}

/// That the layers of a case have these entries, and make its image.
fn assert_layers(
    rt: &impl Abort,
    alloc: Global,
    (label, named, steps, changes, rows, image): Case,
) -> Result<(), Fail> {
    let lower = make_lower(alloc, named, [steps[0], steps[1]])?;
    let txn = over(rt, alloc, &lower, steps[2])?;
    let shown = assert_image(rt, alloc, &txn, (label, rows, image));
    let parts = txn.into_parts();
    shown?;
    assert_trees(rt, alloc, (&lower, &parts.tree), changes, label)?;
    Ok(())
}

#[test]
fn images_at_the_edges(rt: HostRuntime) -> Result<(), Fail> {
    static CASES: [Case; 3] = [
        (
            "inserts into no rows",
            &[],
            [
                &[ItemWrite::Insert(2, "Bo", 2)],
                &[ItemWrite::Insert(1, "Al", 1)],
                &[ItemWrite::Insert(3, "Cy", 3)],
            ],
            ["0+2,Bo,2", "0+1,Al,1", "2+3,Cy,3"],
            3,
            "1,Al,1 2,Bo,2 3,Cy,3",
        ),
        (
            "all rows deleted",
            &BASE,
            [
                &[ItemWrite::Delete(10)],
                &[ItemWrite::Delete(30)],
                &[ItemWrite::Delete(20)],
            ],
            ["0-10", "1-30", "0-20"],
            0,
            "",
        ),
        (
            "inserts of the lower layers deleted",
            &[],
            [
                &[ItemWrite::Insert(2, "Bo", 2)],
                &[ItemWrite::Insert(1, "Al", 1)],
                &[ItemWrite::Delete(2), ItemWrite::Delete(1)],
            ],
            ["0+2,Bo,2", "0+1,Al,1", "0-1 1-2"],
            0,
            "",
        ),
    ];
    for case in &CASES {
        assert_layers(&rt, rt.alloc(), *case)?;
    }
    Ok(())
}
