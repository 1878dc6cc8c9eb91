//! Trees of no entries, of one, of a leaf and a few, and of ten thousand, folded and made consecutive: over a table of no
//! rows, where each place is known.
ghost use Rattle.std.specs.Prelude.{IfOk};
ghost use Rattle.stable.specs.Stable.{table_in};
ghost use Rattle.merge.specs.Image.{IsLayer};

use super::{folded, passed, table_of, written_over};
use delta::{ChangeRef, DeltaTree, SharedEntry};
use layers::{ConflictRule, Serialized};
use model::Write;
use stable::StableTable;
use std::alloc::Global;
use std::sync::Arc;
use std::test::Fail;
use test_fixtures::{ItemWrite, writes_of};
use values::{NoMemory, Value};

static SIZES: [u16; 4] = [0, 1, 257, 10_000];

/// The SID of an insert, and its number.
type Spot = (u64, i64);

/// Inserts of so many even numbers from 0 on, or of so many odd ones.
fn inserts(alloc: Global, count: u16, odd: u8) -> Result<Vec<Write>, Fail> {
    let mut named = Vec::new(alloc);
    for place in 0..count {
        let id = i64::from(place) * 2 + i64::from(odd);
        named.push(ItemWrite::Insert(id, "new", 7))?;
    }
    Ok(writes_of(alloc, named.as_slice())?)
}

/// Deletes of so many even numbers from 0 on.
fn deletes(alloc: Global, count: u16) -> Result<Vec<Write>, Fail> {
    let mut named = Vec::new(alloc);
    for place in 0..count {
        named.push(ItemWrite::Delete(i64::from(place) * 2))?;
    }
    Ok(writes_of(alloc, named.as_slice())?)
}

/// Where an entry is, and its number where it is an insert.
fn spot_of(entry: &SharedEntry) -> Spot {
    match entry.change() {
        ChangeRef::Ins(row) => match row.cells().first() {
            Some(Value::Int(id)) => (entry.sid(), *id),
            _ => (entry.sid(), -2),
        },
        _ => (entry.sid(), -1),
    }
}

/// Whether the inserts of the tree are in these spots, and it has no other entries.
fn stands(tree: &DeltaTree, spots: &[Spot]) -> bool {
    tree.len() == spots.len()
        && tree
            .iter()
            .zip(spots.iter())
            .all(|(entry, spot)| spot_of(entry) == *spot)
}

/// Both kinds of numbers in order, all at SID 0.
fn merged(alloc: Global, evens: u16, odds: u16) -> Result<Vec<Spot>, NoMemory> {
    let mut spots = Vec::new(alloc);
    for place in 0..evens.max(odds) {
        if place < evens {
            spots.push((0, i64::from(place) * 2))?;
        }
        if place < odds {
            spots.push((0, i64::from(place) * 2 + 1))?;
        }
    }
    Ok(spots)
}

/// Each odd number past the even ones below it.
fn moved(alloc: Global, odds: u16, evens: u16) -> Result<Vec<Spot>, NoMemory> {
    let mut spots = Vec::new(alloc);
    for place in 0..odds {
        let below = u64::from(place).saturating_add(1).min(u64::from(evens));
        spots.push((below, i64::from(place) * 2 + 1))?;
    }
    Ok(spots)
}

/// The even numbers that are left, at SID 0.
fn kept(alloc: Global, count: u16, gone: u16) -> Result<Vec<Spot>, NoMemory> {
    let mut spots = Vec::new(alloc);
    for place in gone..count {
        spots.push((0, i64::from(place) * 2))?;
    }
    Ok(spots)
}

/// The tree that a transaction of these writes over the table leaves.
fn tree_over(
    alloc: Global,
    stable: &Arc<StableTable>,
    writes: Vec<Write>,
) -> Result<DeltaTree, Fail>
    ensures { IfOk result (λ tree. IsLayer stable.now.value.schema (table_in stable.now.value) tree) }
{
    Ok(written_over(alloc, stable, writes)?.tree)
}

/// The tree with one folded into it that a transaction of these writes over its image leaves.
fn tree_with(
    alloc: Global,
    stable: &Arc<StableTable>,
    lower: &DeltaTree,
    writes: Vec<Write>,
) -> Result<DeltaTree, Fail>
    requires { IsLayer stable.now.value.schema (table_in stable.now.value) lower.now }
{
    Ok(folded(alloc, stable, lower, writes)?.0)
}

/// Whether a tree of the one size takes in so many inserts between its own.
fn takes_inserts(
    alloc: Global,
    stable: &Arc<StableTable>,
    lower: &DeltaTree,
    count: u16,
    other: u16,
) -> Result<bool, Fail>
    requires { IsLayer stable.now.value.schema (table_in stable.now.value) lower.now }
{
    let spots = merged(alloc, count, other)?;
    let tree = tree_with(alloc, stable, lower, inserts(alloc, other, 1)?)?;
    Ok(stands(&tree, spots.as_slice()))
}

/// Whether it takes in so many deletes of its rows.
fn takes_deletes(
    alloc: Global,
    stable: &Arc<StableTable>,
    lower: &DeltaTree,
    count: u16,
    other: u16,
) -> Result<bool, Fail>
    requires { IsLayer stable.now.value.schema (table_in stable.now.value) lower.now }
{
    let spots = kept(alloc, count, other)?;
    let tree = tree_with(alloc, stable, lower, deletes(alloc, other)?)?;
    Ok(stands(&tree, spots.as_slice()))
}

/// Whether a tree of the one size takes in one of the other size.
fn takes_in(
    alloc: Global,
    stable: &Arc<StableTable>,
    count: u16,
    other: u16,
) -> Result<bool, Fail> {
    let lower = tree_over(alloc, stable, inserts(alloc, count, 0)?)?;
    let takes_more = takes_inserts(alloc, stable, &lower, count, other)?;
    let takes_less = takes_deletes(alloc, stable, &lower, count, other)?;
    Ok(takes_more && takes_less)
}

/// Whether this is a tree of so many inserts that has passed one of so many others.
fn has_moved(serialized: &Serialized, spots: &[Spot]) -> bool {
    match serialized {
        Serialized::Tree(tree) => stands(tree, spots),
        Serialized::Conflict(_) => false,
    }
}

/// Whether a tree of the one size passes one of the other size.
fn passes(alloc: Global, stable: &Arc<StableTable>, count: u16, other: u16) -> Result<bool, Fail> {
    let spots = moved(alloc, count, other)?;
    let x = tree_over(alloc, stable, inserts(alloc, count, 1)?)?;
    let y = tree_over(alloc, stable, inserts(alloc, other, 0)?)?;
    let serialized = passed(alloc, stable, &x, &y, ConflictRule::ByColumn)?;
    Ok(has_moved(&serialized, spots.as_slice()))
}

#[test]
fn trees_of_each_size_fold_and_pass(rt: HostRuntime) -> Result<(), Fail> {
    let alloc = rt.alloc();
    let stable = Arc::new(alloc, table_of(alloc, Vec::new(alloc))?)?;
    for count in &SIZES {
        for other in &SIZES {
            assert!(rt; takes_in(alloc, &stable, *count, *other)?);
            assert!(rt; passes(alloc, &stable, *count, *other)?);
        }
    }
    Ok(())
}
