//! The calls between layers over trees that transactions left: of writes drawn by chance, beside the slow program, and of
//! few and many entries.
//!
//! That a refused growth is answered shows under `rt try --test --fail-alloc N`, for N from 1 on: each test ends well,
//! or with the error of the growth.
ghost use Rattle.std.specs.Prelude.{◌≡◌, ◌<◌, IfOk, IsTrue, length};
ghost use Rattle.values.specs.Shape.{IsSchema};
ghost use Rattle.stable.specs.Stable.{table_in};
ghost use Rattle.merge.specs.Image.{IsLayer};
ghost use Rattle.txn.specs.Version.{lower_table, numbered, empty_tree};

mod drawn;
mod sizes;

use crate::images::{AMPLE, MANY};
use crate::transactions::answer;
use delta::DeltaTree;
use layers::{Serialized, propagate, serialize};
use model::{ConflictRule, Write};
use oracle::{Effects, effects_of_writes};
use stable::StableTable;
use std::alloc::Global;
use std::sync::Arc;
use std::test::Fail;
use test_fixtures::item_columns;
use txn::{ReadTree, Txn, Version};
use values::Row;

/// The tree that a transaction left, and what it does by key, as the plain program tells of its writes.
#[derive(Drop)]
struct Leavings {
    tree: DeltaTree,
    effects: Effects,
}

/// The table of these rows.
fn table_of(alloc: Global, rows: Vec<Row>) -> Result<StableTable, Fail> {
    Ok(StableTable::build(alloc, item_columns(alloc)?, rows)?)
}

fn answer_all(txn: &mut Txn, writes: Vec<Write>) -> Result<(), Fail>
    ensures schema { txn.new.schema ≡ txn.old.schema }
    ensures table { txn.new.table ≡ txn.old.table }
{
    for write in writes {
        answer(txn, write)?;
    }
    Ok(())
}

/// What a transaction of these writes over the version leaves.
fn written(alloc: Global, version: Version, writes: Vec<Write>) -> Result<Leavings, Fail>
    ensures { IfOk result (λ made. IsLayer version.layers.stable.schema (lower_table version.layers) made.tree) }
{
    if version.len() > AMPLE {
        return Err(Fail::new("many rows"));
    }
    let mut txn = Txn::open(alloc, version, 3, AMPLE)?;
    let answered = answer_all(&mut txn, writes);
    let parts = txn.into_parts();
    answered?;
    Ok(Leavings {
        effects: effects_of_writes(alloc, 1, parts.writes.as_slice())?,
        tree: parts.tree,
    })
}

/// What a transaction of these writes over the table leaves.
fn written_over(
    alloc: Global,
    stable: &Arc<StableTable>,
    writes: Vec<Write>,
) -> Result<Leavings, Fail>
    ensures { IfOk result (λ made. IsLayer stable.now.value.schema (table_in stable.now.value) made.tree) }
{
    let opening = Version::new(alloc, stable.clone()?, 0)?;
    Ok(written(alloc, opening, writes)?)
}

/// The image of the tree over the table.
fn image_of(alloc: Global, stable: &Arc<StableTable>, tree: &DeltaTree) -> Result<Version, Fail>
    requires { IsLayer stable.now.value.schema (table_in stable.now.value) tree.now }
    ensures { IfOk result (λ version. version ≡ numbered (record {
      stable = stable.now.value;
      read = tree.now;
      write = empty_tree
          stable.now.value.schema.key_cols;
    }) 1) }
{
    let read = Arc::new(alloc, ReadTree::new(tree.copy()?))?;
    let none = Arc::new(alloc, DeltaTree::new(alloc, stable.schema().key_cols()))?;
    Ok(Version::stacked(alloc, stable.clone()?, read, none, 1)?)
}

/// Whether neither the table nor a tree has many rows.
fn are_few(stable: &StableTable, one: &DeltaTree, other: &DeltaTree) -> bool
    ensures lawful { IsSchema stable.now.schema }
    ensures rows { IsTrue result → length stable.now.rows < 1000000 }
    ensures one { IsTrue result → length one.now.entries < 1000000 }
    ensures other { IsTrue result → length other.now.entries < 1000000 }
{
    let key_cols = stable.schema().key_cols();
    key_cols < MANY && stable.len() < AMPLE && one.len() < MANY && other.len() < MANY
}

/// The tree with one folded into it that a transaction over its image left.
fn folded(
    alloc: Global,
    stable: &Arc<StableTable>,
    lower: &DeltaTree,
    writes: Vec<Write>,
) -> Result<(DeltaTree, Leavings), Fail>
    requires { IsLayer stable.now.value.schema (table_in stable.now.value) lower.now }
{
    let image = image_of(alloc, stable, lower)?;
    let upper = written(alloc, image, writes)?;
    if !are_few(stable, lower, &upper.tree) {
        return Err(Fail::new("many rows"));
    }
    Ok((propagate(alloc, lower, &upper.tree)?, upper))
}

/// The one tree beside the other.
fn passed(
    alloc: Global,
    stable: &Arc<StableTable>,
    x: &DeltaTree,
    y: &DeltaTree,
    rule: ConflictRule,
) -> Result<Serialized, Fail>
    requires first { IsLayer stable.now.value.schema (table_in stable.now.value) x.now }
    requires second { IsLayer stable.now.value.schema (table_in stable.now.value) y.now }
{
    if !are_few(stable, x, y) {
        return Err(Fail::new("many rows"));
    }
    Ok(serialize(alloc, x, y, rule)?)
}
