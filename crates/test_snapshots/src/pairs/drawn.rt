//! A thousand pairs of transactions of writes drawn by chance, over three hundred keys: folded, passed and refused as the
//! slow program composes them and finds that they conflict.
ghost use Rattle.std.specs.Prelude.{◌<◌, IfOk};
ghost use Rattle.stable.specs.Stable.{table_in};
ghost use Rattle.merge.specs.Image.{IsLayer};

use super::{Leavings, folded, passed, table_of, written_over};
use crate::assertions::is_same;
use delta::{ChangeRef, DeltaTree, SharedEntry};
use layers::{Clash, ClashKind, ConflictRule, Serialized};
use model::{Entry, Write};
use oracle::{Effects, OrderedTable, canonical_entries};
use stable::StableTable;
use std::alloc::Global;
use std::process::Abort;
use std::sync::Arc;
use std::test::Fail;
use test_fixtures::{Draws, ItemWrite, copy_rows, item, writes_of};
use values::{NoMemory, Row};

const PAIRS: u64 = 1_000;

/// The keys are the numbers below this one.
const KEYS: u64 = 300;

/// Each so many keys there is a row, so that several inserts are at one SID.
const STEP: u64 = 6;

/// The rows under each pair.
fn base_rows(alloc: Global) -> Result<Vec<Row>, NoMemory> {
    let mut rows = Vec::new(alloc);
    for place in 0..KEYS / STEP {
        rows.push(item(alloc, (place * STEP) as i64, "old", 1)?)?;
    }
    Ok(rows)
}

/// A write of one of so many keys. Half of the keys are those of the base's rows, so that deleted ones come again.
fn drawn_write(draws: &mut Draws, keys: u64) -> ItemWrite
    requires { 0 < keys }
{
    let id = draws.below(keys) as i64;
    let row = id - id % STEP as i64;
    match draws.below(7) {
        0 | 1 => ItemWrite::Insert(id, "new", 7),
        2 => ItemWrite::Insert(row, "new", 8),
        3 => ItemWrite::Delete(row),
        4 => ItemWrite::Delete(id),
        5 => ItemWrite::Set(row, 9),
        _ => ItemWrite::Name(row, "now"),
    }
}

/// Some writes of a few keys, of some, or of all.
fn drawn_writes(alloc: Global, draws: &mut Draws) -> Result<Vec<Write>, Fail> {
    let keys = [12, 60, KEYS][draws.below(3) as usize];
    let mut named = Vec::new(alloc);
    for _ in 0..draws.below(30) {
        named.push(drawn_write(draws, keys))?;
    }
    Ok(writes_of(alloc, named.as_slice())?)
}

/// Ten writes and more of all keys, so that their tree has about ten entries for one of `few_writes`.
fn many_writes(alloc: Global, draws: &mut Draws) -> Result<Vec<Write>, Fail> {
    let mut named = Vec::new(alloc);
    for _ in 0..10 + draws.below(50) {
        named.push(drawn_write(draws, KEYS))?;
    }
    Ok(writes_of(alloc, named.as_slice())?)
}

/// Up to six writes that set cells; some lists have a drawn write beside them, and some an insert past all keys.
fn few_writes(alloc: Global, draws: &mut Draws) -> Result<Vec<Write>, Fail> {
    let mut named = Vec::new(alloc);
    for _ in 0..draws.below(7) {
        let row = (draws.below(KEYS / STEP) * STEP) as i64;
        named.push(match draws.below(2) {
            0 => ItemWrite::Set(row, 9),
            _ => ItemWrite::Name(row, "now"),
        })?;
    }
    match draws.below(4) {
        0 => named.push(drawn_write(draws, KEYS))?,
        1 => named.push(ItemWrite::Insert(KEYS as i64, "last", 7))?,
        _ => {}
    }
    Ok(writes_of(alloc, named.as_slice())?)
}

/// Whether the tree has these entries.
fn has_entries(tree: &DeltaTree, entries: &[Entry]) -> bool {
    tree.len() == entries.len()
        && tree
            .iter()
            .zip(entries.iter())
            .all(|(found, want)| is_same(found, want))
}

/// How two entries over one table clash.
fn clash_kind(rule: ConflictRule, x: &SharedEntry, y: &SharedEntry) -> Option<ClashKind> {
    match (x.change(), y.change()) {
        (ChangeRef::Ins(row), ChangeRef::Ins(other)) => {
            (row.key(1) == other.key(1)).then_some(ClashKind::InsertInsert)
        }
        (ChangeRef::Ins(_), _) | (_, ChangeRef::Ins(_)) => None,
        _ if x.sid() != y.sid() => None,
        (ChangeRef::Del(_), ChangeRef::Del(_)) => Some(ClashKind::DeleteDelete),
        (ChangeRef::Mod(col, _), ChangeRef::Mod(other, _)) => {
            (rule == ConflictRule::ByRow || col == other).then_some(ClashKind::ModifyModify)
        }
        _ => Some(ClashKind::DeleteModify),
    }
}

/// The clash of the least entry of the one tree with the least of the other, by a look at all.
fn first_clash(rule: ConflictRule, xs: &DeltaTree, ys: &DeltaTree) -> Option<Clash> {
    for (x, one) in (0..xs.len()).zip(xs.iter()) {
        for (y, other) in (0..ys.len()).zip(ys.iter()) {
            if let Some(kind) = clash_kind(rule, one, other) {
                return Some(Clash { kind, x, y });
            }
        }
    }
    None
}

/// Whether this is what becomes of the one beside the other, which has these entries where it passes.
fn is_due(
    rule: ConflictRule,
    (x, y): (&Leavings, &Leavings),
    serialized: &Serialized,
    entries: &[Entry],
) -> bool {
    let conflicts = x.effects.conflicts(rule, &y.effects);
    match serialized {
        Serialized::Tree(tree) => !conflicts && has_entries(tree, entries),
        Serialized::Conflict(clash) => {
            conflicts && first_clash(rule, &x.tree, &y.tree) == Some(*clash)
        }
    }
}

/// Whether the one passes the other as it is due to, or clashes with it, by both rules.
fn passes(
    alloc: Global,
    stable: &Arc<StableTable>,
    table: &OrderedTable,
    x: &Leavings,
    y: &Leavings,
) -> Result<bool, Fail>
    requires first { IsLayer stable.now.value.schema (table_in stable.now.value) x.now.tree }
    requires second { IsLayer stable.now.value.schema (table_in stable.now.value) y.now.tree }
{
    let entries = canonical_entries(alloc, &table.with(&y.effects)?, &x.effects)?;
    for rule in [ConflictRule::ByColumn, ConflictRule::ByRow] {
        let serialized = passed(alloc, stable, &x.tree, &y.tree, rule)?;
        if !is_due(rule, (x, y), &serialized, entries.as_slice()) {
            return Ok(false);
        }
    }
    Ok(true)
}

/// Whether the writes over the image of the tree fold into it as the effects compose.
fn folds(
    alloc: Global,
    stable: &Arc<StableTable>,
    table: &OrderedTable,
    lower: &Leavings,
    writes: Vec<Write>,
) -> Result<bool, Fail>
    requires { IsLayer stable.now.value.schema (table_in stable.now.value) lower.now.tree }
{
    let (tree, upper) = folded(alloc, stable, &lower.tree, writes)?;
    let effects = lower.effects.composed(&upper.effects)?;
    let entries = canonical_entries(alloc, table, &effects)?;
    Ok(has_entries(&tree, entries.as_slice()))
}

/// What a transaction of drawn writes over the table leaves.
fn drawn_over(alloc: Global, stable: &Arc<StableTable>, draws: &mut Draws) -> Result<Leavings, Fail>
    ensures { IfOk result (λ made. IsLayer stable.now.value.schema (table_in stable.now.value) made.tree) }
{
    let writes = drawn_writes(alloc, draws)?;
    Ok(written_over(alloc, stable, writes)?)
}

/// Whether two pass each other.
fn pass(
    alloc: Global,
    stable: &Arc<StableTable>,
    table: &OrderedTable,
    x: &Leavings,
    y: &Leavings,
) -> Result<bool, Fail>
    requires first { IsLayer stable.now.value.schema (table_in stable.now.value) x.now.tree }
    requires second { IsLayer stable.now.value.schema (table_in stable.now.value) y.now.tree }
{
    Ok(passes(alloc, stable, table, x, y)? && passes(alloc, stable, table, y, x)?)
}

/// Whether a pair of transactions agrees with the slow program.
fn agrees(
    alloc: Global,
    stable: &Arc<StableTable>,
    table: &OrderedTable,
    seed: u64,
) -> Result<bool, Fail> {
    let mut draws = Draws::new(seed);
    let x = drawn_over(alloc, stable, &mut draws)?;
    let y = drawn_over(alloc, stable, &mut draws)?;
    let both_pass = pass(alloc, stable, table, &x, &y)?;
    let above = drawn_writes(alloc, &mut draws)?;
    Ok(both_pass && folds(alloc, stable, table, &x, above)?)
}

#[test]
fn a_thousand_pairs_fold_pass_and_clash_as_the_slow_program_says(
    rt: HostRuntime,
) -> Result<(), Fail> {
    let alloc = rt.alloc();
    let rows = base_rows(alloc)?;
    let table = OrderedTable::from_rows(alloc, 1, copy_rows(alloc, rows.as_slice())?)?;
    let stable = Arc::new(alloc, table_of(alloc, rows)?)?;
    for seed in 0..PAIRS {
        assert!(rt; agrees(alloc, &stable, &table, seed)?, "seed {seed}");
    }
    Ok(())
}

/// Whether a transaction of many writes and one of few pass each other, or clash, as the slow program says.
fn many_and_few_agree(
    alloc: Global,
    stable: &Arc<StableTable>,
    table: &OrderedTable,
    seed: u64,
) -> Result<bool, Fail> {
    let mut draws = Draws::new(seed);
    let many = many_writes(alloc, &mut draws)?;
    let x = written_over(alloc, stable, many)?;
    let few = few_writes(alloc, &mut draws)?;
    let y = written_over(alloc, stable, few)?;
    Ok(pass(alloc, stable, table, &x, &y)?)
}

#[test]
fn many_writes_pass_a_few_sets_as_the_slow_program_says(rt: HostRuntime) -> Result<(), Fail> {
    let alloc = rt.alloc();
    let rows = base_rows(alloc)?;
    let table = OrderedTable::from_rows(alloc, 1, copy_rows(alloc, rows.as_slice())?)?;
    let stable = Arc::new(alloc, table_of(alloc, rows)?)?;
    for seed in 0..PAIRS {
        assert!(rt;
            many_and_few_agree(alloc, &stable, &table, seed)?,
            "seed {seed}"
        );
    }
    Ok(())
}
