//! A transaction of a thousand random writes beside the slow program: reply by reply, entry by entry, and row by row.
use super::answer;
use crate::assertions::is_same;
use delta::DeltaTree;
use model::{Entry, Write, WriteReply};
use oracle::{Effects, OrderedTable, canonical_entries};
use stable::StableTable;
use std::alloc::Global;
use std::process::Abort;
use std::sync::Arc;
use std::test::Fail;
use test_fixtures::{Draws, key, row_with, schema};
use txn::{RowView, Txn, Version};
use values::{ColumnType, NoMemory, Row, Schema, Value, ValueRef};

const WRITES: usize = 1_000;

/// After each so many writes all reads are compared.
const READ_EVERY: usize = 100;

/// The keys are the numbers from 0 up to this one, and without it.
const KEYS: u64 = 60;

/// So few rows that inserts are Full now and then.
const ROW_LIMIT: u64 = 32;

/// A number, the key, and two quantities.
fn quantities(alloc: Global) -> Result<Schema, Fail> {
    let cols = [
        ("id", ColumnType::Int),
        ("old", ColumnType::Int),
        ("new", ColumnType::Int),
    ];
    schema(alloc, &cols, 1)
}

fn row(alloc: Global, id: i64, old: i64, new: i64) -> Result<Row, NoMemory> {
    row_with(
        alloc,
        &[ValueRef::Int(id), ValueRef::Int(old), ValueRef::Int(new)],
    )
}

/// Thirty rows of the even keys from 0 on.
pub(super) fn base_rows(alloc: Global) -> Result<Vec<Row>, NoMemory> {
    let mut rows = Vec::new(alloc);
    for place in 0..30_u16 {
        rows.push(row(alloc, i64::from(place) * 2, 1, 2)?)?;
    }
    Ok(rows)
}

/// A write of one of the keys.
pub(super) fn drawn_write(alloc: Global, draws: &mut Draws) -> Result<Write, NoMemory> {
    let id = draws.below(KEYS) as i64;
    let quantity = draws.below(100) as i64;
    match draws.below(4) {
        0 => Ok(Write::Insert(row(alloc, id, quantity, 0)?)),
        1 => Ok(Write::Delete(key(alloc, id)?)),
        2 => Ok(Write::Set(key(alloc, id)?, 1, Value::Int(quantity))),
        _ => Ok(Write::Set(key(alloc, id)?, 2, Value::Int(quantity))),
    }
}

/// Whether a row that is found is the one that is wanted.
fn is_row(alloc: Global, found: Option<RowView<'_>>, want: Option<&Row>) -> Result<bool, Fail> {
    match (found, want) {
        (Some(view), Some(row)) => Ok(view.copy(alloc)?.cells() == row.cells()),
        (None, None) => Ok(true),
        _ => Ok(false),
    }
}

/// Whether a scan of all gives these rows, and there are so many.
fn scans(alloc: Global, txn: &Txn, rows: &[Row]) -> Result<bool, Fail> {
    let mut place = 0_usize;
    for view in txn.scan(0, txn.len()) {
        if !is_row(alloc, Some(view), rows.get(place))? {
            return Ok(false);
        }
        place = place.wrapping_add(1);
    }
    Ok(place == rows.len() && txn.len() == rows.len() as u64)
}

/// Whether each place has its row, and the place past the last has none.
fn has_places(alloc: Global, txn: &Txn, rows: &[Row]) -> Result<bool, Fail> {
    for place in 0..=rows.len() {
        if !is_row(alloc, txn.row_at(place as u64), rows.get(place))? {
            return Ok(false);
        }
    }
    Ok(true)
}

/// Whether each key has the row of the table, or none, and is in its place there.
fn has_keys(alloc: Global, txn: &Txn, table: &OrderedTable) -> Result<bool, Fail> {
    for id in 0..KEYS {
        let key = key(alloc, id as i64)?;
        let want = table.row_at(&key);
        if txn.rank(&key) != (table.rank(&key) as u64, want.is_some()) {
            return Ok(false);
        }
        if !is_row(alloc, txn.get(&key), want)? {
            return Ok(false);
        }
    }
    Ok(true)
}

/// Whether all reads are of the table with these effects.
pub(super) fn reads_as(
    alloc: Global,
    txn: &Txn,
    table: &OrderedTable,
    effects: &Effects,
) -> Result<bool, Fail> {
    let after = table.with(effects)?;
    let rows = after.rows()?;
    Ok(
        scans(alloc, txn, rows.as_slice())?
            && has_places(alloc, txn, rows.as_slice())?
            && has_keys(alloc, txn, &after)?,
    )
}

/// The reply that is due to a write after these effects, which then are those of the write too.
pub(super) fn written(
    table: &OrderedTable,
    effects: &mut Effects,
    write: &Write,
) -> Result<WriteReply, NoMemory> {
    table.write(1, ROW_LIMIT, effects, write)
}

/// The number of the first write whose two replies aren't the same, or after which the reads aren't, if there is one. The
/// reads are compared after each hundredth write. The effects are those of all writes.
fn first_difference(
    alloc: Global,
    txn: &mut Txn,
    table: &OrderedTable,
    effects: &mut Effects,
) -> Result<Option<usize>, Fail> {
    let mut draws = Draws::new(7);
    for number in 0..WRITES {
        let write = drawn_write(alloc, &mut draws)?;
        let due = written(table, effects, &write)?;
        if answer(txn, write)? != due {
            return Ok(Some(number));
        }
        if number % READ_EVERY == READ_EVERY - 1 && !reads_as(alloc, txn, table, effects)? {
            return Ok(Some(number));
        }
    }
    Ok(None)
}

/// Whether the entries are those of the tree, in order.
pub(super) fn has_entries(tree: &DeltaTree, entries: &[Entry]) -> bool {
    tree.len() == entries.len()
        && tree
            .iter()
            .zip(entries.iter())
            .all(|(found, want)| is_same(found, want))
}

/// That each reply was answered now and then.
fn assert_replies(rt: &impl Abort, writes: &[(Write, WriteReply)]) {
    for reply in [
        WriteReply::Done,
        WriteReply::Duplicate,
        WriteReply::Full,
        WriteReply::Missing,
    ] {
        assert!(rt; writes.iter().any(|write| write.1 == reply));
    }
}

/// A transaction of no writes over the base rows.
pub(super) fn opened(rt: &impl Abort, alloc: Global) -> Result<Txn, Fail> {
    let base = StableTable::build(alloc, quantities(alloc)?, base_rows(alloc)?)?;
    let version = Version::new(alloc, Arc::new(alloc, base)?, 0)?;
    assert!(rt; version.len() <= ROW_LIMIT);
    Ok(Txn::open(alloc, version, 0, ROW_LIMIT)?)
}

#[test]
fn a_thousand_random_writes_answer_as_the_slow_program(rt: HostRuntime) -> Result<(), Fail> {
    let alloc = rt.alloc();
    let table = OrderedTable::from_rows(alloc, 1, base_rows(alloc)?)?;
    let mut effects = Effects::new(alloc);
    let mut txn = opened(&rt, alloc)?;
    let difference = first_difference(alloc, &mut txn, &table, &mut effects);
    let parts = txn.into_parts();
    assert!(&rt; difference? == None);
    let entries = canonical_entries(alloc, &table, &effects)?;
    assert!(&rt; entries.len() > 10);
    assert!(&rt; has_entries(&parts.tree, entries.as_slice()));
    assert_replies(&rt, parts.writes.as_slice());
    Ok(())
}
