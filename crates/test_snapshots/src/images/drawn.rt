//! Many rows under random writes of three transactions, beside what the plain program merges of the same entries.
ghost use Rattle.std.specs.Prelude.{IfOk};
ghost use Rattle.merge.specs.Image.{AreStacked};

use super::{Stack, stacked};
use merge::Layers;
use model::Write;
use stable::StableTable;
use std::alloc::Global;
use std::process::Abort;
use std::test::Fail;
use test_fixtures::{Draws, ItemWrite, item, writes_of};
use values::{NoMemory, Row};

/// So many inserts, deletes and other quantities of rows with even and odd numbers, by chance.
fn drawn_writes(alloc: Global, draws: &mut Draws, count: u64) -> Result<Vec<Write>, Fail> {
    let mut named = Vec::new(alloc);
    for _ in 0..count {
        let id = draws.below(2_000) as i64;
        named.push(match draws.below(3) {
            0 => ItemWrite::Insert(id, "new", 7),
            1 => ItemWrite::Delete(id),
            _ => ItemWrite::Set(id, 9),
        })?;
    }
    Ok(writes_of(alloc, named.as_slice())?)
}

/// Whether the scan of a range gives the rows that the plain program merges there.
fn agrees(
    alloc: Global,
    layers: &Layers<'_>,
    rows: &[Row],
    from: u64,
    to: u64,
) -> Result<bool, Fail> {
    let mut place = from as usize;
    for view in layers.scan(from, to) {
        let Some(row) = rows.get(place) else {
            return Ok(false);
        };
        if view.copy(alloc)?.cells() != row.cells() {
            return Ok(false);
        }
        place = place.wrapping_add(1);
    }
    Ok(place as u64 == to.min(rows.len() as u64) || from >= to)
}

/// Whether the table has just these rows.
fn is_table_of(alloc: Global, table: &StableTable, rows: &[Row]) -> Result<bool, Fail> {
    if table.len() != rows.len() as u64 {
        return Ok(false);
    }
    for (place, row) in rows.iter().enumerate() {
        let sid = place as u64;
        if sid >= table.len() || table.row(alloc, sid)?.cells() != row.cells() {
            return Ok(false);
        }
    }
    Ok(true)
}

/// Whether each position has its row.
fn has_places(alloc: Global, layers: &Layers<'_>, rows: &[Row]) -> Result<bool, Fail> {
    for (place, row) in rows.iter().enumerate() {
        let Some(view) = layers.row_at(place as u64) else {
            return Ok(false);
        };
        if view.copy(alloc)?.cells() != row.cells() {
            return Ok(false);
        }
    }
    Ok(layers.len() == rows.len() as u64)
}

/// A thousand rows with even numbers.
fn old_rows(alloc: Global) -> Result<Vec<Row>, NoMemory> {
    let mut rows = Vec::new(alloc);
    for place in 0..1_000_u16 {
        rows.push(item(alloc, i64::from(place) * 2, "old", 1)?)?;
    }
    Ok(rows)
}

/// Those rows under so many writes of each of three transactions.
pub(super) fn drawn_stack(alloc: Global, count: u64) -> Result<Stack, Fail>
    ensures { IfOk result (λ made. AreStacked made.stable made.read.tree made.write.tree made.trans.tree) }
{
    let rows = old_rows(alloc)?;
    let mut draws = Draws::new(2_010);
    let read = drawn_writes(alloc, &mut draws, count)?;
    let write = drawn_writes(alloc, &mut draws, count)?;
    let trans = drawn_writes(alloc, &mut draws, count)?;
    stacked(
        alloc,
        rows.as_slice(),
        [read.as_slice(), write.as_slice(), trans.as_slice()],
    )
}

/// Whether each range has its rows.
fn has_ranges(alloc: Global, layers: &Layers<'_>, rows: &[Row]) -> Result<bool, Fail> {
    static RANGES: [(u64, u64); 5] = [(0, 2_000), (1, 999), (500, 501), (333, 777), (998, 1_400)];
    for (from, to) in &RANGES {
        if !agrees(alloc, layers, rows, *from, *to)? {
            return Ok(false);
        }
    }
    Ok(true)
}

/// Whether the layers, as a table, have just these rows.
fn makes_table(alloc: Global, layers: &Layers<'_>, rows: &[Row]) -> Result<bool, Fail> {
    if layers.len() > 2_000 {
        return Ok(false);
    }
    let table = layers.to_table(alloc)?;
    is_table_of(alloc, &table, rows)
}

/// That the image has its rows at each place, in ranges and as a table.
fn assert_rows(rt: &impl Abort, alloc: Global, stack: &Stack) -> Result<(), Fail>
    requires { AreStacked stack.now.stable stack.now.read.tree stack.now.write.tree stack.now.trans.tree }
{
    let rows = stack.trans.rows.as_slice();
    let (read, write, trans) = (&stack.read.tree, &stack.write.tree, &stack.trans.tree);
    let layers = Layers::new(&stack.stable, read, write, trans);
    assert!(rt; has_places(alloc, &layers, rows)?);
    assert!(rt; has_ranges(alloc, &layers, rows)?);
    assert!(rt; makes_table(alloc, &layers, rows)?);
    Ok(())
}

#[test]
fn a_thousand_rows_are_as_the_plain_program_merges_them(rt: HostRuntime) -> Result<(), Fail> {
    let stack = drawn_stack(rt.alloc(), 24)?;
    assert_rows(&rt, rt.alloc(), &stack)
}
