//! Stretches with their places, read over columns that lie elsewhere, beside the rows that the plain program merges of the same
//! entries.
ghost use Rattle.std.specs.Prelude.{◌<◌, length};
ghost use Rattle.merge.specs.Image.{AreStacked};
ghost use Rattle.merge.specs.View.{row_of};

use super::columns::has_value;
use super::drawn::drawn_stack;
use super::{Stack, named_stack};
use crate::assertions::{assert_holds, assert_text};
use merge::{Layers, RowView, StableStretch, Stretch};
use stable::StableTable;
use std::alloc::Global;
use std::process::Abort;
use std::test::Fail;
use test_fixtures::{Item, ItemWrite};
use values::{NoMemory, Row, ValueRef};

/// A cell of the stable table, where there is one.
fn stable_cell(stable: &StableTable, sid: u64, col: usize) -> Option<ValueRef<'_>> {
    let width = stable.schema().width();
    if sid < stable.len() && col < width {
        Some(stable.value(sid, col))
    } else {
        None
    }
}

/// A cell of a row that a layer inserts or modifies, as one has it who keeps the stable rows: where it isn't modified, from there.
fn cell_over<'a>(view: &RowView<'a>, stable: &'a StableTable, col: usize) -> Option<ValueRef<'a>>
    requires { col < length (row_of view.now) }
{
    match view.base_sid() {
        Some(sid) if !view.is_modified(col) => stable_cell(stable, sid, col),
        Some(_) | None => Some(view.value(col)),
    }
}

/// Whether the row is that of a view, read so.
fn is_row<'a>(view: &RowView<'a>, stable: &'a StableTable, row: Option<&Row>) -> bool {
    for col in 0..view.width() {
        if !has_value(row, col, cell_over(view, stable, col)) {
            return false;
        }
    }
    row.is_some()
}

/// Whether the rows from a place on are the stable ones of a stretch.
fn are_stable(
    stretch: StableStretch<'_>,
    stable: &StableTable,
    rows: &[Row],
    place: usize,
) -> bool {
    for i in 0..stretch.len {
        let row = rows.get(place.wrapping_add(i as usize));
        for col in 0..stable.schema().width() {
            if !has_value(
                row,
                col,
                stable_cell(stable, stretch.sid.wrapping_add(i), col),
            ) {
                return false;
            }
        }
    }
    true
}

/// Whether the rows of a range are those of the stretches, read over the stable table that they lend.
fn has_range(layers: &Layers<'_>, rows: &[Row], range: (u64, u64)) -> bool {
    let (from, to) = range;
    let stretches = layers.placed_stretches(from, to);
    let stable = stretches.stable();
    let mut place = stretches.rid() as usize;
    for stretch in stretches {
        let (is_there, count) = match stretch {
            Stretch::Stable(part) => (are_stable(part, stable, rows, place), part.len),
            Stretch::Row(view) => (is_row(&view, stable, rows.get(place)), 1),
        };
        if !is_there {
            return false;
        }
        place = place.wrapping_add(count as usize);
    }
    place as u64 == to.min(rows.len() as u64)
}

/// That each range of the image is what its stretches are, read over the stable table.
fn assert_ranges(rt: &impl Abort, stack: &Stack)
    requires { AreStacked stack.now.stable stack.now.read.tree stack.now.write.tree stack.now.trans.tree }
{
    static RANGES: [(u64, u64); 2] = [(0, 400), (700, 2_000)];
    let rows = stack.trans.rows.as_slice();
    let (read, write, trans) = (&stack.read.tree, &stack.write.tree, &stack.trans.tree);
    let layers = Layers::new(&stack.stable, read, write, trans);
    for range in &RANGES {
        assert!(rt; has_range(&layers, rows, *range));
    }
}

#[test]
fn stretches_read_over_the_stable_rows_are_the_image(rt: HostRuntime) -> Result<(), Fail> {
    let stack = drawn_stack(rt.alloc(), 40)?;
    assert_ranges(&rt, &stack);
    Ok(())
}

/// A row: the SID of the stable row under it, or a plus where there is none, and the columns that are modified.
fn row_shape(alloc: Global, view: &RowView<'_>) -> Result<String, NoMemory> {
    let mut text = match view.base_sid() {
        Some(sid) => format!(in alloc; "{sid}:")?,
        None => format!(in alloc; "+:")?,
    };
    for col in 0..view.width() {
        if view.is_modified(col) {
            text.push_str(format!(in alloc; "{col}")?.as_str())?;
        }
    }
    text.push_str(" ")?;
    Ok(text)
}

/// The stretches of all rows: so many stable ones as their first SID and their count.
fn shape(alloc: Global, layers: &Layers<'_>) -> Result<String, NoMemory> {
    let mut text = String::new(alloc);
    for stretch in layers.placed_stretches(0, u64::MAX) {
        let part = match stretch {
            Stretch::Stable(rows) => format!(in alloc; "{}+{} ", rows.sid, rows.len)?,
            Stretch::Row(view) => row_shape(alloc, &view)?,
        };
        text.push_str(part.as_str())?;
    }
    Ok(text)
}

/// That the stretches of layers are these.
fn assert_shape(rt: &impl Abort, alloc: Global, stack: &Stack, want: &str) -> Result<(), NoMemory>
    requires { AreStacked stack.now.stable stack.now.read.tree stack.now.write.tree stack.now.trans.tree }
{
    let (read, write, trans) = (&stack.read.tree, &stack.write.tree, &stack.trans.tree);
    let layers = Layers::new(&stack.stable, read, write, trans);
    assert_text(rt, shape(alloc, &layers)?.as_str(), want, "the stretches");
    let some = layers.placed_stretches(1, 9);
    assert_holds(
        rt,
        some.rid() == 1 && some.rows_left() == 4,
        "the rows past the first",
    );
    assert_holds(rt, some.size_hint() == (1, Some(4)), "as told before");
    assert_holds(rt, some.stable().len() == 5, "the stable rows");
    Ok(())
}

#[test]
fn a_stretch_tells_the_stable_rows_that_it_is_over(rt: HostRuntime) -> Result<(), Fail> {
    static ROWS: [Item; 5] = [
        (10, "Ann", 1),
        (20, "Bob", 2),
        (30, "Cid", 3),
        (40, "Dee", 4),
        (50, "Eve", 5),
    ];
    static READ: [ItemWrite; 1] = [ItemWrite::Set(20, 7)];
    static WRITE: [ItemWrite; 2] = [ItemWrite::Insert(25, "Flo", 6), ItemWrite::Name(20, "Rob")];
    static TRANS: [ItemWrite; 2] = [ItemWrite::Delete(40), ItemWrite::Set(25, 8)];
    let alloc = rt.alloc();
    let stack = named_stack(alloc, &ROWS, [&READ, &WRITE, &TRANS])?;
    assert_shape(&rt, alloc, &stack, "0+1 1:12 +:2 2+1 4+1 ")?;
    Ok(())
}
