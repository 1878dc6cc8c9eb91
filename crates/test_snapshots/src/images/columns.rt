//! Each column of an image, run by run, beside the rows that the plain program merges of the same entries.
ghost use Rattle.std.specs.Prelude.{◌<◌, length};
ghost use Rattle.merge.specs.Image.{AreStacked};

use super::drawn::drawn_stack;
use super::{Stack, written_stack};
use crate::assertions::assert_holds;
use merge::{Layers, Run, Stretch, TextRun};
use std::alloc::Global;
use std::process::Abort;
use std::test::Fail;
use test_fixtures::item;
use values::{NoMemory, Row, ValueRef};

/// How many values the run has.
fn run_len(run: &Run<'_>) -> usize {
    match run {
        Run::Ints(ints) => ints.len(),
        Run::Texts(texts) => texts.count,
        Run::Truths(truths) => truths.count,
        Run::Value(_) => 1,
    }
}

/// The text of a run at an index, where it has one there.
fn text_at<'a>(run: &TextRun<'a>, i: usize) -> Option<ValueRef<'a>> {
    let at = run.first.wrapping_add(i);
    if at < run.texts.len() {
        Some(ValueRef::Text(run.texts.get(at)))
    } else {
        None
    }
}

/// The value of a run at an index, where that is a number or a text.
fn value_at<'a>(run: &Run<'a>, i: usize) -> Option<ValueRef<'a>> {
    match run {
        Run::Ints(ints) => ints.get(i).map(|number| ValueRef::Int(*number)),
        Run::Texts(texts) => text_at(texts, i),
        Run::Truths(_) => None,
        Run::Value(value) => Some(*value),
    }
}

/// Whether the row has the value in the column.
pub(super) fn has_value(row: Option<&Row>, col: usize, value: Option<ValueRef<'_>>) -> bool {
    match (row.and_then(|row| row.cells().get(col)), value) {
        (Some(cell), Some(value)) => cell.as_ref() == value,
        _ => false,
    }
}

/// Whether the run has the values of the rows from a place on.
fn has_values(run: &Run<'_>, rows: &[Row], col: usize, place: usize) -> bool {
    for i in 0..run_len(run) {
        if !has_value(rows.get(place.wrapping_add(i)), col, value_at(run, i)) {
            return false;
        }
    }
    true
}

/// Whether the runs of a column have the values of the rows of a range.
fn has_runs(layers: &Layers<'_>, rows: &[Row], col: usize, range: (u64, u64)) -> bool
    requires { col < length layers.now.schema.types }
{
    let (from, to) = range;
    let mut place = from as usize;
    for run in layers.column_runs(col, from, to) {
        if !has_values(&run, rows, col, place) {
            return false;
        }
        place = place.wrapping_add(run_len(&run));
    }
    place as u64 == to.min(rows.len() as u64)
}

/// Whether a column has the values of the rows in each range.
fn has_column(layers: &Layers<'_>, rows: &[Row], col: usize) -> bool
    requires { col < length layers.now.schema.types }
{
    static RANGES: [(u64, u64); 5] = [(0, 2_000), (1, 800), (400, 401), (333, 777), (700, 1_400)];
    for range in &RANGES {
        if !has_runs(layers, rows, col, *range) {
            return false;
        }
    }
    true
}

/// That each column of the image is that of its rows.
fn assert_columns(rt: &impl Abort, stack: &Stack)
    requires { AreStacked stack.now.stable stack.now.read.tree stack.now.write.tree stack.now.trans.tree }
{
    let rows = stack.trans.rows.as_slice();
    let (read, write, trans) = (&stack.read.tree, &stack.write.tree, &stack.trans.tree);
    let layers = Layers::new(&stack.stable, read, write, trans);
    for col in 0..layers.schema().width() {
        assert!(rt; has_column(&layers, rows, col));
    }
}

#[test]
fn columns_are_those_of_the_rows_that_the_plain_program_merges(
    rt: HostRuntime,
) -> Result<(), Fail> {
    let stack = drawn_stack(rt.alloc(), 40)?;
    assert_columns(&rt, &stack);
    Ok(())
}

/// How many values each run of a column has.
fn run_lens(alloc: Global, layers: &Layers<'_>, col: usize) -> Result<Vec<usize>, NoMemory>
    requires { col < length layers.now.schema.types }
{
    let mut lens = Vec::new(alloc);
    for run in layers.column_runs(col, 0, u64::MAX) {
        lens.push(run_len(&run))?;
    }
    Ok(lens)
}

/// How many rows each stretch has.
fn stretch_lens(alloc: Global, layers: &Layers<'_>) -> Result<Vec<u64>, NoMemory> {
    let mut lens = Vec::new(alloc);
    for stretch in layers.stretches(0, u64::MAX) {
        lens.push(match stretch {
            Stretch::Stable(stable) => stable.len,
            Stretch::Row(_) => 1,
        })?;
    }
    Ok(lens)
}

/// Rows with the keys from 0 on.
fn numbered_rows(alloc: Global, count: u16) -> Result<Vec<Row>, NoMemory> {
    let mut rows = Vec::new(alloc);
    for id in 0..count {
        rows.push(item(alloc, i64::from(id), "Ann", 1)?)?;
    }
    Ok(rows)
}

/// That the runs of a column have so many values each, and the stretches of the image so many rows.
fn assert_lens(
    rt: &impl Abort,
    alloc: Global,
    stack: &Stack,
    label: &str,
    want: (usize, &[usize], &[u64]),
) -> Result<(), NoMemory>
    requires { AreStacked stack.now.stable stack.now.read.tree stack.now.write.tree stack.now.trans.tree }
{
    let (column, runs, stretches) = want;
    let (read, write, trans) = (&stack.read.tree, &stack.write.tree, &stack.trans.tree);
    let layers = Layers::new(&stack.stable, read, write, trans);
    for col in 0..layers.schema().width() {
        if col == column {
            assert_holds(rt, run_lens(alloc, &layers, col)?.as_slice() == runs, label);
        }
    }
    assert_holds(
        rt,
        stretch_lens(alloc, &layers)?.as_slice() == stretches,
        label,
    );
    Ok(())
}

#[test]
fn rows_that_nothing_changes_stand_together(rt: HostRuntime) -> Result<(), Fail> {
    let alloc = rt.alloc();
    let rows = numbered_rows(alloc, 2_500)?;
    let stack = written_stack(alloc, rows.as_slice(), [&[], &[], &[]])?;
    assert_lens(
        &rt,
        alloc,
        &stack,
        "blocks",
        (0, &[1_024, 1_024, 452], &[2_500]),
    )?;
    Ok(())
}
