//! What no clause says: images that a person worked out, and images of many rows beside those that the plain program
//! makes of the same entries.
//!
//! That a refused growth is answered shows under `rt try --test --fail-alloc N`, for N from 1 on: each test ends well,
//! or with the error of the growth.
ghost use Rattle.std.specs.Prelude.{◌≡◌, IfOk};
ghost use Rattle.std.specs.List.{list_all};
ghost use Rattle.model.specs.Table.{IsTable, table_of};
ghost use Rattle.model.specs.Effects.{table_with};
ghost use Rattle.model.specs.Writes.{write_fits_schema};
ghost use Rattle.merge.specs.Image.{AreStacked, IsLayer};

mod columns;
mod drawn;
mod numbers;
mod placed;
mod truths;

use crate::assertions::{assert_holds, assert_text, assert_text_at};
use crate::shown::{row_text, rows_text};
use delta::DeltaTree;
use merge::{Layers, Stretch};
use model::Write;
use oracle::{Effects, OrderedTable, canonical_entries, merged_rows};
use stable::StableTable;
use std::alloc::Global;
use std::process::Abort;
use std::test::Fail;
use test_fixtures::{BASE, Item, ItemWrite, copy_rows, item_columns, items, key, writes_of};
use values::{NoMemory, Row, Schema};

/// More rows than any image here has.
pub(crate) const AMPLE: u64 = 1_000_000;

/// More rows, or entries, than any table here has.
pub(crate) const MANY: usize = 1_000_000;

/// A tree over a table, and the table after its effects.
#[derive(Drop)]
struct Layered {
    tree: DeltaTree,
    /// The rows that the plain program merges of the same entries.
    rows: Vec<Row>,
    after: OrderedTable,
}

/// What layers lend.
#[derive(Drop)]
struct Stack {
    stable: StableTable,
    read: Layered,
    write: Layered,
    /// Its rows are those of the image.
    trans: Layered,
}

/// Whether the write fits the schema.
fn fits(schema: &Schema, write: &Write) -> bool
    ensures { result ≡ write_fits_schema schema.now write.now }
{
    match write {
        Write::Insert(row) => schema.check_row(row).is_ok(),
        Write::Delete(key) => schema.check_key(key).is_ok(),
        Write::Set(key, col, value) => {
            schema.check_key(key).is_ok() && schema.check_cell(*col, value).is_ok()
        }
    }
}

/// Whether each write fits the schema.
pub(crate) fn all_fit(schema: &Schema, writes: &[Write]) -> bool
    ensures { result ≡ list_all (write_fits_schema schema.now) writes.now }
{
    writes.iter().all(|write| fits(schema, write))
}

/// The tree of a transaction's writes over a table, as the plain program makes it.
fn make_layer(
    alloc: Global,
    schema: &Schema,
    table: &OrderedTable,
    writes: &[Write],
) -> Result<Layered, Fail>
    requires { IsTable schema.now table.now }
    ensures { IfOk result (λ made. (layer : IsLayer schema.now table.now made.tree) × (made.after ≡ table_with table.now layer.effects)
        × IsTable schema.now made.after) }
{
    if !all_fit(schema, writes) {
        return Err(Fail::new("a write doesn't fit"));
    }
    let rows = table.len();
    if rows >= MANY {
        return Err(Fail::new("many rows"));
    }
    let key_cols = schema.key_cols();
    let mut effects = Effects::new(alloc);
    table.write_all(key_cols, AMPLE, &mut effects, writes)?;
    let entries = canonical_entries(alloc, table, &effects)?;
    let count = entries.len();
    if count >= MANY {
        return Err(Fail::new("many entries"));
    }
    let merged = merged_rows(alloc, table.rows()?.as_slice(), entries.as_slice())?;
    Ok(Layered {
        rows: merged,
        tree: DeltaTree::from_sorted(alloc, key_cols, entries)?,
        after: table.with(&effects)?,
    })
}

/// The layers of three transactions' writes, the first over the table and each other one over what those below it leave.
fn make_layers(
    alloc: Global,
    schema: &Schema,
    table: &OrderedTable,
    writes: [&[Write]; 3],
) -> Result<(Layered, Layered, Layered), Fail>
    requires { IsTable schema.now table.now }
    ensures { IfOk result
        (λ made. (lower : IsLayer schema.now table.now made.0.tree) × (made.0.after ≡ table_with table.now lower.effects)
        × (middle : IsLayer schema.now made.0.after made.1.tree) × (made.1.after ≡ table_with made.0.after middle.effects)
        × IsLayer schema.now made.1.after made.2.tree) }
{
    let read = make_layer(alloc, schema, table, writes[0])?;
    let write = make_layer(alloc, schema, &read.after, writes[1])?;
    let trans = make_layer(alloc, schema, &write.after, writes[2])?;
    Ok((read, write, trans))
}

/// The rows of the base table's columns under three transactions' writes.
fn stacked(alloc: Global, rows: &[Row], writes: [&[Write]; 3]) -> Result<Stack, Fail>
    ensures { IfOk result (λ made. AreStacked made.stable made.read.tree made.write.tree made.trans.tree) }
{
    stacked_with(alloc, item_columns(alloc)?, rows, writes)
}

/// The rows of these columns under three transactions' writes.
fn stacked_with(
    alloc: Global,
    columns: Schema,
    rows: &[Row],
    writes: [&[Write]; 3],
) -> Result<Stack, Fail>
    ensures { IfOk result (λ made. AreStacked made.stable made.read.tree made.write.tree made.trans.tree) }
{
    let stable = StableTable::build(alloc, columns, copy_rows(alloc, rows)?)?;
    let schema = stable.schema();
    let table = OrderedTable::from_rows(alloc, schema.key_cols(), copy_rows(alloc, rows)?)?;
    let (read, write, trans) = make_layers(alloc, schema, &table, writes)?;
    Ok(Stack {
        stable,
        read,
        write,
        trans,
    })
}

/// A label, the stable rows, the writes of the three transactions, and the image.
type Case = (
    &'static str,
    &'static [Item],
    [&'static [ItemWrite]; 3],
    &'static str,
);

/// The rows under the named writes of three transactions.
fn written_stack(alloc: Global, rows: &[Row], named: [&[ItemWrite]; 3]) -> Result<Stack, Fail>
    ensures { IfOk result (λ made. AreStacked made.stable made.read.tree made.write.tree made.trans.tree) }
{
    let read = writes_of(alloc, named[0])?;
    let write = writes_of(alloc, named[1])?;
    let trans = writes_of(alloc, named[2])?;
    stacked(
        alloc,
        rows,
        [read.as_slice(), write.as_slice(), trans.as_slice()],
    )
}

/// The named rows under them.
fn named_stack(alloc: Global, rows: &[Item], named: [&[ItemWrite]; 3]) -> Result<Stack, Fail>
    ensures { IfOk result (λ made. AreStacked made.stable made.read.tree made.write.tree made.trans.tree) }
{
    written_stack(alloc, items(alloc, rows)?.as_slice(), named)
}

/// How many rows the stretches of a range have.
fn rows_in_stretches(layers: &Layers<'_>, from: u64, to: u64) -> u64 {
    let mut count = 0_u64;
    for stretch in layers.stretches(from, to) {
        let rows = match stretch {
            Stretch::Stable(stable) => stable.len,
            Stretch::Row(_) => 1,
        };
        count = count.wrapping_add(rows);
    }
    count
}

/// That a position has this row, or none.
fn assert_row_at(
    rt: &impl Abort,
    alloc: Global,
    layers: &Layers<'_>,
    rid: u64,
    want: &str,
) -> Result<(), NoMemory> {
    let text = row_text(alloc, layers.row_at(rid))?;
    assert_text_at(rt, text.as_str(), want, rid);
    Ok(())
}

/// That a key has this rank, and is there or isn't.
fn assert_rank(
    rt: &impl Abort,
    alloc: Global,
    layers: &Layers<'_>,
    id: i64,
    place: (u64, bool),
) -> Result<(), NoMemory> {
    let key = key(alloc, id)?;
    assert!(rt; layers.rank(&key) == place);
    Ok(())
}

/// That a range has these rows.
fn assert_range(
    rt: &impl Abort,
    alloc: Global,
    layers: &Layers<'_>,
    (from, to): (u64, u64),
    want: &str,
) -> Result<(), NoMemory> {
    let text = rows_text(alloc, layers.scan(from, to))?;
    assert_text_at(rt, text.as_str(), want, from);
    Ok(())
}

/// Three layers over the base table, whose image has the keys 15, 20, 30 and 35.
fn three_layers(alloc: Global) -> Result<Stack, Fail>
    ensures { IfOk result (λ made. AreStacked made.stable made.read.tree made.write.tree made.trans.tree) }
{
    static READ: [ItemWrite; 2] = [ItemWrite::Insert(15, "Flo", 5), ItemWrite::Delete(30)];
    static WRITE: [ItemWrite; 2] = [ItemWrite::Set(15, 6), ItemWrite::Insert(30, "Zed", 7)];
    static TRANS: [ItemWrite; 2] = [ItemWrite::Delete(10), ItemWrite::Insert(35, "Gus", 8)];
    named_stack(alloc, &BASE, [&READ, &WRITE, &TRANS])
}

/// That they have these rows, at positions and in ranges.
fn assert_rows(rt: &impl Abort, alloc: Global, stack: &Stack) -> Result<(), Fail>
    requires { AreStacked stack.now.stable stack.now.read.tree stack.now.write.tree stack.now.trans.tree }
{
    static ROWS: [(u64, &str); 4] = [(0, "15,Flo,6"), (1, "20,Bob,2"), (3, "35,Gus,8"), (4, "")];
    static RANGES: [((u64, u64), &str); 4] = [
        ((1, 9), "20,Bob,2 30,Zed,7 35,Gus,8"),
        ((3, 1), ""),
        ((0, u64::MAX), "15,Flo,6 20,Bob,2 30,Zed,7 35,Gus,8"),
        ((u64::MAX, u64::MAX), ""),
    ];
    let (read, write, trans) = (&stack.read.tree, &stack.write.tree, &stack.trans.tree);
    let layers = Layers::new(&stack.stable, read, write, trans);
    for (rid, want) in &ROWS {
        assert_row_at(rt, alloc, &layers, *rid, *want)?;
    }
    for (range, want) in &RANGES {
        assert_range(rt, alloc, &layers, *range, *want)?;
    }
    Ok(())
}

#[test]
fn three_layers_make_one_image(rt: HostRuntime) -> Result<(), Fail> {
    let stack = three_layers(rt.alloc())?;
    assert_rows(&rt, rt.alloc(), &stack)
}

/// That keys have their ranks in them.
fn assert_ranks(rt: &impl Abort, alloc: Global, stack: &Stack) -> Result<(), Fail>
    requires { AreStacked stack.now.stable stack.now.read.tree stack.now.write.tree stack.now.trans.tree }
{
    static RANKS: [(i64, (u64, bool)); 4] = [
        (10, (0, false)),
        (16, (1, false)),
        (30, (2, true)),
        (99, (4, false)),
    ];
    let (read, write, trans) = (&stack.read.tree, &stack.write.tree, &stack.trans.tree);
    let layers = Layers::new(&stack.stable, read, write, trans);
    for (id, place) in &RANKS {
        assert_rank(rt, alloc, &layers, *id, *place)?;
    }
    Ok(())
}

#[test]
fn keys_have_their_ranks_in_three_layers(rt: HostRuntime) -> Result<(), Fail> {
    let stack = three_layers(rt.alloc())?;
    assert_ranks(&rt, rt.alloc(), &stack)
}

/// That layers of four rows count those past the first.
fn assert_scan_counted(rt: &impl Abort, layers: &Layers<'_>) {
    assert_holds(rt, layers.len() == 4, "the rows");
    assert_holds(rt, !layers.is_empty(), "some row");
    assert_holds(rt, layers.scan(1, 9).len() == 3, "the rows of a scan");
    let told = layers.scan(1, 9).size_hint();
    assert_holds(rt, told == (3, Some(3)), "as told before");
}

/// The same, in stretches.
fn assert_stretches_counted(rt: &impl Abort, layers: &Layers<'_>) {
    let told = layers.stretches(1, 9).size_hint();
    assert_holds(rt, told == (1, Some(3)), "the stretches");
    let left = layers.stretches(1, 9).rows_left();
    assert_holds(rt, left == 3, "the rows left");
    let rows = rows_in_stretches(layers, 1, 9);
    assert_holds(rt, rows == 3, "the rows in stretches");
}

/// The same, of what is lent.
fn assert_counted(rt: &impl Abort, stack: &Stack)
    requires { AreStacked stack.now.stable stack.now.read.tree stack.now.write.tree stack.now.trans.tree }
{
    let (read, write, trans) = (&stack.read.tree, &stack.write.tree, &stack.trans.tree);
    let layers = Layers::new(&stack.stable, read, write, trans);
    assert_scan_counted(rt, &layers);
    assert_stretches_counted(rt, &layers);
}

#[test]
fn three_layers_count_their_rows(rt: HostRuntime) -> Result<(), Fail> {
    let stack = three_layers(rt.alloc())?;
    assert_counted(&rt, &stack);
    Ok(())
}

/// That the image has these rows.
fn assert_shown(
    rt: &impl Abort,
    alloc: Global,
    stack: &Stack,
    want: &str,
    label: &str,
) -> Result<(), Fail>
    requires { AreStacked stack.now.stable stack.now.read.tree stack.now.write.tree stack.now.trans.tree }
{
    let (read, write, trans) = (&stack.read.tree, &stack.write.tree, &stack.trans.tree);
    let layers = Layers::new(&stack.stable, read, write, trans);
    let text = rows_text(alloc, layers.scan(0, u64::MAX))?;
    assert_text(rt, text.as_str(), want, label);
    Ok(())
}

/// That the layers of a case make its image.
fn assert_image(
    rt: &impl Abort,
    alloc: Global,
    (label, rows, steps, image): Case,
) -> Result<(), Fail> {
    let stack = named_stack(alloc, rows, steps)?;
    assert_shown(rt, alloc, &stack, image, label)
}

#[test]
fn images_at_the_edges(rt: HostRuntime) -> Result<(), Fail> {
    static CASES: [Case; 4] = [
        (
            "inserts into no rows",
            &[],
            [
                &[ItemWrite::Insert(2, "Bo", 2)],
                &[ItemWrite::Insert(1, "Al", 1)],
                &[ItemWrite::Insert(3, "Cy", 3)],
            ],
            "1,Al,1 2,Bo,2 3,Cy,3",
        ),
        (
            "all rows deleted",
            &BASE,
            [
                &[ItemWrite::Delete(10)],
                &[ItemWrite::Delete(30)],
                &[ItemWrite::Delete(20)],
            ],
            "",
        ),
        (
            "inserts past the last row",
            &BASE,
            [
                &[
                    ItemWrite::Insert(40, "Di", 4),
                    ItemWrite::Insert(50, "Ed", 5),
                ],
                &[ItemWrite::Insert(60, "Fi", 6)],
                &[ItemWrite::Insert(45, "Gil", 7), ItemWrite::Delete(40)],
            ],
            "10,Ann,1 20,Bob,2 30,Cid,3 45,Gil,7 50,Ed,5 60,Fi,6",
        ),
        (
            "a row replaced, then modified twice",
            &BASE,
            [
                &[ItemWrite::Delete(20), ItemWrite::Insert(20, "Bea", 9)],
                &[ItemWrite::Set(20, 8), ItemWrite::Set(10, 4)],
                &[ItemWrite::Set(20, 7), ItemWrite::Set(10, 5)],
            ],
            "10,Ann,5 20,Bea,7 30,Cid,3",
        ),
    ];
    for case in &CASES {
        assert_image(&rt, rt.alloc(), *case)?;
    }
    Ok(())
}
