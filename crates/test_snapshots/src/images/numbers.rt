//! The numbers of a column as they are filled, through a packed Read-PDT and through its tree, beside the rows that the plain program
//! merges of the same entries. A truth's number is 1 or 0.
ghost use Rattle.merge.specs.Image.{AreStacked};
ghost use Rattle.std.specs.Prelude.{◌≡◌, IfSome, true};
ghost use Rattle.std.specs.Option.{option_copied};
ghost use Rattle.merge.specs.Packed.{IsFixedWidthColumn, IsNumberColumn, IsPacked};

use super::drawn::drawn_stack;
use super::{Stack, written_stack};
use merge::{Layers, NumberRun, Packed};
use std::alloc::Global;
use std::process::Abort;
use std::test::Fail;
use test_fixtures::{ItemWrite, item};
use values::{ColumnType, NoMemory, Row, Schema, ValueRef};

/// Positions to fill from, with the length of the room.
pub(super) static ROOMS: [(u64, usize); 9] = [
    (0, 2_000),
    (0, 1),
    (1, 0),
    (1, 800),
    (333, 1),
    (400, 1_024),
    (700, 1_025),
    (999, 300),
    (5_000, 7),
];

/// Positions around the end of a block and the end of the rows, with the length of the room.
pub(super) static EDGES: [(u64, usize); 10] = [
    (0, 1_100),
    (1_017, 3),
    (1_018, 8),
    (1_021, 1),
    (1_022, 2),
    (1_023, 1),
    (1_024, 1),
    (1_025, 60),
    (1_090, 40),
    (1_099, 1),
];

/// Whether this is the number of a cell.
fn is_number_of(cell: ValueRef<'_>, number: i64) -> bool {
    match cell {
        ValueRef::Int(own) => own == number,
        ValueRef::Bool(true) => number == 1,
        ValueRef::Bool(false) => number == 0,
        ValueRef::Text(_) => false,
    }
}

/// Whether a row has the number in a column.
fn has_number(row: Option<&Row>, col: usize, number: Option<&i64>) -> bool {
    match (row.and_then(|row| row.cells().get(col)), number) {
        (Some(cell), Some(number)) => is_number_of(cell.as_ref(), *number),
        _ => false,
    }
}

/// Whether a room that is filled from a position on has the numbers of the rows there, as many as there are and fit.
fn is_filled(
    layers: &Layers<'_>,
    packed: Option<&Packed>,
    rows: &[Row],
    col: usize,
    from: u64,
    room: &mut [i64],
) -> bool
    requires packed { IfSome (option_copied packed) (IsPacked layers.now.read) }
    requires column { IsFixedWidthColumn layers.now.schema col }
{
    let count = layers.fill_numbers(packed, col, from, room);
    let due = (rows.len() as u64)
        .saturating_sub(from)
        .min(room.len() as u64);
    for i in 0..count {
        let row = rows.get((from as usize).wrapping_add(i));
        if !has_number(row, col, room.get(i)) {
            return false;
        }
    }
    count as u64 == due
}

/// How many numbers a run has.
fn run_len(run: &NumberRun<'_>) -> usize {
    match run {
        NumberRun::Lent(numbers) => numbers.len(),
        NumberRun::One(_) => 1,
    }
}

/// The number of a run at an index, where it has one there.
fn number_at<'a>(run: &'a NumberRun<'_>, i: usize) -> Option<&'a i64> {
    match run {
        NumberRun::Lent(numbers) => numbers.get(i),
        NumberRun::One(number) => { if i == 0 { Some(number) } else { None } }
    }
}

/// Whether the runs of a column from one position up to another have the numbers of the rows there.
fn has_runs(
    layers: &Layers<'_>,
    packed: Option<&Packed>,
    rows: &[Row],
    col: usize,
    from: u64,
    to: u64,
) -> bool
    requires packed { IfSome (option_copied packed) (IsPacked layers.now.read) }
    requires column { IsNumberColumn layers.now.schema col }
{
    let mut place = from as usize;
    for run in layers.number_runs(packed, col, from, to) {
        for i in 0..run_len(&run) {
            let row = rows.get(place.wrapping_add(i));
            if !has_number(row, col, number_at(&run, i)) {
                return false;
            }
        }
        place = place.wrapping_add(run_len(&run));
    }
    place as u64 == to.min(rows.len() as u64).max(from)
}

/// Whether a column is one of numbers.
fn is_of_numbers(schema: &Schema, col: usize) -> bool
    ensures { result ≡ true → IsNumberColumn schema.now col }
{
    matches!(schema.types().get(col), Some(ColumnType::Int))
}

/// Whether a column is one of numbers or of truths.
fn is_fixed_width(schema: &Schema, col: usize) -> bool
    ensures { result ≡ true → IsFixedWidthColumn schema.now col }
{
    matches!(
        schema.types().get(col),
        Some(ColumnType::Int | ColumnType::Bool)
    )
}

/// That each room is filled with the numbers of each column that has numbers or truths, which is each but one at most, and that the runs
/// of one of numbers have them too.
fn assert_filled(
    rt: &impl Abort,
    layers: &Layers<'_>,
    packed: Option<&Packed>,
    rows: &[Row],
    rooms: &[(u64, usize)],
    room: &mut [i64],
)
    requires { IfSome (option_copied packed) (IsPacked layers.now.read) }
{
    let mut columns = 0_usize;
    for col in 0..layers.schema().width() {
        if is_fixed_width(layers.schema(), col) {
            columns = columns.wrapping_add(1);
            for (from, len) in rooms {
                let len = (*len).min(room.len());
                assert!(rt; is_filled(layers, packed, rows, col, *from, &mut room[..len]));
            }
        }
        if is_of_numbers(layers.schema(), col) {
            for (from, len) in rooms {
                let to = from.saturating_add(*len as u64);
                assert!(rt; has_runs(layers, packed, rows, col, *from, to));
            }
        }
    }
    assert!(rt; layers.schema().width() <= columns.wrapping_add(1));
}

/// That the numbers of the image are filled so, and those of the image with no transaction on top.
pub(super) fn assert_numbers(
    rt: &impl Abort,
    alloc: Global,
    stack: &Stack,
    rooms: &[(u64, usize)],
) -> Result<(), Fail>
    requires { AreStacked stack.now.stable stack.now.read.tree stack.now.write.tree stack.now.trans.tree }
{
    let (read, write, trans) = (&stack.read.tree, &stack.write.tree, &stack.trans.tree);
    let packed = Packed::of(alloc, read, stack.stable.schema())?;
    let mut room = Vec::from_elem(alloc, 0_i64, 2_000)?;
    let own = Layers::new(&stack.stable, read, write, trans);
    let committed = Layers::committed(&stack.stable, read, write);
    let (over, under) = (stack.trans.rows.as_slice(), stack.write.rows.as_slice());
    assert_filled(rt, &own, Some(&packed), over, rooms, room.as_mut_slice());
    assert_filled(rt, &own, None, over, rooms, room.as_mut_slice());
    assert_filled(
        rt,
        &committed,
        Some(&packed),
        under,
        rooms,
        room.as_mut_slice(),
    );
    assert_filled(rt, &committed, None, under, rooms, room.as_mut_slice());
    Ok(())
}

#[test]
fn numbers_are_filled_as_the_plain_program_merges_them(rt: HostRuntime) -> Result<(), Fail> {
    for count in [0, 40] {
        let stack = drawn_stack(rt.alloc(), count)?;
        assert_numbers(&rt, rt.alloc(), &stack, &ROOMS)?;
    }
    Ok(())
}

/// Sets, deletes and inserts that meet at the ends of a block and of 1,100 rows, for the Read-PDT.
static EDGE_READ: [ItemWrite; 19] = [
    ItemWrite::Set(2_032, -1_016),
    ItemWrite::Set(2_034, -1_017),
    ItemWrite::Set(2_036, -1_018),
    ItemWrite::Set(2_038, -1_019),
    ItemWrite::Set(2_042, -1_021),
    ItemWrite::Set(2_044, -1_022),
    ItemWrite::Set(2_046, -1_023),
    ItemWrite::Set(2_048, -1_024),
    ItemWrite::Set(2_050, -1_025),
    ItemWrite::Set(2_052, -1_026),
    ItemWrite::Set(2_054, -1_027),
    ItemWrite::Name(2_044, "other"),
    ItemWrite::Delete(2_040),
    ItemWrite::Insert(2_045, "new", 5),
    ItemWrite::Insert(2_047, "new", 6),
    ItemWrite::Delete(2_048),
    ItemWrite::Set(0, 3),
    ItemWrite::Set(2_198, 4),
    ItemWrite::Insert(2_199, "new", 8),
];

/// And some over them, for the Write-PDT.
static EDGE_WRITE: [ItemWrite; 2] = [ItemWrite::Delete(2_034), ItemWrite::Set(2_050, 9)];

/// So many rows of even keys from 0 on, whose quantity is their place.
fn even_rows(alloc: Global, count: u16) -> Result<Vec<Row>, NoMemory> {
    let mut rows = Vec::new(alloc);
    for place in 0..count {
        rows.push(item(alloc, i64::from(place) * 2, "old", i64::from(place))?)?;
    }
    Ok(rows)
}

#[test]
fn numbers_are_filled_at_the_ends_of_blocks(rt: HostRuntime) -> Result<(), Fail> {
    let alloc = rt.alloc();
    let rows = even_rows(alloc, 1_100)?;
    let stack = written_stack(alloc, rows.as_slice(), [&EDGE_READ, &EDGE_WRITE, &[]])?;
    assert_numbers(&rt, alloc, &stack, &EDGES)
}

/// How many numbers each run of a column has.
fn run_lens(
    alloc: Global,
    layers: &Layers<'_>,
    packed: &Packed,
    col: usize,
) -> Result<Vec<usize>, NoMemory>
    requires packed { IsPacked layers.now.read packed.now }
    requires column { IsNumberColumn layers.now.schema col }
{
    let mut lens = Vec::new(alloc);
    for run in layers.number_runs(Some(packed), col, 0, u64::MAX) {
        lens.push(run_len(&run))?;
    }
    Ok(lens)
}

#[test]
fn what_is_changed_in_other_columns_ends_no_packed_run(rt: HostRuntime) -> Result<(), Fail> {
    let alloc = rt.alloc();
    let rows = even_rows(alloc, 2_500)?;
    let read = [
        ItemWrite::Set(200, -1),
        ItemWrite::Delete(400),
        ItemWrite::Insert(601, "new", 5),
        ItemWrite::Name(700, "other"),
        ItemWrite::Name(2_046, "other"),
        ItemWrite::Name(2_048, "other"),
    ];
    let stack = written_stack(alloc, rows.as_slice(), [&read, &[], &[]])?;
    let tree = &stack.read.tree;
    let packed = Packed::of(alloc, tree, stack.stable.schema())?;
    let layers = Layers::committed(&stack.stable, tree, &stack.write.tree);
    let mut found = Vec::new(alloc);
    for col in 0..layers.schema().width() {
        if is_of_numbers(layers.schema(), col) {
            found.push(run_lens(alloc, &layers, &packed, col)?)?;
        }
    }
    let keys = found.get(0).map(|lens| lens.as_slice());
    assert!(&rt; keys == Some(&[200, 100, 1, 723, 1_024, 452][..]));
    let quantities = found.get(1).map(|lens| lens.as_slice());
    assert!(&rt; quantities == Some(&[100, 1, 99, 100, 1, 723, 1_024, 452][..]));
    Ok(())
}
