//! Stores of the base table one of whose devices fails: each device, each of its appends up to the third, and each number of
//! bytes that this one still takes.

ghost use Rattle.std.specs.Prelude.{◌≡◌};
ghost use Rattle.test_fixtures.specs.Named.{base_columns};

use crate::assertions::assert_holds;
use devices::{ColumnDevice, ReadFault, Store, StoreFault, have_failed, read_store};
use std::alloc::Global;
use std::process::Abort;
use std::test::Fail;
use test_fixtures::{
    Failure, Item, Slot, all_left_in, base_table, device_over, empty_slots, item_columns,
    item_table,
};

/// The base table's rows and one more.
pub(super) static MORE: [Item; 4] = [
    (5, "Eve", 0),
    (10, "Ann", 1),
    (20, "Bob", 2),
    (30, "Cid", 3),
];

/// The length of each device's piece: its header, its column of the base table, and its column of one row more.
static SIZES: [[usize; 3]; 3] = [[3, 3, 3], [41, 32, 41], [49, 37, 49]];

/// What a store answers to the base table and twice to one row more, or why it wasn't made.
pub(super) type Answers = Result<[Result<u32, StoreFault>; 3], StoreFault>;

/// The generation that columns store, and how many rows it has.
pub(super) type Stored = Result<(u32, u64), ReadFault>;

/// What a store answers whose devices leave their bytes in the slots.
pub(super) fn answers(
    alloc: Global,
    slots: &[Slot],
    failing: Option<Failure>,
) -> Result<Answers, Fail> {
    let mut devices: Vec<Box<dyn ColumnDevice + Send>> = Vec::new(alloc);
    for (number, slot) in slots.iter().enumerate() {
        devices.push(Box::new(alloc, device_over(alloc, slot, number, failing)?)?)?;
    }
    if have_failed(&devices) {
        return Err(Fail::new("a device has failed before its first append"));
    }
    match Store::new(alloc, devices, &item_columns(alloc)?, 1) {
        Ok(store) => appended(alloc, store),
        Err(fault) => Ok(Err(fault)),
    }
}

/// What the store answers.
fn appended(alloc: Global, store: Store) -> Result<Answers, Fail>
    requires { store.schema ≡ base_columns }
{
    let mut store = store;
    let base = base_table(alloc)?;
    let more = item_table(alloc, &MORE)?;
    let first = store.append_image(&base);
    let second = store.append_image(&more);
    Ok(Ok([first, second, store.append_image(&more)]))
}

/// What the columns store.
pub(super) fn stored(alloc: Global, columns: &[&[u8]]) -> Result<Stored, Fail> {
    let schema = item_columns(alloc)?;
    match read_store(alloc, &schema, columns) {
        Ok(image) => Ok(Ok((image.generation, image.table.len()))),
        Err(fault) => Ok(Err(fault)),
    }
}

/// The answers where this append fails.
fn due(failure: &Failure) -> Answers {
    let failed = Err(StoreFault::DeviceFailed(failure.device));
    let after = Err(StoreFault::StoreFailed);
    match failure.turn {
        1 => Err(StoreFault::DeviceFailed(failure.device)),
        2 => Ok([failed, after, after]),
        _ => Ok([Ok(1), failed, after]),
    }
}

/// What the columns store then: the image before, unless its last piece was taken whole.
fn left(failure: &Failure, size: usize) -> Stored {
    let whole = failure.device == 2 && failure.takes == size;
    match (failure.turn, whole) {
        (1, _) | (2, false) => Err(ReadFault::NoImage),
        (2, true) | (3, false) => Ok((1, 3)),
        _ => Ok((2, 4)),
    }
}

/// That a store answers so where this append, of so many bytes, fails, and leaves what it is to leave.
fn assert_round(rt: &impl Abort, alloc: Global, failure: Failure, size: usize) -> Result<(), Fail> {
    let slots = empty_slots(alloc, 3)?;
    let found = answers(alloc, &slots, Some(failure))?;
    let columns = all_left_in(alloc, &slots)?;
    let image = stored(alloc, &columns)?;
    assert_holds(rt, found == due(&failure), "answers");
    assert_holds(rt, image == left(&failure, size), "image");
    Ok(())
}

#[test]
fn every_device_fails_at_every_byte(rt: HostRuntime) -> Result<(), Fail> {
    for (turn, sizes) in (1_u64..).zip(SIZES.iter()) {
        for (device, size) in sizes.iter().enumerate() {
            for takes in 0..=*size {
                let failure = Failure {
                    device,
                    turn,
                    takes,
                };
                assert_round(&rt, rt.alloc(), failure, *size)?;
            }
        }
    }
    Ok(())
}

/// What a store leaves: the append that fails, the lengths of its columns, how each of them ends, and what they store.
type Worked = (Option<Failure>, [usize; 3], [&'static [u8]; 3], Stored);

static WORKED: [Worked; 6] = [
    (
        None,
        [143, 110, 143],
        [&[0x45], &[0x45], &[0x45]],
        Ok((3, 4)),
    ),
    (
        Some(Failure {
            device: 1,
            turn: 3,
            takes: 5,
        }),
        [94, 40, 45],
        [&[0x45], &[0x42, 0, 0, 0, 2], &[0x45]],
        Ok((1, 3)),
    ),
    (
        Some(Failure {
            device: 1,
            turn: 1,
            takes: 2,
        }),
        [4, 2, 1],
        [&[0x48, 2, 1, 0x45], &[0x48, 2], &[0x45]],
        Err(ReadFault::NoImage),
    ),
    (
        Some(Failure {
            device: 1,
            turn: 2,
            takes: 31,
        }),
        [45, 34, 4],
        [&[0x45], &[], &[0x48, 2, 1, 0x45]],
        Err(ReadFault::NoImage),
    ),
    (
        Some(Failure {
            device: 2,
            turn: 3,
            takes: 48,
        }),
        [94, 73, 92],
        [&[0x45], &[0x45], &[]],
        Ok((1, 3)),
    ),
    (
        Some(Failure {
            device: 2,
            turn: 3,
            takes: 49,
        }),
        [94, 73, 93],
        [&[0x45], &[0x45], &[]],
        Ok((2, 4)),
    ),
];

/// Whether each column is so long and ends so.
fn have_ends(columns: &[&[u8]], lengths: &[usize], ends: &[&[u8]]) -> bool {
    columns.iter().zip(lengths.iter().zip(ends.iter())).all(|(column, (length, end))| column.len()
        == *length
        && column.ends_with(end))
}

/// That the slots have these columns.
fn assert_columns(
    rt: &impl Abort,
    alloc: Global,
    slots: &[Slot],
    (_, lengths, ends, image): &Worked,
) -> Result<(), Fail> {
    let columns = all_left_in(alloc, slots)?;
    assert_holds(rt, have_ends(&columns, lengths, ends), "columns");
    let found = stored(alloc, &columns)?;
    assert_holds(rt, found == *image, "image");
    Ok(())
}

/// That a store leaves this.
fn assert_worked(rt: &impl Abort, alloc: Global, worked: &Worked) -> Result<(), Fail> {
    let slots = empty_slots(alloc, 3)?;
    let found = answers(alloc, &slots, worked.0)?;
    let sound = worked.0.is_some() || found == Ok([Ok(1), Ok(2), Ok(3)]);
    assert_holds(rt, sound, "answers of sound devices");
    assert_columns(rt, alloc, &slots, worked)
}

#[test]
fn a_failed_append_leaves_the_columns_so(rt: HostRuntime) -> Result<(), Fail> {
    for case in WORKED.iter() {
        assert_worked(&rt, rt.alloc(), case)?;
    }
    Ok(())
}
