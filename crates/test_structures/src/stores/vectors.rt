//! Stores of one column of numbers, byte by byte: which of them are read, and the first fault of the others.

use crate::assertions::assert_holds;
use crate::stores::{NAMED, one_column};
use blocks::BlockFault;
use devices::{ReadFault, read_store};
use std::alloc::Global;
use std::test::Fail;
use values::{NoMemory, Schema, ValueRef};

/// One row of the number ten in format 1: a header, a block of generation 1, and a clean end.
pub(crate) const TEN: [u8; 28] = [
    0x48, 1, 1, 0x42, 0, 0, 0, 1, 0, 0, 0, 0, 1, 0, 1, 0, 0, 0, 8, 0, 0, 0, 0, 0, 0, 0, 10, 0x45,
];

/// No rows in format 1: a header, a block of generation 1 with no values, and a clean end.
const NONE: [u8; 20] = [
    0x48, 1, 1, 0x42, 0, 0, 0, 1, 0, 0, 0, 0, 1, 0, 0, 0, 0, 0, 0, 0x45,
];

/// What changes at places of `TEN`, what comes after it, and the generation that is read or the fault.
type Case = (
    &'static str,
    &'static [(usize, u8)],
    &'static [u8],
    Result<u32, ReadFault>,
);

static CASES: [Case; 12] = [
    ("as it is", &[], &[], Ok(1)),
    (
        "version 2",
        &[(1, 2)],
        &[],
        Err(ReadFault::BadBlock(0, 3, BlockFault::Short(1))),
    ),
    ("version 3", &[(1, 3)], &[], Err(ReadFault::BadFrame(0, 0))),
    (
        "a text column",
        &[(2, 2)],
        &[],
        Err(ReadFault::TypesDiffer(0)),
    ),
    ("not last", &[(12, 0)], &[], Err(ReadFault::BadFrame(0, 3))),
    (
        "1,025 values",
        &[(13, 4)],
        &[],
        Err(ReadFault::BadFrame(0, 3)),
    ),
    (
        "a byte short",
        &[(18, 7)],
        &[],
        Err(ReadFault::BadBlock(0, 3, BlockFault::Short(0))),
    ),
    (
        "a payload of 4 GiB",
        &[(15, 0xff), (16, 0xff), (17, 0xff), (18, 0xff)],
        &[],
        Err(ReadFault::NoImage),
    ),
    (
        "the generation twice",
        &[],
        &TEN,
        Err(ReadFault::BadFrame(0, 31)),
    ),
    (
        "an unknown frame",
        &[],
        &[0],
        Err(ReadFault::BadFrame(0, 28)),
    ),
    ("a torn block", &[], &[0x42], Ok(1)),
    ("a torn header", &[], &[0x48, 1], Ok(1)),
];

/// The bytes of `TEN` with these changes, and these after them.
fn changed(alloc: Global, changes: &[(usize, u8)], tail: &[u8]) -> Result<Vec<u8>, NoMemory> {
    let mut bytes = Vec::new(alloc);
    bytes.extend_from_slice(&TEN)?;
    for (at, byte) in changes {
        if let Some(place) = bytes.get_mut(*at) {
            *place = *byte;
        }
    }
    bytes.extend_from_slice(tail)?;
    Ok(bytes)
}

/// The generation that a column of numbers stores, or its first fault.
pub(crate) fn generation(alloc: Global, schema: &Schema, bytes: &[u8]) -> Result<u32, ReadFault> {
    match read_store(alloc, schema, &[bytes]) {
        Ok(image) => Ok(image.generation),
        Err(fault) => Err(fault),
    }
}

#[test]
fn stores_are_read_or_refused(rt: HostRuntime) -> Result<(), Fail> {
    let schema = one_column(rt.alloc())?;
    for (label, changes, tail, want) in CASES.iter() {
        let bytes = changed(rt.alloc(), changes, tail)?;
        let found = generation(rt.alloc(), &schema, bytes.as_slice());
        assert_holds(&rt, found == *want, label);
    }
    Ok(())
}

#[test]
fn a_store_needs_a_header_and_as_many_columns(rt: HostRuntime) -> Result<(), Fail> {
    let schema = one_column(rt.alloc())?;
    let headless = generation(rt.alloc(), &schema, &TEN[3..]);
    assert_holds(&rt, headless == Err(ReadFault::BadFrame(0, 0)), "no header");
    let ended = generation(rt.alloc(), &schema, &[0x45]);
    assert_holds(&rt, ended == Err(ReadFault::NoImage), "a clean end alone");
    let none = read_store(rt.alloc(), &schema, &[]);
    assert_holds(&rt, matches!(none, Err(ReadFault::WrongCount)), "no column");
    Ok(())
}

/// Whether a column stores the number ten alone, in generation 1.
fn is_ten(alloc: Global, schema: &Schema, column: &[u8]) -> bool {
    match read_store(alloc, schema, &[column]) {
        Ok(image) => {
            image.generation == 1
                && image.table.len() == 1
                && image.table.schema().width() == 1
                && image.table.value(0, 0) == ValueRef::Int(10)
        }
        Err(_) => false,
    }
}

#[test]
fn the_smallest_columns_store_their_rows(rt: HostRuntime) -> Result<(), Fail> {
    let schema = one_column(rt.alloc())?;
    assert_holds(&rt, is_ten(rt.alloc(), &schema, &TEN), "format 1");
    assert_holds(&rt, is_ten(rt.alloc(), &schema, &NAMED), "format 2");
    let none = read_store(rt.alloc(), &schema, &[&NONE])?;
    assert_holds(&rt, none.generation == 1, "no rows are an image");
    assert_holds(&rt, none.table.len() == 0, "which has no rows");
    Ok(())
}

#[test]
fn a_cut_column_gives_whole_images_or_none(rt: HostRuntime) -> Result<(), Fail> {
    let schema = one_column(rt.alloc())?;
    for size in 0..=NAMED.len() {
        let found = generation(rt.alloc(), &schema, &NAMED[..size]);
        let want = if size < 28 {
            Err(ReadFault::NoImage)
        } else {
            Ok(1)
        };
        assert_holds(&rt, found == want, "cut");
    }
    Ok(())
}

/// How many of the changes of one byte of the smallest column leave an image, or none where a growth was refused.
fn images_after_changes(alloc: Global, schema: &Schema) -> Option<u64> {
    let mut images = 0u64;
    for at in 0..NAMED.len() {
        for step in 1..=255 {
            let mut bytes = NAMED;
            bytes[at] = bytes[at].wrapping_add(step);
            match generation(alloc, schema, &bytes) {
                Ok(_) => images = images.saturating_add(1),
                Err(ReadFault::NoMemory) => return None,
                Err(_) => {}
            }
        }
    }
    Some(images)
}

// An image stays where a byte of the generation or of the number changes, 12 times 255, and where the clean end becomes
// the beginning of a header or of a block, 2.
#[test]
fn one_byte_changed(rt: HostRuntime) -> Result<(), Fail> {
    let schema = one_column(rt.alloc())?;
    let images = images_after_changes(rt.alloc(), &schema);
    assert_holds(&rt, images == Some(3062), "images");
    Ok(())
}
