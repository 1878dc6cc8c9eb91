//! Payloads of format 2, read and written again: plain, in the constant form, and each fault.
ghost use Rattle.std.specs.Prelude.{◌≤◌};
ghost use Rattle.values.specs.declared.limits.TheConstants.{MAX_BLOCK_VALUES};

use super::{Case, assert_wanted};
use crate::assertions::assert_holds;
use blocks::{Block, BlockFault, read_block2, write_block2};
use std::alloc::Global;
use std::process::Abort;
use std::test::Fail;
use values::limits::MAX_BLOCK_VALUES;
use values::{ColumnType, NoMemory, ValueRef};

/// That the block is written as these bytes, after those that are there.
fn assert_written(rt: &impl Abort, alloc: Global, block: &Block, bytes: &[u8]) -> Result<(), Fail> {
    let mut want = Vec::from_slice(alloc, &[1, 2])?;
    want.extend_from_slice(bytes)?;
    let mut written = Vec::from_slice(alloc, &[1, 2])?;
    let left = match write_block2(block, &mut written) {
        Ok(()) => want.as_slice(),
        Err(NoMemory) => &[1, 2],
    };
    assert_holds(rt, written.as_slice() == left, "the bytes");
    Ok(())
}

/// That the payload reads so, and that what is read is written so again.
fn assert_stored(
    rt: &impl Abort,
    alloc: Global,
    (label, ty, count, bytes, want): Case,
) -> Result<(), Fail> {
    assert!(rt; count <= MAX_BLOCK_VALUES);
    let read = read_block2(alloc, ty, count, bytes);
    if let Ok(block) = &read {
        assert_written(rt, alloc, block, bytes)?;
    }
    Ok(assert_wanted(rt, &read, want, label)?)
}

static STORED: [Case; 12] = [
    ("no number", ColumnType::Int, 0, &[0], Ok(&[])),
    (
        "one number",
        ColumnType::Int,
        1,
        &[0, 0, 0, 0, 0, 0, 0, 0, 10],
        Ok(&[ValueRef::Int(10)]),
    ),
    (
        "three sevens",
        ColumnType::Int,
        3,
        &[1, 0, 0, 0, 0, 0, 0, 0, 7],
        Ok(&[ValueRef::Int(7), ValueRef::Int(7), ValueRef::Int(7)]),
    ),
    (
        "a seven and an eight",
        ColumnType::Int,
        2,
        &[0, 0, 0, 0, 0, 0, 0, 0, 7, 0, 0, 0, 0, 0, 0, 0, 8],
        Ok(&[ValueRef::Int(7), ValueRef::Int(8)]),
    ),
    ("no text", ColumnType::Text, 0, &[0], Ok(&[])),
    (
        "one text",
        ColumnType::Text,
        1,
        &[0, 0, 1, 0x61],
        Ok(&[ValueRef::Text("a")]),
    ),
    (
        "three texts Ann",
        ColumnType::Text,
        3,
        &[1, 0, 3, 0x41, 0x6e, 0x6e],
        Ok(&[
            ValueRef::Text("Ann"),
            ValueRef::Text("Ann"),
            ValueRef::Text("Ann"),
        ]),
    ),
    (
        "two empty texts",
        ColumnType::Text,
        2,
        &[1, 0, 0],
        Ok(&[ValueRef::Text(""), ValueRef::Text("")]),
    ),
    (
        "an empty text, and another",
        ColumnType::Text,
        2,
        &[0, 0, 0, 0, 1, 0x61],
        Ok(&[ValueRef::Text(""), ValueRef::Text("a")]),
    ),
    (
        "one truth",
        ColumnType::Bool,
        1,
        &[0, 0x80],
        Ok(&[ValueRef::Bool(true)]),
    ),
    (
        "three times true",
        ColumnType::Bool,
        3,
        &[1, 0x80],
        Ok(&[
            ValueRef::Bool(true),
            ValueRef::Bool(true),
            ValueRef::Bool(true),
        ]),
    ),
    (
        "twice false",
        ColumnType::Bool,
        2,
        &[1, 0],
        Ok(&[ValueRef::Bool(false), ValueRef::Bool(false)]),
    ),
];

static REFUSED: [Case; 19] = [
    (
        "no byte",
        ColumnType::Int,
        1,
        &[],
        Err(BlockFault::Short(0)),
    ),
    (
        "no byte for no number",
        ColumnType::Int,
        0,
        &[],
        Err(BlockFault::Short(0)),
    ),
    (
        "another encoding",
        ColumnType::Int,
        1,
        &[2, 0, 0, 0, 0, 0, 0, 0, 10],
        Err(BlockFault::BadEncoding),
    ),
    (
        "one number as a constant",
        ColumnType::Int,
        1,
        &[1, 0, 0, 0, 0, 0, 0, 0, 10],
        Err(BlockFault::BadEncoding),
    ),
    (
        "no truth as a constant",
        ColumnType::Bool,
        0,
        &[1],
        Err(BlockFault::BadEncoding),
    ),
    (
        "two sevens kept plain",
        ColumnType::Int,
        2,
        &[0, 0, 0, 0, 0, 0, 0, 0, 7, 0, 0, 0, 0, 0, 0, 0, 7],
        Err(BlockFault::BadEncoding),
    ),
    (
        "two texts kept plain",
        ColumnType::Text,
        2,
        &[0, 0, 1, 0x61, 0, 1, 0x61],
        Err(BlockFault::BadEncoding),
    ),
    (
        "two truths kept plain",
        ColumnType::Bool,
        2,
        &[0, 0xc0],
        Err(BlockFault::BadEncoding),
    ),
    (
        "set padding before the form",
        ColumnType::Bool,
        2,
        &[0, 0xc1],
        Err(BlockFault::BadPadding),
    ),
    (
        "7 bytes of a number",
        ColumnType::Int,
        1,
        &[0, 0, 0, 0, 0, 0, 0, 0],
        Err(BlockFault::Short(1)),
    ),
    (
        "the second number",
        ColumnType::Int,
        2,
        &[0; 16],
        Err(BlockFault::Short(9)),
    ),
    (
        "7 bytes of a constant",
        ColumnType::Int,
        3,
        &[1, 0, 0, 0, 0, 0, 0, 0],
        Err(BlockFault::Short(1)),
    ),
    (
        "a byte after a constant",
        ColumnType::Int,
        3,
        &[1, 0, 0, 0, 0, 0, 0, 0, 7, 0],
        Err(BlockFault::Long(9)),
    ),
    (
        "no truth of a constant",
        ColumnType::Bool,
        3,
        &[1],
        Err(BlockFault::Short(1)),
    ),
    (
        "a byte after a true constant",
        ColumnType::Bool,
        9,
        &[1, 0x80, 0x80],
        Err(BlockFault::Long(2)),
    ),
    (
        "set padding of a constant",
        ColumnType::Bool,
        3,
        &[1, 0xe0],
        Err(BlockFault::BadPadding),
    ),
    (
        "half a length",
        ColumnType::Text,
        2,
        &[1, 0],
        Err(BlockFault::Short(1)),
    ),
    (
        "no UTF-8 in a constant",
        ColumnType::Text,
        2,
        &[1, 0, 1, 0xff],
        Err(BlockFault::BadText(0)),
    ),
    (
        "a longer text in a constant",
        ColumnType::Text,
        2,
        &[1, 0x10, 0x01],
        Err(BlockFault::TextTooLong(0)),
    ),
];

#[test]
fn constant_blocks_read_and_written(rt: HostRuntime) -> Result<(), Fail> {
    for case in &STORED {
        assert_stored(&rt, rt.alloc(), *case)?;
    }
    Ok(())
}

#[test]
fn the_first_fault_of_an_encoding_is_named(rt: HostRuntime) -> Result<(), Fail> {
    for case in &REFUSED {
        assert_stored(&rt, rt.alloc(), *case)?;
    }
    Ok(())
}
