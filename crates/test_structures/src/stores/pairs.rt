//! Stores of two columns of numbers: which generation is whole in both, and what is no image.

use crate::assertions::assert_text;
use devices::{ReadFault, StoredImage, read_store};
use std::alloc::Global;
use std::process::Abort;
use std::test::Fail;
use test_fixtures::schema;
use values::{ColumnType, NoMemory, Schema, ValueRef};

/// The schema of two columns of numbers, the first of them the key.
fn two_columns(alloc: Global) -> Result<Schema, Fail> {
    schema(
        alloc,
        &[("id", ColumnType::Int), ("count", ColumnType::Int)],
        1,
    )
}

/// The bytes of these pieces, one after the other.
fn joined(alloc: Global, pieces: &[&[u8]]) -> Result<Vec<u8>, Fail> {
    let mut bytes = Vec::new(alloc);
    for piece in pieces {
        bytes.extend_from_slice(piece)?;
    }
    Ok(bytes)
}

/// Writes a number.
fn show_number(text: &mut String, value: ValueRef<'_>) -> Result<(), Fail> {
    if let ValueRef::Int(number) = value {
        write!(text, " {number}")?;
    }
    Ok(())
}

/// What was read: the generation and the first column's numbers, or the fault.
fn shown(alloc: Global, read: Result<StoredImage, ReadFault>) -> Result<String, Fail> {
    let mut text = String::new(alloc);
    match read {
        Ok(image) => {
            write!(text, "{}:", image.generation)?;
            if image.table.schema().width() > 0 {
                for row in 0..image.table.len() {
                    show_number(&mut text, image.table.value(row, 0))?;
                }
            }
        }
        Err(ReadFault::NoMemory) => return Err(Fail::from(NoMemory)),
        Err(fault) => write!(text, "{fault}")?,
    }
    Ok(text)
}

/// A header of numbers in format 1, and in format 2.
const INTS: &[u8] = &[0x48, 1, 1];

const INTS_2: &[u8] = &[0x48, 2, 1];

/// A block of the one number ten, of generation 1 in format 1, and of generations 1 and 2 in format 2.
const TEN: &[u8] = &[
    0x42, 0, 0, 0, 1, 0, 0, 0, 0, 1, 0, 1, 0, 0, 0, 8, 0, 0, 0, 0, 0, 0, 0, 10,
];

const TEN_2: &[u8] = &[
    0x42, 0, 0, 0, 1, 0, 0, 0, 0, 1, 0, 1, 0, 0, 0, 9, 0, 0, 0, 0, 0, 0, 0, 0, 10,
];

const TEN_AGAIN: &[u8] = &[
    0x42, 0, 0, 0, 2, 0, 0, 0, 0, 1, 0, 1, 0, 0, 0, 9, 0, 0, 0, 0, 0, 0, 0, 0, 10,
];

/// A block of seven and seven, of generation 1 in format 1.
const SEVENS: &[u8] = &[
    0x42, 0, 0, 0, 1, 0, 0, 0, 0, 1, 0, 2, 0, 0, 0, 16, 0, 0, 0, 0, 0, 0, 0, 7, 0, 0, 0, 0, 0, 0,
    0, 7,
];

/// A clean end.
const END: &[u8] = &[0x45];

/// What a store of two columns of numbers is, the pieces of each, and what it reads as.
type Pair = (
    &'static str,
    &'static [&'static [u8]],
    &'static [&'static [u8]],
    &'static str,
);

/// What the store of two columns reads as.
fn pair_shown(alloc: Global, columns: &[&[u8]]) -> Result<String, Fail> {
    let schema = two_columns(alloc)?;
    shown(alloc, read_store(alloc, &schema, columns))
}

/// That the store of two columns reads so.
fn assert_pair(
    rt: &impl Abort,
    alloc: Global,
    (label, keys, counts, reads_as): Pair,
) -> Result<(), Fail> {
    let keys = joined(alloc, keys)?;
    let counts = joined(alloc, counts)?;
    let text = pair_shown(alloc, &[keys.as_slice(), counts.as_slice()])?;
    assert_text(rt, text.as_str(), reads_as, label);
    Ok(())
}

#[test]
fn an_image_is_whole_in_every_column(rt: HostRuntime) -> Result<(), Fail> {
    static CASES: [Pair; 6] = [
        (
            "equal keys",
            &[INTS, SEVENS, END],
            &[INTS, SEVENS, END],
            "NotAscending 1",
        ),
        (
            "a generation more in the first",
            &[INTS_2, TEN_2, TEN_AGAIN, END],
            &[INTS_2, TEN_2, END],
            "1: 10",
        ),
        (
            "a generation more in the second",
            &[INTS_2, TEN_2, END],
            &[INTS_2, TEN_2, TEN_AGAIN, END],
            "1: 10",
        ),
        (
            "both generations in both",
            &[INTS_2, TEN_2, TEN_AGAIN],
            &[INTS_2, TEN_2, TEN_AGAIN],
            "2: 10",
        ),
        (
            "none in both",
            &[INTS_2, TEN_2, END],
            &[INTS_2, TEN_AGAIN, END],
            "NoImage",
        ),
        (
            "a value more in the second",
            &[INTS, TEN, END],
            &[INTS, SEVENS, END],
            "CountsDiffer",
        ),
    ];
    for case in &CASES {
        assert_pair(&rt, rt.alloc(), *case)?;
    }
    Ok(())
}
