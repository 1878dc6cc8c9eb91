//! Columns that claim what they don't have.
use crate::assertions::assert_holds;
use blocks::BlockFault;
use devices::{ReadFault, read_store};
use std::alloc::Global;
use std::test::Fail;
use test_fixtures::schema;
use values::{ColumnType, Schema};

/// One row of the number ten in format 1: a header, a block of generation 1, and a clean end.
static TEN: [u8; 28] = [
    0x48, 1, 1, 0x42, 0, 0, 0, 1, 0, 0, 0, 0, 1, 0, 1, 0, 0, 0, 8, 0, 0, 0, 0, 0, 0, 0, 10, 0x45,
];

/// The schema of one column of this type.
fn one_column(alloc: Global, column: ColumnType) -> Result<Schema, Fail> {
    schema(alloc, &[("id", column)], 1)
}

/// The generation that a column stores, or its first fault.
fn generation(alloc: Global, schema: &Schema, bytes: &[u8]) -> Result<u32, ReadFault> {
    match read_store(alloc, schema, &[bytes]) {
        Ok(image) => Ok(image.generation),
        Err(fault) => Err(fault),
    }
}

/// Columns of texts that end after a block's header and some of its payload, with their faults.
static TEXTS: [(&str, &[u8], ReadFault); 5] = [
    (
        "three texts in no bytes",
        &[
            0x48, 1, 2, 0x42, 0, 0, 0, 1, 0, 0, 0, 0, 1, 0, 3, 0, 0, 0, 0,
        ],
        ReadFault::BadBlock(0, 3, BlockFault::Short(0)),
    ),
    (
        "a thousand and twenty-four texts in no bytes",
        &[
            0x48, 1, 2, 0x42, 0, 0, 0, 1, 0, 0, 0, 0, 1, 4, 0, 0, 0, 0, 0,
        ],
        ReadFault::BadBlock(0, 3, BlockFault::Short(0)),
    ),
    (
        "a text of 4,096 bytes in two",
        &[
            0x48, 1, 2, 0x42, 0, 0, 0, 1, 0, 0, 0, 0, 1, 0, 1, 0, 0, 0, 4, 16, 0, 97, 97,
        ],
        ReadFault::BadBlock(0, 3, BlockFault::Short(0)),
    ),
    (
        "a text of 65,535 bytes",
        &[
            0x48, 1, 2, 0x42, 0, 0, 0, 1, 0, 0, 0, 0, 1, 0, 1, 0, 0, 0, 2, 0xff, 0xff,
        ],
        ReadFault::BadBlock(0, 3, BlockFault::TextTooLong(0)),
    ),
    (
        "a payload of 4 GiB",
        &[
            0x48, 1, 2, 0x42, 0, 0, 0, 1, 0, 0, 0, 0, 1, 0, 1, 0xff, 0xff, 0xff, 0xff, 0, 0,
        ],
        ReadFault::NoImage,
    ),
];

#[test]
fn malicious_bytes_are_named(rt: HostRuntime) -> Result<(), Fail> {
    let schema = one_column(rt.alloc(), ColumnType::Text)?;
    for (label, bytes, fault) in &TEXTS {
        let found = generation(rt.alloc(), &schema, bytes);
        assert_holds(&rt, found == Err(*fault), label);
    }
    Ok(())
}

/// How many of the changes of one byte of `TEN` leave an image, or none where a growth was refused.
fn images_after_changes(alloc: Global, schema: &Schema) -> Option<u64> {
    let mut images = 0_u64;
    for at in 0..TEN.len() {
        for step in 1..=255 {
            let mut bytes = TEN;
            bytes[at] = bytes[at].wrapping_add(step);
            match generation(alloc, schema, &bytes) {
                Ok(_) => images = images.saturating_add(1),
                Err(ReadFault::NoMemory) => return None,
                Err(_) => {}
            }
        }
    }
    Some(images)
}

// An image stays where a byte of the generation or of the number changes, 12 times 255, and where the clean end becomes
// the beginning of a header or of a block, 2.
#[test]
fn one_byte_changed_in_format_1(rt: HostRuntime) -> Result<(), Fail> {
    let schema = one_column(rt.alloc(), ColumnType::Int)?;
    let images = images_after_changes(rt.alloc(), &schema);
    assert_holds(&rt, images == Some(3_062), "images");
    Ok(())
}
