//! The columns of the base table in format 1, all cut at once.

use crate::assertions::assert_holds;
use crate::stores::has_items;
use devices::{ReadFault, read_store};
use std::alloc::Global;
use std::process::Abort;
use std::test::Fail;
use test_fixtures::{BASE, item_columns};
use values::{NoMemory, Schema};

/// The numbers, the names and the quantities: each a header, a block of generation 1, and a clean end.
const ID_COLUMN: &[u8] =
    b"\x48\x01\x01\x42\0\0\0\x01\0\0\0\0\x01\0\x03\0\0\0\x18\0\0\0\0\0\0\0\x0a\0\0\0\0\0\0\0\x14\0\0\0\0\0\0\0\x1e\x45";

const NAME_COLUMN: &[u8] =
    b"\x48\x01\x02\x42\0\0\0\x01\0\0\0\0\x01\0\x03\0\0\0\x0f\0\x03Ann\0\x03Bob\0\x03Cid\x45";

const QUANTITY_COLUMN: &[u8] =
    b"\x48\x01\x01\x42\0\0\0\x01\0\0\0\0\x01\0\x03\0\0\0\x18\0\0\0\0\0\0\0\x01\0\0\0\0\0\0\0\x02\0\0\0\0\0\0\0\x03\x45";

/// At most so many of the first bytes.
fn front(column: &[u8], size: usize) -> &[u8] {
    &column[..column.len().min(size)]
}

/// That the columns, cut so, store the base table, or no image where a number is cut.
fn assert_cut(rt: &impl Abort, alloc: Global, schema: &Schema, size: usize) -> Result<(), Fail> {
    let columns = [
        front(ID_COLUMN, size),
        front(NAME_COLUMN, size),
        front(QUANTITY_COLUMN, size),
    ];
    let due = match read_store(alloc, schema, &columns) {
        Ok(image) => size >= 43 && image.generation == 1 && has_items(&image.table, &BASE),
        Err(ReadFault::NoMemory) => return Err(NoMemory.into()),
        Err(fault) => size < 43 && fault == ReadFault::NoImage,
    };
    assert_holds(rt, due, "cut");
    Ok(())
}

#[test]
fn columns_cut_at_once_give_the_image_or_none(rt: HostRuntime) -> Result<(), Fail> {
    let schema = item_columns(rt.alloc())?;
    for size in 0..=44 {
        assert_cut(&rt, rt.alloc(), &schema, size)?;
    }
    Ok(())
}
