//! Tables of several blocks whose rows are in no order.
ghost use Rattle.std.specs.Prelude.{◌<◌, length};

use crate::readings::shown::write_cells;
use inputs::{TableFault, load_table};
use pdtcli::StableTable;
use std::alloc::Global;
use std::process::Abort;
use std::test::Fail;

/// More rows than two blocks have.
const ROWS: u64 = 2_600;

/// It has no factor in common with the number of rows, so that its multiples meet each of them once.
const STRIDE: u64 = 1_009;

/// A table of so many rows in no order, with a column of each type.
fn shuffled(alloc: Global) -> Result<String, Fail> {
    let mut text = String::from_str(alloc, "id:int:key,name:text,even:bool\n")?;
    for k in 0..ROWS {
        let id = k * STRIDE % ROWS;
        let even = id % 2 == 0;
        write!(text, "{id},name {id},{even}\n")?;
    }
    Ok(text)
}

/// The cells of the row at a position, as text.
fn cells_at(alloc: Global, table: &StableTable, sid: u64) -> Result<String, Fail>
    requires { sid < length table.now.rows }
{
    let row = table.row(alloc, sid)?;
    let mut text = String::new(alloc);
    write_cells(&mut text, row.cells())?;
    Ok(text)
}

/// Fails where the row at a position isn't the one of its number.
fn assert_row(rt: &impl Abort, alloc: Global, table: &StableTable, sid: u64) -> Result<(), Fail>
    requires { sid < length table.now.rows }
{
    let found = cells_at(alloc, table, sid)?;
    let even = sid % 2 == 0;
    let want = format!(in alloc; "{sid},<name {sid}>,{even}")?;
    assert!(rt; found == want);
    Ok(())
}

#[test]
fn rows_of_several_blocks_are_sorted(rt: HostRuntime) -> Result<(), Fail> {
    let text = shuffled(rt.alloc())?;
    let table = load_table(rt.alloc(), text.as_bytes()).expect(&rt, "in no order");
    assert!(&rt; table.len() == ROWS);
    for sid in 0..table.len() {
        assert_row(&rt, rt.alloc(), &table, sid)?;
    }
    Ok(())
}

#[test]
fn a_key_of_another_block_is_repeated(rt: HostRuntime) -> Result<(), Fail> {
    let mut text = shuffled(rt.alloc())?;
    text.push_str("7,again,true\n")?;
    let fault = load_table(rt.alloc(), text.as_bytes()).err();
    // The header is record 1, and the rows are those behind it.
    assert!(&rt; fault == Some(TableFault::RepeatedKey(ROWS + 2)));
    Ok(())
}
