//! A table's rows, as rows and as a stable table.
use crate::readings::shown::write_cells;
use inputs::{TableFault, load_table, read_table};
use std::alloc::Global;
use std::test::Fail;
use values::Row;

/// Three columns, two of which are the key.
const TEXT: &[u8] = b"a:text:key,b:int:key,ok:bool\nx,2,true\n\"w, v\",3,false\nx,1,true\n";

const ROWS: &str = "<w, v>,3,false <x>,1,true <x>,2,true";

/// The rows, with a blank between two.
fn shown(alloc: Global, rows: &[Row]) -> Result<String, Fail> {
    let mut text = String::new(alloc);
    for row in rows {
        if !text.is_empty() {
            text.push_str(" ")?;
        }
        write_cells(&mut text, row.cells())?;
    }
    Ok(text)
}

#[test]
fn a_table_is_read_as_rows(rt: HostRuntime) -> Result<(), Fail> {
    let (schema, rows) = read_table(rt.alloc(), TEXT).expect(&rt, "a table");
    let found = shown(rt.alloc(), rows.as_slice())?;
    assert!(&rt; (schema.width(), schema.key_cols()) == (3, 2));
    assert!(&rt; found.as_str() == ROWS);
    assert!(&rt; read_table(rt.alloc(), b"\n").err() == Some(TableFault::NoHeader));
    Ok(())
}

#[test]
fn a_table_is_loaded_into_columns(rt: HostRuntime) -> Result<(), Fail> {
    let table = load_table(rt.alloc(), TEXT).expect(&rt, "a table");
    let mut rows = Vec::new(rt.alloc());
    for sid in 0..table.len() {
        rows.push(table.row(rt.alloc(), sid)?)?;
    }
    let found = shown(rt.alloc(), rows.as_slice())?;
    assert!(&rt; found.as_str() == ROWS);
    Ok(())
}
