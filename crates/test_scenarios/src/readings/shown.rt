//! Values as the tests write them: a text in angle brackets, so that an empty one shows.
use std::test::Fail;
use values::{Value, ValueRef};

/// Writes the cells, with a comma between two.
pub(super) fn write_cells(text: &mut String, cells: &[Value]) -> Result<(), Fail> {
    for (col, cell) in cells.iter().enumerate() {
        if col > 0 {
            text.push_str(",")?;
        }
        write_cell(text, cell)?;
    }
    Ok(())
}

/// Writes the cell.
pub(super) fn write_cell(text: &mut String, cell: &Value) -> Result<(), Fail> {
    match cell.as_ref() {
        ValueRef::Int(number) => write!(text, "{number}")?,
        ValueRef::Text(characters) => write!(text, "<{characters}>")?,
        ValueRef::Bool(truth) => write!(text, "{truth}")?,
    }
    Ok(())
}
