//! What a view or a scan shows, as a person reads it.
use merge::{MergeScan, RowView};
use std::alloc::Global;
use test_fixtures::push_cell;
use values::NoMemory;

/// The row, or nothing.
pub(crate) fn row_text(alloc: Global, found: Option<RowView<'_>>) -> Result<String, NoMemory> {
    let mut text = String::new(alloc);
    if let Some(view) = found {
        push_row(alloc, &mut text, &view)?;
    }
    Ok(text)
}

/// The rows that are left of a scan, with a space between two.
pub(crate) fn rows_text(alloc: Global, scan: MergeScan<'_>) -> Result<String, NoMemory> {
    let mut text = String::new(alloc);
    for view in scan {
        if !text.is_empty() {
            text.push_str(" ")?;
        }
        push_row(alloc, &mut text, &view)?;
    }
    Ok(text)
}

/// Adds the cells of the row, with a comma between two.
fn push_row(alloc: Global, text: &mut String, view: &RowView<'_>) -> Result<(), NoMemory> {
    for col in 0..view.width() {
        if col > 0 {
            text.push_str(",")?;
        }
        push_cell(alloc, text, view.value(col))?;
    }
    Ok(())
}
