//! Cells and entries, as a person reads them.
ghost use Rattle.std.specs.Prelude.{◌≡◌, ◌++◌, OnOk, IfOk, string_bytes};
ghost use Rattle.values.specs.Lent.{value_of};
ghost use Rattle.values.specs.Shown.{cell_text};
ghost use Rattle.test_fixtures.specs.Shown.{cells_text, entry_text, entries_text};

use delta::{ChangeRef, Iter, SharedEntry};
use std::alloc::Global;
use values::{NoMemory, Value, ValueRef};

/// Adds the value.
///
/// # Errors
///
/// `NoMemory` where a growth is refused.
pub fn push_cell(alloc: Global, text: &mut String, cell: ValueRef<'_>) -> Result<(), NoMemory>
    ensures { OnOk result (string_bytes text.new ≡ string_bytes text.old ++ cell_text (value_of cell.entry)) }
{
    match cell {
        ValueRef::Int(number) => text.push_str(format!(in alloc; "{number}")?.as_str())?,
        ValueRef::Text(characters) => text.push_str(characters)?,
        ValueRef::Bool(truth) => text.push_str(if truth { "true" } else { "false" })?,
    }
    Ok(())
}

/// Adds the values, with a comma between two.
fn push_cells(alloc: Global, text: &mut String, cells: &[Value]) -> Result<(), NoMemory>
    ensures { OnOk result (string_bytes text.new ≡ string_bytes text.old ++ cells_text cells.now) }
{
    let Some(first) = cells.first() else {
        return Ok(());
    };
    push_cell(alloc, text, first.as_ref())?;
    for cell in &cells[1..] {
        text.push_str(",")?;
        push_cell(alloc, text, cell.as_ref())?;
    }
    Ok(())
}

/// Adds the entry: `1+15,Flo,5` is an insert at SID 1, `1-20` a delete, `2:2=7` a modify of column 2.
fn push_entry(alloc: Global, text: &mut String, entry: &SharedEntry) -> Result<(), NoMemory>
    ensures { OnOk result (string_bytes text.new ≡ string_bytes text.old ++ entry_text entry.now) }
{
    let sid = entry.sid();
    match entry.change() {
        ChangeRef::Ins(row) => {
            text.push_str(format!(in alloc; "{sid}+")?.as_str())?;
            push_cells(alloc, text, row.cells())
        }
        ChangeRef::Del(key) => {
            text.push_str(format!(in alloc; "{sid}-")?.as_str())?;
            push_cells(alloc, text, key.cells())
        }
        ChangeRef::Mod(col, value) => {
            text.push_str(format!(in alloc; "{sid}:{col}=")?.as_str())?;
            push_cell(alloc, text, value)
        }
    }
}

/// The entries, with a space between two: `1+15,Flo,5` is an insert at SID 1, `1-20` a delete, `2:2=7` a modify of column 2.
///
/// # Errors
///
/// `NoMemory` where a growth is refused.
pub fn entries_text(alloc: Global, entries: Iter<'_>) -> Result<String, NoMemory>
    ensures { IfOk result (λ text. string_bytes text ≡ entries_text entries.entry) }
{
    let mut text = String::new(alloc);
    let mut left = entries;
    let Some(first) = left.next() else {
        return Ok(text);
    };
    push_entry(alloc, &mut text, first)?;
    for entry in left {
        text.push_str(" ")?;
        push_entry(alloc, &mut text, entry)?;
    }
    Ok(text)
}
