//! Whether the entries of a tree can be written.
ghost use Rattle.std.specs.Prelude.{◌≡◌, ℕ, true, is_none};
ghost use Rattle.values.specs.Lent.{value_of};
ghost use Rattle.values.specs.Shape.{cell_fits_schema, list_fault, value_fault};
ghost use Rattle.codec.specs.Fit.{EntriesFit, change_fits};

use delta::{ChangeRef, DeltaTree, SharedEntry};
use values::limits::MAX_TEXT_BYTES;
use values::{ColumnType, Schema, Value, ValueRef};

/// Whether each entry of the tree can be written as one of a table of the schema: its row, its key or its cell fits. It takes no
/// memory, and reads each cell once.
pub fn entries_fit(schema: &Schema, tree: &DeltaTree) -> bool
    ensures yes { result ≡ true → EntriesFit schema.now tree.now.entries }
    ensures no { EntriesFit schema.now tree.now.entries → result ≡ true }
{
    for entry in tree.iter() {
        if !change_fits(schema, entry) {
            return false;
        }
    }
    true
}

/// Whether what the entry sets fits the schema.
fn change_fits(schema: &Schema, entry: &SharedEntry) -> bool
    ensures { result ≡ change_fits schema.now entry.now.change }
{
    match entry.change() {
        ChangeRef::Ins(row) => cells_fit(schema.types(), row.cells()),
        ChangeRef::Del(key) => schema.check_key(key).is_ok(),
        ChangeRef::Mod(col, value) => cell_fits(schema, col, value),
    }
}

/// Whether there is a cell of each of the types.
fn cells_fit(types: &[ColumnType], cells: &[Value]) -> bool
    ensures { result ≡ is_none (list_fault types.now cells.now) }
{
    if cells.len() != types.len() {
        return false;
    }
    for (col, cell) in cells.iter().enumerate() {
        if !value_fits(types[col], cell.as_ref()) {
            return false;
        }
    }
    true
}

/// Whether a cell of the column may be set to the value.
fn cell_fits(schema: &Schema, col: usize, value: ValueRef<'_>) -> bool
    ensures { result ≡ cell_fits_schema schema.now col (value_of value.entry) }
{
    match schema.types().get(col) {
        None => false,
        Some(ty) => col >= schema.key_cols() && value_fits(*ty, value),
    }
}

/// Whether the value may be in a column of the type.
fn value_fits(ty: ColumnType, value: ValueRef<'_>) -> bool
    ensures { (col : ℕ) → result ≡ is_none (value_fault ty col (value_of value.entry)) }
{
    match (ty, value) {
        (ColumnType::Int, ValueRef::Int(_)) => true,
        (ColumnType::Text, ValueRef::Text(text)) => text.len() <= MAX_TEXT_BYTES,
        (ColumnType::Bool, ValueRef::Bool(_)) => true,
        _ => false,
    }
}
