//! Whether rows are a table: row by row, whether it fits the schema and is above the row before it.
ghost use Rattle.std.specs.Prelude.{◌≡◌, option_map};
ghost use Rattle.stable.specs.Stable.{build_fault, row_fault_at, ascends};

use crate::fault::BuildFault;
use values::limits::MAX_ROWS;
use values::{Row, Schema};

/// The first fault of rows as a table.
pub(crate) fn first_fault(schema: &Schema, rows: &[Row]) -> Option<BuildFault>
    ensures { result ≡ build_fault schema.now rows.now }
{
    if rows.len() as u64 > MAX_ROWS {
        return Some(BuildFault::TooManyRows);
    }
    let mut before = None;
    for (i, row) in rows.iter().enumerate() {
        if let Some(fault) = row_fault(schema, i, before, row) {
            return Some(fault);
        }
        before = Some(row);
    }
    None
}

/// The first fault of row `i`, which is after this one, where there is one.
fn row_fault(schema: &Schema, i: usize, before: Option<&Row>, row: &Row) -> Option<BuildFault>
    ensures { result ≡ row_fault_at schema.now i (option_map (λ r. r.now) before.entry) row.now }
{
    if let Err(fault) = schema.check_row(row) {
        return Some(BuildFault::Shape(i, fault));
    }
    if !ascends(schema.key_cols(), before, row) {
        return Some(BuildFault::NotAscending(i));
    }
    None
}

/// Whether the row's key is above that of the row before it, where there is one.
fn ascends(key_cols: usize, before: Option<&Row>, row: &Row) -> bool
    ensures { result ≡ ascends key_cols (option_map (λ r. r.now) before.entry) row.now }
{
    match before {
        None => true,
        Some(before) => before.key(key_cols).cmp(row.key(key_cols)).is_lt(),
    }
}
