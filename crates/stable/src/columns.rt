//! Whether columns are a table: how many rows they show, and the first row that doesn't ascend.
ghost use Rattle.std.specs.Prelude.{◌≡◌, ◌<◌, ◌≤◌, length};
ghost use Rattle.std.specs.List.{All};
ghost use Rattle.values.specs.Orders.{key_cmp};
ghost use Rattle.values.specs.Shape.{key_of};
ghost use Rattle.stable.specs.Column.{all_may_stand};
ghost use Rattle.stable.specs.Rows.{AreEven, AreFilled, AreColumns, row_at, row_count, rows_of};
ghost use Rattle.stable.specs.Stable.{build_fault};

use crate::column::Column;
use crate::fault::BuildFault;
use std::cmp::Ordering;
use values::Schema;
use values::limits::MAX_ROWS;

/// How many values each of the columns has.
pub(crate) fn row_count(columns: &[Column]) -> usize
    requires even { AreEven columns.now }
    ensures count { result ≡ row_count columns.now }
    ensures fit { All (λ c. all_may_stand c.ty c.values) columns.now }
{
    let mut count = 0;
    for column in columns {
        count = column.len();
    }
    count
}

/// The first fault of the rows that the columns show. Reads no cell outside the key.
pub(crate) fn first_fault_of(
    schema: &Schema,
    columns: &[Column],
    count: usize,
) -> Option<BuildFault>
    requires { AreColumns schema.now count columns.now }
    ensures { result ≡ build_fault schema.now (rows_of count columns.now) }
{
    if count as u64 > MAX_ROWS {
        return Some(BuildFault::TooManyRows);
    }
    let key_cols = schema.key_cols();
    for sid in 1..count {
        if !compare_rows(columns, key_cols, sid - 1, sid).is_lt() {
            return Some(BuildFault::NotAscending(sid));
        }
    }
    None
}

/// How the key of one row stands to that of another.
fn compare_rows(columns: &[Column], key_cols: usize, i: usize, j: usize) -> Ordering
    requires key { key_cols ≤ length columns.now }
    requires one { AreFilled i columns.now }
    requires other { AreFilled j columns.now }
    ensures { result ≡ key_cmp (key_of key_cols (row_at columns.now i)) (key_of key_cols (row_at columns.now j)) }
{
    for column in &columns[..key_cols] {
        match column.get(i).cmp(&column.get(j)) {
            Ordering::Equal => {}
            unequal => return unequal,
        }
    }
    Ordering::Equal
}
