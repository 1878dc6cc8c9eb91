//! Schemas and tables.
ghost use Rattle.std.specs.Prelude.{◌≡◌, IfOk, map};
ghost use Rattle.test_fixtures.specs.Named.{base_columns, base_rows, item_cells};

use crate::rows::{Item, items};
use stable::StableTable;
use std::alloc::Global;
use std::test::Fail;
use values::{ColumnType, Schema};

/// The rows of the base table.
pub const BASE: [Item; 3] = [(10, "Ann", 1), (20, "Bob", 2), (30, "Cid", 3)];

/// The schema of these columns, the first `key_cols` of which are the key.
///
/// # Errors
///
/// Where they make none, and where a growth is refused.
pub fn schema(alloc: Global, cols: &[(&str, ColumnType)], key_cols: usize) -> Result<Schema, Fail>
    ensures { IfOk result
        (λ schema. schema ≡ record { names = map (λ col. col.0.now) cols.now; types = map (λ col. col.1) cols.now; key_cols = key_cols }) }
{
    let mut named = Vec::with_capacity(alloc, cols.len())?;
    for (name, column) in cols {
        named.push((String::from_str(alloc, name)?, *column))?;
    }
    Ok(Schema::new(alloc, named, key_cols)?)
}

/// The columns of the base table: a number, which is the key, a name and a quantity.
///
/// # Errors
///
/// Where a growth is refused.
pub fn item_columns(alloc: Global) -> Result<Schema, Fail>
    ensures { IfOk result (λ schema. schema ≡ base_columns) }
{
    let cols = [
        ("id", ColumnType::Int),
        ("name", ColumnType::Text),
        ("qty", ColumnType::Int),
    ];
    schema(alloc, &cols, 1)
}

/// The table of these rows of the base table's columns.
///
/// # Errors
///
/// Where they make none, and where a growth is refused.
pub fn item_table(alloc: Global, named: &[Item]) -> Result<StableTable, Fail>
    ensures { IfOk result
        (λ table. table ≡ record { schema = base_columns; rows = map (λ named. item_cells named.0 named.1.now named.2) named.now }) }
{
    Ok(StableTable::build(alloc, item_columns(alloc)?, items(alloc, named)?)?)
}

/// The base table: Ann, Bob and Cid.
///
/// # Errors
///
/// Where a growth is refused.
pub fn base_table(alloc: Global) -> Result<StableTable, Fail>
    ensures { IfOk result (λ table. table ≡ record { schema = base_columns; rows = base_rows }) }
{
    item_table(alloc, BASE.as_slice())
}
