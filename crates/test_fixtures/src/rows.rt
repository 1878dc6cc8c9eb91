//! Rows and keys, as a test names them.
ghost use Rattle.std.specs.Prelude.{◌≡◌, IfOk, map};
ghost use Rattle.values.specs.Lent.{value_of};
ghost use Rattle.test_fixtures.specs.Named.{item_cells, number_key};

use std::alloc::Global;
use values::{Key, NoMemory, Row, Value, ValueRef};

/// A row of the base table's columns: its number, a name and a quantity.
pub type Item = (i64, &'static str, i64);

/// The values, in memory of their own.
fn cells(alloc: Global, values: &[ValueRef<'_>]) -> Result<Vec<Value>, NoMemory>
    ensures { IfOk result (λ cells. cells.items ≡ map value_of values.now) }
{
    let mut cells = Vec::with_capacity(alloc, values.len())?;
    for value in values {
        cells.push(value.copy(alloc)?)?;
    }
    Ok(cells)
}

/// A row of these values.
///
/// # Errors
///
/// `NoMemory` where a growth is refused.
pub fn row_with(alloc: Global, values: &[ValueRef<'_>]) -> Result<Row, NoMemory>
    ensures { IfOk result (λ row. row ≡ map value_of values.now) }
{
    Ok(Row::new(cells(alloc, values)?))
}

/// A key of these values.
///
/// # Errors
///
/// `NoMemory` where a growth is refused.
pub fn key_with(alloc: Global, values: &[ValueRef<'_>]) -> Result<Key, NoMemory>
    ensures { IfOk result (λ key. key ≡ map value_of values.now) }
{
    Ok(Key::new(cells(alloc, values)?))
}

/// A row of the base table's columns.
///
/// # Errors
///
/// `NoMemory` where a growth is refused.
pub fn item(alloc: Global, id: i64, name: &str, quantity: i64) -> Result<Row, NoMemory>
    ensures { IfOk result (λ row. row ≡ item_cells id name.now quantity) }
{
    row_with(
        alloc,
        &[
            ValueRef::Int(id),
            ValueRef::Text(name),
            ValueRef::Int(quantity),
        ],
    )
}

/// The key of the rows with this number.
///
/// # Errors
///
/// `NoMemory` where a growth is refused.
pub fn key(alloc: Global, id: i64) -> Result<Key, NoMemory>
    ensures { IfOk result (λ key. key ≡ number_key id) }
{
    key_with(alloc, &[ValueRef::Int(id)])
}

/// These rows of the base table's columns.
///
/// # Errors
///
/// `NoMemory` where a growth is refused.
pub fn items(alloc: Global, named: &[Item]) -> Result<Vec<Row>, NoMemory>
    ensures { IfOk result (λ rows. rows.items ≡ map (λ named. item_cells named.0 named.1.now named.2) named.now) }
{
    let mut rows = Vec::with_capacity(alloc, named.len())?;
    for (id, name, quantity) in named {
        rows.push(item(alloc, *id, name, *quantity)?)?;
    }
    Ok(rows)
}
