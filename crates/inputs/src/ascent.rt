//! The rows of columns in ascending key, and the first record whose key an earlier one has. Places count from 0, and the
//! row at place 0 is that of record 2.
ghost use Rattle.std.specs.Prelude.{◌≡◌, ◌≢◌, ◌<◌, ◌≤◌, ◌+◌, ◌^◌, IfOk, IfErr, OnOk, IsTrue, None, ℕ, map, length};
ghost use Rattle.std.specs.List.{All, range_with_len};
ghost use Rattle.std.specs.List.Sorted.{IsPermutation, IsSorted};
ghost use Rattle.std.specs.declared.cmp.Ordering.TheVariants.{Less};
ghost use Rattle.values.specs.Lent.{value_of};
ghost use Rattle.values.specs.Orders.{key_cmp};
ghost use Rattle.values.specs.Shape.{key_of};
ghost use Rattle.values.specs.declared.limits.TheConstants.{MAX_ROWS};
ghost use Rattle.stable.specs.Rows.{cell_at, gathered, row_at, rows_of};
ghost use Rattle.inputs.specs.Filling.{keyed_at, keyed_cmp, number_cmp, AreApart, AreDistinct, AreKeysApart, place_cmp, row_in, rows_in, types_in};
ghost use Rattle.inputs.specs.Input.{first_repeat, same_key, IsAscending};
ghost use Rattle.inputs.specs.Order.{lower_repeat, IsLeastRepeat, IsRepeatFault};

use crate::fault::TableFault;
use stable::Column;
use std::alloc::Global;
use std::cmp::Ordering;
use values::{ColumnType, NoMemory, ValueRef};

/// A place, and the number that is its key.
#[derive(Clone, Copy)]
pub(crate) struct Keyed {
    key: i64,
    place: u32,
}

/// The places of rows, by their keys.
#[derive(Drop)]
struct KeyOrder {
    places: Vec<u32>,
    /// Whether it is known that no two rows have one key.
    apart: bool,
}

/// The columns of so many rows, with the rows in ascending key.
///
/// # Errors
///
/// `RepeatedKey` with the least record whose key an earlier one has, and `NoMemory` where a growth is refused.
pub(crate) fn in_ascending_key(
    alloc: Global,
    key_cols: usize,
    columns: Vec<Column>,
    count: usize,
) -> Result<Vec<Column>, TableFault>
    requires few { count ≤ MAX_ROWS }
    requires key { key_cols ≤ length columns.items }
    requires filled { All (λ c. length c.values ≡ count) columns.items }
    ensures distinct { IfOk result (λ sorted. first_repeat key_cols (rows_in count columns.items) ≡ None) }
    ensures each_once { IfOk result (λ sorted. IsPermutation (rows_of count columns.items) (rows_of count sorted.items)) }
    ensures ascending { IfOk result (λ sorted. IsAscending key_cols (rows_of count sorted.items)) }
    ensures typed { IfOk result (λ sorted. types_in sorted.items ≡ types_in columns.items) }
    ensures filled { IfOk result (λ sorted. All (λ c. length c.values ≡ count) sorted.items) }
    ensures err { IfErr result (λ fault. fault ≢ TableFault.NoMemory → IsRepeatFault key_cols (rows_in count columns.items) fault) }
{
    if is_ascending(columns.as_slice(), key_cols, count) {
        return Ok(columns);
    }
    sorted_by_key(alloc, key_cols, columns.as_slice(), count)
}

/// The same of rows in any order.
fn sorted_by_key(
    alloc: Global,
    key_cols: usize,
    columns: &[Column],
    count: usize,
) -> Result<Vec<Column>, TableFault>
    requires few { count ≤ MAX_ROWS }
    requires key { key_cols ≤ length columns.now }
    requires filled { All (λ c. length c.values ≡ count) columns.now }
    ensures distinct { IfOk result (λ sorted. first_repeat key_cols (rows_in count columns.now) ≡ None) }
    ensures each_once { IfOk result (λ sorted. IsPermutation (rows_of count columns.now) (rows_of count sorted.items)) }
    ensures ascending { IfOk result (λ sorted. IsAscending key_cols (rows_of count sorted.items)) }
    ensures typed { IfOk result (λ sorted. types_in sorted.items ≡ types_in columns.now) }
    ensures filled { IfOk result (λ sorted. All (λ c. length c.values ≡ count) sorted.items) }
    ensures err { IfErr result (λ fault. fault ≢ TableFault.NoMemory → IsRepeatFault key_cols (rows_in count columns.now) fault) }
{
    let order = places_by_key(alloc, columns, key_cols, count)?;
    match repeat_in(columns, key_cols, &order) {
        Some(number) => Err(TableFault::RepeatedKey(number)),
        None => Ok(columns_in_order(alloc, columns, order.places.as_slice())?),
    }
}

/// Whether each of so many rows has a key above that of the row before.
fn is_ascending(columns: &[Column], key_cols: usize, count: usize) -> bool
    requires { key_cols ≤ length columns.now }
    ensures { IsTrue result → (k : ℕ) → k + 1 < count
        → key_cmp (key_of key_cols (row_at columns.now k)) (key_of key_cols (row_at columns.now (k + 1))) ≡ Less }
{
    for i in 1..count {
        if !compare_keys(columns, key_cols, i - 1, i).is_lt() {
            return false;
        }
    }
    true
}

/// How the keys of two rows stand to each other.
fn compare_keys(columns: &[Column], key_cols: usize, i: usize, j: usize) -> Ordering
    requires { key_cols ≤ length columns.now }
    ensures { result ≡ key_cmp (key_of key_cols (row_at columns.now i)) (key_of key_cols (row_at columns.now j)) }
{
    for column in &columns[..key_cols] {
        match cell_at(column, i).cmp(&cell_at(column, j)) {
            Ordering::Equal => {}
            unequal => return unequal,
        }
    }
    Ordering::Equal
}

/// The value of a column at a place, and false past the last.
#[inline(always)]
fn cell_at(column: &Column, place: usize) -> ValueRef<'_>
    ensures { value_of result ≡ cell_at place column.now }
{
    if place < column.len() {
        column.get(place)
    } else {
        ValueRef::Bool(false)
    }
}

/// The places of so many rows, by their keys, and those of one key in turn.
fn places_by_key(
    alloc: Global,
    columns: &[Column],
    key_cols: usize,
    count: usize,
) -> Result<KeyOrder, NoMemory>
    requires key { key_cols ≤ length columns.now }
    requires few { count ≤ MAX_ROWS }
    requires filled { All (λ c. length c.values ≡ count) columns.now }
    ensures each_once { IfOk result (λ order. IsPermutation (range_with_len 0 count) order.places.items) }
    ensures sorted { IfOk result (λ order. IsSorted (place_cmp key_cols columns.now) order.places.items) }
    ensures apart { IfOk result (λ order. IsTrue order.apart → AreDistinct key_cols columns.now order.places.items) }
{
    if key_cols == 1 {
        let column = &columns[0];
        if matches!(column.column_type(), ColumnType::Int) {
            return places_by_number(alloc, column, count);
        }
    }
    let places = places_by_cells(alloc, columns, key_cols, count)?;
    Ok(KeyOrder {
        places,
        apart: false,
    })
}

/// The same, by comparing through the columns.
fn places_by_cells(
    alloc: Global,
    columns: &[Column],
    key_cols: usize,
    count: usize,
) -> Result<Vec<u32>, NoMemory>
    requires key { key_cols ≤ length columns.now }
    requires few { count ≤ MAX_ROWS }
    ensures each_once { IfOk result (λ places. IsPermutation (range_with_len 0 count) places.items) }
    ensures sorted { IfOk result (λ places. IsSorted (place_cmp key_cols columns.now) places.items) }
{
    let mut places = places_in_turn(alloc, count)?;
    places.sort_by(|a, b| {
        compare_keys(columns, key_cols, *a as usize, *b as usize).then(a.cmp(b))
    })?;
    Ok(places)
}

/// The same where the key is one number, which is beside its place as long as they are sorted.
fn places_by_number(alloc: Global, column: &Column, count: usize) -> Result<KeyOrder, NoMemory>
    requires int { column.now.ty ≡ ColumnType.Int }
    requires few { count ≤ MAX_ROWS }
    requires filled { length column.now.values ≡ count }
    ensures each_once { IfOk result (λ order. IsPermutation (range_with_len 0 count) order.places.items) }
    ensures sorted { IfOk result (λ order. IsSorted (number_cmp column.now) order.places.items) }
    ensures apart { IfOk result (λ order. IsTrue order.apart → AreApart column.now order.places.items) }
{
    // Every value is a number, since each value of a column is of its type.
    let known = column.len();
    prove!(known == count);
    let mut keyed = keyed_places(alloc, column, count)?;
    let apart = sort_keyed(&mut keyed)?;
    let places = places_alone(alloc, keyed.as_slice())?;
    Ok(KeyOrder { places, apart })
}

/// Sorts places by their numbers, and those of one number in turn. Says whether no two have one number: then a sort by
/// the numbers alone, which is faster, did it.
fn sort_keyed(keyed: &mut Vec<Keyed>) -> Result<bool, NoMemory>
    ensures each_once { OnOk result (IsPermutation keyed.old.items keyed.new.items) }
    ensures sorted { OnOk result (IsSorted keyed_cmp keyed.new.items) }
    ensures apart { IfOk result (λ apart. IsTrue apart → AreKeysApart keyed.new.items) }
{
    keyed.sort_unstable_by(|a, b| a.key.cmp(&b.key));
    if are_keys_apart(keyed.as_slice()) {
        return Ok(true);
    }
    keyed.sort_by(|a, b| a.key.cmp(&b.key).then(a.place.cmp(&b.place)))?;
    Ok(false)
}

/// Whether no two neighbours have one number.
fn are_keys_apart(keyed: &[Keyed]) -> bool
    ensures { IsTrue result → AreKeysApart keyed.now }
{
    for i in 1..keyed.len() {
        if keyed[i - 1].key.cmp(&keyed[i].key).is_eq() {
            return false;
        }
    }
    true
}

/// Each of so many places, with its number.
fn keyed_places(alloc: Global, column: &Column, count: usize) -> Result<Vec<Keyed>, NoMemory>
    requires { count ≤ MAX_ROWS }
    ensures { IfOk result (λ keyed. keyed.items ≡ map (keyed_at column.now) (range_with_len 0 count)) }
{
    let mut keyed = Vec::with_capacity(alloc, count)?;
    for place in 0..count {
        keyed.push(keyed_at(column, place as u32))?;
    }
    Ok(keyed)
}

/// A place with the number of a column there, or 0 where there is none.
fn keyed_at(column: &Column, place: u32) -> Keyed
    ensures { result ≡ keyed_at column.now place }
{
    match cell_at(column, place as usize) {
        ValueRef::Int(key) => Keyed { key, place },
        ValueRef::Text(_) => Keyed { key: 0, place },
        ValueRef::Bool(_) => Keyed { key: 0, place },
    }
}

/// The places without their numbers.
fn places_alone(alloc: Global, keyed: &[Keyed]) -> Result<Vec<u32>, NoMemory>
    ensures { IfOk result (λ places. places.items ≡ map (λ k. k.place) keyed.now) }
{
    let mut places = Vec::with_capacity(alloc, keyed.len())?;
    for one in keyed {
        places.push(one.place)?;
    }
    Ok(places)
}

/// The places of so many rows.
fn places_in_turn(alloc: Global, count: usize) -> Result<Vec<u32>, NoMemory>
    requires { count ≤ MAX_ROWS }
    ensures { IfOk result (λ places. places.items ≡ range_with_len 0 count) }
{
    let mut places = Vec::with_capacity(alloc, count)?;
    for place in 0..count {
        places.push(place as u32)?;
    }
    Ok(places)
}

/// Of the rows that have the key of another before them in this order, the least number of a record.
fn repeat_in(columns: &[Column], key_cols: usize, order: &KeyOrder) -> Option<u64>
    requires key { key_cols ≤ length columns.now }
    requires apart { IsTrue order.now.apart → AreDistinct key_cols columns.now order.now.places.items }
    ensures { IsLeastRepeat key_cols (map (row_in columns.now) order.now.places.items) (length order.now.places.items) result }
{
    if order.apart {
        return None;
    }
    least_repeat(columns, key_cols, order.places.as_slice())
}

/// The same, found by comparing each with the one behind it.
fn least_repeat(columns: &[Column], key_cols: usize, places: &[u32]) -> Option<u64>
    requires { key_cols ≤ length columns.now }
    ensures { IsLeastRepeat key_cols (map (row_in columns.now) places.now) (length places.now) result }
{
    let mut least = None;
    for i in 0..places.len().saturating_sub(1) {
        least = least_after(columns, key_cols, places[i], places[i + 1], least);
    }
    least
}

/// The least number, after a row and the one behind it.
fn least_after(
    columns: &[Column],
    key_cols: usize,
    before: u32,
    place: u32,
    least: Option<u64>,
) -> Option<u64>
    requires { key_cols ≤ length columns.now }
    ensures { result ≡ lower_repeat (same_key key_cols (row_in columns.now before) (row_in columns.now place)) (place + 2) least }
{
    let order = compare_keys(columns, key_cols, before as usize, place as usize);
    if !order.is_eq() {
        return least;
    }
    let number = u64::from(place) + 2;
    match least {
        Some(lower) if lower <= number => Some(lower),
        _ => Some(number),
    }
}

/// The columns, with their values in the order of these places.
fn columns_in_order(
    alloc: Global,
    columns: &[Column],
    places: &[u32],
) -> Result<Vec<Column>, NoMemory>
    requires few { length places.now ≤ MAX_ROWS }
    requires within { All (λ c. All (λ place. place < length c.values) places.now) columns.now }
    ensures { IfOk result (λ sorted. sorted.items ≡ map (gathered places.now) columns.now) }
{
    let mut sorted = Vec::with_capacity(alloc, columns.len())?;
    for column in columns {
        sorted.push(column.gather(places)?)?;
    }
    Ok(sorted)
}
