//! The table in key order.
ghost use Rattle.std.specs.Prelude.{◌≡◌, ◌+◌, ◌<◌, ◌≤◌, IfOk, IsOk, IsOkUnless, MatchOption, map, Some, Err, None, is_some, length, get_or, slice_get, []};
ghost use Rattle.std.specs.List.{All};
ghost use Rattle.values.specs.Lent.{value_of};
ghost use Rattle.values.specs.Orders.{key_cmp};
ghost use Rattle.values.specs.Shape.{key_of, list_fault};
ghost use Rattle.values.specs.declared.limits.TheConstants.{MAX_ROWS};
ghost use Rattle.model.specs.Table.{rank, row_at};
ghost use Rattle.stable.specs.Rows.{AreEven, cell_of, column_at, first_columns, row_count, rows_of};
ghost use Rattle.stable.specs.Spans.{HasCells, IsSpan};
ghost use Rattle.stable.specs.Stable.{IsNumberKey, IsStable, build_fault, holds_key, table_in};

use crate::bounds::bound;
use crate::column::Column;
use crate::columns::{first_fault_of, row_count};
use crate::fault::BuildFault;
use crate::order::first_fault;
use std::alloc::Global;
use std::cmp::Ordering;
use std::marker::Model;
use values::{ColumnType, Key, NoMemory, Row, Schema, Value, ValueRef};

/// The rows of a table under its schema, in strictly ascending key, kept column by column. Rows and columns count
/// from 0.
#[derive(Drop)]
pub struct StableTable {
    schema: Schema,
    /// One for each column of the schema, each with a value for each row.
    columns: Vec<Column>,
    /// How many rows there are.
    count: usize,
}

impl Model for StableTable {
    ghost use Rattle.std.specs.Prelude.{◌≡◌};
    ghost use Rattle.stable.specs.Rows.{rows_of, IsKept};
    ghost use Rattle.stable.specs.Stable.{Stable};

    ghost Value = { Stable };

    ghost view = { λ t. record { schema = t.schema; rows = rows_of t.count t.columns.items } };

    ghost invariant = { λ t. IsKept t.schema t.count t.columns.items };
}

impl StableTable {
    /// The table of these rows, which stand in ascending key.
    ///
    /// # Errors
    ///
    /// `TooManyRows` before all else; then row by row the first fault of its shape, and `NotAscending` where its key
    /// isn't above that of the row before. `NoMemory` where no fault stands and a growth is refused.
    pub fn build(alloc: Global, schema: Schema, rows: Vec<Row>) -> Result<StableTable, BuildFault>
        ensures ok { IfOk result (λ table. table ≡ record { schema = schema; rows = rows.items }) }

        // Memory is wanted only where no fault stands.
        ensures fault { MatchOption (build_fault schema rows.items) (IsOkUnless result BuildFault.NoMemory) (λ fault. result ≡ Err fault) }
    {
        match first_fault(&schema, rows.as_slice()) {
            Some(fault) => Err(fault),
            None => Ok(StableTable::of_rows(alloc, schema, rows.as_slice())?),
        }
    }

    /// The table of columns under a schema, of its types and each with as many values. Takes no memory; the key of each
    /// row is compared with that of the row before, and no other cell is read.
    ///
    /// # Errors
    ///
    /// `TooManyRows` before all else, then `NotAscending` with the first row whose key isn't above that of the row before.
    pub fn from_columns(schema: Schema, columns: Vec<Column>) -> Result<StableTable, BuildFault>
        requires typed { map (λ c. c.ty) columns.items ≡ schema.types }
        requires even { AreEven columns.items }
        ensures ok { IfOk result (λ table. table ≡ record { schema = schema; rows = rows_of (row_count columns.items) columns.items }) }
        ensures fault { MatchOption (build_fault schema (rows_of (row_count columns.items) columns.items)) (IsOk result)
            (λ fault. result ≡ Err fault) }
    {
        let count = row_count(columns.as_slice());
        match first_fault_of(&schema, columns.as_slice(), count) {
            Some(fault) => Err(fault),
            None => Ok(StableTable::of_columns(schema, columns)),
        }
    }

    /// The table that columns are: of the schema's types, each with as many values, their rows in strictly ascending key.
    /// Tests nothing and takes no memory. Every table is made here.
    pub fn of_columns(schema: Schema, columns: Vec<Column>) -> StableTable
        requires typed { map (λ c. c.ty) columns.items ≡ schema.types }
        requires even { AreEven columns.items }
        requires table { IsStable (record { schema = schema; rows = rows_of (row_count columns.items) columns.items }) }
        ensures { result ≡ record { schema = schema; rows = rows_of (row_count columns.items) columns.items } }
    {
        StableTable {
            count: row_count(columns.as_slice()),
            schema,
            columns,
        }
    }

    /// The table that rows are: they fit the schema, and stand in strictly ascending key. Each is copied, and none is
    /// tested.
    ///
    /// # Errors
    ///
    /// `NoMemory` where a growth is refused.
    pub fn of_rows(alloc: Global, schema: Schema, rows: &[Row]) -> Result<StableTable, NoMemory>
        requires { IsStable (record { schema = schema; rows = rows.now }) }
        ensures { IfOk result (λ table. table ≡ record { schema = schema; rows = rows.now }) }
    {
        let columns = columns_of(alloc, schema.types(), rows)?;
        Ok(StableTable::of_columns(schema, columns))
    }

    /// The columns' names and types, and which are the key.
    pub fn schema(&self) -> &Schema
        ensures columns { result.now ≡ self.now.schema }
        ensures lawful { IsStable self.now }
    {
        &self.schema
    }

    /// The number of rows.
    pub fn len(&self) -> u64
        ensures count { result ≡ length self.now.rows }
        ensures lawful { IsStable self.now }
    {
        self.count as u64
    }

    /// The value of a row in a column, lent, in constant time.
    pub fn value(&self, sid: u64, col: usize) -> ValueRef<'_>
        requires row { sid < length self.now.rows }
        requires column { col < length self.now.schema.types }
        ensures { cell_of self.now sid col ≡ Some (value_of result) }
    {
        self.columns[col].get(sid as usize)
    }

    /// A column, lent, in constant time: the values of all rows, in order.
    pub fn column(&self, col: usize) -> &Column
        requires { col < length self.now.schema.types }
        ensures { result.now ≡ column_at self.now.schema.types self.now.rows col }
    {
        &self.columns[col]
    }

    /// A row, copied.
    ///
    /// # Errors
    ///
    /// `NoMemory` where a growth is refused.
    pub fn row(&self, alloc: Global, sid: u64) -> Result<Row, NoMemory>
        requires { sid < length self.now.rows }
        ensures { IfOk result (λ row. slice_get self.now.rows sid ≡ Some row) }
    {
        let width = self.schema.width();
        let mut cells = Vec::with_capacity(alloc, width)?;
        for col in 0..width {
            cells.push(self.value(sid, col).copy(alloc)?)?;
        }
        Ok(Row::new(cells))
    }

    /// How many rows have a key below this one, found by halving.
    pub fn rank(&self, key: &Key) -> u64
        ensures { result ≡ rank key.now (table_in self.now) }
    {
        self.rank_of(key.cells())
    }

    /// How many rows have a key below that of these cells, and whether the table has that key, found by halving.
    pub fn locate(&self, key: &[Value]) -> (u64, bool)
        ensures rank { result.0 ≡ rank key.now (table_in self.now) }
        ensures there { result.1 ≡ is_some (row_at (table_in self.now) key.now) }
        ensures few { result.0 ≤ MAX_ROWS }
    {
        let place = self.rank_of(key);
        (place, self.has_key_at(place, key))
    }

    /// Whether there is a row at the place, of the key of these cells.
    fn has_key_at(&self, place: u64, key: &[Value]) -> bool
        ensures { result ≡ holds_key self.now.schema.key_cols key.now (slice_get self.now.rows place) }
    {
        place < self.len() && self.compare_key(place, key).is_eq()
    }

    /// How many rows have a key below that of these cells.
    fn rank_of(&self, key: &[Value]) -> u64
        ensures rank { result ≡ rank key.now (table_in self.now) }
        ensures few { result ≤ MAX_ROWS }
        ensures lawful { IsStable self.now }
    {
        match self.number_of(key) {
            Some(number) => self.columns[0].count_below(number) as u64,
            None => self.rank_of_cells(key),
        }
    }

    /// The number that these cells are, where the table's key is one column of numbers.
    fn number_of(&self, key: &[Value]) -> Option<i64>
        ensures { MatchOption result (Unit {0}) (IsNumberKey self.now.schema key.now) }
    {
        if self.schema.key_cols() != 1 || key.len() != 1 {
            return None;
        }
        match (&key[0], self.columns[0].column_type()) {
            (Value::Int(number), ColumnType::Int) => Some(*number),
            _ => None,
        }
    }

    /// How many rows have a key below that of these cells, of whatever types. Rows are halved until those that are left
    /// have all of the key's cells but the last, which is then found in its column. Cells that the row before those and
    /// the row after them share with the key are read no more: each between has them too.
    fn rank_of_cells(&self, key: &[Value]) -> u64
        ensures rank { result ≡ rank key.now (table_in self.now) }
        ensures few { result ≤ MAX_ROWS }
        ensures lawful { IsStable self.now }
    {
        let mut low = 0;
        let mut high = self.len();
        let key_cols = self.schema.key_cols();
        let mut tied_before: usize = 0;
        let mut tied_after: usize = 0;
        while low < high {
            let tied = tied_before.min(tied_after);
            if tied < key_cols && tied + 1 == key.len() {
                return self.rank_among(key, tied, low, high);
            }
            let middle = low + (high - low) / 2;
            let (order, cells) = self.compare_from(middle, key, tied);
            if order.is_lt() {
                low = middle + 1;
                tied_before = cells;
            } else {
                high = middle;
                tied_after = cells;
            }
        }
        low
    }

    /// The place of a key among rows that have all of its cells but the last, which stands in column `col`.
    fn rank_among(&self, key: &[Value], col: usize, low: u64, high: u64) -> u64
        requires column { col < self.now.schema.key_cols }
        requires last { col + 1 ≡ length key.now }
        requires span { IsSpan self.now.schema.key_cols key.now self.now.rows col low high }
        ensures rank { result ≡ rank key.now (table_in self.now) }
        ensures few { result ≤ MAX_ROWS }
    {
        // A table tells with its length that its rows ascend, and a schema with its key that each has its cells.
        let _rows = self.len();
        let _key_cols = self.schema.key_cols();
        bound(self.column(col), low as usize, high as usize, &key[col]) as u64
    }

    /// How the key of a row stands to that of these cells.
    fn compare_key(&self, sid: u64, key: &[Value]) -> Ordering
        requires { sid < length self.now.rows }
        ensures { result ≡ key_cmp (key_of self.now.schema.key_cols (get_or self.now.rows sid [])) key.now }
    {
        self.compare_from(sid, key, 0).0
    }

    /// How the key of a row stands to that of these cells, where it has those before column `from`; and in how many of the
    /// first columns it has them.
    fn compare_from(&self, sid: u64, key: &[Value], from: usize) -> (Ordering, usize)
        requires row { sid < length self.now.rows }
        requires key { from ≤ self.now.schema.key_cols }
        requires cell { from ≤ length key.now }
        requires tied { HasCells from key.now (get_or self.now.rows sid []) }
        ensures order { result.0 ≡ key_cmp (key_of self.now.schema.key_cols (get_or self.now.rows sid [])) key.now }
        ensures tied { HasCells result.1 key.now (get_or self.now.rows sid []) }
        ensures key { result.1 ≤ self.now.schema.key_cols }
        ensures cell { result.1 ≤ length key.now }
    {
        let key_cols = self.schema.key_cols();
        let cells = key_cols.min(key.len());
        for col in from..cells {
            let cell = key[col].as_ref();
            match self.value(sid, col).cmp(&cell) {
                Ordering::Equal => {}
                unequal => return (unequal, col),
            }
        }
        (key_cols.cmp(&key.len()), cells)
    }
}

/// The columns of rows that fit these types.
fn columns_of(alloc: Global, types: &[ColumnType], rows: &[Row]) -> Result<Vec<Column>, NoMemory>
    requires { All (λ row. list_fault types.now row ≡ None) rows.now }
    ensures { IfOk result (λ columns. columns.items ≡ first_columns types.now rows.now (length types.now)) }
{
    let mut columns = Vec::with_capacity(alloc, types.len())?;
    for col in 0..types.len() {
        let column = column_of(alloc, types, rows, col)?;
        columns.push(column)?;
    }
    Ok(columns)
}

/// One column of rows that fit these types.
fn column_of(
    alloc: Global,
    types: &[ColumnType],
    rows: &[Row],
    col: usize,
) -> Result<Column, NoMemory>
    requires within { col < length types.now }
    requires fitting { All (λ row. list_fault types.now row ≡ None) rows.now }
    ensures { IfOk result (λ column. column ≡ column_at types.now rows.now col) }
{
    let mut column = Column::new(alloc, types[col]);
    for row in rows {
        column.push(row.cells()[col].as_ref())?;
    }
    Ok(column)
}
