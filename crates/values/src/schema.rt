//! The columns of a table, and what fits them.
ghost use Rattle.std.specs.Prelude.{◌≡◌, ◌<◌, length, slice_get, nat_eq, string_bytes, Some, IfOk, IsOkUnless, MatchOption};
ghost use Rattle.std.specs.List.{list_any};
ghost use Rattle.std.specs.Cmp.Lexicographic.{pointwise};
ghost use Rattle.values.specs.Shape.{columns_of, names_of, types_of, schema_fault, repeated_name, row_fault, key_fault, cell_fault, value_fault, list_fault, answer_of, IsSchema};

use crate::fault::{NoMemory, SchemaFault, ShapeFault};
use crate::limits::{MAX_COLUMNS, MAX_KEY_COLUMNS, MAX_TEXT_BYTES};
use crate::row::{Key, Row};
use crate::text::{Text, copy_texts};
use crate::value::{ColumnType, Value};
use std::alloc::Global;
use std::marker::Model;

/// The columns of a table, the first of which are its sort key: 1 to 32 columns of distinct names, 1 to 4 of them the
/// key. Columns count from 0.
#[derive(Debug, Drop)]
pub struct Schema {
    /// The column names, one for each type.
    names: Vec<Text>,
    /// Apart from the names, so that a row is checked against one short slice.
    types: Vec<ColumnType>,
    /// How many of the first columns are the key.
    key_cols: usize,
}

impl Model for Schema {
    ghost use Rattle.values.specs.Shape.{Columns, IsSchema};

    ghost Value = { Columns };

    ghost view = { λ s. record { names = s.names.items; types = s.types.items; key_cols = s.key_cols } };

    ghost invariant = { λ s. IsSchema (record { names = s.names.items; types = s.types.items; key_cols = s.key_cols }) };
}

impl Schema {
    /// A table's columns in their order, each with its name, and how many of the first are its key. Any text is a
    /// name. Names are compared two by two.
    ///
    /// # Errors
    ///
    /// The first of these that stands: `NoColumns` where there is none, `TooManyColumns` above 32, `BadKeyCount` where
    /// the key has not 1 to 4 columns or more than there are, `RepeatedName` with the first column whose name an
    /// earlier one has, `NoMemory` where a growth is refused.
    pub fn new(
        alloc: Global,
        cols: Vec<(String, ColumnType)>,
        key_cols: usize,
    ) -> Result<Schema, SchemaFault>
        ensures ok { IfOk result (λ schema. schema ≡ columns_of cols.items key_cols) }

        // Memory is wanted only where no fault stands.
        ensures fault { MatchOption (schema_fault (columns_of cols.items key_cols)) (IsOkUnless result SchemaFault.NoMemory)
            (λ fault. result ≡ Err fault) }
    {
        if let Some(fault) = first_fault(&cols, key_cols) {
            return Err(fault);
        }
        let (names, types) = split(alloc, cols)?;
        Ok(Schema {
            names,
            types,
            key_cols,
        })
    }

    /// The number of columns.
    pub fn width(&self) -> usize
        ensures columns { result ≡ length self.now.types }
        ensures lawful { IsSchema self.now }
    {
        self.types.len()
    }

    /// The number of columns of the key, which are the first ones.
    pub fn key_cols(&self) -> usize
        ensures count { result ≡ self.now.key_cols }
        ensures lawful { IsSchema self.now }
    {
        self.key_cols
    }

    /// The types of the columns in their order, lent.
    pub fn types(&self) -> &[ColumnType]
        ensures { result.now ≡ self.now.types }
    {
        self.types.as_slice()
    }

    /// The type of a column.
    pub fn column_type(&self, col: usize) -> ColumnType
        requires { col < length self.now.types }
        ensures { slice_get self.now.types col ≡ Some result }
    {
        self.types[col]
    }

    /// The name of a column, lent.
    pub fn name(&self, col: usize) -> &str
        requires { col < length self.now.types }
        ensures { slice_get self.now.names col ≡ Some result.now }
    {
        self.names[col].as_str()
    }

    /// The same schema, in memory of its own.
    ///
    /// # Errors
    ///
    /// `NoMemory` where a growth is refused.
    pub fn copy(&self) -> Result<Schema, NoMemory>
        ensures { IfOk result (λ copied. copied ≡ self.now) }
    {
        let alloc = *self.names.allocator();
        Ok(Schema {
            names: copy_texts(alloc, self.names.as_slice())?,
            types: self.types().to_vec(alloc)?,
            key_cols: self.key_cols,
        })
    }

    /// Tests a row against the columns. Takes no memory.
    ///
    /// # Errors
    ///
    /// `WrongCount` where there are not as many values as columns, before all else; then column by column `WrongType`
    /// and `TextTooLong`, above 4,096 bytes.
    pub fn check_row(&self, row: &Row) -> Result<(), ShapeFault>
        ensures { result ≡ answer_of (row_fault self.now row.now) }
    {
        check_values(self.types(), row.cells())
    }

    /// Tests a key against the key columns. Takes no memory.
    ///
    /// # Errors
    ///
    /// As `check_row`, with the key columns in place of all.
    pub fn check_key(&self, key: &Key) -> Result<(), ShapeFault>
        ensures { result ≡ answer_of (key_fault self.now key.now) }
    {
        check_values(&self.types[..self.key_cols], key.cells())
    }

    /// Tests a value that a cell is to be set to. Takes no memory.
    ///
    /// # Errors
    ///
    /// The first of these that stands: `NoSuchColumn` past the last column, `KeyColumn` at one of the key, which is
    /// never set, `WrongType`, and `TextTooLong` above 4,096 bytes.
    pub fn check_cell(&self, col: usize, value: &Value) -> Result<(), ShapeFault>
        ensures { result ≡ answer_of (cell_fault self.now col value.now) }
    {
        match self.types.get(col) {
            None => Err(ShapeFault::NoSuchColumn),
            Some(column) => {
                if col < self.key_cols {
                    return Err(ShapeFault::KeyColumn);
                }
                check_value(*column, col, value)
            }
        }
    }
}

/// The first fault of columns as a schema.
fn first_fault(cols: &[(String, ColumnType)], key_cols: usize) -> Option<SchemaFault>
    ensures { result ≡ schema_fault (columns_of cols.now key_cols) }
{
    if cols.is_empty() {
        return Some(SchemaFault::NoColumns);
    }
    if cols.len() > MAX_COLUMNS {
        return Some(SchemaFault::TooManyColumns);
    }
    if key_cols == 0 || key_cols > MAX_KEY_COLUMNS || key_cols > cols.len() {
        return Some(SchemaFault::BadKeyCount);
    }
    first_repeated(cols).map(SchemaFault::RepeatedName)
}

/// The first column whose name an earlier one has.
fn first_repeated(cols: &[(String, ColumnType)]) -> Option<usize>
    ensures { result ≡ repeated_name (names_of cols.now) }
{
    for col in 0..cols.len() {
        if has_name(&cols[..col], cols[col].0.as_str()) {
            return Some(col);
        }
    }
    None
}

/// Whether one of the columns has this name.
fn has_name(cols: &[(String, ColumnType)], name: &str) -> bool
    ensures { result ≡ list_any (λ col. pointwise nat_eq (string_bytes col.0) name.now) cols.now }
{
    cols.iter().any(|col| col.0.as_str() == name)
}

/// The names and the types, apart.
fn split(
    alloc: Global,
    cols: Vec<(String, ColumnType)>,
) -> Result<(Vec<Text>, Vec<ColumnType>), NoMemory>
    ensures names { IfOk result (λ parts. parts.0.items ≡ names_of cols.items) }
    ensures types { IfOk result (λ parts. parts.1.items ≡ types_of cols.items) }
{
    let mut names = Vec::with_capacity(alloc, cols.len())?;
    let mut types = Vec::with_capacity(alloc, cols.len())?;
    for (name, column) in cols {
        names.push(Text::new(name))?;
        types.push(column)?;
    }
    Ok((names, types))
}

/// The first fault of values as a list of these types.
fn check_values(types: &[ColumnType], values: &[Value]) -> Result<(), ShapeFault>
    ensures { result ≡ answer_of (list_fault types.now values.now) }
{
    if values.len() != types.len() {
        return Err(ShapeFault::WrongCount);
    }
    for (i, value) in values.iter().enumerate() {
        check_value(types[i], i, value)?;
    }
    Ok(())
}

/// The fault of a value in the column `col` of this type.
fn check_value(column: ColumnType, col: usize, value: &Value) -> Result<(), ShapeFault>
    ensures { result ≡ answer_of (value_fault column col value.now) }
{
    match (column, value) {
        (ColumnType::Int, Value::Int(_)) => Ok(()),
        (ColumnType::Bool, Value::Bool(_)) => Ok(()),
        (ColumnType::Text, Value::Text(text)) => {
            if text.as_str().len() > MAX_TEXT_BYTES {
                Err(ShapeFault::TextTooLong(col))
            } else {
                Ok(())
            }
        }
        _ => Err(ShapeFault::WrongType(col)),
    }
}
