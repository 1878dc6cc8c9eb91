//! A table of the columns that C gives.
ghost use Rattle.std.specs.Prelude.{◌≡◌, ◌≢◌, ◌≤◌, ◌<◌, ℕ, IfOk, Err, get_or, length};
ghost use Rattle.values.specs.declared.limits.TheConstants.{MAX_ROWS};
ghost use Rattle.stable.specs.declared.fault.BuildFault.{BuildFault as Fault};
ghost use Rattle.pdt_c.specs.Filling.{given_at, AreFilled, IsNoTable, IsTableGiven, IsUnfilled};
ghost use Rattle.pdt_c.specs.declared.given.columns.GivenFault.TheVariants as given_fault;

use crate::given::filling::{FillFault, GivenColumn};
use stable::{BuildFault, Column, StableTable};
use std::alloc::{AllocError, AllocFailed, Global};
use std::marker::Model;
use values::limits::MAX_ROWS;
use values::{ColumnType, Schema};

/// What C gives of all columns: numbers, bytes and offsets, of which a column has those of its type.
#[derive(Drop)]
pub(crate) struct GivenColumns<'a> {
    pub(crate) numbers: &'a [&'a [i64]],
    pub(crate) offsets: &'a [&'a [u64]],
    pub(crate) bytes: &'a [&'a [u8]],
}

impl<'a> Model for GivenColumns<'a> {
    ghost use Rattle.std.specs.Prelude.{map};
    ghost use Rattle.pdt_c.specs.Filling.{AllGiven};

    ghost Value = { AllGiven };

    ghost view = { λ p. record {
      numbers = map (λ n. n.now) p.numbers.now;
      offsets = map (λ o. o.now) p.offsets.now;
      bytes = map (λ b. b.now) p.bytes.now;
    } };
}

/// Why columns that C gives make no table. Rows and columns count from 0.
#[derive(Clone, Copy, Debug, PartialEq, Eq, Drop)]
pub(crate) enum GivenFault {
    /// For this row, this column has no value of its type, or has one past the last row.
    Value(usize, usize),
    /// The rows make no table.
    Build(BuildFault),
    /// A growth was refused.
    NoMemory,
}

impl From<AllocError> for GivenFault {
    ghost from_gives = { λ _ fault. fault ≡ given_fault.NoMemory };

    fn from(_: AllocError) -> GivenFault {
        GivenFault::NoMemory
    }
}

impl<T: Drop> From<AllocFailed<T>> for GivenFault {
    ghost from_gives = { λ _ fault. fault ≡ given_fault.NoMemory };

    fn from(_: AllocFailed<T>) -> GivenFault {
        GivenFault::NoMemory
    }
}

impl<'a> GivenColumns<'a> {
    /// What is given of one column: nothing where C gives fewer columns.
    fn column(&self, col: usize) -> GivenColumn<'a>
        ensures { result ≡ given_at self.now col }
    {
        GivenColumn {
            numbers: match self.numbers.get(col) {
                Some(numbers) => numbers,
                None => &[],
            },
            offsets: match self.offsets.get(col) {
                Some(offsets) => offsets,
                None => &[],
            },
            bytes: match self.bytes.get(col) {
                Some(bytes) => bytes,
                None => &[],
            },
        }
    }

    /// The columns of these types, each with a value for each of so many rows.
    fn columns(
        &self,
        alloc: Global,
        types: &[ColumnType],
        rows: usize,
    ) -> Result<Vec<Column>, GivenFault>
        requires { rows ≤ MAX_ROWS }
        ensures ok { IfOk result (λ columns. AreFilled types.now self.now rows columns.items) }
        ensures value { (row col : ℕ) → result ≡ Err (given_fault.Value row col)
            → IsUnfilled (get_or types.now col ColumnType.Int) (given_at self.now col) rows row }
        ensures there { (row col : ℕ) → result ≡ Err (given_fault.Value row col) → col < length types.now }
        ensures alone { (fault : Fault) → result ≢ Err (given_fault.Build fault) }
    {
        let mut columns = Vec::with_capacity(alloc, types.len())?;
        for col in 0..types.len() {
            match self.column(col).fill(alloc, types[col], rows) {
                Ok(column) => columns.push(column)?,
                Err(FillFault::Row(row)) => return Err(GivenFault::Value(row, col)),
                Err(FillFault::NoMemory) => return Err(GivenFault::NoMemory),
            }
        }
        Ok(columns)
    }

    /// The table of so many rows under a schema, their keys in ascending order.
    pub(crate) fn table(
        &self,
        alloc: Global,
        schema: Schema,
        rows: usize,
    ) -> Result<StableTable, GivenFault>
        ensures ok { IfOk result (IsTableGiven schema self.now rows) }
        ensures value { (row col : ℕ) → result ≡ Err (given_fault.Value row col)
            → IsUnfilled (get_or schema.types col ColumnType.Int) (given_at self.now col) rows row }
        ensures there { (row col : ℕ) → result ≡ Err (given_fault.Value row col) → col < length schema.types }
        ensures build { (fault : Fault) → result ≡ Err (given_fault.Build fault) → IsNoTable schema self.now rows fault }
    {
        if rows as u64 > MAX_ROWS {
            return Err(GivenFault::Build(BuildFault::TooManyRows));
        }
        // A schema tells with its width that it has a column.
        let _width = schema.width();
        let columns = self.columns(alloc, schema.types(), rows)?;
        match StableTable::from_columns(schema, columns) {
            Ok(table) => Ok(table),
            Err(fault) => Err(GivenFault::Build(fault)),
        }
    }
}
