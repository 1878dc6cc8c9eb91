//! The rows that a scan shows.
ghost use Rattle.std.specs.Prelude.{◌≡◌, ◌<◌, Some, [], IfOk, get_or, length, slice_get};
ghost use Rattle.values.specs.Lent.{value_of};

use stable::StableTable;
use std::alloc::Global;
use std::fmt::{Debug, Error, Formatter, Write};
use std::marker::Model;
use values::{NoMemory, ValueRef};

/// The rows of a scan, copied together, column by column: a row takes no allocation of its own. Contracts see them as a list.
#[derive(Drop)]
pub struct ShownRows {
    /// None where there is no row.
    table: Option<Box<StableTable>>,
}

impl Model for ShownRows {
    ghost use Rattle.std.specs.Prelude.{List};
    ghost use Rattle.values.specs.declared.row.Row.{Row as Cells};
    ghost use Rattle.pdtcli.specs.ShownRows.{AreKept, kept_rows};

    ghost Value = { List Cells };

    ghost view = { λ r. kept_rows r.table };

    ghost invariant = { λ r. AreKept r.table };
}

impl ShownRows {
    /// No row. It takes no memory.
    pub fn none() -> ShownRows
        ensures { result ≡ [] }
    {
        ShownRows { table: None }
    }

    /// The rows of a table.
    ///
    /// # Errors
    ///
    /// `NoMemory` where room for the table is refused.
    pub fn of(alloc: Global, table: StableTable) -> Result<ShownRows, NoMemory>
        ensures { IfOk result (λ rows. rows ≡ table.rows) }
    {
        let kept = Box::new(alloc, table)?;
        Ok(ShownRows { table: Some(kept) })
    }

    /// How many rows there are.
    pub fn len(&self) -> u64
        ensures { result ≡ length self.now }
    {
        match &self.table {
            None => 0,
            Some(table) => table.len(),
        }
    }

    /// How many values the row at this place has.
    pub fn width(&self, at: u64) -> usize
        requires { at < length self.now }
        ensures { result ≡ length (get_or self.now at []) }
    {
        match &self.table {
            None => unreachable!(),
            Some(table) => table.schema().width(),
        }
    }

    /// The value of a column in the row at this place, lent.
    pub fn value(&self, at: u64, col: usize) -> ValueRef<'_>
        requires there { at < length self.now }
        requires within { col < length (get_or self.now at []) }
        ensures { slice_get (get_or self.now at []) col ≡ Some (value_of result) }
    {
        match &self.table {
            None => unreachable!(),
            Some(table) => table.value(at, col),
        }
    }
}

// By hand, since a table has none: it tells how many rows there are.
impl Debug for ShownRows {
    fn fmt<W: Write>(&self, f: &mut Formatter<W>) -> Result<(), Error> {
        f.debug_tuple("ShownRows").field(&self.len()).finish()
    }
}
