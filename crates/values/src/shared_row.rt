//! A row that has several owners: a record and a tree, and each copy of a tree's node, have the one list of its values.
ghost use Rattle.std.specs.Prelude.{◌≡◌, IfErr, IfOk};
ghost use Rattle.values.specs.Shape.{key_of};

use crate::fault::NoMemory;
use crate::row::Row;
use crate::value::{Value, copy_values};
use std::marker::Model;
use std::sync::Arc;

/// A row whose copies share its values.
#[derive(Debug, Drop)]
pub struct SharedRow {
    cells: Arc<Vec<Value>>,
}

impl Model for SharedRow {
    ghost use Rattle.std.specs.Prelude.{List};
    ghost use Rattle.values.specs.declared.value.Value.{Value as Cell};

    ghost Value = { List Cell };

    ghost view = { λ r. r.cells.value.items };
}

impl SharedRow {
    /// The values, which nobody shares yet. Copies none of them.
    ///
    /// # Errors
    ///
    /// `NoMemory` where memory for their one place is refused: they are dropped.
    pub(crate) fn new(cells: Vec<Value>) -> Result<SharedRow, NoMemory>
        ensures { IfOk result (λ row. row ≡ cells.items) }
    {
        let alloc = *cells.allocator();
        Ok(SharedRow {
            cells: Arc::new(alloc, cells)?,
        })
    }

    /// The values in the order of the columns, lent.
    #[inline(always)]
    pub fn cells(&self) -> &[Value]
        ensures { result.now ≡ self.now }
    {
        self.cells.as_slice()
    }

    /// The key of the row, lent: its first `key_cols` values, or all where it has no more.
    pub fn key(&self, key_cols: usize) -> &[Value]
        ensures { result.now ≡ key_of key_cols self.now }
    {
        let cells = self.cells();
        &cells[..key_cols.min(cells.len())]
    }

    /// The same row, which shares its values. Takes no memory.
    ///
    /// # Errors
    ///
    /// `NoMemory` where 2^63 - 1 rows share them.
    #[inline(always)]
    pub fn copy(&self) -> Result<SharedRow, NoMemory>
        ensures { IfOk result (λ copied. copied ≡ self.now) }
    {
        Ok(SharedRow {
            cells: Arc::try_clone(&self.cells)?,
        })
    }

    /// The values, copied.
    pub(crate) fn copied_cells(&self) -> Result<Vec<Value>, NoMemory>
        ensures { IfOk result (λ copied. copied.items ≡ self.now) }
    {
        copy_values(*self.cells.allocator(), self.cells())
    }

    /// The values, or the row again where others share them.
    pub(crate) fn into_cells(self) -> Result<Vec<Value>, Row>
        ensures ok { IfOk result (λ cells. cells.items ≡ self) }
        ensures err { IfErr result (λ row. row ≡ self) }
    {
        match Arc::try_unwrap(self.cells) {
            Ok(cells) => Ok(cells),
            Err(cells) => Err(Row::of_shared(SharedRow { cells })),
        }
    }
}
