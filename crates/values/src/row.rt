//! Rows and keys, which contracts see as the lists of their values, and the order of keys.
ghost use Rattle.std.specs.Prelude.{◌≡◌, ◌<◌, IfErr, IfOk, OnErr, OnOk, length, refl, slice_set};
ghost use Rattle.std.specs.Cmp.{eq_by_cmp_equiv, partial_equiv_from_equiv, po};
ghost use Rattle.std.specs.Ordering.{eq_by_cmp, as_partial_cmp};
ghost use Rattle.values.specs.Orders.{key_cmp, key_cmp_total};
ghost use Rattle.values.specs.Shape.{key_of};

use crate::fault::NoMemory;
use crate::shared_row::SharedRow;
use crate::value::{Value, copy_values};
use std::cmp::Ordering;
use std::marker::Model;

/// A row, or any list of values that is to be checked as one. It has them alone, as it was made of them, until it is shared.
#[derive(Debug, Drop)]
pub struct Row {
    cells: Cells,
}

/// Where the values of a row lie.
#[derive(Debug, Drop)]
enum Cells {
    /// In the list that it was made of.
    Own(Vec<Value>),
    /// In one that other rows may share.
    Shared(SharedRow),
}

impl Model for Row {
    ghost use Rattle.std.specs.Prelude.{List};
    ghost use Rattle.values.specs.declared.value.Value.{Value as Cell};
    ghost use Rattle.values.specs.Shared.{cells_of};

    ghost Value = { List Cell };

    ghost view = { λ r. cells_of r.cells };
}

impl Row {
    /// The values as a row. Takes no memory, and checks nothing.
    pub fn new(cells: Vec<Value>) -> Row
        ensures { result ≡ cells.items }
    {
        Row {
            cells: Cells::Own(cells),
        }
    }

    /// The values in the order of the columns, lent.
    #[inline(always)]
    pub fn cells(&self) -> &[Value]
        ensures { result.now ≡ self.now }
    {
        match &self.cells {
            Cells::Own(cells) => cells.as_slice(),
            Cells::Shared(row) => row.cells(),
        }
    }

    /// The key of the row, lent: its first `key_cols` values, or all where it has no more.
    pub fn key(&self, key_cols: usize) -> &[Value]
        ensures { result.now ≡ key_of key_cols self.now }
    {
        let cells = self.cells();
        &cells[..key_cols.min(cells.len())]
    }

    /// The values that it was made of, or the row again where others share them. Takes no memory.
    pub fn into_cells(self) -> Result<Vec<Value>, Row>
        ensures ok { IfOk result (λ cells. cells.items ≡ self) }
        ensures err { IfErr result (λ row. row ≡ self) }
    {
        match self.cells {
            Cells::Own(cells) => Ok(cells),
            Cells::Shared(row) => row.into_cells(),
        }
    }

    /// Puts another value into the cell of a column, and checks nothing. Takes no memory where the row has its values alone;
    /// rows that share them keep theirs.
    ///
    /// # Errors
    ///
    /// `NoMemory` where the values are shared, and memory for a copy of them is refused: nothing changes.
    pub fn set(&mut self, col: usize, value: Value) -> Result<(), NoMemory>
        requires { col < length self.old }
        ensures ok { OnOk result (self.new ≡ slice_set self.old col value) }
        ensures err { OnErr result (self.new ≡ self.old) }
    {
        match &mut self.cells {
            Cells::Own(cells) => cells[col] = value,
            Cells::Shared(row) => {
                let mut cells = row.copied_cells()?;
                cells[col] = value;
                *self = Row::new(cells);
            }
        }
        Ok(())
    }

    /// The same row: it shares the values where they are shared, and has a copy of them where not.
    ///
    /// # Errors
    ///
    /// `NoMemory` where memory for the copy is refused, or 2^63 - 1 rows share them.
    pub fn copy(&self) -> Result<Row, NoMemory>
        ensures { IfOk result (λ copied. copied ≡ self.now) }
    {
        match &self.cells {
            Cells::Own(cells) => Ok(Row::new(copy_values(*cells.allocator(), cells)?)),
            Cells::Shared(row) => Ok(Row::of_shared(row.copy()?)),
        }
    }

    /// The row whose values are shared. Copies no value, and takes no memory where they are shared already.
    ///
    /// # Errors
    ///
    /// `NoMemory` where memory for their one place is refused: they are dropped.
    pub fn into_shared(self) -> Result<SharedRow, NoMemory>
        ensures { IfOk result (λ shared. shared ≡ self) }
    {
        match self.cells {
            Cells::Own(cells) => SharedRow::new(cells),
            Cells::Shared(row) => Ok(row),
        }
    }

    /// A row that is shared, as a row. Takes no memory.
    pub fn of_shared(row: SharedRow) -> Row
        ensures { result ≡ row }
    {
        Row {
            cells: Cells::Shared(row),
        }
    }
}

/// The first values of a row, by which rows are ordered: value by value, and a beginning before what goes on from it.
#[derive(Debug, Drop)]
pub struct Key {
    values: Vec<Value>,
}

impl Model for Key {
    ghost use Rattle.std.specs.Prelude.{List};
    ghost use Rattle.values.specs.declared.value.Value.{Value as Cell};

    ghost Value = { List Cell };

    ghost view = { λ k. k.values.items };
}

impl Key {
    /// The values as a key. Takes no memory, and checks nothing.
    pub fn new(values: Vec<Value>) -> Key
        ensures { result ≡ values.items }
    {
        Key { values }
    }

    /// The values in the order of the key columns, lent.
    pub fn cells(&self) -> &[Value]
        ensures { result.now ≡ self.now }
    {
        self.values.as_slice()
    }

    /// The values that it was made of. Takes no memory.
    pub fn into_cells(self) -> Vec<Value>
        ensures { result.items ≡ self }
    {
        self.values
    }

    /// The same key, in memory of its own.
    ///
    /// # Errors
    ///
    /// `NoMemory` where a growth is refused.
    pub fn copy(&self) -> Result<Key, NoMemory>
        ensures { IfOk result (λ copied. copied ≡ self.now) }
    {
        let alloc = *self.values.allocator();
        Ok(Key::new(copy_values(alloc, self.cells())?))
    }
}

impl PartialEq for Key {
    ghost eq = { eq_by_cmp key_cmp };

    ghost laws = { partial_equiv_from_equiv (eq_by_cmp_equiv key_cmp_total) };

    fn eq(&self, other: &Key) -> bool {
        self.cmp(other).is_eq()
    }
}

impl Eq for Key {
    ghost laws = { eq_by_cmp_equiv key_cmp_total };
}

impl PartialOrd for Key {
    ghost partial_cmp = { as_partial_cmp key_cmp };

    ghost laws = { po key_cmp_total (λ x y. refl) };

    fn partial_cmp(&self, other: &Key) -> Option<Ordering> {
        Some(self.cmp(other))
    }
}

impl Ord for Key {
    ghost cmp = { key_cmp };

    ghost total = { key_cmp_total };

    ghost matches_partial_cmp = { λ x y. refl };

    ghost matches_eq = { λ x y. refl };

    fn cmp(&self, other: &Key) -> Ordering {
        self.cells().cmp(other.cells())
    }
}
