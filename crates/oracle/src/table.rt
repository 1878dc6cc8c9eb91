//! A table as an ordered map, and the writes of a transaction over it.
ghost use Rattle.std.specs.Prelude.{◌≡◌, [], length, IfOk, OnOk, OnErr, IsTrue};
ghost use Rattle.std.specs.Option.{option_copied};
ghost use Rattle.std.specs.Ordering.{is_lt};
ghost use Rattle.values.specs.Orders.{key_cmp};
ghost use Rattle.values.specs.Shape.{key_of};
ghost use Rattle.model.specs.Maps.{is_sorted, alter, alter_all};
ghost use Rattle.model.specs.Table.{row_at, rows_of, table_of, rank};
ghost use Rattle.model.specs.Effects.{row_after, fits, all_fit, table_with};
ghost use Rattle.model.specs.History.{table_with_all};

mod writes;

use crate::effect::{copy_values, fits, row_after};
use crate::effects::Effects;
use crate::map::{put, store};
use model::Effect;
use std::alloc::Global;
use std::collections::BTreeMap;
use std::marker::Model;
use values::{Key, NoMemory, Row};
pub use writes::effects_of_writes;

/// A table, seen by contracts as the list of each key with its row, in ascending key.
#[derive(Drop)]
pub struct OrderedTable {
    rows: BTreeMap<Key, Row>,
    alloc: Global,
}

impl Model for OrderedTable {
    ghost use Rattle.model.specs.Table.{Table};

    ghost Value = { Table };

    ghost view = { λ t. t.rows.entries };
}

impl OrderedTable {
    /// The table of no rows. Takes no memory.
    pub fn new(alloc: Global) -> OrderedTable
        ensures { result ≡ [] }
    {
        OrderedTable {
            rows: BTreeMap::new(alloc),
            alloc,
        }
    }

    /// The table of these rows. Of two rows of one key the later one stays.
    pub fn from_rows(
        alloc: Global,
        key_cols: usize,
        rows: Vec<Row>,
    ) -> Result<OrderedTable, NoMemory>
        // The rows are put in turn, and rows in ascending key are the table's.
        ensures put { IfOk result (λ table. table
            ≡ alter_all key_cmp (λ row old. Some row) (table_of key_cols rows.items) []) }
        ensures ascending { IfOk result (λ table. IsTrue (is_sorted key_cmp (table_of key_cols rows.items))
            → table ≡ table_of key_cols rows.items) }
    {
        let mut by_key = BTreeMap::new(alloc);
        for row in rows {
            put(&mut by_key, key_of(alloc, key_cols, &row)?, row)?;
        }
        Ok(OrderedTable {
            rows: by_key,
            alloc,
        })
    }

    /// The map from key to row.
    pub fn by_key(&self) -> &BTreeMap<Key, Row>
        ensures { result.now.entries ≡ self.now }
    {
        &self.rows
    }

    /// The number of rows.
    pub fn len(&self) -> usize
        ensures count { result ≡ length self.now }
        ensures ascending { IsTrue (is_sorted key_cmp self.now) }
    {
        self.rows.len()
    }

    /// The row of the key.
    pub fn row_at(&self, key: &Key) -> Option<&Row>
        ensures { option_copied result ≡ row_at self.now key.now }
    {
        self.rows.get(key)
    }

    /// The number of rows of lower keys. Goes over all rows.
    pub fn rank(&self, key: &Key) -> usize
        ensures { result ≡ rank key.now self.now }
    {
        self.by_key()
            .iter()
            .filter(|entry| is_below(entry.0, key))
            .count()
    }

    /// The rows in key order, copied.
    pub fn rows(&self) -> Result<Vec<Row>, NoMemory>
        ensures { IfOk result (λ rows. rows.items ≡ rows_of self.now) }
    {
        let mut rows = Vec::new(self.alloc);
        for row in self.by_key().values() {
            rows.push(row.copy()?)?;
        }
        Ok(rows)
    }

    pub fn copy(&self) -> Result<OrderedTable, NoMemory>
        ensures { IfOk result (λ copied. copied ≡ self.now) }
    {
        let mut copied = BTreeMap::new(self.alloc);
        for (key, row) in self.by_key() {
            put(&mut copied, key.copy()?, row.copy()?)?;
        }
        Ok(OrderedTable {
            rows: copied,
            alloc: self.alloc,
        })
    }

    /// Changes the row of the key. On want of memory nothing changes.
    fn change(&mut self, key: &Key, effect: &Effect) -> Result<(), NoMemory>
        ensures ok { OnOk result (self.new ≡ alter key_cmp key.now (row_after effect.now) self.old) }
        ensures err { OnErr result (self.new ≡ self.old) }
    {
        let row = row_after(self.alloc, effect, self.row_at(key))?;
        store(&mut self.rows, key.copy()?, row)
    }

    /// The table after the effects. Takes a copy and one change for each effect.
    pub fn with(&self, effects: &Effects) -> Result<OrderedTable, NoMemory>
        ensures { IfOk result (λ table. table ≡ table_with self.now effects.now) }
    {
        let mut table = self.copy()?;
        for (key, effect) in effects.by_key() {
            table.change(key, effect)?;
        }
        Ok(table)
    }

    /// The table after the commits, in order.
    pub fn with_all(&self, commits: &[Effects]) -> Result<OrderedTable, NoMemory>
        ensures { IfOk result (λ table. table ≡ table_with_all self.now commits.now) }
    {
        let mut table = self.copy()?;
        for effects in commits {
            table = table.with(effects)?;
        }
        Ok(table)
    }

    /// Whether each effect fits what stands at its key.
    pub fn all_fit(&self, effects: &Effects) -> bool
        ensures { result ≡ all_fit self.now effects.now }
    {
        effects
            .by_key()
            .iter()
            .all(|(key, effect)| self.fits_at(key, effect))
    }

    fn fits_at(&self, key: &Key, effect: &Effect) -> bool
        ensures { result ≡ fits (row_at self.now key.now) effect.now }
    {
        fits(self.row_at(key), effect)
    }
}

fn is_below(key: &Key, bound: &Key) -> bool
    ensures { result ≡ is_lt (key_cmp key.now bound.now) }
{
    key.cmp(bound).is_lt()
}

/// The key of the row: its first columns.
fn key_of(alloc: Global, key_cols: usize, row: &Row) -> Result<Key, NoMemory>
    ensures { IfOk result (λ key. key ≡ key_of key_cols row.now) }
{
    let cells = row.cells();
    let count = key_cols.min(cells.len());
    Ok(Key::new(copy_values(alloc, &cells[..count])?))
}
