//! What a transaction reads: its version's table with its own writes. No read but those that give a table takes memory
//! or copies a row.
ghost use Rattle.std.specs.Prelude.{◌≡◌, ◌-◌, ◌<◌, IfOk, drop, is_some, length, map, min, slice_get, take};
ghost use Rattle.std.specs.Option.{option_map};
ghost use Rattle.model.specs.Table.{rank, row_at, rows_of};
ghost use Rattle.stable.specs.Rows.{column_at, column_values};
ghost use Rattle.values.specs.declared.value.Value.TheVariants.{Int};
ghost use Rattle.merge.specs.Image.{image_rows};
ghost use Rattle.merge.specs.Packed.{AreNumbersOf, IsFixedWidthColumn, IsNumberColumn, type_at};
ghost use Rattle.merge.specs.View.{row_of};

use crate::transaction::Txn;
use merge::{ColumnRuns, MergeScan, NumberRuns, PlacedStretches, RowView, Stretches};
use stable::StableTable;
use std::alloc::Global;
use values::{Key, NoMemory};

impl Txn {
    ghost use Rattle.txn.specs.Txn.{image_of};

    /// The row of a key, lent, where there is one: by halving in the stable table and one descent in each tree.
    pub fn get(&self, key: &Key) -> Option<RowView<'_>>
        ensures { option_map row_of result ≡ row_at (image_of self.now) key.now }
    {
        self.layers().get(key)
    }

    /// The row at a position, lent, or none past the end.
    pub fn row_at(&self, rid: u64) -> Option<RowView<'_>>
        ensures { option_map row_of result ≡ slice_get (rows_of (image_of self.now)) rid }
    {
        self.layers().row_at(rid)
    }

    /// How many rows have a key below this one, and whether there is a row of the key.
    pub fn rank(&self, key: &Key) -> (u64, bool)
        ensures rank { result.0 ≡ rank key.now (image_of self.now) }
        ensures there { result.1 ≡ is_some (row_at (image_of self.now) key.now) }
    {
        self.layers().rank(key)
    }

    /// The rows from one position up to another, and without that, lent one by one; both are cut to the number of rows.
    pub fn scan(&self, from: u64, to: u64) -> MergeScan<'_>
        ensures { result ≡ drop from (take to (rows_of (image_of self.now))) }
    {
        self.layers().scan(from, to)
    }

    /// The stretches of those rows, in order: stable rows that stand together as they are, to be read column by column, and
    /// rows that a layer inserts or modifies.
    pub fn stretches(&self, from: u64, to: u64) -> Stretches<'_>
        ensures { result ≡ drop from (take to (rows_of (image_of self.now))) }
    {
        self.layers().stretches(from, to)
    }

    /// The same stretches, with their places in the stable table that the transaction's version stands on, which they lend.
    pub fn placed_stretches(&self, from: u64, to: u64) -> PlacedStretches<'_>
        ensures schema { result.stack.schema ≡ self.now.schema }
        ensures rows { image_rows result.stack ≡ rows_of (image_of self.now) }
        ensures from { result.rid ≡ min from (length (image_of self.now)) }
        ensures left { result.left ≡ min to (length (image_of self.now)) - result.rid }
    {
        self.layers().placed_stretches(from, to)
    }

    /// The values of a column in those rows, run by run: where stable rows stand together, each block's part of them as it
    /// lies.
    pub fn column_runs(&self, col: usize, from: u64, to: u64) -> ColumnRuns<'_>
        requires { col < length self.now.schema.types }
        ensures { result ≡ column_at self.now.schema.types (drop from (take to (rows_of (image_of self.now)))) col }
    {
        self.layers().column_runs(col, from, to)
    }

    /// Puts the numbers of a column from a position on into a room, as many as there are and fit, and answers how many; a truth's number
    /// is 1 or 0. Base rows that stand together are copied; where the Read-PDT is packed, a change of another column costs next to
    /// nothing.
    pub fn fill_numbers(&self, col: usize, from: u64, out: &mut [i64]) -> usize
        requires { IsFixedWidthColumn self.now.schema col }
        ensures count { result ≡ min (length out.old) (length (drop from (rows_of (image_of self.now)))) }
        ensures values { AreNumbersOf (type_at self.now.schema col)
            (column_values col (take result (drop from (rows_of (image_of self.now))))) (take result out.new) }
    {
        let layers = self.version.layers(&self.tree);
        layers.fill_numbers(self.version.read().packed(), col, from, out)
    }

    /// The numbers of a column from one position up to another, and without that, run by run: those of stable rows where they lie. Where
    /// the Read-PDT is packed, a change of another column ends no run.
    pub fn number_runs(&self, col: usize, from: u64, to: u64) -> NumberRuns<'_>
        requires { IsNumberColumn self.now.schema col }
        ensures { map Int result ≡ column_values col (drop from (take to (rows_of (image_of self.now)))) }
    {
        let image = self.version.layers(&self.tree);
        image.number_runs(self.version.read().packed(), col, from, to)
    }

    /// All rows as a stable table, column by column.
    ///
    /// # Errors
    ///
    /// `NoMemory` where a growth is refused.
    pub fn to_table(&self, alloc: Global) -> Result<StableTable, NoMemory>
        ensures { IfOk result (λ table. table ≡ record { schema = self.now.schema; rows = rows_of (image_of self.now) }) }
    {
        self.layers().to_table(alloc)
    }

    /// The rows from one position up to another, and without that, as a stable table, column by column; both are cut to the
    /// number of rows.
    ///
    /// # Errors
    ///
    /// `NoMemory` where a growth is refused.
    pub fn table_between(&self, alloc: Global, from: u64, to: u64) -> Result<StableTable, NoMemory>
        ensures { IfOk result
            (λ table. table ≡ record { schema = self.now.schema; rows = drop from (take to (rows_of (image_of self.now))) }) }
    {
        self.layers().table_between(alloc, from, to)
    }
}
