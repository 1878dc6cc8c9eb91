//! The layers, and what stands where in their image.
ghost use Rattle.std.specs.Prelude.{◌≡◌, ℕ, ◌↔◌, ◌-◌, ◌≤◌, ◌<◌, IsTrue, IfSome, List, [], length, map, min, drop, take, slice_get, is_some};
ghost use Rattle.std.specs.List.{All};
ghost use Rattle.std.specs.Option.{option_copied, option_map};
ghost use Rattle.model.specs.Table.{IsTable, rank, row_at};
ghost use Rattle.merge.specs.Image.{image_rows, image_table};
ghost use Rattle.merge.specs.Cursor.{IsCursor, rows_left};
ghost use Rattle.merge.specs.Filling.{IsWide};
ghost use Rattle.merge.specs.NumberRows.{AreNumberRows, HasNumberColumn, number_rows_left};
ghost use Rattle.merge.specs.Packed.{AreNumbersOf, IsFixedWidthColumn, IsNumberColumn, IsPacked, type_at};
ghost use Rattle.merge.specs.ReadRows.{AreReadRows, HasReadColumn, rows_of_read};
ghost use Rattle.merge.specs.View.{row_of};
ghost use Rattle.stable.specs.Rows.{column_at, column_values};
ghost use Rattle.values.specs.declared.row.Row.{Row as Cells};
ghost use Rattle.values.specs.declared.value.Value.TheVariants.{Int};

use crate::cursor::Cursor;
use crate::image::{CommittedRows, Image};
use crate::key_row::{find_in, find_over};
use crate::level::{Level, StableRows, grown, locate_over};
use crate::number_rows::NumberRows;
use crate::number_runs::NumberRuns;
use crate::numbers::fill;
use crate::packed::Packed;
use crate::placed::PlacedStretches;
use crate::read_rows::ReadRows;
use crate::runs::ColumnRuns;
use crate::scan::{MergeScan, Stretches};
use crate::view::{Layer, RowView};
use delta::DeltaTree;
use stable::StableTable;
use std::marker::Model;
use values::{Key, Schema, Value};

/// A stable table under its Read- and its Write-PDT, and under a Trans-PDT where a transaction stands on top; all lent
/// (Héman et al. 2010, "Transaction management").
#[derive(Drop)]
pub struct Layers<'a> {
    stable: &'a StableTable,
    read: &'a DeltaTree,
    write: &'a DeltaTree,
    /// None where no transaction stands on top.
    trans: Option<&'a DeltaTree>,
    /// How many rows the image has.
    len: u64,
}

impl<'a> Model for Layers<'a> {
    ghost use Rattle.std.specs.Prelude.{◌≡◌};
    ghost use Rattle.std.specs.Option.{option_copied};
    ghost use Rattle.merge.specs.Image.{Stack, stack_of, tree_over};
    ghost use Rattle.merge.specs.Level.{AreKept};

    ghost Value = { Stack };

    ghost view = { λ l. stack_of l.stable.now l.read.now l.write.now (tree_over l.stable.now.schema.key_cols (option_copied l.trans)) };

    ghost invariant = { λ l. AreKept l.stable.now l.read.now l.write.now
        (tree_over l.stable.now.schema.key_cols (option_copied l.trans)) l.len };
}

impl<'a> Layers<'a> {
    ghost use Rattle.merge.specs.Image.{AreBothStacked, AreStacked, stack_below, stack_of, stack_over, write_rows};
    ghost use Rattle.merge.specs.Left.{AreAlikeLower, AreCursors, AreLowerCursors, image_left, write_left, write_over};
    ghost use Rattle.merge.specs.Placed.{IsPlaced};

    /// The layers over the table, each tree over the image of those below it. It takes no memory.
    pub fn new(
        stable: &'a StableTable,
        read: &'a DeltaTree,
        write: &'a DeltaTree,
        trans: &'a DeltaTree,
    ) -> Layers<'a>
        requires { AreStacked stable.now read.now write.now trans.now }
        ensures { result ≡ stack_of stable.now read.now write.now trans.now }
    {
        let under_read = grown(stable.len(), read);
        let under_write = grown(under_read, write);
        Layers {
            stable,
            read,
            write,
            trans: Some(trans),
            len: grown(under_write, trans),
        }
    }

    /// The layers over the table with no transaction on top, each tree over the image of those below it. It takes no memory.
    pub fn committed(
        stable: &'a StableTable,
        read: &'a DeltaTree,
        write: &'a DeltaTree,
    ) -> Layers<'a>
        requires { AreBothStacked stable.now read.now write.now }
        ensures { result ≡ stack_below stable.now read.now write.now }
    {
        let under_read = grown(stable.len(), read);
        Layers {
            stable,
            read,
            write,
            trans: None,
            len: grown(under_read, write),
        }
    }

    /// The columns of the rows.
    pub fn schema(&self) -> &'a Schema
        ensures { result.now ≡ self.now.schema }
    {
        self.stable.schema()
    }

    /// The stable table, at the bottom.
    pub fn stable(&self) -> &'a StableTable
        ensures schema { result.now.schema ≡ self.now.schema }
        ensures rows { result.now.rows ≡ self.now.rows }
    {
        self.stable
    }

    /// How many rows the image has.
    pub fn len(&self) -> u64
        ensures count { result ≡ length (image_rows self.now) }

        // The image is that of a table: its rows ascend by their keys and fit the schema.
        ensures table { IsTable self.now.schema (image_table self.now) }
    {
        self.len
    }

    /// Whether the image has no rows.
    pub fn is_empty(&self) -> bool
        ensures { IsTrue result ↔ (image_rows self.now ≡ []) }
    {
        self.len == 0
    }

    /// The row at a position, lent, or none past the end. Takes a descent in each tree; the stable table is not searched,
    /// and no memory is taken.
    pub fn row_at(&self, rid: u64) -> Option<RowView<'a>>
        ensures { option_map row_of result ≡ slice_get (image_rows self.now) rid }
    {
        if rid < self.len {
            let mut rows = self.rows_from(rid);
            Some(rows.next_stretch(1).first())
        } else {
            None
        }
    }

    /// The row of a key, lent, where there is one: by halving in the stable table and one descent in each tree. No memory is
    /// taken.
    pub fn get(&self, key: &Key) -> Option<RowView<'a>>
        ensures { option_map row_of result ≡ row_at (image_table self.now) key.now }
    {
        let cells = key.cells();
        let in_stable = find_in(self.stable, cells);
        let in_read = find_over(self.read, Layer::Read, in_stable, cells);
        let in_write = find_over(self.write, Layer::Write, in_read, cells);
        match self.trans {
            None => in_write.row,
            Some(trans) => find_over(trans, Layer::Trans, in_write, cells).row,
        }
    }

    /// The stretches of the rows from one position up to another, and without that; both are cut to the length of the image.
    pub fn stretches(&self, from: u64, to: u64) -> Stretches<'a>
        ensures { result ≡ drop from (take to (image_rows self.now)) }
    {
        let start = from.min(self.len);
        let end = to.min(self.len);
        Stretches::new(self.rows_from(start), end.saturating_sub(start))
    }

    /// The same stretches, with their places in the stable table.
    pub fn placed_stretches(&self, from: u64, to: u64) -> PlacedStretches<'a>
        ensures stack { result.stack ≡ self.now }
        ensures from { result.rid ≡ min from (length (image_rows self.now)) }
        ensures left { result.left ≡ min to (length (image_rows self.now)) - result.rid }
    {
        let start = from.min(self.len);
        let count = to.min(self.len).saturating_sub(start);
        PlacedStretches::new(self.copy(), self.rows_from(start), start, count)
    }

    /// The same layers, lent once more.
    fn copy(&self) -> Layers<'a>
        ensures { result ≡ self.now }
    {
        Layers {
            stable: self.stable,
            read: self.read,
            write: self.write,
            trans: self.trans,
            len: self.len,
        }
    }

    /// The rows from one position up to another, and without that; both are cut to the length of the image. No memory is
    /// taken.
    pub fn scan(&self, from: u64, to: u64) -> MergeScan<'a>
        ensures { result ≡ drop from (take to (image_rows self.now)) }
    {
        MergeScan::new(self.stable, self.stretches(from, to))
    }

    /// The values of a column in those rows, run by run: where stable rows stand together, each block's part of them as it
    /// lies. No memory is taken.
    pub fn column_runs(&self, col: usize, from: u64, to: u64) -> ColumnRuns<'a>
        requires { col < length self.now.schema.types }
        ensures { result ≡ column_at self.now.schema.types (drop from (take to (image_rows self.now))) col }
    {
        ColumnRuns::new(self.stable.column(col), col, self.stretches(from, to))
    }

    /// Puts the numbers of a column from a position on into a room, as many as there are and fit, and answers how many; a truth's number
    /// is 1 or 0. Base rows that stand together are copied, and what the layers modify of the column is put in their place. Where the
    /// Read-PDT is packed too it is read so, in a fraction of the time. No memory is taken.
    pub fn fill_numbers(
        &self,
        packed: Option<&'a Packed>,
        col: usize,
        from: u64,
        out: &mut [i64],
    ) -> usize
        requires packed { IfSome (option_copied packed) (IsPacked self.now.read) }
        requires column { IsFixedWidthColumn self.now.schema col }
        ensures count { result ≡ min (length out.old) (length (drop from (image_rows self.now))) }
        ensures values { AreNumbersOf (type_at self.now.schema col) (column_values col (take result (drop from (image_rows self.now))))
            (take result out.new) }
    {
        let start = from.min(self.len);
        let count = (out.len() as u64).min(self.len - start) as usize;
        let room = &mut out[..count];
        fill(&mut self.number_rows_from(packed, col, start), col, room);
        count
    }

    /// The numbers of a column in the rows from one position up to another, and without that, run by run; both are cut to the length of
    /// the image. Where the Read-PDT is packed too it is read so, and a change of other columns ends no run. No memory is taken.
    pub fn number_runs(
        &self,
        packed: Option<&'a Packed>,
        col: usize,
        from: u64,
        to: u64,
    ) -> NumberRuns<'a>
        requires packed { IfSome (option_copied packed) (IsPacked self.now.read) }
        requires column { IsNumberColumn self.now.schema col }
        ensures { map Int result ≡ column_values col (drop from (take to (image_rows self.now))) }
    {
        let start = from.min(self.len);
        let stop = to.min(self.len);
        let left = stop.saturating_sub(start) as usize;
        NumberRuns::new(self.number_rows_from(packed, col, start), col, left)
    }

    /// How many rows have a key below this one, and whether a row has the key: by halving in the stable table and one descent
    /// in each tree. No memory is taken.
    pub fn rank(&self, key: &Key) -> (u64, bool)
        ensures rank { result.0 ≡ rank key.now (image_table self.now) }
        ensures there { result.1 ≡ is_some (row_at (image_table self.now) key.now) }
    {
        self.locate(key.cells())
    }

    /// The same for the key of these cells.
    pub fn locate(&self, key: &[Value]) -> (u64, bool)
        ensures rank { result.0 ≡ rank key.now (image_table self.now) }
        ensures there { result.1 ≡ is_some (row_at (image_table self.now) key.now) }
    {
        let in_stable = self.stable.locate(key);
        let in_read = locate_over(self.read, in_stable, key);
        let in_write = locate_over(self.write, in_read, key);
        match self.trans {
            None => in_write,
            Some(trans) => locate_over(trans, in_write, key),
        }
    }

    /// What is left of the image from a position on.
    fn rows_from(&self, rid: u64) -> Image<'a>
        requires { rid ≤ length (image_rows self.now) }
        ensures rows { image_left result ≡ drop rid (image_rows self.now) }
        ensures cursors { AreCursors result }
        ensures placed { IsPlaced self.now rid result }
    {
        match self.trans {
            None => Image::Committed(self.committed_from(rid)),
            Some(trans) => {
                let cursor = Cursor::at(trans, rid);
                Image::Own(Level {
                    below: self.committed_from(cursor.sid()),
                    cursor,
                    layer: Layer::Trans,
                })
            }
        }
    }

    /// What is left under the Read- and the Write-PDT from a position on.
    fn committed_from(&self, rid: u64) -> CommittedRows<'a>
        requires { rid ≤ length (write_rows self.now) }
        ensures rows { write_left result ≡ drop rid (write_rows self.now) }
        ensures cursors { AreLowerCursors result }
        ensures alike { (base : List Cells) → length base ≡ length self.now.rows → AreAlikeLower base result }
        ensures over { (base : List Cells) → length base ≡ length self.now.rows
            → write_over base result ≡ drop rid (write_rows (stack_over base self.now)) }
    {
        let write = Cursor::at(self.write, rid);
        let read = Cursor::at(self.read, write.sid());
        let stable = StableRows {
            table: self.stable,
            sid: read.sid(),
        };
        let under_read = Level {
            below: stable,
            cursor: read,
            layer: Layer::Read,
        };
        Level {
            below: under_read,
            cursor: write,
            layer: Layer::Write,
        }
    }

    /// What is left of the image from a position on, under the Read-PDT as it is packed where it is.
    fn number_rows_from(&self, packed: Option<&'a Packed>, col: usize, rid: u64) -> NumberRows<'a>
        requires rid { rid ≤ length (image_rows self.now) }
        requires packed { IfSome (option_copied packed) (IsPacked self.now.read) }
        requires column { col < length self.now.schema.types }
        ensures rows { number_rows_left result ≡ drop rid (image_rows self.now) }
        ensures lawful { AreNumberRows result }
        ensures column { HasNumberColumn (type_at self.now.schema col) col result }
    {
        match self.trans {
            None => NumberRows::Committed(self.numbers_from(packed, col, rid)),
            Some(trans) => {
                let cursor = Cursor::at(trans, rid);
                NumberRows::Own(Level {
                    below: self.numbers_from(packed, col, cursor.sid()),
                    cursor,
                    layer: Layer::Trans,
                })
            }
        }
    }

    /// What is left under the Read-PDT, as it is packed where it is, and the Write-PDT, from a position on.
    fn numbers_from(
        &self,
        packed: Option<&'a Packed>,
        col: usize,
        rid: u64,
    ) -> Level<'a, ReadRows<'a>>
        requires rid { rid ≤ length (write_rows self.now) }
        requires packed { IfSome (option_copied packed) (IsPacked self.now.read) }
        requires column { col < length self.now.schema.types }
        ensures rows { rows_left result.cursor (rows_of_read result.below) ≡ drop rid (write_rows self.now) }
        ensures lawful { AreReadRows result.below }
        ensures cursor { IsCursor (length (rows_of_read result.below)) result.cursor }
        ensures column { HasReadColumn (type_at self.now.schema col) col result.below }
        ensures wide { All (IsWide col) (rows_of_read result.below) }
    {
        let write = Cursor::at(self.write, rid);
        let read = Cursor::at(self.read, write.sid());
        let stable = StableRows {
            table: self.stable,
            sid: read.sid(),
        };
        Level {
            below: ReadRows::at(stable, read, packed, col),
            cursor: write,
            layer: Layer::Write,
        }
    }
}
