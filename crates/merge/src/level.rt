//! One tree over one base, and levels over one another: what is left of their image from a position on, how many rows it
//! has, and where a key stands in it.
ghost use Rattle.std.specs.Prelude.{◌≡◌, ℕ, suc, List, ◌+◌, ◌++◌, ◌<◌, ◌≤◌, ◌^◌, is_some, length, drop};
ghost use Rattle.values.specs.Shape.{Columns};
ghost use Rattle.values.specs.declared.row.Row.{Row as Cells};
ghost use Rattle.values.specs.declared.limits.TheConstants.{MAX_ROWS};
ghost use Rattle.model.specs.Entries.{IsLawful};
ghost use Rattle.model.specs.Table.{Table, rank, row_at};
ghost use Rattle.model.specs.Effects.{table_with};
ghost use Rattle.model.specs.Places.{insert_count, delete_count};
ghost use Rattle.merge.specs.Image.{IsLayer};
ghost use Rattle.merge.specs.Cursor.{IsCursor, DeletesNone, rows_left};
ghost use Rattle.merge.specs.View.{layer_number};
ghost use Rattle.merge.specs.Stretches.{IsStableStretch, IsStretch, PassesOver, stretch_rows};
ghost use Rattle.merge.specs.Left.{stable_left};
ghost use Rattle.merge.specs.ColumnStretches.{HasFirst, PassesColumn, PassesRow, value_count};
ghost use Rattle.merge.specs.declared.stretch.Stretch.TheVariants.{Stable};

use crate::column_stretch::ColumnStretch;
use crate::cursor::{Cursor, Next};
use crate::stretch::{StableStretch, Stretch};
use crate::view::{Layer, RowView};
use delta::{DeltaTree, Sought};
use stable::StableTable;
use values::Value;

/// Rows that are left, handed out stretch by stretch, or one column of them stretch by stretch.
pub(crate) trait Rows<'a> {
    /// The rows that are left.
    ghost rows: { Self → List Cells };

    /// The rows that would be left, were these the stable rows.
    ghost over: { List Cells → Self → List Cells };

    /// That these are as many as the stable rows.
    ghost are_alike: { List Cells → Self → Type 0 };

    /// How many layers stand over the stable rows.
    ghost depth: { Self → ℕ };

    /// What keeps the rows as they are to be.
    ghost is_sound: { Self → Type 0 };

    /// The next rows that come from one place: at least one, and at most so many.
    fn next_stretch(&mut self, most: u64) -> Stretch<'a>
        requires sound { is_sound self.old }
        requires some { 0 < most }
        requires most { most ≤ length (rows self.old) }
        ensures rows { rows self.old ≡ stretch_rows result ++ rows self.new }
        ensures over { (base : List Cells) → are_alike base self.old → PassesOver base (over base self.old) result (over base self.new) }
        ensures alike { (base : List Cells) → are_alike base self.old → are_alike base self.new }
        ensures stretch { IsStretch (depth self.old) result }
        ensures most { length (stretch_rows result) ≤ most }
        ensures depth { depth self.new ≡ depth self.old }
        ensures sound { is_sound self.new };

    /// The next values of a column that come from one place: at least one, and at most so many. No row is made on the way.
    fn next_of_column(&mut self, col: usize, most: u64) -> ColumnStretch<'a>
        requires sound { is_sound self.old }
        requires some { 0 < most }
        requires most { most ≤ length (rows self.old) }
        requires first { HasFirst col (rows self.old) }
        ensures values { PassesColumn col (rows self.old) result (rows self.new) }
        ensures most { value_count result ≤ most }
        ensures depth { depth self.new ≡ depth self.old }
        ensures sound { is_sound self.new };

    /// Goes past the next row.
    fn pass_row(&mut self)
        requires sound { is_sound self.old }
        requires some { 0 < length (rows self.old) }
        ensures rows { PassesRow (rows self.old) (rows self.new) }
        ensures over { (base : List Cells) → are_alike base self.old → PassesRow (over base self.old) (over base self.new) }
        ensures alike { (base : List Cells) → are_alike base self.old → are_alike base self.new }
        ensures depth { depth self.new ≡ depth self.old }
        ensures sound { is_sound self.new };
}

/// The stable rows from a SID on.
#[derive(Drop)]
pub(crate) struct StableRows<'a> {
    pub table: &'a StableTable,
    pub sid: u64,
}

impl<'a> StableRows<'a> {
    /// The next so many rows.
    #[inline(always)]
    fn next_rows(&mut self, most: u64) -> StableStretch<'a>
        requires few { length self.old.table.now.rows ≤ MAX_ROWS }
        requires some { 0 < most }
        requires most { most ≤ length (stable_left self.old) }
        ensures rows { stable_left self.old ≡ stretch_rows (Stable result) ++ stable_left self.new }
        ensures is { IsStableStretch result }
        ensures len { result.len ≡ most }
        ensures over { (base : List Cells) → length base ≡ length self.old.table.now.rows
            → PassesOver base (drop self.old.sid base) (Stable result) (drop self.new.sid base) }
        ensures table { self.new.table ≡ self.old.table }
    {
        let stretch = StableStretch {
            table: self.table,
            sid: self.sid,
            len: most,
        };
        self.sid += most;
        stretch
    }
}

impl<'a> Rows<'a> for StableRows<'a> {
    ghost rows = { λ r. drop r.sid r.table.now.rows };

    ghost over = { λ base r. drop r.sid base };

    ghost are_alike = { λ base r. length base ≡ length r.table.now.rows };

    ghost depth = { λ r. 0 };

    ghost is_sound = { λ r. length r.table.now.rows ≤ MAX_ROWS };

    #[inline(always)]
    fn next_stretch(&mut self, most: u64) -> Stretch<'a> {
        Stretch::Stable(self.next_rows(most))
    }

    #[inline(always)]
    fn next_of_column(&mut self, _col: usize, most: u64) -> ColumnStretch<'a> {
        ColumnStretch::Stable(self.next_rows(most))
    }

    #[inline(always)]
    fn pass_row(&mut self) {
        self.sid += 1;
    }
}

/// A layer over rows.
#[derive(Drop)]
pub(crate) struct Level<'a, B: Drop> {
    pub below: B,
    pub cursor: Cursor<'a>,
    pub layer: Layer,
}

impl<'a, B: Rows<'a> + Drop> Level<'a, B> {
    /// Goes past the deletes that come next.
    #[inline(always)]
    fn skip_deleted(&mut self)
        requires below { B.is_sound self.old.below }
        requires cursor { IsCursor (length (B.rows self.old.below)) self.old.cursor }
        ensures rows { rows_left self.new.cursor (B.rows self.new.below) ≡ rows_left self.old.cursor (B.rows self.old.below) }
        ensures over { (base : List Cells) → B.are_alike base self.old.below
            → length (B.over base self.old.below) ≡ length (B.rows self.old.below)
            → rows_left self.new.cursor (B.over base self.new.below) ≡ rows_left self.old.cursor (B.over base self.old.below) }
        ensures alike { (base : List Cells) → B.are_alike base self.old.below
            → length (B.over base self.old.below) ≡ length (B.rows self.old.below)
            → B.are_alike base self.new.below × (length (B.over base self.new.below) ≡ length (B.rows self.new.below)) }
        ensures layer { self.new.layer ≡ self.old.layer }
        ensures depth { B.depth self.new.below ≡ B.depth self.old.below }
        ensures below { B.is_sound self.new.below }
        ensures cursor { IsCursor (length (B.rows self.new.below)) self.new.cursor }
        ensures none { DeletesNone self.new.cursor }
    {
        while self.cursor.skip_delete() {
            self.below.pass_row();
        }
    }
}

impl<'a, B: Rows<'a> + Drop> Rows<'a> for Level<'a, B> {
    ghost rows = { λ l. rows_left l.cursor (B.rows l.below) };

    ghost over = { λ base l. rows_left l.cursor (B.over base l.below) };

    ghost are_alike = { λ base l. B.are_alike base l.below × (length (B.over base l.below) ≡ length (B.rows l.below)) };

    ghost depth = { λ l. suc (layer_number l.layer) };

    ghost is_sound = { λ l. B.is_sound l.below × IsCursor (length (B.rows l.below)) l.cursor × (B.depth l.below ≡ layer_number l.layer) };

    #[inline(always)]
    fn next_stretch(&mut self, most: u64) -> Stretch<'a> {
        self.skip_deleted();
        match self.cursor.step(most) {
            Next::Inserted(row) => Stretch::Row(RowView::inserted(row)),
            Next::Modified(modifies) => {
                let view = self.below.next_stretch(1).first();
                Stretch::Row(view.modified_in(self.layer, modifies))
            }
            Next::Kept(count) => {
                let stretch = self.below.next_stretch(count);
                self.cursor.pass(stretch.count());
                stretch
            }
        }
    }

    #[inline(always)]
    fn next_of_column(&mut self, col: usize, most: u64) -> ColumnStretch<'a> {
        self.skip_deleted();
        match self.cursor.step(most) {
            Next::Inserted(row) => ColumnStretch::Value(row.cells()[col].as_ref()),
            Next::Modified(modifies) => match modifies.value(col) {
                Some(value) => {
                    self.below.pass_row();
                    ColumnStretch::Value(value)
                }
                None => self.below.next_of_column(col, 1),
            },
            Next::Kept(count) => {
                let values = self.below.next_of_column(col, count);
                self.cursor.pass(values.count());
                values
            }
        }
    }

    #[inline(always)]
    fn pass_row(&mut self) {
        self.skip_deleted();
        match self.cursor.step(1) {
            Next::Inserted(_) => {}
            Next::Modified(_) => self.below.pass_row(),
            Next::Kept(_) => {
                self.below.pass_row();
                self.cursor.pass(1);
            }
        }
    }
}

/// How many rows the image of a tree over so many rows has.
pub fn grown(count: u64, tree: &DeltaTree) -> u64
    requires few { count < 2 ^ 62 }
    requires enough { delete_count tree.now.entries ≤ count + insert_count tree.now.entries }
    ensures sum { result + delete_count tree.now.entries ≡ count + insert_count tree.now.entries }
    ensures most { result ≤ count + 2 ^ 40 }
    ensures lawful { IsLawful tree.now.key_cols tree.now.entries }
{
    (count as i64 + tree.total()) as u64
}

/// How many keys of the image of a tree are below this one, and whether the image has it, from those of the rows below
/// the tree. One descent.
pub(crate) fn locate_over(tree: &DeltaTree, below: (u64, bool), key: &[Value]) -> (u64, bool)
    requires { below.0 < 2 ^ 63 }
    ensures rank { (schema : Columns) (t : Table) (layer : IsLayer schema t tree.now) → below.0 ≡ rank key.now t → result.0
        ≡ rank key.now (table_with t layer.effects) }
    ensures there { (schema : Columns) (t : Table) (layer : IsLayer schema t tree.now) → below.0 ≡ rank key.now t → below.1
        ≡ is_some (row_at t key.now)
        → result.1 ≡ is_some (row_at (table_with t layer.effects) key.now) }
{
    let (sid, is_below) = below;
    let place = tree.find(sid, Sought::Insert(key));
    (place.rid, place.is_there(is_below))
}
