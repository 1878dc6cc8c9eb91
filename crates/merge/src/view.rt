//! A row of the image, lent.
ghost use Rattle.std.specs.Prelude.{◌≡◌, ◌<◌, ◌^◌, suc, true, false, IfOk, IfSome, Some, None, is_some, List, length, get_or, slice_get, [], ◌∷◌};
ghost use Rattle.values.specs.declared.row.Row.{Row as Cells};
ghost use Rattle.std.specs.Option.{option_map};
ghost use Rattle.values.specs.Lent.{value_of};
ghost use Rattle.model.specs.Effects.{set_cells};
ghost use Rattle.merge.specs.View.{IsBare, base_of, cells_at, is_in_tree, layer_cells, last_cell, layer_number, modified_cells};
ghost use Rattle.merge.specs.View.{modified_values, own_cells, row_of, row_over, source_over, source_row, values_of, with_cells};

use delta::{ChangeRef, DeltaTree, SharedEntry, Sought};
use smallvec::SmallVec;
use stable::StableTable;
use std::alloc::Global;
use values::{NoMemory, Row, SharedRow, ValueRef};

/// Where a row comes from.
#[derive(Clone, Copy)]
enum Source<'a> {
    /// The table's row at the SID.
    Stable(&'a StableTable, u32),
    /// A row that a layer inserts.
    Inserted(&'a SharedRow),
}

/// What a layer modifies of a row.
#[derive(Clone, Copy)]
pub(crate) enum Modifies<'a> {
    /// Nothing.
    Nothing,
    /// What one entry does, which is at hand.
    One(&'a SharedEntry),
    /// What two entries do, which are at hand.
    Two(&'a SharedEntry, &'a SharedEntry),
    /// What the entries at the SID in the tree do, which are searched there.
    InTree(&'a DeltaTree, u32),
}

/// A row of the image, lent: where it comes from, and what each layer modifies of it. It has 96 bytes.
#[derive(Clone, Copy)]
pub struct RowView<'a> {
    source: Source<'a>,
    read: Modifies<'a>,
    write: Modifies<'a>,
    trans: Modifies<'a>,
}

/// What is modified of one row, by column. A row has 32 columns at most, so that it takes no memory.
type Modified<'a> = SmallVec<Option<ValueRef<'a>>, 32>;

/// The layers, from the lowest.
#[derive(Clone, Copy, Debug, PartialEq, Eq)]
pub(crate) enum Layer {
    Read,
    Write,
    Trans,
}

impl<'a> Modifies<'a> {
    /// The value that the modifies give the column, if they give it one.
    #[inline(always)]
    pub(crate) fn value(&self, col: usize) -> Option<ValueRef<'a>>
        ensures { option_map value_of result ≡ last_cell col None (layer_cells self.now) }
    {
        match *self {
            Modifies::Nothing => None,
            Modifies::One(entry) => given(entry, col),
            Modifies::Two(entry, other) => given(other, col).or(given(entry, col)),
            Modifies::InTree(tree, sid) => modified(tree, u64::from(sid), col),
        }
    }

    /// Whether they are searched in a tree.
    fn is_in_tree(&self) -> bool
        ensures { result ≡ is_in_tree self.now }
    {
        matches!(self, Modifies::InTree(..))
    }

    /// Puts each value that they give in its column's place.
    fn put_into(&self, values: &mut Modified<'a>)
        ensures { values_of values.new.items ≡ with_cells (layer_cells self.now) (values_of values.old.items) }
    {
        match *self {
            Modifies::Nothing => {}
            Modifies::One(entry) => put_value(entry, values),
            Modifies::Two(entry, other) => {
                put_value(entry, values);
                put_value(other, values);
            }
            Modifies::InTree(tree, sid) => put_values(tree, u64::from(sid), values),
        }
    }
}

/// The value that an entry gives the column of its row, if it gives it one.
#[inline(always)]
fn given<'a>(entry: &'a SharedEntry, col: usize) -> Option<ValueRef<'a>>
    ensures { option_map value_of result ≡ last_cell col None (modified_cells (entry.now.change ∷ [])) }
{
    match entry.change() {
        ChangeRef::Mod(other, value) if other == col => Some(value),
        ChangeRef::Ins(_) | ChangeRef::Del(_) | ChangeRef::Mod(..) => None,
    }
}

/// The value that a modify at the SID gives the column, if there is one.
fn modified<'a>(tree: &'a DeltaTree, sid: u64, col: usize) -> Option<ValueRef<'a>>
    requires { sid < 2 ^ 63 }
    ensures { option_map value_of result ≡ last_cell col None (cells_at sid tree.now.entries) }
{
    let mut found = None;
    for entry in tree.find(sid, Sought::Base).entries {
        if entry.sid() != sid {
            break;
        }
        found = given(entry, col).or(found);
    }
    found
}

/// Puts the value that an entry gives a column of its row, if it gives one, in that column's place.
fn put_value<'a>(entry: &'a SharedEntry, values: &mut Modified<'a>)
    ensures { values_of values.new.items ≡ with_cells (modified_cells (entry.now.change ∷ [])) (values_of values.old.items) }
{
    match entry.change() {
        ChangeRef::Mod(col, value) if col < values.len() => values[col] = Some(value),
        ChangeRef::Ins(_) | ChangeRef::Del(_) | ChangeRef::Mod(..) => {}
    }
}

/// Puts each value that a modify at the SID gives in its column's place, by one search.
fn put_values<'a>(tree: &'a DeltaTree, sid: u64, values: &mut Modified<'a>)
    requires { sid < 2 ^ 63 }
    ensures { values_of values.new.items ≡ with_cells (cells_at sid tree.now.entries) (values_of values.old.items) }
{
    for entry in tree.find(sid, Sought::Base).entries {
        if entry.sid() != sid {
            break;
        }
        put_value(entry, values);
    }
}

impl<'a> RowView<'a> {
    /// The value of a column, lent. It takes no memory.
    pub fn value(&self, col: usize) -> ValueRef<'a>
        requires { col < length (row_of self.now) }
        ensures { slice_get (row_of self.now) col ≡ Some (value_of result) }
    {
        match self.modified_value(col) {
            Some(value) => value,
            None => self.source_value(col),
        }
    }

    /// The value that the layers give a column, if one does: that of the highest.
    #[inline(always)]
    fn modified_value(&self, col: usize) -> Option<ValueRef<'a>>
        ensures { option_map value_of result ≡ last_cell col None (own_cells self.now) }
    {
        if let Some(value) = self.trans.value(col) {
            return Some(value);
        }
        if let Some(value) = self.write.value(col) {
            return Some(value);
        }
        self.read.value(col)
    }

    /// The SID of the stable row under it, or none where a layer inserts the row.
    pub fn base_sid(&self) -> Option<u64>
        ensures base { result ≡ base_of self.now.source }

        // An inserted row is the same whatever the stable rows are, and else it is over the row at that SID.
        ensures inserted { result ≡ None → (base : List Cells) → row_over base self.now ≡ row_of self.now }
        ensures over { IfSome result (λ sid. (base : List Cells) → source_over base self.now.source ≡ get_or base sid []) }
    {
        match self.source {
            Source::Stable(_, sid) => Some(u64::from(sid)),
            Source::Inserted(_) => None,
        }
    }

    /// Whether a layer modifies the column: of a row that a layer inserts, one above that.
    pub fn is_modified(&self, col: usize) -> bool
        ensures is { result ≡ is_some (last_cell col None (own_cells self.now)) }

        // Else the value is that of the row before its modifies: of the stable row, where it is over one, whatever stands there.
        ensures kept { result ≡ false → (base : List Cells)
            → slice_get (row_over base self.now) col ≡ slice_get (source_over base self.now.source) col }

        // And if so, it is the one that they give, in rows as wide.
        ensures own { result ≡ true → (base other : List Cells) → length (row_over base self.now) ≡ length (row_over other self.now)
            → slice_get (row_over base self.now) col ≡ slice_get (row_over other self.now) col }
    {
        self.modified_value(col).is_some()
    }

    /// The value of a column before the modifies.
    fn source_value(&self, col: usize) -> ValueRef<'a>
        requires { col < length (source_row self.now.source) }
        ensures { slice_get (source_row self.now.source) col ≡ Some (value_of result) }
    {
        match self.source {
            Source::Stable(table, sid) => {
                let width = table.schema().width();
                prove!(col < width);
                table.value(u64::from(sid), col)
            }
            Source::Inserted(row) => row.cells()[col].as_ref(),
        }
    }

    /// How many values the row has. It takes no memory.
    pub fn width(&self) -> usize
        ensures { result ≡ length (row_of self.now) }
    {
        match self.source {
            Source::Stable(table, sid) => {
                if u64::from(sid) < table.len() {
                    table.schema().width()
                } else {
                    0
                }
            }
            Source::Inserted(row) => row.cells().len(),
        }
    }

    /// The row, in memory of its own. What a layer modifies of it and isn't at hand is searched once, and not for each column.
    ///
    /// # Errors
    ///
    /// `NoMemory` where a growth is refused.
    pub fn copy(&self, alloc: Global) -> Result<Row, NoMemory>
        ensures { IfOk result (λ row. row ≡ row_of self.now) }
    {
        if self.read.is_in_tree() || self.write.is_in_tree() || self.trans.is_in_tree() {
            self.copy_gathered(alloc)
        } else {
            self.copy_at_hand(alloc)
        }
    }

    /// The same, where all modifies are at hand: each column's value by itself.
    fn copy_at_hand(&self, alloc: Global) -> Result<Row, NoMemory>
        ensures { IfOk result (λ row. row ≡ row_of self.now) }
    {
        let width = self.width();
        let mut cells = Vec::with_capacity(alloc, width)?;
        for col in 0..width {
            cells.push(self.value(col).copy(alloc)?)?;
        }
        Ok(Row::new(cells))
    }

    /// The same by the modifies of all columns, gathered first.
    fn copy_gathered(&self, alloc: Global) -> Result<Row, NoMemory>
        ensures { IfOk result (λ row. row ≡ row_of self.now) }
    {
        let modified = self.modified_values(alloc)?;
        let width = self.width();
        let mut cells = Vec::with_capacity(alloc, width)?;
        for col in 0..width {
            cells.push(self.value_or(modified[col], col).copy(alloc)?)?;
        }
        Ok(Row::new(cells))
    }

    /// What the layers modify of the row: of each layer by one search at most.
    fn modified_values(&self, alloc: Global) -> Result<Modified<'a>, NoMemory>
        ensures { IfOk result (λ values. values_of values.items ≡ modified_values self.now) }
    {
        let mut values = SmallVec::from_elem(alloc, None, self.width())?;
        self.read.put_into(&mut values);
        self.write.put_into(&mut values);
        self.trans.put_into(&mut values);
        Ok(values)
    }

    /// The value of a column: the modified one, if there is one.
    fn value_or(&self, modified: Option<ValueRef<'a>>, col: usize) -> ValueRef<'a>
        requires within { col < length (row_of self.now) }
        requires modified { slice_get (modified_values self.now) col ≡ Some (option_map value_of modified) }
        ensures { slice_get (row_of self.now) col ≡ Some (value_of result) }
    {
        match modified {
            Some(value) => value,
            None => self.source_value(col),
        }
    }

    /// A stable row that no layer modifies.
    #[inline(always)]
    pub(crate) fn stable(table: &'a StableTable, sid: u64) -> RowView<'a>
        requires { sid < 2 ^ 32 }
        ensures row { row_of result ≡ get_or table.now.rows sid [] }
        ensures over { (base : List Cells) → row_over base result ≡ get_or base sid [] }
        ensures bare { IsBare 0 result }
    {
        RowView::unmodified(Source::Stable(table, sid as u32))
    }

    /// A row that a layer inserts.
    #[inline(always)]
    pub(crate) fn inserted(row: &'a SharedRow) -> RowView<'a>
        ensures row { row_of result ≡ row.now }
        ensures over { (base : List Cells) → row_over base result ≡ row.now }
        ensures bare { IsBare 0 result }
    {
        RowView::unmodified(Source::Inserted(row))
    }

    /// A row as it comes.
    #[inline(always)]
    fn unmodified(source: Source<'a>) -> RowView<'a>
        ensures row { row_of result ≡ source_row source.entry }
        ensures over { (base : List Cells) → row_over base result ≡ source_over base source.entry }
        ensures bare { IsBare 0 result }
    {
        RowView {
            source,
            read: Modifies::Nothing,
            write: Modifies::Nothing,
            trans: Modifies::Nothing,
        }
    }

    /// The row with what a layer modifies of it.
    #[inline(always)]
    pub(crate) fn modified_in(self, layer: Layer, modifies: Modifies<'a>) -> RowView<'a>
        requires { IsBare (layer_number layer) self }
        ensures row { row_of result ≡ set_cells (layer_cells modifies.entry) (row_of self.entry) }
        ensures over { (base : List Cells) → row_over base result ≡ set_cells (layer_cells modifies.entry) (row_over base self.entry) }
        ensures bare { IsBare (suc (layer_number layer)) result }
    {
        match layer {
            Layer::Read => RowView {
                read: modifies,
                ..self
            },
            Layer::Write => RowView {
                write: modifies,
                ..self
            },
            Layer::Trans => RowView {
                trans: modifies,
                ..self
            },
        }
    }
}

const _: () = prove!(size_of::<RowView<'static>>() <= 96);
