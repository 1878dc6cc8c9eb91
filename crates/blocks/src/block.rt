//! One column's values, up to 1,024 of them, kept by type.
ghost use Rattle.std.specs.Prelude.{◌≡◌, ◌<◌, ◌≤◌, ◌+◌, ◌++◌, ◌∷◌, [], length, map, take, drop, Some, slice_get, IfOk, OnOk, OnErr, IsTrue, IsFalse};
ghost use Rattle.std.specs.List.{All, list_all, list_any};
ghost use Rattle.values.specs.Lent.{value_of};
ghost use Rattle.values.specs.Shape.{has_type, is_too_long};
ghost use Rattle.values.specs.declared.value.ColumnType.TheVariants as column;
ghost use Rattle.values.specs.declared.value.Value.TheVariants.{Int, Text};
ghost use Rattle.values.specs.declared.limits.TheConstants.{MAX_BLOCK_VALUES};
ghost use Rattle.blocks.specs.Cells.{column_of, column_of_values};
ghost use Rattle.blocks.specs.Column.{AllFit};
ghost use Rattle.blocks.specs.Places.{IsPlaceOf, value_at};

use crate::bits::Bits;
use crate::gathering::cells_at;
use crate::ints::Ints;
use crate::texts::Texts;
use std::alloc::Global;
use std::marker::Model;
use values::{ColumnType, NoMemory, Value, ValueRef};

/// The values of a block, each type in the form that suits it.
#[derive(Drop)]
pub(crate) enum Cells {
    Ints(Ints),
    Texts(Texts),
    Truths(Bits),
}

/// A block's values, lent by type: a scan asks for the type once a block, and for no value's.
#[derive(Clone, Copy)]
pub enum BlockValues<'a> {
    Ints(&'a [i64]),
    Texts(&'a Texts),
    Truths(&'a Bits),
}

/// Up to 1,024 values of one type, no text of them above 4,096 bytes. No value has memory of its own.
#[derive(Drop)]
pub struct Block {
    pub(crate) cells: Cells,
}

impl Model for Block {
    ghost use Rattle.blocks.specs.Column.{Column, IsBlock};
    ghost use Rattle.blocks.specs.Cells.{column_of};

    ghost Value = { Column };

    ghost view = { λ b. column_of b.cells };

    ghost invariant = { λ b. IsBlock (column_of b.cells) };
}

impl Block {
    /// A block of the type with no values, which takes them by `push`. It takes no memory.
    pub fn new(alloc: Global, ty: ColumnType) -> Block
        ensures { result ≡ record { ty = ty; values = [] } }
    {
        let cells = match ty {
            ColumnType::Int => Cells::Ints(Ints::new(alloc)),
            ColumnType::Text => Cells::Texts(Texts::new(alloc)),
            ColumnType::Bool => Cells::Truths(Bits::new(alloc)),
        };
        Block { cells }
    }

    /// Puts a value after the others, which are fewer than 1,024. It is of the block's type, and no text above 4,096
    /// bytes.
    ///
    /// # Errors
    ///
    /// `NoMemory` where a growth is refused: the block is as it was.
    #[inline(always)]
    pub fn push(&mut self, value: ValueRef<'_>) -> Result<(), NoMemory>
        requires few { length self.old.values < MAX_BLOCK_VALUES }
        requires typed { IsTrue (has_type self.old.ty (value_of value)) }
        requires short { IsFalse (is_too_long (value_of value)) }
        ensures ok { OnOk result (self.new ≡ record self.old { values = self.old.values ++ value_of value.entry ∷ [] }) }
        ensures err { OnErr result (self.new ≡ self.old) }
    {
        match (&mut self.cells, value) {
            (Cells::Ints(ints), ValueRef::Int(number)) => ints.push(number),
            (Cells::Texts(texts), ValueRef::Text(text)) => texts.push(text),
            (Cells::Truths(truths), ValueRef::Bool(truth)) => truths.push(truth),
            _ => unreachable!(),
        }
    }

    /// Puts so many values of another block of the same type, from one of them on, after these; there are at most 1,024
    /// then.
    ///
    /// # Errors
    ///
    /// `NoMemory` where a growth is refused: the block is as it was.
    pub fn push_run(&mut self, other: &Block, start: usize, count: usize) -> Result<(), NoMemory>
        requires few { length self.old.values + count ≤ MAX_BLOCK_VALUES }
        requires typed { other.now.ty ≡ self.old.ty }
        requires within { start + count ≤ length other.now.values }
        ensures ok { OnOk result (self.new ≡ record self.old { values = self.old.values ++ take count (drop start other.now.values) }) }
        ensures err { OnErr result (self.new ≡ self.old) }
    {
        match (&mut self.cells, &other.cells) {
            (Cells::Ints(ints), Cells::Ints(others)) => ints.push_run(others, start, count),
            (Cells::Texts(texts), Cells::Texts(others)) => texts.push_run(others, start, count),
            (Cells::Truths(truths), Cells::Truths(others)) => truths.push_run(others, start, count),
            _ => unreachable!(),
        }
    }

    /// The values as a block. They are at most 1,024, all of the type, no text of them above 4,096 bytes.
    ///
    /// # Errors
    ///
    /// `NoMemory` where a growth is refused.
    pub fn from_values(alloc: Global, ty: ColumnType, values: &[Value]) -> Result<Block, NoMemory>
        requires few { length values.now ≤ MAX_BLOCK_VALUES }
        requires typed { IsTrue (list_all (has_type ty) values.now) }
        requires short { IsFalse (list_any is_too_long values.now) }
        ensures { IfOk result (λ block. block ≡ record { ty = ty; values = values.now }) }
    {
        let cells = cells_of(alloc, ty, values)?;
        Ok(Block { cells })
    }

    /// The values at these places of blocks that have 1,024 values each but for the last, as a block of their own. They
    /// are at most 1,024, all of the type, no text of them above 4,096 bytes.
    ///
    /// # Errors
    ///
    /// `NoMemory` where a growth is refused.
    pub fn gather(
        alloc: Global,
        ty: ColumnType,
        blocks: &[Block],
        places: &[u32],
    ) -> Result<Block, NoMemory>
        requires few { length places.now ≤ MAX_BLOCK_VALUES }
        requires there { All (IsPlaceOf ty blocks.now) places.now }
        ensures { IfOk result (λ block. block ≡ record { ty = ty; values = map (value_at blocks.now) places.now }) }
    {
        let cells = cells_at(alloc, ty, blocks, places)?;
        Ok(Block { cells })
    }

    /// The type of the values.
    pub fn column_type(&self) -> ColumnType
        ensures { result ≡ self.now.ty }
    {
        match &self.cells {
            Cells::Ints(_) => ColumnType::Int,
            Cells::Texts(_) => ColumnType::Text,
            Cells::Truths(_) => ColumnType::Bool,
        }
    }

    /// How many values there are, at most 1,024.
    pub fn len(&self) -> usize
        ensures len { result ≡ length self.now.values }
        ensures few { result ≤ MAX_BLOCK_VALUES }
        ensures fit { AllFit self.now.ty self.now.values }
    {
        match &self.cells {
            Cells::Ints(ints) => ints.len(),
            Cells::Texts(texts) => texts.len(),
            Cells::Truths(truths) => truths.len(),
        }
    }

    /// The value number `i`, lent.
    #[inline(always)]
    pub fn get(&self, i: usize) -> ValueRef<'_>
        requires { i < length self.now.values }
        ensures { slice_get self.now.values i ≡ Some (value_of result) }
    {
        match &self.cells {
            Cells::Ints(ints) => ValueRef::Int(ints.as_slice()[i]),
            Cells::Texts(texts) => ValueRef::Text(texts.get(i)),
            Cells::Truths(truths) => ValueRef::Bool(truths.get(i)),
        }
    }

    /// The values, lent by type. It takes no memory.
    pub fn values(&self) -> BlockValues<'_>
        ensures { column_of_values result ≡ self.now }
    {
        match &self.cells {
            Cells::Ints(ints) => BlockValues::Ints(ints.as_slice()),
            Cells::Texts(texts) => BlockValues::Texts(texts),
            Cells::Truths(truths) => BlockValues::Truths(truths),
        }
    }

    /// The same block, in memory of its own.
    ///
    /// # Errors
    ///
    /// `NoMemory` where a growth is refused.
    pub fn copy(&self) -> Result<Block, NoMemory>
        ensures { IfOk result (λ copied. copied ≡ self.now) }
    {
        let cells = match &self.cells {
            Cells::Ints(ints) => Cells::Ints(ints.copy()?),
            Cells::Texts(texts) => Cells::Texts(texts.copy()?),
            Cells::Truths(truths) => Cells::Truths(truths.copy()?),
        };
        Ok(Block { cells })
    }
}

/// The values, in the form that suits their type.
fn cells_of(alloc: Global, ty: ColumnType, values: &[Value]) -> Result<Cells, NoMemory>
    requires few { length values.now ≤ MAX_BLOCK_VALUES }
    requires typed { IsTrue (list_all (has_type ty) values.now) }
    requires short { IsFalse (list_any is_too_long values.now) }
    ensures same { IfOk result (λ cells. column_of cells ≡ record { ty = ty; values = values.now }) }
    ensures fit { OnOk result (AllFit ty values.now) }
{
    match ty {
        ColumnType::Int => Ok(Cells::Ints(Ints::of(alloc, ints_of(alloc, values)?))),
        ColumnType::Text => Ok(Cells::Texts(texts_of(alloc, values)?)),
        ColumnType::Bool => Ok(Cells::Truths(Bits::from_values(alloc, values)?)),
    }
}

/// The numbers that the values are.
fn ints_of(alloc: Global, values: &[Value]) -> Result<Vec<i64>, NoMemory>
    requires { IsTrue (list_all (has_type column.Int) values.now) }
    ensures same { IfOk result (λ ints. map Int ints.items ≡ values.now) }
    ensures fit { OnOk result (AllFit column.Int values.now) }
{
    let mut ints = Vec::with_capacity(alloc, values.len())?;
    for value in values {
        match value {
            Value::Int(number) => ints.push(*number)?,
            _ => unreachable!(),
        }
    }
    Ok(ints)
}

/// The texts that the values are, in one buffer.
fn texts_of(alloc: Global, values: &[Value]) -> Result<Texts, NoMemory>
    requires few { length values.now ≤ MAX_BLOCK_VALUES }
    requires typed { IsTrue (list_all (has_type column.Text) values.now) }
    requires short { IsFalse (list_any is_too_long values.now) }
    ensures same { IfOk result (λ texts. map Text texts ≡ values.now) }
    ensures fit { OnOk result (AllFit column.Text values.now) }
{
    let mut texts = Texts::with_room(alloc, values.len(), text_bytes(values))?;
    for value in values {
        match value {
            Value::Text(text) => texts.push(text.as_str())?,
            _ => unreachable!(),
        }
    }
    Ok(texts)
}

/// How many bytes the texts among the values have.
fn text_bytes(values: &[Value]) -> usize
    requires few { length values.now ≤ MAX_BLOCK_VALUES }
    requires short { IsFalse (list_any is_too_long values.now) }
{
    let mut bytes = 0;
    for value in values {
        if let Value::Text(text) = value {
            bytes += text.as_str().len();
        }
    }
    bytes
}
