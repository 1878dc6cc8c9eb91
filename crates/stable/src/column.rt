//! One column of a table, in blocks of 1,024 values.
ghost use Rattle.std.specs.Prelude.{◌≡◌, ℕ, true, false, ◌<◌, ◌≤◌, ◌+◌, ◌*◌, ◌%◌, ◌^◌, ◌++◌, ◌∷◌, [], length, take, drop, Some, slice_get, IfOk, OnOk, OnErr, IsTrue, IsFalse};
ghost use Rattle.std.specs.List.{All};
ghost use Rattle.std.specs.List.Sorted.{IsPartitionedBy, IsPartitionPoint};
ghost use Rattle.values.specs.declared.limits.TheConstants.{MAX_BLOCK_VALUES};
ghost use Rattle.values.specs.Lent.{value_of};
ghost use Rattle.values.specs.Shape.{has_type, is_too_long};
ghost use Rattle.values.specs.declared.value.ColumnType.TheVariants as column;
ghost use Rattle.stable.specs.Column.{IsInBlocks, all_blocks, all_may_stand, block_at, is_below, joined};
ghost use Rattle.stable.specs.Rows.{gathered};

use crate::halving::count_below;
use blocks::Block;
use std::alloc::Global;
use std::marker::Model;
use values::limits::MAX_BLOCK_VALUES;
use values::{ColumnType, NoMemory, ValueRef};

/// The values of one column, all of one type, no text of them above 4,096 bytes.
#[derive(Drop)]
pub struct Column {
    ty: ColumnType,
    /// Each but the last has 1,024 values, so that a value is found by its number.
    blocks: Vec<Block>,
    /// How many values there are.
    count: usize,
    alloc: Global,
}

impl Model for Column {
    ghost use Rattle.blocks.specs.Column.{Column as Values};
    ghost use Rattle.stable.specs.Column.{joined, IsColumn};

    ghost Value = { Values };

    ghost view = { λ c. record { ty = c.ty; values = joined c.blocks.items } };

    ghost invariant = { λ c. IsColumn c.ty c.count c.blocks.items };
}

impl Column {
    /// A column of the type with no values. It takes no memory.
    pub fn new(alloc: Global, ty: ColumnType) -> Column
        ensures { result ≡ record { ty = ty; values = [] } }
    {
        Column {
            ty,
            blocks: Vec::new(alloc),
            count: 0,
            alloc,
        }
    }

    /// Puts a value after the others, which are fewer than 2^63. It is of the column's type, and no text above 4,096
    /// bytes.
    ///
    /// # Errors
    ///
    /// `NoMemory` where a growth is refused: the column is as it was.
    #[inline(always)]
    pub fn push(&mut self, value: ValueRef<'_>) -> Result<(), NoMemory>
        requires room { length self.old.values < 2 ^ 63 }
        requires typed { IsTrue (has_type self.old.ty (value_of value)) }
        requires short { IsFalse (is_too_long (value_of value)) }
        ensures ok { OnOk result (self.new ≡ record self.old { values = self.old.values ++ value_of value.entry ∷ [] }) }
        ensures err { OnErr result (self.new ≡ self.old) }
    {
        let Column {
            ty,
            blocks,
            count,
            alloc,
        } = self;
        add_value(*alloc, *ty, blocks, *count, value)?;
        *count += 1;
        Ok(())
    }

    /// Puts the values of a block after the others, which are fewer than 2^63 and fill their blocks. The block is of the
    /// column's type and has a value at least; no value is copied.
    ///
    /// # Errors
    ///
    /// `NoMemory` where a growth is refused: the column is as it was.
    pub fn push_block(&mut self, block: Block) -> Result<(), NoMemory>
        requires room { length self.old.values < 2 ^ 63 }
        requires typed { block.ty ≡ self.old.ty }
        requires filled { length self.old.values % MAX_BLOCK_VALUES ≡ 0 }
        requires some { 0 < length block.values }
        ensures ok { OnOk result (self.new ≡ record self.old { values = self.old.values ++ block.values }) }
        ensures err { OnErr result (self.new ≡ self.old) }
    {
        let more = block.len();
        self.blocks.push(block)?;
        self.count += more;
        Ok(())
    }

    /// Puts so many values of a block of the same type, from one of them on, after the others, which are fewer than 2^63.
    /// They are one at least, and the others' last block has room for them, or is full.
    ///
    /// # Errors
    ///
    /// `NoMemory` where a growth is refused: the column is as it was.
    fn push_run(&mut self, block: &Block, start: usize, run: usize) -> Result<(), NoMemory>
        requires room { length self.old.values < 2 ^ 63 }
        requires typed { block.now.ty ≡ self.old.ty }
        requires some { 0 < run }
        requires within { start + run ≤ length block.now.values }
        requires fits { length self.old.values % MAX_BLOCK_VALUES + run ≤ MAX_BLOCK_VALUES }
        ensures ok { OnOk result (self.new ≡ record self.old { values = self.old.values ++ take run (drop start block.now.values) }) }
        ensures err { OnErr result (self.new ≡ self.old) }
    {
        // A block tells with its length that each value fits its type.
        let length = block.len();
        prove!(start + run <= length);
        let Column {
            ty,
            blocks,
            count,
            alloc,
        } = self;
        add_run(*alloc, *ty, blocks, *count, block, start, run)?;
        *count += run;
        Ok(())
    }

    /// Puts so many values of another column of the same type, from one place of it on, after the others; there are fewer
    /// than 2^63 then. They go by runs from one block into another, as far as both reach.
    ///
    /// # Errors
    ///
    /// `NoMemory` where a growth is refused: the first of those values may stand after the others then, and nothing else.
    pub fn extend_from(&mut self, other: &Column, from: usize, count: usize) -> Result<(), NoMemory>
        requires room { length self.old.values + count < 2 ^ 63 }
        requires typed { other.now.ty ≡ self.old.ty }
        requires within { from + count ≤ length other.now.values }
        ensures ok { OnOk result (self.new ≡ record self.old { values = self.old.values ++ take count (drop from other.now.values) }) }
        ensures err { OnErr result ((some : ℕ) × (some ≤ count)
            × (self.new ≡ record self.old { values = self.old.values ++ take some (drop from other.now.values) })) }
    {
        let length = other.len();
        prove!(from + count <= length);
        let mut moved = 0;
        while moved < count {
            let at = from + moved;
            let run = run_len(self.len(), at, count - moved);
            self.push_run(
                other.block(at / MAX_BLOCK_VALUES),
                at % MAX_BLOCK_VALUES,
                run,
            )?;
            moved += run;
        }
        Ok(())
    }

    /// The values at these places, in this order, as a column of their own. Values go from one block into another, block
    /// by block.
    ///
    /// # Errors
    ///
    /// `NoMemory` where a growth is refused.
    pub fn gather(&self, places: &[u32]) -> Result<Column, NoMemory>
        requires few { length places.now < 2 ^ 63 }
        requires within { All (λ place. place < length self.now.values) places.now }
        ensures { IfOk result (λ column. column ≡ gathered places.now self.now) }
    {
        let mut gathered = Column::new(self.alloc, self.ty);
        for number in 0..places.len().div_ceil(MAX_BLOCK_VALUES) {
            let from = MAX_BLOCK_VALUES * number;
            let to = places.len().min(from + MAX_BLOCK_VALUES);
            let part = &places[from..to];
            let block = Block::gather(self.alloc, self.ty, self.blocks.as_slice(), part)?;
            gathered.push_block(block)?;
        }
        Ok(gathered)
    }

    /// The type of the values.
    pub fn column_type(&self) -> ColumnType
        ensures { result ≡ self.now.ty }
    {
        self.ty
    }

    /// How many values there are.
    pub fn len(&self) -> usize
        ensures count { result ≡ length self.now.values }
        ensures fit { all_may_stand self.now.ty self.now.values }
    {
        self.count
    }

    /// The value number `i`, lent, in constant time.
    #[inline(always)]
    pub fn get(&self, i: usize) -> ValueRef<'_>
        requires { i < length self.now.values }
        ensures { slice_get self.now.values i ≡ Some (value_of result) }
    {
        self.blocks[i / MAX_BLOCK_VALUES].get(i % MAX_BLOCK_VALUES)
    }

    /// The block number `i`, lent, in constant time: its values are those from `1024 * i` on, up to 1,024 of them.
    pub fn block(&self, i: usize) -> &Block
        requires { MAX_BLOCK_VALUES * i < length self.now.values }
        ensures { result.now ≡ block_at self.now.ty self.now.values i }
    {
        &self.blocks[i]
    }

    /// How many of the values, which are numbers and ascend, are below this one. Found by halving, the block first.
    pub(crate) fn count_below(&self, number: i64) -> usize
        requires typed { self.now.ty ≡ column.Int }
        requires parted { IsPartitionedBy (is_below number) self.now.values }
        ensures few { result ≤ length self.now.values }
        ensures point { IsPartitionPoint (λ v. is_below number v ≡ true) (λ v. is_below number v ≡ false) self.now.values result }
    {
        // A column tells with its length that each place is a usize.
        let _length = self.len();
        count_below(self.blocks.as_slice(), number)
    }
}

/// Puts a value into the last of the blocks of so many values, or into a new one where that is full.
#[inline(always)]
fn add_value(
    alloc: Global,
    ty: ColumnType,
    blocks: &mut Vec<Block>,
    count: usize,
    value: ValueRef<'_>,
) -> Result<(), NoMemory>
    requires kept { IsInBlocks ty count blocks.old.items }
    requires typed { IsTrue (has_type ty (value_of value)) }
    requires short { IsFalse (is_too_long (value_of value)) }
    ensures ok { OnOk result (blocks.new.items ≡ all_blocks ty (joined blocks.old.items ++ value_of value.entry ∷ [])) }
    ensures err { OnErr result (blocks.new.items ≡ blocks.old.items) }
{
    if count % MAX_BLOCK_VALUES == 0 {
        Ok(blocks.push(block_of(alloc, ty, value)?)?)
    } else {
        blocks[count / MAX_BLOCK_VALUES].push(value)
    }
}

/// A block of one value.
fn block_of(alloc: Global, ty: ColumnType, value: ValueRef<'_>) -> Result<Block, NoMemory>
    requires typed { IsTrue (has_type ty (value_of value)) }
    requires short { IsFalse (is_too_long (value_of value)) }
    ensures { IfOk result (λ block. block ≡ record { ty = ty; values = value_of value.entry ∷ [] }) }
{
    let mut block = Block::new(alloc, ty);
    block.push(value)?;
    Ok(block)
}

/// How many values go at once after so many, from this place of a column on, where so many are left: as many as the last
/// block has room for and the block of that place has.
fn run_len(count: usize, at: usize, left: usize) -> usize
    requires { 0 < left }
    ensures some { 0 < result }
    ensures left { result ≤ left }
    ensures fits { count % MAX_BLOCK_VALUES + result ≤ MAX_BLOCK_VALUES }
    ensures there { at % MAX_BLOCK_VALUES + result ≤ MAX_BLOCK_VALUES }
{
    let room = MAX_BLOCK_VALUES - count % MAX_BLOCK_VALUES;
    let there = MAX_BLOCK_VALUES - at % MAX_BLOCK_VALUES;
    room.min(there).min(left)
}

/// Puts so many values of a block, from one of them on, into the last of the blocks of so many values, or into a new one
/// where that is full.
fn add_run(
    alloc: Global,
    ty: ColumnType,
    blocks: &mut Vec<Block>,
    count: usize,
    block: &Block,
    start: usize,
    run: usize,
) -> Result<(), NoMemory>
    requires kept { IsInBlocks ty count blocks.old.items }
    requires typed { block.now.ty ≡ ty }
    requires some { 0 < run }
    requires within { start + run ≤ length block.now.values }
    requires fits { count % MAX_BLOCK_VALUES + run ≤ MAX_BLOCK_VALUES }
    ensures ok { OnOk result (blocks.new.items ≡ all_blocks ty (joined blocks.old.items ++ take run (drop start block.now.values))) }
    ensures err { OnErr result (blocks.new.items ≡ blocks.old.items) }
{
    if count % MAX_BLOCK_VALUES == 0 {
        Ok(blocks.push(run_of(alloc, ty, block, start, run)?)?)
    } else {
        blocks[count / MAX_BLOCK_VALUES].push_run(block, start, run)
    }
}

/// A block of so many values of another, from one of them on.
fn run_of(
    alloc: Global,
    ty: ColumnType,
    block: &Block,
    start: usize,
    run: usize,
) -> Result<Block, NoMemory>
    requires typed { block.now.ty ≡ ty }
    requires few { run ≤ MAX_BLOCK_VALUES }
    requires within { start + run ≤ length block.now.values }
    ensures { IfOk result (λ made. made ≡ record { ty = ty; values = take run (drop start block.now.values) }) }
{
    let mut made = Block::new(alloc, ty);
    made.push_run(block, start, run)?;
    Ok(made)
}
