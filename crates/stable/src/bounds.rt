//! The bound of a cell among ascending values of a column, which is where those end that are below it: the block first,
//! then the place in it. A range of a block is halved by its type, so that no value is lent for a step.
ghost use Rattle.std.specs.Prelude.{◌≡◌, ℕ, ◌<◌, ◌≤◌, ◌/◌, ◌*◌, ◌+◌, true, false, length, map};
ghost use Rattle.values.specs.Lent.{value_of};
ghost use Rattle.values.specs.declared.limits.TheConstants.{MAX_BLOCK_VALUES};
ghost use Rattle.values.specs.declared.value.Value.TheVariants.{Int, Text, Bool as Truth};
ghost use Rattle.stable.specs.Bounds.{IsBracket, IsParted, is_before, value_at};

use crate::column::Column;
use blocks::{Bits, Block, BlockValues, Texts};
use values::limits::MAX_BLOCK_VALUES;
use values::{Value, ValueRef};

/// Where those values of a range end that are below a cell, of whatever type. Takes no memory.
pub(crate) fn bound(column: &Column, start: usize, stop: usize, cell: &Value) -> usize
    requires ordered { start ≤ stop }
    requires within { stop ≤ length column.now.values }
    requires parted { IsParted cell.now column.now.values start stop }
    ensures { IsBracket cell.now column.now.values start stop result result }
{
    if start == stop {
        return start;
    }
    // A column tells with its length that each place is a usize.
    let length = column.len();
    prove!(stop <= length);
    let number = block_of(column, start, stop, cell);
    let first = MAX_BLOCK_VALUES * number;
    let low = start.max(first) - first;
    let high = (stop - first).min(MAX_BLOCK_VALUES);
    first + bound_in(column.block(number), low, high, cell)
}

/// The block that has the bound of a range: of those that begin in it, the last whose first value is below the cell, and
/// else the one in which the range begins.
fn block_of(column: &Column, start: usize, stop: usize, cell: &Value) -> usize
    requires some { start < stop }
    requires within { stop ≤ length column.now.values }
    requires parted { IsParted cell.now column.now.values start stop }
    ensures begun { start / MAX_BLOCK_VALUES ≤ result }
    ensures there { MAX_BLOCK_VALUES * result < stop }
    ensures before { (k : ℕ) → start ≤ k → k < MAX_BLOCK_VALUES * result
        → is_before cell.now (value_at column.now.values k) ≡ true }
    ensures past { (k : ℕ) → MAX_BLOCK_VALUES * result + MAX_BLOCK_VALUES ≤ k → k < stop
        → is_before cell.now (value_at column.now.values k) ≡ false }
{
    let mut first = start / MAX_BLOCK_VALUES;
    let mut after = stop.div_ceil(MAX_BLOCK_VALUES);
    while first + 1 < after {
        let middle = first + (after - first) / 2;
        if is_before(column, MAX_BLOCK_VALUES * middle, cell) {
            first = middle;
        } else {
            after = middle;
        }
    }
    first
}

/// Whether the value at a place is below a cell.
fn is_before(column: &Column, place: usize, cell: &Value) -> bool
    requires { place < length column.now.values }
    ensures { result ≡ is_before cell.now (value_at column.now.values place) }
{
    column.get(place).cmp(&cell.as_ref()).is_lt()
}

/// The bound in a range of a block. Values of another type than the cell's are all on one side of it.
fn bound_in(block: &Block, start: usize, stop: usize, cell: &Value) -> usize
    requires ordered { start ≤ stop }
    requires within { stop ≤ length block.now.values }
    requires parted { IsParted cell.now block.now.values start stop }
    ensures { IsBracket cell.now block.now.values start stop result result }
{
    match (block.values(), cell) {
        (BlockValues::Ints(numbers), Value::Int(number)) => {
            bound_of_number(numbers, start, stop, number)
        }
        (BlockValues::Texts(texts), Value::Text(text)) => {
            bound_of_text(texts, start, stop, text.as_str())
        }
        (BlockValues::Truths(truths), Value::Bool(truth)) => {
            bound_of_truth(truths, start, stop, truth)
        }
        _ => bound_of_cell(block, start, stop, cell.as_ref()),
    }
}

/// The bound of a number.
fn bound_of_number(numbers: &[i64], start: usize, stop: usize, number: &i64) -> usize
    requires ordered { start ≤ stop }
    requires within { stop ≤ length numbers.now }
    requires parted { IsParted (Int number.now) (map Int numbers.now) start stop }
    ensures { IsBracket (Int number.now) (map Int numbers.now) start stop result result }
{
    let mut low = start;
    let mut high = stop;
    while low < high {
        let middle = low + (high - low) / 2;
        if numbers[middle].cmp(number).is_lt() {
            low = middle + 1;
        } else {
            high = middle;
        }
    }
    low
}

/// The bound of a text.
fn bound_of_text(texts: &Texts, start: usize, stop: usize, text: &str) -> usize
    requires ordered { start ≤ stop }
    requires within { stop ≤ length texts.now }
    requires parted { IsParted (Text text.now) (map Text texts.now) start stop }
    ensures { IsBracket (Text text.now) (map Text texts.now) start stop result result }
{
    let mut low = start;
    let mut high = stop;
    while low < high {
        let middle = low + (high - low) / 2;
        if texts.get(middle).cmp(text).is_lt() {
            low = middle + 1;
        } else {
            high = middle;
        }
    }
    low
}

/// The bound of a truth.
fn bound_of_truth(truths: &Bits, start: usize, stop: usize, truth: &bool) -> usize
    requires ordered { start ≤ stop }
    requires within { stop ≤ length truths.now }
    requires parted { IsParted (Truth truth.now) (map Truth truths.now) start stop }
    ensures { IsBracket (Truth truth.now) (map Truth truths.now) start stop result result }
{
    let mut low = start;
    let mut high = stop;
    while low < high {
        let middle = low + (high - low) / 2;
        if truths.get(middle).cmp(truth).is_lt() {
            low = middle + 1;
        } else {
            high = middle;
        }
    }
    low
}

/// The bound of a cell of another type than the values.
fn bound_of_cell(block: &Block, start: usize, stop: usize, cell: ValueRef<'_>) -> usize
    requires ordered { start ≤ stop }
    requires within { stop ≤ length block.now.values }
    requires parted { IsParted (value_of cell) block.now.values start stop }
    ensures { IsBracket (value_of cell.entry) block.now.values start stop result result }
{
    let mut low = start;
    let mut high = stop;
    while low < high {
        let middle = low + (high - low) / 2;
        if block.get(middle).cmp(&cell).is_lt() {
            low = middle + 1;
        } else {
            high = middle;
        }
    }
    low
}
