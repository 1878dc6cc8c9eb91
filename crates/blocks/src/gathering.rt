//! Values gathered from their places in blocks of 1,024 values, type by type.
ghost use Rattle.std.specs.Prelude.{◌≡◌, ◌≤◌, length, map, IfOk, OnOk};
ghost use Rattle.std.specs.List.{All};
ghost use Rattle.values.specs.Lent.{value_of};
ghost use Rattle.values.specs.declared.value.ColumnType.{ColumnType as Kind};
ghost use Rattle.values.specs.declared.value.ColumnType.TheVariants as column;
ghost use Rattle.values.specs.declared.value.Value.TheVariants.{Int, Text, Bool as Truth};
ghost use Rattle.values.specs.declared.limits.TheConstants.{MAX_BLOCK_VALUES};
ghost use Rattle.blocks.specs.Cells.{column_of};
ghost use Rattle.blocks.specs.Column.{AllFit};
ghost use Rattle.blocks.specs.Places.{IsPlaceOf, value_at};

use crate::bits::Bits;
use crate::block::{Block, Cells};
use crate::ints::Ints;
use crate::texts::Texts;
use std::alloc::Global;
use values::limits::MAX_BLOCK_VALUES;
use values::{ColumnType, NoMemory, ValueRef};

/// The values at these places, in the form that suits their type.
pub(crate) fn cells_at(
    alloc: Global,
    ty: ColumnType,
    blocks: &[Block],
    places: &[u32],
) -> Result<Cells, NoMemory>
    requires few { length places.now ≤ MAX_BLOCK_VALUES }
    requires there { All (IsPlaceOf ty blocks.now) places.now }
    ensures same { IfOk result (λ cells. column_of cells ≡ record { ty = ty; values = map (value_at blocks.now) places.now }) }
    ensures fit { OnOk result (AllFit ty (map (value_at blocks.now) places.now)) }
{
    match ty {
        ColumnType::Int => Ok(Cells::Ints(Ints::of(alloc, ints_at(alloc, blocks, places)?))),
        ColumnType::Text => Ok(Cells::Texts(texts_at(alloc, blocks, places)?)),
        ColumnType::Bool => Ok(Cells::Truths(truths_at(alloc, blocks, places)?)),
    }
}

/// The value at a place, lent.
#[inline(always)]
fn value_at(blocks: &[Block], place: u32) -> ValueRef<'_>
    requires { (ty : Kind) × IsPlaceOf ty blocks.now place }
    ensures { value_of result ≡ value_at blocks.now place }
{
    let place = place as usize;
    blocks[place / MAX_BLOCK_VALUES].get(place % MAX_BLOCK_VALUES)
}

/// The numbers at these places.
fn ints_at(alloc: Global, blocks: &[Block], places: &[u32]) -> Result<Vec<i64>, NoMemory>
    requires { All (IsPlaceOf column.Int blocks.now) places.now }
    ensures same { IfOk result (λ ints. map Int ints.items ≡ map (value_at blocks.now) places.now) }
    ensures fit { OnOk result (AllFit column.Int (map (value_at blocks.now) places.now)) }
{
    let mut ints = Vec::with_capacity(alloc, places.len())?;
    for place in places {
        match value_at(blocks, *place) {
            ValueRef::Int(number) => ints.push(number)?,
            _ => unreachable!(),
        }
    }
    Ok(ints)
}

/// The texts at these places, in one buffer.
fn texts_at(alloc: Global, blocks: &[Block], places: &[u32]) -> Result<Texts, NoMemory>
    requires few { length places.now ≤ MAX_BLOCK_VALUES }
    requires there { All (IsPlaceOf column.Text blocks.now) places.now }
    ensures same { IfOk result (λ texts. map Text texts ≡ map (value_at blocks.now) places.now) }
    ensures fit { OnOk result (AllFit column.Text (map (value_at blocks.now) places.now)) }
{
    let mut texts = Texts::with_room(alloc, places.len(), bytes_at(blocks, places))?;
    for place in places {
        match value_at(blocks, *place) {
            ValueRef::Text(text) => texts.push(text)?,
            _ => unreachable!(),
        }
    }
    Ok(texts)
}

/// How many bytes the texts at these places have.
fn bytes_at(blocks: &[Block], places: &[u32]) -> usize
    requires few { length places.now ≤ MAX_BLOCK_VALUES }
    requires there { All (IsPlaceOf column.Text blocks.now) places.now }
{
    let mut bytes = 0;
    for place in places {
        if let ValueRef::Text(text) = value_at(blocks, *place) {
            bytes += text.len();
        }
    }
    bytes
}

/// The truths at these places.
fn truths_at(alloc: Global, blocks: &[Block], places: &[u32]) -> Result<Bits, NoMemory>
    requires few { length places.now ≤ MAX_BLOCK_VALUES }
    requires there { All (IsPlaceOf column.Bool blocks.now) places.now }
    ensures same { IfOk result (λ truths. map Truth truths ≡ map (value_at blocks.now) places.now) }
    ensures fit { OnOk result (AllFit column.Bool (map (value_at blocks.now) places.now)) }
{
    let mut truths = Bits::new(alloc);
    for place in places {
        match value_at(blocks, *place) {
            ValueRef::Bool(truth) => truths.push(truth)?,
            _ => unreachable!(),
        }
    }
    Ok(truths)
}
