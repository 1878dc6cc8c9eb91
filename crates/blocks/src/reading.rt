//! A payload, read: the block whose payload the bytes are, or the first fault from the left.
ghost use Rattle.std.specs.Prelude.{◌≡◌, ◌≤◌, ◌+◌, List, length, map, IfOk, Ok};
ghost use Rattle.values.specs.declared.limits.TheConstants.{MAX_BLOCK_VALUES};
ghost use Rattle.values.specs.declared.value.Value.{Value};
ghost use Rattle.values.specs.declared.value.Value.TheVariants.{Int, Text, Bool as Truth};
ghost use Rattle.blocks.specs.Cells.{column_of};
ghost use Rattle.blocks.specs.Laws.{IsPayload};
ghost use Rattle.blocks.specs.Reading.{Gives, number_of, reading_of, ints_at, texts_at, truths_of, text_at};

use crate::bits::{Bits, byte_count, has_set_padding};
use crate::block::{Block, Cells};
use crate::fault::BlockFault;
use crate::ints::Ints;
use crate::texts::Texts;
use std::alloc::Global;
use std::cmp::min;
use values::limits::MAX_TEXT_BYTES;
use values::{ColumnType, NoMemory};

/// The block of `count` values, at most 1,024, whose payload the bytes are. Memory is taken for what the bytes hold, and
/// not for what they claim.
///
/// # Errors
///
/// The first fault from the left, where the bytes are the payload of no such block, or `NoMemory` where a growth is
/// refused.
pub fn read_block(
    alloc: Global,
    ty: ColumnType,
    count: usize,
    bytes: &[u8],
) -> Result<Block, BlockFault>
    requires { count ≤ MAX_BLOCK_VALUES }
    // What is read is spelled so.
    ensures found { IfOk result (λ block. (block.ty ≡ ty) × IsPayload ty count bytes.now block.values) }
    // What is spelled so is read, unless memory runs out.
    ensures only { (values : List Value) → IsPayload ty count bytes.now values → Gives (λ block. block.values) result (Ok values) }
    // Which fault it is.
    ensures first { Gives (λ block. block.values) result (reading_of ty count bytes.now) }
{
    let cells = read_cells(alloc, ty, count, bytes)?;
    Ok(Block { cells })
}

/// So many values of the type, in the form that suits it.
fn read_cells(
    alloc: Global,
    ty: ColumnType,
    count: usize,
    bytes: &[u8],
) -> Result<Cells, BlockFault>
    requires { count ≤ MAX_BLOCK_VALUES }
    ensures ty { IfOk result (λ cells. (column_of cells).ty ≡ ty) }
    ensures first { Gives (λ cells. (column_of cells).values) result (reading_of ty count bytes.now) }
{
    match ty {
        ColumnType::Int => Ok(Cells::Ints(Ints::of(alloc, read_ints(alloc, count, bytes)?))),
        ColumnType::Text => Ok(Cells::Texts(read_texts(alloc, count, bytes)?)),
        ColumnType::Bool => Ok(Cells::Truths(read_truths(alloc, count, bytes)?)),
    }
}

/// So many numbers, eight bytes each.
#[tactic(auto, unfolding(crate::specs::Reading::ints_at))]
fn read_ints(alloc: Global, count: usize, bytes: &[u8]) -> Result<Vec<i64>, BlockFault>
    requires { count ≤ MAX_BLOCK_VALUES }
    ensures few { IfOk result (λ ints. length ints.items ≤ count) }
    ensures first { Gives (λ ints. map Int ints.items) result (ints_at 0 count bytes.now) }
{
    let (words, _) = bytes.as_chunks::<8>();
    if words.len() < count {
        return Err(BlockFault::Short(8 * words.len()));
    }
    if bytes.len() > 8 * count {
        return Err(BlockFault::Long(8 * count));
    }
    Ok(ints_of(alloc, words)?)
}

/// The numbers that the words spell.
fn ints_of(alloc: Global, words: &[[u8; 8]]) -> Result<Vec<i64>, NoMemory>
    ensures { IfOk result (λ ints. ints.items ≡ map number_of words.now) }
{
    Ok(
        words
            .iter()
            .map(|word| i64::from_be_bytes(*word))
            .collect(alloc)?,
    )
}

/// So many texts, each after its length.
#[tactic(auto, unfolding(crate::specs::Reading::texts_at))]
fn read_texts(alloc: Global, count: usize, bytes: &[u8]) -> Result<Texts, BlockFault>
    requires { count ≤ MAX_BLOCK_VALUES }
    ensures { Gives (λ texts. map Text texts) result (texts_at 0 0 count bytes.now) }
{
    let room = min(count, bytes.len() / 2);
    let mut texts = Texts::with_room(alloc, room, bytes.len() - 2 * room)?;
    let mut rest = bytes;
    for i in 0..count {
        let (text, after) = text_at(i, bytes.len() - rest.len(), rest)?;
        texts.push(text)?;
        rest = after;
    }
    if !rest.is_empty() {
        return Err(BlockFault::Long(bytes.len() - rest.len()));
    }
    Ok(texts)
}

/// The text number `i`, which begins at this offset, and the bytes after it.
#[tactic(auto, unfolding(crate::specs::Reading::text_at))]
fn text_at(i: usize, at: usize, bytes: &[u8]) -> Result<(&str, &[u8]), BlockFault>
    ensures { Gives (λ found. (found.0.now, found.1.now)) result (text_at i at bytes.now) }
{
    let Some((length, rest)) = bytes.split_first_chunk::<2>() else {
        return Err(BlockFault::Short(at));
    };
    let length = u16::from_be_bytes(*length) as usize;
    if length > MAX_TEXT_BYTES {
        return Err(BlockFault::TextTooLong(i));
    }
    if rest.len() < length {
        return Err(BlockFault::Short(at));
    }
    let (text, after) = rest.split_at(length);
    match str::from_utf8(text) {
        Ok(text) => Ok((text, after)),
        Err(_) => Err(BlockFault::BadText(i)),
    }
}

/// So many truths, eight a byte.
#[tactic(auto, unfolding(crate::specs::Reading::truths_of))]
fn read_truths(alloc: Global, count: usize, bytes: &[u8]) -> Result<Bits, BlockFault>
    requires { count ≤ MAX_BLOCK_VALUES }
    ensures { Gives (λ truths. map Truth truths) result (truths_of count bytes.now) }
{
    let needed = byte_count(count);
    if bytes.len() < needed {
        return Err(BlockFault::Short(0));
    }
    if bytes.len() > needed {
        return Err(BlockFault::Long(needed));
    }
    if has_set_padding(count, bytes) {
        return Err(BlockFault::BadPadding);
    }
    Ok(Bits::of_payload(alloc, count, bytes)?)
}
