//! Payloads of format 2: a byte that names the encoding, and its rest. Two values or more that are all equal are stored
//! as one of them, the constant form.
ghost use Rattle.std.specs.Prelude.{◌≡◌, ◌<◌, ◌≤◌, ◌+◌, ◌^◌, ◌++◌, ◌∷◌, [], List, length, IfOk, OnOk, OnErr, Ok};
ghost use Rattle.values.specs.declared.limits.TheConstants.{MAX_BLOCK_VALUES};
ghost use Rattle.values.specs.declared.value.Value.{Value};
ghost use Rattle.blocks.specs.Column.{AllFit};
ghost use Rattle.blocks.specs.Encoding.{is_constant, encoded_of, offset_of, one_later, behind, copies_of, plain_of, constant_of, decoding_of, IsEncoded};
ghost use Rattle.blocks.specs.Laws.{IsPayload};
ghost use Rattle.blocks.specs.Reading.{Gives, reading_of};

use crate::block::Block;
use crate::fault::BlockFault;
use crate::payload::{write_block, write_first};
use crate::reading::read_block;
use std::alloc::Global;
use values::{ColumnType, NoMemory};

/// The rest is the payload of the values.
pub(crate) const PLAIN: u8 = 0;

/// The rest is the payload of one value, and all are equal to it.
pub(crate) const CONSTANT: u8 = 1;

/// Appends the block's payload in format 2, and no other byte: two values or more that are all equal in the constant form,
/// and others plain. With `NoMemory` the bytes are as they were.
///
/// # Errors
///
/// `NoMemory` where a growth is refused.
pub fn write_block2(block: &Block, out: &mut Vec<u8>) -> Result<(), NoMemory>
    ensures ok { OnOk result (out.new.items ≡ out.old.items ++ encoded_of block.now.ty block.now.values) }
    ensures err { OnErr result (out.new.items ≡ out.old.items) }
{
    let before = out.len();
    let is_constant = is_constant(block);
    out.push(if is_constant { CONSTANT } else { PLAIN })?;
    let written = if is_constant {
        write_first(block, out)
    } else {
        write_block(block, out)
    };
    if written.is_err() {
        out.truncate(before);
    }
    written
}

/// Whether the block has two values or more, all equal.
fn is_constant(block: &Block) -> bool
    ensures { result ≡ is_constant block.now.values }
{
    if block.len() < 2 {
        return false;
    }
    let first = block.get(0);
    for i in 0..block.len() {
        if first != block.get(i) {
            return false;
        }
    }
    true
}

/// The block of `count` values, at most 1,024, whose payload in format 2 the bytes are. Memory is taken for the values,
/// and not for what the bytes claim.
///
/// # Errors
///
/// `Short(0)` where there is no byte; `BadEncoding` where the first names no encoding, or the constant form for fewer than
/// two values; then the first fault of what comes after it, whose offsets count that byte too; `BadEncoding` where two
/// values or more that are all equal are plain. `NoMemory` where a growth is refused.
pub fn read_block2(
    alloc: Global,
    ty: ColumnType,
    count: usize,
    bytes: &[u8],
) -> Result<Block, BlockFault>
    requires { count ≤ MAX_BLOCK_VALUES }
    // What is read is stored so.
    ensures found { IfOk result (λ block. (block.ty ≡ ty) × IsEncoded ty count bytes.now block.values) }
    // What is stored so is read, unless memory runs out.
    ensures only { (values : List Value) → IsEncoded ty count bytes.now values → Gives (λ block. block.values) result (Ok values) }
    // Which fault it is.
    ensures first { Gives (λ block. block.values) result (decoding_of ty count bytes.now) }
{
    decode(alloc, ty, count, bytes)
}

/// The same, by its tests.
fn decode(alloc: Global, ty: ColumnType, count: usize, bytes: &[u8]) -> Result<Block, BlockFault>
    requires { count ≤ MAX_BLOCK_VALUES }
    ensures ty { IfOk result (λ block. block.ty ≡ ty) }
    ensures first { Gives (λ block. block.values) result (decoding_of ty count bytes.now) }
{
    let Some((encoding, rest)) = bytes.split_first() else {
        return Err(BlockFault::Short(0));
    };
    if *encoding == PLAIN {
        decode_plain(alloc, ty, count, rest)
    } else if *encoding == CONSTANT {
        decode_constant(alloc, ty, count, rest)
    } else {
        Err(BlockFault::BadEncoding)
    }
}

/// The block of so many values whose payload the bytes behind the first are. They aren't two or more that are all equal.
fn decode_plain(
    alloc: Global,
    ty: ColumnType,
    count: usize,
    rest: &[u8],
) -> Result<Block, BlockFault>
    requires few { count ≤ MAX_BLOCK_VALUES }
    requires behind { length rest.now + 1 < 2 ^ 64 }
    ensures ty { IfOk result (λ block. block.ty ≡ ty) }
    ensures first { Gives (λ block. block.values) result (plain_of ty count rest.now) }
{
    let block = read_behind(alloc, ty, count, rest)?;
    if is_constant(&block) {
        return Err(BlockFault::BadEncoding);
    }
    Ok(block)
}

/// The block of so many values, two or more, that are all the one whose payload the bytes behind the first are.
fn decode_constant(
    alloc: Global,
    ty: ColumnType,
    count: usize,
    rest: &[u8],
) -> Result<Block, BlockFault>
    requires few { count ≤ MAX_BLOCK_VALUES }
    requires behind { length rest.now + 1 < 2 ^ 64 }
    ensures ty { IfOk result (λ block. block.ty ≡ ty) }
    ensures first { Gives (λ block. block.values) result (constant_of ty count rest.now) }
{
    if count < 2 {
        return Err(BlockFault::BadEncoding);
    }
    let one = read_behind(alloc, ty, 1, rest)?;
    Ok(repeat(alloc, &one, count)?)
}

/// The block of so many values whose payload the bytes are, which are behind one more.
fn read_behind(
    alloc: Global,
    ty: ColumnType,
    count: usize,
    rest: &[u8],
) -> Result<Block, BlockFault>
    requires few { count ≤ MAX_BLOCK_VALUES }
    requires behind { length rest.now + 1 < 2 ^ 64 }
    ensures found { IfOk result (λ block. (block.ty ≡ ty) × IsPayload ty count rest.now block.values) }
    ensures first { Gives (λ block. block.values) result (behind (reading_of ty count rest.now)) }
{
    match read_block(alloc, ty, count, rest) {
        Ok(block) => Ok(block),
        Err(fault) => Err(one_later(fault)),
    }
}

/// The fault behind one more byte.
fn one_later(fault: BlockFault) -> BlockFault
    requires { offset_of fault + 1 < 2 ^ 64 }
    ensures { result ≡ one_later fault }
{
    match fault {
        BlockFault::Short(at) => BlockFault::Short(at + 1),
        BlockFault::Long(at) => BlockFault::Long(at + 1),
        fault => fault,
    }
}

/// A block of so many times the block's one value.
///
/// # Errors
///
/// `NoMemory` where a growth is refused.
fn repeat(alloc: Global, one: &Block, count: usize) -> Result<Block, NoMemory>
    requires one { length one.now.values ≡ 1 }
    requires fit { AllFit one.now.ty one.now.values }
    requires few { count ≤ MAX_BLOCK_VALUES }
    ensures { IfOk result (λ block. block ≡ record { ty = one.now.ty; values = copies_of count one.now.values }) }
{
    let mut block = Block::new(alloc, one.column_type());
    let value = one.get(0);
    for _ in 0..count {
        block.push(value)?;
    }
    Ok(block)
}
