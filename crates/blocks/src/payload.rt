//! A block's payload, written.
ghost use Rattle.std.specs.Prelude.{◌≡◌, ◌<◌, ◌≤◌, ◌*◌, ◌++◌, length, map, take, OnOk, OnErr};
ghost use Rattle.values.specs.declared.limits.TheConstants.{MAX_BLOCK_VALUES};
ghost use Rattle.values.specs.declared.value.Value.TheVariants.{Int, Text};
ghost use Rattle.blocks.specs.Payload.{payload_of, spelling};
ghost use Rattle.std.specs.List.{flat_map};

use crate::block::{Block, Cells};
use crate::texts::Texts;
use values::NoMemory;

/// Appends the block's payload, and no other byte. With `NoMemory` the bytes are as they were.
///
/// # Errors
///
/// `NoMemory` where a growth is refused.
pub fn write_block(block: &Block, out: &mut Vec<u8>) -> Result<(), NoMemory>
    ensures ok { OnOk result (out.new.items ≡ out.old.items ++ payload_of block.now.ty block.now.values) }
    ensures err { OnErr result (out.new.items ≡ out.old.items) }
{
    match &block.cells {
        Cells::Ints(ints) => write_ints(ints.as_slice(), out),
        Cells::Texts(texts) => write_texts(texts, texts.len(), out),
        Cells::Truths(truths) => Ok(out.extend_from_slice(truths.as_bytes())?),
    }
}

/// Appends the payload of the block's first value, and no other byte. With `NoMemory` the bytes are as they were.
pub(crate) fn write_first(block: &Block, out: &mut Vec<u8>) -> Result<(), NoMemory>
    requires { 0 < length block.now.values }
    ensures ok { OnOk result (out.new.items ≡ out.old.items ++ payload_of block.now.ty (take 1 block.now.values)) }
    ensures err { OnErr result (out.new.items ≡ out.old.items) }
{
    match &block.cells {
        Cells::Ints(ints) => write_ints(&ints.as_slice()[..1], out),
        Cells::Texts(texts) => write_texts(texts, 1, out),
        Cells::Truths(truths) => Ok(out.push(if truths.get(0) { 0x80 } else { 0 })?),
    }
}

/// Appends the numbers, eight bytes each.
fn write_ints(ints: &[i64], out: &mut Vec<u8>) -> Result<(), NoMemory>
    ensures ok { OnOk result (out.new.items ≡ out.old.items ++ flat_map spelling (map Int ints.now)) }
    ensures err { OnErr result (out.new.items ≡ out.old.items) }
{
    let from = out.len();
    out.resize(from + 8 * ints.len(), 0)?;
    spell_ints(&mut out[from..], ints);
    Ok(())
}

/// Fills the room with the numbers, eight bytes each. The room is as long as they are.
fn spell_ints(room: &mut [u8], ints: &[i64])
    requires { length room.old ≡ 8 * length ints.now }
    ensures { room.new ≡ flat_map spelling (map Int ints.now) }
{
    for (i, int) in ints.iter().enumerate() {
        room[8 * i..8 * i + 8].copy_from_slice(&int.to_be_bytes());
    }
}

/// Appends the first `count` texts, each after its length.
fn write_texts(texts: &Texts, count: usize, out: &mut Vec<u8>) -> Result<(), NoMemory>
    requires there { count ≤ length texts.now }
    requires few { count ≤ MAX_BLOCK_VALUES }
    ensures ok { OnOk result (out.new.items ≡ out.old.items ++ flat_map spelling (map Text (take count texts.now))) }
    ensures err { OnErr result (out.new.items ≡ out.old.items) }
{
    let before = out.len();
    let written = append_texts(texts, count, out);
    if written.is_err() {
        out.truncate(before);
    }
    written
}

/// Appends the first `count` texts, or with `NoMemory` some bytes in their place.
fn append_texts(texts: &Texts, count: usize, out: &mut Vec<u8>) -> Result<(), NoMemory>
    requires there { count ≤ length texts.now }
    requires few { count ≤ MAX_BLOCK_VALUES }
    ensures ok { OnOk result (out.new.items ≡ out.old.items ++ flat_map spelling (map Text (take count texts.now))) }
    ensures kept { take (length out.old.items) out.new.items ≡ out.old.items }
{
    out.reserve(2 * count + texts.byte_len(count))?;
    for i in 0..count {
        let text = texts.get(i);
        out.extend_from_slice(&(text.len() as u16).to_be_bytes())?;
        out.extend_from_slice(text.as_bytes())?;
    }
    Ok(())
}
