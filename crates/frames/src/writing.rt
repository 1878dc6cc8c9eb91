//! A header and a block, written as frames of format 2.
ghost use Rattle.std.specs.Prelude.{◌≡◌, ◌≤◌, ◌-◌, ◌++◌, length, take, drop, OnOk};
ghost use Rattle.std.specs.Int.{w32, to_be_bytes};
ghost use Rattle.frames.specs.Column.{frame_bytes, head_bytes};

use crate::frame::{Format, Frame, Head, Kind, type_byte};
use blocks::{Block, write_block2};
use values::{ColumnType, NoMemory};

/// Appends a header of this type, in format 2.
///
/// # Errors
///
/// `NoMemory` where a growth is refused.
pub fn write_header(ty: ColumnType, out: &mut Vec<u8>) -> Result<(), NoMemory>
    ensures { OnOk result (out.new.items ≡ out.old.items ++ frame_bytes (Frame.Header (record { format = Format.Second; ty = ty }))) }
{
    Ok(out.extend_from_slice(&[b'H', 2, type_byte(ty)])?)
}

/// Appends a block under its numbers, in format 2. The payload is written where it stays.
///
/// # Errors
///
/// `NoMemory` where a growth is refused: some of the bytes may be there then.
pub fn write_part(
    generation: u32,
    number: u32,
    last: bool,
    block: &Block,
    out: &mut Vec<u8>,
) -> Result<(), NoMemory>
    ensures { OnOk result (out.new.items ≡ out.old.items ++ frame_bytes (Frame.Block (record
        { format = Format.Second; generation = generation; number = number; last = last; block = block.now }))) }
{
    let head = Head {
        generation,
        number,
        flag: if last { 1 } else { 0 },
        count: block.len() as u16,
        size: 0,
    };
    write_head(&head, out)?;
    let begin = out.len();
    write_block2(block, out)?;
    // How long the payload is, is known once it stands there.
    let size = (out.len() - begin) as u32;
    set_size(out, begin, size);
    Ok(())
}

/// Appends a block's numbers.
fn write_head(head: &Head, out: &mut Vec<u8>) -> Result<(), NoMemory>
    ensures { OnOk result (out.new.items ≡ out.old.items ++ head_bytes head.now) }
{
    out.push(b'B')?;
    out.extend_from_slice(&head.generation.to_be_bytes())?;
    out.extend_from_slice(&head.number.to_be_bytes())?;
    out.push(head.flag)?;
    out.extend_from_slice(&head.count.to_be_bytes())?;
    out.extend_from_slice(&head.size.to_be_bytes())?;
    Ok(())
}

/// Puts the length of the payload that begins at this place over the four bytes in front of it.
fn set_size(out: &mut Vec<u8>, begin: usize, size: u32)
    requires behind { 4 ≤ begin }
    requires within { begin ≤ length out.old.items }
    ensures { out.new.items ≡ take (begin - 4) out.old.items ++ (to_be_bytes w32 size ++ drop begin out.old.items) }
{
    out[begin - 4..begin].copy_from_slice(&size.to_be_bytes());
}
