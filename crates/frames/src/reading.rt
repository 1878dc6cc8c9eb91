//! A column, read frame by frame.
ghost use Rattle.std.specs.Prelude.{◌≡◌, ◌<◌, ◌≤◌, ◌++◌, ◌∷◌, [], Some, length, OnOk, IfErr};
ghost use Rattle.frames.specs.Column.{head_at};
ghost use Rattle.frames.specs.Reading.{Gives, found_now, format_of, frame_at, frames_of, header_at, part_at, parts_after, parts_of, payload_at, type_of};

use crate::fault::ReadFault;
use crate::frame::{Format, Frame, Head, Kind, Part, type_byte};
use crate::seam::Seam;
use crate::stored::StoredBlock;
use blocks::BlockFault;
use std::alloc::Global;
use values::ColumnType;
use values::limits::MAX_BLOCK_VALUES;

/// The blocks of a column of this type, in order, their payloads lent from its bytes. Each payload is read once, for the
/// fault that it may have; its values are not kept.
///
/// # Errors
///
/// The first fault from the left, or `NoMemory` where a growth is refused.
pub fn read_column<'a>(
    alloc: Global,
    col: usize,
    ty: ColumnType,
    bytes: &'a [u8],
) -> Result<Vec<Part<'a>>, ReadFault>
    ensures { Gives (λ parts. parts.items) result (parts_after [] (frames_of col (Some ty) bytes.now)) }
{
    let mut parts = Vec::new(alloc);
    let mut seam = Seam::start();
    let mut rest = bytes;
    while !rest.is_empty() {
        let at = bytes.len() - rest.len();
        let Some((frame, after)) = frame_at(alloc, col, at, ty, &seam, rest)? else {
            return Ok(parts);
        };
        seam = seam.after(&frame);
        keep_block(&mut parts, frame)?;
        rest = after;
    }
    Ok(parts)
}

/// Keeps the frame where it is a block.
fn keep_block<'a>(parts: &mut Vec<Part<'a>>, frame: Frame<'a>) -> Result<(), ReadFault>
    ensures ok { OnOk result (parts.new.items ≡ parts.old.items ++ parts_of (frame.entry ∷ [])) }
    ensures err { IfErr result (λ fault. fault ≡ ReadFault.NoMemory) }
{
    match frame {
        Frame::Block(part) => Ok(parts.push(part)?),
        Frame::Header(_) => Ok(()),
        Frame::End => Ok(()),
    }
}

/// The frame at the front of the bytes, and the bytes after it; none where they are the beginning of one.
#[tactic(auto, unfolding(crate::specs::Reading::frame_at))]
fn frame_at<'a>(
    alloc: Global,
    col: usize,
    at: usize,
    ty: ColumnType,
    seam: &Seam,
    bytes: &'a [u8],
) -> Result<Option<(Frame<'a>, &'a [u8])>, ReadFault>
    requires { 0 < length bytes.now }
    ensures { Gives found_now result (frame_at col at (Some ty) seam.now bytes.now) }
{
    match bytes[0] {
        b'H' => header_at(col, at, ty, bytes),
        b'B' => part_at(alloc, col, at, seam, bytes),
        b'E' => Ok(Some((Frame::End, &bytes[1..]))),
        _ => Err(ReadFault::BadFrame(col, at)),
    }
}

/// The header at the front of the bytes.
#[tactic(auto, unfolding(crate::specs::Reading::header_at))]
fn header_at<'a>(
    col: usize,
    at: usize,
    ty: ColumnType,
    bytes: &'a [u8],
) -> Result<Option<(Frame<'a>, &'a [u8])>, ReadFault>
    ensures { Gives found_now result (header_at col at (Some ty) bytes.now) }
{
    if bytes.len() < 3 {
        return Ok(None);
    }
    let Some(format) = format_of(bytes[1]) else {
        return Err(ReadFault::BadFrame(col, at));
    };
    let Some(found) = type_of(bytes[2]) else {
        return Err(ReadFault::BadFrame(col, at));
    };
    if type_byte(found) != type_byte(ty) {
        return Err(ReadFault::TypesDiffer(col));
    }
    let kind = Kind { format, ty: found };
    Ok(Some((Frame::Header(kind), &bytes[3..])))
}

/// The block at the front of the bytes.
#[tactic(auto, unfolding(crate::specs::Reading::part_at))]
fn part_at<'a>(
    alloc: Global,
    col: usize,
    at: usize,
    seam: &Seam,
    bytes: &'a [u8],
) -> Result<Option<(Frame<'a>, &'a [u8])>, ReadFault>
    ensures { Gives found_now result (part_at col at seam.now bytes.now) }
{
    if bytes.len() < 16 {
        return Ok(None);
    }
    let head = head_at(bytes);
    if !seam.may_stand(&head) {
        return Err(ReadFault::BadFrame(col, at));
    }
    let kind = seam.kind.unwrap_or(Kind {
        format: Format::First,
        ty: ColumnType::Int,
    });
    let (_, body) = bytes.split_at(16);
    payload_at(alloc, col, at, &head, kind, body)
}

/// The block with these numbers whose payload is at the front of the bytes.
fn payload_at<'a>(
    alloc: Global,
    col: usize,
    at: usize,
    head: &Head,
    kind: Kind,
    bytes: &'a [u8],
) -> Result<Option<(Frame<'a>, &'a [u8])>, ReadFault>
    requires { head.now.count ≤ MAX_BLOCK_VALUES }
    ensures { Gives found_now result (payload_at col at head.now kind bytes.now) }
{
    let size = head.size as usize;
    if bytes.len() < size {
        return Ok(None);
    }
    let (payload, rest) = bytes.split_at(size);
    match StoredBlock::tested(alloc, kind, head.count as usize, payload) {
        Ok(block) => {
            let part = Part {
                format: kind.format,
                generation: head.generation,
                number: head.number,
                last: head.flag == 1,
                block,
            };
            Ok(Some((Frame::Block(part), rest)))
        }
        Err(BlockFault::NoMemory) => Err(ReadFault::NoMemory),
        Err(fault) => Err(ReadFault::BadBlock(col, at, fault)),
    }
}

/// The numbers that the first sixteen bytes spell.
fn head_at(bytes: &[u8]) -> Head
    requires { 16 ≤ length bytes.now }
    ensures { result ≡ head_at bytes.now }
{
    Head {
        generation: u32::from_be_bytes([bytes[1], bytes[2], bytes[3], bytes[4]]),
        number: u32::from_be_bytes([bytes[5], bytes[6], bytes[7], bytes[8]]),
        flag: bytes[9],
        count: u16::from_be_bytes([bytes[10], bytes[11]]),
        size: u32::from_be_bytes([bytes[12], bytes[13], bytes[14], bytes[15]]),
    }
}

/// The format that a version byte names.
fn format_of(byte: u8) -> Option<Format>
    ensures { result ≡ format_of byte }
{
    match byte {
        1 => Some(Format::First),
        2 => Some(Format::Second),
        _ => None,
    }
}

/// The type that a byte names.
fn type_of(byte: u8) -> Option<ColumnType>
    ensures { result ≡ type_of byte }
{
    match byte {
        1 => Some(ColumnType::Int),
        2 => Some(ColumnType::Text),
        3 => Some(ColumnType::Bool),
        _ => None,
    }
}
