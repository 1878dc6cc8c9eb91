//! Journals that are cut, damaged, out of turn, or another's.
use crate::frames::{FIRST, SEED, SIZE, journal_of};
use journal::{Ending, Reading, read_frames};
use std::alloc::Global;
use std::test::Fail;
use values::NoMemory;

/// How many commits the journals have that are cut and damaged.
const COUNT: u64 = 6;

/// Whether a journal reads as so many commits, this ending, and so many bytes after them.
fn is_read(reading: &Reading<'_>, count: usize, ending: Ending, rest: usize) -> bool {
    reading.frames.len() == count && reading.ending == ending && reading.rest.len() == rest
}

/// Whether the first `cut` bytes of a journal read as the commits that are whole in them.
fn is_cut(alloc: Global, bytes: &[u8], cut: usize) -> Result<bool, NoMemory> {
    let Some(kept) = bytes.get(..cut) else {
        return Ok(false);
    };
    let reading = read_frames(alloc, SEED, FIRST, kept)?;
    let rest = cut % SIZE;
    let ending = if rest == 0 { Ending::End } else { Ending::Torn };
    Ok(is_read(&reading, cut / SIZE, ending, rest))
}

#[test]
fn a_journal_that_is_cut_anywhere_is_torn_there(rt: HostRuntime) -> Result<(), Fail> {
    let alloc = rt.alloc();
    let bytes = journal_of(alloc, COUNT)?;
    for cut in 0..=bytes.len() {
        assert!(&rt; is_cut(alloc, bytes.as_slice(), cut)?);
    }
    Ok(())
}

/// Whether a journal of which a bit was turned over reads as the commits before it. What is left is rot where a later commit tells
/// that the damaged one was safe, and torn where that is the last.
fn is_damaged(alloc: Global, bytes: &[u8], at: usize) -> Result<bool, NoMemory> {
    let reading = read_frames(alloc, SEED, FIRST, bytes)?;
    let before = at / SIZE;
    let whole = before.wrapping_mul(SIZE);
    let is_last = before.wrapping_add(1) == COUNT as usize;
    let ending = if is_last { Ending::Torn } else { Ending::Rot };
    Ok(is_read(&reading, before, ending, bytes.len().wrapping_sub(whole)))
}

#[test]
fn each_bit_that_turns_over_is_found(rt: HostRuntime) -> Result<(), Fail> {
    let alloc = rt.alloc();
    let mut bytes = journal_of(alloc, COUNT)?;
    for at in 0..bytes.len() {
        for bit in 0..8_u32 {
            if let Some(byte) = bytes.get_mut(at) {
                *byte ^= 1_u8.wrapping_shl(bit);
            }
            assert!(&rt; is_damaged(alloc, bytes.as_slice(), at)?);
            if let Some(byte) = bytes.get_mut(at) {
                *byte ^= 1_u8.wrapping_shl(bit);
            }
        }
    }
    Ok(())
}

#[test]
fn another_number_is_a_gap(rt: HostRuntime) -> Result<(), Fail> {
    let alloc = rt.alloc();
    let bytes = journal_of(alloc, 2)?;
    let later = read_frames(alloc, SEED, FIRST.wrapping_add(1), bytes.as_slice())?;
    assert!(&rt; is_read(&later, 0, Ending::Gap, 62));
    Ok(())
}

#[test]
fn a_frame_of_another_journal_is_none(rt: HostRuntime) -> Result<(), Fail> {
    let alloc = rt.alloc();
    let bytes = journal_of(alloc, 2)?;
    let others = read_frames(alloc, SEED ^ 1, FIRST, bytes.as_slice())?;
    assert!(&rt; is_read(&others, 0, Ending::Torn, 62));
    Ok(())
}

#[test]
fn zeros_are_no_frames(rt: HostRuntime) -> Result<(), Fail> {
    let reading = read_frames(rt.alloc(), SEED, 0, &[0_u8; 64])?;
    assert!(&rt; is_read(&reading, 0, Ending::Torn, 64));
    Ok(())
}

/// The head of the commit 7 with a payload of 2^32 - 1 bytes, whose own check is right.
const CLAIMS_MUCH: [u8; 28] = [
    0, 0, 0, 0, 0, 0, 0, 7, 0, 0, 0, 0, 0, 0, 0, 0, 0xff, 0xff, 0xff, 0xff, 0, 0, 0, 0, 0x1a, 0x99,
    0x2a, 0xf0,
];

#[test]
fn a_length_that_is_merely_claimed_is_not_believed(rt: HostRuntime) -> Result<(), Fail> {
    let reading = read_frames(rt.alloc(), SEED, FIRST, CLAIMS_MUCH.as_slice())?;
    assert!(&rt; is_read(&reading, 0, Ending::Torn, 28));
    Ok(())
}
