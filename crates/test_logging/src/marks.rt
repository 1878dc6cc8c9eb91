//! Marks of images: read again whole, cut, damaged, out of turn and of other payloads, and what a device leaves of them that fails.
use crate::devices::{SEED, empty_slot, journal_over, left_in};
use images::{ImageMark, Images, ImagesFault, image_number};
use journal::{Frame, write_frame};
use logging::{Appender, FailingJournal, Failure, JournalDevice, LogFault};
use std::alloc::Global;
use std::test::Fail;
use values::NoMemory;

/// Three images, of which the second was tried twice.
const MARKS: [ImageMark; 4] = [
    ImageMark {
        generation: 1,
        number: 0,
    },
    ImageMark {
        generation: 2,
        number: 6,
    },
    ImageMark {
        generation: 2,
        number: 9,
    },
    ImageMark {
        generation: 3,
        number: 12,
    },
];

/// The number of the image of each generation, from 1 on, where so many of the marks are read.
const NUMBERS: [[Option<u64>; 3]; 5] = [
    [None, None, None],
    [Some(0), None, None],
    [Some(0), Some(6), None],
    [Some(0), Some(9), None],
    [Some(0), Some(9), Some(12)],
];

/// How many bytes the frame of a mark has.
const MARKED: usize = 40;

/// The bytes of the third mark's frame. The two checks were worked out bit by bit.
const THIRD: [u8; MARKED] = [
    0, 0, 0, 0, 0, 0, 0, 3, 0, 0, 0, 0, 0, 0, 0, 2, 0, 0, 0, 12, 0x2f, 0x77, 0x7b, 0xe0, 0x34,
    0x0a, 0xb5, 0x7d, 0, 0, 0, 2, 0, 0, 0, 0, 0, 0, 0, 9,
];

/// Takes a mark. One that is refused for want of memory is made again.
fn take<D: JournalDevice>(images: &mut Images<D>, mark: ImageMark) -> Result<(), LogFault> {
    match images.mark(mark) {
        Err(LogFault::NoMemory) => images.mark(mark),
        answer => answer,
    }
}

/// Takes the marks, up to the first that isn't taken, and answers how many were.
fn mark_all<D: JournalDevice>(images: &mut Images<D>) -> (usize, Option<LogFault>) {
    for (place, mark) in MARKS.iter().enumerate() {
        if let Err(fault) = take(images, *mark) {
            return (place, Some(fault));
        }
    }
    (MARKS.len(), None)
}

/// A copy of the bytes.
fn copied(alloc: Global, bytes: &[u8]) -> Result<Vec<u8>, NoMemory> {
    let mut out = Vec::with_capacity(alloc, bytes.len())?;
    out.extend_from_slice(bytes)?;
    Ok(out)
}

/// The journal of the marks.
fn marked(alloc: Global) -> Result<Vec<u8>, NoMemory> {
    let slot = empty_slot(alloc)?;
    let appender = Appender::new(alloc, journal_over(alloc, &slot)?, SEED);
    let mut images = Images::new(appender, 1);
    let (_, fault) = mark_all(&mut images);
    drop(images);
    // The device takes memory for its bytes, and fails where that is refused.
    if fault.is_some() {
        return Err(NoMemory);
    }
    let (bytes, _) = left_in(&slot);
    copied(alloc, bytes)
}

/// What is answered of a generation.
fn told(
    alloc: Global,
    bytes: &[u8],
    generation: u32,
) -> Result<Result<u64, ImagesFault>, NoMemory> {
    match image_number(alloc, SEED, 0, bytes, generation) {
        Err(ImagesFault::NoMemory) => Err(NoMemory),
        answer => Ok(answer),
    }
}

/// Whether bytes read as the first so many of the marks, so that each generation has their number.
fn is_read(alloc: Global, bytes: &[u8], whole: usize) -> Result<bool, NoMemory> {
    let Some(numbers) = NUMBERS.get(whole) else {
        return Ok(false);
    };
    for (generation, number) in (1..).zip(numbers) {
        let wanted = number.ok_or(ImagesFault::Unmarked(generation));
        if told(alloc, bytes, generation)? != wanted {
            return Ok(false);
        }
    }
    Ok(true)
}

/// Whether bytes are refused with this fault, whichever generation is asked for.
fn is_refused(alloc: Global, bytes: &[u8], fault: ImagesFault) -> Result<bool, NoMemory> {
    for generation in 0..5 {
        if told(alloc, bytes, generation)? != Err(fault) {
            return Ok(false);
        }
    }
    Ok(true)
}

#[test]
fn the_last_mark_of_a_generation_counts(rt: HostRuntime) -> Result<(), Fail> {
    let alloc = rt.alloc();
    let bytes = marked(alloc)?;
    let bytes = bytes.as_slice();
    assert!(&rt; is_read(alloc, bytes, 4)?);
    assert!(&rt; bytes.get(80..120) == Some(THIRD.as_slice()));
    Ok(())
}

#[test]
fn a_generation_that_was_not_marked_is_told(rt: HostRuntime) -> Result<(), Fail> {
    let alloc = rt.alloc();
    let bytes = marked(alloc)?;
    for generation in [0, 4, 258, u32::MAX] {
        let answer = told(alloc, bytes.as_slice(), generation)?;
        assert!(&rt; answer == Err(ImagesFault::Unmarked(generation)));
    }
    Ok(())
}

#[test]
fn marks_that_are_cut_anywhere_read_as_those_that_are_whole(rt: HostRuntime) -> Result<(), Fail> {
    let alloc = rt.alloc();
    let bytes = marked(alloc)?;
    for cut in 0..=bytes.len() {
        let Some(kept) = bytes.get(..cut) else {
            continue;
        };
        assert!(&rt; is_read(alloc, kept, cut / MARKED)?);
    }
    Ok(())
}

/// Whether marks with a bit turned over are rot, where a later mark tells that the damaged one was safe, and else those before it.
fn is_damaged(alloc: Global, bytes: &[u8], at: usize) -> Result<bool, NoMemory> {
    let before = at / MARKED;
    if before < 3 {
        return is_refused(alloc, bytes, ImagesFault::Rot(before as u64 + 1));
    }
    is_read(alloc, bytes, before)
}

#[test]
fn a_bit_that_is_turned_over_under_a_safe_mark_is_rot(rt: HostRuntime) -> Result<(), Fail> {
    let alloc = rt.alloc();
    let mut bytes = marked(alloc)?;
    for at in 0..bytes.len() {
        for bit in 0..8 {
            if let Some(byte) = bytes.get_mut(at) {
                *byte ^= 1_u8.wrapping_shl(bit);
            }
            assert!(&rt; is_damaged(alloc, bytes.as_slice(), at)?);
            if let Some(byte) = bytes.get_mut(at) {
                *byte ^= 1_u8.wrapping_shl(bit);
            }
        }
    }
    Ok(())
}

/// Two marks, and a frame of this number with this payload behind them.
fn two_and(alloc: Global, number: u64, payload: &[u8]) -> Result<Vec<u8>, NoMemory> {
    let bytes = marked(alloc)?;
    let Some(front) = bytes.get(..80) else {
        return Err(NoMemory);
    };
    let mut out = copied(alloc, front)?;
    if payload.len() > 1000 {
        return Err(NoMemory);
    }
    let frame = Frame {
        number,
        synced: 2,
        payload,
    };
    write_frame(SEED, &frame, &mut out)?;
    Ok(out)
}

#[test]
fn a_payload_of_another_length_is_a_bad_mark(rt: HostRuntime) -> Result<(), Fail> {
    let alloc = rt.alloc();
    for payload in [b"".as_slice(), b"eleven byte", b"thirteen byte"] {
        let bytes = two_and(alloc, 3, payload)?;
        assert!(&rt; is_refused(alloc, bytes.as_slice(), ImagesFault::BadMark(3))?);
    }
    Ok(())
}

#[test]
fn a_mark_out_of_turn_is_a_gap(rt: HostRuntime) -> Result<(), Fail> {
    let alloc = rt.alloc();
    for number in [2, 4] {
        let bytes = two_and(alloc, number, b"twelve bytes")?;
        assert!(&rt; is_refused(alloc, bytes.as_slice(), ImagesFault::Gap(3))?);
    }
    Ok(())
}

/// Rot and a gap are told before the bad mark in front of them.
#[test]
fn a_bad_mark_is_told_after_the_ending(rt: HostRuntime) -> Result<(), Fail> {
    let alloc = rt.alloc();
    let mut bytes = two_and(alloc, 3, b"eleven byte")?;
    let gap = two_and(alloc, 5, b"twelve bytes")?;
    let Some(fifth) = gap.get(80..) else {
        return Err(Fail::from(NoMemory));
    };
    bytes.extend_from_slice(fifth)?;
    assert!(&rt; is_refused(alloc, bytes.as_slice(), ImagesFault::Gap(4))?);
    if let Some(byte) = bytes.get_mut(0) {
        *byte = 1;
    }
    assert!(&rt; is_refused(alloc, bytes.as_slice(), ImagesFault::Rot(1))?);
    Ok(())
}

/// Whether marks on a device with this failure end with this many taken, none after it, and read as so many.
fn is_left(alloc: Global, failure: Failure, taken: usize, whole: usize) -> Result<bool, NoMemory> {
    let slot = empty_slot(alloc)?;
    let device = FailingJournal::new(journal_over(alloc, &slot)?, failure);
    let mut images = Images::new(Appender::new(alloc, device, SEED), 1);
    let begun = !images.has_failed();
    let answer = mark_all(&mut images);
    let failed = images.has_failed();
    let after = mark_all(&mut images);
    drop(images);
    let (bytes, safe) = left_in(&slot);
    Ok(
        begun
            && answer == (taken, Some(LogFault::DeviceFailed))
            && failed
            && after == (0, Some(LogFault::DeviceFailed))
            && safe == taken.wrapping_mul(MARKED)
            && is_read(alloc, bytes, whole)?,
    )
}

#[test]
fn no_mark_is_taken_after_an_append_that_failed(rt: HostRuntime) -> Result<(), Fail> {
    for taken in 0..MARKS.len() {
        for takes in 0..=MARKED {
            let turn = taken as u64 + 1;
            let whole = taken.wrapping_add(takes / MARKED);
            assert!(&rt; is_left(rt.alloc(), Failure::Append { turn, takes }, taken, whole)?);
        }
    }
    Ok(())
}

#[test]
fn no_mark_is_taken_after_a_sync_that_failed(rt: HostRuntime) -> Result<(), Fail> {
    for taken in 0..MARKS.len() {
        let turn = taken as u64 + 1;
        let whole = taken.wrapping_add(1);
        assert!(&rt; is_left(rt.alloc(), Failure::Sync { turn }, taken, whole)?);
    }
    Ok(())
}
