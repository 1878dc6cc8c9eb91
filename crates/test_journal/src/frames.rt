//! Frames, written and read again.
use journal::{Ending, Frame, read_frames, write_frame};
use std::alloc::Global;
use std::test::Fail;
use values::NoMemory;

/// The seed of every journal here.
pub(crate) const SEED: u32 = 0x1234_5678;

/// The number of the first commit of a journal here.
pub(crate) const FIRST: u64 = 7;

/// How many bytes each of its frames has.
pub(crate) const SIZE: usize = 31;

/// A journal of so many commits, each of which tells that the one before it was safe.
pub(crate) fn journal_of(alloc: Global, count: u64) -> Result<Vec<u8>, NoMemory> {
    let mut out = Vec::new(alloc);
    for place in 0..count {
        let number = FIRST.wrapping_add(place);
        let frame = Frame {
            number,
            synced: number.wrapping_sub(1),
            payload: b"abc",
        };
        write_frame(SEED, &frame, &mut out)?;
    }
    Ok(out)
}

/// The bytes of the commit 7, after which 6 was safe, with the payload `abc`. The two checks were worked out bit by bit.
const SEVEN: [u8; 31] = [
    0, 0, 0, 0, 0, 0, 0, 7, 0, 0, 0, 0, 0, 0, 0, 6, 0, 0, 0, 3, 0x66, 0x99, 0x1c, 0x44, 0xa6, 0xca,
    0xe9, 0x09, b'a', b'b', b'c',
];

#[test]
fn a_frame_has_these_bytes(rt: HostRuntime) -> Result<(), Fail> {
    let bytes = journal_of(rt.alloc(), 1)?;
    assert!(&rt; bytes.as_slice() == SEVEN.as_slice());
    Ok(())
}

#[test]
fn a_whole_journal_ends(rt: HostRuntime) -> Result<(), Fail> {
    let alloc = rt.alloc();
    let bytes = journal_of(alloc, 3)?;
    let reading = read_frames(alloc, SEED, FIRST, bytes.as_slice())?;
    assert!(&rt; reading.ending == Ending::End && reading.rest.is_empty());
    assert!(&rt; reading.frames.len() == 3);
    let mut due = FIRST;
    for frame in &reading.frames {
        assert!(&rt; frame.number == due && frame.synced == due.wrapping_sub(1));
        assert!(&rt; frame.payload == b"abc".as_slice());
        due = due.wrapping_add(1);
    }
    Ok(())
}

#[test]
fn no_bytes_are_a_journal_of_no_commits(rt: HostRuntime) -> Result<(), Fail> {
    let reading = read_frames(rt.alloc(), SEED, FIRST, &[])?;
    assert!(&rt; reading.frames.is_empty() && reading.ending == Ending::End);
    Ok(())
}
