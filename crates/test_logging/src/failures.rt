//! Logging to a device that fails: each append with each number of bytes taken, and each sync.
use crate::devices::{FIRST, SEED, SIZE, empty_slot, journal_over, left_in, log_up_to};
use journal::{Ending, read_frames};
use logging::{Appender, FailingJournal, Failure, LogFault};
use std::alloc::Global;
use std::test::Fail;

/// How many commits are logged, or tried.
const COUNT: u64 = 4;

/// What a failure is to leave: how many commits are answered, how many bytes are there, and how many of these are safe.
#[derive(Drop)]
struct Wanted {
    answered: u64,
    bytes: usize,
    safe: usize,
}

/// Whether commits that are logged to a device with this failure leave just that, and read as the frames that are whole in it.
fn is_left(alloc: Global, failure: Failure, wanted: &Wanted) -> Result<bool, Fail> {
    let slot = empty_slot(alloc)?;
    let device = FailingJournal::new(journal_over(alloc, &slot)?, failure);
    let mut appender = Appender::new(alloc, device, SEED);
    let answer = log_up_to(&mut appender, COUNT);
    let failed = appender.failures() > 0;
    drop(appender);
    let (bytes, safe) = left_in(&slot);
    let reading = read_frames(alloc, SEED, FIRST, bytes)?;
    let ending = if wanted.bytes % SIZE == 0 {
        Ending::End
    } else {
        Ending::Torn
    };
    Ok(
        answer == (wanted.answered, Some(LogFault::DeviceFailed))
            && failed
            && bytes.len() == wanted.bytes
            && safe == wanted.safe
            && reading.frames.len() == wanted.bytes / SIZE
            && reading.ending == ending,
    )
}

#[test]
fn an_append_that_is_cut_at_any_byte_keeps_what_was_answered(rt: HostRuntime) -> Result<(), Fail> {
    for turn in 1..=COUNT {
        for takes in 0..=SIZE {
            let before = SIZE.wrapping_mul(turn.wrapping_sub(1) as usize);
            let wanted = Wanted {
                answered: turn.wrapping_sub(1),
                bytes: before.wrapping_add(takes),
                safe: before,
            };
            let failure = Failure::Append { turn, takes };
            assert!(&rt; is_left(rt.alloc(), failure, &wanted)?);
        }
    }
    Ok(())
}

#[test]
fn a_sync_that_fails_leaves_its_frame_unanswered(rt: HostRuntime) -> Result<(), Fail> {
    for turn in 1..=COUNT {
        let before = SIZE.wrapping_mul(turn.wrapping_sub(1) as usize);
        let wanted = Wanted {
            answered: turn.wrapping_sub(1),
            bytes: before.wrapping_add(SIZE),
            safe: before,
        };
        assert!(&rt; is_left(rt.alloc(), Failure::Sync { turn }, &wanted)?);
    }
    Ok(())
}
