//! Logging with nothing that fails.
use crate::devices::{FIRST, SEED, SIZE, empty_slot, journal_over, left_in, log_up_to, spelt};
use journal::{Ending, read_frames};
use logging::{Appender, FailingJournal, Failure};
use std::test::Fail;

#[test]
fn what_was_logged_is_left_and_read(rt: HostRuntime) -> Result<(), Fail> {
    let alloc = rt.alloc();
    let slot = empty_slot(alloc)?;
    let mut appender = Appender::new(alloc, journal_over(alloc, &slot)?, SEED);
    assert!(&rt; log_up_to(&mut appender, 3) == (3, None));
    assert!(&rt; appender.failures() == 0);
    drop(appender);
    let (bytes, safe) = left_in(&slot);
    assert!(&rt; bytes == spelt(alloc, FIRST, 3)?.as_slice() && safe == bytes.len());
    let reading = read_frames(alloc, SEED, FIRST, bytes)?;
    assert!(&rt; reading.frames.len() == 3 && reading.ending == Ending::End);
    Ok(())
}

#[test]
fn a_batch_is_logged_at_once(rt: HostRuntime) -> Result<(), Fail> {
    let alloc = rt.alloc();
    let slot = empty_slot(alloc)?;
    // The second sync would fail, and there is none.
    let device = FailingJournal::new(journal_over(alloc, &slot)?, Failure::Sync { turn: 2 });
    let mut appender = Appender::new(alloc, device, SEED);
    let batch = spelt(alloc, FIRST, 5)?;
    if appender.failures() == 0 {
        assert!(&rt; appender.log_batch(batch.as_slice()).is_ok());
    }
    drop(appender);
    let (bytes, safe) = left_in(&slot);
    assert!(&rt; bytes == batch.as_slice() && safe == batch.len() && safe == SIZE.wrapping_mul(5));
    Ok(())
}
