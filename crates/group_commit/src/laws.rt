//! What a crash leaves, each law as the contract of a function that does nothing. A caller that needs one calls it.
ghost use Rattle.group_commit.specs.Laws.{ABatchAtAnyMoment, ABatchGrows, ACrashLeavesWhatIsWritten};
ghost use Rattle.group_commit.specs.Reopened.{ACrashLeavesOlderFrames, AReopenedJournalIsOne};

use journal::{a_crash_leaves_whole_frames, a_journal_goes_on};
use logging::a_device_leaves_what_was_logged;

/// A batch with one more frame is a batch.
pub fn a_batch_grows()
    ensures { ABatchGrows }
{
    a_journal_goes_on();
}

/// While a batch is being written, whatever part of it the device has taken, the log still holds what it held before.
pub fn a_batch_at_any_moment()
    ensures { ABatchAtAnyMoment }
{
    a_journal_goes_on();
}

/// A crash at any moment, between two batches, during one, or after one that failed, leaves the bytes of the front and the frames of
/// all commits that are written, hence of all that were ever acknowledged, and maybe some of those that were tried.
pub fn a_crash_leaves_what_is_written()
    ensures { ACrashLeavesWhatIsWritten }
{
    a_device_leaves_what_was_logged();
}

/// After a crash at any moment recovery reads the frames of all commits that are written, maybe some of those that were tried, and no
/// damage. A log may be opened behind the frames that it reads.
pub fn a_crash_leaves_older_frames()
    ensures { ACrashLeavesOlderFrames }
{
    a_crash_leaves_what_is_written();
    a_crash_leaves_whole_frames();
}

/// A log that was opened behind older frames is a log of the whole journal, so that the laws on crashes cover all its frames, however
/// often it was reopened.
pub fn a_reopened_journal_is_one()
    ensures { AReopenedJournalIsOne }
{
    a_journal_goes_on();
}
