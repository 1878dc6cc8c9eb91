//! What a crash leaves of the commits of all sessions, as the contract of a function that does nothing.
ghost use Rattle.durable_sessions.specs.Laws.{ABatchAtAnyMoment, ACrashLeavesWhatIsAcknowledged, ACrashOfAReopenedJournal};

use group_commit::{
    a_batch_at_any_moment, a_crash_leaves_what_is_written, a_reopened_journal_is_one,
};

/// Wherever a crash falls, between two batches, in the middle of one, or after one that failed: what it leaves is what recovery asks for,
/// with every commit that was acknowledged.
pub fn a_crash_leaves_what_is_acknowledged()
    ensures moment { ABatchAtAnyMoment }
    ensures crash { ACrashLeavesWhatIsAcknowledged }
{
    a_batch_at_any_moment();
    a_crash_leaves_what_is_written();
}

/// The same for a journal that is opened again behind the frames of older commits: what a crash leaves of the whole file is what recovery
/// asks for, with the commits of both openings.
pub fn a_crash_of_a_reopened_journal()
    ensures { ACrashOfAReopenedJournal }
{
    a_reopened_journal_is_one();
    a_crash_leaves_what_is_written();
}
