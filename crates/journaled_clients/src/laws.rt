//! What a crash leaves of a run of clients on threads, as the contract of a function that does nothing.
ghost use Rattle.durable_sessions.specs.Laws.{ABatchAtAnyMoment, ACrashLeavesWhatIsAcknowledged};
ghost use Rattle.journaled_clients.specs.Laws.{ACrashLeavesWhatIsWrittenOut};

use durable_sessions::a_crash_leaves_what_is_acknowledged;

/// Wherever a crash falls: recovery makes the table after a prefix of the commits, those that were acknowledged among them. After a run these
/// are all that its lines report.
pub fn a_crash_leaves_what_is_written_out()
    ensures moment { ABatchAtAnyMoment }
    ensures crash { ACrashLeavesWhatIsAcknowledged }
    ensures written { ACrashLeavesWhatIsWrittenOut }
{
    a_crash_leaves_what_is_acknowledged();
}
