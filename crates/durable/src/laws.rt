//! What a journal has of the commits that were answered, each law the contract of a function that does nothing. A caller who needs
//! one calls it.
ghost use Rattle.durable.specs.Laws.{ACommitIsJournaled, ACrashInACommit, ACrashLeavesTheCommits};

use journal::a_journal_goes_on;
use logging::a_device_leaves_what_was_logged;

/// A commit that is answered as committed joins the commits that the journal has; any other reply leaves them.
pub fn a_commit_is_journaled()
    ensures { ACommitIsJournaled }
{
    a_journal_goes_on();
}

/// After a crash the journal has each commit that was answered, as recovery asks for them.
pub fn a_crash_leaves_the_commits()
    ensures { ACrashLeavesTheCommits }
{}

/// After a crash in the midst of a commit, or after one that failed, the journal has each commit that was answered, and maybe this
/// one, as recovery asks for them.
pub fn a_crash_in_a_commit()
    ensures { ACrashInACommit }
{
    a_journal_goes_on();
    a_device_leaves_what_was_logged();
}
