//! What the journal has of a run, as the contract of a function that does nothing. A caller who needs it calls it.
ghost use Rattle.journaled.specs.Laws.{ARunIsJournaled};

use durable::a_commit_is_journaled;

/// The journal of a run has just the commits that were replied Committed, in order, over the table that the run began with. So a crash
/// leaves them, by the laws of `durable`, and they are recovered.
pub fn a_run_is_journaled()
    ensures { ARunIsJournaled }
{
    a_commit_is_journaled();
}
