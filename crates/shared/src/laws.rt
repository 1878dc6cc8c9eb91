//! What the contracts of sessions give together, as contracts of functions that do nothing.
ghost use Rattle.manager.specs.Managed.{IsManaged};
ghost use Rattle.shared.specs.Laws.{BeginsAfterItsCommits, KeepsWhatItHad};

use manager::Manager;

/// A client never begins twice at one number with a Committed between: it has seen its own commit.
pub fn begins_after_its_commits()
    ensures { BeginsAfterItsCommits }
{}

/// Where no cut took a record, the manager that comes back starts where it started at the opening, over the same table, and
/// its history begins with the one that it had.
pub fn keeps_what_it_had()
    ensures { KeepsWhatItHad }
{}

/// What a manager keeps at all times, for the proofs of its callers; it does nothing.
pub(crate) fn kept(manager: &Manager)
    ensures { IsManaged manager.now }
{
    let _ = manager.history();
}
