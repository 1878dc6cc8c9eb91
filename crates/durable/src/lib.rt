//! A manager whose commits are logged before they are answered: what was answered as committed is safe.
//!
//! *What a contract sees.* A durable manager is its manager, the log on the device, and the number that its table has in the
//! payloads. A commit that is answered has its frame at the end of the log, all of it safe; one that isn't leaves the manager.
//! What was logged since the journal's start is the trees of the commits since then.
//!
//! *What it stands on.* `manager` and `txn` for commits, `codec` for the payload of a frame, `journal` and `logging` for the
//! frame and the device, `model` for histories, `delta` for trees, and `thiserror` for what a fault shows.
#![tactic(auto)]

mod durable;
mod fault;
mod laws;
mod logged;
mod spelling;

pub use durable::{Durable, Parts};
pub use fault::CommitFault;
pub use laws::{a_commit_is_journaled, a_crash_in_a_commit, a_crash_leaves_the_commits};
pub use spelling::spell_prepared;
