//! Commits that were logged by their entries, made again over a manager.
//!
//! *What a contract sees.* A logged commit is the entries of its effects over the table that it found. What is replayed leaves
//! the rows that these entries, merged in their order, make of the rows before.
#![tactic(auto)]

mod fault;
mod fitting;
mod journal_frames;
mod laws;
mod recovering;
mod remaking;
mod replaying;
mod spots;

pub use fault::{CommitFault, RecoverFault};
pub use journal_frames::ReadFrames;
pub use laws::recovery_is_a_prefix;
pub use recovering::{FrameBytes, Image, Limits, Recovered, recover};
pub use remaking::recover_read;
pub use replaying::{replay, replay_commit};
