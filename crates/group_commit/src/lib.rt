//! Group commit: one thread writes the commits of all that wait, and one sync of the device makes them durable.
//!
//! *What a contract sees.* A group log is its device, the payloads of the commits that are written and durable, those of the last batch
//! that was tried, and the watermark, up to which commits are acknowledged. The watermark never passes what is durable, at any moment,
//! so a thread that has loaded it at a number knows that a crash keeps that commit.
//!
//! *What it stands on.* `journal` and `logging` for frames and the device, `watermark` for the number that threads share.
#![tactic(auto)]

mod fault;
mod group_log;
mod history;
mod laws;

pub use fault::WriteFault;
pub use group_log::{GroupLog, GroupLogParts};
pub use history::{HistoryPrefix, JournalId};
pub use laws::{
    a_batch_at_any_moment, a_batch_grows, a_crash_leaves_older_frames,
    a_crash_leaves_what_is_written, a_reopened_journal_is_one,
};
