//! Sessions on threads whose commits are durable before they are acknowledged, by group commit.
//!
//! *What a contract sees.* A durable session is a seat, as in `shared`, and the watermark that its reader has loaded. A commit that is
//! acknowledged has a number that isn't above it.
//!
//! *What it stands on.* `shared` for sessions and the locked state, `group_commit` and `watermark` for the journal and what threads know of
//! it, `durable` and `codec` for payloads, `journal` and `replay` for what is logged and what is recovered.
#![tactic(auto)]

mod durable_session;
mod durable_shared;
mod fault;
mod frame_queue;
mod laws;
mod locked_state;
mod opening_id;
mod published_prefix;
mod waiters;

pub use durable_session::DurableSession;
pub use durable_shared::{
    CloseBuffers, ClosedParts, DurableParts, DurableShared, FrameSettings, NewJournal, StoredImage,
    open,
};
pub use fault::{BeginFault, CommitFault, ImageFault};
pub use frame_queue::FrameQueue;
pub use laws::{a_crash_leaves_what_is_acknowledged, a_crash_of_a_reopened_journal};
pub use locked_state::{Batch, LockedState};
pub use opening_id::DurableOpening;
pub use published_prefix::PublishedPrefix;
