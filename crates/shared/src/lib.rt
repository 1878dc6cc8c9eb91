//! Sessions that share one manager: they begin, write, read and abort without its lock, and take it only to commit.
//!
//! *What a contract sees.* A session is its client, how many commit replies it got, the beginning of the published list
//! that it has seen, its open transaction, and what it was told. What lies under the lock is seen by no caller; each reply
//! says what the session has seen before and after it, and what it is due at.
//!
//! *What it stands on.* `publishing` for the list and the version that readers copy, `manager` for the decision, `devices`
//! for the store, a ledger of `std` for the count of replies.
#![tactic(auto)]

mod calls;
mod fault;
mod laws;
mod locked;
mod publisher;
mod session;
mod shared;
mod store;
mod told;

pub use fault::{BeginFault, CommitFault, NotOpen, SessionFault, ShareFault};
pub use laws::{begins_after_its_commits, keeps_what_it_had};
pub use locked::{Locked, Refused, Unlocked};
pub use session::{EndedSession, Session};
pub use shared::{Closed, NewOpening, Parts, Shared, close_parts, open, open_parts};
pub use store::ImageStore;
pub use told::Told;
