//! The manager: it decides commits by position, and keeps the newest version and the history.
//!
//! *What a contract sees.* A manager is where its history starts (the table then, its number, the limits and the
//! conflict rule), the history, how many records it made, and the layers of its newest version. The newest table is a
//! function of the history, and those layers make it. A history is its start and its records, which are legal from there
//! on. What is prepared for a commit is its reply and the next version. A pin is
//! a version and the limit of rows.
//!
//! *What it stands on.* `txn` for versions and transactions, `layers` for trees made consecutive and folded, `delta` for
//! trees, `devices` for the store of a checkpoint, `model` for histories, `circular_buffer` for the trees of the last
//! commits. No key of a stable row is read: keys meet in `layers` alone, between entries at one SID.
#![tactic(auto)]

mod changes;
mod checkpoint;
mod commit;
mod cut;
mod fault;
mod fold;
mod history;
mod manager;
mod passing;
mod past;
mod pin;
mod redo;
mod repack;
mod replaced;
mod restack;

pub use checkpoint::Rebuilt;
pub use commit::{MAX_RECORDS, Prepared};
pub use cut::KeptTrees;
pub use fault::{CheckpointFault, OpenFault, RedoFault};
pub use fold::Folded;
pub use history::History;
pub use manager::Manager;
pub use pin::Pin;
pub use replaced::{Released, Replaced};
pub use restack::Restacked;
