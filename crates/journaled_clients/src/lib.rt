//! A run of a script's clients on threads of their own over a store with a journal: a commit is durable before its reply is written, and
//! an image is marked before it is stored.
//!
//! *What a contract sees.* A run is a relation of sessions, calls and replies, as in `pdtcli`. A transcript is the bytes of a writer: those
//! that it had, and the text of whole reply lines. A commit that a line reports is below the watermark that the transcript keeps.
//!
//! *What it stands on.* `durable_sessions` for commits that are durable once they are acknowledged, `watermark` for what threads know of
//! them, `shared` for openings and stores, `images` for marks, `pdtcli` for scripts, replies and their text, `logging` for journals,
//! `devices` for stores, `manager`, `inputs`, `publishing`, `model` and `values`.
#![tactic(auto)]

mod client;
mod laws;
mod marked;
mod run;
mod seat;
mod transcript;

pub use laws::a_crash_leaves_what_is_written_out;
pub use marked::MarkedStore;
pub use run::{ClientsRun, NewCommits, run_journaled_on_threads};
pub use transcript::TranscriptId;
