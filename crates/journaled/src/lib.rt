//! The program over a store with a journal: a script is run over its table, each commit being safe before its reply is written;
//! and the table is recovered from what the store's files have.
//!
//! *What a contract sees.* A journaled store is a durable manager, the marks of its images, and the generation of the next one. A
//! run is a relation of states, calls and replies, as a serial run is. What is recovered is what `replay` recovers.
//!
//! *What it stands on.* `pdtcli` for the calls of a client, for what is shown and for refusals, `durable` for commits, `images` for
//! the marks of images, `replay` for recovery, `devices` for columns, `inputs` for scripts, and `journal` and `logging` for journals.
#![tactic(auto)]

mod fault;
mod journaled;
mod laws;
mod recovery;
mod run;

pub use fault::ImageFault;
pub use journaled::{Journaled, Journals};
pub use laws::a_run_is_journaled;
pub use recovery::{StoreBytes, recover_journaled};
pub use run::{JournaledRun, run_journaled};
