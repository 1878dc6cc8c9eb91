//! The program over texts: a run of a script over a table, each as `inputs` reads it, and its output, the reply lines and
//! the newest image.
//!
//! *What a contract sees.* A manager is the table that it was opened with and its history. A run is a relation of states,
//! calls and replies. What a run shows is the text that `csv` writes of its reply lines and its image, byte for byte. A
//! refusal is of the first part that is refused, by its own first fault.
//!
//! *What it stands on.* `values` for schemas, rows and limits, `model` for tables, writes and histories, `stable` for the
//! table, `txn` for transactions, `devices` for stores, `manager` for commits, `publishing` and `shared` for sessions,
//! `words` and `inputs` for what the program is given, `sentences` for what explains a refusal, `journal`, `images` and `replay`
//! for the faults of a journal, `csv` for records, `itoa` for numbers, and `thiserror` for what a fault shows.
#![tactic(auto)]

mod batch;
mod caller;
mod client;
mod clients;
mod explanation;
mod gate;
mod header;
mod image;
mod outcome;
mod output;
mod program;
mod queue;
mod reads;
mod records;
mod recovery;
mod refusal;
mod reply;
mod seat;
mod serial;
mod shape;
mod shown;

pub use caller::{Caller, reply_of};
pub use clients::{RunFault, run_clients};
pub use devices::StoreFault;
pub use explanation::{explain_opening, explain_recovery, plain_sentence};
pub use gate::{Gate, OpenGate};
pub use header::stored_header;
pub use inputs::{ScriptFault, TableFault};
pub use manager::{Manager, OpenFault};
pub use outcome::{Left, Outcome};
pub use output::{
    ShowFault, header_of, is_refused, show, show_image, show_newest, show_reply, show_store,
};
pub use program::{
    FileFault, OpenOptions, Opened, open_texts, run_opened, run_opened_on_threads, status_of,
};
pub use queue::CallQueue;
pub use recovery::{read_header, recover};
pub use refusal::Refusal;
pub use reply::{Reply, ReplyLine};
pub use seat::{abort_session, read_in_session, write_in_session};
pub use serial::{new_callers, run_serial, verb_of_call};
pub use shown::ShownRows;
pub use stable::StableTable;
pub use txn::{Txn, WriteFault};
pub use words::{Settings, read_words};
