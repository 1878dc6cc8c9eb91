//! What the program is given: a table and a script, each read from text and refused by a fault that names its place.
//!
//! *What a contract sees.* The records of a text are those that the crate `csv` reads of it. A table is a function of
//! its records, the first fault from the start or the schema and the rows; so is a script, whose answer is the clients'
//! names and the calls.
//!
//! *What it stands on.* `values` for schemas, rows and limits, `blocks` and `stable` for the columns of a table, `model`
//! for writes and for what a table is, `csv` for records, and `thiserror` for what a fault shows.
#![tactic(auto)]

mod arguments;
mod ascent;
mod call;
mod cell;
mod client;
mod columns;
mod fault;
mod header;
mod loading;
mod plain;
mod plain_loading;
mod reading;
mod script;
mod table;
mod verb;

pub use arguments::find_column;
pub use call::{Call, ClientCall, Read};
pub use fault::{PlainFault, ScriptFault, TableFault};
pub use header::{first_colon, kind_word, read_kind};
pub use loading::load_table;
pub use plain::{find_types, has_types};
pub use plain_loading::load_plain_table;
pub use reading::{PlacedRecord, record_at};
pub use script::{Script, read_script};
pub use table::read_table;
pub use verb::{Verb, count_arguments, read_verb};
