//! The words of the program's command line.
//!
//! *What a contract sees.* The usage is a value of `clap`'s, and a command line's settings are those that its words say by it.
//!
//! *What it stands on.* `values` for the limits, `model` for the rules of conflict, and `clap` for the command line.
#![tactic(auto)]

mod settings;
mod usage;

pub use settings::{Settings, read_words};
