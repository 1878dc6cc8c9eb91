//! A table of a database, as it is after the last commit that its journal has.
//!
//! *What a contract sees.* The image that the manifest means, and the journal's files as one journal: what is restored is what `replay`
//! recovers of both.
//!
//! *What it stands on.* `manifest` for what a database has, `segments` for its files, `journal` for the seed of its frames, `inputs` for the
//! columns' header, `devices` for columns, and `replay` for recovery.
#![tactic(auto)]

mod fault;
mod image;
mod restoring;

pub use fault::RestoreFault;
pub use restoring::{Restored, TableBytes, restore_table};
