//! A table of a database, as the program prints it: which of its files are wanted, and what is recovered of their bytes.
//!
//! *What a contract sees.* The text of a manifest, the names in its folder, and the bytes of a table's files. What is shown is what
//! `databases` restores of them.
//!
//! *What it stands on.* `manifest` for what a database has, `segments` for which table is meant and for its files, `databases` for
//! what is restored, and `pdtcli` for what is shown and for refusals.
#![tactic(auto)]

mod meaning;
mod recovery;
mod wanted;

pub use databases::TableBytes;
pub use recovery::recover_table;
pub use wanted::{WantedFiles, wanted_files};
