//! The texts of a database's folder: its manifest, which says the tables and for each the image that stands for it; the names of its
//! files; and the declared columns of its tables.
//!
//! *What a contract sees.* A manifest is its head and its tables, declared columns are a format of each column, and a file is its kind and
//! its numbers. Each has one spelling; that of the first two ends with its check. What is read is spelt so, what is spelt so is read, and
//! what is written is that spelling. A manifest of a later version is known by its first line and its check.
//!
//! *What it stands on.* `journal` for the check, `itoa` for decimal numbers, and `thiserror` for what a fault shows.
#![tactic(auto)]

mod entries;
mod fault;
mod fields;
mod file_name;
mod lines;
mod names;
mod numbers;
mod reading;
mod types;
mod version;
mod writing;

pub use entries::{FileMark, Manifest, ManifestHead, TableEntry, TableLine};
pub use fault::{ManifestFault, WriteFault};
pub use file_name::{FileName, put_file_name, read_file_name};
pub use reading::read_manifest;
pub use types::{read_types, write_types};
pub use version::is_later_manifest;
pub use writing::write_manifest;
