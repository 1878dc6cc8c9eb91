//! A column of a store: its frames, their bytes, and what a list of bytes says as a column. Columns are read in both
//! formats, also one after the other, and written in format 2.
//!
//! *What a contract sees.* A column is its bytes. A block that was read is its type and its values, though its payload alone
//! is lent from the column: `StoredBlock::read` decodes it, and finds no fault any more.
//!
//! *What it stands on.* `values`, `blocks` for the values of a block and their payload, and `thiserror`.
#![tactic(auto)]

mod fault;
mod frame;
mod laws;
mod reading;
mod seam;
mod stored;
mod writing;

pub use fault::ReadFault;
pub use frame::{Format, Frame, Head, Kind, Part};
pub use laws::{a_column_is_in_one_way, a_column_reads_back, what_reads_is_a_column};
pub use reading::read_column;
pub use seam::{Seam, Unfinished};
pub use stored::StoredBlock;
pub use writing::{write_header, write_part};
