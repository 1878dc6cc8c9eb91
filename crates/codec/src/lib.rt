//! What the payload of a journal's frame says of a commit: which tables it changed, and how, by position.
//!
//! *What a contract sees.* A payload is its parts, one for each table that changed, in ascending table; a part is a table's
//! number and the entries of its tree. Bytes are the payload of one list of parts at most: what is written is read again, and
//! what is no payload is refused with its first fault from the left.
//!
//! *What it stands on.* `values`, `blocks` for how a cell is spelt, `model` for entries, `delta` for trees, and `thiserror`.
#![tactic(auto)]

mod cells;
mod entries;
mod fault;
mod fit;
mod format;
mod laws;
mod parts;
mod spelling;

pub use fault::{PayloadFault, SpellFault};
pub use fit::entries_fit;
pub use laws::{
    a_payload_is_of_one_list, commit_entries_fit, other_tables_read_none, parts_read_back,
    what_reads_is_spelt,
};
pub use parts::{PartBytes, read_part, tables_in};
pub use spelling::write_part;
