//! The model of a table under transactions: its definitions are in specs/, its laws in proofs/,
//! and the plain types that both and the crates above share are here.
#![tactic(auto)]

mod clash;
mod effect;
mod entry;
mod laws;
mod record;
mod write;

pub use clash::{Clash, ClashKind, ConflictRule};
pub use effect::{Cells, Effect};
pub use entry::{Change, Entry};
pub use laws::{
    base_stands_at_rid, composes_in_turn, conflict_is_found, decides_in_turn, entries_are_ordered,
    entries_split, first_clash_is_least, fits_the_newest, folds_to_composed, insert_stands_at_rid,
    leaves_table, legal_commits_fit, legal_tables_keep_limit, merges_to_table, rebases_entries,
    write_edits, write_keeps, write_keeps_limit, writes_keep,
};
pub use record::Record;
pub use write::{CommitReply, Write, WriteReply, is_done, key_of_write, reply_where};
