//! The type that names an opening and its journal.
use group_commit::JournalId;
use publishing::Opening;
use std::marker::Brand;

/// Names an opening, its journal, and its table's number in the payloads.
pub trait DurableOpening: Opening + JournalId {
    ghost use Rattle.std.specs.Prelude.{ℕ};

    ghost table: { ℕ };
}

impl DurableOpening for Brand {
    ghost table = { 0 };
}
