//! What is published.
use manager::Manager;
use std::snapshot::Snapshot;
use txn::{Txn, Version};

/// What was published: a commit, a version of the same table, or a cut of the history, each with the version that readers
/// got by it. Clauses alone read what an item holds: the code keeps no list of items.
#[derive(Drop)]
pub enum Item {
    /// The manager at the opening, with which a book begins. It stands in no list.
    Opens(Snapshot<Manager>),
    /// A transaction that was committed.
    Commits(Snapshot<Txn>, Snapshot<Version>),
    /// A fold or a checkpoint: the table stays.
    Same(Snapshot<Version>),
    /// A cut of the history, at this number of commits. The table stays.
    Cuts(u64, Snapshot<Version>),
}
