//! The steps of a journal, and the lanes in which they are due.
use crate::batch::Batch;

/// Where steps are due: at most one of each lane is under way, and those of different lanes may overlap.
#[derive(Clone, Copy, Debug, PartialEq, Eq)]
pub enum Lane {
    /// Commits are appended to the file that is written.
    Append,
    /// That file is synced.
    Sync,
    /// The next file is made, and its name synced.
    Next,
}

/// How far a commit is to come.
#[derive(Clone, Copy, Debug, PartialEq, Eq)]
pub enum Goal {
    /// Its append is done.
    Written,
    /// A crash leaves it.
    Durable,
}

/// How far the next file is.
#[derive(Clone, Copy, Debug, PartialEq, Eq)]
pub enum Ahead {
    NotWanted,
    Wanted,
    /// Its creation is under way.
    Making,
    Made,
    /// A sync of the folder is under way.
    Keeping,
    /// Its name is durable: the journal goes on in it once each commit before is durable.
    Kept,
}

/// What is to be done.
#[derive(Drop)]
pub enum Step {
    /// The bytes of these commits are to be written at the end of their file.
    Append(Batch),
    /// The journal's file of this number is to be synced.
    Sync(u64),
    /// The file of this number is to be made, with no bytes.
    Create(u64),
    /// The names in the folder are to be synced.
    SyncNames,
}
