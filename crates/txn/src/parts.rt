//! What a transaction comes to.
use crate::version::Version;
use delta::DeltaTree;
use model::{Write, WriteReply};

/// What a transaction hands over when it ends by a commit.
#[derive(Drop)]
pub struct Parts {
    pub client: u32,
    /// How many commits its version had.
    pub begin: u64,
    /// The canonical entries of the writes' effects over the version's table.
    pub tree: DeltaTree,
    /// Each with the reply that was due.
    pub writes: Vec<(Write, WriteReply)>,
}

/// What a transaction has that its record doesn't.
#[derive(Drop)]
pub struct Rest {
    /// That it began over.
    pub version: Version,
    /// The canonical entries of the writes' effects over the version's table.
    pub tree: DeltaTree,
}
