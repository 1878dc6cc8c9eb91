//! The calls of a script, each with its client.
use model::Write;
use values::{Key, Text};

/// What a client asks for. Each verb, or kind of write, is a variant.
#[derive(Drop)]
pub enum Call {
    /// Opens a transaction.
    Begin,
    /// Writes in the open transaction.
    Write(Write),
    /// Reads the open transaction's image.
    Read(Read),
    /// Commits the open transaction.
    Commit,
    /// Ends the open transaction and leaves no record of it.
    Abort,
    /// Folds the Write-PDT into the Read-PDT.
    Fold,
    /// Writes the newest image to the store.
    Checkpoint,
    /// Hands the history out, and starts another at the newest version.
    Cut,
}

/// What is read of an image. Positions count from 0.
#[derive(Drop)]
pub enum Read {
    /// The row of a key.
    Get(Key),
    /// The row at a position.
    At(u64),
    /// How many keys are below this one, and whether it is there.
    Rank(Key),
    /// How many rows there are.
    Len,
    /// The rows from one position up to but without another.
    Scan(u64, u64),
}

/// A call and the client that makes it.
#[derive(Drop)]
pub struct ClientCall {
    /// The client's number, from 0 in order of first appearance.
    pub client: u32,
    /// What it asks for.
    pub call: Call,
}
