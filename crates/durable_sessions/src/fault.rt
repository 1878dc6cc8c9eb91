//! Why a commit isn't acknowledged, why a session doesn't begin, and why no image is stored.
use manager::CheckpointFault;
use thiserror::Error;

/// Why a commit isn't acknowledged.
#[derive(Clone, Copy, Debug, PartialEq, Eq, Error)]
pub enum CommitFault {
    /// The session has no transaction open.
    #[error("NotOpen")]
    NotOpen,
    /// A growth was refused. The transaction stays open.
    #[error("NoMemory")]
    NoMemory,
    /// The session has seen more commits than are held. The transaction stays open.
    #[error("Stranger")]
    Stranger,
    /// What it changes has 2^32 bytes or more as a payload. The transaction stays open.
    #[error("TooLong")]
    TooLong,
    /// The device had failed before. The transaction stays open.
    #[error("JournalFailed")]
    JournalFailed,
    /// It was decided as committed, and the device failed before its frame was durable. Recovery decides whether it is kept.
    #[error("Unsure")]
    Unsure,
}

/// Why a session doesn't begin over durable commits.
#[derive(Clone, Copy, Debug, PartialEq, Eq, Error)]
pub enum BeginFault {
    /// The session has a transaction open already.
    #[error("AlreadyOpen")]
    AlreadyOpen,
    /// What the sessions share is closed, or no reader is admitted.
    #[error("Ended")]
    Ended,
    /// A growth, or a share of the version, was refused.
    #[error("NoMemory")]
    NoMemory,
    /// The device failed over a commit of the newest version. Recovery decides whether that commit is kept.
    #[error("NotDurable")]
    NotDurable,
}

/// Why no image of durable commits is stored.
#[derive(Clone, Copy, Debug, PartialEq, Eq, Error)]
pub enum ImageFault {
    /// The device failed before the commits of the image were durable. The store wasn't asked.
    #[error("JournalFailed")]
    JournalFailed,
    /// The store doesn't have it.
    #[error("{0}")]
    Unstored(CheckpointFault),
}
