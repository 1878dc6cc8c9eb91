//! Why bytes are no header of a journal.

use thiserror::Error;

/// Why bytes don't begin with a journal's header. The first that holds is answered, in the order of the variants.
#[derive(Clone, Copy, Debug, PartialEq, Eq, Error)]
pub enum HeaderFault {
    /// There are no bytes.
    #[error("Empty")]
    Empty,
    /// There are fewer than 36 bytes.
    #[error("CutHeader")]
    CutHeader,
    /// The first four bytes aren't `NMJ1`.
    #[error("NoJournal")]
    NoJournal,
    /// The version isn't 1.
    #[error("UnknownVersion")]
    UnknownVersion,
    /// The check isn't that of the bytes before it.
    #[error("BadHeader")]
    BadHeader,
    /// The seed of its salt is 0.
    #[error("BadSeed")]
    BadSeed,
    /// The number of the commit before its first is 2^63 or more.
    #[error("BadBase")]
    BadBase,
}
