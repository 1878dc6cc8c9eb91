//! What a file was handed, which clauses alone read.
ghost use Rattle.std.specs.Prelude.{◌≡◌, ℕ, ◌++◌, List, length};
ghost use Rattle.std.specs.Borrow.{ftrue};

use std::marker::Model;

/// Bytes that are handed on and not kept, and how many of them are safe. It takes no bytes, and its calls do nothing at run time.
#[derive(Drop)]
pub(crate) struct Handed {
    pub(crate) ghost bytes: { List ℕ },
    pub(crate) ghost safe: { ℕ },
}

impl Model for Handed {
    ghost also_owns = { λ _. ftrue };
}

impl Handed {
    /// These bytes, all of them safe.
    pub(crate) fn all(bytes: &[u8]) -> Handed
        ensures { (result.bytes ≡ bytes.now) × (result.safe ≡ length bytes.now) }
    {
        Handed {}
    }

    /// These bytes, and others behind them.
    pub(crate) fn and(&self, piece: &[u8]) -> Handed
        ensures { (result.bytes ≡ self.now.bytes ++ piece.now) × (result.safe ≡ self.now.safe) }
    {
        Handed {}
    }

    /// These bytes, all of them safe now.
    pub(crate) fn synced(&self) -> Handed
        ensures { (result.bytes ≡ self.now.bytes) × (result.safe ≡ length self.now.bytes) }
    {
        Handed {}
    }
}

// It owns nothing.
unsafe impl Send for Handed {}
