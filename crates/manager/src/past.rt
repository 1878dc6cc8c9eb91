//! A list of records that clauses alone read.
ghost use Rattle.std.specs.Prelude.{◌≡◌, List, [], ◌∷◌, ◌++◌};
ghost use Rattle.std.specs.Borrow.{ftrue};
ghost use Rattle.model.specs.History as seen;

use model::{CommitReply, Record};
use std::collections::LinkedList;
use std::marker::Model;
use txn::Txn;

/// Records that are counted and not kept. It takes no bytes, and its calls do nothing at run time.
#[derive(Drop)]
pub(crate) struct Past {
    pub(crate) ghost records: { List seen.Record },
}

impl Model for Past {
    ghost also_owns = { λ _. ftrue };
}

impl Past {
    ghost use Rattle.manager.specs.Managed.{record_of};

    /// No records.
    pub(crate) fn none() -> Past
        ensures { result.records ≡ [] }
    {
        Past {}
    }

    /// These records, and others behind them.
    pub(crate) fn and(&self, links: &LinkedList<Record>) -> Past
        ensures { result.records ≡ self.now.records ++ links.now }
    {
        Past {}
    }

    /// These records, and that of a transaction with the reply to its commit behind them.
    pub(crate) fn and_one(&self, txn: &Txn, reply: &CommitReply) -> Past
        ensures { result.records ≡ self.now.records ++ record_of txn.now reply.now ∷ [] }
    {
        Past {}
    }
}

// It owns nothing.
unsafe impl Send for Past {}
