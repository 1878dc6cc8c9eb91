//! A place in a transaction's writes to which it can go back.
ghost use Rattle.std.specs.Prelude.{◌≡◌, IfOk};

use delta::DeltaTree;
use std::marker::Model;
use values::NoMemory;

/// How many writes a transaction had, and its tree then, whose nodes are shared.
#[derive(Drop)]
pub struct Mark {
    pub(crate) count: usize,
    pub(crate) tree: DeltaTree,
}

impl Model for Mark {
    ghost use Rattle.txn.specs.Marks.{Marked};

    ghost Value = { Marked };

    ghost view = { λ m. record { count = m.count; tree = m.tree } };
}

impl Mark {
    /// The same mark: going back takes one, so whoever may go back twice keeps a copy. It takes no memory.
    ///
    /// # Errors
    ///
    /// `NoMemory` where the tree has 2^63 - 1 owners.
    pub fn copy(&self) -> Result<Mark, NoMemory>
        ensures { IfOk result (λ copied. copied ≡ self.now) }
    {
        Ok(Mark {
            count: self.count,
            tree: self.tree.copy()?,
        })
    }
}
