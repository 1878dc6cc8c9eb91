//! Versions that are kept: transactions begin over one whatever was committed since.
ghost use Rattle.std.specs.Prelude.{◌≡◌, ℕ, IfOk};
ghost use Rattle.manager.specs.Pinned.{begun_over, pin_of, pinned};
ghost use Rattle.manager.specs.Restacked.{stable_of};

use crate::fold::Folded;
use crate::manager::Manager;
use stable::StableTable;
use std::alloc::Global;
use std::marker::Model;
use txn::{Txn, Version};
use values::NoMemory;

/// A version that is kept, with the limit of rows of its manager. Any thread may begin transactions over it, without the
/// manager. While it is kept, so is in memory what commits, folds and checkpoints have replaced since.
#[derive(Drop)]
pub struct Pin {
    pub(crate) version: Version,
    pub(crate) row_limit: u64,
}

impl Model for Pin {
    ghost use Rattle.std.specs.Prelude.{◌≤◌, length};
    ghost use Rattle.txn.specs.Version.{lower_table};
    ghost use Rattle.values.specs.declared.limits.TheConstants.{MAX_ROWS};
    ghost use Rattle.manager.specs.Pinned.{Pinned, pinned};

    ghost Value = { Pinned };

    ghost view = { λ p. pinned p.version p.row_limit };

    ghost invariant = { λ p. (length (lower_table p.version.layers) ≤ p.row_limit) × (p.row_limit ≤ MAX_ROWS) };
}

impl Pin {
    /// The number of its table: how many commits made it. Takes no memory.
    pub fn number(&self) -> u64
        ensures { result ≡ self.now.version.number }
    {
        self.version.number()
    }

    /// The same version, kept once more. Takes the same time whatever the table holds.
    ///
    /// # Errors
    ///
    /// `NoMemory` where one owner more is refused.
    pub fn copy(&self) -> Result<Pin, NoMemory>
        ensures { IfOk result (λ copied. copied ≡ self.now) }
    {
        Ok(Pin {
            version: self.version.copy()?,
            row_limit: self.row_limit,
        })
    }

    /// A transaction of the client over its table, which commits as one that began when it was the newest. Takes the same
    /// time whatever the table and its layers hold.
    ///
    /// # Errors
    ///
    /// `NoMemory` where a growth, or a share of the version, is refused.
    pub fn begin(&self, alloc: Global, client: u32) -> Result<Txn, NoMemory>
        ensures { IfOk result (λ txn. txn ≡ begun_over self.now client) }
    {
        Txn::open(alloc, self.version.copy()?, client, self.row_limit)
    }

    /// Its rows as a stable table.
    ///
    /// # Errors
    ///
    /// `NoMemory` where a growth is refused.
    pub fn to_table(&self, alloc: Global) -> Result<StableTable, NoMemory>
        ensures { IfOk result (λ table. table ≡ stable_of self.now.version) }
    {
        self.version.image().to_table(alloc)
    }
}

impl Manager {
    ghost use Rattle.manager.specs.Layered.{IsFolded};
    ghost use Rattle.manager.specs.Managed.{begun_at};

    /// Keeps the newest version. Takes the same time whatever the table and its layers hold.
    ///
    /// # Errors
    ///
    /// `NoMemory` where a share of the version is refused.
    pub fn pin(&self) -> Result<Pin, NoMemory>
        ensures pinned { IfOk result (λ pin. pin ≡ pin_of self.now) }

        // What begins over it is what begins now.
        ensures begins { IfOk result (λ pin. (client : ℕ) → begun_over pin client ≡ begun_at self.now client) }
    {
        Ok(Pin {
            version: self.newest.copy()?,
            row_limit: self.row_limit(),
        })
    }

    /// Keeps the version that a fold will install: the newest one, under other layers.
    ///
    /// # Errors
    ///
    /// `NoMemory` where a share of the version is refused.
    pub fn pin_folded(&self, folded: &Folded) -> Result<Pin, NoMemory>
        requires folded { IsFolded self.now folded.now }
        ensures pinned { IfOk result (λ pin. pin ≡ pinned folded.now.version self.now.start.limit) }
        ensures begins { IfOk result (λ pin. (client : ℕ) → begun_over pin client ≡ begun_at self.now client) }
    {
        // It brings what each manager keeps.
        let _lawful = self.history();
        Ok(Pin {
            version: folded.version().copy()?,
            row_limit: self.row_limit(),
        })
    }
}
