//! A checkpoint while transactions commit: its table is made of the version at its begin, and takes the place of what
//! stands below the Write-PDT. The commits since then stay in the Write-PDT, and no table changes.
ghost use Rattle.std.specs.Prelude.{◌≡◌, IfOk, MatchResult};
ghost use Rattle.txn.specs.Txn.{Transaction};

use crate::manager::Manager;
use delta::DeltaTree;
use stable::StableTable;
use std::marker::Model;
use std::sync::Arc;
use txn::{ReadTree, Version};
use values::NoMemory;

/// The newest version over another stable table, made before anything changes.
#[derive(Drop)]
pub struct Restacked {
    version: Version,
}

impl Model for Restacked {
    ghost use Rattle.manager.specs.Layered.{Layered};

    ghost Value = { Layered };

    ghost view = { λ r. record { layers = r.version.layers; version = r.version } };
}

impl Restacked {
    /// The version that will be installed: the newest one, under other layers. Takes no memory.
    pub fn version(&self) -> &Version
        ensures { result.now ≡ self.now.version }
    {
        &self.version
    }
}

impl Manager {
    ghost use Rattle.manager.specs.Managed.{IsOwn};
    ghost use Rattle.manager.specs.Restacked.{IsRestacked, restacked_of, stable_below};

    /// Makes the rows below the Write-PDT the stable table, given as such a table, under a Read-PDT with no entries. The
    /// Write-PDT stays, with the commits since the last fold. Neither the table, nor the trees of the last commits, nor
    /// an open transaction changes. Takes the same time whatever the table holds, but for what goes.
    ///
    /// The version that a fold leaves has just these rows. So a checkpoint may share it (`Version::copy`), and make and
    /// store its table while transactions commit, as long as nothing else folds or checkpoints.
    ///
    /// # Errors
    ///
    /// `NoMemory` where a growth, or a share of a layer, is refused: the layers stay as they were.
    pub fn restack(&mut self, table: &Arc<StableTable>) -> Result<(), NoMemory>
        requires below { table.now.value ≡ stable_below self.old.layers }
        ensures restacked { MatchResult result (λ _. self.new ≡ restacked_of self.old) (λ _. self.new ≡ self.old) }
        ensures own { (txn : Transaction) → IsOwn self.old txn → IsOwn self.new txn }
    {
        let restacked = self.prepare_restack(table)?;
        self.install_restack(restacked);
        Ok(())
    }

    /// What `restack` will install. Changes nothing.
    ///
    /// # Errors
    ///
    /// `NoMemory` where a growth, or a share of a layer, is refused.
    pub fn prepare_restack(&self, table: &Arc<StableTable>) -> Result<Restacked, NoMemory>
        requires below { table.now.value ≡ stable_below self.now.layers }
        ensures { IfOk result (λ restacked. IsRestacked self.now restacked) }
    {
        let none = DeltaTree::new(self.alloc, table.schema().key_cols());
        let read = Arc::new(self.alloc, ReadTree::new(none))?;
        let newest = &self.newest;
        let stable = table.clone()?;
        let write = newest.write_tree().clone()?;
        let version = Version::stacked(self.alloc, stable, read, write, newest.number())?;
        Ok(Restacked { version })
    }

    /// Installs what was prepared while the history and the layers were as they are. Takes no memory, and no time but for
    /// what goes.
    pub fn install_restack(&mut self, restacked: Restacked)
        requires prepared { IsRestacked self.old restacked }
        ensures { self.new ≡ restacked_of self.old }
    {
        let Restacked { version } = restacked;
        self.newest = version;
    }
}
