//! The fold: the Write-PDT goes into the Read-PDT, and no table changes.
ghost use Rattle.std.specs.Prelude.{◌≡◌, IfOk, MatchResult};
ghost use Rattle.txn.specs.Txn.{Transaction};

use crate::manager::Manager;
use delta::DeltaTree;
use layers::propagate;
use std::marker::Model;
use std::sync::Arc;
use txn::{ReadTree, Version};
use values::NoMemory;

/// The newest version with its Write-PDT folded into its Read-PDT, made before anything changes.
#[derive(Drop)]
pub struct Folded {
    version: Version,
}

impl Model for Folded {
    ghost use Rattle.manager.specs.Layered.{Layered};

    ghost Value = { Layered };

    ghost view = { λ f. record { layers = f.version.layers; version = f.version } };
}

impl Folded {
    /// The version that the fold will install: the newest one, under other layers. Takes no memory.
    pub fn version(&self) -> &Version
        ensures { result.now ≡ self.now.version }
    {
        &self.version
    }
}

impl Manager {
    ghost use Rattle.manager.specs.Layered.{IsFolded};
    ghost use Rattle.manager.specs.Managed.{HasFolded, IsOwn, with_layers};

    /// Folds the Write-PDT into the Read-PDT (Héman et al. 2010, "Propagate"), and leaves an empty Write-PDT: commits
    /// after it are folded into a smaller tree. Neither the table nor an open transaction changes. Takes a copy of the
    /// Read-PDT, and a descent in it for each entry of the Write-PDT.
    ///
    /// # Errors
    ///
    /// `NoMemory` where a growth is refused: the layers stay as they were.
    pub fn fold(&mut self) -> Result<(), NoMemory>
        ensures folded { MatchResult result (λ _. HasFolded self.old self.new) (λ _. self.new ≡ self.old) }
        ensures own { (txn : Transaction) → IsOwn self.old txn → IsOwn self.new txn }
    {
        let folded = self.prepare_fold()?;
        self.install_fold(folded);
        Ok(())
    }

    /// What a fold will install. Changes nothing; takes the time and the memory of the fold.
    ///
    /// # Errors
    ///
    /// `NoMemory` where a growth is refused.
    pub fn prepare_fold(&self) -> Result<Folded, NoMemory>
        ensures { IfOk result (λ folded. IsFolded self.now folded) }
    {
        let newest = &self.newest;
        let tree = propagate(self.alloc, newest.read_tree(), newest.write_tree())?;
        let read = Arc::new(self.alloc, ReadTree::new(tree))?;
        let none = DeltaTree::new(self.alloc, newest.write_tree().key_cols());
        let write = Arc::new(self.alloc, none)?;
        let stable = newest.stable().clone()?;
        let version = Version::stacked(self.alloc, stable, read, write, newest.number())?;
        Ok(Folded { version })
    }

    /// Installs a fold that was prepared while the history was as it is. Takes no memory, and no time but for what goes.
    pub fn install_fold(&mut self, folded: Folded)
        requires prepared { IsFolded self.old folded }
        ensures { self.new ≡ with_layers self.old folded.layers }
    {
        let Folded { version } = folded;
        self.newest = version;
    }
}
