//! The Read-PDT, packed for scans while transactions commit: a version that is kept is packed without the manager, and the newest
//! version shares its Read-PDT then. No table changes, and no layer.
ghost use Rattle.std.specs.Prelude.{◌≡◌, IfOk};
ghost use Rattle.txn.specs.Txn.{Transaction};

use crate::manager::Manager;
use crate::pin::Pin;
use std::alloc::Global;
use values::NoMemory;

impl Pin {
    /// The same version, kept with its Read-PDT packed. It takes a walk over that tree, and two for each column of numbers.
    ///
    /// # Errors
    ///
    /// `NoMemory` where a growth, or a share of a layer, is refused.
    pub fn packed(&self, alloc: Global) -> Result<Pin, NoMemory>
        ensures { IfOk result (λ packed. packed ≡ self.now) }
    {
        Ok(Pin {
            version: self.version.packed(alloc)?,
            row_limit: self.row_limit,
        })
    }
}

impl Manager {
    ghost use Rattle.manager.specs.Managed.{IsOwn};

    /// Has the newest version share the Read-PDT of a version that is kept: an equal one, which was packed. What begins from here on
    /// scans it so, up to the next fold or checkpoint. Neither the table nor a layer changes. Takes the same time whatever they hold,
    /// but for what goes.
    ///
    /// # Errors
    ///
    /// `NoMemory` where a growth, or a share of a layer, is refused.
    pub fn repack(&mut self, packed: &Pin) -> Result<(), NoMemory>
        requires same { packed.now.version.layers.read ≡ self.old.layers.read }
        ensures kept { self.new ≡ self.old }
        ensures own { (txn : Transaction) → IsOwn self.old txn → IsOwn self.new txn }
    {
        self.newest = self.newest.with_read_of(self.alloc, &packed.version)?;
        Ok(())
    }
}
