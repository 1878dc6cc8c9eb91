//! The checkpoint: the newest image goes to a store, and is then the stable table. No table changes.
ghost use Rattle.std.specs.Prelude.{◌≡◌, ◌≢◌, IfOk, MatchResult};
ghost use Rattle.devices.specs.Appending.{MayFollow, Stores, taken_by};
ghost use Rattle.devices.specs.declared.fault.StoreFault.TheVariants as store_fault;
ghost use Rattle.manager.specs.Checkpoint.{answer_of_store, fault_of_store};
ghost use Rattle.manager.specs.Managed.{IsOwn, newest_stable, rebuilt_of};
ghost use Rattle.txn.specs.Txn.{Transaction};

use crate::fault::CheckpointFault;
use crate::manager::Manager;
use devices::{ColumnDevice, Store, StoreFault};
use stable::StableTable;
use std::marker::Model;
use std::sync::Arc;
use txn::Version;
use values::NoMemory;

/// The newest version with its image as the stable table and no entries above it, made before anything changes.
#[derive(Drop)]
pub struct Rebuilt {
    version: Version,
}

impl Model for Rebuilt {
    ghost use Rattle.manager.specs.Layered.{Layered};

    ghost Value = { Layered };

    ghost view = { λ r. record { layers = r.version.layers; version = r.version } };
}

impl Rebuilt {
    /// The version that the checkpoint will install: the newest one, under other layers. Takes no memory.
    pub fn version(&self) -> &Version
        ensures { result.now ≡ self.now.version }
    {
        &self.version
    }

    /// The stable table that it will install, which a store has to take before. Takes no memory.
    pub fn table(&self) -> &StableTable
        ensures { result.now ≡ self.now.layers.stable }
    {
        self.version.stable()
    }
}

impl Manager {
    ghost use Rattle.manager.specs.Checkpoint.{Checkpoints};
    ghost use Rattle.manager.specs.Layered.{IsRebuilt};

    /// Writes the newest image to the store, and answers its generation. The image is the stable table then, and the
    /// Read- and the Write-PDT have no entries. Neither the table, nor the trees of the last commits, nor an open
    /// transaction changes. Takes a copy of the image and of its bytes.
    ///
    /// # Errors
    ///
    /// `StoreFailed` where an earlier append to the store failed, then `GenerationsSpent`, then `NoMemory` where a growth
    /// is refused: the store is as it was. `DeviceFailed` with the first device that fails, after which every checkpoint
    /// to this store answers `StoreFailed`. The manager keeps the layers that it had.
    pub fn checkpoint(&mut self, store: &mut Store) -> Result<u32, CheckpointFault>
        requires { store.old.schema ≡ self.old.schema }
        ensures rebuilt { MatchResult result (λ _. self.new ≡ rebuilt_of self.old) (λ _. self.new ≡ self.old) }
        ensures own { (txn : Transaction) → IsOwn self.old txn → IsOwn self.new txn }
        ensures answer { let taken = taken_by (λ b. contents (b.vtable, b.value)) (λ b. failures (b.vtable, b.value)) in
            Checkpoints self.old (taken store.old.devices.items store.old.next) result (taken store.new.devices.items store.new.next) }

        // Where an image may follow what the devices took, they store the newest table under its generation then; after a
        // failure what they stored before, or that.
        ensures stored { let taken = taken_by (λ b. contents (b.vtable, b.value)) (λ b. failures (b.vtable, b.value)) in
            MayFollow self.old.schema (taken store.old.devices.items store.old.next)
            → Stores self.old.schema (newest_stable self.old) (taken store.old.devices.items store.old.next) (answer_of_store result)
            (taken store.new.devices.items store.new.next) }
        ensures ready { let taken = taken_by (λ b. contents (b.vtable, b.value)) (λ b. failures (b.vtable, b.value)) in
            MayFollow store.old.schema (taken store.old.devices.items store.old.next)
            → MayFollow store.new.schema (taken store.new.devices.items store.new.next) }
        ensures schema { store.new.schema ≡ store.old.schema }
    {
        // A store that can't take the image is told before the image is made.
        if let Err(fault) = store.ready() {
            return Err(CheckpointFault::of_store(fault));
        }
        let rebuilt = self.prepare_checkpoint()?;
        match store.append_image(rebuilt.table()) {
            Ok(generation) => {
                self.install_checkpoint(rebuilt);
                Ok(generation)
            }
            Err(fault) => Err(CheckpointFault::of_store(fault)),
        }
    }

    /// What a checkpoint will install, and the table that a store is offered before. Changes nothing; takes the time and
    /// the memory of a copy of the image.
    ///
    /// # Errors
    ///
    /// `NoMemory` where a growth is refused.
    pub fn prepare_checkpoint(&self) -> Result<Rebuilt, NoMemory>
        ensures { IfOk result (λ rebuilt. IsRebuilt self.now rebuilt) }
    {
        let table = self.newest().to_table(self.alloc)?;
        let stable = Arc::new(self.alloc, table)?;
        let version = Version::new(self.alloc, stable, self.newest.number())?;
        Ok(Rebuilt { version })
    }

    /// Installs a checkpoint that was prepared while the history was as it is. Whoever calls it has had a store take its
    /// table. Takes no memory, and no time but for what goes.
    pub fn install_checkpoint(&mut self, rebuilt: Rebuilt)
        requires { IsRebuilt self.old rebuilt }
        ensures { self.new ≡ rebuilt_of self.old }
    {
        let Rebuilt { version } = rebuilt;
        self.newest = version;
    }
}

impl CheckpointFault {
    /// The fault of a checkpoint by that of its store, which has a device for each column.
    pub fn of_store(fault: StoreFault) -> CheckpointFault
        requires { fault ≢ store_fault.WrongCount }
        ensures { fault_of_store result ≡ fault }
    {
        match fault {
            StoreFault::WrongCount => unreachable!(),
            StoreFault::StoreFailed => CheckpointFault::StoreFailed,
            StoreFault::GenerationsSpent => CheckpointFault::GenerationsSpent,
            StoreFault::NoMemory => CheckpointFault::NoMemory,
            StoreFault::DeviceFailed(i) => CheckpointFault::DeviceFailed(i),
        }
    }
}
