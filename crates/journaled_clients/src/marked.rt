//! A store whose images are marked in a journal of their own before it takes them.
ghost use Rattle.std.specs.Prelude.{◌≡◌, ◌⊎◌, ◌<◌, ◌^◌, Err, IfErr, MatchResult, OnOk};
ghost use Rattle.images.specs.Images.{with_mark};
ghost use Rattle.manager.specs.Layered.{IsRebuilt};
ghost use Rattle.manager.specs.Managed.{rebuilt_of};
ghost use Rattle.shared.specs.Generations.{IsAnswered, IsUnready};
ghost use Rattle.journaled_clients.specs.Marked.{mark_of};

use devices::Store;
use images::{ImageMark, Images};
use logging::{Appender, FileJournal, LogFault};
use manager::{CheckpointFault, Manager, Rebuilt};
use shared::ImageStore;
use values::Schema;

/// The number of the first mark.
const FIRST_MARK: u64 = 1;

/// A store, and the journal of its images' marks. No image is offered to the store before its mark is durable.
#[derive(Drop)]
pub struct MarkedStore {
    pub store: Store,
    pub images: Images<FileJournal>,
    /// The generation of the next image; 2^32 once all are used.
    next: u64,
    ghost next_is: { next ≡ store.next },
}

impl MarkedStore {
    /// A store, whose next image has this generation, with a new journal for its marks. Takes no memory.
    pub fn new(store: Store, marks: Appender<FileJournal>, next: u32) -> MarkedStore
        requires next { store.next ≡ next }
        ensures store { result.store ≡ store }
        ensures images { result.images ≡ record { log = marks; next = 1 } }
    {
        MarkedStore {
            store,
            images: Images::new(marks, FIRST_MARK),
            next: u64::from(next),
        }
    }

    /// Marks the table of a checkpoint that was prepared, and has the store take it.
    ///
    /// # Errors
    ///
    /// As the store's. `NoMemory` and `StoreFailed` also where the mark isn't durable: the store isn't asked then.
    fn take_marked(
        &mut self,
        manager: &mut Manager,
        rebuilt: Rebuilt,
    ) -> Result<u32, CheckpointFault>
        requires columns { self.old.store.schema ≡ manager.old.schema }
        requires prepared { IsRebuilt manager.old rebuilt }
        ensures columns { self.new.store.schema ≡ self.old.store.schema }
        ensures manager { MatchResult result (λ _. manager.new ≡ rebuilt_of manager.old) (λ _. manager.new ≡ manager.old) }
        ensures answer { IsAnswered self.old.store.next result self.new.store.next }
        ensures marked { (self.new.images ≡ with_mark (mark_of self.old.store.next manager.old) self.old.images)
            ⊎ (self.new.store ≡ self.old.store) }
        ensures stored { OnOk result (self.new.images ≡ with_mark (mark_of self.old.store.next manager.old) self.old.images) }
    {
        self.mark_next(manager.version().number())?;
        match self.store.append_image(rebuilt.table()) {
            Ok(generation) => {
                self.next += 1;
                manager.install_checkpoint(rebuilt);
                Ok(generation)
            }
            Err(fault) => Err(CheckpointFault::of_store(fault)),
        }
    }

    /// Marks the next image, which is of the table after so many commits.
    fn mark_next(&mut self, number: u64) -> Result<(), CheckpointFault>
        ensures ok { OnOk result (self.new.images ≡ with_mark (record { generation = self.old.store.next; number = number }) self.old.images) }
        ensures err { IfErr result (λ fault. IsAnswered self.old.store.next (Err fault) self.old.store.next) }
        ensures store { self.new.store ≡ self.old.store }
    {
        let Ok(generation) = u32::try_from(self.next) else {
            return Err(CheckpointFault::GenerationsSpent);
        };
        match self.images.mark(ImageMark { generation, number }) {
            Ok(()) => Ok(()),
            Err(LogFault::NoMemory) => Err(CheckpointFault::NoMemory),
            Err(LogFault::DeviceFailed) => Err(CheckpointFault::StoreFailed),
        }
    }
}

impl ImageStore for MarkedStore {
    ghost columns = { λ marked. marked.store.schema };

    ghost next = { λ marked. marked.store.next };

    fn schema(&self) -> &Schema {
        self.store.schema()
    }

    fn is_ready(&self) -> Result<(), CheckpointFault> {
        if self.images.has_failed() {
            return Err(CheckpointFault::StoreFailed);
        }
        self.store.is_ready()
    }

    fn take(&mut self, manager: &mut Manager, rebuilt: Rebuilt) -> Result<u32, CheckpointFault> {
        self.take_marked(manager, rebuilt)
    }
}
