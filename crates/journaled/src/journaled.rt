//! A store with a journal: the calls of its clients.
ghost use Rattle.std.specs.Prelude.{◌≡◌, ◌<◌, ◌^◌, Option, None, IfErr, IfSome, IsTrue, OnOk};
ghost use Rattle.devices.specs.Appending.{MayTake, taken_by};
ghost use Rattle.images.specs.Images.{IsUnmarked, with_mark};
ghost use Rattle.inputs.specs.Typed.{is_typed_call};
ghost use Rattle.manager.specs.Managed.{IsManaged, IsOwn, newest_version};
ghost use Rattle.pdtcli.specs.Run.{FoldStep};
ghost use Rattle.txn.specs.Txn.{IsTransaction, Transaction};
ghost use Rattle.journaled.specs.Journaled.{CommitStep, IsImaged, IsServed, OpenCommitStep, commit_reply, mark_of, with_manager};

use crate::fault::{ImageFault, image_reply};
use devices::Store;
use durable::{CommitFault, Durable};
use images::{ImageMark, Images};
use inputs::{Call, ClientCall};
use logging::{Appender, JournalDevice, LogFault};
use manager::Manager;
use model::CommitReply;
use pdtcli::{Caller, Reply};
use std::alloc::Global;
use std::marker::Model;
use txn::Txn;
use values::NoMemory;

/// The number of the table in the payloads of the journal: a store has one table.
pub(crate) const TABLE: u32 = 0;

/// The number of the first frame of the images' journal.
const FIRST_MARK: u64 = 1;

/// The journals of a store: that of its commits, and that of its images' marks.
#[derive(Drop)]
pub struct Journals<D: JournalDevice> {
    pub commits: Appender<D>,
    pub images: Appender<D>,
}

/// A manager whose commits go to a journal, with the marks of the images that its checkpoints store. Each image is marked before it
/// is stored.
#[derive(Drop)]
pub struct Journaled<D: JournalDevice> {
    durable: Durable<D>,
    images: Images<D>,
    /// The generation of the next image; 2^32 once all are spent.
    next: u64,
}

impl<D: JournalDevice> Model for Journaled<D> {
    ghost use Rattle.journaled.specs.Journaled.{Journaled as Journaling};

    ghost Value = { Journaling };

    ghost view = { λ j. record { durable = j.durable; images = j.images; next = j.next } };
}

impl<D: JournalDevice> Journaled<D> {
    ghost use Rattle.journaled.specs.Journaled.{journaled_over};

    /// The manager, whose commits and images go to new journals from now on. The next image has this generation. Takes no memory.
    pub fn new(alloc: Global, manager: Manager, journals: Journals<D>, next: u32) -> Journaled<D>
        ensures { result ≡ journaled_over manager journals.commits journals.images next }
    {
        let Journals { commits, images } = journals;
        Journaled {
            durable: Durable::new(alloc, manager, commits, TABLE),
            images: Images::new(images, FIRST_MARK),
            next: u64::from(next),
        }
    }

    /// The manager, to read. Takes no memory.
    pub fn manager(&self) -> &Manager
        ensures { result.now ≡ self.now.durable.manager }
    {
        self.durable.manager()
    }

    /// Marks the newest image, and writes it to the store.
    ///
    /// # Errors
    ///
    /// `Unmarked` where its mark isn't safe: it is not offered to the store then. `Unstored` as `Manager::checkpoint`: a store that can
    /// take no image is told before a mark is made.
    pub fn store_image(&mut self, store: &mut Store) -> Result<u32, ImageFault>
        requires schema { store.old.schema ≡ self.old.durable.manager.schema }
        requires next { self.old.next ≡ store.old.next }
        ensures imaged { let taken = taken_by (λ b. contents (b.vtable, b.value)) (λ b. failures (b.vtable, b.value)) in
            IsImaged self.old (taken store.old.devices.items store.old.next) result
            self.new (taken store.new.devices.items store.new.next) }
        ensures own { (txn : Transaction) → IsOwn self.old.durable.manager txn → IsOwn self.new.durable.manager txn }
        ensures schema { store.new.schema ≡ store.old.schema }
        ensures next { self.new.next ≡ store.new.next }
    {
        mark_where_ready(&mut self.images, self.durable.manager(), self.next, store)?;
        match self.durable.checkpoint(store) {
            Ok(generation) => {
                self.next = u64::from(generation) + 1;
                Ok(generation)
            }
            Err(fault) => Err(ImageFault::Unstored(fault)),
        }
    }

    /// Makes a call of a client.
    pub(crate) fn serve(
        &mut self,
        alloc: Global,
        caller: &mut Caller,
        asked: ClientCall,
        store: &mut Store,
    ) -> Reply
        requires own { IfSome caller.old (IsOwn self.old.durable.manager) }
        requires typed { IfSome caller.old (λ txn. IsTrue (is_typed_call txn.schema asked.call)) }
        requires schema { store.old.schema ≡ self.old.durable.manager.schema }
        requires next { self.old.next ≡ store.old.next }
        ensures served { let taken = taken_by (λ b. contents (b.vtable, b.value)) (λ b. failures (b.vtable, b.value)) in
            IsServed asked.client asked.call
            (record { journaled = self.old; own = caller.old; store = taken store.old.devices.items store.old.next }) result
            (record { journaled = self.new; own = caller.new; store = taken store.new.devices.items store.new.next }) }
        ensures schema { store.new.schema ≡ store.old.schema }
        ensures next { self.new.next ≡ store.new.next }
    {
        let ClientCall { client, call } = asked;
        match call {
            Call::Begin => caller.begin(client, self.durable.manager()),
            Call::Write(wanted) => caller.write(wanted),
            Call::Read(wanted) => caller.read(alloc, &wanted),
            Call::Commit => self.commit(caller),
            Call::Abort => caller.abort(),
            Call::Fold => self.fold(),
            Call::Checkpoint => image_reply(self.store_image(store)),
            Call::Cut => Reply::Cut(self.durable.cut().len()),
        }
    }

    /// Commits the transaction that the client has open. Where it isn't answered, it stays open.
    fn commit(&mut self, caller: &mut Caller) -> Reply
        requires own { IfSome caller.old (IsOwn self.old.durable.manager) }
        ensures step { CommitStep caller.old self.old.durable result self.new.durable caller.new }
        ensures kept { self.new ≡ record self.old { durable = self.new.durable } }
    {
        let Some(txn) = caller.take() else {
            return Reply::NotOpen;
        };
        // These are called for what their clauses tell.
        let _history = self.durable.manager().history();
        let _begin = txn.begin();
        self.commit_open(caller, txn)
    }

    /// Commits a transaction that was taken from the client. Where it isn't answered, the client has it again.
    fn commit_open(&mut self, caller: &mut Caller, txn: Txn) -> Reply
        requires own { IsOwn self.old.durable.manager txn }
        requires taken { caller.old ≡ None }
        requires managed { IsManaged self.old.durable.manager }
        requires lawful { IsTransaction txn }
        ensures step { OpenCommitStep txn self.old.durable result self.new.durable caller.new }
        ensures kept { self.new ≡ record self.old { durable = self.new.durable } }
    {
        match self.durable.commit(txn) {
            Ok(reply) => commit_reply(Ok(reply)),
            Err((txn, fault)) => {
                caller.put(txn);
                commit_reply(Err(fault))
            }
        }
    }

    /// Folds the Write-PDT into the Read-PDT.
    fn fold(&mut self) -> Reply
        ensures step { (own : Option Transaction) → FoldStep (record { manager = self.old.durable.manager; own = own }) result
            (record { manager = self.new.durable.manager; own = own }) }
        ensures newest { newest_version self.new.durable.manager ≡ newest_version self.old.durable.manager }
        ensures kept { self.new ≡ with_manager self.new.durable.manager self.old }
    {
        match self.durable.fold() {
            Ok(()) => Reply::Folded,
            Err(NoMemory) => Reply::NoMemory,
        }
    }
}

/// Marks the newest image of a manager under the next generation of the store, where the store can take an image.
fn mark_where_ready<D: JournalDevice>(
    images: &mut Images<D>,
    manager: &Manager,
    next: u64,
    store: &Store,
) -> Result<(), LogFault>
    requires { next ≡ store.now.next }
    ensures marked { let taken = taken_by (λ b. contents (b.vtable, b.value)) (λ b. failures (b.vtable, b.value)) in
        OnOk result (MayTake (taken store.now.devices.items store.now.next)
        → images.new ≡ with_mark (mark_of next manager.now) images.old) }
    ensures unmarked { let taken = taken_by (λ b. contents (b.vtable, b.value)) (λ b. failures (b.vtable, b.value)) in
        OnOk result ((MayTake (taken store.now.devices.items store.now.next) → ⊥) → images.new ≡ images.old) }
    ensures err { IfErr result (λ fault. IsUnmarked fault (mark_of next manager.now) images.old images.new) }
{
    if store.ready().is_err() {
        return Ok(());
    }
    mark_image(images, manager, next)
}

/// Marks the newest image of a manager under a generation.
fn mark_image<D: JournalDevice>(
    images: &mut Images<D>,
    manager: &Manager,
    generation: u64,
) -> Result<(), LogFault>
    requires { generation < 2 ^ 32 }
    ensures ok { OnOk result (images.new ≡ with_mark (mark_of generation manager.now) images.old) }
    ensures err { IfErr result (λ fault. IsUnmarked fault (mark_of generation manager.now) images.old images.new) }
{
    let number = manager.version().number();
    images.mark(ImageMark {
        generation: generation as u32,
        number,
    })
}

/// The reply that tells how a commit was answered.
fn commit_reply(answer: Result<CommitReply, CommitFault>) -> Reply
    ensures { result ≡ commit_reply answer }
{
    match answer {
        Ok(reply) => Reply::Decided(reply),
        Err(CommitFault::NoMemory) => Reply::NoMemory,
        Err(CommitFault::TooLong) => Reply::TooLong,
        Err(CommitFault::Unsure) => Reply::Unsure,
        Err(CommitFault::JournalFailed) => Reply::JournalFailed,
    }
}
