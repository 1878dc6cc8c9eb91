//! The durable manager: a commit is decided, logged, and then installed.
ghost use Rattle.std.specs.Prelude.{◌≡◌, ◌<◌, ◌^◌, IfOk, IfErr, IsOk, IsTrue, MatchResult, nat_lt};
ghost use Rattle.devices.specs.Appending.{MayFollow, Stores, taken_by};
ghost use Rattle.manager.specs.Checkpoint.{answer_of_store};
ghost use Rattle.txn.specs.Txn.{Transaction};

use crate::fault::CommitFault;
use crate::logged::log_prepared;
use devices::{ColumnDevice, Store};
use logging::{Appender, JournalDevice};
use manager::{CheckpointFault, History, Manager};
use model::CommitReply;
use std::alloc::Global;
use std::marker::Model;
use txn::Txn;
use values::NoMemory;

/// A manager, and the journal of its commits. A commit is answered once its frame is safe. After a failure of the device no
/// commit is answered: nobody knows what it kept. Begins, reads, folds and checkpoints go on.
#[derive(Drop)]
pub struct Durable<D: JournalDevice> {
    manager: Manager,
    journal: Appender<D>,
    /// The number of the table in the payloads.
    table: u32,
    /// The payload of the commit that is logged. What stands here between two calls says nothing.
    payload: Vec<u8>,
}

/// What a durable manager comes to.
#[derive(Drop)]
pub struct Parts<D: JournalDevice> {
    pub manager: Manager,
    pub journal: Appender<D>,
}

impl<D: JournalDevice> Model for Durable<D> {
    ghost use Rattle.durable.specs.Durable.{Durable as Logging};

    ghost Value = { Logging };

    ghost view = { λ d. record { manager = d.manager; log = d.journal; table = d.table } };
}

impl<D: JournalDevice> Durable<D> {
    ghost use Rattle.manager.specs.Checkpoint.{Checkpoints};
    ghost use Rattle.manager.specs.Managed.{HasFolded, IsDecided, IsOwn, begun_at, cut_of, history_of, is_too_old, newest_stable, rebuilt_of};
    ghost use Rattle.durable.specs.Durable.{IsLogged, IsLeftOut};

    /// The manager, whose commits go to this journal from now on, as those of the table of this number. Takes no memory.
    pub fn new(alloc: Global, manager: Manager, journal: Appender<D>, table: u32) -> Durable<D>
        ensures { result ≡ record { manager = manager; log = journal; table = table } }
    {
        Durable {
            manager,
            journal,
            table,
            payload: Vec::new(alloc),
        }
    }

    /// The manager, to read. Takes no memory.
    pub fn manager(&self) -> &Manager
        ensures { result.now ≡ self.now.manager }
    {
        &self.manager
    }

    /// Whether the device has failed: no commit is answered any more.
    pub fn has_failed(&self) -> bool
        ensures { result ≡ nat_lt 0 self.now.log.device.failures }
    {
        self.journal.failures() > 0
    }

    /// A transaction of the client over the newest table, as a manager begins it.
    ///
    /// # Errors
    ///
    /// `NoMemory` where a growth, or a share of the version, is refused.
    pub fn begin(&self, client: u32) -> Result<Txn, NoMemory>
        ensures { IfOk result (λ txn. txn ≡ begun_at self.now.manager client) }
    {
        self.manager.begin(client)
    }

    /// Decides a transaction as a manager does. Where it is committed, its frame is on the device and safe before the history
    /// has its record; any other reply writes nothing. A transaction that is too old takes no memory.
    ///
    /// # Errors
    ///
    /// `JournalFailed` where the device has failed before, `NoMemory` where a growth is refused or the manager has made 2^62
    /// records, `TooLong` where what the commit changes has 2^32 bytes or more: nothing changes. `Unsure` where the device
    /// fails over this commit: the manager stays as it was, and no commit after it is answered. The transaction comes back.
    pub fn commit(&mut self, txn: Txn) -> Result<CommitReply, (Txn, CommitFault)>
        requires own { IsOwn self.old.manager txn }
        ensures decided { IfOk result (λ reply. IsDecided self.old.manager txn reply self.new.manager) }
        ensures logged { IfOk result (λ reply. IsLogged self.old txn reply self.new) }
        ensures err { IfErr result (λ e. IsLeftOut self.old txn e.1 self.new × (e.0 ≡ txn)) }
        ensures old { IsTrue (is_too_old self.old.manager txn) → self.old.manager.made < 2 ^ 62 → self.old.log.device.failures ≡ 0
            → IsOk result }
    {
        if self.has_failed() {
            return Err((txn, CommitFault::JournalFailed));
        }
        let prepared = match self.manager.prepare(&txn) {
            Ok(prepared) => prepared,
            Err(NoMemory) => return Err((txn, CommitFault::NoMemory)),
        };
        let logged = log_prepared(
            &mut self.journal,
            &mut self.payload,
            self.table,
            &self.manager,
            &txn,
            &prepared,
        );
        match logged {
            Ok(()) => Ok(self.manager.install(txn, prepared)),
            Err(fault) => {
                drop(prepared);
                Err((txn, fault))
            }
        }
    }

    /// Folds the Write-PDT into the Read-PDT, as a manager does. The journal doesn't change.
    ///
    /// # Errors
    ///
    /// `NoMemory` where a growth is refused: the layers stay as they were.
    pub fn fold(&mut self) -> Result<(), NoMemory>
        ensures folded { MatchResult result (λ _. HasFolded self.old.manager self.new.manager) (λ _. self.new.manager ≡ self.old.manager) }
        ensures own { (txn : Transaction) → IsOwn self.old.manager txn → IsOwn self.new.manager txn }
        ensures kept { self.new ≡ record self.old { manager = self.new.manager } }
    {
        self.manager.fold()
    }

    /// Writes the newest image to the store, as a manager does. The journal doesn't change.
    ///
    /// # Errors
    ///
    /// As `Manager::checkpoint`: the manager keeps the layers that it had.
    pub fn checkpoint(&mut self, store: &mut Store) -> Result<u32, CheckpointFault>
        requires { store.old.schema ≡ self.old.manager.schema }
        ensures rebuilt { MatchResult result (λ _. self.new.manager ≡ rebuilt_of self.old.manager) (λ _. self.new.manager ≡ self.old.manager) }
        ensures own { (txn : Transaction) → IsOwn self.old.manager txn → IsOwn self.new.manager txn }
        ensures answer { let taken = taken_by (λ b. contents (b.vtable, b.value)) (λ b. failures (b.vtable, b.value)) in
            Checkpoints self.old.manager (taken store.old.devices.items store.old.next) result (taken store.new.devices.items store.new.next) }
        ensures stored { let taken = taken_by (λ b. contents (b.vtable, b.value)) (λ b. failures (b.vtable, b.value)) in
            MayFollow self.old.manager.schema (taken store.old.devices.items store.old.next)
            → Stores self.old.manager.schema (newest_stable self.old.manager) (taken store.old.devices.items store.old.next)
            (answer_of_store result) (taken store.new.devices.items store.new.next) }
        ensures ready { let taken = taken_by (λ b. contents (b.vtable, b.value)) (λ b. failures (b.vtable, b.value)) in
            MayFollow store.old.schema (taken store.old.devices.items store.old.next)
            → MayFollow store.new.schema (taken store.new.devices.items store.new.next) }
        ensures schema { store.new.schema ≡ store.old.schema }
        ensures kept { self.new ≡ record self.old { manager = self.new.manager } }
    {
        self.manager.checkpoint(store)
    }

    /// Cuts the history, as a manager does. The journal doesn't change.
    pub fn cut(&mut self) -> History
        ensures handed { result ≡ history_of self.old.manager }
        ensures next { self.new ≡ record self.old { manager = cut_of self.old.manager } }
        ensures own { (txn : Transaction) → IsOwn self.old.manager txn → IsOwn self.new.manager txn }
    {
        self.manager.cut()
    }

    /// The manager and the journal, each alone. Takes no memory.
    pub fn into_parts(self) -> Parts<D>
        ensures manager { result.manager ≡ self.manager }
        ensures journal { result.journal ≡ self.log }
    {
        let Durable {
            manager,
            journal,
            table: _,
            payload: _payload,
        } = self;
        Parts { manager, journal }
    }
}
