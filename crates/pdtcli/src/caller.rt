//! One client's side of a run: the transaction that it has open, and the reply to each of its calls.
ghost use Rattle.std.specs.Prelude.{◌≡◌, Option, Some, None, IfOk, OnErr, IsTrue, IfSome};
ghost use Rattle.devices.specs.Appending.{taken_by};
ghost use Rattle.model.specs.Writes.{write_fits_schema};
ghost use Rattle.pdtcli.specs.Reads.{ReadStep};
ghost use Rattle.pdtcli.specs.declared.reply.Reply.TheVariants as reply;
ghost use Rattle.inputs.specs.Typed.{is_typed_call, is_typed_read, is_typed_write};
ghost use Rattle.txn.specs.Txn.{IsAnswered, Transaction};
ghost use Rattle.manager.specs.Managed.{Managed, IsOwn};
ghost use Rattle.pdtcli.specs.Run.{SideStep, BeginStep, WriteStep, OpenWriteStep, CommitStep, AbortStep, CheckpointStep, FoldStep};
ghost use Rattle.pdtcli.specs.Run.{RebuildStep, CutStep, StoreStep, checkpoint_reply};

use crate::reads::read_in;
use crate::reply::Reply;
use crate::shape::refused_shape;
use devices::{ColumnDevice, Store};
use inputs::{Call, ClientCall, Read};
use manager::{CheckpointFault, Manager};
use model::Write;
use std::alloc::Global;
use std::marker::Model;
use txn::Txn;
use values::NoMemory;

/// A client, with the transaction that it has open. A transaction that is open where the client is let go ends there.
pub struct Caller {
    own: Option<Txn>,
}

impl Model for Caller {
    ghost use Rattle.std.specs.Prelude.{Option};
    ghost use Rattle.txn.specs.Txn.{Transaction};

    ghost Value = { Option Transaction };

    ghost view = { λ c. c.own };
}

impl Drop for Caller {
    fn drop(self) {
        let Caller { own } = self;
        if let Some(txn) = own {
            txn.abort();
        }
    }
}

impl Caller {
    /// A client that has no transaction open.
    pub fn new() -> Caller
        ensures { result ≡ None }
    {
        Caller { own: None }
    }

    /// Makes a call of the client.
    pub(crate) fn serve(
        &mut self,
        alloc: Global,
        asked: ClientCall,
        manager: &mut Manager,
        store: &mut Store,
    ) -> Reply
        requires own { IfSome self.old (IsOwn manager.old) }
        requires typed { IfSome self.old (λ txn. IsTrue (is_typed_call txn.schema asked.call)) }
        requires schema { store.old.schema ≡ manager.old.schema }
        ensures step { SideStep asked.client asked.call (record { manager = manager.old; own = self.old }) result
            (record { manager = manager.new; own = self.new }) }
        ensures stored { let taken = taken_by (λ b. contents (b.vtable, b.value)) (λ b. failures (b.vtable, b.value)) in
            StoreStep asked.call manager.old (taken store.old.devices.items store.old.next) result
            (taken store.new.devices.items store.new.next) }
        ensures schema { store.new.schema ≡ store.old.schema }
    {
        let ClientCall { client, call } = asked;
        match call {
            Call::Begin => self.begin(client, manager),
            Call::Write(wanted) => self.write(wanted),
            Call::Read(wanted) => self.read(alloc, &wanted),
            Call::Commit => self.commit(manager),
            Call::Abort => self.abort(),
            Call::Fold => fold(manager),
            Call::Checkpoint => checkpoint(manager, store),
            Call::Cut => cut(manager),
        }
    }

    /// Opens a transaction.
    pub fn begin(&mut self, client: u32, manager: &Manager) -> Reply
        ensures { BeginStep client (record { manager = manager.now; own = self.old }) result
            (record { manager = manager.now; own = self.new }) }
    {
        if self.own.is_some() {
            return Reply::AlreadyOpen;
        }
        match manager.begin(client) {
            Ok(opened) => {
                self.put(opened);
                Reply::Begun
            }
            Err(NoMemory) => Reply::NoMemory,
        }
    }

    /// Takes the transaction that is open: none is from then on.
    pub fn take(&mut self) -> Option<Txn>
        ensures { (result ≡ self.old) × (self.new ≡ None) }
    {
        self.own.take()
    }

    /// Holds a transaction open. None is open before.
    pub fn put(&mut self, txn: Txn)
        requires { self.old ≡ None }
        ensures { self.new ≡ Some txn }
    {
        if let Some(old) = self.own.replace(txn) {
            old.abort();
        }
    }

    /// Writes in the open transaction, which keeps the row, the key or the value.
    pub fn write(&mut self, write: Write) -> Reply
        requires typed { IfSome self.old (λ txn. IsTrue (is_typed_write txn.schema write)) }
        ensures { (manager : Managed) → WriteStep self.old write (record { manager = manager; own = self.old }) result
            (record { manager = manager; own = self.new }) }
    {
        match &mut self.own {
            None => Reply::NotOpen,
            Some(txn) => write_in(txn, write),
        }
    }

    /// Reads in the open transaction.
    pub fn read(&self, alloc: Global, read: &Read) -> Reply
        requires { IfSome self.now (λ txn. IsTrue (is_typed_read txn.schema read.now)) }
        ensures { ReadStep self.now read.now result }
    {
        match &self.own {
            None => Reply::NotOpen,
            Some(txn) => read_in(alloc, txn, read),
        }
    }

    /// Commits the open transaction. On want of memory it stays open.
    fn commit(&mut self, manager: &mut Manager) -> Reply
        requires own { IfSome self.old (IsOwn manager.old) }
        ensures { CommitStep self.old (record { manager = manager.old; own = self.old }) result
            (record { manager = manager.new; own = self.new }) }
    {
        let Some(txn) = self.own.take() else {
            return Reply::NotOpen;
        };
        match manager.commit(txn) {
            Ok(reply) => Reply::Decided(reply),
            Err((txn, NoMemory)) => {
                self.put(txn);
                Reply::NoMemory
            }
        }
    }

    /// Ends the open transaction.
    pub fn abort(&mut self) -> Reply
        ensures { (manager : Managed) → AbortStep self.old (record { manager = manager; own = self.old }) result
            (record { manager = manager; own = self.new }) }
    {
        let Some(txn) = self.own.take() else {
            return Reply::NotOpen;
        };
        txn.abort();
        Reply::Aborted
    }
}

/// Folds the Write-PDT into the Read-PDT.
fn fold(manager: &mut Manager) -> Reply
    ensures { (own : Option Transaction)
        → FoldStep (record { manager = manager.old; own = own }) result (record { manager = manager.new; own = own }) }
{
    match manager.fold() {
        Ok(()) => Reply::Folded,
        Err(NoMemory) => Reply::NoMemory,
    }
}

/// Writes the newest image to the store.
fn checkpoint(manager: &mut Manager, store: &mut Store) -> Reply
    requires { store.old.schema ≡ manager.old.schema }
    ensures kept { (own : Option Transaction) → RebuildStep (record { manager = manager.old; own = own }) result
        (record { manager = manager.new; own = own }) }
    ensures stored { let taken = taken_by (λ b. contents (b.vtable, b.value)) (λ b. failures (b.vtable, b.value)) in
        CheckpointStep manager.old (taken store.old.devices.items store.old.next) result (taken store.new.devices.items store.new.next) }
    ensures schema { store.new.schema ≡ store.old.schema }
{
    reply_of(manager.checkpoint(store))
}

/// The reply that tells how a checkpoint was answered.
pub fn reply_of(answer: Result<u32, CheckpointFault>) -> Reply
    ensures { result ≡ checkpoint_reply answer }
{
    match answer {
        Ok(generation) => Reply::Stored(generation),
        Err(CheckpointFault::StoreFailed) => Reply::StoreFailed,
        Err(CheckpointFault::GenerationsSpent) => Reply::GenerationsSpent,
        Err(CheckpointFault::NoMemory) => Reply::NoMemory,
        Err(CheckpointFault::DeviceFailed(i)) => Reply::DeviceFailed(i),
    }
}

/// Cuts the history, and drops what it hands out.
fn cut(manager: &mut Manager) -> Reply
    ensures { (own : Option Transaction)
        → CutStep (record { manager = manager.old; own = own }) result (record { manager = manager.new; own = own }) }
{
    Reply::Cut(manager.cut().len())
}

/// The reply to a write in a transaction. A row or a value that doesn't fit is refused before memory is wanted.
fn write_in(txn: &mut Txn, write: Write) -> Reply
    requires typed { IsTrue (is_typed_write txn.old.schema write) }
    ensures { (manager : Managed) → OpenWriteStep txn.old write (record { manager = manager; own = Some txn.old }) result
        (record { manager = manager; own = Some txn.new }) }
{
    if let Some(refused) = refused_shape(txn.schema(), &write) {
        return refused;
    }
    match txn.write(write) {
        Ok(reply) => Reply::Wrote(reply),
        Err(NoMemory) => Reply::NoMemory,
    }
}
