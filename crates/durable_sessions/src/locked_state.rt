//! What is under the lock: the state of the sessions, and the queue of frames that aren't written yet.
ghost use Rattle.std.specs.Prelude.{◌≡◌, ◌+◌, ◌<◌, [], length, IfOk, MatchResult, OnErr, OnOk, Err, None};
ghost use Rattle.group_commit.specs.Batch.{IsBatch};
ghost use Rattle.manager.specs.Managed.{HasFolded, newest_number, rebuilt_of};
ghost use Rattle.model.specs.History.{IsLegal};
ghost use Rattle.publishing.specs.Lists.{IsOfList, IsShownAgain, layered_version, number_in};
ghost use Rattle.shared.specs.Generations.{IsAnswered};
ghost use Rattle.shared.specs.Sessions.{WasReplied, WasTold, number_of};
ghost use Rattle.shared.specs.Stands.{IsShownBefore};
ghost use Rattle.durable_sessions.specs.Payloads.{payloads_in};
ghost use Rattle.durable_sessions.specs.declared.fault.CommitFault.TheVariants as commit_fault;

use crate::fault::CommitFault;
use crate::frame_queue::FrameQueue;
use crate::opening_id::DurableOpening;
use crate::published_prefix::PublishedPrefix;
use codec::SpellFault;
use group_commit::{HistoryPrefix, a_batch_grows};
use manager::{CheckpointFault, History, Released};
use model::CommitReply;
use shared::{CommitFault as SessionFault, ImageStore, Locked, Session};
use std::alloc::Global;
use std::marker::Model;
use std::mem;
use std::sync::Wait;
use values::NoMemory;
use watermark::{Watermark, WatermarkReader};

/// What is under the lock. Contracts see the manager and the published list.
pub struct LockedState<O: DurableOpening, S: ImageStore> {
    locked: Locked<O, S>,
    /// The published list when the last batch was taken.
    from: PublishedPrefix<O>,
    queue: FrameQueue,
    /// Reads the watermark for the heads of frames.
    reader: WatermarkReader<O>,
    /// Whether the device has failed: no more commits are decided.
    failed: bool,
}

impl<O: DurableOpening, S: ImageStore> Model for LockedState<O, S> {
    ghost use Rattle.shared.specs.Stands.{Stand};
    ghost use Rattle.durable_sessions.specs.Queues.{IsQueuedFor};

    ghost Value = { Stand };

    ghost view = { λ r. r.locked };

    ghost invariant = { λ r. IsQueuedFor O.opened.manager O.base O.seed O.table r.from r.locked.list r.queue };
}

/// A batch to be written.
#[derive(Drop)]
pub struct Batch<O: DurableOpening> {
    pub from: PublishedPrefix<O>,
    pub to: PublishedPrefix<O>,
    /// The number of the newest commit.
    pub number: u64,
    pub bytes: Vec<u8>,
}

impl<O: DurableOpening, S: ImageStore> LockedState<O, S> {
    /// The state at the opening, with an empty queue.
    pub fn new(
        locked: Locked<O, S>,
        from: PublishedPrefix<O>,
        queue: FrameQueue,
        reader: WatermarkReader<O>,
    ) -> LockedState<O, S>
        requires list { from ≡ locked.list }
        requires queue { queue ≡ record { waiting = []; staged = []; seed = O.seed; table = O.table } }
        requires base { O.base ≡ O.opened.manager.start.base }
        ensures { result ≡ locked }
    {
        // Called for what its clauses tell.
        let _list = from.list();
        LockedState {
            locked,
            from,
            queue,
            reader,
            failed: false,
        }
    }

    /// Decides the session's transaction, publishes it if it is committed, and queues its frame.
    ///
    /// # Errors
    ///
    /// `JournalFailed` where the device has failed; `NotOpen`, `Stranger`, `NoMemory` and `TooLong`. The transaction stays open.
    pub fn commit<R: Wait>(
        &mut self,
        rt: &R,
        watermark: &Watermark<O>,
        session: &mut Session<O>,
    ) -> Result<(CommitReply, Released), CommitFault>
        ensures replied { IfOk result (λ r. WasReplied O.opened.manager session.old session.new r.0) }
        ensures told { IfOk result (λ r. WasTold O.opened.manager session.new (number_of r.0)) }
        ensures ended { OnOk result ((session.new.txn ≡ None) × (session.new.count ≡ session.old.count + 1)) }
        ensures err { OnErr result (session.new ≡ session.old) }
        ensures sure { result ≡ Err commit_fault.Unsure → ⊥ }
        ensures undecided { result ≡ Err commit_fault.NotOpen → session.old.txn ≡ None }
        ensures stranger { result ≡ Err commit_fault.Stranger → number_in O.opened.manager [] < number_in O.opened.manager session.old.seen }
        ensures client { session.new.client ≡ session.old.client }
    {
        if self.failed {
            return Err(CommitFault::JournalFailed);
        }
        let LockedState {
            locked,
            from,
            queue,
            reader,
            failed: _,
        } = self;
        let prepared = match session.prepare_at(locked) {
            Ok(prepared) => prepared,
            Err(SessionFault::NotOpen) => return Err(CommitFault::NotOpen),
            Err(SessionFault::NoMemory) => return Err(CommitFault::NoMemory),
            Err(SessionFault::Stranger) => return Err(CommitFault::Stranger),
        };
        let seen = reader.load(rt, watermark);
        // The head of a frame notes no commit of its own batch as durable: none is while the batch is written.
        let synced = seen.min(from.number());
        let Ok(txn) = session.txn() else {
            return Err(CommitFault::NotOpen);
        };
        // These are called for what their clauses tell.
        a_batch_grows();
        let _history = locked.manager().history();
        let _begin = txn.begin();
        match queue.stage(locked.manager(), txn, &prepared, synced) {
            Ok(()) => {}
            Err(SpellFault::NoMemory) => return Err(CommitFault::NoMemory),
            Err(SpellFault::TooLong) => return Err(CommitFault::TooLong),
        }
        match session.commit_at(rt, locked, prepared) {
            Ok(done) => {
                queue.append();
                Ok(done)
            }
            Err(_) => {
                queue.unstage();
                Err(CommitFault::NoMemory)
            }
        }
    }

    /// Folds the Write-PDT into the Read-PDT, as `Locked::fold`. The queue stays.
    ///
    /// # Errors
    ///
    /// `NoMemory` where a growth is refused: the manager keeps its layers.
    pub fn fold<R: Wait>(&mut self, rt: &R) -> Result<(), NoMemory>
        ensures manager { MatchResult result (λ _. HasFolded self.old.manager self.new.manager)
            (λ _. self.new.manager ≡ self.old.manager) }
        ensures list { MatchResult result (λ _. IsShownAgain self.old.list (layered_version self.new.manager) self.new.list)
            (λ _. self.new.list ≡ self.old.list) }
    {
        self.locked.fold(rt)
    }

    /// Writes the newest image to the store, as `Locked::checkpoint`. The queue stays.
    ///
    /// # Errors
    ///
    /// As those of `Manager::checkpoint`.
    pub fn checkpoint<R: Wait>(&mut self, rt: &R) -> Result<u32, CheckpointFault>
        ensures manager { MatchResult result (λ _. self.new.manager ≡ rebuilt_of self.old.manager)
            (λ _. self.new.manager ≡ self.old.manager) }
        ensures list { IsShownBefore self.old.list (layered_version (rebuilt_of self.old.manager)) result self.new.list }
        ensures answer { IsAnswered self.old.next result self.new.next }
    {
        self.locked.checkpoint(rt)
    }

    /// All that was published. Takes no memory.
    pub fn published(&self) -> PublishedPrefix<O>
        ensures list { result ≡ self.now.list }
        ensures newest { number_in O.opened.manager result ≡ newest_number self.now.manager }
    {
        // Called for what its clauses tell.
        let _manager = self.locked.manager();
        PublishedPrefix::new(self.locked.list())
    }

    /// Hands out the history so far, as `Locked::cut`. The queue stays.
    ///
    /// # Errors
    ///
    /// `NoMemory` where a growth is refused: nothing changes.
    pub fn cut<R: Wait>(&mut self, rt: &R) -> Result<History, NoMemory>
        ensures legal { IfOk result (λ history. IsLegal history.schema history.start history.records) }
        ensures of_list { IfOk result (λ history. IsOfList O.opened.manager self.old.list history) }
    {
        self.locked.cut(rt)
    }

    /// Takes the batch that waits. The spare buffer is for the next one.
    pub fn take(&mut self, spare: Vec<u8>) -> Batch<O>
        ensures waiting { IsBatch O.seed O.base (payloads_in O.opened.manager O.table result.from)
            (payloads_in O.opened.manager O.table result.to) result.bytes.items }
        ensures number { result.number ≡ O.base + length (payloads_in O.opened.manager O.table result.to) }
        ensures newest { result.number ≡ newest_number self.old.manager }
        ensures to { result.to ≡ self.old.list }
        ensures same { self.new ≡ self.old }
    {
        let to = self.published();
        let from = mem::replace(&mut self.from, to.again());
        let number = to.number();
        let bytes = self.queue.take(spare);
        Batch {
            from,
            to,
            number,
            bytes,
        }
    }

    /// No more commits are decided.
    pub fn fail(&mut self)
        ensures { self.new ≡ self.old }
    {
        self.failed = true;
    }

    /// The state of the sessions.
    pub fn into_locked(self) -> Locked<O, S>
        ensures { result ≡ self }
    {
        let LockedState {
            locked,
            from: _from,
            queue: _queue,
            reader: _reader,
            failed: _,
        } = self;
        locked
    }
}
