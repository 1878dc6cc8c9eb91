//! What durable sessions share: the locked state, the group log, and the calls that take them.
ghost use Rattle.std.specs.Prelude.{◌≡◌, ◌≢◌, ◌+◌, ◌≤◌, ◌<◌, [], All, length, map, sum};
ghost use Rattle.std.specs.Prelude.{IfErr, IfOk, IsNone, IsSome, OnOk, None, Some, Err, true, vec_capacity, vec_len};
ghost use Rattle.publishing.specs.Lists.{number_in};
ghost use mathlib.Core.List.{IsPrefix};
ghost use Rattle.model.specs.History.{IsLegal};
ghost use Rattle.shared.specs.Endings.{IsHandedOut};
ghost use Rattle.shared.specs.Sessions.{WasReplied, WasTold, begun_in, new_seat, number_of};
ghost use Rattle.std.specs.List.{range_with_len};
ghost use Rattle.values.specs.declared.limits.TheConstants.{MAX_CLIENTS};
ghost use Rattle.manager.specs.Managed.{IsManaged};
ghost use Rattle.durable_sessions.specs.Endings.{IsClosedDurably};
ghost use Rattle.durable_sessions.specs.Queues.{EndsInTheSameTable, IsDurable, WasCommitted};
ghost use Rattle.durable_sessions.specs.Payloads.{payloads_in};
ghost use Rattle.durable_sessions.specs.declared.fault.BeginFault.TheVariants as begin_fault;
ghost use Rattle.durable_sessions.specs.declared.fault.CommitFault.TheVariants as commit_fault;

use crate::durable_session::DurableSession;
use crate::fault::{BeginFault, CommitFault, ImageFault};
use crate::frame_queue::FrameQueue;
use crate::locked_state::{Batch, LockedState};
use crate::opening_id::DurableOpening;
use crate::published_prefix::PublishedPrefix;
use crate::waiters::Waiters;
use group_commit::{GroupLog, GroupLogParts, HistoryPrefix};
use logging::{Appender, JournalDevice};
use manager::{History, Manager};
use model::CommitReply;
use shared::{
    BeginFault as SessionBeginFault, Closed, ImageStore, NewOpening, Parts, Session, ShareFault,
    close_parts, open_parts,
};
use std::alloc::Global;
use std::mem;
use std::sync::{Mutex, MutexGuard, Wait};
use values::NoMemory;
use values::limits::MAX_CLIENTS;
use watermark::{NewWatermark, Watermark, WatermarkReader};

/// What durable sessions share. `close` ends it.
pub struct DurableShared<O: DurableOpening, S: ImageStore, D: JournalDevice> {
    state: Mutex<LockedState<O, S>>,
    group_log: Mutex<GroupLog<PublishedPrefix<O>, D, O>>,
    watermark: Watermark<O>,
    waiters: Waiters,
    alloc: Global,
    returns: Mutex<CloseBuffers<O>>,
    ghost base_is: { O.base ≡ O.opened.manager.start.base },
}

/// Memory reserved for what `close` gives: the sessions and their counts. It is behind a lock, since threads don't share a session.
#[derive(Drop)]
pub struct CloseBuffers<O: DurableOpening> {
    counts: Vec<u64>,
    sessions: Vec<Session<O>>,
    ghost empty: { (vec_len counts ≡ 0) × (vec_len sessions ≡ 0) },
    ghost room_for: { (O.clients ≤ vec_capacity counts) × (O.clients ≤ vec_capacity sessions) },
}

/// What `open` gives.
pub struct DurableParts<O: DurableOpening, S: ImageStore, D: JournalDevice> {
    pub shared: DurableShared<O, S, D>,
    pub clients: Vec<DurableSession<O>>,
}

/// How frames are made: the seed of their checks, and the table's number in their payloads.
#[derive(Clone, Copy)]
pub struct FrameSettings {
    pub seed: u32,
    pub table: u32,
}

/// What `open` begins a journal with: its log, how its frames are made, and its watermark.
#[derive(Drop)]
pub struct NewJournal<D: JournalDevice> {
    pub log: Appender<D>,
    pub frames: FrameSettings,
    pub watermark: NewWatermark,
}

/// An image that is stored.
#[derive(Drop)]
pub struct StoredImage<O: DurableOpening> {
    pub generation: u32,
    /// The number of the newest of its commits.
    pub number: u64,
    /// What was published up to the image: the last version is the image's.
    pub published: PublishedPrefix<O>,
}

/// What is left of a closed opening.
#[derive(Drop)]
pub struct ClosedParts<S: ImageStore, D: JournalDevice> {
    pub manager: Manager,
    pub store: S,
    pub journal: Appender<D>,
    /// How many commit replies each session got, in the order in which they were handed back.
    pub counts: Vec<u64>,
}

/// A durable session for each session, whose reader has the watermark.
fn clients_of<O: DurableOpening, D: JournalDevice>(
    sessions: Vec<Session<O>>,
    group_log: &mut GroupLog<PublishedPrefix<O>, D, O>,
    watermark: &Watermark<O>,
    mut clients: Vec<DurableSession<O>>,
) -> Vec<DurableSession<O>>
    requires empty { clients.items ≡ [] }
    requires room { vec_len sessions ≤ vec_capacity clients }
    ensures sessions { map (λ c. c.session) result.items ≡ sessions.items }
    ensures readers { All (λ c. c.reader ≡ group_log.old.watermark) result.items }
{
    for session in sessions {
        let reader = group_log.reader(watermark);
        clients.push_reserved(DurableSession { session, reader });
    }
    clients
}

/// Opens a durable session for each client, over a manager that has no history yet, its store, and a journal all of whose bytes are
/// durable.
///
/// # Errors
///
/// As `shared::open`.
pub fn open<O: DurableOpening, S: ImageStore, D: JournalDevice, R: Wait>(
    alloc: Global,
    manager: Manager,
    store: S,
    journal: NewJournal<D>,
    clients: u32,
    fresh: NewOpening,
    wait: &R,
) -> Result<DurableParts<O, S, D>, ShareFault>
    requires name { (fresh.blank.name ≡ O.name) × (fresh.blank.parts ≡ O.parts) × (O.clients ≡ O.parts) × (O.clients ≡ clients) }
    requires opening { (fresh.book.list.opening ≡ O.opened) × (fresh.book.list.list ≡ []) × (O.opened.manager ≡ manager) }
    requires store { S.columns store ≡ manager.schema }
    requires watermark { journal.watermark.cell.table.shared.table_id ≡ O.watermark }
    requires log { (journal.log.device.appended ≡ O.front) × (length O.front ≤ journal.log.device.safe) × (journal.log.seed ≡ O.seed) }
    requires frames { (journal.frames.seed ≡ O.seed) × (journal.frames.table ≡ O.table) }
    requires base { (O.base ≡ O.opened.manager.start.base) × (O.opened.manager.history ≡ []) }
    ensures clients { IfOk result (λ r. map (λ c. c.session) r.clients.items ≡ map new_seat (range_with_len 0 clients)) }

    // What was there at the opening is known to be durable.
    ensures durable { IfOk result (λ r. All (λ c. c.reader ≡ O.base) r.clients.items) }
    ensures limit { OnOk result ((1 ≤ clients) × (clients ≤ MAX_CLIENTS)) }
{
    if clients == 0 || clients > MAX_CLIENTS {
        return Err(ShareFault::BadLimit);
    }
    let counts = Vec::with_capacity(alloc, clients as usize)?;
    let sessions = Vec::with_capacity(alloc, clients as usize)?;
    let returns = CloseBuffers { counts, sessions };
    let reserved = Vec::with_capacity(alloc, clients as usize)?;
    let base = manager.base();
    let Parts { locked, sessions } = match open_parts(alloc, manager, store, clients, fresh, wait) {
        Ok(parts) => parts,
        Err(fault) => return Err(fault),
    };
    let NewJournal {
        log,
        frames,
        watermark,
    } = journal;
    let (watermark, writer) = watermark.named::<O>();
    let list = PublishedPrefix::new(locked.list());
    let mut group_log = GroupLog::new(log, list.again(), base, writer);
    // The commits before the opening are durable: a begin over them waits for nothing.
    group_log.advance(wait, &watermark);
    let queue = FrameQueue::new(alloc, frames.seed, frames.table);
    let state = LockedState::new(locked, list, queue, group_log.reader(&watermark));
    let clients = clients_of(sessions, &mut group_log, &watermark, reserved);
    let shared = DurableShared {
        state: Mutex::new(state),
        group_log: Mutex::new(group_log),
        watermark,
        waiters: Waiters::new(),
        alloc,
        returns: Mutex::new(returns),
    };
    Ok(DurableParts { shared, clients })
}

/// Folds the layers under the lock, and gives what was then published.
fn folded<O: DurableOpening, S: ImageStore, R: Wait>(
    wait: &R,
    state: &mut LockedState<O, S>,
) -> Result<PublishedPrefix<O>, NoMemory>
    ensures { IfOk result EndsInTheSameTable }
{
    match state.fold(wait) {
        Ok(()) => Ok(state.published()),
        Err(fault) => Err(fault),
    }
}

impl<O: DurableOpening, S: ImageStore, D: JournalDevice> DurableShared<O, S, D> {
    /// Commits the session's transaction. It is decided over everything published, and published if it is committed. The call returns
    /// Committed once the device has synced its frame and all frames before it. One thread writes the frames of all that wait, and holds
    /// no lock meanwhile that commits take. Waits for locks.
    ///
    /// # Errors
    ///
    /// `NotOpen`, `Stranger`, `NoMemory`, `TooLong` and `JournalFailed`: nothing is decided, and the transaction stays open. `Unsure`: it
    /// was decided as committed, and the device failed; recovery decides whether it is kept.
    pub fn commit<R: Wait>(
        &self,
        client: &mut DurableSession<O>,
        wait: &R,
    ) -> Result<CommitReply, CommitFault>
        ensures replied { IfOk result (λ reply. WasReplied O.opened.manager client.old.session client.new.session reply) }
        ensures durable { IfOk result (λ reply. IsDurable reply client.new.reader) }
        ensures told { IfOk result (λ reply. WasTold O.opened.manager client.new.session (number_of reply)) }
        ensures unsure { result ≡ Err commit_fault.Unsure → WasCommitted O.opened.manager client.old.session client.new.session }
        ensures ended { OnOk result ((client.new.session.txn ≡ None) × (client.new.session.count ≡ client.old.session.count + 1)) }
        ensures counted { result ≡ Err commit_fault.Unsure
            → (client.new.session.txn ≡ None) × (client.new.session.count ≡ client.old.session.count + 1) }
        ensures err { IfErr result (λ fault. fault ≢ commit_fault.Unsure → client.new.session ≡ client.old.session) }
        ensures undecided { result ≡ Err commit_fault.NotOpen → client.old.session.txn ≡ None }
        ensures stranger { result ≡ Err commit_fault.Stranger
            → number_in O.opened.manager [] < number_in O.opened.manager client.old.session.seen }
        ensures client { client.new.session.client ≡ client.old.session.client }
        ensures later { client.old.reader ≤ client.new.reader }
    {
        let mut state = self.state.lock(wait);
        let outcome = state.commit(wait, &self.watermark, &mut client.session);
        MutexGuard::unlock(state);
        let (reply, released) = match outcome {
            Ok(done) => done,
            Err(fault) => return Err(fault),
        };
        // Its trees and writes are freed here, so that nobody waits for the lock meanwhile.
        drop(released);
        match reply {
            CommitReply::Committed(number) => {
                if self.wait_until_durable(wait, &mut client.reader, number) {
                    Ok(reply)
                } else {
                    Err(CommitFault::Unsure)
                }
            }
            _ => Ok(reply),
        }
    }

    /// Begins a transaction over the newest version, and waits until all of its commits are durable: no crash takes back what the client
    /// reads. `Session::begin` doesn't wait.
    ///
    /// # Errors
    ///
    /// As those of `Session::begin`. `NotDurable` where the device failed over one of its commits: no transaction is open then.
    pub fn begin<R: Wait>(&self, client: &mut DurableSession<O>, wait: &R) -> Result<(), BeginFault>
        ensures ok { OnOk result (client.new.session.txn ≡ Some (begun_in O.opened.manager client.new.session.seen client.old.session.client)) }
        ensures durable { OnOk result (number_in O.opened.manager client.new.session.seen ≤ client.new.reader) }
        ensures seen { IsPrefix client.old.session.seen client.new.session.seen }

        // What it opens over is all that the session has then seen.
        ensures begun { OnOk result (IsNone client.old.session.txn) }
        ensures already { result ≡ Err begin_fault.AlreadyOpen → IsSome client.old.session.txn }
        ensures err { IfErr result (λ fault. fault ≢ begin_fault.NotDurable → client.new.session ≡ client.old.session) }
        ensures given_up { result ≡ Err begin_fault.NotDurable
            → (client.old.session.txn ≡ None) × (client.new.session ≡ record client.old.session { seen = client.new.session.seen }) }
        ensures same { (client.new.session.client ≡ client.old.session.client) × (client.new.session.count ≡ client.old.session.count)
            × (client.new.session.note ≡ client.old.session.note) }
        ensures later { client.old.reader ≤ client.new.reader }
    {
        match client.session.begin() {
            Ok(()) => {}
            Err(SessionBeginFault::AlreadyOpen) => return Err(BeginFault::AlreadyOpen),
            Err(SessionBeginFault::Ended) => return Err(BeginFault::Ended),
            Err(SessionBeginFault::NoMemory) => return Err(BeginFault::NoMemory),
        }
        let number = match client.session.txn() {
            Ok(txn) => txn.begin(),
            Err(_) => return Err(BeginFault::Ended),
        };
        if self.wait_until_durable(wait, &mut client.reader, number) {
            return Ok(());
        }
        let _ = client.session.abort();
        Err(BeginFault::NotDurable)
    }

    /// Another reader of the watermark, with what the client's has loaded. It may go to another thread.
    pub fn reader(&self, client: &mut DurableSession<O>) -> WatermarkReader<O>
        ensures reader { result ≡ client.old.reader }
        ensures same { (client.new.session ≡ client.old.session) × (client.new.reader ≡ client.old.reader) }
    {
        client.reader.again(&self.watermark)
    }

    /// Folds the Write-PDT into the Read-PDT, as `Shared::fold`. Returns what was published up to the folded version. Waits for the lock.
    ///
    /// # Errors
    ///
    /// `NoMemory` where a growth is refused: nothing changes.
    pub fn fold<R: Wait>(&self, wait: &R) -> Result<PublishedPrefix<O>, NoMemory>
        ensures published { IfOk result EndsInTheSameTable }
    {
        let mut state = self.state.lock(wait);
        let outcome = folded(wait, &mut state);
        MutexGuard::unlock(state);
        outcome
    }

    /// Writes the newest image to the store, as `Shared::checkpoint`. All of its commits are durable before the store gets it, so that no
    /// crash leaves an image ahead of the journal. No commit is decided meanwhile. Waits for both locks.
    ///
    /// # Errors
    ///
    /// `JournalFailed` where the device has failed, or fails over what waits: the store isn't asked. `Unstored` as `Manager::checkpoint`.
    pub fn checkpoint<R: Wait>(
        &self,
        client: &mut DurableSession<O>,
        wait: &R,
    ) -> Result<StoredImage<O>, ImageFault>
        ensures published { IfOk result (λ image. EndsInTheSameTable image.published) }
        ensures number { IfOk result (λ image. image.number ≡ number_in O.opened.manager image.published) }
        ensures durable { IfOk result (λ image. image.number ≤ client.new.reader) }
        ensures session { client.new.session ≡ client.old.session }
        ensures later { client.old.reader ≤ client.new.reader }
    {
        let mut group_log = self.group_log.lock(wait);
        let mut state = self.state.lock(wait);
        let outcome = self.store_durable(wait, &mut group_log, &mut state, &mut client.reader);
        MutexGuard::unlock(state);
        MutexGuard::unlock(group_log);
        // Those who wait for what was written, or for the device, go on.
        self.waiters.wake_all(wait);
        outcome
    }

    /// Hands out the history of this opening since the last cut, as `Shared::cut`. Waits for the lock.
    ///
    /// # Errors
    ///
    /// `NoMemory` where a growth is refused: nothing changes.
    pub fn cut<R: Wait>(&self, wait: &R) -> Result<History, NoMemory>
        ensures legal { IfOk result (λ history. IsLegal history.schema history.start history.records) }
        ensures opening { IfOk result (λ history. IsHandedOut O.opened.manager history) }
    {
        let mut state = self.state.lock(wait);
        let outcome = state.cut(wait);
        MutexGuard::unlock(state);
        outcome
    }

    /// Waits until a commit is durable, and writes the batch if no other thread does. Answers false where the device has failed.
    fn wait_until_durable<R: Wait>(
        &self,
        wait: &R,
        reader: &mut WatermarkReader<O>,
        number: u64,
    ) -> bool
        ensures durable { result ≡ true → number ≤ reader.new }
        ensures later { reader.old ≤ reader.new }
    {
        for _ in wait.forever() {
            let seen = self.waiters.count(wait);
            if reader.load(wait, &self.watermark) >= number {
                return true;
            }
            match self.group_log.try_lock() {
                Some(mut group_log) => {
                    let is_written = group_log.number() >= number
                        || self.lead(wait, &mut group_log);
                    MutexGuard::unlock(group_log);
                    self.waiters.wake_all(wait);
                    if !is_written {
                        return false;
                    }
                }
                None => self.waiters.sleep_past(wait, seen),
            }
        }
        unreachable!()
    }

    /// Writes the frames of all that wait, without the lock that commits take, and advances the watermark. Answers whether they are durable.
    fn lead<R: Wait>(&self, wait: &R, group_log: &mut GroupLog<PublishedPrefix<O>, D, O>) -> bool {
        let mut state = self.state.lock(wait);
        let batch = state.take(Vec::new(self.alloc));
        MutexGuard::unlock(state);
        let Batch {
            from,
            to,
            number,
            bytes,
        } = batch;
        if group_log.write(&from, to, number, bytes.as_slice()).is_ok() {
            group_log.advance(wait, &self.watermark);
            return true;
        }
        let mut state = self.state.lock(wait);
        state.fail();
        MutexGuard::unlock(state);
        false
    }

    /// Writes the frames of all that wait, advances the watermark and the reader, and has the image stored, whose commits these are the
    /// last of.
    fn store_durable<R: Wait>(
        &self,
        wait: &R,
        group_log: &mut GroupLog<PublishedPrefix<O>, D, O>,
        state: &mut LockedState<O, S>,
        reader: &mut WatermarkReader<O>,
    ) -> Result<StoredImage<O>, ImageFault>
        ensures published { IfOk result (λ image. EndsInTheSameTable image.published) }
        ensures number { IfOk result (λ image. image.number ≡ number_in O.opened.manager image.published) }
        ensures durable { IfOk result (λ image. image.number ≤ reader.new) }
        ensures later { reader.old ≤ reader.new }
    {
        let Batch {
            from,
            to,
            number,
            bytes,
        } = state.take(Vec::new(self.alloc));
        if group_log
            .write(&from, to, number, bytes.as_slice())
            .is_err()
        {
            state.fail();
            return Err(ImageFault::JournalFailed);
        }
        group_log.advance(wait, &self.watermark);
        let before = mem::replace(reader, group_log.reader(&self.watermark));
        group_log.retire(wait, &self.watermark, before);
        match state.checkpoint(wait) {
            Ok(generation) => {
                let published = state.published();
                Ok(StoredImage {
                    generation,
                    number,
                    published,
                })
            }
            Err(fault) => Err(ImageFault::Unstored(fault)),
        }
    }

    /// Takes the sessions back, and gives the manager, the store, the journal, and how many commit replies each session got. Open
    /// transactions are aborted.
    pub fn close<R: Wait>(self, clients: Vec<DurableSession<O>>, wait: &R) -> ClosedParts<S, D>
        requires parts { O.clients ≡ O.parts }
        requires few { vec_len clients ≤ O.clients }
        ensures lawful { IsManaged result.manager }
        ensures counts { result.counts.items ≡ map (λ c. c.session.count) clients.items }
        ensures records { vec_len clients ≡ O.clients → result.manager.made ≡ O.opened.manager.made + sum result.counts.items }
        ensures ended { IsClosedDurably O.opened.manager O.table O.front O.seed (map (λ c. c.session) clients.items) (map (λ c. c.reader) clients.items)
            result.manager result.journal.device }
        ensures store { S.columns result.store ≡ result.manager.schema }
    {
        let DurableShared {
            state,
            group_log,
            watermark,
            waiters: _gate,
            alloc: _,
            returns,
        } = self;
        let CloseBuffers {
            counts,
            mut sessions,
        } = returns.into_inner();
        let locked = state.into_inner().into_locked();
        let mut group_log = group_log.into_inner();
        for client in clients {
            let DurableSession { session, reader } = client;
            group_log.retire(wait, &watermark, reader);
            sessions.push_reserved(session);
        }
        let GroupLogParts {
            journal,
            written: _written,
            tried,
            number: _,
        } = group_log.into_parts();
        let Closed {
            manager,
            store,
            counts,
        } = close_parts(locked, sessions, counts, &tried.list(), wait);
        ClosedParts {
            manager,
            store,
            journal,
            counts,
        }
    }
}
