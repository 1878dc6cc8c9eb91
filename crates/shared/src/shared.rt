//! What the sessions share: the lock, and the calls that take it.
ghost use Rattle.std.specs.Prelude.{◌≡◌, ◌≢◌, ◌+◌, ◌<◌, ◌≤◌, [], length, map, sum, All, IfErr, IfOk, IfSome, OnErr, OnOk, None, Some, Err, vec_capacity, vec_len};
ghost use mathlib.Core.List.{IsPrefix};
ghost use Rattle.left_right.specs.Sides.{view};
ghost use Rattle.model.specs.History.{IsLegal};
ghost use Rattle.manager.specs.Managed.{IsManaged};
ghost use Rattle.publishing.specs.Commits.{commits_made};
ghost use Rattle.publishing.specs.Lists.{number_in};
ghost use Rattle.std.specs.List.{range_with_len};
ghost use Rattle.values.specs.declared.limits.TheConstants.{MAX_CLIENTS, MAX_ROWS};
ghost use Rattle.shared.specs.Endings.{IsClosed, IsClosedWith, IsHandedOut};
ghost use Rattle.shared.specs.Sessions.{AreBeginnings, WasReplied, WasTold, commits_above, new_seat, number_of};
ghost use Rattle.shared.specs.declared.fault.CommitFault.TheVariants as commit_fault;
ghost use Rattle.shared.specs.declared.fault.ShareFault.TheVariants as share_fault;

use crate::fault::{CommitFault, ShareFault};
use crate::laws::kept;
use crate::locked::{Locked, Unlocked};
use crate::publisher::{Publisher, VersionWriter};
use crate::session::{EndedSession, Session};
use crate::store::ImageStore;
use manager::{CheckpointFault, History, Manager, Released};
use model::CommitReply;
use publishing::{NewBook, Notes, Opening, Published, SeenList, Sees, VersionReader};
use std::alloc::{AllocError, Global};
use std::sync::ledger::{Blank, Share};
use std::sync::{Mutex, MutexGuard, Wait};
use values::NoMemory;
use values::limits::MAX_CLIENTS;

/// How often a reader's slot is tried.
const MAX_TRIES: u32 = 64;

/// What the sessions share. It is ended by `close`.
pub struct Shared<O: Opening, S: ImageStore> {
    state: Mutex<Locked<O, S>>,
    /// Room for the counts that `close` gives.
    counts: Vec<u64>,
    ghost empty: { vec_len counts ≡ 0 },
    ghost room: { O.clients ≤ vec_capacity counts },
}

/// What a closed opening leaves.
#[derive(Drop)]
pub struct Closed<S: ImageStore> {
    pub manager: Manager,
    pub store: S,
    /// How many commit replies each session got, in the order in which they were handed back.
    pub counts: Vec<u64>,
}

/// The book and the ledger of an opening that no type stands for yet.
#[derive(Drop)]
pub struct NewOpening {
    pub book: NewBook,
    pub blank: Blank,
}

impl NewOpening {
    /// The book of a list with no items over what the manager holds, and a ledger with a part for each client.
    pub fn new(manager: &Manager, clients: u32) -> NewOpening
        ensures list { result.book.list.list ≡ [] }
        ensures manager { result.book.list.opening.manager ≡ manager.now }
        ensures parts { result.blank.parts ≡ clients }
    {
        NewOpening {
            book: NewBook::new(manager),
            blank: Blank::new(u64::from(clients)),
        }
    }
}

/// The manager's newest version, to be published with the list at its opening.
fn published_at(manager: &Manager, list: &SeenList) -> Result<Published, NoMemory>
    requires { (list.now.opening.manager ≡ manager.now) × (list.now.list ≡ []) }
    ensures { IfOk result (λ p. p ≡ list.now) }
{
    kept(manager);
    Ok(Published::new(manager.version().copy()?, list.again()))
}

/// A reader that has seen nothing.
fn new_reader(writer: &VersionWriter) -> Result<VersionReader, ShareFault>
    ensures reader { IfOk result (λ r. (view r.place ≡ None) × (r.place.table_id ≡ writer.now.desk.place.table_id)) }
    ensures refused { IfErr result (λ fault. fault ≡ share_fault.NoReader) }
{
    for _ in 0..MAX_TRIES {
        if let Ok(reader) = writer.factory().reader() {
            return Ok(reader);
        }
    }
    Err(ShareFault::NoReader)
}

/// A reader that has seen all that the writer has.
fn reader_of(writer: &mut VersionWriter) -> Result<VersionReader, ShareFault>
    ensures writer { (writer.new.desk.shown ≡ writer.old.desk.shown) × (view writer.new.desk.place ≡ view writer.old.desk.place) }
    ensures reader { IfOk result (λ r. view r.place ≡ view writer.old.desk.place) }
    ensures refused { IfErr result (λ fault. fault ≡ share_fault.NoReader) }
{
    let mut reader = new_reader(writer)?;
    let note = writer.tell::<Notes>();
    reader.learn::<Notes>(note);
    Ok(reader)
}

/// Publishes for the first time, so that the writer has seen what it publishes, and its log has a place.
fn first_publish<R: Wait>(
    rt: &R,
    mut writer: VersionWriter,
    again: Published,
) -> (VersionWriter, Result<(), ShareFault>)
    requires { writer.desk.shown.value ≡ again }
    ensures published { IfOk result.1 (λ _. (result.0.desk.shown.value ≡ again) × (view result.0.desk.place ≡ Some again)) }
    ensures refused { IfErr result.1 (λ fault. fault ≡ share_fault.NoMemory) }
{
    let Ok(()) = writer.append(again) else {
        return (writer, Err(ShareFault::NoMemory));
    };
    match writer.publish_as::<Sees, R>(rt) {
        (writer, Ok(())) => (writer, Ok(())),
        (writer, Err(_)) => (writer, Err(ShareFault::NoMemory)),
    }
}

/// A writer that has published the manager's newest version, with the list at its opening and a reader's slot for each client.
fn writer_over<R: Wait>(
    alloc: Global,
    manager: &Manager,
    list: &SeenList,
    clients: u32,
    wait: &R,
) -> Result<VersionWriter, ShareFault>
    requires opening { (list.now.opening.manager ≡ manager.now) × (list.now.list ≡ []) }
    requires some { 0 < clients }
    requires limit { clients ≤ MAX_CLIENTS }
    ensures published { IfOk result (λ w. (w.desk.shown.value ≡ list.now) × (view w.desk.place ≡ Some list.now)) }
    ensures refused { IfErr result (λ fault. fault ≢ share_fault.BadLimit) }
{
    let first = published_at(manager, list)?;
    let second = published_at(manager, list)?;
    let again = published_at(manager, list)?;
    let writer = VersionWriter::new(alloc, first, second, clients as usize)?;
    let (mut writer, outcome) = first_publish(wait, writer, again);
    match outcome {
        Ok(()) => Ok(writer),
        Err(fault) => {
            writer.take(wait);
            Err(fault)
        }
    }
}

/// A session for each client, which has seen a list with no items.
fn sessions_of<O: Opening>(
    alloc: Global,
    clients: u32,
    row_limit: u64,
    writer: &mut VersionWriter,
    list: &SeenList,
    rest: &mut Share<O>,
) -> Result<Vec<Session<O>>, ShareFault>
    requires rest { (rest.old.parts ≡ clients) × (rest.old.amount ≡ 0) }
    requires writer { view writer.old.desk.place ≡ Some list.now }
    requires list { (list.now.opening ≡ O.opened) × (list.now.list ≡ []) }
    requires limit { (row_limit ≡ O.opened.manager.start.limit) × (row_limit ≤ MAX_ROWS) }
    ensures sessions { IfOk result (λ v. v.items ≡ map new_seat (range_with_len 0 clients)) }
    ensures rest { OnOk result ((rest.new.parts ≡ 0) × (rest.new.amount ≡ 0)) }
    ensures writer { writer.new.desk.shown ≡ writer.old.desk.shown }
    ensures refused { IfErr result (λ fault. fault ≢ share_fault.BadLimit) }
{
    let mut sessions = Vec::with_capacity(alloc, clients as usize)?;
    for client in 0..clients {
        let share = rest.split_off(1, 0);
        let reader = reader_of(writer)?;
        let session = Session::new(alloc, client, share, reader, list.again(), row_limit);
        sessions.push_reserved(session);
    }
    Ok(sessions)
}

/// What an opening has: the state to be locked, and a session for each client.
pub struct Parts<O: Opening, S: ImageStore> {
    pub locked: Locked<O, S>,
    pub sessions: Vec<Session<O>>,
}

/// Opens a session for each client, 1 to 64 of them, over a manager and its store, and gives what is to be locked. The opening is
/// named by a type that the caller chooses: its book was made over this manager, its ledger has a part for each client.
///
/// # Errors
///
/// `BadLimit` where there aren't 1 to 64 clients, `NoReader` where a reader's slot was refused 64 times, `NoMemory`: the
/// manager and the store are dropped.
pub fn open_parts<O: Opening, S: ImageStore, R: Wait>(
    alloc: Global,
    manager: Manager,
    store: S,
    clients: u32,
    fresh: NewOpening,
    wait: &R,
) -> Result<Parts<O, S>, ShareFault>
    requires name { (fresh.blank.name ≡ O.name) × (fresh.blank.parts ≡ O.parts) × (O.clients ≡ O.parts) × (O.clients ≡ clients) }
    requires opening { (fresh.book.list.opening ≡ O.opened) × (fresh.book.list.list ≡ []) × (O.opened.manager ≡ manager) }
    requires store { S.columns store ≡ manager.schema }
    ensures locked { IfOk result (λ r. (r.locked.manager ≡ manager) × (r.locked.list ≡ []) × (r.locked.next ≡ S.next store)) }
    ensures sessions { IfOk result (λ r. r.sessions.items ≡ map new_seat (range_with_len 0 clients)) }
    ensures limit { OnOk result ((1 ≤ clients) × (clients ≤ MAX_CLIENTS)) }
    ensures none { clients ≡ 0 → result ≡ Err share_fault.BadLimit }
    ensures many { 64 < clients → result ≡ Err share_fault.BadLimit }
    ensures refused { IfErr result (λ fault. 1 ≤ clients → clients ≤ MAX_CLIENTS → fault ≢ share_fault.BadLimit) }
{
    if clients == 0 || clients > MAX_CLIENTS {
        return Err(ShareFault::BadLimit);
    }
    let NewOpening { book, blank } = fresh;
    let (counter, list) = book.named::<O>();
    let row_limit = manager.row_limit();
    let mut writer = writer_over(alloc, &manager, &list, clients, wait)?;
    let (book, mut rest) = blank.open::<O>();
    match sessions_of(alloc, clients, row_limit, &mut writer, &list, &mut rest) {
        Ok(sessions) => {
            let publisher = Publisher::new(counter, list, writer);
            let locked = Locked::new(manager, store, book, rest, publisher);
            Ok(Parts { locked, sessions })
        }
        Err(fault) => {
            writer.take(wait);
            Err(fault)
        }
    }
}

/// Opens a session for each client, as `open_parts`, over what they share.
///
/// # Errors
///
/// As `open_parts`.
pub fn open<O: Opening, S: ImageStore, R: Wait>(
    alloc: Global,
    manager: Manager,
    store: S,
    clients: u32,
    fresh: NewOpening,
    wait: &R,
) -> Result<(Shared<O, S>, Vec<Session<O>>), ShareFault>
    requires name { (fresh.blank.name ≡ O.name) × (fresh.blank.parts ≡ O.parts) × (O.clients ≡ O.parts) × (O.clients ≡ clients) }
    requires opening { (fresh.book.list.opening ≡ O.opened) × (fresh.book.list.list ≡ []) × (O.opened.manager ≡ manager) }
    requires store { S.columns store ≡ manager.schema }
    ensures sessions { IfOk result (λ r. r.1.items ≡ map new_seat (range_with_len 0 clients)) }
    ensures limit { OnOk result ((1 ≤ clients) × (clients ≤ MAX_CLIENTS)) }
    ensures none { clients ≡ 0 → result ≡ Err share_fault.BadLimit }
    ensures many { 64 < clients → result ≡ Err share_fault.BadLimit }
    ensures refused { IfErr result (λ fault. 1 ≤ clients → clients ≤ MAX_CLIENTS → fault ≢ share_fault.BadLimit) }
{
    if clients == 0 || clients > MAX_CLIENTS {
        return Err(ShareFault::BadLimit);
    }
    let counts = Vec::with_capacity(alloc, clients as usize)?;
    let Parts { locked, sessions } = match open_parts(alloc, manager, store, clients, fresh, wait) {
        Ok(parts) => parts,
        Err(fault) => return Err(fault),
    };
    let state = Mutex::new(locked);
    Ok((Shared { state, counts }, sessions))
}

/// Prepares and commits the session's transaction over the state.
fn commit_in<O: Opening, S: ImageStore, R: Wait>(
    rt: &R,
    state: &mut Locked<O, S>,
    session: &mut Session<O>,
) -> Result<(CommitReply, Released), CommitFault>
    ensures replied { IfOk result (λ r. WasReplied O.opened.manager session.old session.new r.0) }
    ensures told { IfOk result (λ r. WasTold O.opened.manager session.new (number_of r.0)) }
    ensures ended { OnOk result ((session.new.txn ≡ None) × (session.new.count ≡ session.old.count + 1)) }
    ensures err { OnErr result (session.new ≡ session.old) }
    ensures open { session.old.txn ≡ None → result ≡ Err commit_fault.NotOpen }
    ensures undecided { result ≡ Err commit_fault.NotOpen → session.old.txn ≡ None }
    ensures stranger { result ≡ Err commit_fault.Stranger → number_in O.opened.manager [] < number_in O.opened.manager session.old.seen }
    ensures client { session.new.client ≡ session.old.client }
{
    let prepared = match session.prepare_at(state) {
        Ok(prepared) => prepared,
        Err(fault) => return Err(fault),
    };
    session.commit_at(rt, state, prepared)
}

impl<O: Opening, S: ImageStore> Shared<O, S> {
    /// Commits the session's transaction: it is decided over all that was published, and at Committed published before the
    /// reply is given. Waits for the lock.
    ///
    /// # Errors
    ///
    /// `NotOpen` where no transaction is open. `Stranger` where the session has seen more commits than are held, and
    /// `NoMemory` where a growth is refused: the transaction stays open.
    pub fn commit<R: Wait>(
        &self,
        session: &mut Session<O>,
        wait: &R,
    ) -> Result<CommitReply, CommitFault>
        ensures replied { IfOk result (λ reply. WasReplied O.opened.manager session.old session.new reply) }
        ensures told { IfOk result (λ reply. WasTold O.opened.manager session.new (number_of reply)) }
        ensures ended { OnOk result ((session.new.txn ≡ None) × (session.new.count ≡ session.old.count + 1)) }
        ensures err { OnErr result (session.new ≡ session.old) }
        ensures open { session.old.txn ≡ None → result ≡ Err commit_fault.NotOpen }
        ensures undecided { result ≡ Err commit_fault.NotOpen → session.old.txn ≡ None }
        ensures stranger { result ≡ Err commit_fault.Stranger → number_in O.opened.manager [] < number_in O.opened.manager session.old.seen }
        ensures client { session.new.client ≡ session.old.client }
    {
        let mut state = self.state.lock(wait);
        let outcome = commit_in(wait, &mut state, session);
        MutexGuard::unlock(state);
        let (reply, released) = outcome?;
        // Its trees and writes are freed here, so that nobody waits for the lock meanwhile.
        drop(released);
        Ok(reply)
    }

    /// Folds the Write-PDT into the Read-PDT, and publishes the version under its new layers. Waits for the lock.
    ///
    /// # Errors
    ///
    /// `NoMemory` where a growth is refused: nothing changes.
    pub fn fold<R: Wait>(&self, wait: &R) -> Result<(), NoMemory> {
        let mut state = self.state.lock(wait);
        let outcome = state.fold(wait);
        MutexGuard::unlock(state);
        outcome
    }

    /// Writes the newest image to the store, and answers its generation: the store is asked whether it can take one, the
    /// version over the new stable table is published, and only then do the devices get it. Waits for the lock.
    ///
    /// # Errors
    ///
    /// As those of `Manager::checkpoint`: the manager keeps its layers, and the table that is published is the same.
    pub fn checkpoint<R: Wait>(&self, wait: &R) -> Result<u32, CheckpointFault> {
        let mut state = self.state.lock(wait);
        let outcome = state.checkpoint(wait);
        MutexGuard::unlock(state);
        outcome
    }

    /// Hands out the history of this opening since the last cut, which is legal; numbers of commits go on. Waits for the lock.
    ///
    /// # Errors
    ///
    /// `NoMemory` where a growth is refused: nothing changes.
    pub fn cut<R: Wait>(&self, wait: &R) -> Result<History, NoMemory>
        ensures legal { IfOk result (λ history. IsLegal history.schema history.start history.records) }
        ensures opening { IfOk result (λ history. IsHandedOut O.opened.manager history) }
    {
        let mut state = self.state.lock(wait);
        let outcome = state.cut(wait);
        MutexGuard::unlock(state);
        outcome
    }

    /// Puts another store in the place of the held one, and answers that one: the next checkpoint writes to the new store.
    /// Nothing is published, and no record is made. Waits for the lock.
    ///
    /// # Errors
    ///
    /// The given store, where its columns aren't the manager's: nothing changes.
    pub fn swap_store<R: Wait>(&self, store: S, wait: &R) -> Result<S, S>
        ensures ok { IfOk result (λ old. (S.columns old ≡ O.opened.manager.schema) × (S.columns store ≡ O.opened.manager.schema)) }
        ensures err { IfErr result (λ back. (back ≡ store) × (S.columns store ≡ O.opened.manager.schema → ⊥)) }
    {
        let mut state = self.state.lock(wait);
        let outcome = state.swap(store);
        MutexGuard::unlock(state);
        outcome
    }

    /// Takes the sessions back, and gives the manager, the store and how many commit replies each session got; open
    /// transactions are aborted. With all sessions the manager has made as many records as these are. Waits for the lock.
    pub fn close<R: Wait>(self, sessions: Vec<Session<O>>, wait: &R) -> Closed<S>
        requires { O.clients ≡ O.parts }
        ensures lawful { IsManaged result.manager }
        ensures counts { result.counts.items ≡ map (λ s. s.count) sessions.items }
        ensures handed { O.opened.manager.made + length result.manager.history ≤ length O.opened.manager.history + result.manager.made }
        ensures records { vec_len sessions ≡ O.clients → result.manager.made ≡ O.opened.manager.made + sum result.counts.items }
        ensures closed { IsClosed O.opened.manager sessions.items result.manager }
        ensures lists { All
            (λ s. AreBeginnings (commits_above O.opened.manager s.seen result.manager.start.base) (commits_made result.manager))
            sessions.items }
        ensures store { S.columns result.store ≡ result.manager.schema }
    {
        let Shared { state, counts } = self;
        let locked = state.into_inner();
        let list = locked.list();
        close_parts(locked, sessions, counts, &list, wait)
    }
}

/// Takes the sessions back, and gives the manager, the store and how many commit replies each session got, in the room that is
/// given for that; open transactions are aborted. With all sessions the manager has made as many records as these are.
pub fn close_parts<O: Opening, S: ImageStore, R: Wait>(
    locked: Locked<O, S>,
    sessions: Vec<Session<O>>,
    counts: Vec<u64>,
    also: &SeenList,
    wait: &R,
) -> Closed<S>
    requires parts { O.clients ≡ O.parts }
    requires room { (vec_len counts ≡ 0) × (O.clients ≤ vec_capacity counts) }
    requires also { also.now.opening ≡ O.opened }
    ensures lawful { IsManaged result.manager }
    ensures counts { result.counts.items ≡ map (λ s. s.count) sessions.items }
    ensures handed { O.opened.manager.made + length result.manager.history ≤ length O.opened.manager.history + result.manager.made }
    ensures records { vec_len sessions ≡ O.clients → result.manager.made ≡ O.opened.manager.made + sum result.counts.items }
    ensures closed { IsClosedWith O.opened.manager sessions.items result.manager also.now.list }
    ensures lists { All
        (λ s. AreBeginnings (commits_above O.opened.manager s.seen result.manager.start.base) (commits_made result.manager))
        sessions.items }
    ensures store { S.columns result.store ≡ result.manager.schema }
{
    let mut counts = counts;
    let Unlocked {
        manager,
        store,
        mut book,
        rest: mut all,
        list,
    } = locked.close(wait);
    for session in sessions {
        let EndedSession { count, share, seen } = session.end();
        let _both = seen.longer(&list);
        all.merge(share);
        counts.push_reserved(count);
    }
    // Called for what its clauses tell.
    let _also = also.longer(&list);
    book.audit(&mut all);
    Closed {
        manager,
        store,
        counts,
    }
}
