//! A run of a script's clients, each on a thread of its own.
ghost use Rattle.std.specs.Prelude.{◌≡◌, ◌⊎◌, ◌+◌, ◌<◌, ◌≤◌, ◌++◌, ℕ, [], All, IfErr, IfOk, IsTrue, OnOk, length, map, vec_items, vec_len, vec_capacity};
ghost use Rattle.std.specs.List.{range_with_len};
ghost use Rattle.inputs.specs.Typed.{is_typed_call};
ghost use Rattle.shared.specs.Sessions.{new_seat};
ghost use Rattle.pdtcli.specs.Clients.{HasMade, HaveMade, IsClientsRefusal, IsSpawnRefusal, calls_of, each_with, joined_lines};
ghost use Rattle.pdtcli.specs.Program.{IsRunOnThreads};
ghost use Rattle.pdtcli.specs.Run.{AreHanded};
ghost use Rattle.pdtcli.specs.declared.clients.RunFault.TheVariants as run_fault;

use crate::client::{count_calls, run_client};
use crate::gate::Gate;
use crate::outcome::{Left, Outcome};
use crate::reply::ReplyLine;
use crate::serial::handed_out;
use inputs::{ClientCall, Script};
use manager::Manager;
use publishing::Opening;
use shared::{Closed, ImageStore, NewOpening, Session, ShareFault, Shared, open};
use std::alloc::{AllocError, Global};
use std::marker::{Brand, Model};
use std::snapshot::Snapshot;
use std::sync::Wait;
use std::thread;
use std::thread::{Promise, PromisedHandle, Scope, Threads};
use thiserror::Error;
use values::{NoMemory, Text, copy_texts};

/// Why the clients' run leaves nothing. The manager and the store are dropped.
#[derive(Clone, Copy, Debug, PartialEq, Eq, Error)]
pub enum RunFault {
    /// The sessions aren't opened.
    #[error("{0}")]
    Open(ShareFault),
    /// No thread could be made for this client. Those that were made have ended.
    #[error("NoThread {0}")]
    NoThread(u32),
    /// Room for the run was refused.
    #[error("NoMemory")]
    NoMemory,
}

impl From<NoMemory> for RunFault {
    ghost from_gives = { λ _ fault. fault ≡ run_fault.NoMemory };

    fn from(_: NoMemory) -> RunFault {
        RunFault::NoMemory
    }
}

impl From<AllocError> for RunFault {
    ghost from_gives = { λ _ fault. fault ≡ run_fault.NoMemory };

    fn from(_: AllocError) -> RunFault {
        RunFault::NoMemory
    }
}

/// What comes back of a thread: the session that it was given has made its calls, and these are their lines.
#[derive(Drop)]
struct Making<'e, O: Opening> {
    session: Snapshot<Session<O>>,
    calls: &'e [ClientCall],
}

impl<'e, O: Opening> Promise<(Session<O>, Vec<ReplyLine>)> for Making<'e, O> {
    ghost use Rattle.pdtcli.specs.Clients.{HasMade};

    ghost kept_by = { λ p r. HasMade O.opened.manager p.session.value p.calls.now r.1.items r.0 };
}

/// A thread that makes a session's calls.
type Running<'e, O> = PromisedHandle<(Session<O>, Vec<ReplyLine>), Making<'e, O>>;

/// What the clients' threads are lent. Contracts see the calls, which are typed under the schema of the opening.
#[derive(Drop)]
struct Clients<'e, O: Opening, S: ImageStore, G, R> {
    rt: &'e R,
    alloc: Global,
    shared: &'e Shared<O, S>,
    gate: &'e G,
    /// The calls of all clients, in the script's order.
    calls: &'e [ClientCall],
}

impl<'e, O: Opening, S: ImageStore, G, R> Model for Clients<'e, O, S, G, R> {
    ghost use Rattle.std.specs.Prelude.{All, IsTrue, List};
    ghost use Rattle.inputs.specs.Typed.{is_typed_call};
    ghost use Rattle.inputs.specs.declared.call.ClientCall.{ClientCall};

    ghost Value = { List ClientCall };

    ghost view = { λ c. c.calls.now };

    ghost invariant = { λ c. All (λ asked. IsTrue (is_typed_call O.opened.manager.schema asked.call)) c.calls.now };
}

/// Makes a script's calls, each client's on a thread of its own and in their order, from a manager with no transaction
/// open; its checkpoints go to the store. The gate is called round each. The reply lines are grouped by client, in the
/// order of the clients. Transactions that are open at the end are ended without a line. Waits for the lock and the threads.
///
/// # Errors
///
/// `Open` where the sessions aren't opened, `NoThread` with the first client for which no thread could be made, and
/// `NoMemory` where room for the run is refused; a call that finds no memory is answered so, and the run goes on.
pub fn run_clients<S: ImageStore + Send, G: Gate, R: Threads + Wait + Sync>(
    rt: &R,
    alloc: Global,
    manager: Manager,
    store: S,
    script: &Script,
    gate: &G,
) -> Result<Outcome<S>, RunFault>
    // The calls were read under the manager's schema, which is the store's.
    requires script { script.now.schema ≡ manager.schema }
    requires store { S.columns store ≡ manager.schema }
    ensures run { IfOk result (λ outcome. IsRunOnThreads manager script.now outcome.left) }
    ensures handed { IfOk result (λ outcome. AreHanded manager outcome.left.manager outcome.left.handed) }
    ensures store { IfOk result (λ outcome. S.columns outcome.store ≡ outcome.left.manager.schema) }
    ensures refused { IfErr result (IsClientsRefusal (length script.now.clients)) }
{
    let names = copy_texts(alloc, script.clients())?;
    if names.is_empty() {
        let left = Left::new(names, Vec::new(alloc), manager, Vec::new(alloc), 0);
        return Ok(Outcome { left, store });
    }
    let Ok(clients) = u32::try_from(names.len()) else {
        return Err(RunFault::Open(ShareFault::BadLimit));
    };
    let fresh = NewOpening::new(&manager, clients);
    run_shared::<Brand, S, G, R>(rt, manager, store, script, names, clients, gate, fresh)
}

/// Opens a session for each client, has each make its calls, and closes them.
fn run_shared<O: Opening + Send + Sync, S: ImageStore + Send, G: Gate, R: Threads + Wait + Sync>(
    rt: &R,
    manager: Manager,
    store: S,
    script: &Script,
    names: Vec<Text>,
    clients: u32,
    gate: &G,
    fresh: NewOpening,
) -> Result<Outcome<S>, RunFault>
    requires name { (fresh.blank.name ≡ O.name) × (fresh.blank.parts ≡ O.parts) × (O.clients ≡ O.parts) × (O.clients ≡ clients) }
    requires opening { (fresh.book.list.opening ≡ O.opened) × (fresh.book.list.list ≡ []) × (O.opened.manager ≡ manager) }
    requires script { script.now.schema ≡ manager.schema }
    requires store { S.columns store ≡ manager.schema }
    requires names { (names.items ≡ script.now.clients) × (clients ≡ length script.now.clients) }
    requires some { 1 ≤ clients }
    ensures run { IfOk result (λ outcome. IsRunOnThreads manager script.now outcome.left) }
    ensures handed { IfOk result (λ outcome. AreHanded manager outcome.left.manager outcome.left.handed) }
    ensures store { IfOk result (λ outcome. S.columns outcome.store ≡ outcome.left.manager.schema) }
    ensures refused { IfErr result (IsClientsRefusal (length script.now.clients)) }
{
    let alloc = *names.allocator();
    let handed_before = handed_out(&manager);
    let (shared, sessions) = match open::<O, S, R>(alloc, manager, store, clients, fresh, rt) {
        Ok(opened) => opened,
        Err(fault) => return Err(RunFault::Open(fault)),
    };
    let lent = Clients {
        rt,
        alloc,
        shared: &shared,
        gate,
        calls: script.calls(),
    };
    match lent.run_all(sessions) {
        Ok((back, groups)) => {
            let closed = shared.close(back, rt);
            Ok(outcome_of(alloc, names, groups, closed, handed_before)?)
        }
        Err(fault) => {
            shared.close(Vec::new(alloc), rt);
            Err(fault)
        }
    }
}

/// What the closed sessions leave, with their lines one client after the other.
fn outcome_of<S: ImageStore>(
    alloc: Global,
    names: Vec<Text>,
    groups: Vec<Vec<ReplyLine>>,
    closed: Closed<S>,
    handed_before: u64,
) -> Result<Outcome<S>, NoMemory>
    requires before { handed_before + length closed.manager.history ≤ closed.manager.made }
    ensures left { IfOk result (λ outcome. (handed : ℕ)
        × (handed + handed_before + length closed.manager.history ≡ closed.manager.made)
        × (outcome.left ≡ record {
          clients = names.items;
          lines = joined_lines (map vec_items groups.items);
          manager = closed.manager;
          counts = closed.counts.items;
          handed = handed;
        })) }
    ensures store { IfOk result (λ outcome. outcome.store ≡ closed.store) }
{
    let lines = join_lines(alloc, groups)?;
    let Closed {
        manager,
        store,
        counts,
    } = closed;
    let handed = handed_out(&manager) - handed_before;
    let left = Left::new(names, lines, manager, counts, handed);
    Ok(Outcome { left, store })
}

impl<'e, O, S, G, R> Clients<'e, O, S, G, R>
where
    O: Opening + Send + Sync,
    S: ImageStore + Send,
    G: Gate,
    R: Threads + Wait + Sync,
{
    /// Has each session make its calls on a thread of its own. The sessions and their lines come back in the same order.
    fn run_all(
        self,
        sessions: Vec<Session<O>>,
    ) -> Result<(Vec<Session<O>>, Vec<Vec<ReplyLine>>), RunFault>
        requires numbered { All (λ session. session.client < O.clients) sessions.items }
        ensures made { IfOk result (λ r. HaveMade O.opened.manager (each_with self.entry sessions.items)
            (map vec_items r.1.items) r.0.items) }
        ensures refused { IfErr result (IsSpawnRefusal O.clients) }
    {
        let lent = &self;
        thread::scope(
            thread::scope_env(),
            self.rt,
            |scope| -> Result<(Vec<Session<O>>, Vec<Vec<ReplyLine>>), RunFault>
                requires numbered { All (λ session. session.client < O.clients) sessions.items }
                ensures made { IfOk result (λ r. HaveMade O.opened.manager (each_with lent.entry.now sessions.items)
                    (map vec_items r.1.items) r.0.items) }
                ensures refused { IfErr result (IsSpawnRefusal O.clients) }
            { lent.run_in(scope, sessions) },
        )
    }

    /// Starts the threads in the scope, and waits for those that were started.
    fn run_in<'s>(
        &self,
        scope: &'s Scope<'s, &'e ()>,
        sessions: Vec<Session<O>>,
    ) -> Result<(Vec<Session<O>>, Vec<Vec<ReplyLine>>), RunFault>
    where
        'e: 's,
        requires numbered { All (λ session. session.client < O.clients) sessions.items }
        ensures made { IfOk result (λ r. HaveMade O.opened.manager (each_with self.now sessions.items)
            (map vec_items r.1.items) r.0.items) }
        ensures refused { IfErr result (IsSpawnRefusal O.clients) }
    {
        let count = sessions.len();
        let mut handles = Vec::with_capacity(self.alloc, count)?;
        let back = Vec::with_capacity(self.alloc, count)?;
        let groups = Vec::with_capacity(self.alloc, count)?;
        let started = self.spawn_all(scope, sessions, &mut handles);
        let (back, groups) = join_all(self.rt, handles, back, groups);
        match started {
            Ok(()) => Ok((back, groups)),
            Err(fault) => Err(fault),
        }
    }

    /// Starts a thread for each session, up to the first for which none could be made.
    fn spawn_all<'s>(
        &self,
        scope: &'s Scope<'s, &'e ()>,
        sessions: Vec<Session<O>>,
        handles: &mut Vec<Running<'e, O>>,
    ) -> Result<(), RunFault>
    where
        'e: 's,
        requires numbered { All (λ session. session.client < O.clients) sessions.items }
        requires empty { handles.old.items ≡ [] }
        requires room { vec_len sessions ≤ vec_capacity handles.old }
        ensures started { OnOk result (map (λ h. (h.promise.session.value, h.promise.calls.now)) handles.new.items
            ≡ each_with self.now sessions.items) }
        ensures len { vec_len handles.new ≤ vec_len sessions }
        ensures refused { IfErr result (IsSpawnRefusal O.clients) }
    {
        for session in sessions {
            handles.push_reserved(self.spawn(scope, session)?);
        }
        Ok(())
    }

    /// Starts one client's thread.
    fn spawn<'s>(
        &self,
        scope: &'s Scope<'s, &'e ()>,
        session: Session<O>,
    ) -> Result<Running<'e, O>, RunFault>
    where
        'e: 's,
        ensures started { IfOk result (λ h. (h.promise.session.value ≡ session) × (h.promise.calls.now ≡ self.now)) }
        ensures refused { IfErr result (λ fault. (fault ≡ run_fault.NoMemory) ⊎ (fault ≡ run_fault.NoThread session.client)) }
    {
        let rt = self.rt;
        let shared = self.shared;
        let gate = self.gate;
        let calls = self.calls;
        let client = session.client();
        let lines = Vec::with_capacity(self.alloc, count_calls(calls, client))?;
        let promise = Making {
            session: Snapshot::of(&session),
            calls,
        };
        let run = move || -> (Session<O>, Vec<ReplyLine>)
            requires { (lines.items ≡ []) × (length (calls_of session.client calls.now) ≤ vec_capacity lines)
                × All (λ asked. IsTrue (is_typed_call O.opened.manager.schema asked.call)) calls.now }
            ensures { HasMade O.opened.manager session calls.entry.now result.1.items result.0 }
        { run_client(rt, shared, gate, session, calls, lines) };
        match scope.spawn_with(promise, run) {
            Ok(handle) => Ok(handle),
            Err(_refused) => Err(RunFault::NoThread(client)),
        }
    }
}

/// Waits for each thread.
fn join_all<'e, O: Opening, R: Threads>(
    rt: &R,
    handles: Vec<Running<'e, O>>,
    mut back: Vec<Session<O>>,
    mut groups: Vec<Vec<ReplyLine>>,
) -> (Vec<Session<O>>, Vec<Vec<ReplyLine>>)
    requires empty { (back.items ≡ []) × (groups.items ≡ []) }
    requires room { (vec_len handles ≤ vec_capacity back) × (vec_len handles ≤ vec_capacity groups) }
    ensures { HaveMade O.opened.manager (map (λ h. (h.promise.session.value, h.promise.calls.now)) handles.entry.items)
        (map vec_items result.1.items) result.0.items }
{
    for handle in handles {
        let (session, lines) = handle.join(rt);
        back.push_reserved(session);
        groups.push_reserved(lines);
    }
    (back, groups)
}

/// The lines of all clients, one client after the other.
fn join_lines(alloc: Global, groups: Vec<Vec<ReplyLine>>) -> Result<Vec<ReplyLine>, NoMemory>
    ensures { IfOk result (λ lines. lines.items ≡ joined_lines (map vec_items groups.items)) }
{
    let mut all = Vec::new(alloc);
    for group in groups {
        let mut group = group;
        all.append(&mut group)?;
    }
    Ok(all)
}
