//! A run of a script's clients, each on a thread of its own, over a store with a journal.
ghost use Rattle.std.specs.Prelude.{◌≡◌, ◌≤◌, ℕ, [], All, IfErr, IfOk, IsOk, IsTrue, List, MatchResult, OnOk, length, map, max, vec_capacity, vec_len};
ghost use Rattle.std.specs.Io.KnownBytes.{Appends};
ghost use Rattle.inputs.specs.Typed.{is_typed_call};
ghost use Rattle.manager.specs.Managed.{rebuilt_of};
ghost use Rattle.manager.specs.Checkpoint.{fault_of_store};
ghost use Rattle.pdtcli.specs.Output.{exit_status, lines_text};
ghost use Rattle.pdtcli.specs.declared.reply.ReplyLine.{ReplyLine as Line};
ghost use Rattle.journaled_clients.specs.Clients.{HasMadeDurably};
ghost use Rattle.journaled_clients.specs.Run.{HaveMadeDurably, IsClosedRun, IsDurableRunOfClients, IsRunRefusal, transcript_text};
ghost use Rattle.pdtcli.specs.declared.refusal.Refusal.TheVariants as refusal;

use crate::client::{ClientRun, run_client};
use crate::transcript::{Transcript, TranscriptId, Written};
use durable_sessions::{
    ClosedParts, DurableParts, DurableSession, DurableShared, FrameSettings, NewJournal, open,
};
use inputs::{ClientCall, Script};
use logging::{Appender, JournalDevice};
use manager::{CheckpointFault, Manager};
use pdtcli::{Opened, Refusal, RunFault, ShowFault, StoreFault, show_newest};
use shared::{ImageStore, NewOpening, ShareFault};
use std::alloc::Global;
use std::io::Write;
use std::marker::Brand;
use std::sync::{Mutex, Wait};
use std::thread::{Threads, map_vec};
use watermark::{NewWatermark, WatermarkReader};

/// The number of the table in the payloads of the journal: a store has one table.
const TABLE: u32 = 0;

/// The journal of a new store's commits, all of whose bytes are durable, and the seed of its frames.
#[derive(Drop)]
pub struct NewCommits<D: JournalDevice> {
    pub log: Appender<D>,
    pub seed: u32,
    ghost seeded: { log.seed ≡ seed },
    ghost durable: { length log.device.appended ≤ log.device.safe },
}

/// What a run of clients leaves.
#[derive(Drop)]
pub struct ClientsRun<S: ImageStore, D: JournalDevice, W: Write> {
    pub manager: Manager,
    /// The store, as the checkpoints of the run left it.
    pub store: S,
    /// The journal of the commits.
    pub journal: Appender<D>,
    /// For each client, how many of its commits were decided.
    pub counts: Vec<u64>,
    /// The output, with all that was written.
    pub out: W,
    /// The program's exit status.
    pub status: u8,
}

/// Stores the table of a manager, and makes it the manager's stable table.
fn store_table<S: ImageStore>(manager: &mut Manager, store: &mut S) -> Result<u32, CheckpointFault>
    requires { S.columns store.old ≡ manager.old.schema }
    ensures manager { MatchResult result (λ _. manager.new ≡ rebuilt_of manager.old) (λ _. manager.new ≡ manager.old) }
    ensures columns { S.columns store.new ≡ S.columns store.old }
{
    store.is_ready()?;
    let rebuilt = manager.prepare_checkpoint()?;
    store.take(manager, rebuilt)
}

/// The refusal of a store that doesn't take the table.
fn refusal_of(fault: CheckpointFault) -> Refusal
    ensures { result ≡ refusal.Store (fault_of_store fault) }
{
    Refusal::Store(match fault {
        CheckpointFault::StoreFailed => StoreFault::StoreFailed,
        CheckpointFault::GenerationsSpent => StoreFault::GenerationsSpent,
        CheckpointFault::NoMemory => StoreFault::NoMemory,
        CheckpointFault::DeviceFailed(device) => StoreFault::DeviceFailed(device),
    })
}

/// A reader of the watermark, as the first client's.
fn first_reader<O: TranscriptId, S: ImageStore, D: JournalDevice>(
    shared: &DurableShared<O, S, D>,
    clients: &mut [DurableSession<O>],
) -> WatermarkReader<O>
    requires some { 1 ≤ length clients.old }
    ensures sessions { map (λ c. c.session) clients.new ≡ map (λ c. c.session) clients.old }
{
    shared.reader(&mut clients[0])
}

/// Has the first client keep a reader, where it has loaded more than the client's.
fn keep_newer<O: TranscriptId>(clients: &mut [DurableSession<O>], reader: WatermarkReader<O>)
    requires some { 1 ≤ length clients.old }
    ensures sessions { map (λ c. c.session) clients.new ≡ map (λ c. c.session) clients.old }
    ensures newest { (limit : ℕ) → All (λ n. n ≤ limit) (map (λ c. c.reader) clients.new) → reader ≤ limit }
{
    let first = &mut clients[0];
    if reader.number() > first.reader.number() {
        first.reader = reader;
    }
}

/// Has each client make its calls on a thread of its own. The sessions come back in the same order.
///
/// # Errors
///
/// The fault over which a line isn't written, and `NoMemory` where room for the threads is refused.
fn run_all<
    O: TranscriptId + Send + Sync,
    S: ImageStore + Send,
    D: JournalDevice + Send,
    W: Write + Send + Drop,
    R: Threads + Wait + Sync,
>(
    rt: &R,
    alloc: Global,
    shared: &DurableShared<O, S, D>,
    transcript: &Mutex<Transcript<O, W>>,
    script: &Script,
    clients: Vec<DurableSession<O>>,
) -> Result<Vec<DurableSession<O>>, ShowFault>
    requires script { script.now.schema ≡ O.opened.manager.schema }
    requires names { script.now.clients ≡ O.names }
    ensures { IfOk result (λ back. HaveMadeDurably O.opened.manager script.now.calls (map (λ c. c.session) clients.items)
        (map (λ c. c.session) back.items)) }
{
    let names = script.clients();
    let calls = script.calls();
    let one = move |client: DurableSession<O>| -> ClientRun<O>
        requires { (names.now ≡ O.names) × All (λ asked. IsTrue (is_typed_call O.opened.manager.schema asked.call)) calls.now }
        ensures { OnOk result.1 ((lines : List Line)
            × HasMadeDurably O.opened.manager client.session calls.entry.now lines result.0.session) }
    { run_client(rt, alloc, shared, transcript, names, calls, client) };
    let Ok(back) = Vec::with_capacity(alloc, clients.len()) else {
        return Err(ShowFault::NoMemory);
    };
    let Ok(ran) = map_vec(rt, clients, &one) else {
        return Err(ShowFault::NoMemory);
    };
    sessions_of(ran, back)
}

/// The sessions that the threads were given, where each line is written.
fn sessions_of<O: TranscriptId>(
    ran: Vec<ClientRun<O>>,
    mut back: Vec<DurableSession<O>>,
) -> Result<Vec<DurableSession<O>>, ShowFault>
    requires empty { back.items ≡ [] }
    requires room { vec_len ran ≤ vec_capacity back }
    ensures sessions { IfOk result (λ back. map (λ c. c.session) back.items ≡ map (λ r. r.0.session) ran.items) }
    ensures written { OnOk result (All (λ r. IsOk r.1) ran.items) }
{
    for (client, outcome) in ran {
        outcome?;
        back.push_reserved(client);
    }
    Ok(back)
}

/// Opens a session for each client, has each make its calls, and closes them.
fn run_shared<
    O: TranscriptId + Send + Sync,
    S: ImageStore + Send,
    D: JournalDevice + Send,
    W: Write + Send + Drop,
    R: Threads + Wait + Sync,
>(
    rt: &R,
    alloc: Global,
    manager: Manager,
    store: S,
    journal: NewJournal<D>,
    clients: u32,
    fresh: NewOpening,
    script: &Script,
    out: W,
) -> Result<ClientsRun<S, D, W>, Refusal>
    requires name { (fresh.blank.name ≡ O.name) × (fresh.blank.parts ≡ O.parts) × (O.clients ≡ O.parts) × (O.clients ≡ clients) }
    requires opening { (fresh.book.list.opening ≡ O.opened) × (fresh.book.list.list ≡ []) × (O.opened.manager ≡ manager) }
    requires store { S.columns store ≡ manager.schema }
    requires watermark { journal.watermark.cell.table.shared.table_id ≡ O.watermark }
    requires log { (journal.log.device.appended ≡ O.front) × (length O.front ≤ journal.log.device.safe) × (journal.log.seed ≡ O.seed) }
    requires frames { (journal.frames.seed ≡ O.seed) × (journal.frames.table ≡ O.table) }
    requires base { (O.base ≡ O.opened.manager.start.base) × (O.opened.manager.history ≡ []) }
    requires script { script.now.schema ≡ manager.schema }
    requires transcript { (script.now.clients ≡ O.names) × (W.contents out ≡ O.before) }
    requires some { clients ≡ max 1 (length script.now.clients) }
    ensures ran { IfOk result (λ ran. (lines : List Line)
        × IsDurableRunOfClients O.opened.manager O.table script.now O.front O.seed lines ran.manager ran.counts.items ran.journal.device
        × Appends O.before (W.contents ran.out) (lines_text O.names lines)
        × (ran.status ≡ exit_status lines)) }
    ensures store { IfOk result (λ ran. S.columns ran.store ≡ ran.manager.schema) }
    ensures refused { IfErr result IsRunRefusal }
{
    let DurableParts {
        shared,
        mut clients,
    } = match open::<O, S, D, R>(alloc, manager, store, journal, clients, fresh, rt) {
        Ok(parts) => parts,
        Err(fault) => return Err(Refusal::Threads(RunFault::Open(fault))),
    };
    let reader = first_reader(&shared, clients.as_mut_slice());
    let transcript = Mutex::new(Transcript::new(out, reader));
    let ran = run_all(rt, alloc, &shared, &transcript, script, clients);
    let written = transcript.into_inner().into_written();
    match (ran, written) {
        (Ok(back), Ok(written)) => Ok(closed(rt, shared, back, written)),
        (Err(fault), _) | (_, Err(fault)) => {
            shared.close(Vec::new(alloc), rt);
            Err(Refusal::Output(fault))
        }
    }
}

/// Closes the sessions after a run whose lines are written.
fn closed<O: TranscriptId, S: ImageStore, D: JournalDevice, W: Write + Drop, R: Wait>(
    rt: &R,
    shared: DurableShared<O, S, D>,
    clients: Vec<DurableSession<O>>,
    written: Written<O, W>,
) -> ClientsRun<S, D, W>
    requires parts { O.clients ≡ O.parts }
    requires all { vec_len clients ≡ O.clients }
    requires some { 1 ≤ O.clients }
    ensures closed { IsClosedRun O.opened.manager O.table O.front O.seed (map (λ c. c.session) clients.items) written.reader
        result.manager result.counts.items result.journal.device }
    ensures store { S.columns result.store ≡ result.manager.schema }
    ensures written { (result.out ≡ written.out) × (result.status ≡ written.status) }
{
    let Written {
        out,
        reader,
        status,
    } = written;
    let mut clients = clients;
    keep_newer(clients.as_mut_slice(), reader);
    let ClosedParts {
        manager,
        store,
        journal,
        counts,
    } = shared.close(clients, rt);
    ClientsRun {
        manager,
        store,
        journal,
        counts,
        out,
        status,
    }
}

/// Makes a script's calls, each client's on a thread of its own and in their order, over a table that is stored first, as the store's
/// image. Each reply line is written before the client's next call, the lines of all clients in the order of their replies, and at the end
/// the newest image. A commit is durable in the journal before its line Committed is written. Checkpoints go to the store. Transactions that
/// are open at the end are ended without a line. Waits for locks and threads.
///
/// # Errors
///
/// `Store` where the table isn't stored, `Threads` where the sessions aren't opened: nothing is written then. `Output` where the output, or
/// room for the threads, is refused: the run ends there, and the commits that were replied Committed are durable.
pub fn run_journaled_on_threads<
    S: ImageStore + Send,
    D: JournalDevice + Send,
    W: Write + Send + Drop,
    R: Threads + Wait + Sync,
>(
    rt: &R,
    alloc: Global,
    opened: Opened,
    commits: NewCommits<D>,
    store: S,
    out: W,
) -> Result<ClientsRun<S, D, W>, Refusal>
    requires script { opened.script.schema ≡ opened.manager.schema }
    requires store { S.columns store ≡ opened.manager.schema }
    requires new { opened.manager.history ≡ [] }
    ensures ran { IfOk result (λ ran. (lines : List Line)
        × IsDurableRunOfClients (rebuilt_of opened.manager) 0 opened.script commits.log.device.appended commits.log.seed lines
        ran.manager ran.counts.items ran.journal.device
        × Appends (W.contents out) (W.contents ran.out) (transcript_text opened.script.clients lines ran.manager)
        × (ran.status ≡ exit_status lines)) }
    ensures store { IfOk result (λ ran. S.columns ran.store ≡ ran.manager.schema) }
    ensures refused { IfErr result IsRunRefusal }
{
    let Opened { manager, script } = opened;
    let mut manager = manager;
    let mut store = store;
    if let Err(fault) = store_table(&mut manager, &mut store) {
        return Err(refusal_of(fault));
    }
    let Ok(clients) = u32::try_from(script.clients().len().max(1)) else {
        return Err(Refusal::Threads(RunFault::Open(ShareFault::BadLimit)));
    };
    let Ok(watermark) = NewWatermark::new(alloc) else {
        return Err(Refusal::Threads(RunFault::NoMemory));
    };
    let NewCommits { log, seed } = commits;
    let journal = NewJournal {
        log,
        frames: FrameSettings { seed, table: TABLE },
        watermark,
    };
    let fresh = NewOpening::new(&manager, clients);
    let ran = run_shared::<Brand, S, D, W, R>(
        rt, alloc, manager, store, journal, clients, fresh, &script, out,
    )?;
    let ClientsRun {
        manager,
        store,
        journal,
        counts,
        mut out,
        status,
    } = ran;
    show_newest(alloc, &manager.newest(), &mut out)?;
    Ok(ClientsRun {
        manager,
        store,
        journal,
        counts,
        out,
        status,
    })
}
