//! The steps of a database's journal: C reports what has happened, is told which step is due, and performs it.
ghost use Rattle.std.specs.Prelude.{◌≡◌, ◌≢◌, ◌≤◌, ◌-◌, ◌^◌, ◌+◌, true, false, IfErr, IfOk, IfSome, IsSome, MatchOption, None, Some, [], drop, length, map, min, take};
ghost use Rattle.codec.specs.declared.fault.SpellFault.TheVariants as spell_fault;
ghost use Rattle.journal_steps.specs.declared.fault.AddFault.TheVariants as add_fault;
ghost use Rattle.journal_steps.specs.Batch.{header_part, payload_in};
ghost use Rattle.journal_steps.specs.Laws.{TheJournalGoesOn, TheJournalSurvives, TheWorldDoesWhatIsTold};
ghost use Rattle.journal_steps.specs.Progress.{added, began, broken_by, due, ended, header_from, may_add, newest, oldest, removed, reopened, stopped, wanted, withdrawn};
ghost use Rattle.journal_steps.specs.declared.step.Lane.TheVariants as lane;
ghost use Rattle.manager.specs.Managed.{IsOwn};
ghost use Rattle.manager.specs.Prepared.{IsPrepared, tree_in};
ghost use Rattle.pdt_c.specs.Journals.{IsLong};
ghost use Rattle.pdt_c.specs.Steps.{ArePieces, IsPiece, IsSealedAs, IsStaged, IsToldStep, frames_of, kind_due, lane_beside, lane_for, lane_of, moved, numbers_of, room_after, without_parts};
ghost use Rattle.pdt_c.specs.declared.codes.TheConstants.{DONE, FULL, NO_MEMORY, TOO_LONG};

use crate::calls::journals::write_decided;
use crate::codes::{DONE, FULL, NO_MEMORY, ROT, TOO_LONG, code_of_spelling};
use crate::handles::decision::Decision;
use crate::handles::open_batch::{Appending, OpenBatch};
use crate::handles::open_journal::{Journal, OpenJournal};
use crate::handles::store::Store;
use crate::handles::transaction::{OpenTxn, Transaction};
use crate::handles::{decision, open_batch, open_journal, store, transaction};
use codec::SpellFault;
use journal::Header;
use journal_steps::{
    AddFault, Batch, Goal, HEADER_BYTES, Lane, Sealed, Step, Steps, new_frame, seal,
    the_journal_goes_on, the_journal_survives, the_world_does_what_is_told,
};
use manager::{Manager, Prepared};
use std::alloc::Global;
use std::mem;
use std::ptr::NonNull;
use values::NoMemory;

/// The step that brings a commit to the file is asked for.
const TO_BE_WRITTEN: u32 = 1;

/// The step that makes a commit durable is asked for. Any other number asks for that of the next file.
const TO_BE_DURABLE: u32 = 2;

/// No step is due.
const NOTHING: u32 = 0;

/// The frames of a batch are to be appended to a file.
const APPEND: u32 = 1;

/// A file is to be synced.
const SYNC: u32 = 2;

/// A new file is to be made, with no bytes.
const CREATE: u32 = 3;

/// The names in the folder are to be synced.
const SYNC_NAMES: u32 = 4;

/// How far a journal is.
#[repr(C)]
#[derive(Clone, Copy)]
pub struct JournalNumbers {
    /// The number of the newest commit.
    pub newest: u64,
    /// That of the newest commit that is written.
    pub written: u64,
    pub durable: u64,
    /// The number of the file that is written.
    pub file: u64,
    /// That of the oldest file.
    pub first_file: u64,
    /// Whether a step has failed: no commit becomes durable any more.
    pub has_failed: bool,
}

/// Where the bytes of a frame are. They stay there until the batch ends.
#[repr(C)]
#[derive(Clone, Copy)]
pub struct FramePiece {
    pub at: *const u8,
    pub len: usize,
}

/// Opens a journal whose commits up to `newest` are durable, and which goes on in the file `file`, whose first frame is of the commit behind
/// `base`. Its oldest file is `first_file`. `ROT` where these numbers aren't in this order, too great, or the salt is that of no journal.
#[unsafe(no_mangle)]
pub extern "C" fn pdtr_journal_open(
    alloc: Global,
    salt: u64,
    name: u64,
    base: u64,
    newest: u64,
    first_file: u64,
    file: u64,
    journal: &mut Journal,
) -> u32
    ensures done { result ≡ DONE → IfSome journal.new.value (λ j. reopened (header_from salt name base) newest first_file file ≡ Some j.progress) }
    ensures parts { result ≡ DONE → IfSome journal.new.value (λ j. j.parts ≡ []) }
    ensures held { result ≡ DONE → IsSome journal.new.value }
    ensures kept { result ≢ DONE → journal.new.value ≡ journal.old.value }

    // For every order of the calls below and every failure of a step, and wherever a crash falls: the files read as the first frames, with
    // those of each commit that was durable; and the journal goes on behind them.
    ensures survives { TheJournalSurvives }
    ensures goes_on { TheJournalGoesOn }
    ensures told { TheWorldDoesWhatIsTold }
{
    the_journal_survives();
    the_journal_goes_on();
    the_world_does_what_is_told();
    let Some(header) = Header::new(salt, name, base) else {
        return ROT;
    };
    let Some(steps) = Steps::new(alloc, &header, newest, first_file, file) else {
        return ROT;
    };
    let draft = Vec::new(alloc);
    match Box::new(alloc, OpenJournal { steps, draft }) {
        Ok(opened) => {
            open_journal::put(journal, opened);
            DONE
        }
        Err(_) => NO_MEMORY,
    }
}

/// Lets go of a journal.
#[unsafe(no_mangle)]
pub extern "C" fn pdtr_journal_close(alloc: Global, journal: &mut Journal)
    requires { IsSome journal.old.value }
    ensures { journal.new.value ≡ None }
{
    let _open = open_journal::take(alloc, journal);
}

/// How far a journal is.
#[unsafe(no_mangle)]
pub extern "C" fn pdtr_journal_numbers(
    alloc: Global,
    journal: &mut Journal,
    numbers: &mut JournalNumbers,
)
    requires { IsSome journal.old.value }
    ensures kept { journal.new.value ≡ journal.old.value }
    ensures numbers { IfSome journal.old.value (λ j. numbers.new ≡ numbers_of j.progress) }
{
    let opened = open_journal::take(alloc, journal);
    *numbers = JournalNumbers {
        newest: opened.steps.newest(),
        written: opened.steps.written(),
        durable: opened.steps.durable(),
        file: opened.steps.file(),
        first_file: opened.steps.first_file(),
        has_failed: opened.steps.is_broken(),
    };
    open_journal::put(journal, opened);
}

/// Puts the part of what was decided for this transaction, under the table's number, behind the parts of the commit so far, and tells how
/// many bytes it has. Where it is refused nothing changes.
#[unsafe(no_mangle)]
pub extern "C" fn pdtr_stage(
    alloc: Global,
    store: &mut Store,
    txn: &mut Transaction,
    decision: &mut Decision,
    table: u32,
    journal: &mut Journal,
    len: &mut u64,
) -> u32
    requires store { IsSome store.old.value }
    requires txn { IsSome txn.old.value }
    requires decision { IsSome decision.old.value }
    requires journal { IsSome journal.old.value }
    requires own { IfSome store.old.value (λ m. IfSome txn.old.value (λ t. IsOwn m t.txn)) }
    requires prepared { IfSome store.old.value (λ m. IfSome txn.old.value (λ t. IfSome decision.old.value (IsPrepared m t.txn))) }
    ensures kept { (store.new.value ≡ store.old.value) × (txn.new.value ≡ txn.old.value) × (decision.new.value ≡ decision.old.value) }

    // The part is that of the decided tree's entries, and is read as them again.
    ensures done { result ≡ DONE → IfSome store.old.value (λ m. IfSome decision.old.value (λ d. IfSome journal.old.value (λ j.
        IfSome journal.new.value (λ k. IsStaged m.schema table (tree_in d) j k len.new)))) }
    ensures held { IsSome journal.new.value }
    ensures long { result ≡ TOO_LONG → IfSome decision.old.value (λ d. IsLong (tree_in d)) }
    ensures refused { result ≢ DONE → journal.new.value ≡ journal.old.value }
{
    let manager = store::take(alloc, store);
    let begun = transaction::take(alloc, txn);
    let prepared = decision::take(alloc, decision);
    let mut opened = open_journal::take(alloc, journal);
    let staged = stage(alloc, &manager, &begun, &prepared, table, &mut opened);
    open_journal::put(journal, opened);
    decision::put(decision, prepared);
    transaction::put(txn, begun);
    store::put(store, manager);
    match staged {
        Ok(bytes) => {
            *len = bytes;
            DONE
        }
        Err(fault) => code_of_spelling(fault),
    }
}

/// Puts a part behind those of the commit so far, and returns how many bytes it has.
fn stage(
    alloc: Global,
    manager: &Manager,
    begun: &OpenTxn,
    prepared: &Prepared,
    table: u32,
    opened: &mut OpenJournal,
) -> Result<u64, SpellFault>
    requires own { IsOwn manager.now begun.now.txn }
    requires prepared { IsPrepared manager.now begun.now.txn prepared.now }
    ensures ok { IfOk result (λ len. IsStaged manager.now.schema table (tree_in prepared.now) opened.old opened.new len) }
    ensures long { IfErr result (λ fault. fault ≡ spell_fault.TooLong → IsLong (tree_in prepared.now)) }
    ensures err { IfErr result (λ _. opened.new ≡ opened.old) }
{
    let mut frame = match take_draft(alloc, opened) {
        Ok(frame) => frame,
        Err(_) => return Err(SpellFault::NoMemory),
    };
    let before = frame.len();
    match write_decided(manager, begun, prepared, table, &mut frame) {
        Ok(()) => {
            let len = (frame.len() - before) as u64;
            opened.draft = frame;
            Ok(len)
        }
        Err(fault) => {
            opened.draft = frame;
            Err(fault)
        }
    }
}

/// Takes the frame of the commit so far, or a new one.
fn take_draft(alloc: Global, opened: &mut OpenJournal) -> Result<Vec<u8>, NoMemory>
    ensures room { IfOk result (λ frame. 28 ≤ length frame.items) }
    ensures parts { IfOk result (λ frame. payload_in frame.items ≡ opened.old.parts) }
    ensures taken { opened.new ≡ record opened.old { parts = [] } }
    ensures err { IfErr result (λ _. opened.old.parts ≡ []) }
{
    let draft = mem::replace(&mut opened.draft, Vec::new(alloc));
    if draft.is_empty() {
        return new_frame(alloc);
    }
    Ok(draft)
}

/// Lets go of the parts of a commit that isn't added.
#[unsafe(no_mangle)]
pub extern "C" fn pdtr_unstage(alloc: Global, journal: &mut Journal)
    requires { IsSome journal.old.value }
    ensures { journal.new.value ≡ without_parts journal.old.value }
{
    let mut opened = open_journal::take(alloc, journal);
    opened.draft = Vec::new(alloc);
    open_journal::put(journal, opened);
}

/// The frame of the commit whose parts are staged is added.
fn add(alloc: Global, opened: &mut OpenJournal) -> Result<u64, AddFault>
    ensures ok { IfOk result (λ number. (number ≡ newest opened.old.progress + 1) × (may_add opened.old.parts opened.old.progress ≡ true)
        × (opened.new ≡ record { progress = added opened.old.parts opened.old.progress; parts = [] })) }
    ensures long { IfErr result (λ fault. fault ≡ add_fault.TooLong → 2 ^ 32 ≤ length opened.old.parts) }
    ensures full { IfErr result (λ fault. fault ≡ add_fault.Full → 2 ^ 63 ≤ newest opened.old.progress + 1) }
    ensures err { IfErr result (λ _. opened.new ≡ record opened.old { parts = [] }) }
{
    match take_draft(alloc, opened) {
        Ok(frame) => opened.steps.add(frame),
        Err(_) => Err(AddFault::NoMemory),
    }
}

/// Adds the commit whose parts are staged, which waits for the next batch, and tells its number. No part is staged afterwards, also where it
/// is refused.
#[unsafe(no_mangle)]
pub extern "C" fn pdtr_add(alloc: Global, journal: &mut Journal, number: &mut u64) -> u32
    requires { IsSome journal.old.value }
    ensures done { result ≡ DONE → IfSome journal.old.value (λ j. (may_add j.parts j.progress ≡ true)
        × (journal.new.value ≡ Some (record { progress = added j.parts j.progress; parts = [] }))) }
    ensures number { result ≡ DONE → IfSome journal.old.value (λ j. number.new ≡ newest j.progress + 1) }
    ensures refused { result ≢ DONE → journal.new.value ≡ without_parts journal.old.value }
    ensures long { result ≡ TOO_LONG → IfSome journal.old.value (λ j. 2 ^ 32 ≤ length j.parts) }
    ensures full { result ≡ FULL → IfSome journal.old.value (λ j. 2 ^ 63 ≤ newest j.progress + 1) }
{
    let mut opened = open_journal::take(alloc, journal);
    let added = add(alloc, &mut opened);
    open_journal::put(journal, opened);
    match added {
        Ok(newest) => {
            *number = newest;
            DONE
        }
        Err(AddFault::TooLong) => TOO_LONG,
        Err(AddFault::Full) => FULL,
        Err(AddFault::NoMemory) => NO_MEMORY,
    }
}

/// Takes back the commit that was added last, which no batch has yet: it was prepared, and is given up.
#[unsafe(no_mangle)]
pub extern "C" fn pdtr_withdraw(alloc: Global, journal: &mut Journal)
    requires { IsSome journal.old.value }
    ensures { journal.new.value ≡ moved withdrawn journal.old.value }
{
    let mut opened = open_journal::take(alloc, journal);
    opened.steps.withdraw();
    open_journal::put(journal, opened);
}

/// Ends the journal's steps: something beside it has failed that its commits need.
#[unsafe(no_mangle)]
pub extern "C" fn pdtr_stop(alloc: Global, journal: &mut Journal)
    requires { IsSome journal.old.value }
    ensures { journal.new.value ≡ moved stopped journal.old.value }
{
    let mut opened = open_journal::take(alloc, journal);
    opened.steps.stop();
    open_journal::put(journal, opened);
}

/// The journal is to go on in a new file, where the file that is written has a commit.
#[unsafe(no_mangle)]
pub extern "C" fn pdtr_want_next(alloc: Global, journal: &mut Journal)
    requires { IsSome journal.old.value }
    ensures { journal.new.value ≡ moved wanted journal.old.value }
{
    let mut opened = open_journal::take(alloc, journal);
    opened.steps.want_next();
    open_journal::put(journal, opened);
}

/// Tells the number of the oldest file, which the journal doesn't count on any more: says whether there is one, since the file that is
/// written stays. C owes that no image needs the file's commits.
#[unsafe(no_mangle)]
pub extern "C" fn pdtr_remove_oldest(alloc: Global, journal: &mut Journal, file: &mut u64) -> bool
    requires { IsSome journal.old.value }
    ensures file { IfSome journal.old.value (λ j. MatchOption (oldest j.progress) ((result ≡ false) × (file.new ≡ file.old))
        (λ seq. (result ≡ true) × (file.new ≡ seq))) }
    ensures new { journal.new.value ≡ moved (λ p. removed (oldest p) p) journal.old.value }
{
    let mut opened = open_journal::take(alloc, journal);
    let removed = opened.steps.remove_oldest();
    open_journal::put(journal, opened);
    match removed {
        Some(seq) => {
            *file = seq;
            true
        }
        None => false,
    }
}

/// Tells which kind of step is due toward a goal, and begins none. It is `CREATE` of any step that makes the next file.
#[unsafe(no_mangle)]
pub extern "C" fn pdtr_due(alloc: Global, journal: &mut Journal, goal: u32) -> u32
    requires { IsSome journal.old.value }
    ensures kept { journal.new.value ≡ journal.old.value }
    ensures kind { IfSome journal.old.value (λ j. result ≡ kind_due (lane_for goal j.progress) j.progress) }
{
    let opened = open_journal::take(alloc, journal);
    let kind = kind_due(lane_for(goal, &opened.steps), &opened.steps);
    open_journal::put(journal, opened);
    kind
}

/// The lane in which a step is asked for.
fn lane_for(goal: u32, steps: &Steps) -> Lane
    ensures { result ≡ lane_for goal steps.now }
{
    match goal {
        TO_BE_WRITTEN => steps.lane_toward(Goal::Written),
        TO_BE_DURABLE => steps.lane_toward(Goal::Durable),
        _ => Lane::Next,
    }
}

/// The kind of step that is due in a lane.
fn kind_due(lane: Lane, steps: &Steps) -> u32
    ensures { result ≡ kind_due lane steps.now }
{
    if !steps.is_due(lane) {
        return NOTHING;
    }
    match lane {
        Lane::Append => APPEND,
        Lane::Sync => SYNC,
        Lane::Next => CREATE,
    }
}

/// Begins an append, where one is due: tells the number of the file, and leaves the commits in the room for a batch, which has none before.
/// Takes no memory.
#[unsafe(no_mangle)]
pub extern "C" fn pdtr_next_batch(
    alloc: Global,
    journal: &mut Journal,
    file: &mut u64,
    batch: &mut OpenBatch,
) -> u32
    requires journal { IsSome journal.old.value }
    requires batch { IsSome batch.old.value }
    requires room { IfSome batch.old.value (λ b. b.taken ≡ None) }
    ensures step { IfSome journal.old.value (λ j. IsToldStep (due lane.Append j.progress) result file.old file.new) }
    ensures batch { IfSome journal.old.value (λ j. batch.new.value ≡ room_after (due lane.Append j.progress) batch.old.value) }
    ensures new { journal.new.value ≡ moved (λ p. began (due lane.Append p) p) journal.old.value }
    ensures held { IsSome batch.new.value }
{
    let mut opened = open_journal::take(alloc, journal);
    let step = opened.steps.next(alloc, Lane::Append);
    open_journal::put(journal, opened);
    let kind = told_step(&step, file);
    if let Some(Step::Append(taken)) = step {
        fill(alloc, batch, taken);
    }
    kind
}

/// Begins the step of a kind that isn't an append, where one is due: a sync, or what makes the next file. Takes no memory.
#[unsafe(no_mangle)]
pub extern "C" fn pdtr_next(alloc: Global, journal: &mut Journal, kind: u32, file: &mut u64) -> u32
    requires { IsSome journal.old.value }
    ensures step { IfSome journal.old.value (λ j. IsToldStep (due (lane_beside kind) j.progress) result file.old file.new) }
    ensures new { journal.new.value ≡ moved (λ p. began (due (lane_beside kind) p) p) journal.old.value }
{
    let mut opened = open_journal::take(alloc, journal);
    let step = opened.steps.next(alloc, lane_beside(kind));
    open_journal::put(journal, opened);
    told_step(&step, file)
}

/// A step as C is told it.
fn told_step(step: &Option<Step>, file: &mut u64) -> u32
    ensures { IsToldStep step.now result file.old file.new }
{
    match step {
        None => NOTHING,
        Some(Step::Append(batch)) => {
            *file = batch.file();
            APPEND
        }
        Some(Step::Sync(seq)) => {
            *file = *seq;
            SYNC
        }
        Some(Step::Create(seq)) => {
            *file = *seq;
            CREATE
        }
        Some(Step::SyncNames) => SYNC_NAMES,
    }
}

/// Puts a batch into its room.
fn fill(alloc: Global, batch: &mut OpenBatch, taken: Batch)
    requires { IsSome batch.old.value }
    ensures { batch.new.value ≡ Some (record { taken = Some taken; sealed = None }) }
{
    let mut room = open_batch::take(alloc, batch);
    room.taken = Some(taken);
    room.sealed = None;
    open_batch::put(batch, room);
}

/// The lane of a step that isn't an append.
fn lane_beside(kind: u32) -> Lane
    ensures { result ≡ lane_beside kind }
{
    match kind {
        SYNC => Lane::Sync,
        _ => Lane::Next,
    }
}

/// The lane of a step of a kind.
fn lane_of(kind: u32) -> Lane
    ensures { result ≡ lane_of kind }
{
    match kind {
        APPEND => Lane::Append,
        SYNC => Lane::Sync,
        _ => Lane::Next,
    }
}

/// The step of a kind that is under way is done.
#[unsafe(no_mangle)]
pub extern "C" fn pdtr_done(alloc: Global, journal: &mut Journal, kind: u32)
    requires { IsSome journal.old.value }
    ensures { journal.new.value ≡ moved (ended (lane_of kind)) journal.old.value }
{
    let mut opened = open_journal::take(alloc, journal);
    opened.steps.done(lane_of(kind));
    open_journal::put(journal, opened);
}

/// The step of a kind that is under way has failed.
#[unsafe(no_mangle)]
pub extern "C" fn pdtr_failed(alloc: Global, journal: &mut Journal, kind: u32)
    requires { IsSome journal.old.value }
    ensures { journal.new.value ≡ moved (broken_by (lane_of kind)) journal.old.value }
{
    let mut opened = open_journal::take(alloc, journal);
    opened.steps.failed(lane_of(kind));
    open_journal::put(journal, opened);
}

/// Makes room for a batch, so that no append has to.
#[unsafe(no_mangle)]
pub extern "C" fn pdtr_batch_new(alloc: Global, batch: &mut OpenBatch) -> u32
    ensures done { result ≡ DONE → batch.new.value ≡ Some (record { taken = None; sealed = None }) }
    ensures refused { result ≢ DONE → (result ≡ NO_MEMORY) × (batch.new.value ≡ batch.old.value) }
{
    let room = Appending {
        taken: None,
        sealed: None,
    };
    match Box::new(alloc, room) {
        Ok(room) => {
            open_batch::put(batch, room);
            DONE
        }
        Err(_) => NO_MEMORY,
    }
}

/// Lets go of the room for a batch.
#[unsafe(no_mangle)]
pub extern "C" fn pdtr_batch_close(alloc: Global, batch: &mut OpenBatch)
    requires { IsSome batch.old.value }
    ensures { batch.new.value ≡ None }
{
    let _room = open_batch::take(alloc, batch);
}

/// Lets go of a batch, and keeps its room.
#[unsafe(no_mangle)]
pub extern "C" fn pdtr_batch_end(alloc: Global, batch: &mut OpenBatch)
    requires { IsSome batch.old.value }
    ensures { batch.new.value ≡ Some (record { taken = None; sealed = None }) }
{
    let mut room = open_batch::take(alloc, batch);
    room.taken = None;
    room.sealed = None;
    open_batch::put(batch, room);
}

/// Fills the heads of a batch's frames, and puts the header that is before them where there is room for it: how many bytes that has, 0 where
/// the file has it. Takes no memory.
#[unsafe(no_mangle)]
pub extern "C" fn pdtr_seal(alloc: Global, batch: &mut OpenBatch, header: &mut [u8]) -> usize
    requires batch { IsSome batch.old.value }
    requires room { 36 ≤ length header.old }
    ensures sealed { IfSome batch.old.value (λ b. IfSome batch.new.value (λ n. IsSealedAs b.taken n.sealed (take result header.new))) }
    ensures held { IsSome batch.new.value }
{
    let mut room = open_batch::take(alloc, batch);
    let length = seal_in(&mut room, header);
    open_batch::put(batch, room);
    length
}

/// Fills the heads of a batch in its room.
fn seal_in(room: &mut Appending, header: &mut [u8]) -> usize
    requires { 36 ≤ length header.old }
    ensures { IsSealedAs room.old.taken room.new.sealed (take result header.new) }
{
    let Some(batch) = mem::replace(&mut room.taken, None) else {
        return 0;
    };
    let sealed = seal(batch);
    let length = put_header(&sealed, header);
    room.sealed = Some(sealed);
    length
}

/// Puts the header of a sealed batch, and returns how many bytes it has.
fn put_header(sealed: &Sealed, out: &mut [u8]) -> usize
    requires { 36 ≤ length out.old }
    ensures { take result out.new ≡ header_part sealed.now.header }
{
    match sealed.header() {
        Some(header) => {
            out[..HEADER_BYTES].copy_from_slice(&header);
            HEADER_BYTES
        }
        None => 0,
    }
}

/// Tells where the frames of a sealed batch are from one on, as far as there are frames and pieces, and returns how many. No byte is copied.
#[unsafe(no_mangle)]
pub extern "C" fn pdtr_batch_frames(
    alloc: Global,
    batch: &mut OpenBatch,
    from: usize,
    pieces: &mut [FramePiece],
) -> usize
    requires { IsSome batch.old.value }
    ensures kept { batch.new.value ≡ batch.old.value }
    ensures counted { IfSome batch.old.value (λ b. result ≡ min (length pieces.old) (length (drop from (frames_of b.sealed)))) }
    ensures pieces { IfSome batch.old.value (λ b. ArePieces result pieces.new (drop from (frames_of b.sealed))) }
{
    let room = open_batch::take(alloc, batch);
    let count = show_frames(&room, from, pieces);
    open_batch::put(batch, room);
    count
}

fn show_frames(room: &Appending, from: usize, pieces: &mut [FramePiece]) -> usize
    ensures counted { result ≡ min (length pieces.old) (length (drop from (frames_of room.now.sealed))) }
    ensures pieces { ArePieces result pieces.new (drop from (frames_of room.now.sealed)) }
{
    match &room.sealed {
        Some(sealed) => show_all(rest_of(sealed.frames(), from), pieces),
        None => 0,
    }
}

/// The frames from one on.
fn rest_of(frames: &[Vec<u8>], from: usize) -> &[Vec<u8>]
    ensures { result.now ≡ drop from frames.now }
{
    if from < frames.len() {
        &frames[from..]
    } else {
        &[]
    }
}

/// Shows frames, as many as there are pieces for.
fn show_all(frames: &[Vec<u8>], pieces: &mut [FramePiece]) -> usize
    ensures counted { result ≡ min (length pieces.old) (length (map (λ v. v.items) frames.now)) }
    ensures pieces { ArePieces result pieces.new (map (λ v. v.items) frames.now) }
{
    let count = frames.len().min(pieces.len());
    for i in 0..count {
        pieces[i] = piece_of(frames[i].as_slice());
    }
    count
}

/// Where a frame is; an empty one is where some byte is that is none of its own.
fn piece_of(frame: &[u8]) -> FramePiece
    ensures { IsPiece result frame.now }
{
    let first = frame.first().unwrap_or(&0);
    FramePiece {
        at: NonNull::from_ref(first).as_ptr() as *const u8,
        len: frame.len(),
    }
}
