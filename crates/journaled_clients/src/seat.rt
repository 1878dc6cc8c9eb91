//! A client's calls over a durable session: the reply to each.
ghost use Rattle.std.specs.Prelude.{◌≡◌, ◌≤◌, ℕ, IsTrue};
ghost use Rattle.inputs.specs.Typed.{is_typed_call};
ghost use Rattle.inputs.specs.declared.call.Call.TheVariants as call;
ghost use Rattle.manager.specs.Managed.{Managed};
ghost use Rattle.shared.specs.Sessions.{Seat};
ghost use Rattle.journaled_clients.specs.Clients.{DurableStep, IsDurableReply};

use durable_sessions::{
    BeginFault, CommitFault, DurableOpening, DurableSession, DurableShared, ImageFault,
};
use inputs::Call;
use logging::JournalDevice;
use pdtcli::{Reply, abort_session, read_in_session, reply_of, write_in_session};
use shared::ImageStore;
use std::alloc::Global;
use std::sync::Wait;
use values::NoMemory;

/// Makes a call of the client. A commit that is replied Committed is durable, as the client's reader shows.
pub(crate) fn serve<O: DurableOpening, S: ImageStore, D: JournalDevice, R: Wait>(
    rt: &R,
    alloc: Global,
    shared: &DurableShared<O, S, D>,
    client: &mut DurableSession<O>,
    call: &Call,
) -> Reply
    requires { IsTrue (is_typed_call O.opened.manager.schema call.now) }
    ensures step { DurableStep O.opened.manager call.now client.old.session result client.new.session }
    ensures durable { IsDurableReply result client.new.reader }
    ensures later { client.old.reader ≤ client.new.reader }
{
    match call {
        Call::Begin => begin(rt, shared, client),
        Call::Write(wanted) => write_in_session(&mut client.session, wanted),
        Call::Read(wanted) => read_in_session(alloc, &client.session, wanted),
        Call::Commit => commit(rt, shared, client),
        Call::Abort => abort_session(&mut client.session),
        Call::Fold => fold(rt, shared),
        Call::Checkpoint => checkpoint(rt, shared, client),
        Call::Cut => cut(rt, shared),
    }
}

/// Opens a transaction over commits that are durable.
fn begin<O: DurableOpening, S: ImageStore, D: JournalDevice, R: Wait>(
    rt: &R,
    shared: &DurableShared<O, S, D>,
    client: &mut DurableSession<O>,
) -> Reply
    ensures step { DurableStep O.opened.manager call.Begin client.old.session result client.new.session }
    ensures durable { IsDurableReply result client.new.reader }
    ensures later { client.old.reader ≤ client.new.reader }
{
    match shared.begin(client, rt) {
        Ok(()) => Reply::Begun,
        Err(BeginFault::AlreadyOpen) => Reply::AlreadyOpen,
        Err(BeginFault::Ended) => Reply::Ended,
        Err(BeginFault::NoMemory) => Reply::NoMemory,
        Err(BeginFault::NotDurable) => Reply::JournalFailed,
    }
}

/// Commits the open transaction, and waits until it is durable. Where it isn't decided, it stays open.
fn commit<O: DurableOpening, S: ImageStore, D: JournalDevice, R: Wait>(
    rt: &R,
    shared: &DurableShared<O, S, D>,
    client: &mut DurableSession<O>,
) -> Reply
    ensures step { DurableStep O.opened.manager call.Commit client.old.session result client.new.session }
    ensures durable { IsDurableReply result client.new.reader }
    ensures later { client.old.reader ≤ client.new.reader }
{
    match shared.commit(client, rt) {
        Ok(reply) => Reply::Decided(reply),
        Err(CommitFault::NotOpen) => Reply::NotOpen,
        Err(CommitFault::NoMemory) => Reply::NoMemory,
        Err(CommitFault::Stranger) => Reply::Stranger,
        Err(CommitFault::TooLong) => Reply::TooLong,
        Err(CommitFault::JournalFailed) => Reply::JournalFailed,
        Err(CommitFault::Unsure) => Reply::Unsure,
    }
}

/// Folds the Write-PDT into the Read-PDT.
fn fold<O: DurableOpening, S: ImageStore, D: JournalDevice, R: Wait>(
    rt: &R,
    shared: &DurableShared<O, S, D>,
) -> Reply
    ensures step { (o : Managed) (seat : Seat) → DurableStep o call.Fold seat result seat }
    ensures durable { (safe : ℕ) → IsDurableReply result safe }
{
    match shared.fold(rt) {
        Ok(_) => Reply::Folded,
        Err(NoMemory) => Reply::NoMemory,
    }
}

/// Writes the newest image to the store, once all of its commits are durable.
fn checkpoint<O: DurableOpening, S: ImageStore, D: JournalDevice, R: Wait>(
    rt: &R,
    shared: &DurableShared<O, S, D>,
    client: &mut DurableSession<O>,
) -> Reply
    ensures step { DurableStep O.opened.manager call.Checkpoint client.old.session result client.new.session }
    ensures durable { IsDurableReply result client.new.reader }
    ensures later { client.old.reader ≤ client.new.reader }
{
    match shared.checkpoint(client, rt) {
        Ok(image) => reply_of(Ok(image.generation)),
        Err(ImageFault::JournalFailed) => Reply::JournalFailed,
        Err(ImageFault::Unstored(fault)) => reply_of(Err(fault)),
    }
}

/// Cuts the history, and drops what it hands out.
fn cut<O: DurableOpening, S: ImageStore, D: JournalDevice, R: Wait>(
    rt: &R,
    shared: &DurableShared<O, S, D>,
) -> Reply
    ensures step { (seat : Seat) → DurableStep O.opened.manager call.Cut seat result seat }
    ensures durable { (safe : ℕ) → IsDurableReply result safe }
{
    match shared.cut(rt) {
        Ok(history) => Reply::Cut(history.len()),
        Err(NoMemory) => Reply::NoMemory,
    }
}
