//! A client's session: the reply to each of its calls, of which the commits and what changes layers or the store wait for
//! the lock.
ghost use Rattle.std.specs.Prelude.{◌≡◌, IfOk, IfSome, IsTrue, OnErr};
ghost use Rattle.model.specs.Writes.{write_fits_schema};
ghost use Rattle.inputs.specs.Typed.{is_typed_call, is_typed_read, is_typed_write};
ghost use Rattle.inputs.specs.declared.call.Call.TheVariants as call;
ghost use Rattle.manager.specs.Managed.{Managed};
ghost use Rattle.shared.specs.Sessions.{HasWritten, Seat};
ghost use Rattle.pdtcli.specs.Clients.{SeatStep};

use crate::caller::reply_of;
use crate::reads::read_in;
use crate::reply::Reply;
use crate::shape::{copy_of, refused_shape};
use inputs::{Call, Read};
use model::{Write, WriteReply};
use publishing::Opening;
use shared::{BeginFault, CommitFault, ImageStore, Session, SessionFault, Shared};
use std::alloc::Global;
use std::sync::Wait;
use values::NoMemory;

/// Makes a call of the client.
pub(crate) fn serve<O: Opening, S: ImageStore, R: Wait>(
    rt: &R,
    alloc: Global,
    shared: &Shared<O, S>,
    session: &mut Session<O>,
    call: &Call,
) -> Reply
    requires { IsTrue (is_typed_call O.opened.manager.schema call.now) }
    ensures { SeatStep O.opened.manager call.now session.old result session.new }
{
    match call {
        Call::Begin => begin(session),
        Call::Write(wanted) => write_in_session(session, wanted),
        Call::Read(wanted) => read_in_session(alloc, session, wanted),
        Call::Commit => commit(rt, shared, session),
        Call::Abort => abort_session(session),
        Call::Fold => fold(rt, shared),
        Call::Checkpoint => checkpoint(rt, shared),
        Call::Cut => cut(rt, shared),
    }
}

/// Opens a transaction.
fn begin<O: Opening>(session: &mut Session<O>) -> Reply
    ensures { SeatStep O.opened.manager call.Begin session.old result session.new }
{
    match session.begin() {
        Ok(()) => Reply::Begun,
        Err(BeginFault::AlreadyOpen) => Reply::AlreadyOpen,
        Err(BeginFault::Ended) => Reply::Ended,
        Err(BeginFault::NoMemory) => Reply::NoMemory,
    }
}

/// Writes in the session's open transaction.
pub fn write_in_session<O: Opening>(session: &mut Session<O>, write: &Write) -> Reply
    requires typed { IsTrue (is_typed_write O.opened.manager.schema write.now) }
    ensures { SeatStep O.opened.manager (call.Write write.now) session.old result session.new }
{
    let Ok(txn) = session.txn() else {
        return Reply::NotOpen;
    };
    if let Some(refused) = refused_shape(txn.schema(), write) {
        return refused;
    }
    match write_copy(session, write) {
        Ok(reply) => Reply::Wrote(reply),
        Err(_) => Reply::NoMemory,
    }
}

/// Writes a copy of a write that fits, which the script keeps.
fn write_copy<O: Opening>(
    session: &mut Session<O>,
    write: &Write,
) -> Result<WriteReply, SessionFault>
    requires fits { IfSome session.old.txn (λ txn. IsTrue (write_fits_schema txn.schema write.now)) }
    ensures ok { IfOk result (λ reply. HasWritten session.old write.now reply session.new) }
    ensures err { OnErr result (session.new ≡ session.old) }
{
    session.write(copy_of(write)?)
}

/// Reads in the session's open transaction.
pub fn read_in_session<O: Opening>(alloc: Global, session: &Session<O>, read: &Read) -> Reply
    requires { IsTrue (is_typed_read O.opened.manager.schema read.now) }
    ensures { SeatStep O.opened.manager (call.Read read.now) session.now result session.now }
{
    match session.txn() {
        Ok(txn) => read_in(alloc, txn, read),
        Err(_) => Reply::NotOpen,
    }
}

/// Commits the open transaction. Where it isn't decided, it stays open.
fn commit<O: Opening, S: ImageStore, R: Wait>(
    rt: &R,
    shared: &Shared<O, S>,
    session: &mut Session<O>,
) -> Reply
    ensures { SeatStep O.opened.manager call.Commit session.old result session.new }
{
    match shared.commit(session, rt) {
        Ok(reply) => Reply::Decided(reply),
        Err(CommitFault::NotOpen) => Reply::NotOpen,
        Err(CommitFault::NoMemory) => Reply::NoMemory,
        Err(CommitFault::Stranger) => Reply::Stranger,
    }
}

/// Ends the session's open transaction.
pub fn abort_session<O: Opening>(session: &mut Session<O>) -> Reply
    ensures { SeatStep O.opened.manager call.Abort session.old result session.new }
{
    match session.abort() {
        Ok(()) => Reply::Aborted,
        Err(_) => Reply::NotOpen,
    }
}

/// Folds the Write-PDT into the Read-PDT.
fn fold<O: Opening, S: ImageStore, R: Wait>(rt: &R, shared: &Shared<O, S>) -> Reply
    ensures { (o : Managed) (seat : Seat) → SeatStep o call.Fold seat result seat }
{
    match shared.fold(rt) {
        Ok(()) => Reply::Folded,
        Err(NoMemory) => Reply::NoMemory,
    }
}

/// Writes the newest image to the store.
fn checkpoint<O: Opening, S: ImageStore, R: Wait>(rt: &R, shared: &Shared<O, S>) -> Reply
    ensures { (o : Managed) (seat : Seat) → SeatStep o call.Checkpoint seat result seat }
{
    reply_of(shared.checkpoint(rt))
}

/// Cuts the history, and drops what it hands out.
fn cut<O: Opening, S: ImageStore, R: Wait>(rt: &R, shared: &Shared<O, S>) -> Reply
    ensures { (seat : Seat) → SeatStep O.opened.manager call.Cut seat result seat }
{
    match shared.cut(rt) {
        Ok(history) => Reply::Cut(history.len()),
        Err(NoMemory) => Reply::NoMemory,
    }
}
