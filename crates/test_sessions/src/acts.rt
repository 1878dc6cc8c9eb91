//! What a client asks, with the answer that is due.

use crate::shown::{are_items, is_found};
use manager::{CheckpointFault, History};
use model::{CommitReply, Write, WriteReply};
use publishing::Opening;
use shared::{BeginFault, CommitFault, ImageStore, NotOpen, Session, SessionFault, Shared};
use std::alloc::Global;
use std::sync::Wait;
use std::test::Fail;
use test_fixtures::{Item, ItemWrite, entries_text, key, write_of};
use values::NoMemory;

/// A client's place among the sessions.
pub(crate) type Client = usize;

/// What a client asks, with the answer that is due.
#[derive(Clone, Copy)]
pub(crate) enum Act {
    Begin,
    NoBegin(BeginFault),
    Write(ItemWrite, WriteReply),
    NoWrite(ItemWrite, SessionFault),
    /// The row of a number.
    Get(i64, Option<Item>),
    /// The row at a place.
    At(u64, Option<Item>),
    /// How many rows come before a number, and whether it is there.
    Rank(i64, u64, bool),
    /// The rows from one place up to another.
    Scan(u64, u64, &'static [Item]),
    /// How many rows there are.
    Len(u64),
    /// The entries of its tree.
    Entries(&'static str),
    /// That it has nothing to read.
    NoRead,
    Commit(CommitReply),
    NoCommit(CommitFault),
    Abort,
    NoAbort,
    /// The session is dropped, which is the last one.
    Leave,
    /// That there is nothing to tell.
    NoTell,
    /// Takes in what the other one was told.
    Told(Client),
    Fold,
    /// The generation that is written.
    Checkpoint(u32),
    NoCheckpoint(CheckpointFault),
    /// How many records are handed out, and the number at which they start.
    Cut(usize, u64),
}

/// How many replies a session got, and of its transaction the begin, the rows and the writes. Takes no memory.
fn shown<O: Opening>(session: &Session<O>) -> (u64, Option<(u64, u64, usize)>) {
    let own = match session.txn() {
        Ok(txn) => Some((txn.begin(), txn.len(), txn.writes().len())),
        Err(NotOpen) => None,
    };
    (session.count(), own)
}

/// What a begin answers. Where a growth is refused, nothing has changed, and it is made again.
fn begun<O: Opening>(session: &mut Session<O>) -> Result<(), BeginFault> {
    let before = shown(session);
    match session.begin() {
        Err(BeginFault::NoMemory) if shown(session) == before => session.begin(),
        answer => answer,
    }
}

/// What a write answers, which is made of its parts where there is memory.
pub(crate) fn written<O: Opening>(
    alloc: Global,
    session: &mut Session<O>,
    named: ItemWrite,
) -> Result<WriteReply, SessionFault> {
    match write_of(alloc, named) {
        Ok(Write::Insert(row)) => session.insert(row),
        Ok(Write::Delete(key)) => session.delete(&key),
        Ok(Write::Set(key, col, value)) => session.set(&key, col, value),
        Err(NoMemory) => Err(SessionFault::NoMemory),
    }
}

/// The same. Where a growth is refused, nothing has changed, and it is made again.
fn wrote<O: Opening>(
    alloc: Global,
    session: &mut Session<O>,
    named: ItemWrite,
) -> Result<WriteReply, SessionFault> {
    let before = shown(session);
    match written(alloc, session, named) {
        Err(SessionFault::NoMemory) if shown(session) == before => written(alloc, session, named),
        answer => answer,
    }
}

/// What a commit answers. Where a growth is refused, nothing has changed, and it is made again.
fn committed<O: Opening, S: ImageStore, R: Wait>(
    rt: &R,
    shared: &Shared<O, S>,
    session: &mut Session<O>,
) -> Result<CommitReply, CommitFault> {
    let before = shown(session);
    match shared.commit(session, rt) {
        Err(CommitFault::NoMemory) if shown(session) == before => shared.commit(session, rt),
        answer => answer,
    }
}

/// What a fold answers. Where a growth is refused, it is made again.
fn folded<O: Opening, S: ImageStore, R: Wait>(
    rt: &R,
    shared: &Shared<O, S>,
) -> Result<(), NoMemory> {
    match shared.fold(rt) {
        Err(NoMemory) => shared.fold(rt),
        answer => answer,
    }
}

/// What a checkpoint answers. Where a growth is refused, it is made again.
fn checkpointed<O: Opening, S: ImageStore, R: Wait>(
    rt: &R,
    shared: &Shared<O, S>,
) -> Result<u32, CheckpointFault> {
    match shared.checkpoint(rt) {
        Err(CheckpointFault::NoMemory) => shared.checkpoint(rt),
        answer => answer,
    }
}

/// What a cut answers. Where a growth is refused, it is made again.
fn cut<O: Opening, S: ImageStore, R: Wait>(
    rt: &R,
    shared: &Shared<O, S>,
) -> Result<History, NoMemory> {
    match shared.cut(rt) {
        Err(NoMemory) => shared.cut(rt),
        answer => answer,
    }
}

/// Whether all that reads of it is refused.
fn reads_nothing<O: Opening>(alloc: Global, session: &Session<O>) -> Result<bool, NoMemory> {
    let ten = key(alloc, 10)?;
    // No test waits for the one before it, so that the key is let go in one place.
    Ok(
        matches!(session.get(&ten), Err(NotOpen))
            & matches!(session.row_at(0), Err(NotOpen))
            & matches!(session.rank(&ten), Err(NotOpen))
            & matches!(session.scan(0, 9), Err(NotOpen))
            & matches!(session.len(), Err(NotOpen))
            & matches!(session.txn(), Err(NotOpen)),
    )
}

/// Whether its tree has these entries.
fn has_entries<O: Opening>(
    alloc: Global,
    session: &Session<O>,
    due: &str,
) -> Result<bool, NoMemory> {
    match session.txn() {
        Ok(txn) => Ok(entries_text(alloc, txn.tree().iter())?.as_str() == due),
        Err(NotOpen) => Ok(false),
    }
}

/// Whether the row of a number is this one.
fn gets<O: Opening>(
    alloc: Global,
    session: &Session<O>,
    id: i64,
    due: Option<Item>,
) -> Result<bool, NoMemory> {
    let key = key(alloc, id)?;
    Ok(match session.get(&key) {
        Ok(found) => is_found(found, due),
        Err(NotOpen) => false,
    })
}

/// Whether so many rows come before a number, and whether it is there.
fn ranks<O: Opening>(
    alloc: Global,
    session: &Session<O>,
    id: i64,
    due: (u64, bool),
) -> Result<bool, NoMemory> {
    let key = key(alloc, id)?;
    Ok(session.rank(&key) == Ok(due))
}

/// Whether it reads so.
fn is_read<O: Opening>(alloc: Global, session: &Session<O>, act: Act) -> Result<bool, NoMemory> {
    match act {
        Act::Get(id, due) => gets(alloc, session, id, due),
        Act::Rank(id, below, there) => ranks(alloc, session, id, (below, there)),
        Act::Entries(due) => has_entries(alloc, session, due),
        Act::NoRead => reads_nothing(alloc, session),
        act => Ok(is_lent(session, act)),
    }
}

/// Whether it reads so, where that takes no memory.
fn is_lent<O: Opening>(session: &Session<O>, act: Act) -> bool {
    match act {
        Act::At(rid, due) => match session.row_at(rid) {
            Ok(found) => is_found(found, due),
            Err(NotOpen) => false,
        },
        Act::Scan(from, to, due) => match session.scan(from, to) {
            Ok(rows) => are_items(rows, due),
            Err(NotOpen) => false,
        },
        Act::Len(count) => session.len() == Ok(count),
        _ => false,
    }
}

/// Whether its transaction begins, writes, reads and ends so.
///
/// # Errors
///
/// Where a growth of what the act is made of is refused.
pub(crate) fn is_done<O: Opening>(
    alloc: Global,
    session: &mut Session<O>,
    act: Act,
) -> Result<bool, NoMemory> {
    Ok(match act {
        Act::Begin => begun(session) == Ok(()),
        Act::NoBegin(fault) => begun(session) == Err(fault),
        Act::Write(named, due) => wrote(alloc, session, named) == Ok(due),
        Act::NoWrite(named, fault) => wrote(alloc, session, named) == Err(fault),
        Act::Abort => session.abort() == Ok(()),
        Act::NoAbort => session.abort() == Err(NotOpen),
        Act::NoTell => session.tell().is_none(),
        read => is_read(alloc, session, read)?,
    })
}

/// Whether a session takes in what another one was told.
fn is_told<O: Opening>(sessions: &mut [Session<O>], client: Client, other: Client) -> bool {
    let told = match sessions.get_mut(other) {
        Some(session) => session.tell(),
        None => None,
    };
    match (told, sessions.get_mut(client)) {
        (Some(told), Some(session)) => {
            session.told(told);
            true
        }
        _ => false,
    }
}

/// Whether the session of the client was the last one, which is dropped.
fn has_left<O: Opening>(sessions: &mut Vec<Session<O>>, client: Client) -> bool {
    match sessions.pop() {
        Some(session) => session.client() as usize == client,
        None => false,
    }
}

/// Whether a checkpoint is refused so.
///
/// # Errors
///
/// The fault, where it is refused in another way.
fn is_refused<O: Opening, S: ImageStore, R: Wait>(
    rt: &R,
    shared: &Shared<O, S>,
    due: CheckpointFault,
) -> Result<bool, CheckpointFault> {
    match checkpointed(rt, shared) {
        Ok(_) => Ok(false),
        Err(fault) if fault == due => Ok(true),
        Err(fault) => Err(fault),
    }
}

/// Whether the history that is cut has so many records from a number on.
fn is_cut<O: Opening, S: ImageStore, R: Wait>(
    rt: &R,
    shared: &Shared<O, S>,
    count: usize,
    base: u64,
) -> bool {
    match cut(rt, shared) {
        Ok(history) => history.len() == count as u64 && history.base() == base,
        Err(NoMemory) => false,
    }
}

/// Whether the client's act is answered so.
///
/// # Errors
///
/// Where a growth of what the act is made of is refused, and where a device fails.
pub(crate) fn is_answered<O: Opening, S: ImageStore, R: Wait>(
    rt: &R,
    alloc: Global,
    shared: &Shared<O, S>,
    sessions: &mut Vec<Session<O>>,
    client: Client,
    act: Act,
) -> Result<bool, Fail> {
    match act {
        Act::Fold => Ok(folded(rt, shared) == Ok(())),
        Act::Checkpoint(generation) => Ok(checkpointed(rt, shared)? == generation),
        Act::NoCheckpoint(fault) => Ok(is_refused(rt, shared, fault)?),
        Act::Cut(count, base) => Ok(is_cut(rt, shared, count, base)),
        Act::Told(other) => Ok(is_told(sessions, client, other)),
        Act::Leave => Ok(has_left(sessions, client)),
        act => match sessions.get_mut(client) {
            None => Ok(false),
            Some(session) => Ok(is_own(rt, alloc, shared, session, act)?),
        },
    }
}

/// Whether the act of a session is answered so.
fn is_own<O: Opening, S: ImageStore, R: Wait>(
    rt: &R,
    alloc: Global,
    shared: &Shared<O, S>,
    session: &mut Session<O>,
    act: Act,
) -> Result<bool, NoMemory> {
    match act {
        Act::Commit(reply) => Ok(committed(rt, shared, session) == Ok(reply)),
        Act::NoCommit(fault) => Ok(committed(rt, shared, session) == Err(fault)),
        act => is_done(alloc, session, act),
    }
}
