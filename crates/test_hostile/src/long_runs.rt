//! Two long runs of 64 clients on threads of their own. What they are answered hangs on the schedule, and a plain replay of
//! the history gives it.
mod by_key;

use crate::assertions::assert_holds;
use crate::newest::has_rows;
use crate::yielding::run_yielding;
use by_key::ByKey;
use manager::Manager;
use model::{CommitReply, ConflictRule, WriteReply};
use pdtcli::{Left, OpenOptions, Reply};
use std::alloc::Global;
use std::process::Abort;
use std::sync::Wait;
use std::test::Fail;
use std::thread::Threads;
use test_fixtures::{BASE, empty_slots, items};
use values::NoMemory;
use values::limits::MAX_ROWS;

/// The base table as a file.
const TABLE: &[u8] = b"id:int:key,name:text,qty:int\n10,Ann,1\n20,Bob,2\n30,Cid,3\n";

const CLIENTS: u64 = 64;

/// How many transactions a client makes.
const ROUNDS: u64 = 100;

/// So many that no transaction comes too late.
const OPTIONS: OpenOptions = OpenOptions {
    recent: 65_536,
    limit: MAX_ROWS,
    conflicts: ConflictRule::ByColumn,
};

/// The one write of each transaction.
#[derive(Clone, Copy)]
enum Asked {
    /// An insert of a row that nobody else writes.
    Own,
    /// A set of a cell that all set.
    Common,
}

/// Adds a transaction of a client.
fn push_round(text: &mut String, client: u64, round: u64, asked: Asked) -> Result<(), Fail> {
    write!(text, "c{client},begin\n")?;
    match asked {
        Asked::Own => {
            let id = client
                .wrapping_add(1)
                .wrapping_mul(1_000)
                .wrapping_add(round);
            write!(text, "c{client},insert,{id},Own,{round}\n")?;
        }
        Asked::Common => write!(text, "c{client},set,20,qty,{round}\n")?,
    }
    write!(text, "c{client},commit\n")?;
    Ok(())
}

/// A script in which each client makes its rounds.
fn long_script(alloc: Global, asked: Asked) -> Result<String, Fail> {
    let mut text = String::new(alloc);
    for round in 0..ROUNDS {
        for client in 0..CLIENTS {
            push_round(&mut text, client, round, asked)?;
        }
    }
    Ok(text)
}

/// What is left of the run.
fn run_long<R: Threads + Wait + Sync>(rt: &R, alloc: Global, asked: Asked) -> Result<Left, Fail> {
    let script = long_script(alloc, asked)?;
    let texts = (TABLE, script.as_str().as_bytes(), OPTIONS);
    run_yielding(rt, alloc, texts, empty_slots(alloc, 3)?.as_slice(), CLIENTS)
}

/// The commit replies of the lines, by client; none where another call is not answered by `Begun` or `Done`.
fn told_replies(alloc: Global, left: &Left) -> Result<Option<Vec<Vec<CommitReply>>>, NoMemory> {
    let mut replies = no_replies(alloc)?;
    for line in left.lines() {
        match (&line.reply, replies.get_mut(line.client as usize)) {
            (Reply::Decided(reply), Some(own)) => own.push(*reply)?,
            (Reply::Begun, _) | (Reply::Wrote(WriteReply::Done), _) => {}
            _ => return Ok(None),
        }
    }
    Ok(Some(replies))
}

/// No replies of each client.
fn no_replies(alloc: Global) -> Result<Vec<Vec<CommitReply>>, NoMemory> {
    let mut replies = Vec::new(alloc);
    for _ in 0..CLIENTS {
        replies.push(Vec::new(alloc))?;
    }
    Ok(replies)
}

/// The commit replies of the history, by client, after a replay from the base table that comes to each of them and to the
/// manager's rows; none where it doesn't. The number of commits is beside them.
fn replayed(
    alloc: Global,
    manager: &Manager,
) -> Result<Option<(Vec<Vec<CommitReply>>, u64)>, NoMemory> {
    let mut replay = ByKey::new(alloc, OPTIONS.recent as u64, items(alloc, &BASE)?)?;
    let mut replies = no_replies(alloc)?;
    let Some(records) = manager.history().records() else {
        return Ok(None);
    };
    for entry in records {
        let Some(own) = replies.get_mut(entry.client() as usize) else {
            return Ok(None);
        };
        if !replay.takes(entry)? {
            return Ok(None);
        }
        own.push(entry.reply())?;
    }
    if !has_rows(alloc, manager, replay.rows()?.as_slice())? {
        return Ok(None);
    }
    Ok(Some((replies, replay.number())))
}

/// That each client's transactions were decided, that a replay of the history gives each reply of the lines and the rows,
/// and that so many commits were made.
fn assert_replayed(rt: &impl Abort, alloc: Global, left: &Left) -> Result<u64, Fail> {
    let counts = [ROUNDS; CLIENTS as usize];
    assert_holds(rt, left.counts() == counts.as_slice(), "the counts");
    assert_holds(
        rt,
        left.manager().history().len() == CLIENTS.wrapping_mul(ROUNDS),
        "as many records as transactions",
    );
    let Some((replies, number)) = replayed(alloc, left.manager())? else {
        return Err(Fail::new("a replay that differs"));
    };
    assert_holds(
        rt,
        told_replies(alloc, left)? == Some(replies),
        "the replies of the lines",
    );
    Ok(number)
}

#[test]
fn sixty_four_clients_insert(rt: HostRuntime) -> Result<(), Fail> {
    let left = run_long(&rt, rt.alloc(), Asked::Own)?;
    // Each is committed: the replay numbers them in turn.
    let commits = assert_replayed(&rt, rt.alloc(), &left)?;
    assert_holds(&rt, commits == 6_400, "each is committed");
    assert_holds(&rt, left.manager().newest().len() == 6_403, "the rows");
    Ok(())
}

/// Whether each commit of the run was answered Committed or Conflict.
fn is_decided_by_conflicts(left: &Left) -> bool {
    left.lines().iter().all(|line| match &line.reply {
        Reply::Decided(reply) => {
            matches!(reply, CommitReply::Committed(_) | CommitReply::Conflict(_))
        }
        _ => true,
    })
}

#[test]
fn sixty_four_clients_contend(rt: HostRuntime) -> Result<(), Fail> {
    let left = run_long(&rt, rt.alloc(), Asked::Common)?;
    assert_holds(&rt, is_decided_by_conflicts(&left), "Committed or Conflict");
    let commits = assert_replayed(&rt, rt.alloc(), &left)?;
    // All begin before anyone commits, so that one of the first sixty-four commits, at most.
    assert_holds(&rt, 0 < commits && commits <= 6_337, "some conflict");
    Ok(())
}
