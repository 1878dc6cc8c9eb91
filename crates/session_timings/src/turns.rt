//! What calls of sessions take.

use model::{CommitReply, WriteReply};
use publishing::Opening;
use shared::{ImageStore, Session, Shared};
use std::alloc::Global;
use std::sync::Wait;
use std::thread::{Threads, join};
use std::time::{Clock, Instant};
use values::{Key, NoMemory, Value};

/// How often things are done.
#[derive(Clone, Copy)]
pub(crate) struct Calls {
    /// Begins of a session in a turn.
    pub(crate) begins: u64,
    /// Commits in a turn.
    pub(crate) commits: u64,
    pub(crate) turns: u64,
}

/// The nanoseconds of a call.
#[derive(Clone, Copy)]
pub(crate) struct Figures {
    /// A begin with its abort: by one thread, and in each of two and of four.
    pub(crate) one: u64,
    pub(crate) two: u64,
    pub(crate) four: u64,
    /// A transaction of one set, from begin to commit.
    pub(crate) commit: u64,
}

impl Figures {
    /// The lesser of each.
    pub(crate) fn least(self, other: Figures) -> Figures {
        Figures {
            one: self.one.min(other.one),
            two: self.two.min(other.two),
            four: self.four.min(other.four),
            commit: self.commit.min(other.commit),
        }
    }
}

/// The figures of four sessions, or none where one isn't answered as is due.
pub(crate) fn timed<
    O: Opening + Send + Sync,
    S: ImageStore + Send,
    R: Threads + Wait + Clock + Sync,
>(
    rt: &R,
    alloc: Global,
    shared: &Shared<O, S>,
    sessions: &mut Vec<Session<O>>,
    calls: Calls,
) -> Option<Figures> {
    let key = key_of(alloc, 10).ok()?;
    let mut least = turn(rt, shared, sessions, &key, calls)?;
    for _ in 1..calls.turns {
        least = least.least(turn(rt, shared, sessions, &key, calls)?);
    }
    Some(least)
}

/// The figures of one turn.
fn turn<O: Opening + Send + Sync, S: ImageStore + Send, R: Threads + Wait + Clock + Sync>(
    rt: &R,
    shared: &Shared<O, S>,
    sessions: &mut Vec<Session<O>>,
    key: &Key,
    calls: Calls,
) -> Option<Figures> {
    let [a, b, c, d] = sessions.as_mut_slice() else {
        return None;
    };
    let begins = calls.begins;
    let start = Instant::now(rt).ok()?;
    let by_one = begin_often(a, begins);
    let one = nanos_since(rt, start)?;
    let start = Instant::now(rt).ok()?;
    let by_two = both_begin(rt, a, b, begins);
    let two = nanos_since(rt, start)?;
    let start = Instant::now(rt).ok()?;
    let by_four = four_begin(rt, a, b, c, d, begins);
    let four = nanos_since(rt, start)?;
    let start = Instant::now(rt).ok()?;
    let are_committed = commit_often(rt, shared, a, key, calls.commits);
    let commit = nanos_since(rt, start)?;
    if !(by_one && by_two && by_four && are_committed) {
        return None;
    }
    Some(Figures {
        one: one / begins.max(1),
        two: two / begins.max(1),
        four: four / begins.max(1),
        commit: commit / calls.commits.max(1),
    })
}

/// The key of a row.
fn key_of(alloc: Global, id: i64) -> Result<Key, NoMemory> {
    let mut cells = Vec::new(alloc);
    cells.push(Value::Int(id))?;
    Ok(Key::new(cells))
}

/// Whether a session begins and aborts, so many times. It has nothing by which it could wait.
fn begin_often<O: Opening>(session: &mut Session<O>, begins: u64) -> bool {
    for _ in 0..begins {
        if session.begin() != Ok(()) || session.abort() != Ok(()) {
            return false;
        }
    }
    true
}

/// Whether two sessions do so on two threads.
fn both_begin<O: Opening + Send + Sync, R: Threads + Sync>(
    rt: &R,
    a: &mut Session<O>,
    b: &mut Session<O>,
    begins: u64,
) -> bool {
    let (one, other) = join(rt, || begin_often(a, begins), || begin_often(b, begins));
    one && other
}

/// Whether four sessions do so on four threads.
fn four_begin<O: Opening + Send + Sync, R: Threads + Sync>(
    rt: &R,
    a: &mut Session<O>,
    b: &mut Session<O>,
    c: &mut Session<O>,
    d: &mut Session<O>,
    begins: u64,
) -> bool {
    let (two, others) = join(
        rt,
        || both_begin(rt, a, b, begins),
        || both_begin(rt, c, d, begins),
    );
    two && others
}

/// Whether a session sets a cell of the row and commits, so many times.
fn commit_often<O: Opening, S: ImageStore, R: Wait>(
    rt: &R,
    shared: &Shared<O, S>,
    session: &mut Session<O>,
    key: &Key,
    commits: u64,
) -> bool {
    for _ in 0..commits {
        let is_set = session.begin() == Ok(())
            && session.set(key, 1, Value::Int(7)) == Ok(WriteReply::Done);
        if !is_set {
            return false;
        }
        let Ok(CommitReply::Committed(_)) = shared.commit(session, rt) else {
            return false;
        };
    }
    true
}

fn nanos_since(clock: &impl Clock, start: Instant) -> Option<u64> {
    u64::try_from(start.elapsed(clock).ok()?.as_nanos()).ok()
}
