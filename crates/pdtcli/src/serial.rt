//! A run of a script's calls, one after the other.
ghost use Rattle.std.specs.Prelude.{◌≡◌, ◌<◌, ◌≤◌, ◌+◌, ◌^◌, get_or, replicate, None, Option, List, [], IfOk, length, map, vec_capacity, vec_len};
ghost use Rattle.devices.specs.Appending.{taken_by};
ghost use Rattle.std.specs.List.{range_with_len};
ghost use Rattle.txn.specs.Txn.{Transaction};
ghost use Rattle.pdtcli.specs.Run.{IsRun, line_of, verb_of_call, verb_of_read, verb_of_write, counts_after, decided_count, is_decided, AreHanded};

use crate::caller::Caller;
use crate::outcome::{Left, Outcome};
use crate::queue::CallQueue;
use crate::reply::{Reply, ReplyLine};
use devices::{ColumnDevice, Store};
use inputs::{Call, ClientCall, Read, Script, Verb};
use manager::Manager;
use model::Write;
use std::alloc::Global;
use values::NoMemory;

/// Makes a script's calls in order, from a manager with no transaction open; its checkpoints go to the store. Transactions
/// that are open at the end are ended without a line.
///
/// # Errors
///
/// `NoMemory` where room for the run is refused; a call that finds no memory is answered so, and the run goes on.
pub fn run_serial(
    alloc: Global,
    manager: Manager,
    store: Store,
    script: Script,
) -> Result<Outcome<Store>, NoMemory>
    // The calls were read under the manager's schema, which is the store's.
    requires script { script.schema ≡ manager.schema }
    requires store { store.schema ≡ manager.schema }
    ensures run { let taken = taken_by (λ b. contents (b.vtable, b.value)) (λ b. failures (b.vtable, b.value)) in
        IfOk result (λ outcome. (transactions : List (Option Transaction)) × IsRun
        (record { manager = manager; transactions = replicate (length script.clients) None; store = taken store.devices.items store.next })
        script.calls outcome.left.lines
        (record {
          manager = outcome.left.manager;
          transactions = transactions;
          store = taken outcome.store.devices.items outcome.store.next;
        })) }
    ensures schema { IfOk result (λ outcome. outcome.store.schema ≡ store.schema) }
    ensures clients { IfOk result (λ outcome. outcome.left.clients ≡ script.clients) }
    ensures counts { IfOk result
        (λ outcome. outcome.left.counts ≡ map (decided_count outcome.left.lines) (range_with_len 0 (length script.clients))) }
    ensures handed { IfOk result (λ outcome. AreHanded manager outcome.left.manager outcome.left.handed) }
{
    let mut manager = manager;
    let mut store = store;
    let handed_before = handed_out(&manager);
    let (names, calls) = script.into_parts();
    let mut left = CallQueue::of(calls);
    let RunRoom {
        mut callers,
        mut counts,
        mut lines,
    } = room_for(alloc, names.len(), left.len())?;
    while let Some(asked) = left.next() {
        let client = asked.client;
        let verb = verb_of_call(&asked.call);
        let reply = callers[client as usize].serve(alloc, asked, &mut manager, &mut store);
        count_reply(&mut counts, client as usize, &reply);
        lines.push_reserved(ReplyLine {
            client,
            verb,
            reply,
        });
    }
    let handed = handed_out(&manager) - handed_before;
    let left = Left::new(names, lines, manager, counts, handed);
    Ok(Outcome { left, store })
}

/// The room of a run, made before its first call.
struct RunRoom {
    callers: Vec<Caller>,
    counts: Vec<u64>,
    lines: Vec<ReplyLine>,
}

/// Room for each of so many clients, and for the line of each of so many calls.
fn room_for(alloc: Global, clients: usize, calls: usize) -> Result<RunRoom, NoMemory>
    ensures callers { IfOk result (λ room. room.callers.items ≡ replicate clients None) }
    ensures counts { IfOk result (λ room. room.counts.items ≡ map (decided_count []) (range_with_len 0 clients)) }
    ensures lines { IfOk result (λ room. (room.lines.items ≡ []) × (vec_len room.lines ≡ 0)) }
    ensures room { IfOk result (λ room. calls ≤ vec_capacity room.lines) }
{
    Ok(RunRoom {
        callers: new_callers(alloc, clients)?,
        counts: no_counts(alloc, clients)?,
        lines: Vec::with_capacity(alloc, calls)?,
    })
}

/// How many records the manager's cuts have handed out.
pub(crate) fn handed_out(manager: &Manager) -> u64
    ensures count { result + length manager.now.history ≡ manager.now.made }
{
    manager.made() - manager.history().len()
}

/// The clients, none of which has a transaction open.
///
/// # Errors
///
/// `NoMemory` where room for them is refused.
pub fn new_callers(alloc: Global, count: usize) -> Result<Vec<Caller>, NoMemory>
    ensures { IfOk result (λ callers. callers.items ≡ replicate count None) }
{
    let mut callers = Vec::with_capacity(alloc, count)?;
    for _ in 0..count {
        callers.push(Caller::new())?;
    }
    Ok(callers)
}

/// No commit of so many clients is decided yet.
fn no_counts(alloc: Global, count: usize) -> Result<Vec<u64>, NoMemory>
    ensures { IfOk result (λ counts. counts.items ≡ map (decided_count []) (range_with_len 0 count)) }
{
    let mut counts = Vec::with_capacity(alloc, count)?;
    for _ in 0..count {
        counts.push(0)?;
    }
    Ok(counts)
}

/// Counts a reply to a client, where it decides a commit.
fn count_reply(counts: &mut Vec<u64>, client: usize, reply: &Reply)
    requires there { client < length counts.old.items }
    requires few { get_or counts.old.items client 0 + 1 < 2 ^ 64 }
    ensures { counts.new.items ≡ counts_after client reply.now counts.old.items }
{
    if is_decided(reply) {
        counts[client] += 1;
    }
}

fn is_decided(reply: &Reply) -> bool
    ensures { result ≡ is_decided reply.now }
{
    matches!(reply, Reply::Decided(_))
}

/// The line of a call's reply.
pub(crate) fn line_of(asked: &ClientCall, reply: Reply) -> ReplyLine
    ensures { result ≡ line_of asked.now reply }
{
    ReplyLine {
        client: asked.client,
        verb: verb_of_call(&asked.call),
        reply,
    }
}

/// The verb of a call.
pub fn verb_of_call(call: &Call) -> Verb
    ensures { result ≡ verb_of_call call.now }
{
    match call {
        Call::Begin => Verb::Begin,
        Call::Write(Write::Insert(_)) => Verb::Insert,
        Call::Write(Write::Delete(_)) => Verb::Delete,
        Call::Write(Write::Set(_, _, _)) => Verb::Set,
        Call::Read(Read::Get(_)) => Verb::Get,
        Call::Read(Read::At(_)) => Verb::At,
        Call::Read(Read::Rank(_)) => Verb::Rank,
        Call::Read(Read::Len) => Verb::Len,
        Call::Read(Read::Scan(_, _)) => Verb::Scan,
        Call::Commit => Verb::Commit,
        Call::Abort => Verb::Abort,
        Call::Fold => Verb::Fold,
        Call::Checkpoint => Verb::Checkpoint,
        Call::Cut => Verb::Cut,
    }
}
