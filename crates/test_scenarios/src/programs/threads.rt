//! A run whose clients have threads of their own, and meet.

use super::memory::{Devices, memory_column};
use super::{BASE_COLUMNS, BASE_TEXT, USUAL};
use devices::{Store, StoreFault, have_failed};
use pdtcli::{Gate, Left, OpenGate, Refusal, ShowFault, open_texts, run_clients, show};
use std::alloc::Global;
use std::process::Abort;
use std::sync::Wait;
use std::sync::atomic::{AtomicBool, AtomicU64, Ordering};
use std::test::Fail;
use std::thread;
use std::thread::Threads;
use test_fixtures::entries_text;

/// How often a thread looks for what it waits for.
const MAX_TURNS: u32 = 1_000_000;

/// A gate at which the first two clients meet before their second calls, and which holds the first one's third call back
/// until the second one's is answered.
#[derive(Drop)]
struct Meeting {
    first: AtomicBool,
    second: AtomicBool,
    answered: AtomicBool,
    /// Whether a thread has waited in vain.
    missed: AtomicBool,
}

impl Meeting {
    fn new() -> Meeting {
        Meeting {
            first: AtomicBool::new(false),
            second: AtomicBool::new(false),
            answered: AtomicBool::new(false),
            missed: AtomicBool::new(false),
        }
    }

    /// Waits until the flag is raised, for so many turns at most.
    fn wait_for(&self, flag: &AtomicBool) {
        for _ in 0..MAX_TURNS {
            if flag.load(Ordering::SeqCst) {
                return;
            }
            thread::yield_now();
        }
        self.missed.store(true, Ordering::SeqCst);
    }
}

impl Gate for Meeting {
    fn before(&self, client: u32, call: usize) {
        match (client, call) {
            (0, 1) => {
                self.first.store(true, Ordering::SeqCst);
                self.wait_for(&self.second);
            }
            (1, 1) => {
                self.second.store(true, Ordering::SeqCst);
                self.wait_for(&self.first);
            }
            (0, 2) => self.wait_for(&self.answered),
            _ => {}
        }
    }

    fn after(&self, client: u32, call: usize) {
        if client == 1 && call == 2 {
            self.answered.store(true, Ordering::SeqCst);
        }
    }
}

/// What is left of a run of the script over the base table, its clients on threads of their own and its store of these devices.
fn left_on_threads<G: Gate, R: Threads + Wait + Sync>(
    rt: &R,
    alloc: Global,
    devices: Devices,
    script: &[u8],
    gate: &G,
) -> Result<Left, Refusal> {
    if have_failed(devices.as_slice()) {
        return Err(Refusal::Store(StoreFault::StoreFailed));
    }
    let opened = open_texts(alloc, Ok(BASE_TEXT), Ok(script), USUAL)?;
    let store = Store::new(alloc, devices, opened.schema(), 1)?;
    Ok(run_clients(rt, alloc, opened.manager, store, &opened.script, gate)?.left)
}

/// The same with a store in memory.
fn left_in_memory<G: Gate, R: Threads + Wait + Sync>(
    rt: &R,
    alloc: Global,
    script: &[u8],
    gate: &G,
) -> Result<Left, Refusal> {
    let mut devices: Devices = Vec::new(alloc);
    for _ in 0..BASE_COLUMNS {
        devices.push(Box::new(alloc, memory_column(alloc)?)?)?;
    }
    left_on_threads(rt, alloc, devices, script, gate)
}

/// What a run writes that leaves this.
fn written(alloc: Global, left: &Left) -> Result<Vec<u8>, ShowFault> {
    let mut out = Vec::new(alloc);
    show(alloc, left, &mut out)?;
    Ok(out)
}

/// Both clients have begun before either writes, so neither could be answered so on one thread.
const MET: (&[u8], &str) = (
    b"a,begin\na,set,10,qty,7\na,commit\na,begin\na,get,10\na,abort\nb,begin\nb,set,20,qty,8\nb,commit\n",
    "a,begin,Begun\na,set,Done\na,commit,Committed,2\na,begin,Begun\na,get,Row,10,Ann,7\na,abort,Aborted\nb,begin,Begun\nb,set,Done\nb,commit,Committed,1\n\nid:int:key,name:text,qty:int\n10,Ann,7\n20,Bob,8\n30,Cid,3\n",
);

/// That they have met at the gate, and left what is written so.
fn assert_met(rt: &impl Abort, alloc: Global, gate: &Meeting, left: &Left) -> Result<(), Fail> {
    let out = written(alloc, left)?;
    assert!(rt; out.as_slice() == MET.1.as_bytes(), "the text");
    let missed = gate.missed.load(Ordering::SeqCst);
    assert!(rt; !missed, "a client that didn't come");
    Ok(())
}

#[test]
fn clients_meet_on_threads_of_their_own(rt: HostRuntime) -> Result<(), Fail> {
    let gate = Meeting::new();
    let left = left_in_memory(&rt, rt.alloc(), MET.0, &gate)?;
    assert_met(&rt, rt.alloc(), &gate, &left)
}

/// A gate that counts what it is told before calls and after them: each digit is how often it was told one call of one client.
#[derive(Drop)]
struct Counting {
    before: AtomicU64,
    after: AtomicU64,
}

/// The digit of a call, and the seventh for one that isn't in the script.
fn digit_of(client: u32, call: usize) -> u64 {
    match (client, call) {
        (0, 0) => 1,
        (0, 1) => 10,
        (0, 2) => 100,
        (1, 0) => 1_000,
        (1, 1) => 10_000,
        (1, 2) => 100_000,
        _ => 1_000_000,
    }
}

impl Gate for Counting {
    fn before(&self, client: u32, call: usize) {
        self.before
            .fetch_add(digit_of(client, call), Ordering::SeqCst);
    }

    fn after(&self, client: u32, call: usize) {
        self.after
            .fetch_add(digit_of(client, call), Ordering::SeqCst);
    }
}

/// The calls of two clients, three each.
const TOLD: &[u8] = b"a,begin\nb,begin\na,len\nb,len\nb,abort\na,abort\n";

#[test]
fn a_gate_is_told_each_call_once_by_its_numbers(rt: HostRuntime) -> Result<(), Fail> {
    let gate = Counting {
        before: AtomicU64::new(0),
        after: AtomicU64::new(0),
    };
    let left = left_in_memory(&rt, rt.alloc(), TOLD, &gate)?;
    assert!(&rt; left.lines().len() == 6);
    assert!(&rt; gate.before.load(Ordering::SeqCst) == 111_111);
    assert!(&rt; gate.after.load(Ordering::SeqCst) == 111_111);
    Ok(())
}

/// That the manager that is left has these entries in its Read- and its Write-PDT, and so many rows in its stable table.
fn assert_layers(
    rt: &impl Abort,
    alloc: Global,
    left: &Left,
    (read, write, rows): (&str, &str, u64),
) -> Result<(), Fail> {
    let manager = left.manager();
    let found = entries_text(alloc, manager.read_tree().iter())?;
    assert!(rt; found.as_str() == read, "the Read-PDT");
    let found = entries_text(alloc, manager.write_tree().iter())?;
    assert!(rt; found.as_str() == write, "the Write-PDT");
    assert!(rt; manager.stable().len() == rows, "the stable table");
    Ok(())
}

/// A client that commits an insert, folds, and commits a set of its row.
const FOLDED: &[u8] =
    b"a,begin\na,insert,25,Dee,4\na,commit\na,fold\na,begin\na,set,25,qty,5\na,commit\n";

#[test]
fn a_fold_on_a_thread_moves_the_entries_into_the_read_pdt(rt: HostRuntime) -> Result<(), Fail> {
    let left = left_in_memory(&rt, rt.alloc(), FOLDED, &OpenGate)?;
    assert_layers(&rt, rt.alloc(), &left, ("2+25,Dee,4", "2:2=5", 3))
}

/// A client that commits an insert, and writes a checkpoint.
const STORED: &[u8] = b"a,begin\na,insert,25,Dee,4\na,commit\na,checkpoint\n";

#[test]
fn a_checkpoint_on_a_thread_leaves_no_entries(rt: HostRuntime) -> Result<(), Fail> {
    let left = left_in_memory(&rt, rt.alloc(), STORED, &OpenGate)?;
    assert_layers(&rt, rt.alloc(), &left, ("", "", 4))
}
