//! Times what no door reaches: sessions in Rattle, which begin and abort without the manager's lock. Each answer is
//! compared with the one that is due.
//!
//!     rt run            a few calls, whose answers are looked at; no time is told
//!     rt run -- full    over 10,000 rows, by 1, 2 and 4 threads: the least time of seven turns; and durable commits of 1, 16 and 32
//!                       sessions over a journal whose sync takes a millisecond
#![tactic(auto)]

ghost use Rattle.std.specs.Prelude.{◌≡◌, []};

mod durable_commits;
mod slow_journal;
mod tables;
mod turns;

use crate::durable_commits::durable_nanos;
use crate::tables::{manager_of, memory_column};
use crate::turns::{Calls, Figures, timed};
use anyhow::anyhow;
use devices::{ColumnDevice, Store, have_failed};
use manager::Manager;
use publishing::Opening;
use shared::{ImageStore, NewOpening, open};
use std::env;
use std::marker::Brand;
use std::sync::Wait;
use std::thread::Threads;
use std::time::Clock;

/// How many sessions are opened: one for each thread.
const SESSIONS: u32 = 4;

/// How often things are done where their times are told.
const FULL: Calls = Calls {
    begins: 100_000,
    commits: 10_000,
    turns: 7,
};

/// How often where the answers alone are looked at.
const FEW: Calls = Calls {
    begins: 100,
    commits: 10,
    turns: 1,
};

/// How often each session makes a durable commit where the times are told, and where the answers alone are looked at.
const DURABLE_COMMITS: [u32; 2] = [500, 10];

fn main(rt: HostRuntime) -> anyhow::Result<()> {
    let is_full = is_full(&rt)?;
    let calls = if is_full { FULL } else { FEW };
    tell_durable(&rt, &rt, is_full)?;
    let alloc = rt.alloc();
    let manager = manager_of(alloc, 10_000)?;
    let mut devices: Vec<Box<dyn ColumnDevice + Send>> = Vec::new(alloc);
    for _ in 0..manager.version().schema().width() {
        devices.push(Box::new(alloc, memory_column(alloc)?)?)?;
    }
    if have_failed(&devices) {
        return Err(anyhow!("a device has failed before its first append"));
    }
    let store = Store::new(alloc, devices, manager.version().schema(), 1)?;
    let fresh = NewOpening::new(&manager, SESSIONS);
    match figures_of::<Brand, Store, _>(&rt, &rt, manager, store, fresh, calls) {
        None => Err(anyhow!("an answer isn't the one that is due")),
        Some(figures) => tell(&rt, &figures, is_full),
    }
}

/// Times durable commits of sessions over a journal whose sync takes a millisecond.
fn tell_durable<T: Threads + Wait + Clock + Sync>(
    rt: &HostRuntime,
    starter: &T,
    is_full: bool,
) -> anyhow::Result<()> {
    let [many, few] = DURABLE_COMMITS;
    let commits = if is_full { many } else { few };
    for sessions in [1_u32, 16, 32] {
        let nanos = durable_nanos(starter, rt.alloc(), sessions, commits)?;
        let made = u64::from(sessions).wrapping_mul(u64::from(commits));
        let rate = made.wrapping_mul(1_000_000_000) / nanos.max(1);
        if is_full {
            println!(rt; "durable commits a second, by {sessions} sessions: {rate}")?;
        }
    }
    Ok(())
}

/// Whether the word `full` stands on the command line.
fn is_full(rt: &HostRuntime) -> anyhow::Result<bool> {
    for word in env::args(rt)? {
        if word.as_str() == "full" {
            return Ok(true);
        }
    }
    Ok(false)
}

/// Opens the sessions, times them, and closes them. The second handle starts threads and waits for them.
fn figures_of<O: Opening + Send + Sync, S: ImageStore + Send, T: Threads + Wait + Clock + Sync>(
    rt: &HostRuntime,
    starter: &T,
    manager: Manager,
    store: S,
    fresh: NewOpening,
    calls: Calls,
) -> Option<Figures>
    requires name { (fresh.blank.name ≡ O.name) × (fresh.blank.parts ≡ O.parts) × (O.clients ≡ O.parts) × (O.clients ≡ 4) }
    requires opening { (fresh.book.list.opening ≡ O.opened) × (fresh.book.list.list ≡ []) × (O.opened.manager ≡ manager) }
    requires store { S.columns store ≡ manager.schema }
{
    let Ok((shared, mut sessions)) = open::<O, S, T>(
        rt.alloc(),
        manager,
        store,
        SESSIONS,
        fresh,
        starter,
    ) else {
        return None;
    };
    let figures = timed(starter, rt.alloc(), &shared, &mut sessions, calls);
    shared.close(sessions, starter);
    figures
}

/// Prints the figures, where they are those of a full run.
fn tell(rt: &HostRuntime, figures: &Figures, is_full: bool) -> anyhow::Result<()> {
    if !is_full {
        println!(rt; "each answer is the one that is due")?;
        return Ok(());
    }
    println!(rt; "a begin with its abort in each thread, in nanoseconds")?;
    println!(rt; "one thread: {}", figures.one)?;
    println!(rt; "two threads: {}", figures.two)?;
    println!(rt; "four threads: {}", figures.four)?;
    println!(rt;
        "a transaction of one set, from begin to commit: {}",
        figures.commit
    )?;
    Ok(())
}
