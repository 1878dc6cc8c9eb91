//! What calls of a counted tree take.
ghost use Rattle.std.specs.Prelude.{◌<◌, ◌^◌, length};

use crate::draws::Draws;
use anyhow::anyhow;
use counted::{CountedTree, First, Target};
use model::{Change, Entry};
use std::alloc::{AllocError, Global};
use std::time::Instant;
use values::Value;

/// How many searches and edits are timed together.
const CALLS: u64 = 1_000;

/// How many entries of a copy are replaced.
const EDITS: usize = 10;

/// The least nanoseconds of each call; of a step ten times as many.
#[derive(Clone, Copy)]
pub(crate) struct Figures {
    pub(crate) step: u64,
    pub(crate) search: u64,
    pub(crate) edits: u64,
}

/// The figures of a tree of so many entries, in so many turns.
pub(crate) fn measured(rt: &HostRuntime, entries: usize, turns: usize) -> anyhow::Result<Figures> {
    let mut tree = CountedTree::from_sorted(rt.alloc(), modifies(rt.alloc(), entries)?)?;
    let mut least = Figures {
        step: u64::MAX,
        search: u64::MAX,
        edits: u64::MAX,
    };
    for _ in 0..turns {
        least.step = least.step.min(time_of_walk(rt, &tree)?);
        least.search = least.search.min(time_of_searches(rt, &tree)?);
        least.edits = least.edits.min(time_of_edits(rt, &mut tree)?);
    }
    Ok(least)
}

/// A modify of a number at each SID from 0 on.
fn modifies(alloc: Global, count: usize) -> Result<Vec<Entry>, AllocError> {
    let mut entries = Vec::new(alloc);
    for sid in 0..count {
        entries.push(modify(sid as u64, 0))?;
    }
    Ok(entries)
}

fn modify(sid: u64, number: i64) -> Entry {
    Entry {
        sid,
        change: Change::Mod(1, Value::Int(number)),
    }
}

/// Ten times the nanoseconds of the next entry, in a walk over all.
fn time_of_walk(rt: &HostRuntime, tree: &CountedTree) -> anyhow::Result<u64> {
    let start = Instant::now(rt)?;
    let mut sum = 0_u64;
    for entry in tree.iter(0, tree.len()) {
        sum = sum.wrapping_add(entry.sid());
    }
    let time = nanos_since(rt, start)?;
    let count = tree.len() as u64;
    expect(
        sum == count.wrapping_mul(count.wrapping_sub(1)) / 2,
        "the sum of a walk",
    )?;
    Ok(time.saturating_mul(10) / count.max(1))
}

/// The nanoseconds of a search for what is first at a drawn SID.
fn time_of_searches(rt: &HostRuntime, tree: &CountedTree) -> anyhow::Result<u64> {
    let mut draws = Draws::new(1);
    let count = (tree.len() as u64).max(1);
    let start = Instant::now(rt)?;
    let mut differ = false;
    for _ in 0..CALLS {
        let sid = draws.number() % count;
        differ |= tree.place(Target::Sid(sid), &First).index as u64 != sid;
    }
    let time = nanos_since(rt, start)?;
    expect(!differ, "the index of a SID")?;
    Ok(time / CALLS)
}

/// The nanoseconds of a copy, edited at ten drawn places, that takes the place of the tree.
fn time_of_edits(rt: &HostRuntime, tree: &mut CountedTree) -> anyhow::Result<u64> {
    let mut draws = Draws::new(2);
    let before = tree.len();
    let start = Instant::now(rt)?;
    for _ in 0..CALLS {
        *tree = edited(rt.alloc(), tree, &mut draws)?;
    }
    let time = nanos_since(rt, start)?;
    expect(tree.len() == before, "as many entries as before")?;
    Ok(time / CALLS)
}

/// A copy of the tree with the numbers at ten drawn places set.
fn edited(alloc: Global, tree: &CountedTree, draws: &mut Draws) -> Result<CountedTree, AllocError> {
    let mut copy = tree.copy()?;
    for _ in 0..EDITS {
        let at = (draws.number() % (tree.len() as u64).max(1)) as usize;
        if at < copy.len() && copy.len() < 1 << 60 {
            copy.replace_run(alloc, at, at + 1, modify(at as u64, 7))?;
        }
    }
    Ok(copy)
}

fn nanos_since(rt: &HostRuntime, start: Instant) -> anyhow::Result<u64> {
    let nanos = start.elapsed(rt)?.as_nanos();
    Ok(u64::try_from(nanos).unwrap_or(u64::MAX))
}

/// Fails where an answer isn't the one that is due.
fn expect(holds: bool, what: &'static str) -> anyhow::Result<()> {
    if holds {
        return Ok(());
    }
    Err(anyhow!("{what} isn't the one that is due"))
}
