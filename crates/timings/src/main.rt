//! Times what no door reaches: the counted tree under the layers. Each answer is compared with the one that is due.
//!
//!     rt run            a small tree, whose answers are looked at; no time is told
//!     rt run -- full    trees of 1,000 to 1,000,000 modifies of a number: the least time of 28 turns
#![tactic(auto)]

mod draws;
mod trees;

use crate::trees::{Figures, measured};
use std::env;

/// The entries of the trees that are measured.
const SIZES: [usize; 4] = [1_000, 10_000, 100_000, 1_000_000];

/// How often each thing is done.
const TURNS: usize = 28;

fn main(rt: HostRuntime) -> anyhow::Result<()> {
    if !is_full(&rt)? {
        measured(&rt, 1_000, 1)?;
        println!(rt; "each answer is the one that is due")?;
        return Ok(());
    }
    println!(rt;
        "entries: next entry of a walk, search by SID, copy edited at ten places; in nanoseconds"
    )?;
    for entries in SIZES {
        let Figures {
            step,
            search,
            edits,
        } = measured(&rt, entries, TURNS)?;
        println!(rt; "{entries}: {}.{}, {search}, {edits}", step / 10, step % 10)?;
    }
    Ok(())
}

/// Whether the word `full` stands on the command line.
fn is_full(rt: &HostRuntime) -> anyhow::Result<bool> {
    for word in env::args(rt)? {
        if word.as_str() == "full" {
            return Ok(true);
        }
    }
    Ok(false)
}
