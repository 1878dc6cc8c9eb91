//! Times what no door reaches: a table that is recovered of its image and its journal. Each answer is compared with the one that is
//! due.
//!
//!     rt run            a few commits, whose answers are looked at; no time is told
//!     rt run -- full    over 1,000,000 rows of two numbers, 1,000,000 commits of a set, and 100,000 of an insert
#![tactic(auto)]

mod draws;
mod logged;
mod recovered;

use crate::logged::Kind;
use crate::recovered::{Figures, Run, measured};
use std::env;

/// The runs that are timed.
const FULL: [Run; 2] = [
    Run {
        kind: Kind::Set,
        rows: 1_000_000,
        commits: 1_000_000,
    },
    Run {
        kind: Kind::Insert,
        rows: 1_000_000,
        commits: 100_000,
    },
];

/// Those whose answers alone are looked at.
const FEW: [Run; 2] = [
    Run {
        kind: Kind::Set,
        rows: 1_000,
        commits: 1_000,
    },
    Run {
        kind: Kind::Insert,
        rows: 1_000,
        commits: 500,
    },
];

fn main(rt: HostRuntime) -> anyhow::Result<()> {
    if !is_full(&rt)? {
        for run in FEW {
            measured(&rt, run)?;
        }
        println!(rt; "each answer is the one that is due")?;
        return Ok(());
    }
    println!(rt;
        "commits: bytes of the journal, milliseconds of its recovery, commits in a second"
    )?;
    for run in FULL {
        let Figures { bytes, millis } = measured(&rt, run)?;
        let rate = run.commits.saturating_mul(1_000) / millis.max(1);
        println!(rt;
            "{} of {}: {bytes}, {millis}, {rate}",
            run.commits,
            run.kind.name()
        )?;
    }
    Ok(())
}

/// Whether the word `full` stands on the command line.
fn is_full(rt: &HostRuntime) -> anyhow::Result<bool> {
    for word in env::args(rt)? {
        if word.as_str() == "full" {
            return Ok(true);
        }
    }
    Ok(false)
}
