//! A table that is recovered and gone on with: its journal is cut to what was whole, gets further commits, and is recovered again.
use crate::assertions::{assert_at, assert_holds};
use crate::histories::{History, drawn, go_on};
use crate::recoveries::{is_recovered, recovered_over};
use replay::Recovered;
use std::process::Abort;
use std::test::Fail;
use test_fixtures::Draws;

/// What is recovered where the last frame of a journal lacks a byte.
fn recovered_of_torn(history: &History) -> Result<Recovered, Fail> {
    let bytes = history.journal.bytes();
    let torn = match bytes.get(..bytes.len().wrapping_sub(1)) {
        Some(torn) => torn,
        None => bytes,
    };
    match recovered_over(history.alloc, &history.slow, 0, torn)? {
        Ok(recovered) => Ok(recovered),
        Err(fault) => Err(fault.into()),
    }
}

/// Loses the last commit by a torn frame, and goes on from what is recovered, until there are so many commits.
fn lose_and_go_on(
    rt: &impl Abort,
    history: &mut History,
    draws: &mut Draws,
    commits: u64,
) -> Result<(), Fail> {
    let left = history.slow.number().wrapping_sub(1);
    let Recovered { manager, whole } = recovered_of_torn(history)?;
    assert_at(rt, whole == history.journal.end_of(left), left);
    assert_at(rt, manager.version().number() == left, left);
    history.manager = manager;
    history.journal.cut_to(left);
    history.slow.cut_to(left);
    go_on(history, draws, commits)
}

#[test]
fn a_recovered_table_goes_on_and_is_recovered_again(rt: HostRuntime) -> Result<(), Fail> {
    let alloc = rt.alloc();
    let mut draws = Draws::new(11);
    let mut history = drawn(alloc, 10, 20)?;
    for turn in 1..=5 {
        lose_and_go_on(
            &rt,
            &mut history,
            &mut draws,
            20_u64.wrapping_mul(turn).wrapping_add(20),
        )?;
        let number = history.slow.number();
        let bytes = history.journal.bytes();
        for image in [0, 10, number] {
            let found = recovered_over(alloc, &history.slow, image, bytes)?;
            let is_recovered = is_recovered(alloc, &found, &history.slow, number, bytes.len())?;
            assert_holds(&rt, is_recovered, "the whole history");
        }
    }
    Ok(())
}
