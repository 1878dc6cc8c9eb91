//! Journals that are cut at each byte, and damaged in each bit: what is recovered, or told.
use crate::assertions::assert_at;
use crate::histories::{History, commit_named, drawn_write};
use crate::recoveries::{is_recovered, is_refused, recovered_over};
use replay::RecoverFault;
use std::alloc::Global;
use std::process::Abort;
use std::test::Fail;
use test_fixtures::Draws;
use values::NoMemory;

/// How many commits the journals have that are cut and damaged.
const COUNT: u64 = 50;

/// A history of that many commits, each of one write or of none, so that its journal is small.
fn short(alloc: Global, seed: u64) -> Result<History, Fail> {
    let mut history = History::new(alloc)?;
    let mut draws = Draws::new(seed);
    for _ in 0..COUNT {
        commit_named(&mut history, drawn_write(&mut draws))?;
    }
    Ok(history)
}

/// Whether the first so many bytes of a journal recover as the commits that are whole in them; or, over the image of a commit that
/// isn't, as the gap behind them.
fn is_cut(history: &History, image: u64, cut: usize) -> Result<bool, Fail> {
    let Some(kept) = history.journal.bytes().get(..cut) else {
        return Ok(false);
    };
    let number = history.journal.whole_in(cut);
    let found = recovered_over(history.alloc, &history.slow, image, kept)?;
    if number < image {
        return Ok(is_refused(&found, RecoverFault::Gap(number.wrapping_add(1))));
    }
    let whole = history.journal.end_of(number);
    Ok(is_recovered(history.alloc, &found, &history.slow, number, whole)?)
}

#[test]
fn a_journal_that_is_cut_anywhere_gives_its_whole_commits(rt: HostRuntime) -> Result<(), Fail> {
    let history = short(rt.alloc(), 1)?;
    for cut in 0..=history.journal.bytes().len() {
        assert_at(&rt, is_cut(&history, 0, cut)?, cut as u64);
    }
    Ok(())
}

#[test]
fn a_journal_that_is_cut_before_its_image_is_a_gap(rt: HostRuntime) -> Result<(), Fail> {
    let history = short(rt.alloc(), 2)?;
    for cut in 0..=history.journal.bytes().len() {
        assert_at(&rt, is_cut(&history, 25, cut)?, cut as u64);
    }
    Ok(())
}

/// Whether a journal of which a bit was turned over is told as rot at the damaged commit, where that was synced by a later one's word,
/// and recovers as the commits before it, where it wasn't.
fn is_damaged(history: &History, bytes: &[u8], at: usize) -> Result<bool, Fail> {
    let before = history.journal.whole_in(at);
    let damaged = before.wrapping_add(1);
    let found = recovered_over(history.alloc, &history.slow, 0, bytes)?;
    if damaged <= history.journal.synced() {
        return Ok(is_refused(&found, RecoverFault::Rot(damaged)));
    }
    let whole = history.journal.end_of(before);
    Ok(is_recovered(history.alloc, &found, &history.slow, before, whole)?)
}

/// The bytes, with one bit of a byte turned over.
fn turned(alloc: Global, bytes: &[u8], at: usize, bit: u32) -> Result<Vec<u8>, NoMemory> {
    let mut turned = Vec::with_capacity(alloc, bytes.len())?;
    turned.extend_from_slice(bytes)?;
    if let Some(byte) = turned.get_mut(at) {
        *byte ^= 1_u8.wrapping_shl(bit);
    }
    Ok(turned)
}

/// That a bit of a byte that turns over is told, or ends the journal.
fn judge(rt: &impl Abort, history: &History, at: usize, bit: u32) -> Result<(), Fail> {
    let damaged = turned(history.alloc, history.journal.bytes(), at, bit)?;
    assert_at(rt, is_damaged(history, damaged.as_slice(), at)?, at as u64);
    Ok(())
}

/// That this bit of any byte of a journal that turns over is told, or ends the journal.
fn judge_each_byte(rt: &impl Abort, alloc: Global, bit: u32) -> Result<(), Fail> {
    let history = short(alloc, 3)?;
    for at in 0..history.journal.bytes().len() {
        judge(rt, &history, at, bit)?;
    }
    Ok(())
}

#[test]
fn bit_0_of_any_byte_that_turns_over_is_told_or_ends_the_journal(
    rt: HostRuntime,
) -> Result<(), Fail> {
    judge_each_byte(&rt, rt.alloc(), 0)
}

#[test]
fn bit_1_of_any_byte_that_turns_over_is_told_or_ends_the_journal(
    rt: HostRuntime,
) -> Result<(), Fail> {
    judge_each_byte(&rt, rt.alloc(), 1)
}

#[test]
fn bit_2_of_any_byte_that_turns_over_is_told_or_ends_the_journal(
    rt: HostRuntime,
) -> Result<(), Fail> {
    judge_each_byte(&rt, rt.alloc(), 2)
}

#[test]
fn bit_3_of_any_byte_that_turns_over_is_told_or_ends_the_journal(
    rt: HostRuntime,
) -> Result<(), Fail> {
    judge_each_byte(&rt, rt.alloc(), 3)
}

#[test]
fn bit_4_of_any_byte_that_turns_over_is_told_or_ends_the_journal(
    rt: HostRuntime,
) -> Result<(), Fail> {
    judge_each_byte(&rt, rt.alloc(), 4)
}

#[test]
fn bit_5_of_any_byte_that_turns_over_is_told_or_ends_the_journal(
    rt: HostRuntime,
) -> Result<(), Fail> {
    judge_each_byte(&rt, rt.alloc(), 5)
}

#[test]
fn bit_6_of_any_byte_that_turns_over_is_told_or_ends_the_journal(
    rt: HostRuntime,
) -> Result<(), Fail> {
    judge_each_byte(&rt, rt.alloc(), 6)
}

#[test]
fn bit_7_of_any_byte_that_turns_over_is_told_or_ends_the_journal(
    rt: HostRuntime,
) -> Result<(), Fail> {
    judge_each_byte(&rt, rt.alloc(), 7)
}
