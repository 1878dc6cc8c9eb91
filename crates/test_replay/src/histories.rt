//! Histories that are drawn and logged, and made again over the image of each of their numbers.
ghost use Rattle.std.specs.Prelude.{IfOk};
ghost use Rattle.txn.specs.Txn.{Transaction};
ghost use Rattle.manager.specs.Managed.{Managed, IsOwn};

use crate::assertions::{assert_at, assert_holds};
use crate::journals::{Journal, log_commit};
use crate::recoveries::{LIMITS, has_table, image_at, is_recovered, recovered_over};
use crate::slow::Slow;
use manager::Manager;
use model::{CommitReply, Write};
use oracle::Effects;
use std::alloc::Global;
use std::process::Abort;
use std::test::Fail;
use test_fixtures::{BASE, Draws, ItemWrite, items, write_of};
use txn::Txn;

/// What the transactions of a history came to.
#[derive(Clone, Copy, Debug, PartialEq, Eq)]
pub(crate) struct Met {
    pub(crate) committed: bool,
    pub(crate) empty: bool,
    pub(crate) conflict: bool,
    pub(crate) full: bool,
    pub(crate) aborted: bool,
    pub(crate) folded: bool,
}

/// A manager, the slow program beside it, and the journal of its commits.
#[derive(Drop)]
pub(crate) struct History {
    pub(crate) alloc: Global,
    pub(crate) manager: Manager,
    pub(crate) slow: Slow,
    pub(crate) journal: Journal,
    pub(crate) met: Met,
}

impl History {
    /// The base table, before any commit.
    pub(crate) fn new(alloc: Global) -> Result<History, Fail> {
        let slow = Slow::new(alloc, items(alloc, &BASE)?)?;
        let image = image_at(alloc, &slow, 0)?;
        let manager = Manager::open_at(
            alloc,
            image.table,
            0,
            LIMITS.recent,
            LIMITS.row_limit,
            LIMITS.conflicts,
        )?;
        Ok(History {
            alloc,
            manager,
            slow,
            journal: Journal::new(alloc)?,
            met: Met {
                committed: false,
                empty: false,
                conflict: false,
                full: false,
                aborted: false,
                folded: false,
            },
        })
    }
}

/// A write that is drawn.
pub(crate) fn drawn_write(draws: &mut Draws) -> ItemWrite {
    let id = draws.below(30) as i64;
    match draws.below(5) {
        0 | 1 => ItemWrite::Insert(id, "new", 5),
        2 => ItemWrite::Delete(id),
        3 => ItemWrite::Name(id, "other"),
        _ => ItemWrite::Set(id, draws.below(9) as i64),
    }
}

/// Makes a write in a transaction, whatever it is answered.
fn write_in(alloc: Global, txn: &mut Txn, named: ItemWrite) -> Result<(), Fail>
    ensures own { (m : Managed) → IsOwn m txn.old → IsOwn m txn.new }
{
    match write_of(alloc, named)? {
        Write::Insert(row) => txn.insert(row)?,
        Write::Delete(key) => txn.delete(&key)?,
        Write::Set(key, col, value) => txn.set(&key, col, value)?,
    };
    Ok(())
}

/// Makes up to five drawn writes. A row that is deleted and inserted again is replaced.
fn write_some(alloc: Global, txn: &mut Txn, draws: &mut Draws) -> Result<(), Fail>
    ensures own { (m : Managed) → IsOwn m txn.old → IsOwn m txn.new }
{
    for _ in 0..draws.below(6) {
        write_in(alloc, txn, drawn_write(draws))?;
    }
    Ok(())
}

/// A transaction that begins now and makes drawn writes.
pub(crate) fn begun(alloc: Global, manager: &Manager, draws: &mut Draws) -> Result<Txn, Fail>
    ensures { IfOk result (λ txn. IsOwn manager.now txn) }
{
    let mut txn = manager.begin(1)?;
    match write_some(alloc, &mut txn, draws) {
        Ok(()) => Ok(txn),
        Err(fault) => {
            txn.abort();
            Err(fault)
        }
    }
}

/// The effects that the slow program knows of a transaction.
fn known(slow: &Slow, txn: &Txn) -> Result<Effects, Fail> {
    match slow.effects_of(txn)? {
        Some(effects) => Ok(effects),
        None => Err(Fail::new("a write was answered otherwise than is due")),
    }
}

/// Commits a transaction, and logs it. The slow program gives the same reply.
fn commit(history: &mut History, txn: Txn) -> Result<(), Fail>
    requires own { IsOwn history.old.manager txn }
    ensures kept { (other : Transaction) → IsOwn history.old.manager other → IsOwn history.new.manager other }
{
    let begin = txn.begin();
    let effects = match known(&history.slow, &txn) {
        Ok(effects) => effects,
        Err(fault) => {
            txn.abort();
            return Err(fault);
        }
    };
    let is_empty = effects.len() == 0;
    let reply = log_commit(
        history.alloc,
        &mut history.manager,
        txn,
        &mut history.journal,
    )?;
    meet(&mut history.met, reply, is_empty);
    if history.slow.commit(begin, effects)? != Some(reply) {
        return Err(Fail::new("a commit was answered otherwise than is due"));
    }
    Ok(())
}

/// Notes a reply.
fn meet(met: &mut Met, reply: CommitReply, is_empty: bool) {
    match reply {
        CommitReply::Committed(_) => {
            met.committed = true;
            met.empty |= is_empty;
        }
        CommitReply::Conflict(_) => met.conflict = true,
        CommitReply::Full(_) => met.full = true,
        CommitReply::TooOld(_) => {}
    }
}

/// A transaction that begins now and commits.
fn commit_one(history: &mut History, draws: &mut Draws) -> Result<(), Fail> {
    let txn = begun(history.alloc, &history.manager, draws)?;
    commit(history, txn)
}

/// A transaction that begins now, makes one write and commits.
pub(crate) fn commit_named(history: &mut History, named: ItemWrite) -> Result<(), Fail> {
    let mut txn = history.manager.begin(1)?;
    match write_in(history.alloc, &mut txn, named) {
        Ok(()) => commit(history, txn),
        Err(fault) => {
            txn.abort();
            Err(fault)
        }
    }
}

/// Two transactions that begin now, and commit one after the other.
fn commit_both(history: &mut History, draws: &mut Draws) -> Result<(), Fail> {
    let first = begun(history.alloc, &history.manager, draws)?;
    let second = match begun(history.alloc, &history.manager, draws) {
        Ok(second) => second,
        Err(fault) => {
            first.abort();
            return Err(fault);
        }
    };
    match commit(history, first) {
        Ok(()) => commit(history, second),
        Err(fault) => {
            second.abort();
            Err(fault)
        }
    }
}

/// A transaction that is given up.
fn abort_one(history: &mut History, draws: &mut Draws) -> Result<(), Fail> {
    begun(history.alloc, &history.manager, draws)?.abort();
    history.met.aborted = true;
    Ok(())
}

/// One step of a history.
fn step(history: &mut History, draws: &mut Draws) -> Result<(), Fail> {
    match draws.below(8) {
        0 => {
            history.manager.fold()?;
            history.met.folded = true;
            Ok(())
        }
        1 => abort_one(history, draws),
        2 | 3 => commit_both(history, draws),
        _ => commit_one(history, draws),
    }
}

/// Goes on until so many commits are logged.
pub(crate) fn go_on(history: &mut History, draws: &mut Draws, commits: u64) -> Result<(), Fail> {
    for _ in 0..commits.saturating_mul(20) {
        if history.slow.number() >= commits {
            return Ok(());
        }
        step(history, draws)?;
    }
    Err(Fail::new("too few commits were granted"))
}

/// The history of a seed, of so many commits or one more.
pub(crate) fn drawn(alloc: Global, seed: u64, commits: u64) -> Result<History, Fail> {
    let mut history = History::new(alloc)?;
    go_on(&mut history, &mut Draws::new(seed), commits)?;
    Ok(history)
}

/// Whether the history is made again over the image of a number.
fn is_made_again(history: &History, number: u64) -> Result<bool, Fail> {
    let bytes = history.journal.bytes();
    let found = recovered_over(history.alloc, &history.slow, number, bytes)?;
    Ok(is_recovered(
        history.alloc,
        &found,
        &history.slow,
        history.slow.number(),
        bytes.len(),
    )?)
}

/// That a history is made again over each of its images.
fn judge(rt: &impl Abort, history: &History) -> Result<(), Fail> {
    let number = history.slow.number();
    assert_at(rt, history.journal.len() == number, number);
    let has_table = has_table(history.alloc, &history.manager, &history.slow, number)?;
    assert_at(rt, has_table, number);
    for image in 0..=number {
        assert_at(rt, is_made_again(history, image)?, image);
    }
    Ok(())
}

#[test]
fn a_drawn_history_is_made_again_over_each_of_its_images(rt: HostRuntime) -> Result<(), Fail> {
    for seed in 1..=20 {
        judge(&rt, &drawn(rt.alloc(), seed, 40)?)?;
    }
    Ok(())
}

#[test]
fn a_long_history_has_all_that_a_transaction_comes_to(rt: HostRuntime) -> Result<(), Fail> {
    let history = drawn(rt.alloc(), 100, 400)?;
    assert_holds(&rt, has_met_all(history.met), "each reply is met");
    assert_at(&rt, is_made_again(&history, 0)?, 0);
    assert_at(&rt, is_made_again(&history, 200)?, 200);
    Ok(())
}

/// Whether transactions came to all that they can come to.
fn has_met_all(met: Met) -> bool {
    met == Met {
        committed: true,
        empty: true,
        conflict: true,
        full: true,
        aborted: true,
        folded: true,
    }
}
