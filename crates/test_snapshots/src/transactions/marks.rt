//! A transaction that goes back to its marks, beside the slow program: what it shows then is what the writes that are left
//! make of the table, and what a commit records is those writes.
ghost use Rattle.txn.specs.Marks.{GoesOn};

use super::answer;
use super::random_writes::{base_rows, drawn_write, has_entries, opened, reads_as, written};
use crate::assertions::assert_holds;
use model::{CommitReply, Write, WriteReply};
use oracle::{Effects, OrderedTable, canonical_entries};
use std::alloc::Global;
use std::process::Abort;
use std::test::Fail;
use test_fixtures::Draws;
use txn::Txn;

const TURNS: usize = 40;

/// The write of a seed.
fn seeded(alloc: Global, seed: u64) -> Result<Write, Fail> {
    Ok(drawn_write(alloc, &mut Draws::new(seed))?)
}

/// Makes up to seven drawn writes, and keeps the seed of each.
fn write_some(
    alloc: Global,
    txn: &mut Txn,
    seeds: &mut Vec<u64>,
    draws: &mut Draws,
) -> Result<(), Fail>
    ensures { GoesOn txn.old txn.new }
{
    for _ in 0..draws.below(8) {
        let seed = draws.below(1_000_000);
        answer(txn, seeded(alloc, seed)?)?;
        seeds.push(seed)?;
    }
    Ok(())
}

fn is_same_write(one: &Write, other: &Write) -> bool {
    match (one, other) {
        (Write::Insert(row), Write::Insert(found)) => row.cells() == found.cells(),
        (Write::Delete(key), Write::Delete(found)) => key == found,
        (Write::Set(key, col, value), Write::Set(found, at, to)) => {
            key == found && col == at && value == to
        }
        _ => false,
    }
}

/// The effects of the writes of these seeds, where they are those that are recorded with the replies that are due.
fn effects_of(
    alloc: Global,
    base: &OrderedTable,
    seeds: &[u64],
    recorded: &[(Write, WriteReply)],
) -> Result<Option<Effects>, Fail> {
    let mut effects = Effects::new(alloc);
    if recorded.len() != seeds.len() {
        return Ok(None);
    }
    for (seed, made) in seeds.iter().zip(recorded.iter()) {
        let write = seeded(alloc, *seed)?;
        let due = written(base, &mut effects, &write)?;
        if made.1 != due || !is_same_write(&made.0, &write) {
            return Ok(None);
        }
    }
    Ok(Some(effects))
}

/// That the transaction records, keeps and shows what the writes of these seeds make, and nothing else.
fn assert_shows(
    rt: &impl Abort,
    alloc: Global,
    txn: &Txn,
    base: &OrderedTable,
    (seeds, at): (&[u64], &str),
) -> Result<(), Fail> {
    match effects_of(alloc, base, seeds, txn.writes())? {
        Some(effects) => {
            let entries = canonical_entries(alloc, base, &effects)?;
            assert_holds(rt, has_entries(txn.tree(), entries.as_slice()), at);
            assert_holds(rt, reads_as(alloc, txn, base, &effects)?, at);
        }
        None => assert_holds(rt, false, at),
    }
    Ok(())
}

/// Marks, writes, marks again and writes. Goes back to the younger mark, writes, and goes back to it once more; and now and
/// then to the older one.
fn turn(
    rt: &impl Abort,
    alloc: Global,
    txn: &mut Txn,
    base: &OrderedTable,
    (seeds, draws): (&mut Vec<u64>, &mut Draws),
) -> Result<(), Fail> {
    let older = txn.mark()?;
    let before = seeds.len();
    write_some(alloc, txn, seeds, draws)?;
    let younger = txn.mark()?;
    let between = seeds.len();
    write_some(alloc, txn, seeds, draws)?;
    txn.back_to(younger.copy()?);
    seeds.truncate(between);
    assert_shows(rt, alloc, txn, base, (seeds.as_slice(), "the younger mark"))?;
    write_some(alloc, txn, seeds, draws)?;
    txn.back_to(younger);
    seeds.truncate(between);
    assert_shows(
        rt,
        alloc,
        txn,
        base,
        (seeds.as_slice(), "the younger mark again"),
    )?;
    if draws.below(3) == 0 {
        txn.back_to(older);
        seeds.truncate(before);
        assert_shows(rt, alloc, txn, base, (seeds.as_slice(), "the older mark"))?;
    }
    Ok(())
}

fn turns(
    rt: &impl Abort,
    alloc: Global,
    txn: &mut Txn,
    base: &OrderedTable,
    seeds: &mut Vec<u64>,
) -> Result<(), Fail> {
    let mut draws = Draws::new(11);
    for _ in 0..TURNS {
        turn(rt, alloc, txn, base, (seeds, &mut draws))?;
    }
    Ok(())
}

#[test]
fn a_transaction_goes_back_to_what_the_first_writes_left(rt: HostRuntime) -> Result<(), Fail> {
    let alloc = rt.alloc();
    let base = OrderedTable::from_rows(alloc, 1, base_rows(alloc)?)?;
    let mut seeds = Vec::new(alloc);
    let mut txn = opened(&rt, alloc)?;
    let turned = turns(&rt, alloc, &mut txn, &base, &mut seeds);
    let record = txn.into_record(CommitReply::Committed(1));
    turned?;
    assert!(&rt; seeds.len() > 40);
    for made in &record {
        assert_holds(
            &rt,
            effects_of(alloc, &base, seeds.as_slice(), made.writes())?.is_some(),
            "the record",
        );
    }
    Ok(())
}
