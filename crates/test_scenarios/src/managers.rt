//! Two transactions of one manager: which of their commits are granted, and what the history keeps of them.
ghost use Rattle.std.specs.Prelude.{IfOk};
ghost use Rattle.txn.specs.Txn.{Transaction};
ghost use Rattle.manager.specs.Managed.{Managed, IsOwn};

mod checkpoints;
mod cuts;
mod late_commits;
mod openings;
mod pins;
mod refusals;
mod repacks;
mod restacks;

use model::{CommitReply, ConflictRule, Write, WriteReply};
use pdtcli::{Manager, Txn, WriteFault};
use std::alloc::Global;
use std::test::Fail;
use test_fixtures::{ItemWrite, base_table, write_of};
use txn::RowView;
use values::limits::MAX_ROWS;
use values::{NoMemory, ValueRef};

/// A manager of the base table.
fn opened(alloc: Global, recent: usize, limit: u64) -> Result<Manager, Fail> {
    Ok(Manager::open(
        alloc,
        base_table(alloc)?,
        recent,
        limit,
        ConflictRule::ByColumn,
    )?)
}

/// Two transactions over the newest table, of the clients 0 and 1.
fn begin_both(manager: &Manager) -> Result<(Txn, Txn), NoMemory>
    ensures first { IfOk result (λ both. IsOwn manager.now both.0) }
    ensures second { IfOk result (λ both. IsOwn manager.now both.1) }
{
    let first = manager.begin(0)?;
    match manager.begin(1) {
        Ok(second) => Ok((first, second)),
        Err(fault) => {
            first.abort();
            Err(fault)
        }
    }
}

/// The reply to a write, which is made of its parts where there is memory.
fn wrote(alloc: Global, txn: &mut Txn, named: ItemWrite) -> Result<WriteReply, WriteFault>
    ensures own { (m : Managed) → IsOwn m txn.old → IsOwn m txn.new }
{
    match write_of(alloc, named)? {
        Write::Insert(row) => txn.insert(row),
        Write::Delete(key) => txn.delete(&key),
        Write::Set(key, col, value) => txn.set(&key, col, value),
    }
}

/// The reply to the commit of a transaction, or none where memory is refused.
fn decided(manager: &mut Manager, txn: Txn) -> Option<CommitReply>
    requires own { IsOwn manager.old txn }
    ensures kept { (other : Transaction) → IsOwn manager.old other → IsOwn manager.new other }
{
    match manager.commit(txn) {
        Ok(reply) => Some(reply),
        Err((txn, NoMemory)) => {
            txn.abort();
            None
        }
    }
}

/// A transaction of the client 0 that begins now and makes one write.
fn begun_with(alloc: Global, manager: &Manager, named: ItemWrite) -> Result<Txn, NoMemory>
    ensures { IfOk result (λ txn. IsOwn manager.now txn) }
{
    let mut txn = manager.begin(0)?;
    match wrote(alloc, &mut txn, named) {
        Ok(WriteReply::Done) => Ok(txn),
        _ => {
            txn.abort();
            Err(NoMemory)
        }
    }
}

/// The reply to a transaction that begins now and makes one write, or none where memory is refused.
fn one_write(alloc: Global, manager: &mut Manager, named: ItemWrite) -> Option<CommitReply>
    ensures kept { (other : Transaction) → IsOwn manager.old other → IsOwn manager.new other }
{
    match begun_with(alloc, manager, named) {
        Ok(txn) => decided(manager, txn),
        Err(NoMemory) => None,
    }
}

/// The numbers of a table's rows, with their quantities.
type Rows = &'static [(i64, i64)];

fn is_row(view: &RowView<'_>, row: (i64, i64)) -> bool {
    view.width() == 3
        && view.value(0) == ValueRef::Int(row.0)
        && view.value(2) == ValueRef::Int(row.1)
}

/// Whether the newest table has these rows.
pub(crate) fn has_rows(manager: &Manager, rows: &[(i64, i64)]) -> bool {
    let newest = manager.newest();
    let mut place = 0_usize;
    for view in newest.scan(0, newest.len()) {
        match rows.get(place) {
            Some(row) if is_row(&view, *row) => place = place.wrapping_add(1),
            _ => return false,
        }
    }
    place == rows.len()
}

/// Whether the history has these replies to one write that was done, of the clients from 0 on, all over the opening table.
fn has_records(manager: &Manager, replies: &[CommitReply]) -> bool {
    let Some(records) = manager.history().records() else {
        return false;
    };
    records.len() == replies.len()
        && records.iter().zip(replies.iter().enumerate()).all(|(record, (client, reply))| {
            record.client() as usize == client && record.begin() == 0 && record.reply() == *reply
        })
        && records.iter().all(|record| matches!(record.writes(), [(_, WriteReply::Done)]))
}

/// Whether both of two transactions delete a row, and the replies to their commits.
fn both_delete(
    alloc: Global,
    manager: &mut Manager,
) -> Result<(bool, [Option<CommitReply>; 2]), NoMemory> {
    let (mut a, mut b) = begin_both(manager)?;
    let a_deleted = wrote(alloc, &mut a, ItemWrite::Delete(20));
    let b_deleted = wrote(alloc, &mut b, ItemWrite::Delete(20));
    let first = decided(manager, a);
    let second = decided(manager, b);
    let done = a_deleted == Ok(WriteReply::Done) && b_deleted == Ok(WriteReply::Done);
    Ok((done, [first, second]))
}

#[test]
fn a_row_that_both_delete_conflicts(rt: HostRuntime) -> Result<(), Fail> {
    let alloc = rt.alloc();
    let mut manager = opened(alloc, 64, MAX_ROWS)?;
    let (done, replies) = both_delete(alloc, &mut manager)?;
    assert!(&rt; done);
    assert!(&rt; replies[0] == Some(CommitReply::Committed(1)));
    assert!(&rt; replies[1] == Some(CommitReply::Conflict(1)));
    assert!(&rt; has_rows(&manager, &[(10, 1), (30, 3)]));
    assert!(&rt;
        has_records(
            &manager,
            &[CommitReply::Committed(1), CommitReply::Conflict(1)]
        )
    );
    Ok(())
}

/// Whether the first of two transactions sets a cell, and the replies to the commits of the other one, of one that begins then,
/// and of the first.
fn one_waits(
    alloc: Global,
    manager: &mut Manager,
) -> Result<(bool, [Option<CommitReply>; 3]), NoMemory> {
    let (mut a, b) = begin_both(manager)?;
    let a_set = wrote(alloc, &mut a, ItemWrite::Set(30, 9));
    let first = decided(manager, b);
    let second = match manager.begin(1) {
        Ok(c) => decided(manager, c),
        Err(NoMemory) => None,
    };
    let third = decided(manager, a);
    Ok((a_set == Ok(WriteReply::Done), [first, second, third]))
}

/// Whether the records began at these numbers.
fn began_at(manager: &Manager, numbers: &[u64]) -> bool {
    let Some(records) = manager.history().records() else {
        return false;
    };
    let begins = records.iter().map(|record| record.begin());
    begins.eq(numbers.iter().copied())
}

#[test]
fn two_commits_since_the_begin_are_too_many_where_one_is_kept(rt: HostRuntime) -> Result<(), Fail> {
    let alloc = rt.alloc();
    let mut manager = opened(alloc, 1, MAX_ROWS)?;
    let (done, replies) = one_waits(alloc, &mut manager)?;
    assert!(&rt; done);
    assert!(&rt; replies[0] == Some(CommitReply::Committed(1)));
    assert!(&rt; replies[1] == Some(CommitReply::Committed(2)));
    assert!(&rt; replies[2] == Some(CommitReply::TooOld(2)));
    assert!(&rt; has_rows(&manager, &[(10, 1), (20, 2), (30, 3)]));
    assert!(&rt; began_at(&manager, &[0, 1, 0]));
    Ok(())
}
