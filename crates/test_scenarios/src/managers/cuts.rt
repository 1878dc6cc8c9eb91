//! What folds and cuts leave, and commits in two parts.
use super::{begun_with, decided, has_rows, one_write, opened};
use manager::History;
use model::CommitReply;
use pdtcli::Manager;
use std::alloc::Global;
use std::test::Fail;
use test_fixtures::{ItemWrite, entries_text};
use values::NoMemory;
use values::limits::MAX_ROWS;

/// Whether the Read-PDT of the newest version has these entries, its Write-PDT none, and its stable table these rows.
pub(super) fn has_layers(
    alloc: Global,
    manager: &Manager,
    read: &str,
    rows: u64,
) -> Result<bool, NoMemory> {
    let entries = entries_text(alloc, manager.read_tree().iter())?;
    Ok(
        entries.as_str() == read
            && manager.write_tree().len() == 0
            && manager.stable().len() == rows,
    )
}

/// The reply to a transaction that makes one write, and whether it leaves this entry in the Write-PDT, and a fold after it these
/// entries in the Read-PDT alone.
fn one_folded(
    alloc: Global,
    manager: &mut Manager,
    named: ItemWrite,
    (write, read): (&str, &str),
) -> Result<(Option<CommitReply>, bool), NoMemory> {
    let reply = one_write(alloc, manager, named);
    let entries = entries_text(alloc, manager.write_tree().iter())?;
    let is_written = entries.as_str() == write;
    manager.fold()?;
    Ok((reply, is_written && has_layers(alloc, manager, read, 3)?))
}

#[test]
fn a_fold_leaves_an_entry_for_a_row_that_is_inserted_and_set(rt: HostRuntime) -> Result<(), Fail> {
    let alloc = rt.alloc();
    let mut manager = opened(alloc, 64, MAX_ROWS)?;
    let inserted = one_folded(
        alloc,
        &mut manager,
        ItemWrite::Insert(25, "Dee", 4),
        ("2+25,Dee,4", "2+25,Dee,4"),
    )?;
    assert!(&rt; inserted == (Some(CommitReply::Committed(1)), true));
    let set = one_folded(
        alloc,
        &mut manager,
        ItemWrite::Set(25, 5),
        ("2:2=5", "2+25,Dee,5"),
    )?;
    assert!(&rt; set == (Some(CommitReply::Committed(2)), true));
    let deleted = one_folded(alloc, &mut manager, ItemWrite::Delete(25), ("2-25", ""))?;
    assert!(&rt; deleted == (Some(CommitReply::Committed(3)), true));
    assert!(&rt; has_rows(&manager, &[(10, 1), (20, 2), (30, 3)]));
    Ok(())
}

/// The replies to a commit, to one after a cut, and to one that began before both; and what the cut handed out: the number at
/// which it starts, and how many records.
fn below_a_cut(
    alloc: Global,
    manager: &mut Manager,
) -> Result<([Option<CommitReply>; 3], (u64, u64)), NoMemory> {
    let a = begun_with(alloc, manager, ItemWrite::Set(10, 9))?;
    let first = one_write(alloc, manager, ItemWrite::Insert(25, "Dee", 4));
    let handed = lengths_of(manager.cut());
    let second = one_write(alloc, manager, ItemWrite::Set(30, 9));
    let third = decided(manager, a);
    Ok(([first, second, third], handed))
}

/// The number at which a history starts, and how many records it has.
fn lengths_of(history: History) -> (u64, u64) {
    (history.base(), history.len())
}

/// Whether a manager has the base 1, two records past it, and these rows.
fn is_left(manager: &Manager, rows: &[(i64, i64)]) -> bool {
    manager.base() == 1 && manager.history().len() == 2 && has_rows(manager, rows)
}

#[test]
fn a_begin_below_the_cut_is_too_old(rt: HostRuntime) -> Result<(), Fail> {
    let alloc = rt.alloc();
    let mut manager = opened(alloc, 64, MAX_ROWS)?;
    let (replies, handed) = below_a_cut(alloc, &mut manager)?;
    assert!(&rt;
        replies
            == [
                Some(CommitReply::Committed(1)),
                Some(CommitReply::Committed(2)),
                Some(CommitReply::TooOld(2))
            ]
    );
    assert!(&rt; handed == (0, 1));
    assert!(&rt; is_left(&manager, &[(10, 1), (20, 2), (25, 4), (30, 9)]));
    Ok(())
}

/// The replies to a commit and, behind two cuts, to one that began between; and how many records each cut handed out.
fn at_a_cut(
    alloc: Global,
    manager: &mut Manager,
) -> Result<([Option<CommitReply>; 2], [u64; 2]), NoMemory> {
    let first = one_write(alloc, manager, ItemWrite::Insert(25, "Dee", 4));
    let c = begun_with(alloc, manager, ItemWrite::Set(25, 9))?;
    let handed = manager.cut().len();
    let again = manager.cut().len();
    Ok(([first, decided(manager, c)], [handed, again]))
}

#[test]
fn a_begin_at_the_cut_is_decided(rt: HostRuntime) -> Result<(), Fail> {
    let alloc = rt.alloc();
    let mut manager = opened(alloc, 64, MAX_ROWS)?;
    let (replies, handed) = at_a_cut(alloc, &mut manager)?;
    assert!(&rt;
        replies
            == [
                Some(CommitReply::Committed(1)),
                Some(CommitReply::Committed(2))
            ]
    );
    assert!(&rt; handed == [1, 0]);
    assert!(&rt; has_rows(&manager, &[(10, 1), (20, 2), (25, 9), (30, 3)]));
    Ok(())
}

/// The reply that a prepared commit tells and the one at its install, and how many rows its version has and the newest one
/// before the install.
fn prepared_and_installed(
    alloc: Global,
    manager: &mut Manager,
) -> Result<([CommitReply; 2], [Option<u64>; 2]), NoMemory> {
    let txn = begun_with(alloc, manager, ItemWrite::Delete(20))?;
    let prepared = match manager.prepare(&txn) {
        Ok(prepared) => prepared,
        Err(fault) => {
            txn.abort();
            return Err(fault);
        }
    };
    let told = prepared.reply();
    let rows = prepared.version().map(|version| version.len());
    let before = manager.version().len();
    let reply = manager.install(txn, prepared);
    Ok(([told, reply], [rows, Some(before)]))
}

#[test]
fn what_was_prepared_is_installed(rt: HostRuntime) -> Result<(), Fail> {
    let alloc = rt.alloc();
    let mut manager = opened(alloc, 64, MAX_ROWS)?;
    let (replies, rows) = prepared_and_installed(alloc, &mut manager)?;
    assert!(&rt; replies[0] == CommitReply::Committed(1));
    assert!(&rt; replies[1] == CommitReply::Committed(1));
    assert!(&rt; rows[0] == Some(2));
    assert!(&rt; rows[1] == Some(3));
    assert!(&rt; has_rows(&manager, &[(10, 1), (30, 3)]));
    Ok(())
}

#[test]
fn a_long_history_is_dropped(rt: HostRuntime) -> Result<(), Fail> {
    let mut manager = opened(rt.alloc(), 64, MAX_ROWS)?;
    let mut last = None;
    for _ in 0..100_000 {
        last = match manager.begin(0) {
            Ok(txn) => decided(&mut manager, txn),
            Err(NoMemory) => None,
        };
    }
    assert!(&rt; last == Some(CommitReply::Committed(100_000)));
    assert!(&rt; manager.cut().len() == 100_000);
    Ok(())
}
