//! Versions that are kept, what the last commits changed, and a manager that keeps no records.
ghost use Rattle.std.specs.Prelude.{ℕ, IfOk};
ghost use Rattle.manager.specs.Managed.{IsOwn};
ghost use Rattle.manager.specs.Pinned.{begun_over};

use super::{Rows, begun_with, decided, has_rows, is_row, one_write, opened, wrote};
use manager::{KeptTrees, Pin};
use model::{CommitReply, WriteReply};
use pdtcli::{Manager, Txn};
use std::alloc::Global;
use std::test::Fail;
use test_fixtures::{ItemWrite, entries_text};
use values::NoMemory;
use values::limits::MAX_ROWS;

/// Whether a transaction sees these rows.
fn sees(txn: &Txn, rows: Rows) -> bool {
    let mut place = 0_usize;
    for view in txn.scan(0, txn.len()) {
        match rows.get(place) {
            Some(row) if is_row(&view, *row) => place = place.wrapping_add(1),
            _ => return false,
        }
    }
    place == rows.len()
}

/// Whether what begins over a pin sees these rows, at this number.
fn shows(alloc: Global, pin: &Pin, number: u64, rows: Rows) -> Result<bool, NoMemory> {
    let txn = pin.begin(alloc, 0)?;
    let is_shown = txn.begin() == number && pin.number() == number && sees(&txn, rows);
    txn.abort();
    Ok(is_shown)
}

#[test]
fn a_pin_keeps_its_table(rt: HostRuntime) -> Result<(), Fail> {
    let alloc = rt.alloc();
    let mut manager = opened(alloc, 64, MAX_ROWS)?;
    let first = manager.pin()?;
    assert!(&rt;
        one_write(alloc, &mut manager, ItemWrite::Delete(20)) == Some(CommitReply::Committed(1))
    );
    let second = manager.pin()?;
    assert!(&rt;
        one_write(alloc, &mut manager, ItemWrite::Insert(25, "Dee", 4))
            == Some(CommitReply::Committed(2))
    );
    manager.fold()?;
    let again = first.copy()?;
    assert!(&rt; shows(alloc, &first, 0, &[(10, 1), (20, 2), (30, 3)])?);
    assert!(&rt; shows(alloc, &second, 1, &[(10, 1), (30, 3)])?);
    assert!(&rt; shows(alloc, &again, 0, &[(10, 1), (20, 2), (30, 3)])?);
    assert!(&rt; has_rows(&manager, &[(10, 1), (25, 4), (30, 3)]));
    Ok(())
}

/// The newest version, kept: what begins over it is of the manager.
fn pinned(manager: &Manager) -> Result<Pin, NoMemory>
    ensures { IfOk result (λ pin. (client : ℕ) → IsOwn manager.now (begun_over pin client)) }
{
    manager.pin()
}

/// A transaction of a client that begins over a pin and makes one write.
fn begun_at(
    alloc: Global,
    manager: &Manager,
    pin: &Pin,
    client: u32,
    named: ItemWrite,
) -> Result<Txn, NoMemory>
    requires own { IsOwn manager.now (begun_over pin.now client) }
    ensures { IfOk result (λ txn. IsOwn manager.now txn) }
{
    let mut txn = pin.begin(alloc, client)?;
    match wrote(alloc, &mut txn, named) {
        Ok(WriteReply::Done) => Ok(txn),
        _ => {
            txn.abort();
            Err(NoMemory)
        }
    }
}

/// The replies to a commit, and to two that begin over a version from before it: one meets it, and one doesn't.
fn after_a_pin(alloc: Global, manager: &mut Manager) -> Result<[Option<CommitReply>; 3], NoMemory> {
    let pin = pinned(manager)?;
    let first = one_write(alloc, manager, ItemWrite::Set(30, 9));
    let meets = begun_at(alloc, manager, &pin, 1, ItemWrite::Set(30, 8))?;
    let second = decided(manager, meets);
    let passes = begun_at(alloc, manager, &pin, 2, ItemWrite::Set(10, 7))?;
    let third = decided(manager, passes);
    Ok([first, second, third])
}

#[test]
fn what_begins_over_a_pin_commits_as_of_then(rt: HostRuntime) -> Result<(), Fail> {
    let alloc = rt.alloc();
    let mut manager = opened(alloc, 64, MAX_ROWS)?;
    let replies = after_a_pin(alloc, &mut manager)?;
    assert!(&rt; replies[0] == Some(CommitReply::Committed(1)));
    assert!(&rt; replies[1] == Some(CommitReply::Conflict(1)));
    assert!(&rt; replies[2] == Some(CommitReply::Committed(2)));
    assert!(&rt; has_rows(&manager, &[(10, 7), (20, 2), (30, 9)]));
    Ok(())
}

/// Whether the commit of a number is kept, with these entries.
fn has_changes(alloc: Global, manager: &Manager, number: u64, due: &str) -> Result<bool, NoMemory> {
    match manager.changes(number) {
        Some(tree) => Ok(entries_text(alloc, tree.iter())?.as_str() == due),
        None => Ok(false),
    }
}

#[test]
fn the_last_commits_are_told(rt: HostRuntime) -> Result<(), Fail> {
    let alloc = rt.alloc();
    let mut manager = opened(alloc, 2, MAX_ROWS)?;
    assert!(&rt;
        one_write(alloc, &mut manager, ItemWrite::Delete(20)) == Some(CommitReply::Committed(1))
    );
    assert!(&rt; has_changes(alloc, &manager, 1, "1-20")?);
    assert!(&rt;
        one_write(alloc, &mut manager, ItemWrite::Set(30, 9)) == Some(CommitReply::Committed(2))
    );
    assert!(&rt;
        one_write(alloc, &mut manager, ItemWrite::Insert(40, "Eve", 5))
            == Some(CommitReply::Committed(3))
    );
    manager.fold()?;
    assert!(&rt; has_changes(alloc, &manager, 2, "1:2=9")?);
    assert!(&rt; has_changes(alloc, &manager, 3, "2+40,Eve,5")?);
    assert!(&rt; manager.kept_len() == 2);
    let is_gone = |number: u64| manager.changes(number).is_none();
    assert!(&rt; is_gone(0) && is_gone(1) && is_gone(4));
    let _history = manager.cut();
    assert!(&rt; manager.changes(3).is_none());
    assert!(&rt; manager.kept_len() == 0);
    Ok(())
}

#[test]
fn a_cut_hands_the_trees_out(rt: HostRuntime) -> Result<(), Fail> {
    let alloc = rt.alloc();
    let mut manager = opened(alloc, 2, MAX_ROWS)?;
    assert!(&rt;
        one_write(alloc, &mut manager, ItemWrite::Delete(20)) == Some(CommitReply::Committed(1))
    );
    let mut room = KeptTrees::room(alloc, manager.recent())?;
    let history = manager.cut_into(&mut room);
    assert!(&rt; (history.base(), history.len()) == (0, 1));
    assert!(&rt; (manager.base(), manager.kept_len()) == (1, 0));
    assert!(&rt;
        one_write(alloc, &mut manager, ItemWrite::Delete(10)) == Some(CommitReply::Committed(2))
    );
    assert!(&rt; has_changes(alloc, &manager, 2, "0-10")?);
    Ok(())
}

#[test]
fn a_cut_up_to_a_number_lets_older_trees_go(rt: HostRuntime) -> Result<(), Fail> {
    let alloc = rt.alloc();
    let mut manager = opened(alloc, 64, MAX_ROWS)?;
    assert!(&rt;
        one_write(alloc, &mut manager, ItemWrite::Delete(20)) == Some(CommitReply::Committed(1))
    );
    assert!(&rt;
        one_write(alloc, &mut manager, ItemWrite::Set(30, 9)) == Some(CommitReply::Committed(2))
    );
    let mut room = KeptTrees::room(alloc, manager.recent())?;
    manager.cut_to(1, &mut room);
    assert!(&rt; (manager.floor(), manager.base(), manager.kept_len()) == (1, 0, 1));
    assert!(&rt; manager.changes(1).is_none());
    assert!(&rt; has_changes(alloc, &manager, 2, "1:2=9")?);
    assert!(&rt;
        one_write(alloc, &mut manager, ItemWrite::Set(10, 6)) == Some(CommitReply::Committed(3))
    );
    let mut further = KeptTrees::room(alloc, manager.recent())?;
    manager.cut_to(9, &mut further);
    assert!(&rt; (manager.floor(), manager.base(), manager.kept_len()) == (3, 0, 0));
    assert!(&rt; has_rows(&manager, &[(10, 6), (30, 9)]));
    Ok(())
}

#[test]
fn a_manager_that_counts_keeps_no_record(rt: HostRuntime) -> Result<(), Fail> {
    let alloc = rt.alloc();
    let mut manager = opened(alloc, 64, MAX_ROWS)?;
    assert!(&rt;
        one_write(alloc, &mut manager, ItemWrite::Delete(20)) == Some(CommitReply::Committed(1))
    );
    manager.count_only();
    assert!(&rt; (manager.history().len(), manager.made()) == (1, 1));
    let old = begun_with(alloc, &manager, ItemWrite::Set(30, 8))?;
    assert!(&rt;
        one_write(alloc, &mut manager, ItemWrite::Set(30, 9)) == Some(CommitReply::Committed(2))
    );
    assert!(&rt; decided(&mut manager, old) == Some(CommitReply::Conflict(2)));
    assert!(&rt; manager.history().records().is_none());
    assert!(&rt; (manager.history().len(), manager.made()) == (3, 3));
    let history = manager.cut();
    assert!(&rt; history.records().is_none() && history.len() == 3);
    assert!(&rt; manager.history().records().is_none());
    assert!(&rt; has_rows(&manager, &[(10, 1), (30, 9)]));
    Ok(())
}
