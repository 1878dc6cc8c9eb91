//! A table that is made of the rows below the Write-PDT and takes their place: what that leaves of the manager, and of an open
//! transaction.
//!
//! One growth of a run is refused under `rt try --test --fail-alloc N`, for N from 1 on.
ghost use Rattle.std.specs.Prelude.{◌≡◌, IfOk, IfSome};
ghost use Rattle.manager.specs.Managed.{IsOwn};
ghost use Rattle.manager.specs.Restacked.{stable_below};
ghost use Rattle.txn.specs.Txn.{Transaction};

use super::cuts::has_layers;
use super::refusals::{Shown, is_shown};
use super::{begun_with, decided, has_rows, one_write, opened};
use model::CommitReply;
use pdtcli::Manager;
use stable::StableTable;
use std::alloc::Global;
use std::process::Abort;
use std::sync::Arc;
use std::test::Fail;
use test_fixtures::ItemWrite;
use values::NoMemory;
use values::limits::MAX_ROWS;

/// The newest rows as a stable table, where the Write-PDT has no entries: those are the rows below it.
fn table_below(alloc: Global, manager: &Manager) -> Result<Option<Arc<StableTable>>, NoMemory>
    ensures { IfOk result (λ found. IfSome found (λ table. table.value ≡ stable_below manager.now.layers)) }
{
    if manager.write_tree().len() > 0 {
        return Ok(None);
    }
    let table = manager.newest().to_table(alloc)?;
    Ok(Some(Arc::new(alloc, table)?))
}

/// What a manager shows after a commit and a fold.
static FOLDED: Shown = Shown {
    rows: &[(10, 1), (20, 2), (25, 4), (30, 3)],
    number: 1,
    records: 1,
};

/// Restacks the manager over the rows below its Write-PDT, once more where that was refused; whether it is done.
fn restacked(rt: &impl Abort, alloc: Global, manager: &mut Manager) -> bool
    ensures { (txn : Transaction) → IsOwn manager.old txn → IsOwn manager.new txn }
{
    let Ok(Some(table)) = table_below(alloc, manager) else {
        return false;
    };
    if manager.restack(&table) == Ok(()) {
        return true;
    }
    assert!(rt;
        is_shown(manager, &FOLDED),
        "the manager after a refused restack"
    );
    manager.restack(&table) == Ok(())
}

/// The replies to a commit, to one after a fold and a restack, and to that of a transaction that began before all.
fn replies_about(
    rt: &impl Abort,
    alloc: Global,
    manager: &mut Manager,
) -> Result<[Option<CommitReply>; 3], Fail> {
    let a = begun_with(alloc, manager, ItemWrite::Set(30, 9))?;
    let first = one_write(alloc, manager, ItemWrite::Insert(25, "Dee", 4));
    let folded = manager.fold();
    let is_restacked = restacked(rt, alloc, manager);
    let layers = has_layers(alloc, manager, "", 4);
    let second = one_write(alloc, manager, ItemWrite::Delete(25));
    let third = decided(manager, a);
    folded?;
    assert!(rt; is_restacked, "the restack");
    assert!(rt; layers?, "the layers after it");
    Ok([first, second, third])
}

#[test]
fn a_restack_spares_the_commits_and_an_open_transaction(rt: HostRuntime) -> Result<(), Fail> {
    let alloc = rt.alloc();
    let mut manager = opened(alloc, 64, MAX_ROWS)?;
    let replies = replies_about(&rt, alloc, &mut manager)?;
    assert!(&rt; replies[0] == Some(CommitReply::Committed(1)));
    assert!(&rt; replies[1] == Some(CommitReply::Committed(2)));
    assert!(&rt; replies[2] == Some(CommitReply::Committed(3)));
    assert!(&rt; has_rows(&manager, &[(10, 1), (20, 2), (30, 9)]));
    Ok(())
}
