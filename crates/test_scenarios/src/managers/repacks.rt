//! A Read-PDT that is packed beside the manager, and what the newest version shares of it then.
ghost use Rattle.std.specs.Prelude.{◌≡◌, IfOk};
ghost use Rattle.manager.specs.Managed.{IsOwn};
ghost use Rattle.txn.specs.Txn.{Transaction};

use super::{begun_with, decided, has_rows, one_write, opened};
use manager::Pin;
use model::CommitReply;
use pdtcli::Manager;
use std::alloc::Global;
use std::test::Fail;
use test_fixtures::ItemWrite;
use values::NoMemory;
use values::limits::MAX_ROWS;

/// Whether the Read-PDT of the newest version is packed.
fn is_packed(manager: &Manager) -> bool {
    manager.version().read().packed().is_some()
}

/// The newest version, kept with its Read-PDT packed.
fn packed(alloc: Global, manager: &Manager) -> Result<Pin, NoMemory>
    ensures { IfOk result (λ pin. pin.version.layers.read ≡ manager.now.layers.read) }
{
    let pin = manager.pin()?;
    pin.packed(alloc)
}

/// Packs the Read-PDT of the newest version. Whether it was packed before, and is now.
fn repacked(alloc: Global, manager: &mut Manager) -> Result<(bool, bool), NoMemory>
    ensures own { (txn : Transaction) → IsOwn manager.old txn → IsOwn manager.new txn }
{
    let was = is_packed(manager);
    let pin = packed(alloc, manager)?;
    manager.repack(&pin)?;
    Ok((was, is_packed(manager)))
}

/// Commits a write, folds and packs. Whether it was packed before, and is now.
fn packed_after_a_fold(alloc: Global, manager: &mut Manager) -> Result<(bool, bool), NoMemory> {
    let _inserted = one_write(alloc, manager, ItemWrite::Insert(25, "Dee", 4));
    manager.fold()?;
    repacked(alloc, manager)
}

#[test]
fn a_read_pdt_is_packed(rt: HostRuntime) -> Result<(), Fail> {
    let alloc = rt.alloc();
    let mut manager = opened(alloc, 64, MAX_ROWS)?;
    let packed = packed_after_a_fold(alloc, &mut manager)?;
    assert!(&rt; packed == (false, true));
    assert!(&rt; has_rows(&manager, &[(10, 1), (20, 2), (25, 4), (30, 3)]));
    Ok(())
}

/// Whether a packed Read-PDT is still packed after a commit, and after the fold of it.
fn packed_later(alloc: Global, manager: &mut Manager) -> Result<(bool, bool), NoMemory> {
    let _packed = packed_after_a_fold(alloc, manager)?;
    let _deleted = one_write(alloc, manager, ItemWrite::Delete(10));
    let after_a_commit = is_packed(manager);
    manager.fold()?;
    Ok((after_a_commit, is_packed(manager)))
}

#[test]
fn it_is_packed_until_the_next_fold(rt: HostRuntime) -> Result<(), Fail> {
    let alloc = rt.alloc();
    let mut manager = opened(alloc, 64, MAX_ROWS)?;
    let packed = packed_later(alloc, &mut manager)?;
    assert!(&rt; packed == (true, false));
    assert!(&rt; has_rows(&manager, &[(20, 2), (25, 4), (30, 3)]));
    Ok(())
}

/// The reply to a transaction that began before the Read-PDT was packed.
fn decided_after_a_repack(
    alloc: Global,
    manager: &mut Manager,
) -> Result<Option<CommitReply>, NoMemory> {
    let txn = begun_with(alloc, manager, ItemWrite::Set(30, 9))?;
    let packed = repacked(alloc, manager);
    let reply = decided(manager, txn);
    packed?;
    Ok(reply)
}

#[test]
fn a_transaction_that_began_before_commits(rt: HostRuntime) -> Result<(), Fail> {
    let alloc = rt.alloc();
    let mut manager = opened(alloc, 64, MAX_ROWS)?;
    let reply = decided_after_a_repack(alloc, &mut manager)?;
    assert!(&rt; reply == Some(CommitReply::Committed(1)));
    assert!(&rt; has_rows(&manager, &[(10, 1), (20, 2), (30, 9)]));
    Ok(())
}
