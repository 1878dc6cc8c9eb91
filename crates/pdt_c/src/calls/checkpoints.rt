//! A checkpoint while transactions commit: begun under the lock, made and written without it, and installed under it.
ghost use Rattle.std.specs.Prelude.{◌≡◌, ◌≢◌, IfOk, IsSome, IfSome, MatchResult, Some, None};
ghost use Rattle.txn.specs.Version.{table_version};
ghost use Rattle.manager.specs.Managed.{HasFolded, newest_version};
ghost use Rattle.manager.specs.Pinned.{pin_of};
ghost use Rattle.manager.specs.Restacked.{restacked_of, stable_below, stable_of};
ghost use Rattle.pdt_c.specs.declared.codes.TheConstants.{DONE};

use crate::calls::image_bytes::stored_columns;
use crate::codes::{DONE, NO_MEMORY, code_of_store};
use crate::handles::image::Image;
use crate::handles::next_table::{MadeTable, NextTable};
use crate::handles::pin::PinnedTable;
use crate::handles::store::Store;
use crate::handles::{image, next_table, pin, store};
use manager::{Manager, Pin};
use std::alloc::Global;
use std::sync::Arc;
use values::NoMemory;

/// Puts the newest version into a handle that holds nothing, under the layers that a fold would make. Nothing changes.
#[unsafe(no_mangle)]
pub extern "C" fn pdtr_share(alloc: Global, store: &mut Store, snapshot: &mut PinnedTable) -> u32
    requires { IsSome store.old.value }
    ensures kept { store.new.value ≡ store.old.value }
    ensures held { result ≡ DONE → IsSome snapshot.new.value }
    ensures shared { result ≡ DONE → IfSome store.old.value (λ m. IfSome snapshot.new.value (λ v.
        table_version v.version ≡ newest_version m)) }
    ensures refused { result ≢ DONE → snapshot.new.value ≡ snapshot.old.value }
{
    let manager = store::take(alloc, store);
    let shared = share(alloc, &manager);
    store::put(store, manager);
    match shared {
        Ok(version) => {
            pin::put(snapshot, version);
            DONE
        }
        Err(NoMemory) => NO_MEMORY,
    }
}

/// The newest version as a fold would leave it.
fn share(alloc: Global, manager: &Manager) -> Result<Box<Pin>, NoMemory>
    ensures { IfOk result (λ v. table_version v.value.version ≡ newest_version manager.now) }
{
    let folded = manager.prepare_fold()?;
    let shared = manager.pin_folded(&folded)?;
    let boxed = Box::new(alloc, shared)?;
    Ok(boxed)
}

/// Folds, and puts the newest version into a handle that holds nothing. What stands below the Write-PDT are its rows then,
/// and stay so until the next fold or checkpoint.
#[unsafe(no_mangle)]
pub extern "C" fn pdtr_checkpoint_begin(
    alloc: Global,
    store: &mut Store,
    snapshot: &mut PinnedTable,
) -> u32
    requires { IsSome store.old.value }
    ensures held { IsSome store.new.value }
    ensures begun { result ≡ DONE → IsSome snapshot.new.value }
    ensures folded { result ≡ DONE → IfSome store.old.value (λ m. IfSome store.new.value (HasFolded m)) }
    ensures version { result ≡ DONE → IfSome store.new.value (λ n.
        snapshot.new.value ≡ Some (pin_of n)) }
    ensures below { result ≡ DONE → IfSome store.new.value (λ n. IfSome snapshot.new.value (λ v.
        stable_of v.version ≡ stable_below n.layers)) }
    ensures refused { result ≢ DONE → (store.new.value ≡ store.old.value) × (snapshot.new.value ≡ snapshot.old.value) }
{
    let mut manager = store::take(alloc, store);
    let begun = begin(alloc, &mut manager);
    store::put(store, manager);
    match begun {
        Ok(version) => {
            pin::put(snapshot, version);
            DONE
        }
        Err(NoMemory) => NO_MEMORY,
    }
}

/// Folds, and shares the version then: nothing changes before all that it needs is made.
fn begin(alloc: Global, manager: &mut Manager) -> Result<Box<Pin>, NoMemory>
    ensures folded { MatchResult result (λ _. HasFolded manager.old manager.new) (λ _. manager.new ≡ manager.old) }
    ensures version { IfOk result (λ v. v.value ≡ pin_of manager.new) }
    ensures below { IfOk result (λ v. stable_of v.value.version ≡ stable_below manager.new.layers) }
{
    let folded = manager.prepare_fold()?;
    let shared = manager.pin_folded(&folded)?;
    let boxed = Box::new(alloc, shared)?;
    manager.install_fold(folded);
    Ok(boxed)
}

/// Makes the table of a version, into a handle that holds nothing. It reads no manager, so that transactions commit on.
#[unsafe(no_mangle)]
pub extern "C" fn pdtr_snapshot_table(
    alloc: Global,
    snapshot: &mut PinnedTable,
    table: &mut NextTable,
) -> u32
    requires { IsSome snapshot.old.value }
    ensures kept { snapshot.new.value ≡ snapshot.old.value }
    ensures done { result ≡ DONE → IfSome snapshot.old.value (λ v. table.new.value ≡ Some (stable_of v.version)) }
    ensures refused { result ≢ DONE → table.new.value ≡ table.old.value }
{
    let version = pin::take(alloc, snapshot);
    let made = table_of(alloc, &version);
    pin::put(snapshot, version);
    match made {
        Ok(made) => {
            next_table::put(table, made);
            DONE
        }
        Err(NoMemory) => NO_MEMORY,
    }
}

fn table_of(alloc: Global, version: &Pin) -> Result<Box<MadeTable>, NoMemory>
    ensures { IfOk result (λ made. made.value ≡ stable_of version.now.version) }
{
    let table = Arc::new(alloc, version.to_table(alloc)?)?;
    Ok(Box::new(alloc, MadeTable { table })?)
}

/// Puts the bytes that store a table, those of each column for itself, into a handle that holds nothing.
#[unsafe(no_mangle)]
pub extern "C" fn pdtr_table_image(alloc: Global, table: &mut NextTable, image: &mut Image) -> u32
    requires { IsSome table.old.value }
    ensures kept { table.new.value ≡ table.old.value }
    ensures done { result ≡ DONE → IsSome image.new.value }
    ensures refused { result ≢ DONE → image.new.value ≡ image.old.value }
{
    let made = next_table::take(alloc, table);
    let stored = stored_columns(alloc, &made.table);
    next_table::put(table, made);
    match stored {
        Ok(columns) => {
            image::put(image, columns);
            DONE
        }
        Err(fault) => code_of_store(fault),
    }
}

/// Makes a table the stable table of a manager whose rows below the Write-PDT it has. The Write-PDT stays, with what was
/// committed since the last fold, and no table changes.
#[unsafe(no_mangle)]
pub extern "C" fn pdtr_restack(alloc: Global, store: &mut Store, table: &mut NextTable) -> u32
    requires store { IsSome store.old.value }
    requires table { IsSome table.old.value }
    requires below { IfSome store.old.value (λ m. IfSome table.old.value (λ t. t ≡ stable_below m.layers)) }
    ensures held { IsSome store.new.value }
    ensures kept { table.new.value ≡ table.old.value }
    ensures done { result ≡ DONE → IfSome store.old.value (λ m. store.new.value ≡ Some (restacked_of m)) }
    ensures refused { result ≢ DONE → store.new.value ≡ store.old.value }
{
    let mut manager = store::take(alloc, store);
    let made = next_table::take(alloc, table);
    let code = match manager.restack(&made.table) {
        Ok(()) => DONE,
        Err(NoMemory) => NO_MEMORY,
    };
    next_table::put(table, made);
    store::put(store, manager);
    code
}

/// Lets a table go: a manager that has it as its stable table keeps it.
#[unsafe(no_mangle)]
pub extern "C" fn pdtr_table_close(alloc: Global, table: &mut NextTable)
    requires { IsSome table.old.value }
    ensures { table.new.value ≡ None }
{
    let _made = next_table::take(alloc, table);
}
