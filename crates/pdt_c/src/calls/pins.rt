//! Versions that are kept: transactions begin over one whatever was committed since, without the manager.
ghost use Rattle.std.specs.Prelude.{◌≡◌, ◌≢◌, ℕ, IfOk, IsSome, IfSome, Some, None};
ghost use Rattle.manager.specs.Managed.{begun_at};
ghost use Rattle.manager.specs.Pinned.{begun_over, pin_of};
ghost use Rattle.pdt_c.specs.Marks.{unmarked};
ghost use Rattle.pdt_c.specs.declared.codes.TheConstants.{DONE};

use crate::codes::{DONE, NO_MEMORY};
use crate::handles::pin::PinnedTable;
use crate::handles::store::Store;
use crate::handles::transaction::Transaction;
use crate::handles::{pin, store, transaction};
use manager::{Manager, Pin};
use std::alloc::Global;
use values::NoMemory;

/// Keeps the newest version in a handle that holds nothing. Takes the same time whatever the table holds.
#[unsafe(no_mangle)]
pub extern "C" fn pdtr_pin(alloc: Global, store: &mut Store, pinned: &mut PinnedTable) -> u32
    requires { IsSome store.old.value }
    ensures kept { store.new.value ≡ store.old.value }
    ensures done { result ≡ DONE → IfSome store.old.value (λ m. pinned.new.value ≡ Some (pin_of m)) }

    // What begins over it is what begins now.
    ensures begins { result ≡ DONE → IfSome store.old.value (λ m. (client : ℕ) → begun_over (pin_of m) client ≡ begun_at m client) }
    ensures refused { result ≢ DONE → pinned.new.value ≡ pinned.old.value }
{
    let manager = store::take(alloc, store);
    let made = pin_newest(alloc, &manager);
    store::put(store, manager);
    match made {
        Ok(version) => {
            pin::put(pinned, version);
            DONE
        }
        Err(NoMemory) => NO_MEMORY,
    }
}

fn pin_newest(alloc: Global, manager: &Manager) -> Result<Box<Pin>, NoMemory>
    ensures pinned { IfOk result (λ made. made.value ≡ pin_of manager.now) }
    ensures begins { IfOk result (λ made. (client : ℕ) → begun_over made.value client ≡ begun_at manager.now client) }
{
    let made = manager.pin()?;
    Ok(Box::new(alloc, made)?)
}

/// Packs the Read-PDT of a version that is kept: the version stays the same, and reads no manager meanwhile.
#[unsafe(no_mangle)]
pub extern "C" fn pdtr_pack(alloc: Global, pinned: &mut PinnedTable) -> u32
    requires { IsSome pinned.old.value }
    ensures { pinned.new.value ≡ pinned.old.value }
{
    let version = pin::take(alloc, pinned);
    match pack(alloc, &version) {
        Ok(packed) => {
            pin::put(pinned, packed);
            DONE
        }
        Err(NoMemory) => {
            pin::put(pinned, version);
            NO_MEMORY
        }
    }
}

fn pack(alloc: Global, version: &Pin) -> Result<Box<Pin>, NoMemory>
    ensures { IfOk result (λ packed. packed.value ≡ version.now) }
{
    let packed = version.packed(alloc)?;
    Ok(Box::new(alloc, packed)?)
}

/// Keeps the version of a handle once more, in a handle that holds nothing.
#[unsafe(no_mangle)]
pub extern "C" fn pdtr_pin_again(
    alloc: Global,
    pinned: &mut PinnedTable,
    again: &mut PinnedTable,
) -> u32
    requires { IsSome pinned.old.value }
    ensures kept { pinned.new.value ≡ pinned.old.value }
    ensures done { result ≡ DONE → again.new.value ≡ pinned.old.value }
    ensures refused { result ≢ DONE → again.new.value ≡ again.old.value }
{
    let version = pin::take(alloc, pinned);
    let made = pin_again(alloc, &version);
    pin::put(pinned, version);
    match made {
        Ok(copied) => {
            pin::put(again, copied);
            DONE
        }
        Err(NoMemory) => NO_MEMORY,
    }
}

fn pin_again(alloc: Global, version: &Pin) -> Result<Box<Pin>, NoMemory>
    ensures { IfOk result (λ made. made.value ≡ version.now) }
{
    let copied = version.copy()?;
    Ok(Box::new(alloc, copied)?)
}

/// The number of a version that is kept: how many commits made its table.
#[unsafe(no_mangle)]
pub extern "C" fn pdtr_pinned(alloc: Global, pinned: &mut PinnedTable) -> u64
    requires { IsSome pinned.old.value }
    ensures kept { pinned.new.value ≡ pinned.old.value }
    ensures number { IfSome pinned.old.value (λ p. result ≡ p.version.number) }
{
    let version = pin::take(alloc, pinned);
    let number = version.number();
    pin::put(pinned, version);
    number
}

/// Begins a transaction of a client over a version that is kept, into a handle that holds nothing.
#[unsafe(no_mangle)]
pub extern "C" fn pdtr_begin_at(
    alloc: Global,
    pinned: &mut PinnedTable,
    client: u32,
    txn: &mut Transaction,
) -> u32
    requires { IsSome pinned.old.value }
    ensures kept { pinned.new.value ≡ pinned.old.value }
    ensures done { result ≡ DONE → IfSome pinned.old.value (λ p. txn.new.value ≡ Some (unmarked (begun_over p client))) }
    ensures refused { result ≢ DONE → txn.new.value ≡ txn.old.value }
{
    let version = pin::take(alloc, pinned);
    let code = begin_at(alloc, &version, client, txn);
    pin::put(pinned, version);
    code
}

fn begin_at(alloc: Global, version: &Pin, client: u32, txn: &mut Transaction) -> u32
    ensures done { result ≡ DONE → txn.new.value ≡ Some (unmarked (begun_over version.now client)) }
    ensures refused { result ≢ DONE → txn.new.value ≡ txn.old.value }
{
    match version.begin(alloc, client) {
        Ok(begun) => transaction::open(alloc, begun, txn),
        Err(NoMemory) => NO_MEMORY,
    }
}

/// Lets a version go. A transaction that began over it keeps it.
#[unsafe(no_mangle)]
pub extern "C" fn pdtr_unpin(alloc: Global, pinned: &mut PinnedTable)
    requires { IsSome pinned.old.value }
    ensures { pinned.new.value ≡ None }
{
    let _version = pin::take(alloc, pinned);
}
