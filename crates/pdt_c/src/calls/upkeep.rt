//! What keeps a table fast and small: folds, and cuts.
ghost use Rattle.std.specs.Prelude.{◌≡◌, ◌≢◌, ◌⊎◌, ◌++◌, [], IsSome, IfSome, Some, None};
ghost use Rattle.circular_buffer.specs.Buffer.{buffer};
ghost use Rattle.manager.specs.Kept.{kept_trees};
ghost use Rattle.manager.specs.Managed.{cut_of, cut_to_of, HasFolded};
ghost use Rattle.pdt_c.specs.declared.codes.TheConstants.{DONE};

use crate::codes::{DONE, NO_MEMORY};
use crate::handles::pin::PinnedTable;
use crate::handles::store::Store;
use crate::handles::trees::Trees;
use crate::handles::{pin, store, trees};
use manager::{KeptTrees, Manager};
use std::alloc::Global;
use values::NoMemory;

/// Folds the Write-PDT into the Read-PDT. Where memory is refused the layers stay as they were.
#[unsafe(no_mangle)]
pub extern "C" fn pdtr_fold(alloc: Global, store: &mut Store) -> u32
    requires { IsSome store.old.value }
    ensures held { IsSome store.new.value }
    ensures done { result ≡ DONE → IfSome store.old.value (λ m. IfSome store.new.value (HasFolded m)) }
    ensures refused { result ≢ DONE → store.new.value ≡ store.old.value }
{
    let mut manager = store::take(alloc, store);
    let code = match manager.fold() {
        Ok(()) => DONE,
        Err(NoMemory) => NO_MEMORY,
    };
    store::put(store, manager);
    code
}

/// Has the newest version share the Read-PDT of a version that is kept, which is equal and was packed. No table changes, and no layer.
#[unsafe(no_mangle)]
pub extern "C" fn pdtr_repack(alloc: Global, store: &mut Store, packed: &mut PinnedTable) -> u32
    requires store { IsSome store.old.value }
    requires packed { IsSome packed.old.value }
    requires same { IfSome store.old.value (λ m. IfSome packed.old.value (λ p. p.version.layers.read ≡ m.layers.read)) }
    ensures kept { store.new.value ≡ store.old.value }
    ensures pinned { packed.new.value ≡ packed.old.value }
{
    let mut manager = store::take(alloc, store);
    let version = pin::take(alloc, packed);
    let code = match manager.repack(&version) {
        Ok(()) => DONE,
        Err(NoMemory) => NO_MEMORY,
    };
    pin::put(packed, version);
    store::put(store, manager);
    code
}

/// Makes room for the trees of so many commits, for a cut, in a handle that holds nothing.
#[unsafe(no_mangle)]
pub extern "C" fn pdtr_room(alloc: Global, recent: usize, room: &mut Trees) -> u32
    ensures done { result ≡ DONE → IfSome room.new.value (λ r. r.trees ≡ buffer [] recent) }
    ensures held { result ≡ DONE → IsSome room.new.value }
    ensures refused { result ≢ DONE → room.new.value ≡ room.old.value }
{
    match KeptTrees::room(alloc, recent) {
        Ok(made) => match Box::new(alloc, made) {
            Ok(made) => {
                trees::put(room, made);
                DONE
            }
            Err(_) => NO_MEMORY,
        },
        Err(NoMemory) => NO_MEMORY,
    }
}

/// Cuts the history so far off: numbers of commits go on, and a transaction that began before comes too late. The trees of
/// the last commits go, in the time that dropping them takes.
#[unsafe(no_mangle)]
pub extern "C" fn pdtr_cut(alloc: Global, store: &mut Store)
    requires { IsSome store.old.value }
    ensures cut { IfSome store.old.value (λ m. store.new.value ≡ Some (cut_of m)) }
{
    let mut manager = store::take(alloc, store);
    let _history = manager.cut();
    store::put(store, manager);
}

/// Cuts in constant time: the trees of the last commits are in the handle then, in the place of the room for as many that it
/// holds.
#[unsafe(no_mangle)]
pub extern "C" fn pdtr_cut_into(alloc: Global, store: &mut Store, room: &mut Trees)
    requires store { IsSome store.old.value }
    requires held { IsSome room.old.value }
    requires room { IfSome store.old.value (λ m. IfSome room.old.value (λ r. r.trees ≡ buffer [] m.start.recent)) }
    ensures cut { IfSome store.old.value (λ m. store.new.value ≡ Some (cut_of m)) }
    ensures trees { IfSome store.old.value (λ m. IfSome room.new.value (λ r. r.trees ≡ buffer (kept_trees m) m.start.recent)) }
    ensures kept { IsSome room.new.value }
{
    let mut manager = store::take(alloc, store);
    let mut place = trees::take(alloc, room);
    let _history = manager.cut_into(&mut place);
    trees::put(room, place);
    store::put(store, manager);
}

/// Lets go of the trees of the commits up to this number, or of all of them: a transaction that began below it isn't decided any more,
/// and any other is decided as before. Nothing changes where they are let go already. The trees are in the handle then, in the place of
/// the room for as many as are kept. Takes the time that moving them takes, and no memory.
#[unsafe(no_mangle)]
pub extern "C" fn pdtr_cut_to(alloc: Global, store: &mut Store, number: u64, room: &mut Trees)
    requires store { IsSome store.old.value }
    requires held { IsSome room.old.value }
    requires room { IfSome store.old.value (λ m. IfSome room.old.value (λ r. r.trees ≡ buffer [] m.start.recent)) }
    ensures cut { IfSome store.old.value (λ m. store.new.value ≡ Some (cut_to_of number m)) }

    // What is handed out stood before what is left.
    ensures trees { IfSome store.old.value (λ m. IfSome room.new.value (λ r.
        r.trees.items ++ kept_trees (cut_to_of number m) ≡ kept_trees m)) }
    ensures kept { IsSome room.new.value }
{
    let mut manager = store::take(alloc, store);
    let mut place = trees::take(alloc, room);
    manager.cut_to(number, &mut place);
    trees::put(room, place);
    store::put(store, manager);
}

/// The number below which a transaction isn't decided any more where it began there: the trees of the commits up to it are let go.
#[unsafe(no_mangle)]
pub extern "C" fn pdtr_floor(alloc: Global, store: &mut Store) -> u64
    requires { IsSome store.old.value }
    ensures kept { store.new.value ≡ store.old.value }
    ensures number { IfSome store.old.value (λ m. result ≡ m.floor) }
{
    let manager = store::take(alloc, store);
    let floor = manager.floor();
    store::put(store, manager);
    floor
}

/// Lets the trees of a handle go, or the room.
#[unsafe(no_mangle)]
pub extern "C" fn pdtr_trees_close(alloc: Global, trees: &mut Trees)
    requires { IsSome trees.old.value }
    ensures { trees.new.value ≡ None }
{
    let _trees = trees::take(alloc, trees);
}
