//! The entries of a layer, shown to C in order: those of the newest version's Read- and Write-PDT, of a commit, and a
//! transaction's own.
ghost use Rattle.std.specs.Prelude.{◌≡◌, ◌≢◌, ◌-◌, ◌<◌, ◌≤◌, ◌⊎◌, IsSome, IfSome, Some, None, length, slice_get, take};
ghost use Rattle.model.specs.Entries.{IsLawful};
ghost use Rattle.model.specs.Merging.{merged_rows};
ghost use Rattle.model.specs.Places.{rid_of_insert};
ghost use Rattle.delta.specs.Lent.{change_of};
ghost use Rattle.txn.specs.Txn.{tree_of};
ghost use Rattle.manager.specs.Kept.{kept_tree, kept_trees, rows_at};
ghost use Rattle.pdt_c.specs.Cells.{numbers_of, texts_of};
ghost use Rattle.pdt_c.specs.Entries.{cells_of, column_of, entry_count, kind_of, HandsEntry};
ghost use Rattle.pdt_c.specs.declared.codes.TheConstants.{DONE, MISSING, NO_MEMORY, TOO_SMALL};

use crate::codes::{DONE, MISSING, NO_MEMORY};
use crate::handles::layer::{Layer, LayerEntries};
use crate::handles::store::Store;
use crate::handles::transaction::Transaction;
use crate::handles::{layer, store, transaction};
use crate::shown_cells::{put_cell, put_cells};
use delta::{ChangeRef, DeltaTree, SharedEntry, Sought};
use manager::Manager;
use std::alloc::Global;
use values::NoMemory;

/// Where an entry stands, and what it does there. Its cells stand in C's room.
#[repr(C)]
#[derive(Clone, Copy)]
pub struct LayerEntry {
    /// The position in the image below the layer.
    pub sid: u64,
    /// The position in the image above it: of the row that is inserted or changed, or the one that a deleted row had.
    pub rid: u64,
    /// The column of a modify, and else 0.
    pub column: usize,
    /// How many cells it has: all of the row that it inserts, those of the key that it deletes, or the one that it sets.
    pub cells: usize,
    /// How many bytes their texts have.
    pub bytes: usize,
    /// 1 an insert, 2 a delete, 3 a modify.
    pub kind: u32,
}

/// Fills a handle that holds nothing with the entries of the newest version's Read-PDT. Copies no row.
#[unsafe(no_mangle)]
pub extern "C" fn pdtr_read_layer(alloc: Global, store: &mut Store, layer: &mut Layer) -> u32
    requires { IsSome store.old.value }
    ensures kept { store.new.value ≡ store.old.value }
    ensures done { result ≡ DONE → IfSome store.old.value (λ m. layer.new.value ≡ Some m.layers.read) }
    ensures refused { result ≢ DONE → layer.new.value ≡ layer.old.value }
{
    let manager = store::take(alloc, store);
    let code = fill(alloc, manager.read_tree(), layer);
    store::put(store, manager);
    code
}

/// The same of its Write-PDT, over the image of the Read-PDT.
#[unsafe(no_mangle)]
pub extern "C" fn pdtr_write_layer(alloc: Global, store: &mut Store, layer: &mut Layer) -> u32
    requires { IsSome store.old.value }
    ensures kept { store.new.value ≡ store.old.value }
    ensures done { result ≡ DONE → IfSome store.old.value (λ m. layer.new.value ≡ Some m.layers.write) }
    ensures refused { result ≢ DONE → layer.new.value ≡ layer.old.value }
{
    let manager = store::take(alloc, store);
    let code = fill(alloc, manager.write_tree(), layer);
    store::put(store, manager);
    code
}

/// The same of a transaction's own tree, over the image that it began on.
#[unsafe(no_mangle)]
pub extern "C" fn pdtr_own_layer(alloc: Global, txn: &mut Transaction, layer: &mut Layer) -> u32
    requires { IsSome txn.old.value }
    ensures kept { txn.new.value ≡ txn.old.value }
    ensures done { result ≡ DONE → IfSome txn.old.value (λ t. layer.new.value ≡ Some (tree_of t.txn)) }
    ensures refused { result ≢ DONE → layer.new.value ≡ layer.old.value }
{
    let open = transaction::take(alloc, txn);
    let code = fill(alloc, open.txn.tree(), layer);
    transaction::put(txn, open);
    code
}

/// Fills a handle that holds nothing with what the commit of a number changed: its entries over the table of the number
/// before. Only the last commits since a cut are kept.
#[unsafe(no_mangle)]
pub extern "C" fn pdtr_changes(
    alloc: Global,
    store: &mut Store,
    number: u64,
    layer: &mut Layer,
) -> u32
    requires { IsSome store.old.value }
    ensures kept { store.new.value ≡ store.old.value }
    ensures done { result ≡ DONE → IfSome store.old.value (λ m. layer.new.value ≡ kept_tree m number) }
    ensures held { result ≡ DONE → IsSome layer.new.value }

    // Merged into the table of the number before, they are the table of this one.
    ensures merged { result ≡ DONE → IfSome store.old.value (λ m. IfSome layer.new.value (λ tree.
        merged_rows (rows_at m (number - 1)) tree.entries ≡ rows_at m number)) }
    ensures missing { result ≡ MISSING → IfSome store.old.value (λ m. kept_tree m number ≡ None) }
    ensures refused { result ≢ DONE → layer.new.value ≡ layer.old.value }
{
    let manager = store::take(alloc, store);
    let code = changes(alloc, &manager, number, layer);
    store::put(store, manager);
    code
}

fn changes(alloc: Global, manager: &Manager, number: u64, layer: &mut Layer) -> u32
    ensures done { result ≡ DONE → layer.new.value ≡ kept_tree manager.now number }
    ensures held { result ≡ DONE → IsSome layer.new.value }
    ensures merged { result ≡ DONE → IfSome layer.new.value (λ tree.
        merged_rows (rows_at manager.now (number - 1)) tree.entries ≡ rows_at manager.now number) }
    ensures missing { result ≡ MISSING → kept_tree manager.now number ≡ None }
    ensures refused { result ≢ DONE → layer.new.value ≡ layer.old.value }
{
    match manager.changes(number) {
        Some(tree) => fill(alloc, tree, layer),
        None => MISSING,
    }
}

/// How many of the last commits' changes are kept.
#[unsafe(no_mangle)]
pub extern "C" fn pdtr_kept(alloc: Global, store: &mut Store) -> usize
    requires { IsSome store.old.value }
    ensures kept { store.new.value ≡ store.old.value }
    ensures count { IfSome store.old.value (λ m. result ≡ length (kept_trees m)) }
{
    let manager = store::take(alloc, store);
    let count = manager.kept_len();
    store::put(store, manager);
    count
}

/// How many entries the changes of a commit have, where they are kept, and else 0.
#[unsafe(no_mangle)]
pub extern "C" fn pdtr_change_entries(alloc: Global, store: &mut Store, number: u64) -> usize
    requires { IsSome store.old.value }
    ensures kept { store.new.value ≡ store.old.value }
    ensures entries { IfSome store.old.value (λ m. result ≡ entry_count (kept_tree m number)) }
{
    let manager = store::take(alloc, store);
    let count = match manager.changes(number) {
        Some(tree) => tree.len(),
        None => 0,
    };
    store::put(store, manager);
    count
}

/// Fills a handle with the entries of a tree.
fn fill(alloc: Global, tree: &DeltaTree, layer: &mut Layer) -> u32
    ensures code { (result ≡ DONE) ⊎ (result ≡ NO_MEMORY) }
    ensures done { result ≡ DONE → layer.new.value ≡ Some tree.now }
    ensures refused { result ≢ DONE → layer.new.value ≡ layer.old.value }
{
    match LayerEntries::of(alloc, tree) {
        Ok(entries) => match Box::new(alloc, entries) {
            Ok(held) => {
                layer::put(layer, held);
                DONE
            }
            Err(_) => NO_MEMORY,
        },
        Err(NoMemory) => NO_MEMORY,
    }
}

/// Lets the entries of a handle go.
#[unsafe(no_mangle)]
pub extern "C" fn pdtr_layer_close(alloc: Global, layer: &mut Layer)
    requires { IsSome layer.old.value }
    ensures { layer.new.value ≡ None }
{
    let _entries = layer::take(alloc, layer);
}

/// How many entries a layer has.
#[unsafe(no_mangle)]
pub extern "C" fn pdtr_layer_len(alloc: Global, layer: &mut Layer) -> usize
    requires { IsSome layer.old.value }
    ensures kept { layer.new.value ≡ layer.old.value }
    ensures entries { IfSome layer.old.value (λ tree. result ≡ length tree.entries) }
{
    let held = layer::take(alloc, layer);
    let count = held.tree.len();
    layer::put(layer, held);
    count
}

/// Shows the entry at an index, with its cells where C has room. Its position takes one descent in the tree.
#[unsafe(no_mangle)]
pub extern "C" fn pdtr_entry(
    alloc: Global,
    layer: &mut Layer,
    index: usize,
    shown: &mut LayerEntry,
    numbers: &mut [i64],
    texts: &mut [u8],
) -> u32
    requires { IsSome layer.old.value }
    ensures kept { layer.new.value ≡ layer.old.value }
    ensures code { (result ≡ DONE) ⊎ (result ≡ MISSING) ⊎ (result ≡ TOO_SMALL) }

    // Where it is done, the entry's cells stand in C's room; where it is missing, the layer ends before it.
    ensures done { result ≡ DONE → IfSome layer.old.value (λ tree. HandsEntry tree index shown.new numbers.new texts.new) }
    ensures missing { result ≡ MISSING → IfSome layer.old.value (λ tree. slice_get tree.entries index ≡ None) }
    ensures small { result ≡ TOO_SMALL → shown.new.cells ≤ length numbers.old → length texts.old < shown.new.bytes }
{
    let held = layer::take(alloc, layer);
    let code = held.show(index, shown, numbers, texts);
    layer::put(layer, held);
    code
}

impl LayerEntries {
    fn show(
        &self,
        index: usize,
        shown: &mut LayerEntry,
        numbers: &mut [i64],
        texts: &mut [u8],
    ) -> u32
        ensures code { (result ≡ DONE) ⊎ (result ≡ MISSING) ⊎ (result ≡ TOO_SMALL) }
        ensures done { result ≡ DONE → HandsEntry self.now index shown.new numbers.new texts.new }
        ensures missing { result ≡ MISSING → slice_get self.now.entries index ≡ None }
        ensures small { result ≡ TOO_SMALL → shown.new.cells ≤ length numbers.old → length texts.old < shown.new.bytes }
    {
        match self.entries.get(index) {
            Some(entry) => show_entry(&self.tree, index, entry, shown, numbers, texts),
            None => MISSING,
        }
    }
}

/// Shows the entry of a tree that has this index.
fn show_entry(
    tree: &DeltaTree,
    index: usize,
    entry: &SharedEntry,
    shown: &mut LayerEntry,
    numbers: &mut [i64],
    texts: &mut [u8],
) -> u32
    requires lawful { IsLawful tree.now.key_cols tree.now.entries }
    requires there { slice_get tree.now.entries index ≡ Some entry.now }
    ensures code { (result ≡ DONE) ⊎ (result ≡ TOO_SMALL) }
    ensures done { result ≡ DONE → HandsEntry tree.now index shown.new numbers.new texts.new }
    ensures small { result ≡ TOO_SMALL → shown.new.cells ≤ length numbers.old → length texts.old < shown.new.bytes }
{
    let change = entry.change();
    let mut bytes = 0usize;
    let code = put_change(change, numbers, texts, &mut bytes);
    *shown = LayerEntry {
        sid: entry.sid(),
        rid: rid_of(tree, index, entry),
        column: column_of(change),
        cells: cell_count(change),
        bytes,
        kind: kind_of(change),
    };
    code
}

/// The position in the image above a tree of its entry at an index.
fn rid_of(tree: &DeltaTree, index: usize, entry: &SharedEntry) -> u64
    requires lawful { IsLawful tree.now.key_cols tree.now.entries }
    requires there { slice_get tree.now.entries index ≡ Some entry.now }
    ensures { result ≡ rid_of_insert (take index tree.now.entries) entry.now.sid }
{
    let place = tree.find(entry.sid(), Sought::Change(entry.change()));
    prove!(place.index == index);
    place.rid
}

/// Puts a change's cells where C has room for them, and `needed` says how many bytes their texts have.
fn put_change(
    change: ChangeRef<'_>,
    numbers: &mut [i64],
    texts: &mut [u8],
    needed: &mut usize,
) -> u32
    ensures code { (result ≡ DONE) ⊎ (result ≡ TOO_SMALL) }
    ensures numbers { result ≡ DONE → take (length (cells_of (change_of change.entry))) numbers.new
        ≡ numbers_of (cells_of (change_of change.entry)) }
    ensures texts { result ≡ DONE → take needed.new texts.new ≡ texts_of (cells_of (change_of change.entry)) }
    ensures small { result ≡ TOO_SMALL → length (cells_of (change_of change.entry)) ≤ length numbers.old
        → length texts.old < needed.new }
{
    match change {
        ChangeRef::Ins(row) => put_cells(row.cells(), numbers, texts, needed),
        ChangeRef::Del(key) => put_cells(key.cells(), numbers, texts, needed),
        ChangeRef::Mod(_, value) => put_cell(value, numbers, texts, needed),
    }
}

/// How many cells a change has.
fn cell_count(change: ChangeRef<'_>) -> usize
    ensures { result ≡ length (cells_of (change_of change.entry)) }
{
    match change {
        ChangeRef::Ins(row) => row.cells().len(),
        ChangeRef::Del(key) => key.cells().len(),
        ChangeRef::Mod(..) => 1,
    }
}

/// The column of a modify, and else 0.
fn column_of(change: ChangeRef<'_>) -> usize
    ensures { result ≡ column_of (change_of change.entry) }
{
    match change {
        ChangeRef::Ins(_) | ChangeRef::Del(_) => 0,
        ChangeRef::Mod(col, _) => col,
    }
}

/// The number of a change's kind.
fn kind_of(change: ChangeRef<'_>) -> u32
    ensures { result ≡ kind_of (change_of change.entry) }
{
    match change {
        ChangeRef::Ins(_) => 1,
        ChangeRef::Del(_) => 2,
        ChangeRef::Mod(..) => 3,
    }
}
