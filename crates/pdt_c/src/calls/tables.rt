//! What a table has: its number, its columns, and how large its layers are.
ghost use Rattle.std.specs.Prelude.{◌≡◌, ℕ, IsSome, IfSome, length, slice_get};
ghost use Rattle.manager.specs.Managed.{newest_version};
ghost use Rattle.pdt_c.specs.Told.{IsPut, code_of_type};

use crate::handles::store;
use crate::handles::store::Store;
use crate::text_fault::put;
use manager::Manager;
use std::alloc::Global;
use values::ColumnType;

/// How many commits made the newest table.
#[unsafe(no_mangle)]
pub extern "C" fn pdtr_commits(alloc: Global, store: &mut Store) -> u64
    requires { IsSome store.old.value }
    ensures kept { store.new.value ≡ store.old.value }
    ensures number { IfSome store.old.value (λ m. result ≡ (newest_version m).number) }
{
    let manager = store::take(alloc, store);
    let number = manager.version().number();
    store::put(store, manager);
    number
}

/// How many entries the Write-PDT has: what a fold moves.
#[unsafe(no_mangle)]
pub extern "C" fn pdtr_write_entries(alloc: Global, store: &mut Store) -> usize
    requires { IsSome store.old.value }
    ensures kept { store.new.value ≡ store.old.value }
    ensures entries { IfSome store.old.value (λ m. result ≡ length m.layers.write.entries) }
{
    let manager = store::take(alloc, store);
    let count = manager.write_tree().len();
    store::put(store, manager);
    count
}

/// How many entries the Read-PDT has: what a checkpoint moves.
#[unsafe(no_mangle)]
pub extern "C" fn pdtr_read_entries(alloc: Global, store: &mut Store) -> usize
    requires { IsSome store.old.value }
    ensures kept { store.new.value ≡ store.old.value }
    ensures entries { IfSome store.old.value (λ m. result ≡ length m.layers.read.entries) }
{
    let manager = store::take(alloc, store);
    let count = manager.read_tree().len();
    store::put(store, manager);
    count
}

/// How many columns the table has.
#[unsafe(no_mangle)]
pub extern "C" fn pdtr_width(alloc: Global, store: &mut Store) -> usize
    requires { IsSome store.old.value }
    ensures kept { store.new.value ≡ store.old.value }
    ensures width { IfSome store.old.value (λ m. result ≡ length m.schema.types) }
{
    let manager = store::take(alloc, store);
    let width = manager.newest().schema().width();
    store::put(store, manager);
    width
}

/// How many of the first columns are the key.
#[unsafe(no_mangle)]
pub extern "C" fn pdtr_key_columns(alloc: Global, store: &mut Store) -> usize
    requires { IsSome store.old.value }
    ensures kept { store.new.value ≡ store.old.value }
    ensures count { IfSome store.old.value (λ m. result ≡ m.schema.key_cols) }
{
    let manager = store::take(alloc, store);
    let count = manager.newest().schema().key_cols();
    store::put(store, manager);
    count
}

/// The type of a column: 1 a number, 2 a text, 3 a truth, and 0 where there is no such column.
#[unsafe(no_mangle)]
pub extern "C" fn pdtr_type(alloc: Global, store: &mut Store, col: usize) -> u32
    requires { IsSome store.old.value }
    ensures kept { store.new.value ≡ store.old.value }
    ensures number { IfSome store.old.value (λ m. result ≡ code_of_type (slice_get m.schema.types col)) }
{
    let manager = store::take(alloc, store);
    let code = match manager.newest().schema().types().get(col) {
        Some(ColumnType::Int) => 1,
        Some(ColumnType::Text) => 2,
        Some(ColumnType::Bool) => 3,
        None => 0,
    };
    store::put(store, manager);
    code
}

/// Puts the name of a column where there is room, and answers how many bytes it has.
#[unsafe(no_mangle)]
pub extern "C" fn pdtr_name(alloc: Global, store: &mut Store, col: usize, out: &mut [u8]) -> usize
    requires { IsSome store.old.value }
    ensures kept { store.new.value ≡ store.old.value }
    ensures name { IfSome store.old.value (λ m. IfSome (slice_get m.schema.names col) (IsPut result out.new)) }
{
    let manager = store::take(alloc, store);
    let len = put_name(&manager, col, out);
    store::put(store, manager);
    len
}

fn put_name(manager: &Manager, col: usize, out: &mut [u8]) -> usize
    ensures { IfSome (slice_get manager.now.schema.names col) (IsPut result out.new) }
{
    let schema = manager.newest().schema();
    if col >= schema.width() {
        return 0;
    }
    put(schema.name(col).as_bytes(), out)
}
