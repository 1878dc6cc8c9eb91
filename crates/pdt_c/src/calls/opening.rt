//! Opening a manager: over a table's text, or over the columns that a checkpoint stored.
ghost use Rattle.std.specs.Prelude.{◌≡◌, ◌≢◌, ℕ, List, Ok, IfOk, IfSome, IsSome, Some, None, [], length, map};
ghost use Rattle.values.specs.declared.row.Row.{Row};
ghost use Rattle.values.specs.Shape as shape;
ghost use Rattle.stable.specs.Stable.{Stable};
ghost use Rattle.inputs.specs.Input.{IsFaultOf, IsTableOf};
ghost use Rattle.inputs.specs.declared.fault.TableFault.{TableFault as Fault};
ghost use Rattle.devices.specs.Stored as stored;
ghost use Rattle.manager.specs.Managed.{Managed};
ghost use Rattle.pdt_c.specs.Opening.{opened_counting, rule_of, IsOpenedOn, IsRecoveredOn};
ghost use Rattle.pdt_c.specs.TextFaults.{Explains, told_of};
ghost use Rattle.pdt_c.specs.declared.codes.TheConstants.{BAD_TABLE, DONE, NOT_ASCENDING, SHAPE};

use crate::codes::{DONE, NO_MEMORY, code_of_opening, code_of_reading, code_of_table};
use crate::handles::store::{Store, put, take};
use crate::text_fault::{TextFault, explain, tell};
use devices::read_store;
use inputs::load_table;
use manager::Manager;
use model::ConflictRule;
use stable::StableTable;
use std::alloc::Global;

/// What conflicts: changes of one row, or of one column of one row.
pub(crate) fn rule_of(by_row: bool) -> ConflictRule
    ensures { result ≡ rule_of by_row }
{
    if by_row {
        ConflictRule::ByRow
    } else {
        ConflictRule::ByColumn
    }
}

/// Opens a manager over the table of a text, into a handle that holds nothing. At `BAD_TABLE` the fault says why and where, and a sentence
/// of so many bytes explains it, which is put where there is room; it has none where a growth was refused.
#[unsafe(no_mangle)]
pub extern "C" fn pdtr_open(
    alloc: Global,
    text: &[u8],
    recent: usize,
    row_limit: u64,
    by_row: bool,
    fault: &mut TextFault,
    sentence: &mut [u8],
    said: &mut usize,
    store: &mut Store,
) -> u32
    // It is the text's table that is opened, under these limits and this rule.
    ensures done { result ≡ DONE → IfSome store.new.value (IsOpenedOn text.now row_limit recent by_row) }
    ensures held { result ≡ DONE → IsSome store.new.value }
    ensures refused { result ≢ DONE → store.new.value ≡ store.old.value }

    // What is told is the first fault of the text, and so is what the sentence explains.
    ensures bad { result ≡ BAD_TABLE → (first : Fault) × IsFaultOf text.now first × (fault.new ≡ told_of first)
        × Explains text.now [] first said.new sentence.new }
{
    match load_table(alloc, text) {
        Ok(table) => open_over(alloc, table, recent, row_limit, by_row, store),
        Err(first) => {
            *said = explain(alloc, text, &[], first, sentence);
            tell(first, fault)
        }
    }
}

/// Opens a manager over the image that columns store, into a handle that holds nothing. The header is a text that begins
/// with the names and the types of the columns.
#[unsafe(no_mangle)]
pub extern "C" fn pdtr_recover(
    alloc: Global,
    header: &[u8],
    columns: &[&[u8]],
    recent: usize,
    row_limit: u64,
    by_row: bool,
    generation: &mut u32,
    store: &mut Store,
) -> u32
    // It is the stored image that is opened, and the generation is that which stores it.
    ensures done { result ≡ DONE → IfSome store.new.value
        (IsRecoveredOn header.now (map (λ c. c.now) columns.now) row_limit recent by_row generation.new) }
    ensures held { result ≡ DONE → IsSome store.new.value }
    ensures refused { result ≢ DONE → store.new.value ≡ store.old.value }
{
    let empty = match load_table(alloc, header) {
        Ok(table) => table,
        Err(fault) => return code_of_table(fault),
    };
    match read_store(alloc, empty.schema(), columns) {
        Ok(image) => {
            *generation = image.generation;
            open_over(alloc, image.table, recent, row_limit, by_row, store)
        }
        Err(fault) => code_of_reading(fault),
    }
}

/// Puts a manager over a table into a handle. It keeps no records: its memory doesn't grow with the commits.
pub(crate) fn open_over(
    alloc: Global,
    table: StableTable,
    recent: usize,
    row_limit: u64,
    by_row: bool,
    store: &mut Store,
) -> u32
    ensures done { result ≡ DONE → store.new.value ≡ Some (opened_counting table row_limit recent (rule_of by_row)) }
    ensures refused { result ≢ DONE → store.new.value ≡ store.old.value }
    ensures other { (result ≢ SHAPE) × (result ≢ NOT_ASCENDING) }
    ensures well { result ≢ BAD_TABLE }
{
    match Manager::open(alloc, table, recent, row_limit, rule_of(by_row)) {
        Ok(opened) => {
            let mut manager = opened;
            manager.count_only();
            match Box::new(alloc, manager) {
                Ok(manager) => {
                    put(store, manager);
                    DONE
                }
                Err(_) => NO_MEMORY,
            }
        }
        Err(fault) => code_of_opening(fault),
    }
}

/// Closes a manager. Its transactions may go on reading.
#[unsafe(no_mangle)]
pub extern "C" fn pdtr_close(alloc: Global, store: &mut Store)
    requires { IsSome store.old.value }
    ensures { store.new.value ≡ None }
{
    let _manager = take(alloc, store);
}
