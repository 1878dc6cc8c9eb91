//! Opening a manager over a text whose header names no types.
ghost use Rattle.std.specs.Prelude.{◌≡◌, ◌≢◌, List, IfSome, IsSome, map};
ghost use Rattle.inputs.specs.Plain.{IsPlainFaultOf, names_types};
ghost use Rattle.inputs.specs.Reading.{AreRecordsOf, Fields};
ghost use Rattle.inputs.specs.declared.fault.PlainFault.{PlainFault as Fault};
ghost use Rattle.pdt_c.specs.Opening.{IsOpenedOnPlain};
ghost use Rattle.pdt_c.specs.TextFaults.{ExplainsPlain, told_of_plain};
ghost use Rattle.pdt_c.specs.declared.codes.TheConstants.{BAD_TABLE, DONE};

use crate::calls::opening::open_over;
use crate::codes::{DONE, NO_MEMORY};
use crate::handles::store::Store;
use crate::text_fault::{TextFault, explain, tell_plain};
use inputs::{PlainFault, find_types, has_types, load_plain_table};
use std::alloc::Global;

/// Says whether the header of a text names types.
#[unsafe(no_mangle)]
pub extern "C" fn pdtr_has_types(alloc: Global, text: &[u8], has: &mut bool) -> u32
    ensures done { result ≡ DONE → (records : List Fields) → AreRecordsOf text.now records → has.new ≡ names_types records }
    ensures refused { result ≢ DONE → has.new ≡ has.old }
{
    match has_types(alloc, text) {
        Ok(found) => {
            *has = found;
            DONE
        }
        Err(_) => NO_MEMORY,
    }
}

/// Opens a manager over the table of such a text, into a handle that holds nothing. The columns of these names are the key, or with no
/// names the first; the first `sample` records show the types. At `BAD_TABLE` the fault says why and where, and a sentence
/// explains it as of `pdtr_open`, but for a name of the key.
#[unsafe(no_mangle)]
pub extern "C" fn pdtr_open_plain(
    alloc: Global,
    text: &[u8],
    key: &[&[u8]],
    sample: usize,
    recent: usize,
    row_limit: u64,
    by_row: bool,
    fault: &mut TextFault,
    sentence: &mut [u8],
    said: &mut usize,
    store: &mut Store,
) -> u32
    // It is the text's table that is opened, under these limits and this rule.
    ensures done { result ≡ DONE → IfSome store.new.value
        (IsOpenedOnPlain text.now (map (λ name. name.now) key.now) sample row_limit recent by_row) }
    ensures held { result ≡ DONE → IsSome store.new.value }
    ensures refused { result ≢ DONE → store.new.value ≡ store.old.value }

    // What is told is the first fault of the text, and so is what the sentence explains.
    ensures bad { result ≡ BAD_TABLE
        → (first : Fault) × IsPlainFaultOf text.now (map (λ name. name.now) key.now) sample first × (fault.new ≡ told_of_plain first)
        × ExplainsPlain text.now sample first said.new sentence.new }
{
    match load_plain_table(alloc, text, key, sample) {
        Ok(table) => open_over(alloc, table, recent, row_limit, by_row, store),
        Err(first) => {
            *said = explain_plain(alloc, text, sample, first, sentence);
            tell_plain(first, fault)
        }
    }
}

/// Puts the sentence of a fault of such a text, as `explain` does; that of a name of the key has none.
fn explain_plain(
    alloc: Global,
    text: &[u8],
    sample: usize,
    fault: PlainFault,
    sentence: &mut [u8],
) -> usize
    ensures { ExplainsPlain text.now sample fault result sentence.new }
{
    let first = match fault {
        PlainFault::NoColumn(_) => return 0,
        PlainFault::Table(first) => first,
    };
    match find_types(alloc, text, sample) {
        Ok(types) => explain(alloc, text, types.as_slice(), first, sentence),
        Err(_) => 0,
    }
}
