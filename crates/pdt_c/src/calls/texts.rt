//! The texts of one column from a position on, where they lie.
ghost use Rattle.std.specs.Prelude.{◌≡◌, ◌+◌, ◌++◌, ◌<◌, ◌≤◌, pos, IsSome, IfSome, length, min, set, take, drop};
ghost use denote.RawPtr.{Ptr, InBlock};
ghost use Rattle.values.specs.declared.value.ColumnType.TheVariants as column;
ghost use Rattle.merge.specs.Runs.{IsRun, run_values};
ghost use Rattle.merge.specs.declared.run.Run.TheVariants.{Texts as Together};
ghost use Rattle.pdt_c.specs.Cells.{numbers_of};
ghost use Rattle.pdt_c.specs.Texts.{AreThere, has_texts, lengths_from};

use crate::handles::transaction::{Transaction, put, take};
use merge::{Run, TextRun};
use std::alloc::Global;
use std::ptr::NonNull;
use txn::Txn;
use values::{ColumnType, ValueRef};

/// Puts the address and the length in bytes of each text of a column from a position on into C's rooms, as many as there
/// are and fit, and answers how many. No byte is copied. A column that isn't one of texts has none.
#[unsafe(no_mangle)]
pub extern "C" fn pdtr_texts(
    alloc: Global,
    txn: &mut Transaction,
    col: usize,
    from: u64,
    texts: &mut [*const u8],
    lens: &mut [i64],
) -> usize
    requires open { IsSome txn.old.value }
    requires rooms { length texts.old ≡ length lens.old }
    ensures kept { txn.new.value ≡ txn.old.value }
    ensures counted { IfSome txn.old.value (λ t. result ≡ min (length lens.old) (length (lengths_from t.txn col from))) }
    ensures lens { IfSome txn.old.value (λ t. take result lens.new ≡ take (length lens.old) (lengths_from t.txn col from)) }
    ensures there { AreThere result texts.new }
{
    let open = take(alloc, txn);
    let count = read_texts(&open.txn, col, from, texts, lens);
    put(txn, open);
    count
}

fn read_texts(txn: &Txn, col: usize, from: u64, texts: &mut [*const u8], lens: &mut [i64]) -> usize
    requires rooms { length texts.old ≡ length lens.old }
    ensures counted { result ≡ min (length lens.old) (length (lengths_from txn.now col from)) }
    ensures lens { take result lens.new ≡ take (length lens.old) (lengths_from txn.now col from) }
    ensures there { AreThere result texts.new }
{
    if !is_of_texts(txn, col) {
        return 0;
    }
    let to = from.saturating_add(lens.len() as u64).min(txn.len());
    let mut done = 0;
    for run in txn.column_runs(col, from, to) {
        done = put_run(run, texts, lens, done);
    }
    done
}

/// Whether there is a column of this number, and it is one of texts.
fn is_of_texts(txn: &Txn, col: usize) -> bool
    ensures { result ≡ has_texts txn.now col }
{
    match txn.schema().types().get(col) {
        Some(ColumnType::Text) => true,
        Some(ColumnType::Int | ColumnType::Bool) | None => false,
    }
}

/// Puts the texts of a run after the first `done`, and answers how many there are then.
fn put_run(run: Run<'_>, texts: &mut [*const u8], lens: &mut [i64], done: usize) -> usize
    requires typed { IsRun column.Text run }
    requires rooms { length texts.old ≡ length lens.old }
    requires room { done + length (run_values run) ≤ length lens.old }
    ensures rooms { (length texts.new ≡ length texts.old) × (length lens.new ≡ length lens.old) }
    ensures count { result ≡ done + length (run_values run.entry) }
    ensures lens { take result lens.new ≡ take done lens.old ++ numbers_of (run_values run.entry) }
    ensures there { AreThere done texts.old → AreThere result texts.new }
{
    match run {
        Run::Texts(together) => put_texts(together, texts, lens, done),
        Run::Value(ValueRef::Text(text)) => {
            put_text(text, texts, lens, done);
            done + 1
        }
        _ => unreachable!(),
    }
}

/// Puts the texts of a block after the first `done`, and answers how many there are then.
fn put_texts(run: TextRun<'_>, texts: &mut [*const u8], lens: &mut [i64], done: usize) -> usize
    requires within { run.first + run.count ≤ length run.texts.now }
    requires rooms { length texts.old ≡ length lens.old }
    requires room { done + run.count ≤ length lens.old }
    ensures rooms { (length texts.new ≡ length texts.old) × (length lens.new ≡ length lens.old) }
    ensures count { result ≡ done + run.entry.count }
    ensures lens { take result lens.new ≡ take done lens.old ++ numbers_of (run_values (Together run.entry)) }
    ensures there { AreThere done texts.old → AreThere result texts.new }
{
    let length = run.texts.len();
    prove!(run.first + run.count <= length);
    for i in 0..run.count {
        put_text(run.texts.get(run.first + i), texts, lens, done + i);
    }
    done + run.count
}

/// Puts where a text lies and how long it is at an index.
fn put_text(text: &str, texts: &mut [*const u8], lens: &mut [i64], at: usize)
    requires rooms { length texts.old ≡ length lens.old }
    requires room { at < length lens.old }
    ensures len { lens.new ≡ set lens.old at (pos (length text.now)) }
    ensures there { (address : Ptr) × InBlock address × (texts.new ≡ set texts.old at address) }
{
    texts[at] = address_of(text);
    lens[at] = text.len() as i64;
}

/// Where the bytes of a text begin; of an empty one, where some byte lies that is none of its own.
fn address_of(text: &str) -> *const u8
    ensures { InBlock result }
{
    let first = text.as_bytes().first().unwrap_or(&0);
    NonNull::from_ref(first).as_ptr() as *const u8
}
