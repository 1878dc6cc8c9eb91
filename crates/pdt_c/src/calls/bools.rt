//! The truths of one column from a position on, copied into C's room, a byte for each.
ghost use Rattle.std.specs.Prelude.{◌≡◌, ◌+◌, ◌<◌, ◌≤◌, Bool, List, true, IsSome, IfSome, length, min, take};
ghost use Rattle.values.specs.declared.value.ColumnType.TheVariants as column;
ghost use Rattle.values.specs.declared.value.Value.{Value};
ghost use Rattle.values.specs.declared.value.Value.TheVariants as cell;
ghost use Rattle.model.specs.Table.{rows_of};
ghost use Rattle.merge.specs.Packed.{AreNumbersOf, number_of};
ghost use Rattle.txn.specs.Txn.{image_of};
ghost use Rattle.pdt_c.specs.Reads.{column_from};
ghost use Rattle.pdt_c.specs.Truths.{LieTogether, byte_of, has_truths, truths_from, truths_of};

use crate::handles::transaction::{Transaction, put, take};
use merge::{Run, TruthRun};
use std::alloc::Global;
use txn::Txn;
use values::ColumnType;

/// So many numbers of truths are filled at once.
const AT_ONCE: usize = 1_024;

/// As many truths that lie together are copied from where they lie. Fewer are filled with others by their numbers: a look at what lies
/// together takes a descent in each tree.
const TOGETHER: usize = 512;

/// Puts the truths of a column from a position on into C's room, 1 for true and 0 for false, as many as there are and fit, and
/// answers how many. A column that isn't one of truths has none.
#[unsafe(no_mangle)]
pub extern "C" fn pdtr_bools(
    alloc: Global,
    txn: &mut Transaction,
    col: usize,
    from: u64,
    out: &mut [u8],
) -> usize
    requires { IsSome txn.old.value }
    ensures kept { txn.new.value ≡ txn.old.value }
    ensures counted { IfSome txn.old.value (λ t. result ≡ min (length out.old) (length (truths_from t.txn col from))) }
    ensures truths { IfSome txn.old.value (λ t. take result out.new ≡ take (length out.old) (truths_from t.txn col from)) }
{
    let open = take(alloc, txn);
    let count = read_bools(&open.txn, col, from, out);
    put(txn, open);
    count
}

fn read_bools(txn: &Txn, col: usize, from: u64, out: &mut [u8]) -> usize
    ensures counted { result ≡ min (length out.old) (length (truths_from txn.now col from)) }
    ensures truths { take result out.new ≡ take (length out.old) (truths_from txn.now col from) }
{
    if !is_of_truths(txn, col) {
        return 0;
    }
    let rows = txn.len().saturating_sub(from);
    let count = (out.len() as u64).min(rows) as usize;
    let mut numbers = [0; AT_ONCE];
    let mut done = 0;
    while done < count {
        let at = from + done as u64;
        done += fill_some(txn, col, at, &mut numbers, &mut out[done..count]);
    }
    count
}

/// Fills the begin of a part of C's room with truths from a position on, and answers how many: at least one.
fn fill_some(
    txn: &Txn,
    col: usize,
    from: u64,
    numbers: &mut [i64; AT_ONCE],
    out: &mut [u8],
) -> usize
    requires column { has_truths txn.now col ≡ true }
    requires some { 0 < length out.old }
    requires rows { from + length out.old ≤ length (rows_of (image_of txn.now)) }
    ensures length { length out.new ≡ length out.old }
    ensures some { 0 < result }
    ensures few { result ≤ length out.old }
    ensures truths { take result out.new ≡ take result (truths_of (column_from txn.now col from)) }
{
    if let Some(run) = together_at(txn, col, from, out.len()) {
        run.truths.put_bytes(run.first, &mut out[..run.count]);
        return run.count;
    }
    let more = out.len().min(AT_ONCE);
    fill_bytes(txn, col, from, &mut numbers[..more], &mut out[..more]);
    more
}

/// The truths from a position on that lie together, at most so many, where these are all of them or many.
fn together_at(txn: &Txn, col: usize, from: u64, most: usize) -> Option<TruthRun<'_>>
    requires column { has_truths txn.now col ≡ true }
    requires some { 0 < most }
    requires rows { from + most ≤ length (rows_of (image_of txn.now)) }
    ensures { IfSome result (λ run. LieTogether run most (column_from txn.now col from)) }
{
    let to = from.saturating_add(most as u64).min(txn.len());
    match txn.column_runs(col, from, to).next() {
        Some(Run::Truths(run)) if run.count >= TOGETHER || run.count == most => Some(run),
        _ => None,
    }
}

/// Whether there is a column of this number, and it is one of truths.
fn is_of_truths(txn: &Txn, col: usize) -> bool
    ensures { result ≡ has_truths txn.now col }
{
    match txn.schema().types().get(col) {
        Some(ColumnType::Bool) => true,
        Some(ColumnType::Int | ColumnType::Text) | None => false,
    }
}

/// Fills a part of C's room with the truths of as many rows from a position on, by their numbers, for which there is as much room.
fn fill_bytes(txn: &Txn, col: usize, from: u64, numbers: &mut [i64], out: &mut [u8])
    requires column { has_truths txn.now col ≡ true }
    requires rows { from + length out.old ≤ length (rows_of (image_of txn.now)) }
    requires room { length numbers.old ≡ length out.old }
    ensures length { length out.new ≡ length out.old }
    ensures truths { out.new ≡ take (length out.old) (truths_of (column_from txn.now col from)) }
{
    txn.fill_numbers(col, from, numbers);
    put_bytes(numbers, out);
}

/// Puts the bytes of truths into a room for as many, by their numbers.
fn put_bytes(numbers: &[i64], out: &mut [u8])
    requires { length numbers.now ≡ length out.old }
    ensures length { length out.new ≡ length out.old }
    ensures truths { (truths : List Value) → AreNumbersOf column.Bool truths numbers.now → out.new ≡ truths_of truths }
{
    for i in 0..numbers.len() {
        out[i] = byte_of(numbers[i]);
    }
}

/// The byte of a truth, by its number.
#[inline(always)]
fn byte_of(number: i64) -> u8
    ensures { (truth : Bool) → number ≡ number_of (cell.Bool truth) → result ≡ byte_of (cell.Bool truth) }
{
    u8::from(number != 0)
}
