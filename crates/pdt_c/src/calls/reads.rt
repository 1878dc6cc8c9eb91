//! What a transaction reads, row by row: the rows' number, a key's rank, the row of a key and the row at a position.
ghost use Rattle.std.specs.Prelude.{◌≡◌, ◌≢◌, ◌≤◌, IsSome, IfSome, None, length, slice_get};
ghost use Rattle.model.specs.Table.{rows_of};
ghost use Rattle.txn.specs.Txn.{image_of};
ghost use Rattle.pdt_c.specs.Reads.{HandsRow, HandsRowOf, HasNoneOf, NeedsRoom, NeedsRoomOf, Ranks};
ghost use Rattle.pdt_c.specs.declared.codes.TheConstants.{DONE, MISSING, TOO_SMALL};

use crate::calls::writes::given_key;
use crate::codes::{DONE, MISSING, code_of_cells};
use crate::handles::transaction::{Transaction, put, take};
use crate::shown_cells::put_row;
use std::alloc::Global;
use txn::Txn;

/// How many rows a transaction sees.
#[unsafe(no_mangle)]
pub extern "C" fn pdtr_rows(alloc: Global, txn: &mut Transaction) -> u64
    requires { IsSome txn.old.value }
    ensures kept { txn.new.value ≡ txn.old.value }
    ensures rows { IfSome txn.old.value (λ t. result ≡ length (image_of t.txn)) }
{
    let open = take(alloc, txn);
    let rows = open.txn.len();
    put(txn, open);
    rows
}

/// How many rows have a key below this one, and whether there is a row of the key.
#[unsafe(no_mangle)]
pub extern "C" fn pdtr_rank(
    alloc: Global,
    txn: &mut Transaction,
    numbers: &[i64],
    texts: &[u8],
    below: &mut u64,
    there: &mut bool,
) -> u32
    requires { IsSome txn.old.value }
    ensures kept { txn.new.value ≡ txn.old.value }
    ensures done { result ≡ DONE → IfSome txn.old.value (λ t. Ranks t.txn numbers.now texts.now below.new there.new) }
{
    let open = take(alloc, txn);
    let code = rank(alloc, &open.txn, numbers, texts, below, there);
    put(txn, open);
    code
}

fn rank(
    alloc: Global,
    txn: &Txn,
    numbers: &[i64],
    texts: &[u8],
    below: &mut u64,
    there: &mut bool,
) -> u32
    ensures { result ≡ DONE → Ranks txn.now numbers.now texts.now below.new there.new }
{
    match given_key(alloc, txn, numbers, texts) {
        Ok(key) => {
            let (rank, found) = txn.rank(&key);
            *below = rank;
            *there = found;
            DONE
        }
        Err(fault) => code_of_cells(fault),
    }
}

/// Puts the row of a key where C has room.
#[unsafe(no_mangle)]
pub extern "C" fn pdtr_get(
    alloc: Global,
    txn: &mut Transaction,
    numbers: &[i64],
    texts: &[u8],
    out_numbers: &mut [i64],
    out_texts: &mut [u8],
    needed: &mut usize,
) -> u32
    requires { IsSome txn.old.value }
    ensures kept { txn.new.value ≡ txn.old.value }

    // Where it is done, the row of the key stands in C's room; where it is missing, there is none.
    ensures done { result ≡ DONE → IfSome txn.old.value (λ t.
        HandsRowOf t.txn numbers.now texts.now out_numbers.new out_texts.new needed.new) }
    ensures missing { result ≡ MISSING → IfSome txn.old.value (λ t. HasNoneOf t.txn numbers.now texts.now) }
    ensures small { result ≡ TOO_SMALL → IfSome txn.old.value (λ t.
        NeedsRoomOf t.txn numbers.now texts.now (length out_numbers.old) (length out_texts.old) needed.new) }
{
    let open = take(alloc, txn);
    let code = get(
        alloc,
        &open.txn,
        numbers,
        texts,
        out_numbers,
        out_texts,
        needed,
    );
    put(txn, open);
    code
}

fn get(
    alloc: Global,
    txn: &Txn,
    numbers: &[i64],
    texts: &[u8],
    out_numbers: &mut [i64],
    out_texts: &mut [u8],
    needed: &mut usize,
) -> u32
    ensures done { result ≡ DONE → HandsRowOf txn.now numbers.now texts.now out_numbers.new out_texts.new needed.new }
    ensures missing { result ≡ MISSING → HasNoneOf txn.now numbers.now texts.now }
    ensures small { result ≡ TOO_SMALL
        → NeedsRoomOf txn.now numbers.now texts.now (length out_numbers.old) (length out_texts.old) needed.new }
{
    let key = match given_key(alloc, txn, numbers, texts) {
        Ok(key) => key,
        Err(fault) => return code_of_cells(fault),
    };
    match txn.get(&key) {
        Some(view) => put_row(view, out_numbers, out_texts, needed),
        None => MISSING,
    }
}

/// Puts the row at a position where C has room.
#[unsafe(no_mangle)]
pub extern "C" fn pdtr_row_at(
    alloc: Global,
    txn: &mut Transaction,
    rid: u64,
    out_numbers: &mut [i64],
    out_texts: &mut [u8],
    needed: &mut usize,
) -> u32
    requires { IsSome txn.old.value }
    ensures kept { txn.new.value ≡ txn.old.value }

    // Where it is done, the row at the position stands in C's room; where it is missing, the image ends before it.
    ensures done { result ≡ DONE → IfSome txn.old.value (λ t. HandsRow t.txn rid out_numbers.new out_texts.new needed.new) }
    ensures missing { result ≡ MISSING → IfSome txn.old.value (λ t. slice_get (rows_of (image_of t.txn)) rid ≡ None) }
    ensures small { result ≡ TOO_SMALL → IfSome txn.old.value (λ t.
        NeedsRoom t.txn rid (length out_numbers.old) (length out_texts.old) needed.new) }
{
    let open = take(alloc, txn);
    let code = row_at(&open.txn, rid, out_numbers, out_texts, needed);
    put(txn, open);
    code
}

fn row_at(
    txn: &Txn,
    rid: u64,
    out_numbers: &mut [i64],
    out_texts: &mut [u8],
    needed: &mut usize,
) -> u32
    ensures done { result ≡ DONE → HandsRow txn.now rid out_numbers.new out_texts.new needed.new }
    ensures missing { result ≡ MISSING → slice_get (rows_of (image_of txn.now)) rid ≡ None }
    ensures small { result ≡ TOO_SMALL → NeedsRoom txn.now rid (length out_numbers.old) (length out_texts.old) needed.new }
{
    match txn.row_at(rid) {
        Some(view) => put_row(view, out_numbers, out_texts, needed),
        None => MISSING,
    }
}
