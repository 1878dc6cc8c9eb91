//! The numbers of one column between two positions, as pieces that stay where they lie.
ghost use Rattle.std.specs.Prelude.{◌≡◌, ◌<◌, ℤ, IsSome, IfSome, length};
ghost use Rattle.core.specs.Ptr.{as_ptr};
ghost use Rattle.merge.specs.Filling.{numbers_in};
ghost use Rattle.pdt_c.specs.Numbers.{HandsPieces, IsShown, numbers_between};

use crate::calls::ints::is_of_numbers;
use crate::handles::transaction::{Transaction, put, take};
use merge::NumberRun;
use std::alloc::Global;
use std::ptr;
use std::ptr::NonNull;
use txn::Txn;

/// Numbers of a column that stand together: so many from `at` on, or one that is given by value where `at` is null. They
/// lie in the stable table, which nobody writes, until the next write on the transaction, or its end.
#[repr(C)]
#[derive(Clone, Copy)]
pub struct Piece {
    pub at: *const i64,
    pub count: u64,
    pub number: i64,
}

/// How many pieces are filled, and how many rows they have.
#[derive(Clone, Copy)]
struct Filled {
    pieces: usize,
    rows: u64,
}

/// Fills pieces with the numbers of a column between two positions, as far as there are rows and pieces, and answers how many
/// pieces. No number is copied but that of a changed row. A column that isn't one of numbers has none.
#[unsafe(no_mangle)]
pub extern "C" fn pdtr_pieces(
    alloc: Global,
    txn: &mut Transaction,
    col: usize,
    from: u64,
    to: u64,
    pieces: &mut [Piece],
    rows: &mut u64,
) -> usize
    requires { IsSome txn.old.value }
    ensures kept { txn.new.value ≡ txn.old.value }
    ensures pieces { IfSome txn.old.value (λ t. HandsPieces (numbers_between t.txn col from to) (length pieces.old) result pieces.new rows.new) }
{
    let open = take(alloc, txn);
    let filled = read_pieces(&open.txn, col, from, to, pieces);
    put(txn, open);
    *rows = filled.rows;
    filled.pieces
}

fn read_pieces(txn: &Txn, col: usize, from: u64, to: u64, out: &mut [Piece]) -> Filled
    ensures { HandsPieces (numbers_between txn.now col from to) (length out.old) result.pieces out.new result.rows }
{
    let mut filled = Filled { pieces: 0, rows: 0 };
    if !is_of_numbers(txn, col) {
        return filled;
    }
    let end = to.min(txn.len());
    for run in txn.number_runs(col, from, end) {
        if filled.pieces >= out.len() {
            return filled;
        }
        let piece = piece_of(run);
        out[filled.pieces] = piece;
        filled.pieces += 1;
        filled.rows += piece.count;
    }
    filled
}

/// The piece that shows the numbers of a run.
fn piece_of(run: NumberRun<'_>) -> Piece
    requires some { 0 < length (numbers_in run) }
    ensures { IsShown result (numbers_in run.entry) }
{
    match run {
        NumberRun::Lent(numbers) => Piece {
            at: address_of(&numbers[0]),
            count: numbers.len() as u64,
            number: 0,
        },
        NumberRun::One(number) => Piece {
            at: ptr::null(),
            count: 1,
            number,
        },
    }
}

/// Where a number lies.
fn address_of(number: &i64) -> *const i64
    ensures { result ≡ as_ptr number.entry }
{
    NonNull::from_ref(number).as_ptr() as *const i64
}
