//! The numbers of one column from a position on, copied into C's room.
ghost use Rattle.std.specs.Prelude.{◌≡◌, IsSome, IfSome, length, min, take};
ghost use Rattle.pdt_c.specs.Numbers.{has_numbers, numbers_from};

use crate::handles::transaction::{Transaction, put, take};
use std::alloc::Global;
use txn::Txn;
use values::ColumnType;

/// Puts the numbers of a column from a position on into C's room, as many as there are and fit, and answers how many. A
/// column that isn't one of numbers has none.
#[unsafe(no_mangle)]
pub extern "C" fn pdtr_ints(
    alloc: Global,
    txn: &mut Transaction,
    col: usize,
    from: u64,
    out: &mut [i64],
) -> usize
    requires { IsSome txn.old.value }
    ensures kept { txn.new.value ≡ txn.old.value }
    ensures counted { IfSome txn.old.value (λ t. result ≡ min (length out.old) (length (numbers_from t.txn col from))) }
    ensures numbers { IfSome txn.old.value (λ t. take result out.new ≡ take (length out.old) (numbers_from t.txn col from)) }
{
    let open = take(alloc, txn);
    let count = read_ints(&open.txn, col, from, out);
    put(txn, open);
    count
}

fn read_ints(txn: &Txn, col: usize, from: u64, out: &mut [i64]) -> usize
    ensures counted { result ≡ min (length out.old) (length (numbers_from txn.now col from)) }
    ensures numbers { take result out.new ≡ take (length out.old) (numbers_from txn.now col from) }
{
    if !is_of_numbers(txn, col) {
        return 0;
    }
    txn.fill_numbers(col, from, out)
}

/// Whether there is a column of this number, and it is one of numbers.
pub(crate) fn is_of_numbers(txn: &Txn, col: usize) -> bool
    ensures { result ≡ has_numbers txn.now col }
{
    match txn.schema().types().get(col) {
        Some(ColumnType::Int) => true,
        Some(ColumnType::Text | ColumnType::Bool) | None => false,
    }
}
