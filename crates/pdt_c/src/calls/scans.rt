//! The cells of one column from a position on, numbers and texts, copied.
ghost use Rattle.std.specs.Prelude.{IsSome, IfSome, ◌≡◌, map, take, drop, length};
ghost use Rattle.stable.specs.Rows.{column_values};
ghost use Rattle.model.specs.Table.{rows_of};
ghost use Rattle.txn.specs.Txn.{image_of};
ghost use Rattle.pdt_c.specs.Cells.{numbers_of, texts_of};
ghost use Rattle.pdt_c.specs.Reads.{HandsCells};

use crate::handles::transaction::{Transaction, put, take};
use crate::shown_cells::{number_of, put_bytes};
use std::alloc::Global;
use txn::Txn;

/// Puts the cells of a column from a position on where C has room: a number for each, and the texts one after the other.
/// Answers how many, and `bytes` how many bytes the texts have. It stops before a cell that has no room.
#[unsafe(no_mangle)]
pub extern "C" fn pdtr_cells(
    alloc: Global,
    txn: &mut Transaction,
    col: usize,
    from: u64,
    numbers: &mut [i64],
    texts: &mut [u8],
    bytes: &mut usize,
) -> usize
    requires { IsSome txn.old.value }
    ensures kept { txn.new.value ≡ txn.old.value }
    ensures cells { IfSome txn.old.value (λ t. HandsCells t.txn col from result numbers.new texts.new bytes.new) }
{
    let open = take(alloc, txn);
    let rows = read_cells(&open.txn, col, from, numbers, texts, bytes);
    put(txn, open);
    rows
}

fn read_cells(
    txn: &Txn,
    col: usize,
    from: u64,
    numbers: &mut [i64],
    texts: &mut [u8],
    bytes: &mut usize,
) -> usize
    ensures { HandsCells txn.now col from result numbers.new texts.new bytes.new }
{
    let room = numbers.len();
    let mut rows = 0usize;
    let mut end = 0usize;
    let mut scan = txn.scan(from, txn.len());
    while rows < room {
        let Some(view) = scan.next() else { break };
        if col >= view.width() {
            break;
        }
        let value = view.value(col);
        let number = number_of(value);
        let next = put_bytes(value, texts, end);
        if next > texts.len() {
            break;
        }
        numbers[rows] = number;
        end = next;
        rows += 1;
    }
    *bytes = end;
    rows
}
