//! What a transaction's image is made of: stable rows by their SIDs, and rows that layers change or insert. So an engine merges
//! columns of its own, which stay with it, by position.
ghost use Rattle.std.specs.Prelude.{◌≡◌, ◌≢◌, ℕ, true, false, IsSome, IfSome, length, get_or};
ghost use Rattle.merge.specs.Stretches.{IsStretch};
ghost use Rattle.pdt_c.specs.Spans.{HandsOwn, HandsSpans, IsSpanOf, TellsFirst, TellsOwn};

use crate::handles::transaction::{Transaction, put, take};
use merge::{RowView, Stretch};
use std::alloc::Global;
use txn::Txn;

/// Stable rows as they are.
pub(crate) const STABLE: u32 = 1;

/// A stable row of which layers modify columns.
pub(crate) const CHANGED: u32 = 2;

/// A row that a layer inserts.
pub(crate) const INSERTED: u32 = 3;

/// Rows of the image that stand together and come from one place.
#[repr(C)]
#[derive(Clone, Copy)]
pub struct Span {
    /// That of the first one in the image.
    pub position: u64,
    pub rows: u64,
    /// The SID of the first stable row, and 0 of a row that a layer inserts.
    pub sid: u64,
    pub source: u32,
}

/// Fills spans with what the rows between two positions are made of, as far as there are rows and room, and answers how many.
#[unsafe(no_mangle)]
pub extern "C" fn pdtr_stretches(
    alloc: Global,
    txn: &mut Transaction,
    from: u64,
    to: u64,
    spans: &mut [Span],
) -> usize
    requires { IsSome txn.old.value }
    ensures kept { txn.new.value ≡ txn.old.value }
    ensures spans { IfSome txn.old.value (λ t. HandsSpans t.txn from to (length spans.old) result spans.new) }
{
    let open = take(alloc, txn);
    let count = read_spans(&open.txn, from, to, spans);
    put(txn, open);
    count
}

/// Fills a byte for each column of the row at a position: 0 where its value is that of the stable row under it, and else 1.
/// Answers the SID of that row, and 0 where there is none, or no row at the position.
#[unsafe(no_mangle)]
pub extern "C" fn pdtr_own(alloc: Global, txn: &mut Transaction, rid: u64, own: &mut [u8]) -> u64
    requires { IsSome txn.old.value }
    ensures kept { txn.new.value ≡ txn.old.value }
    ensures own { IfSome txn.old.value (λ t. HandsOwn t.txn rid result own.new) }
{
    let open = take(alloc, txn);
    let sid = read_own(&open.txn, rid, own);
    put(txn, open);
    sid
}

fn read_spans(txn: &Txn, from: u64, to: u64, out: &mut [Span]) -> usize
    ensures { HandsSpans txn.now from to (length out.old) result out.new }
{
    let mut count = 0;
    let end = to.min(txn.len());
    let stretches = txn.placed_stretches(from, end);
    let mut position = stretches.rid();
    for stretch in stretches {
        if count >= out.len() {
            return count;
        }
        let span = span_of(stretch, position);
        out[count] = span;
        count += 1;
        position += span.rows;
    }
    count
}

/// The span of a stretch whose first row has this position.
fn span_of(stretch: Stretch<'_>, position: u64) -> Span
    requires { IsStretch 3 stretch }
    ensures { IsSpanOf stretch.entry position result }
{
    match stretch {
        Stretch::Stable(rows) => Span {
            position,
            rows: rows.len,
            sid: rows.sid,
            source: STABLE,
        },
        Stretch::Row(view) => match view.base_sid() {
            Some(sid) => Span {
                position,
                rows: 1,
                sid,
                source: CHANGED,
            },
            None => Span {
                position,
                rows: 1,
                sid: 0,
                source: INSERTED,
            },
        },
    }
}

fn read_own(txn: &Txn, rid: u64, own: &mut [u8]) -> u64
    ensures { HandsOwn txn.now rid result own.new }
{
    match txn.placed_stretches(rid, rid.saturating_add(1)).next() {
        Some(stretch) => put_first(stretch, own),
        None => {
            put_all(own, 1);
            0
        }
    }
}

/// Puts 0 where the first row of a stretch has the value of a stable row, and else 1, and answers the SID of that row.
fn put_first(stretch: Stretch<'_>, own: &mut [u8]) -> u64
    ensures { TellsFirst stretch.entry result own.new }
{
    match stretch {
        Stretch::Stable(rows) => {
            put_all(own, 0);
            rows.sid
        }
        Stretch::Row(view) => put_own(&view, own),
    }
}

/// Puts 1 where layers modify the column, and else 0, and answers the SID of the stable row; 1 everywhere where there is none.
fn put_own(view: &RowView<'_>, own: &mut [u8]) -> u64
    ensures { TellsOwn view.now result own.new }
{
    match view.base_sid() {
        Some(sid) => {
            for col in 0..own.len() {
                own[col] = byte_of(view.is_modified(col));
            }
            sid
        }
        None => {
            put_all(own, 1);
            0
        }
    }
}

/// Puts one byte everywhere.
fn put_all(own: &mut [u8], byte: u8)
    ensures { (col : ℕ) → get_or own.new col byte ≡ byte }
{
    for col in 0..own.len() {
        own[col] = byte;
    }
}

/// 1 where it is so.
fn byte_of(is: bool) -> u8
    ensures unset { result ≡ 0 → is ≡ false }
    ensures set { result ≢ 0 → is ≡ true }
{
    u8::from(is)
}
