//! C's handle of an open transaction.
ghost use Rattle.std.specs.Prelude.{◌≡◌, ◌≢◌, IsSome, Some, None};
ghost use Rattle.std.specs.declared.option.Option.{Option};
ghost use Rattle.pdt_c.specs.Marks.{Opened, unmarked};
ghost use Rattle.pdt_c.specs.declared.codes.TheConstants.{DONE};

use crate::codes::{DONE, NO_MEMORY};
use crate::handles::held::Held;
use manager::Replaced;
use std::alloc::Global;
use std::marker::Model;
use std::mem;
use txn::{Mark, Txn};

/// An open transaction with its marks, which is let go by an abort. Once it is over, it has what its commit replaced too.
pub(crate) struct OpenTxn {
    pub(crate) txn: Txn,
    /// The oldest first.
    pub(crate) marks: Vec<Mark>,
    /// Nothing while it is open.
    replaced: Replaced,
}

impl Model for OpenTxn {
    ghost use Rattle.pdt_c.specs.Marks.{AreMarks, Opened};

    ghost Value = { Opened };

    ghost view = { λ o. record { txn = o.txn; marks = o.marks.items } };

    ghost invariant = { λ o. AreMarks o.txn o.marks.items };
}

impl OpenTxn {
    /// A transaction that has just begun.
    pub(crate) fn new(alloc: Global, txn: Txn) -> OpenTxn
        ensures { result ≡ unmarked txn }
    {
        OpenTxn {
            txn,
            marks: Vec::new(alloc),
            replaced: Replaced::none(),
        }
    }

    /// The transaction, for its commit.
    pub(crate) fn into_txn(self) -> Txn
        ensures { result ≡ self.txn }
    {
        let Self {
            txn,
            marks: _marks,
            replaced: _replaced,
        } = self;
        txn
    }

    /// Keeps what its commit has replaced, until it is let go itself.
    pub(crate) fn keep(&mut self, replaced: Replaced)
        ensures { self.new ≡ self.old }
    {
        self.replaced = replaced;
    }
}

impl Drop for OpenTxn {
    fn drop(self) {
        let Self {
            txn,
            marks: _marks,
            replaced: _replaced,
        } = self;
        txn.abort();
    }
}

/// Nothing, or an open transaction on the heap. C has it as a struct of one pointer, which is null before a call fills it.
#[repr(C)]
#[derive(Drop)]
pub struct Transaction {
    at: *mut u8,
    alloc: Global,
    ghost value: { Option Opened },
}

impl Model for Transaction {
    ghost use Rattle.pdt_c.specs.Held.{owns_at};
    ghost use Rattle.pdt_c.specs.contracts.handles.transaction.OpenTxn.{the_row};
    ghost use Rattle.std.specs.contracts.impls.GlobalAllocator.TheImpl.{ghosts};

    ghost also_owns = { λ h. owns_at (ghosts.dealloc_token h.alloc) the_row h.at h.value };
}

/// The handle that C keeps of what is held.
fn handle_of(held: Held<OpenTxn, Global>) -> Transaction
    ensures { result.value ≡ held.value }
{
    let Held { at, alloc } = held;
    Transaction {
        at: at as *mut u8,
        alloc,
    }
}

/// What a handle holds.
fn held_by(handle: Transaction) -> Held<OpenTxn, Global>
    ensures { result.value ≡ handle.value }
{
    let Transaction { at, alloc } = handle;
    Held {
        at: at as *mut OpenTxn,
        alloc,
    }
}

/// Fills a handle. What it held before is lost.
pub(crate) fn put(handle: &mut Transaction, value: Box<OpenTxn>)
    ensures { handle.new.value ≡ Some value.value }
{
    *handle = handle_of(Held::of(value));
}

/// Fills a handle with a transaction that has just begun, where there is memory.
pub(crate) fn open(alloc: Global, begun: Txn, handle: &mut Transaction) -> u32
    ensures done { result ≡ DONE → handle.new.value ≡ Some (unmarked begun) }
    ensures refused { result ≢ DONE → handle.new.value ≡ handle.old.value }
{
    match Box::new(alloc, OpenTxn::new(alloc, begun)) {
        Ok(open) => {
            put(handle, open);
            DONE
        }
        Err(_) => NO_MEMORY,
    }
}

/// Takes what a handle holds, and leaves nothing.
pub(crate) fn take(alloc: Global, handle: &mut Transaction) -> Box<OpenTxn>
    requires { IsSome handle.old.value }
    ensures value { handle.old.value ≡ Some result.value }
    ensures empty { handle.new.value ≡ None }
{
    held_by(mem::replace(handle, handle_of(Held::none(alloc)))).into_box()
}
