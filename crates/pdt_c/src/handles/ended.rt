//! C's handle of a transaction that is over.
ghost use Rattle.std.specs.Prelude.{◌≡◌, IsSome, Some, None};
ghost use Rattle.std.specs.declared.option.Option.{Option};
ghost use Rattle.pdt_c.specs.Marks.{Opened};

use crate::handles::held::Held;
use crate::handles::transaction::OpenTxn;
use std::alloc::Global;
use std::marker::Model;
use std::mem;

/// Nothing, or a transaction on the heap that is over, with what its commit let go of: it is freed where this is closed. C has it as a
/// struct of one pointer, which is null before a call fills it.
#[repr(C)]
#[derive(Drop)]
pub struct Ended {
    at: *mut u8,
    alloc: Global,
    ghost value: { Option Opened },
}

impl Model for Ended {
    ghost use Rattle.pdt_c.specs.Held.{owns_at};
    ghost use Rattle.pdt_c.specs.contracts.handles.transaction.OpenTxn.{the_row};
    ghost use Rattle.std.specs.contracts.impls.GlobalAllocator.TheImpl.{ghosts};

    ghost also_owns = { λ h. owns_at (ghosts.dealloc_token h.alloc) the_row h.at h.value };
}

/// The handle that C keeps of what is held.
fn handle_of(held: Held<OpenTxn, Global>) -> Ended
    ensures { result.value ≡ held.value }
{
    let Held { at, alloc } = held;
    Ended {
        at: at as *mut u8,
        alloc,
    }
}

/// What a handle holds.
fn held_by(handle: Ended) -> Held<OpenTxn, Global>
    ensures { result.value ≡ handle.value }
{
    let Ended { at, alloc } = handle;
    Held {
        at: at as *mut OpenTxn,
        alloc,
    }
}

/// Fills a handle. What it held before is lost.
pub(crate) fn put(handle: &mut Ended, value: Box<OpenTxn>)
    ensures { handle.new.value ≡ Some value.value }
{
    *handle = handle_of(Held::of(value));
}

/// Takes what a handle holds, and leaves nothing.
pub(crate) fn take(alloc: Global, handle: &mut Ended) -> Box<OpenTxn>
    requires { IsSome handle.old.value }
    ensures value { handle.old.value ≡ Some result.value }
    ensures empty { handle.new.value ≡ None }
{
    held_by(mem::replace(handle, handle_of(Held::none(alloc)))).into_box()
}
