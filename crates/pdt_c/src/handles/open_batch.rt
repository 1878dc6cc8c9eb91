//! C's handle of the commits that are appended.
ghost use Rattle.std.specs.Prelude.{◌≡◌, IsSome, Some, None};
ghost use Rattle.std.specs.declared.option.Option.{Option};
ghost use Rattle.pdt_c.specs.Steps.{AppendingFields};

use crate::handles::held::Held;
use journal_steps::{Batch, Sealed};
use std::alloc::Global;
use std::marker::Model;
use std::mem;

/// A batch whose append is under way, before its heads are filled and after.
#[derive(Drop)]
pub(crate) struct Appending {
    pub(crate) taken: Option<Batch>,
    pub(crate) sealed: Option<Sealed>,
}

impl Model for Appending {
    ghost use Rattle.pdt_c.specs.Steps.{AppendingFields};

    ghost Value = { AppendingFields };

    ghost view = { λ a. record { taken = a.taken; sealed = a.sealed } };
}

/// Nothing, or a room for a batch on the heap. C has it as a struct of one pointer, which is null before a call fills it.
#[repr(C)]
#[derive(Drop)]
pub struct OpenBatch {
    at: *mut u8,
    alloc: Global,
    ghost value: { Option AppendingFields },
}

impl Model for OpenBatch {
    ghost use Rattle.pdt_c.specs.Held.{owns_at};
    ghost use Rattle.pdt_c.specs.contracts.handles.open_batch.Appending.{the_row};
    ghost use Rattle.std.specs.contracts.impls.GlobalAllocator.TheImpl.{ghosts};

    ghost also_owns = { λ h. owns_at (ghosts.dealloc_token h.alloc) the_row h.at h.value };
}

/// The handle that C keeps of what is held.
fn handle_of(held: Held<Appending, Global>) -> OpenBatch
    ensures { result.value ≡ held.value }
{
    let Held { at, alloc } = held;
    OpenBatch {
        at: at as *mut u8,
        alloc,
    }
}

/// What a handle holds.
fn held_by(handle: OpenBatch) -> Held<Appending, Global>
    ensures { result.value ≡ handle.value }
{
    let OpenBatch { at, alloc } = handle;
    Held {
        at: at as *mut Appending,
        alloc,
    }
}

/// Fills a handle. What it held before is lost.
pub(crate) fn put(handle: &mut OpenBatch, value: Box<Appending>)
    ensures { handle.new.value ≡ Some value.value }
{
    *handle = handle_of(Held::of(value));
}

/// Takes what a handle holds, and leaves nothing.
pub(crate) fn take(alloc: Global, handle: &mut OpenBatch) -> Box<Appending>
    requires { IsSome handle.old.value }
    ensures value { handle.old.value ≡ Some result.value }
    ensures empty { handle.new.value ≡ None }
{
    held_by(mem::replace(handle, handle_of(Held::none(alloc)))).into_box()
}
