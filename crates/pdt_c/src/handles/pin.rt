//! C's handle of a version that is kept.
ghost use Rattle.std.specs.Prelude.{◌≡◌, IsSome, Some, None};
ghost use Rattle.std.specs.declared.option.Option.{Option};
ghost use Rattle.manager.specs.Pinned.{Pinned};

use crate::handles::held::Held;
use manager::Pin;
use std::alloc::Global;
use std::marker::Model;
use std::mem;

/// Nothing, or a version on the heap. C has it as a struct of one pointer, which is null before a call fills it.
#[repr(C)]
#[derive(Drop)]
pub struct PinnedTable {
    at: *mut u8,
    alloc: Global,
    ghost value: { Option Pinned },
}

impl Model for PinnedTable {
    ghost use Rattle.pdt_c.specs.Held.{owns_at};
    ghost use Rattle.manager.specs.contracts.pin.Pin.{the_row};
    ghost use Rattle.std.specs.contracts.impls.GlobalAllocator.TheImpl.{ghosts};

    ghost also_owns = { λ h. owns_at (ghosts.dealloc_token h.alloc) the_row h.at h.value };
}

/// The handle that C keeps of what is held.
fn handle_of(held: Held<Pin, Global>) -> PinnedTable
    ensures { result.value ≡ held.value }
{
    let Held { at, alloc } = held;
    PinnedTable {
        at: at as *mut u8,
        alloc,
    }
}

/// What a handle holds.
fn held_by(handle: PinnedTable) -> Held<Pin, Global>
    ensures { result.value ≡ handle.value }
{
    let PinnedTable { at, alloc } = handle;
    Held {
        at: at as *mut Pin,
        alloc,
    }
}

/// Fills a handle. What it held before is lost.
pub(crate) fn put(handle: &mut PinnedTable, value: Box<Pin>)
    ensures { handle.new.value ≡ Some value.value }
{
    *handle = handle_of(Held::of(value));
}

/// Takes what a handle holds, and leaves nothing.
pub(crate) fn take(alloc: Global, handle: &mut PinnedTable) -> Box<Pin>
    requires { IsSome handle.old.value }
    ensures value { handle.old.value ≡ Some result.value }
    ensures empty { handle.new.value ≡ None }
{
    held_by(mem::replace(handle, handle_of(Held::none(alloc)))).into_box()
}
