//! C's handle of the bytes of a checkpoint.
ghost use Rattle.std.specs.Prelude.{◌≡◌, IsSome, Some, None};
ghost use Rattle.std.specs.declared.option.Option.{Option};
ghost use Rattle.pdt_c.specs.declared.handles.image.Columns.{Columns};

use crate::handles::held::Held;
use std::alloc::Global;
use std::marker::Model;
use std::mem;

/// The bytes that store a table, those of each column for itself.
#[derive(Drop)]
pub(crate) struct Columns {
    pub(crate) bytes: Vec<Vec<u8>>,
}

/// Nothing, or the bytes of a checkpoint on the heap. C has it as a struct of one pointer, which is null before a call fills it.
#[repr(C)]
#[derive(Drop)]
pub struct Image {
    at: *mut u8,
    alloc: Global,
    ghost value: { Option Columns },
}

impl Model for Image {
    ghost use Rattle.pdt_c.specs.Held.{owns_at};
    ghost use Rattle.pdt_c.specs.contracts.handles.image.Columns.{the_row};
    ghost use Rattle.std.specs.contracts.impls.GlobalAllocator.TheImpl.{ghosts};

    ghost also_owns = { λ h. owns_at (ghosts.dealloc_token h.alloc) the_row h.at h.value };
}

/// The handle that C keeps of what is held.
fn handle_of(held: Held<Columns, Global>) -> Image
    ensures { result.value ≡ held.value }
{
    let Held { at, alloc } = held;
    Image {
        at: at as *mut u8,
        alloc,
    }
}

/// What a handle holds.
fn held_by(handle: Image) -> Held<Columns, Global>
    ensures { result.value ≡ handle.value }
{
    let Image { at, alloc } = handle;
    Held {
        at: at as *mut Columns,
        alloc,
    }
}

/// Fills a handle. What it held before is lost.
pub(crate) fn put(handle: &mut Image, value: Box<Columns>)
    ensures { handle.new.value ≡ Some value.value }
{
    *handle = handle_of(Held::of(value));
}

/// Takes what a handle holds, and leaves nothing.
pub(crate) fn take(alloc: Global, handle: &mut Image) -> Box<Columns>
    requires { IsSome handle.old.value }
    ensures value { handle.old.value ≡ Some result.value }
    ensures empty { handle.new.value ≡ None }
{
    held_by(mem::replace(handle, handle_of(Held::none(alloc)))).into_box()
}
