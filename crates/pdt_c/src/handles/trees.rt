//! C's handle of the trees of commits that were cut off.
ghost use Rattle.std.specs.Prelude.{◌≡◌, IsSome, Some, None};
ghost use Rattle.std.specs.declared.option.Option.{Option};
ghost use Rattle.manager.specs.declared.cut.KeptTrees.{KeptTrees};

use crate::handles::held::Held;
use manager::KeptTrees;
use std::alloc::Global;
use std::marker::Model;
use std::mem;

/// Nothing, or trees on the heap. C has it as a struct of one pointer, which is null before a call fills it.
#[repr(C)]
#[derive(Drop)]
pub struct Trees {
    at: *mut u8,
    alloc: Global,
    ghost value: { Option KeptTrees },
}

impl Model for Trees {
    ghost use Rattle.pdt_c.specs.Held.{owns_at};
    ghost use Rattle.manager.specs.contracts.cut.KeptTrees.{the_row};
    ghost use Rattle.std.specs.contracts.impls.GlobalAllocator.TheImpl.{ghosts};

    ghost also_owns = { λ h. owns_at (ghosts.dealloc_token h.alloc) the_row h.at h.value };
}

/// The handle that C keeps of what is held.
fn handle_of(held: Held<KeptTrees, Global>) -> Trees
    ensures { result.value ≡ held.value }
{
    let Held { at, alloc } = held;
    Trees {
        at: at as *mut u8,
        alloc,
    }
}

/// What a handle holds.
fn held_by(handle: Trees) -> Held<KeptTrees, Global>
    ensures { result.value ≡ handle.value }
{
    let Trees { at, alloc } = handle;
    Held {
        at: at as *mut KeptTrees,
        alloc,
    }
}

/// Fills a handle. What it held before is lost.
pub(crate) fn put(handle: &mut Trees, value: Box<KeptTrees>)
    ensures { handle.new.value ≡ Some value.value }
{
    *handle = handle_of(Held::of(value));
}

/// Takes what a handle holds, and leaves nothing.
pub(crate) fn take(alloc: Global, handle: &mut Trees) -> Box<KeptTrees>
    requires { IsSome handle.old.value }
    ensures value { handle.old.value ≡ Some result.value }
    ensures empty { handle.new.value ≡ None }
{
    held_by(mem::replace(handle, handle_of(Held::none(alloc)))).into_box()
}
