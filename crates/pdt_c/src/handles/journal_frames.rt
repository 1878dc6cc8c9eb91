//! C's handle of the frames of a journal.
ghost use Rattle.std.specs.Prelude.{◌≡◌, IsSome, Some, None};
ghost use Rattle.std.specs.declared.option.Option.{Option};
ghost use Rattle.replay.specs.Own.{Given};

use crate::handles::held::Held;
use replay::ReadFrames;
use std::alloc::Global;
use std::marker::Model;
use std::mem;

/// Nothing, or where the frames of a journal are that was read, on the heap. C has it as a struct of one pointer, which is null
/// before a call fills it.
#[repr(C)]
#[derive(Drop)]
pub struct JournalFrames {
    at: *mut u8,
    alloc: Global,
    ghost value: { Option Given },
}

impl Model for JournalFrames {
    ghost use Rattle.pdt_c.specs.Held.{owns_at};
    ghost use Rattle.replay.specs.contracts.journal_frames.ReadFrames.{the_row};
    ghost use Rattle.std.specs.contracts.impls.GlobalAllocator.TheImpl.{ghosts};

    ghost also_owns = { λ h. owns_at (ghosts.dealloc_token h.alloc) the_row h.at h.value };
}

/// The handle that C keeps of what is held.
fn handle_of(held: Held<ReadFrames, Global>) -> JournalFrames
    ensures { result.value ≡ held.value }
{
    let Held { at, alloc } = held;
    JournalFrames {
        at: at as *mut u8,
        alloc,
    }
}

/// What a handle holds.
fn held_by(handle: JournalFrames) -> Held<ReadFrames, Global>
    ensures { result.value ≡ handle.value }
{
    let JournalFrames { at, alloc } = handle;
    Held {
        at: at as *mut ReadFrames,
        alloc,
    }
}

/// Fills a handle. What it held before is lost.
pub(crate) fn put(handle: &mut JournalFrames, value: Box<ReadFrames>)
    ensures { handle.new.value ≡ Some value.value }
{
    *handle = handle_of(Held::of(value));
}

/// Takes what a handle holds, and leaves nothing.
pub(crate) fn take(alloc: Global, handle: &mut JournalFrames) -> Box<ReadFrames>
    requires { IsSome handle.old.value }
    ensures value { handle.old.value ≡ Some result.value }
    ensures empty { handle.new.value ≡ None }
{
    held_by(mem::replace(handle, handle_of(Held::none(alloc)))).into_box()
}
