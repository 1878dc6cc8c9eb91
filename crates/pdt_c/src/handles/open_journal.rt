//! C's handle of a journal's steps.
ghost use Rattle.std.specs.Prelude.{◌≡◌, IsSome, Some, None};
ghost use Rattle.std.specs.declared.option.Option.{Option};
ghost use Rattle.pdt_c.specs.Steps.{Journaling};

use crate::handles::held::Held;
use journal_steps::Steps;
use std::alloc::Global;
use std::marker::Model;
use std::mem;

/// The steps of a journal, and the frame of a commit that isn't added yet.
#[derive(Drop)]
pub(crate) struct OpenJournal {
    pub(crate) steps: Steps,
    /// The room of the frame's head and the parts so far, or no byte.
    pub(crate) draft: Vec<u8>,
}

impl Model for OpenJournal {
    ghost use Rattle.std.specs.Prelude.{◌≡◌, ◌≤◌, ◌⊎◌, [], length};
    ghost use Rattle.journal_steps.specs.Batch.{payload_in};
    ghost use Rattle.pdt_c.specs.Steps.{Journaling};

    ghost Value = { Journaling };

    ghost view = { λ o. record { progress = o.steps; parts = payload_in o.draft.items } };

    ghost invariant = { λ o. (o.draft.items ≡ []) ⊎ (28 ≤ length o.draft.items) };
}

/// Nothing, or a journal on the heap. C has it as a struct of one pointer, which is null before a call fills it.
#[repr(C)]
#[derive(Drop)]
pub struct Journal {
    at: *mut u8,
    alloc: Global,
    ghost value: { Option Journaling },
}

impl Model for Journal {
    ghost use Rattle.pdt_c.specs.Held.{owns_at};
    ghost use Rattle.pdt_c.specs.contracts.handles.open_journal.OpenJournal.{the_row};
    ghost use Rattle.std.specs.contracts.impls.GlobalAllocator.TheImpl.{ghosts};

    ghost also_owns = { λ h. owns_at (ghosts.dealloc_token h.alloc) the_row h.at h.value };
}

/// The handle that C keeps of what is held.
fn handle_of(held: Held<OpenJournal, Global>) -> Journal
    ensures { result.value ≡ held.value }
{
    let Held { at, alloc } = held;
    Journal {
        at: at as *mut u8,
        alloc,
    }
}

/// What a handle holds.
fn held_by(handle: Journal) -> Held<OpenJournal, Global>
    ensures { result.value ≡ handle.value }
{
    let Journal { at, alloc } = handle;
    Held {
        at: at as *mut OpenJournal,
        alloc,
    }
}

/// Fills a handle. What it held before is lost.
pub(crate) fn put(handle: &mut Journal, value: Box<OpenJournal>)
    ensures { handle.new.value ≡ Some value.value }
{
    *handle = handle_of(Held::of(value));
}

/// Takes what a handle holds, and leaves nothing.
pub(crate) fn take(alloc: Global, handle: &mut Journal) -> Box<OpenJournal>
    requires { IsSome handle.old.value }
    ensures value { handle.old.value ≡ Some result.value }
    ensures empty { handle.new.value ≡ None }
{
    held_by(mem::replace(handle, handle_of(Held::none(alloc)))).into_box()
}
