//! A box as its pointer, or nothing.
ghost use Rattle.std.specs.Prelude.{◌≡◌, IsSome, Some, None};
ghost use Rattle.std.specs.declared.option.Option.{Option};

use std::alloc::Allocator;
use std::marker::Model;
use std::ptr;

/// Nothing, at null, or a value in a block of its own, which whoever has this owns.
pub(crate) struct Held<T, A: Allocator> {
    pub(crate) at: *mut T,
    pub(crate) alloc: A,
    pub(crate) ghost value: { Option T },
}

impl<T, A: Allocator> Model for Held<T, A> {
    ghost use Rattle.pdt_c.specs.Held.{owns_at};

    ghost also_owns = { λ h. owns_at (A.dealloc_token h.alloc) T.row h.at h.value };
}

impl<T: Drop, A: Allocator> Held<T, A> {
    /// Nothing.
    pub(crate) fn none(alloc: A) -> Held<T, A>
        ensures { result.value ≡ None }
    {
        Held {
            at: ptr::null_mut(),
            alloc,
        }
    }

    /// What a box holds.
    pub(crate) fn of(boxed: Box<T, A>) -> Held<T, A>
        ensures { result.value ≡ Some boxed.value }
    {
        let (at, alloc) = Box::into_raw_with_allocator(boxed);
        Held { at, alloc }
    }

    /// The box again.
    pub(crate) fn into_box(self) -> Box<T, A>
        requires { IsSome self.value }
        ensures { self.value ≡ Some result.value }
    {
        let Held { at, alloc } = self;
        unsafe { Box::from_raw(alloc, at) }
    }
}
