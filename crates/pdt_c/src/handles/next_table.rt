//! C's handle of the table that a checkpoint makes.
ghost use Rattle.std.specs.Prelude.{◌≡◌, IsSome, Some, None};
ghost use Rattle.std.specs.declared.option.Option.{Option};
ghost use Rattle.stable.specs.Stable.{Stable};

use crate::handles::held::Held;
use stable::StableTable;
use std::alloc::Global;
use std::marker::Model;
use std::mem;
use std::sync::Arc;

/// A table that may become the stable table of a manager, which shares it then.
#[derive(Drop)]
pub(crate) struct MadeTable {
    pub(crate) table: Arc<StableTable>,
}

impl Model for MadeTable {
    ghost use Rattle.stable.specs.Stable.{Stable};

    ghost Value = { Stable };

    ghost view = { λ m. m.table.value };
}

/// Nothing, or such a table on the heap. C has it as a struct of one pointer, which is null before a call fills it.
#[repr(C)]
#[derive(Drop)]
pub struct NextTable {
    at: *mut u8,
    alloc: Global,
    ghost value: { Option Stable },
}

impl Model for NextTable {
    ghost use Rattle.pdt_c.specs.Held.{owns_at};
    ghost use Rattle.pdt_c.specs.contracts.handles.next_table.MadeTable.{the_row};
    ghost use Rattle.std.specs.contracts.impls.GlobalAllocator.TheImpl.{ghosts};

    ghost also_owns = { λ h. owns_at (ghosts.dealloc_token h.alloc) the_row h.at h.value };
}

/// The handle that C keeps of what is held.
fn handle_of(held: Held<MadeTable, Global>) -> NextTable
    ensures { result.value ≡ held.value }
{
    let Held { at, alloc } = held;
    NextTable {
        at: at as *mut u8,
        alloc,
    }
}

/// What a handle holds.
fn held_by(handle: NextTable) -> Held<MadeTable, Global>
    ensures { result.value ≡ handle.value }
{
    let NextTable { at, alloc } = handle;
    Held {
        at: at as *mut MadeTable,
        alloc,
    }
}

/// Fills a handle. What it held before is lost.
pub(crate) fn put(handle: &mut NextTable, value: Box<MadeTable>)
    ensures { handle.new.value ≡ Some value.value }
{
    *handle = handle_of(Held::of(value));
}

/// Takes what a handle holds, and leaves nothing.
pub(crate) fn take(alloc: Global, handle: &mut NextTable) -> Box<MadeTable>
    requires { IsSome handle.old.value }
    ensures value { handle.old.value ≡ Some result.value }
    ensures empty { handle.new.value ≡ None }
{
    held_by(mem::replace(handle, handle_of(Held::none(alloc)))).into_box()
}
