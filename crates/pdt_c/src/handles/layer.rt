//! C's handle of a layer as it stood: its entries, which later writes, commits and folds leave alone.
ghost use Rattle.std.specs.Prelude.{◌≡◌, IfOk, IsSome, Some, None};
ghost use Rattle.std.specs.declared.option.Option.{Option};
ghost use Rattle.delta.specs.Tree.{Tree};

use crate::handles::held::Held;
use delta::{DeltaTree, SharedEntry};
use std::alloc::Global;
use std::marker::Model;
use std::mem;
use values::NoMemory;

/// The entries of a layer: in its tree, where a search finds their positions, and in a list, by their indices. Both share
/// the changes.
#[derive(Drop)]
pub(crate) struct LayerEntries {
    pub(crate) tree: DeltaTree,
    pub(crate) entries: Vec<SharedEntry>,
}

impl Model for LayerEntries {
    ghost use Rattle.std.specs.Prelude.{◌≡◌};
    ghost use Rattle.model.specs.Entries.{IsLawful};
    ghost use Rattle.delta.specs.Tree.{Tree};

    ghost Value = { Tree };

    ghost view = { λ l. l.tree };

    ghost invariant = { λ l. (l.entries.items ≡ l.tree.entries) × IsLawful l.tree.key_cols l.tree.entries };
}

impl LayerEntries {
    /// The entries of a tree. Copies no row.
    ///
    /// # Errors
    ///
    /// `NoMemory` where a growth is refused.
    pub(crate) fn of(alloc: Global, tree: &DeltaTree) -> Result<LayerEntries, NoMemory>
        ensures { IfOk result (λ layer. layer ≡ tree.now) }
    {
        let mut entries = Vec::with_capacity(alloc, tree.len())?;
        for entry in tree.iter() {
            entries.push(entry.copy()?)?;
        }
        Ok(LayerEntries {
            tree: tree.copy()?,
            entries,
        })
    }
}

/// Nothing, or a layer's entries on the heap. C has it as a struct of one pointer, which is null before a call fills it.
#[repr(C)]
#[derive(Drop)]
pub struct Layer {
    at: *mut u8,
    alloc: Global,
    ghost value: { Option Tree },
}

impl Model for Layer {
    ghost use Rattle.pdt_c.specs.Held.{owns_at};
    ghost use Rattle.pdt_c.specs.contracts.handles.layer.LayerEntries.{the_row};
    ghost use Rattle.std.specs.contracts.impls.GlobalAllocator.TheImpl.{ghosts};

    ghost also_owns = { λ h. owns_at (ghosts.dealloc_token h.alloc) the_row h.at h.value };
}

/// The handle that C keeps of what is held.
fn handle_of(held: Held<LayerEntries, Global>) -> Layer
    ensures { result.value ≡ held.value }
{
    let Held { at, alloc } = held;
    Layer {
        at: at as *mut u8,
        alloc,
    }
}

/// What a handle holds.
fn held_by(handle: Layer) -> Held<LayerEntries, Global>
    ensures { result.value ≡ handle.value }
{
    let Layer { at, alloc } = handle;
    Held {
        at: at as *mut LayerEntries,
        alloc,
    }
}

/// Fills a handle. What it held before is lost.
pub(crate) fn put(handle: &mut Layer, value: Box<LayerEntries>)
    ensures { handle.new.value ≡ Some value.value }
{
    *handle = handle_of(Held::of(value));
}

/// Takes what a handle holds, and leaves nothing.
pub(crate) fn take(alloc: Global, handle: &mut Layer) -> Box<LayerEntries>
    requires { IsSome handle.old.value }
    ensures value { handle.old.value ≡ Some result.value }
    ensures empty { handle.new.value ≡ None }
{
    held_by(mem::replace(handle, handle_of(Held::none(alloc)))).into_box()
}
