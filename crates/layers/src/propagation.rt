//! A tree folded into the tree below it.
ghost use Rattle.std.specs.Prelude.{◌≡◌, IfOk, OnOk, Some, length, map};
ghost use Rattle.std.specs.Option.{option_copied};
ghost use Rattle.layers.specs.Over.{AreConsecutive};
ghost use Rattle.layers.specs.Propagation.{IsNext, next_tree, composed_tree};

use crate::walk::fold_all;
use delta::{ChangeRef, DeltaTree, Fold, SharedEntry};
use model::folds_to_composed;
use smallvec::SmallVec;
use std::alloc::Global;
use values::NoMemory;

/// Each upper entry is edited into the lower tree, and no tree built, where that has at least so many times as many.
const EDIT_RATIO: usize = 16;

/// The entries of an upper tree. So many are gathered without taking memory.
type Uppers<'a> = SmallVec<Option<&'a SharedEntry>, 31>;

/// The lower tree with the upper one, which is over its image, folded into it (Héman et al. 2010, "Propagate"): a copy
/// of the lower tree, with an edit for each upper entry, or, where those are many, a tree built in one walk over both.
/// Over a lower tree with no entries it is a copy of the upper one, which shares its nodes. Rows are shared: one is copied
/// only where a cell of it is set.
///
/// # Errors
///
/// `NoMemory` where a growth is refused.
pub fn propagate(alloc: Global, lower: &DeltaTree, upper: &DeltaTree) -> Result<DeltaTree, NoMemory>
    requires { AreConsecutive lower.now upper.now }
    ensures { IfOk result (λ tree. (w : AreConsecutive lower.now upper.now) → tree ≡ composed_tree lower.now upper.now w) }
{
    if lower.len() == 0 {
        fold_into_none(lower, upper)
    } else if upper.len() > lower.len() / EDIT_RATIO {
        fold_all(alloc, lower, upper)
    } else if upper.len() == 1 {
        fold_only(alloc, lower, upper)
    } else {
        fold_each(alloc, lower, upper)
    }
}

/// A copy of the upper tree, which is over a lower one with no entries.
fn fold_into_none(lower: &DeltaTree, upper: &DeltaTree) -> Result<DeltaTree, NoMemory>
    requires consecutive { AreConsecutive lower.now upper.now }
    requires none { length lower.now.entries ≡ 0 }
    ensures { IfOk result (λ tree. (w : AreConsecutive lower.now upper.now) → tree ≡ composed_tree lower.now upper.now w) }
{
    folds_to_composed();
    Ok(upper.copy()?)
}

/// A copy of the lower tree, with an edit for the only upper entry.
fn fold_only(alloc: Global, lower: &DeltaTree, upper: &DeltaTree) -> Result<DeltaTree, NoMemory>
    requires consecutive { AreConsecutive lower.now upper.now }
    requires only { length upper.now.entries ≡ 1 }
    ensures { IfOk result (λ tree. (w : AreConsecutive lower.now upper.now) → tree ≡ composed_tree lower.now upper.now w) }
{
    let mut tree = lower.copy()?;
    let mut entries = upper.iter();
    let Some(only) = entries.next() else {
        unreachable!()
    };
    fold_entry(alloc, &mut tree, only)?;
    Ok(tree)
}

/// A copy of the lower tree, with an edit for each upper entry.
fn fold_each(alloc: Global, lower: &DeltaTree, upper: &DeltaTree) -> Result<DeltaTree, NoMemory>
    requires { AreConsecutive lower.now upper.now }
    ensures { IfOk result (λ tree. (w : AreConsecutive lower.now upper.now) → tree ≡ composed_tree lower.now upper.now w) }
{
    let mut tree = lower.copy()?;
    let mut uppers = entries_of(alloc, upper)?;

    // From the last entry to the first: an edit moves no position below its own.
    while let Some(last) = uppers.pop() {
        let Some(upper) = last else { unreachable!() };
        fold_entry(alloc, &mut tree, upper)?;
    }
    Ok(tree)
}

/// The entries of a tree, in order.
fn entries_of(alloc: Global, tree: &DeltaTree) -> Result<Uppers<'_>, NoMemory>
    ensures { IfOk result (λ entries. map option_copied entries.items ≡ map (λ e. Some e) tree.now.entries) }
{
    let mut entries = SmallVec::new(alloc);
    for entry in tree.iter() {
        entries.push(Some(entry))?;
    }
    Ok(entries)
}

/// Folds one upper entry into the tree: above it all upper entries of greater keys are folded in already.
fn fold_entry(alloc: Global, tree: &mut DeltaTree, entry: &SharedEntry) -> Result<(), NoMemory>
    requires { IsNext tree.old entry.now }
    ensures ok { OnOk result ((w : IsNext tree.old entry.now) → tree.new ≡ next_tree tree.old entry.now w) }
{
    let change = entry.change();
    match tree.find_fold(entry.sid(), change) {
        Fold::Put(sid, start, end) => tree.put_run(start, end, entry.with_sid(sid)?),
        Fold::Into(index) => match change {
            ChangeRef::Ins(_) => unreachable!(),
            ChangeRef::Del(_) => tree.take_at(index),
            ChangeRef::Mod(col, value) => tree.set_at(index, col, value.copy(alloc)?),
        },
    }
}
