//! A tree made consecutive to another one over the same image.
ghost use Rattle.std.specs.Prelude.{◌≡◌, ◌+◌, ◌≤◌, true, ◌∷◌, [], ◌++◌, Some, IfOk, OnOk, length, slice_get, take};
ghost use Rattle.delta.specs.Lent.{change_of};
ghost use Rattle.model.specs.Entries.{entry_at, is_modify, IsLawful};
ghost use Rattle.model.specs.Rebasing.{rebased_entries};
ghost use Rattle.layers.specs.Over.{AreAligned};
ghost use Rattle.layers.specs.Passing.{put_entries};
ghost use Rattle.layers.specs.Serialization.{IsSerialized};

use crate::beside::{SEARCH_RATIO, Search, first_clash};
use crate::clash::turned;
use delta::{ChangeRef, DeltaTree, SharedEntry, Sought};
use model::{Clash, ConflictRule};
use std::alloc::Global;
use values::NoMemory;

/// What becomes of a tree beside another one.
#[derive(Drop)]
pub enum Serialized {
    /// The tree, consecutive to the other one.
    Tree(DeltaTree),
    /// The first two entries that can't both be kept.
    Conflict(Clash),
}

/// The tree `x` made consecutive to `y`, which is over the same image, or the clash with the least index in `x`, then in
/// `y` (Héman et al. 2010, "Serialize"): by one look-up in `y` for each entry of `x`, and for a modify by row one more, or,
/// where `x` has more than a tenth of the entries of `y`, by one walk over both. Where `y` has no more than a tenth of the
/// entries of `x`, and all of those are before its first insert or delete, its own are looked up in `x`. The rule says
/// which modifies clash. The tree shares the rows of `x`, and where no entry moves its nodes, so that nothing is built.
///
/// # Errors
///
/// `NoMemory` where a growth is refused.
pub fn serialize(
    alloc: Global,
    x: &DeltaTree,
    y: &DeltaTree,
    rule: ConflictRule,
) -> Result<Serialized, NoMemory>
    requires { AreAligned x.now y.now }
    ensures { IfOk result (λ serialized. (w : AreAligned x.now y.now) → IsSerialized rule x.now y.now w serialized) }
{
    if y.len() <= x.len() / SEARCH_RATIO && moves_none(x, y) {
        return beside_still(rule, x, y);
    }
    let mut search = Search::of(y, x.len());
    let mut entries = Vec::new(alloc);
    let mut index = 0;
    for entry in x.iter() {
        let found = search.find(rule, index, entry);
        if let Some(clash) = found.clash {
            return Ok(Serialized::Conflict(clash));
        }
        put(alloc, x, index, entry, found.rid, &mut entries)?;
        index += 1;
    }
    if entries.is_empty() {
        return Ok(Serialized::Tree(x.copy()?));
    }
    Ok(Serialized::Tree(DeltaTree::from_shared(alloc, x.key_cols(), entries)?))
}

/// Whether no entry of `x` moves past `y`: all are before its first insert or delete.
pub(crate) fn moves_none(x: &DeltaTree, y: &DeltaTree) -> bool
    requires { x.now.key_cols ≡ y.now.key_cols }
    ensures { result ≡ true → x.now.entries ≡ rebased_entries y.now.key_cols y.now.entries x.now.entries }
{
    for entry in y.iter() {
        if !is_modify(entry.change()) {
            return x.find(entry.sid(), Sought::Change(entry.change())).index == x.len();
        }
    }
    true
}

/// Whether the change is a modify.
fn is_modify(change: ChangeRef<'_>) -> bool
    ensures { result ≡ is_modify (change_of change.entry) }
{
    match change {
        ChangeRef::Ins(_) | ChangeRef::Del(_) => false,
        ChangeRef::Mod(_, _) => true,
    }
}

/// What becomes of `x` beside `y`, past which none of its entries moves, by a descent in `x` for each entry of `y`.
fn beside_still(rule: ConflictRule, x: &DeltaTree, y: &DeltaTree) -> Result<Serialized, NoMemory>
    requires aligned { AreAligned x.now y.now }
    requires still { x.now.entries ≡ rebased_entries y.now.key_cols y.now.entries x.now.entries }
    ensures { IfOk result (λ serialized. (w : AreAligned x.now y.now) → IsSerialized rule x.now y.now w serialized) }
{
    match first_clash(rule, y, x) {
        Some(clash) => Ok(Serialized::Conflict(turned(clash))),
        None => Ok(Serialized::Tree(x.copy()?)),
    }
}

/// Puts the entry, which has the index in its tree, at the SID: nothing as long as it and those before it are there.
fn put(
    alloc: Global,
    tree: &DeltaTree,
    index: usize,
    entry: &SharedEntry,
    sid: u64,
    entries: &mut Vec<SharedEntry>,
) -> Result<(), NoMemory>
    requires { slice_get tree.now.entries index ≡ Some entry.now }
    ensures { OnOk result (put_entries (index + 1) tree.now.entries entries.new.items
        ≡ put_entries index tree.now.entries entries.old.items ++ entry_at sid entry.now.change ∷ []) }
{
    if entries.is_empty() {
        if sid == entry.sid() {
            return Ok(());
        }
        *entries = first_entries(alloc, tree, index)?;
    }
    entries.push(entry.with_sid(sid)?)?;
    Ok(())
}

/// So many of the first entries of a tree, with room for all.
pub(crate) fn first_entries(
    alloc: Global,
    tree: &DeltaTree,
    count: usize,
) -> Result<Vec<SharedEntry>, NoMemory>
    requires { count ≤ length tree.now.entries }
    ensures entries { IfOk result (λ entries. entries.items ≡ take count tree.now.entries) }
    ensures lawful { OnOk result (IsLawful tree.now.key_cols tree.now.entries) }
{
    let mut entries = Vec::with_capacity(alloc, tree.len())?;
    for entry in tree.iter() {
        if entries.len() == count {
            break;
        }
        entries.push(entry.copy()?)?;
    }
    Ok(entries)
}
