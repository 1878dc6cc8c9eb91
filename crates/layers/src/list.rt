//! A tree's entries in a list, in which they move past another tree where they are.
ghost use Rattle.std.specs.Prelude.{◌≡◌, ℕ, ◌*◌, ◌<◌, ◌≤◌, ◌^◌, None, IfOk, length};
ghost use Rattle.std.specs.List.{All};
ghost use Rattle.model.specs.Rebasing.{first_clash, rebased_entries};
ghost use Rattle.layers.specs.Over.{AreAligned};
ghost use Rattle.layers.specs.Passage.{IsListPassed};
ghost use Rattle.layers.specs.Shifts.{shifted_entries};

use crate::blocks::{BLOCK, count_below, move_rest, settle, settle_all, unshifted};
use crate::cursor::Cursor;
use crate::rebase::first_entries;
use crate::shift::Shift;
use delta::{DeltaTree, SharedEntry};
use model::{Clash, ConflictRule};
use std::alloc::Global;
use std::marker::Model;
use values::NoMemory;

/// The entries of a tree, in a list of blocks. What moves the rest of the list is added once for each block behind.
#[derive(Drop)]
pub(crate) struct EntryList {
    key_cols: usize,
    /// Each with its own SID, which its block's shift moves.
    entries: Vec<SharedEntry>,
    /// How far the entries of each block have moved.
    shifts: Vec<Shift>,
}

impl Model for EntryList {
    ghost use Rattle.std.specs.Prelude.{◌*◌, ◌≤◌, length};
    ghost use Rattle.delta.specs.Tree.{Tree};
    ghost use Rattle.model.specs.Entries.{IsLawful};
    ghost use Rattle.layers.specs.Shifts.{shifted_entries};

    ghost Value = { Tree };

    ghost view = { λ l. record { key_cols = l.key_cols; entries = shifted_entries l.shifts.items l.entries.items } };

    ghost invariant = { λ l. IsLawful l.key_cols (shifted_entries l.shifts.items l.entries.items)
        × (length l.entries.items ≤ length l.shifts.items * 256) };
}

impl EntryList {
    /// The entries of the tree, which share their changes.
    pub(crate) fn of(alloc: Global, tree: &DeltaTree) -> Result<EntryList, NoMemory>
        ensures { IfOk result (λ list. list ≡ tree.now) }
    {
        let entries = first_entries(alloc, tree, tree.len())?;
        let shifts = unshifted(alloc, entries.len())?;
        Ok(EntryList {
            key_cols: tree.key_cols(),
            entries,
            shifts,
        })
    }

    /// Past another tree, which is over the same image, or the first clash with one of its entries. Takes no memory.
    pub(crate) fn pass(self, rule: ConflictRule, other: &DeltaTree) -> Result<EntryList, Clash>
        requires { AreAligned self other.now }
        ensures { (w : AreAligned self other.now) → IsListPassed rule self other.now w result }
    {
        let EntryList {
            key_cols,
            entries,
            shifts,
        } = self;
        let mut entries = entries;
        let mut shifts = shifts;
        match move_past(rule, &mut entries, &mut shifts, other) {
            Some(clash) => Err(clash),
            None => Ok(EntryList {
                key_cols,
                entries,
                shifts,
            }),
        }
    }

    /// The tree of these entries.
    pub(crate) fn into_tree(self, alloc: Global) -> Result<DeltaTree, NoMemory>
        ensures { IfOk result (λ tree. tree ≡ self) }
    {
        let EntryList {
            key_cols,
            entries,
            shifts,
        } = self;
        let mut entries = entries;
        let mut shifts = shifts;
        settle_all(&mut entries, &mut shifts);
        Ok(DeltaTree::from_shared(alloc, key_cols, entries)?)
    }
}

/// Moves the entries past another tree over the same image, or finds the first clash with one of its. Those below its first
/// entry stand still, and those past its last one move alike.
fn move_past(
    rule: ConflictRule,
    entries: &mut [SharedEntry],
    shifts: &mut [Shift],
    other: &DeltaTree,
) -> Option<Clash>
    requires aligned { AreAligned (record { key_cols = other.now.key_cols; entries = shifted_entries shifts.old entries.old }) other.now }
    requires covered { length entries.old ≤ length shifts.old * 256 }
    ensures clash { result ≡ first_clash rule other.now.key_cols (shifted_entries shifts.old entries.old) other.now.entries }
    ensures moved { result ≡ None → shifted_entries shifts.new entries.new
        ≡ rebased_entries other.now.key_cols other.now.entries (shifted_entries shifts.old entries.old) }
{
    let mut cursor = Cursor::of(other);
    let mut index = match cursor.ahead.first() {
        Some(there) => count_below(entries, shifts, there.sid()),
        None => 0,
    };
    while index < entries.len() {
        if cursor.ahead.first().is_none() {
            move_rest(
                entries,
                shifts,
                index,
                Shift::net(cursor.added, cursor.gone),
            );
            return None;
        }
        settle(entries, shifts, index / BLOCK);
        let found = cursor.find(rule, index, &entries[index]);
        if let Some(clash) = found.clash {
            return Some(clash);
        }
        entries[index].move_to(found.rid);
        index += 1;
    }
    None
}
