//! Entries in blocks: those of one share how far they have moved since their own SIDs were written.
ghost use Rattle.std.specs.Prelude.{◌≡◌, ℕ, T, ◌+◌, ◌*◌, ◌<◌, ◌≤◌, ◌^◌, Some, IfOk, drop, length, nat_lt, slice_get, slice_set, take};
ghost use Rattle.std.specs.List.{All, list_all};
ghost use Rattle.model.specs.declared.entry.Entry.{Entry};
ghost use Rattle.model.specs.Entries.{are_ordered};
ghost use Rattle.layers.specs.Shifts.{moved_between, no_shift, shift_at, shifted_by, shifted_entries};

use crate::shift::{Shift, move_all};
use delta::SharedEntry;
use std::alloc::Global;
use values::NoMemory;

/// So many entries are a block, and those that are left the last one.
pub(crate) const BLOCK: usize = 256;

/// A shift of no entry for each block of so many entries.
pub(crate) fn unshifted(alloc: Global, count: usize) -> Result<Vec<Shift>, NoMemory>
    ensures none { IfOk result (λ shifts. (index : ℕ) → shift_at shifts.items index ≡ no_shift) }
    ensures covered { IfOk result (λ shifts. count ≤ length shifts.items * 256) }
{
    Ok(vec![in alloc; Shift::none(); count.div_ceil(BLOCK)]?)
}

/// The index of a block's first entry, or of the end.
fn start_of(block: usize, count: usize) -> usize
    ensures within { result ≤ count }
    ensures below { result ≤ block * 256 }
    ensures there { result < count → result ≡ block * 256 }
{
    block.saturating_mul(BLOCK).min(count)
}

/// Writes how far the entries of a block have moved into their own SIDs.
pub(crate) fn settle(entries: &mut [SharedEntry], shifts: &mut [Shift], block: usize)
    requires { All (λ e. e.sid < 2 ^ 64) (shifted_entries shifts.old entries.old) }
    ensures same { shifted_entries shifts.new entries.new ≡ shifted_entries shifts.old entries.old }
    ensures shifts { shifts.new ≡ slice_set shifts.old block no_shift }
{
    let Some(shift) = shifts.get(block) else {
        return;
    };
    let shift = *shift;
    if shift.is_none() {
        return;
    }
    let start = start_of(block, entries.len());
    let end = start_of(block + 1, entries.len());
    move_all(&mut entries[start..end], shift);
    shifts[block] = Shift::none();
}

/// Writes how far the entries of each block have moved into their own SIDs.
pub(crate) fn settle_all(entries: &mut [SharedEntry], shifts: &mut [Shift])
    requires { All (λ e. e.sid < 2 ^ 64) (shifted_entries shifts.old entries.old) }
    ensures { entries.new ≡ shifted_entries shifts.old entries.old }
{
    for block in 0..shifts.len() {
        settle(entries, shifts, block);
    }
}

/// Moves the entries of a block.
fn move_block(entries: &mut [SharedEntry], shifts: &mut [Shift], block: usize, shift: Shift)
    requires block { block < length shifts.old }
    requires before { All (λ e. e.sid < 2 ^ 64) (shifted_entries shifts.old entries.old) }
    requires after { All (λ e. e.sid < 2 ^ 64)
        (moved_between (block * 256) (block * 256 + 256) (shifted_by shift) (shifted_entries shifts.old entries.old)) }
    ensures { shifted_entries shifts.new entries.new
        ≡ moved_between (block * 256) (block * 256 + 256) (shifted_by shift) (shifted_entries shifts.old entries.old) }
{
    if let Some(both) = shifts[block].then(shift) {
        shifts[block] = both;
        return;
    }
    settle(entries, shifts, block);
    let start = start_of(block, entries.len());
    let end = start_of(block + 1, entries.len());
    move_all(&mut entries[start..end], shift);
}

/// Moves the entries from an index on.
pub(crate) fn move_rest(
    entries: &mut [SharedEntry],
    shifts: &mut [Shift],
    index: usize,
    shift: Shift,
)
    requires index { index < length entries.old }
    requires covered { length entries.old ≤ length shifts.old * 256 }
    requires few { shift.up < 2 ^ 62 }
    requires before { All (λ e. e.sid < 2 ^ 64) (shifted_entries shifts.old entries.old) }
    requires placed { All (λ e. e.sid < 2 ^ 63) (drop index (shifted_entries shifts.old entries.old)) }
    ensures { shifted_entries shifts.new entries.new
        ≡ moved_between index (length entries.old) (shifted_by shift) (shifted_entries shifts.old entries.old) }
{
    if shift.is_none() {
        return;
    }
    let next = index / BLOCK + 1;
    settle(entries, shifts, index / BLOCK);
    let end = start_of(next, entries.len());
    move_all(&mut entries[index..end], shift);
    for block in next..shifts.len() {
        move_block(entries, shifts, block, shift);
    }
}

/// How many of the entries, which are in order, are below the SID.
pub(crate) fn count_below(entries: &[SharedEntry], shifts: &[Shift], sid: u64) -> usize
    requires { All (λ e. e.sid < 2 ^ 64) (shifted_entries shifts.now entries.now) }
    ensures within { result ≤ length entries.now }
    ensures below { (key_cols : ℕ) → T (are_ordered key_cols (shifted_entries shifts.now entries.now))
        → T (list_all (λ e. nat_lt e.sid sid) (take result (shifted_entries shifts.now entries.now))) }
{
    let mut low = 0;
    let mut high = entries.len();
    while low < high {
        let middle = low + (high - low) / 2;
        if sid_at(entries, shifts, middle) < sid {
            low = middle + 1;
        } else {
            high = middle;
        }
    }
    low
}

/// The SID of the entry at an index.
fn sid_at(entries: &[SharedEntry], shifts: &[Shift], index: usize) -> u64
    requires index { index < length entries.now }
    requires placed { All (λ e. e.sid < 2 ^ 64) (shifted_entries shifts.now entries.now) }
    ensures { (e : Entry) → slice_get (shifted_entries shifts.now entries.now) index ≡ Some e → result ≡ e.sid }
{
    let own = entries[index].sid();
    match shifts.get(index / BLOCK) {
        Some(shift) => own.saturating_sub(shift.down) + shift.up,
        None => own,
    }
}
