//! What comes of a lower and an upper entry that are next in a walk over both trees.
ghost use Rattle.std.specs.Prelude.{◌≡◌, ◌<◌, ◌^◌, IfOk};
ghost use Rattle.std.specs.Ordering.{is_gt, nat_cmp};
ghost use Rattle.delta.specs.Lent.{change_of};
ghost use Rattle.values.specs.Orders.{key_cmp};
ghost use Rattle.values.specs.Shape.{key_of};
ghost use Rattle.model.specs.Entries.{entry_at};
ghost use Rattle.model.specs.Folding.{changes_meet, columns_meet, meet};
ghost use Rattle.layers.specs.Walk.{meeting_of, changed_by};

use delta::{Change, ChangeRef, Entry, SharedEntry};
use std::alloc::Global;
use std::cmp::Ordering;
use values::{Key, NoMemory, Row, SharedRow};

pub(crate) enum Meeting {
    /// The upper one comes first.
    Upper,
    /// The lower one comes first.
    Lower,
    /// The upper one takes the place of the lower one.
    Over,
    /// Neither is kept.
    Neither,
    /// The upper one changes the lower one.
    Into,
}

/// How they meet, where so many inserts and so many deletes of the lower tree were passed.
pub(crate) fn meet(
    key_cols: usize,
    added: u64,
    gone: u64,
    lower: &SharedEntry,
    upper: &SharedEntry,
) -> Meeting
    requires added { added < 2 ^ 41 }
    requires gone { gone < 2 ^ 41 }
    requires lower { lower.now.sid < 2 ^ 32 }
    requires upper { upper.now.sid < 2 ^ 32 }
    ensures { result ≡ meeting_of (meet key_cols added gone lower.now upper.now) }
{
    match (upper.sid() + gone).cmp(&(lower.sid() + added)) {
        Ordering::Less => Meeting::Upper,
        Ordering::Equal => changes_meet(key_cols, lower.change(), upper.change()),
        Ordering::Greater => Meeting::Lower,
    }
}

/// How two changes at one position meet.
fn changes_meet(key_cols: usize, lower: ChangeRef<'_>, upper: ChangeRef<'_>) -> Meeting
    ensures { result ≡ meeting_of (changes_meet key_cols (change_of lower.entry) (change_of upper.entry)) }
{
    match lower {
        ChangeRef::Ins(_) => match upper {
            ChangeRef::Ins(_) => Meeting::Upper,
            ChangeRef::Del(_) => Meeting::Neither,
            ChangeRef::Mod(_, _) => Meeting::Into,
        },
        ChangeRef::Del(key) => match upper {
            ChangeRef::Ins(row) => if is_past(key_cols, row, key) {
                Meeting::Lower
            } else {
                Meeting::Upper
            },
            _ => Meeting::Lower,
        },
        ChangeRef::Mod(col, _) => match upper {
            ChangeRef::Ins(_) => Meeting::Upper,
            ChangeRef::Del(_) => Meeting::Over,
            ChangeRef::Mod(other, _) => columns_meet(other, col),
        },
    }
}

/// How an upper modify of a column meets a lower one of the same row.
fn columns_meet(upper: usize, lower: usize) -> Meeting
    ensures { result ≡ meeting_of (columns_meet (nat_cmp upper lower)) }
{
    match upper.cmp(&lower) {
        Ordering::Less => Meeting::Upper,
        Ordering::Equal => Meeting::Over,
        Ordering::Greater => Meeting::Lower,
    }
}

/// Whether the row's key comes after that of a deleted one.
fn is_past(key_cols: usize, row: &SharedRow, key: &Key) -> bool
    ensures { result ≡ is_gt (key_cmp (key_of key_cols row.now) key.now) }
{
    row.key(key_cols).cmp(key.cells()).is_gt()
}

/// The lower entry with the cell that the upper one sets.
pub(crate) fn changed(
    alloc: Global,
    lower: &SharedEntry,
    upper: &SharedEntry,
) -> Result<SharedEntry, NoMemory>
    ensures { IfOk result (λ entry. entry ≡ entry_at lower.now.sid (changed_by lower.now.change upper.now.change)) }
{
    match (lower.change(), upper.change()) {
        (ChangeRef::Ins(row), ChangeRef::Mod(col, value)) if col < row.cells().len() => {
            let mut row = Row::of_shared(row.copy()?);
            row.set(col, value.copy(alloc)?)?;
            let change = Change::Ins(row);
            Ok(SharedEntry::new(
                alloc,
                Entry {
                    sid: lower.sid(),
                    change,
                },
            )?)
        }
        _ => Ok(lower.copy()?),
    }
}
