//! What is at a SID, found by binary search.
ghost use Rattle.std.specs.Prelude.{◌≡◌, drop};
ghost use Rattle.std.specs.Option.{option_copied};
ghost use Rattle.delta.specs.Lookups.{inserted_row};
ghost use Rattle.delta.specs.Changes.{row_at};
ghost use Rattle.delta.specs.Search.{insert_cmp, stands_before, IsSplit};

use crate::sorted::compare_insert;
use crate::tree::DeltaTree;
use counted::{ChangeRef, EntryPlace, SharedEntry};
use values::{SharedRow, Value};

impl DeltaTree {
    /// The row that is inserted at the SID with the key of these cells, if there is one, by the place of the key.
    pub(crate) fn insert_at<'a>(
        &self,
        place: &EntryPlace<'a>,
        sid: u64,
        key: &[Value],
    ) -> Option<&'a SharedRow>
        requires split { IsSplit (stands_before (insert_cmp self.now.key_cols key.now) sid) self.now.entries place.now.index }
        requires rest { place.now.entries ≡ drop place.now.index self.now.entries }
        ensures { option_copied result ≡ inserted_row self.now.key_cols sid key.now self.now.entries }
    {
        match place.entry() {
            Some(entry) => inserted_at(self.key_cols, entry, sid, key),
            None => None,
        }
    }
}

/// The row of the entry, where that is the insert of this key at the SID.
fn inserted_at<'a>(
    key_cols: usize,
    entry: &'a SharedEntry,
    sid: u64,
    key: &[Value],
) -> Option<&'a SharedRow>
    ensures { option_copied result ≡ row_at key_cols sid key.now entry.now }
{
    match entry.change() {
        ChangeRef::Ins(row)
            if entry.sid() == sid && compare_insert(key_cols, key, entry.change()).is_eq() => Some(
            row,
        ),
        _ => None,
    }
}
