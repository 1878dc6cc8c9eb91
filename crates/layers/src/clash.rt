//! Two entries over one image that can't both be kept.
ghost use Rattle.std.specs.Prelude.{◌≡◌, ◌<◌, ◌^◌, List, None, drop, slice_get};
ghost use Rattle.std.specs.Option.{option_copied};
ghost use Rattle.std.specs.Ordering.{eq_by_cmp};
ghost use Rattle.values.specs.Orders.{key_cmp};
ghost use Rattle.values.specs.Shape.{key_of};
ghost use Rattle.delta.specs.Lent.{change_of};
ghost use Rattle.delta.specs.Search.{base_cmp, stands_before, IsSplit};
ghost use Rattle.model.specs.Entries.{change_cmp};
ghost use Rattle.model.specs.Rebasing.{clash_of_entries, clash_of_changes, columns_clash, or_clash};
ghost use Rattle.model.specs.declared.entry.Entry.{Entry};
ghost use Rattle.layers.specs.Serialization.{clash_cmp, clash_with_first, turned_clash, IsClashBeside};

use delta::{ChangeRef, DeltaTree, SharedEntry, SidPlace, Sought};
use model::{Clash, ClashKind, ConflictRule};
use std::cmp::Ordering;
use values::SharedRow;

/// Whether an entry of another tree is before this one, where none ties with this one but those that it can clash with.
pub(crate) fn stands_before(
    rule: ConflictRule,
    key_cols: usize,
    entry: &SharedEntry,
    there: &SharedEntry,
) -> bool
    ensures { result ≡ stands_before (clash_cmp key_cols rule entry.now.change) entry.now.sid there.now }
{
    match entry.sid().cmp(&there.sid()) {
        Ordering::Less => false,
        Ordering::Equal => compare(rule, key_cols, entry.change(), there.change()).is_gt(),
        Ordering::Greater => true,
    }
}

/// How a change stands to one at its SID, so that it ties with none but those that it can clash with.
fn compare(
    rule: ConflictRule,
    key_cols: usize,
    change: ChangeRef<'_>,
    there: ChangeRef<'_>,
) -> Ordering
    ensures { result ≡ clash_cmp key_cols rule (change_of change.entry) (change_of there.entry) }
{
    match (rule, change) {
        (ConflictRule::ByRow, ChangeRef::Mod(_, _)) => compare_base(there),
        _ => compare_changes(key_cols, change, there),
    }
}

/// How what becomes of a base row stands to a change at its SID.
fn compare_base(there: ChangeRef<'_>) -> Ordering
    ensures { result ≡ base_cmp (change_of there.entry) }
{
    match there {
        ChangeRef::Ins(_) => Ordering::Greater,
        _ => Ordering::Equal,
    }
}

/// How two changes at one SID stand to each other.
fn compare_changes(key_cols: usize, change: ChangeRef<'_>, there: ChangeRef<'_>) -> Ordering
    ensures { result ≡ change_cmp key_cols (change_of change.entry) (change_of there.entry) }
{
    match change {
        ChangeRef::Ins(row) => match there {
            ChangeRef::Ins(other) => row.key(key_cols).cmp(other.key(key_cols)),
            _ => Ordering::Less,
        },
        ChangeRef::Del(_) => compare_base(there),
        ChangeRef::Mod(col, _) => match there {
            ChangeRef::Ins(_) => Ordering::Greater,
            ChangeRef::Del(_) => Ordering::Equal,
            ChangeRef::Mod(other, _) => col.cmp(&other),
        },
    }
}

/// The clash of the entry, which has the index `i` in its tree, with the first one of the other tree that it can clash with;
/// its own place there is given. A modify by row can clash with all that becomes of its row, and looks for the first of that.
pub(crate) fn clash_beside(
    rule: ConflictRule,
    i: usize,
    entry: &SharedEntry,
    other: &DeltaTree,
    place: &SidPlace<'_>,
) -> Option<Clash>
    requires sid { entry.now.sid < 2 ^ 63 }
    requires split { IsSplit (stands_before (change_cmp other.now.key_cols entry.now.change) entry.now.sid) other.now.entries
        place.now.index }
    requires rest { place.now.entries ≡ drop place.now.index other.now.entries }
    ensures { IsClashBeside rule other.now.key_cols i entry.now other.now.entries result }
{
    let key_cols = other.key_cols();
    match (rule, entry.change()) {
        (ConflictRule::ByRow, ChangeRef::Mod(_, _)) => {
            let first = other.find(entry.sid(), Sought::Base);
            clash_at(rule, key_cols, i, entry, first.index, first.entry())
        }
        _ => clash_at(rule, key_cols, i, entry, place.index, place.entry()),
    }
}

/// The clash of the entry, which has the index `i` in its tree, with the one at `j` in the other tree, if there is one.
pub(crate) fn clash_at(
    rule: ConflictRule,
    key_cols: usize,
    i: usize,
    entry: &SharedEntry,
    j: usize,
    there: Option<&SharedEntry>,
) -> Option<Clash>
    ensures { (es : List Entry) → option_copied there.entry ≡ slice_get es j → result
        ≡ clash_with_first rule key_cols i entry.now j (drop j es) }
{
    match there {
        Some(found) => clash_of_kind(i, j, clash_of_entries(rule, key_cols, entry, found)),
        None => None,
    }
}

/// A clash of the kind at these places, if there is one.
fn clash_of_kind(i: usize, j: usize, kind: Option<ClashKind>) -> Option<Clash>
    ensures { result ≡ or_clash i j kind None }
{
    match kind {
        Some(kind) => Some(Clash { kind, x: i, y: j }),
        None => None,
    }
}

/// The same clash, as the other tree sees it.
pub(crate) fn turned(clash: Clash) -> Clash
    ensures { result ≡ turned_clash clash }
{
    Clash {
        kind: clash.kind,
        x: clash.y,
        y: clash.x,
    }
}

/// How two entries clash.
fn clash_of_entries(
    rule: ConflictRule,
    key_cols: usize,
    x: &SharedEntry,
    y: &SharedEntry,
) -> Option<ClashKind>
    ensures { result ≡ clash_of_entries rule key_cols x.now y.now }
{
    clash_of_changes(rule, key_cols, x.sid() == y.sid(), x.change(), y.change())
}

/// How two changes clash, where they are at one SID or not.
fn clash_of_changes(
    rule: ConflictRule,
    key_cols: usize,
    here: bool,
    x: ChangeRef<'_>,
    y: ChangeRef<'_>,
) -> Option<ClashKind>
    ensures { result ≡ clash_of_changes rule key_cols here (change_of x.entry) (change_of y.entry) }
{
    match x {
        ChangeRef::Ins(row) => match y {
            ChangeRef::Ins(other) => have_one_key(key_cols, row, other).then_some(
                ClashKind::InsertInsert,
            ),
            _ => None,
        },
        ChangeRef::Del(_) => match y {
            ChangeRef::Ins(_) => None,
            ChangeRef::Del(_) => here.then_some(ClashKind::DeleteDelete),
            ChangeRef::Mod(_, _) => here.then_some(ClashKind::DeleteModify),
        },
        ChangeRef::Mod(col, _) => match y {
            ChangeRef::Ins(_) => None,
            ChangeRef::Del(_) => here.then_some(ClashKind::DeleteModify),
            ChangeRef::Mod(other, _) => (here && columns_clash(rule, col, other)).then_some(
                ClashKind::ModifyModify,
            ),
        },
    }
}

/// Whether modifies of these two columns of one row clash.
fn columns_clash(rule: ConflictRule, col: usize, other: usize) -> bool
    ensures { result ≡ columns_clash rule col other }
{
    match rule {
        ConflictRule::ByColumn => col == other,
        ConflictRule::ByRow => true,
    }
}

/// Whether two rows have one key.
fn have_one_key(key_cols: usize, row: &SharedRow, other: &SharedRow) -> bool
    ensures { result ≡ eq_by_cmp key_cmp (key_of key_cols row.now) (key_of key_cols other.now) }
{
    row.key(key_cols).cmp(other.key(key_cols)).is_eq()
}
