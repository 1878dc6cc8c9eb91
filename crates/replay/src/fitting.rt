//! Whether entries are those of a commit over a table.
ghost use Rattle.std.specs.Prelude.{◌≡◌, ◌≤◌, ◌^◌, IsNone, IfOk, IfSome, length};
ghost use Rattle.std.specs.Option.{option_copied};
ghost use Rattle.merge.specs.Image.{IsLayer, image_rows, image_table};
ghost use Rattle.model.specs.declared.entry.Change.TheVariants.{Ins};
ghost use Rattle.model.specs.Effects.{AreOver, Effects};
ghost use Rattle.model.specs.Entries.{canonical_entries, change_cmp, entry_cmp};
ghost use Rattle.values.specs.declared.limits.TheConstants.{MAX_ROWS};
ghost use Rattle.replay.specs.Fitting.{are_over, deletes_at, is_over, may_stand, stands_before};

use delta::{Change, DeltaTree, Entry};
use merge::Layers;
use std::alloc::Global;
use std::cmp::Ordering;
use values::{NoMemory, Row};

/// Whether each of the entries may be where it is.
fn are_over(layers: &Layers<'_>, entries: &[Entry]) -> bool
    ensures { result ≡ are_over layers.now.schema (image_table layers.now) entries.now }
{
    let mut rest = entries;
    while let [entry, after @ ..] = rest {
        if !is_over(layers, entry, after.first()) {
            return false;
        }
        rest = after;
    }
    true
}

/// Whether an entry may be where it is, before the next one.
fn is_over(layers: &Layers<'_>, entry: &Entry, next: Option<&Entry>) -> bool
    ensures { result ≡ is_over layers.now.schema (image_table layers.now) entry.now (option_copied next.entry) }
{
    stands_before(layers.schema().key_cols(), entry, next) && may_stand(layers, entry, next)
}

/// Whether what an entry does may be done at its place.
fn may_stand(layers: &Layers<'_>, entry: &Entry, next: Option<&Entry>) -> bool
    ensures { result ≡ may_stand layers.now.schema (image_table layers.now) entry.now.sid entry.now.change (option_copied next.entry) }
{
    match &entry.change {
        Change::Ins(row) => may_insert(layers, entry.sid, row, next),
        Change::Del(key) => {
            let (rank, there) = layers.locate(key.cells());
            rank == entry.sid && there
        }
        Change::Mod(col, value) => {
            entry.sid < layers.len() && layers.schema().check_cell(*col, value).is_ok()
        }
    }
}

/// Whether a row may be inserted at a place: the rank of its key, which isn't there, or is deleted by the next entry.
fn may_insert(layers: &Layers<'_>, sid: u64, row: &Row, next: Option<&Entry>) -> bool
    ensures { result ≡ may_stand layers.now.schema (image_table layers.now) sid (Ins row.now) (option_copied next.entry) }
{
    if layers.schema().check_row(row).is_err() {
        return false;
    }
    let (rank, there) = layers.locate(row.key(layers.schema().key_cols()));
    rank == sid && (!there || deletes_at(sid, next))
}

/// Whether the next entry deletes the row at a place.
fn deletes_at(sid: u64, next: Option<&Entry>) -> bool
    ensures { result ≡ deletes_at sid (option_copied next.entry) }
{
    match next {
        None => false,
        Some(next) => next.sid == sid && matches!(next.change, Change::Del(_)),
    }
}

/// Whether an entry is before the next one, where there is one.
fn stands_before(key_cols: usize, entry: &Entry, next: Option<&Entry>) -> bool
    ensures { result ≡ stands_before key_cols entry.now (option_copied next.entry) }
{
    match next {
        None => true,
        Some(next) => entry_cmp(key_cols, entry, next).is_lt(),
    }
}

/// How an entry stands to another.
fn entry_cmp(key_cols: usize, entry: &Entry, other: &Entry) -> Ordering
    ensures { result ≡ entry_cmp key_cols entry.now other.now }
{
    match entry.sid.cmp(&other.sid) {
        Ordering::Equal => change_cmp(key_cols, &entry.change, &other.change),
        order => order,
    }
}

/// How a change stands to another at its place.
fn change_cmp(key_cols: usize, change: &Change, other: &Change) -> Ordering
    ensures { result ≡ change_cmp key_cols change.now other.now }
{
    match (change, other) {
        (Change::Ins(row), Change::Ins(other)) => row.key(key_cols).cmp(other.key(key_cols)),
        (Change::Ins(_), _) => Ordering::Less,
        (_, Change::Ins(_)) => Ordering::Greater,
        (Change::Mod(col, _), Change::Mod(other, _)) => col.cmp(other),
        _ => Ordering::Equal,
    }
}

/// The tree of entries that are those of a commit over the table of the layers; none where they aren't.
///
/// # Errors
///
/// `NoMemory` where a growth is refused.
pub(crate) fn tree_over(
    alloc: Global,
    layers: &Layers<'_>,
    entries: Vec<Entry>,
) -> Result<Option<DeltaTree>, NoMemory>
    requires few { length (image_rows layers.now) ≤ MAX_ROWS }
    requires count { length entries.items ≤ 2 ^ 40 }
    ensures entries { IfOk result (λ found. IfSome found (λ tree. tree ≡ record { key_cols = layers.now.schema.key_cols; entries = entries.items })) }
    ensures layer { IfOk result (λ found. IfSome found (λ tree. IsLayer layers.now.schema (image_table layers.now) tree)) }
    ensures none { IfOk result (λ found. IsNone found → (x : Effects) → AreOver layers.now.schema (image_table layers.now) x
        → entries.items ≡ canonical_entries (image_table layers.now) x → ⊥) }
{
    // Called for what its clause tells: the rows are those of a table.
    let _count = layers.len();
    if !are_over(layers, entries.as_slice()) {
        return Ok(None);
    }
    let key_cols = layers.schema().key_cols();
    Ok(Some(DeltaTree::from_sorted(alloc, key_cols, entries)?))
}
