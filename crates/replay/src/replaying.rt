//! Logged commits, made again one after the other.
ghost use Rattle.std.specs.Prelude.{◌≡◌, ℕ, List, Ok, OnErr, OnOk, IfErr, IsOk, length, map};
ghost use Rattle.codec.specs.Reading.{decoded, entries_in};
ghost use Rattle.journal.specs.Reading.{logged_in};
ghost use Rattle.manager.specs.Managed.{newest_table};
ghost use Rattle.model.specs.Effects.{AreOver, Effects, table_with};
ghost use Rattle.model.specs.Entries.{canonical_entries};
ghost use Rattle.model.specs.Laws.{AreCommits};
ghost use Rattle.model.specs.Merging.{merged_rows};
ghost use Rattle.model.specs.Table.{rows_of};
ghost use Rattle.replay.specs.Recovered.{IsLate};
ghost use Rattle.replay.specs.Replayed.{AreRead, AreSaid, IsCaused, IsMisfit, IsNamed, IsNamedAt, IsReplayed, IsStopped, IsTooLarge, fault_of_payload, rows_after};

use crate::fault::{CommitFault, RecoverFault};
use crate::fitting::tree_over;
use codec::{PayloadFault, read_part};
use delta::Entry;
use journal::Frame;
use manager::{Manager, RedoFault};
use model::merges_to_table;
use std::alloc::Global;
use values::NoMemory;

/// How many entries a tree has at most. More leave more rows than any limit allows.
const MAX_ENTRIES: usize = 1 << 40;

/// A Write-PDT of more entries is folded, so that the commits after it are folded into a small tree.
const FOLD_ABOVE: usize = 1 << 16;

/// Makes the commits of a table again that these frames log, one after the other. A frame that has no part of the table leaves
/// its rows, and counts as its commit.
///
/// # Errors
///
/// The first fault from the left: `BadPayload`, `Misfit` or `TooManyRows`, or `NoMemory` where a growth is refused. The commits
/// before it are made then.
pub fn replay(
    alloc: Global,
    manager: &mut Manager,
    table: u32,
    frames: &[Frame<'_>],
) -> Result<(), RecoverFault>
    ensures ok { OnOk result (IsReplayed manager.old (rows_after (rows_of (newest_table manager.old))
        (map (λ f. decoded manager.old.schema table f.payload.now) frames.now)) (length frames.now) manager.new) }
    ensures late { IfErr result IsLate }

    // Each payload was read, and a limit that stops it is really passed.
    ensures read { OnOk result (AreRead manager.old.schema table (map (λ f. f.payload.now) frames.now)) }
    ensures caused { IfErr result (λ fault. (recent : ℕ) → IsCaused recent manager.old.start.limit (rows_of (newest_table manager.old))
        (map (λ f. decoded manager.old.schema table f.payload.now) frames.now) fault) }

    // A commit that a fault names is one of these.
    ensures named { IfErr result (λ fault. IsMisfit fault → IsNamed manager.old.schema table (map logged_in frames.now) fault) }

    // Frames that say commits of the table are no misfit.
    ensures fits { IfErr result (λ fault. IsMisfit fault → (commits : List Effects)
        → AreCommits manager.old.schema (newest_table manager.old) commits
        → AreSaid manager.old.schema table (newest_table manager.old) commits (map (λ f. f.payload.now) frames.now) → ⊥) }
{
    for frame in frames {
        match replay_frame(alloc, manager, table, frame) {
            Ok(()) => fold_where_large(manager)?,
            Err(fault) => return Err(fault),
        }
    }
    Ok(())
}

/// Makes the commit of a table again that a frame logs.
fn replay_frame(
    alloc: Global,
    manager: &mut Manager,
    table: u32,
    frame: &Frame<'_>,
) -> Result<(), RecoverFault>
    ensures ok { OnOk result (IsReplayed manager.old (merged_rows (rows_of (newest_table manager.old))
        (decoded manager.old.schema table frame.now.payload.now)) 1 manager.new) }
    ensures late { IfErr result IsLate }
    ensures read { OnOk result (IsOk (entries_in manager.old.schema table frame.now.payload.now)) }
    ensures stopped { IfErr result (IsStopped manager.old.start.limit (rows_of (newest_table manager.old))
        (decoded manager.old.schema table frame.now.payload.now)) }
    ensures named { IfErr result (λ fault. IsMisfit fault → IsNamedAt manager.old.schema table (logged_in frame.now) fault) }
    ensures table { OnOk result ((x : Effects) → AreOver manager.old.schema (newest_table manager.old) x
        → entries_in manager.old.schema table frame.now.payload.now ≡ Ok (canonical_entries (newest_table manager.old) x)
        → newest_table manager.new ≡ table_with (newest_table manager.old) x) }
    ensures fits { IfErr result (λ fault. IsMisfit fault → (x : Effects) → AreOver manager.old.schema (newest_table manager.old) x
        → entries_in manager.old.schema table frame.now.payload.now ≡ Ok (canonical_entries (newest_table manager.old) x) → ⊥) }
{
    let schema = manager.newest().schema();
    let entries = match read_part(alloc, schema, table, frame.payload) {
        Ok(entries) => entries,
        Err(fault) => return Err(fault_of_payload(frame.number, fault)),
    };
    match replay_commit(alloc, manager, entries) {
        Ok(()) => Ok(()),
        Err(CommitFault::Misfit) => Err(RecoverFault::Misfit(frame.number)),
        Err(CommitFault::TooManyRows) => Err(RecoverFault::TooManyRows),
        Err(CommitFault::NoMemory) => Err(RecoverFault::NoMemory),
    }
}

/// The fault of a frame by that of its payload.
fn fault_of_payload(number: u64, fault: PayloadFault) -> RecoverFault
    ensures { result ≡ fault_of_payload number fault }
{
    match fault {
        PayloadFault::NoMemory => RecoverFault::NoMemory,
        PayloadFault::Short(_)
        | PayloadFault::BadTable(_)
        | PayloadFault::BadKind(_)
        | PayloadFault::BadColumn(_)
        | PayloadFault::BadCell(_) => RecoverFault::BadPayload(number, fault),
    }
}

/// Folds the Write-PDT where it is large.
fn fold_where_large(manager: &mut Manager) -> Result<(), NoMemory>
    ensures ok { OnOk result (IsReplayed manager.old (rows_of (newest_table manager.old)) 0 manager.new) }
    ensures table { OnOk result (newest_table manager.new ≡ newest_table manager.old) }
{
    if manager.write_tree().len() > FOLD_ABOVE {
        manager.fold()?;
    }
    Ok(())
}

/// Makes one logged commit again, over the table that it found. It compares no key where the entries modify rows, and takes the
/// time of a commit.
///
/// # Errors
///
/// `Misfit` where the entries are those of no commit over the newest table, `TooManyRows` where the table after it has more rows
/// than the row limit, or `NoMemory`: nothing changes.
pub fn replay_commit(
    alloc: Global,
    manager: &mut Manager,
    entries: Vec<Entry>,
) -> Result<(), CommitFault>
    ensures ok { OnOk result (IsReplayed manager.old (merged_rows (rows_of (newest_table manager.old)) entries.items) 1 manager.new) }
    ensures table { OnOk result ((x : Effects) → AreOver manager.old.schema (newest_table manager.old) x
        → entries.items ≡ canonical_entries (newest_table manager.old) x → newest_table manager.new ≡ table_with (newest_table manager.old) x) }
    ensures full { IfErr result (λ fault. fault ≡ CommitFault.TooManyRows
        → IsTooLarge manager.old.start.limit (rows_of (newest_table manager.old)) entries.items) }
    ensures misfit { IfErr result (λ fault. fault ≡ CommitFault.Misfit → (x : Effects)
        → AreOver manager.old.schema (newest_table manager.old) x → entries.items ≡ canonical_entries (newest_table manager.old) x → ⊥) }
    ensures err { OnErr result (manager.new ≡ manager.old) }
{
    // Called for what its clause tells.
    merges_to_table();
    if entries.len() > MAX_ENTRIES {
        return Err(CommitFault::TooManyRows);
    }
    let Some(tree) = tree_over(alloc, &manager.newest(), entries)? else {
        return Err(CommitFault::Misfit);
    };
    match manager.redo(tree) {
        Ok(()) => Ok(()),
        Err(RedoFault::TooManyRows) => Err(CommitFault::TooManyRows),
        Err(RedoFault::NoMemory) => Err(CommitFault::NoMemory),
    }
}
