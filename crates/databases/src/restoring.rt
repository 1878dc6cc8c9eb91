//! A table of a database, recovered from the bytes of its files.
ghost use Rattle.std.specs.Prelude.{◌≡◌, ◌<◌, ◌⊎◌, ◌^◌, ◌+◌, ℕ, true, false, List, IfErr, IfOk, length, map};
ghost use Rattle.journal.specs.Reading.{read_of};
ghost use Rattle.manager.specs.Managed.{newest_table};
ghost use Rattle.manifest.specs.Manifest.{table_now};
ghost use Rattle.model.specs.Table.{rows_of};
ghost use Rattle.segments.specs.Pieces.{piece_now};
ghost use Rattle.values.specs.declared.limits.TheConstants.{MAX_RECENT_COMMITS, MAX_ROWS};
ghost use Rattle.databases.specs.Restored.{AreRemade, AreRestored, IsBroken, IsLost, IsUnmade, broken_after, fault_of, files_now, is_chain, newest_of, stands};

use crate::fault::RestoreFault;
use crate::image::whole_image;
use journal::seed_of;
use manager::Manager;
use manifest::{ManifestHead, TableEntry};
use model::ConflictRule;
use replay::{FrameBytes, Image, Limits, RecoverFault, Recovered, recover};
use segments::{JoinFault, Joined, are_behind, join_files, last_len};
use std::alloc::Global;
use values::Schema;
use values::limits::{MAX_RECENT_COMMITS, MAX_ROWS};

/// The bytes of a table's files.
#[derive(Clone, Copy)]
pub struct TableBytes<'a> {
    /// Those of its image's header.
    pub header: &'a [u8],
    /// Those of its image's columns, in order.
    pub columns: &'a [&'a [u8]],
    /// Those of the journal's files, in turn from the first that an image wants.
    pub journal: &'a [&'a [u8]],
}

/// A table that was restored.
#[derive(Drop)]
pub struct Restored {
    /// The columns that its header says.
    pub schema: Schema,
    /// The manager of the newest table, whose history starts there.
    pub manager: Manager,
}

/// A table of a database: its image, and the commits of the journal since then made again, up to the last whole frame. It changes
/// nothing that is stored.
///
/// # Errors
///
/// The first that holds, in the order of the variants of `RestoreFault`; a file that isn't behind the one before it is `Rot` with the
/// commit after the newest one.
pub fn restore_table(
    alloc: Global,
    head: &ManifestHead,
    table: &TableEntry<'_>,
    files: TableBytes<'_>,
) -> Result<Restored, RestoreFault>
    // Whatever the bytes are, and wherever a crash fell.
    ensures ok { IfOk result (λ r. AreRestored head.now (table_now table.now) (files_now files.entry) r.schema
        (rows_of (newest_table r.manager))) }
    ensures err { IfErr result (IsLost head.now (table_now table.now) (files_now files.entry)) }
{
    let journal = match join_files(alloc, head, files.journal) {
        Ok(journal) => journal,
        Err(fault) => return Err(fault_of(fault)),
    };
    let (schema, stored) = match whole_image(alloc, table, files) {
        Ok(found) => found,
        Err(fault) => return Err(fault),
    };
    let image = Image {
        table: stored.table,
        number: table.line.commit,
    };
    match remade(
        alloc,
        image,
        table.line.number,
        seed_of(head.salt),
        &journal,
    ) {
        Ok(manager) => Ok(Restored { schema, manager }),
        Err(fault) => Err(RestoreFault::Commits(fault)),
    }
}

/// The fault of files that are no journal.
fn fault_of(fault: JoinFault) -> RestoreFault
    ensures { result ≡ fault_of fault }
{
    match fault {
        JoinFault::OtherStore => RestoreFault::OtherStore,
        JoinFault::BadManifest => RestoreFault::BadManifest,
        JoinFault::NoMemory => RestoreFault::NoMemory,
    }
}

/// The manager of an image, with the commits of a journal since then made again.
///
/// # Errors
///
/// Those of `recover`; and `Rot` with the commit after the newest one, where a file isn't behind the one before it.
fn remade(
    alloc: Global,
    image: Image,
    table: u32,
    seed: u32,
    journal: &Joined<'_>,
) -> Result<Manager, RecoverFault>
    requires base { journal.now.base < 2 ^ 63 }
    ensures ok { IfOk result (λ m. (generation : ℕ) → AreRemade (record { generation = generation; table = image.table }) image.number table seed
        journal.now.base journal.now.frames.items (rows_of (newest_table m))) }
    ensures chain { IfOk result (λ m. (generation : ℕ) → is_chain (map piece_now journal.now.pieces.items)
        (newest_of (record { generation = generation; table = image.table }) image.number table seed journal.now.base journal.now.frames.items)
        journal.now.frames.items (read_of seed (journal.now.base + 1) journal.now.frames.items) ≡ true) }
    ensures err { IfErr result (λ fault. (generation : ℕ)
        → IsUnmade (record { generation = generation; table = image.table }) image.number table seed journal.now.base journal.now.frames.items fault
        ⊎ IsBroken (record { generation = generation; table = image.table }) image.number table seed journal.now.base journal.now.frames.items
        (map piece_now journal.now.pieces.items) fault) }
{
    let frames = FrameBytes {
        seed,
        base: journal.base,
        bytes: journal.frames.as_slice(),
    };
    let Recovered { manager, whole } = match recover(alloc, image, limits(), table, frames) {
        Ok(recovered) => recovered,
        Err(fault) => return Err(fault),
    };
    let newest = manager.version().number();
    if is_chain(newest, whole, journal) {
        Ok(manager)
    } else {
        Err(broken_after(newest))
    }
}

/// Whether the files are behind one another: none begins after the newest commit, and what isn't whole is in the last one that has
/// frames.
fn is_chain(newest: u64, whole: usize, journal: &Joined<'_>) -> bool
    ensures { result ≡ stands (map piece_now journal.now.pieces.items) newest whole (length journal.now.frames.items) }
{
    let pieces = journal.pieces.as_slice();
    let torn = journal.frames.len().saturating_sub(whole);
    are_behind(newest, pieces) && torn <= last_len(pieces)
}

/// The fault of a file that isn't behind the one before it: the commit after the newest one is damaged.
fn broken_after(newest: u64) -> RecoverFault
    ensures { result ≡ broken_after newest }
{
    match newest.checked_add(1) {
        Some(due) => RecoverFault::Rot(due),
        None => RecoverFault::NumbersSpent,
    }
}

/// The widest limits: a commit that was made was within those of its table.
fn limits() -> Limits
    ensures row_limit { result.row_limit ≡ MAX_ROWS }
    ensures recent { result.recent ≡ MAX_RECENT_COMMITS }
{
    Limits {
        row_limit: MAX_ROWS,
        recent: MAX_RECENT_COMMITS,
        conflicts: ConflictRule::ByColumn,
    }
}
