//! A table, recovered from an image of it and the frames of a journal that were read once: its own frames alone are visited.
ghost use Rattle.std.specs.Prelude.{◌≡◌, ℕ, ◌+◌, ◌-◌, ◌<◌, ◌≤◌, ◌^◌, List, IfErr, IfOk, length, map};
ghost use Rattle.codec.specs.Reading.{decoded};
ghost use Rattle.journal.specs.Frame.{Logged};
ghost use Rattle.journal.specs.Reading.{logged_in, read_of};
ghost use Rattle.manager.specs.Managed.{newest_number, newest_table};
ghost use Rattle.model.specs.Effects.{Effects};
ghost use Rattle.model.specs.Laws.{AreCommits};
ghost use Rattle.model.specs.Table.{Table, rows_of, table_of};
ghost use Rattle.replay.specs.Own.{own_frames};
ghost use Rattle.replay.specs.Recovered.{HasPrefix, IsBlameless, IsCrashed, IsImage, IsLate, IsTold, MayEnd, AreBehind, frames_since, logged_since, newest_in, payloads_since};
ghost use Rattle.model.specs.declared.entry.Entry.{Entry};
ghost use Rattle.replay.specs.Replayed.{AreRead, AreSaid, IsCaused, IsMisfit, IsNamed, rows_after};

use crate::fault::RecoverFault;
use crate::journal_frames::ReadFrames;
use crate::laws::recovery_is_a_prefix;
use crate::recovering::{FrameBytes, Image, Limits, Recovered, opened, recover};
use crate::replaying::replay;
use codec::other_tables_read_none;
use journal::{Frame, a_crash_leaves_whole_frames};
use manager::Manager;
use model::merges_to_table;
use stable::StableTable;
use std::alloc::Global;

/// The table of this number in the payloads, as `recover` makes it of the bytes that were read. It takes the time of the table's own
/// commits: those that change other tables alone are counted.
///
/// # Errors
///
/// Those of `recover`.
pub fn recover_read(
    alloc: Global,
    image: Image,
    limits: Limits,
    table: u32,
    frames: &ReadFrames,
    bytes: &[u8],
) -> Result<Recovered, RecoverFault>
    // The bytes are those that were read.
    requires same { bytes.now ≡ frames.now.bytes }

    // What was recovered is the image with the frames that they say.
    ensures rows { IfOk result (λ r. rows_of (newest_table r.manager) ≡ rows_after image.table.rows
        (logged_since (decoded image.table.schema table) frames.now.seed frames.now.base image.number frames.now.bytes)) }
    ensures number { IfOk result (λ r. newest_number r.manager ≡ image.number
        + length (logged_since (decoded image.table.schema table) frames.now.seed frames.now.base image.number frames.now.bytes)) }

    // The newest commit is that of the last whole frame: one for all tables of a journal.
    ensures newest { IfOk result (λ r. newest_number r.manager ≡ newest_in frames.now.seed frames.now.base frames.now.bytes) }
    ensures schema { IfOk result (λ r. r.manager.schema ≡ image.table.schema) }
    ensures limits { IfOk result (λ r. (r.manager.start.limit ≡ limits.row_limit) × (r.manager.start.recent ≡ limits.recent)
        × (r.manager.start.rule ≡ limits.conflicts)) }

    // No commit is passed over: the frames go on from the image, and the payload of each since then was read.
    ensures reached { IfOk result (λ r. AreBehind frames.now.base image.number
        (read_of frames.now.seed (frames.now.base + 1) frames.now.bytes)) }
    ensures read { IfOk result (λ r. AreRead image.table.schema table
        (payloads_since frames.now.seed frames.now.base image.number frames.now.bytes)) }

    ensures whole { IfOk result (λ r. r.whole ≡ length frames.now.bytes
        - length (read_of frames.now.seed (frames.now.base + 1) frames.now.bytes).rest) }

    // No rot and no gap is passed over, and each is told with its commit.
    ensures ending { IfOk result (λ r. MayEnd (read_of frames.now.seed (frames.now.base + 1) frames.now.bytes).ending) }
    ensures fault { IfErr result (λ fault. IsTold fault frames.now.base image.number
        (read_of frames.now.seed (frames.now.base + 1) frames.now.bytes)) }

    // A limit that refuses it is outside its range, or really passed.
    ensures caused { IfErr result (IsCaused limits.recent limits.row_limit image.table.rows
        (logged_since (decoded image.table.schema table) frames.now.seed frames.now.base image.number frames.now.bytes)) }

    // And a commit that it names is one of those since the image.
    ensures named { IfErr result (λ fault. IsMisfit fault → IsNamed image.table.schema table
        (frames_since frames.now.seed frames.now.base image.number frames.now.bytes) fault) }

    // Wherever a crash fell: it is the table after the first commits, as many as the device said were safe, or more.
    ensures prefix { IfOk result (λ r. (t : Table) (commits : List Effects) (safe : ℕ)
        → IsCrashed (decoded image.table.schema table) image.table.schema frames.now.seed frames.now.base t commits safe frames.now.bytes
        → IsImage frames.now.base t commits safe image.number image.table.rows
        → HasPrefix frames.now.base t commits safe r.manager) }

    // Nor is it refused for the journal's sake, where the payloads say the commits' entries.
    ensures sound { IfErr result (λ fault. (t : Table) (commits : List Effects) (safe : ℕ)
        → (crash : IsCrashed (decoded image.table.schema table) image.table.schema frames.now.seed frames.now.base t commits safe
        frames.now.bytes)
        → AreSaid image.table.schema table t commits (map (λ l. l.payload) crash.logged)
        → IsImage frames.now.base t commits safe image.number image.table.rows → IsBlameless fault) }
{
    // Called for what their clauses tell.
    recovery_is_a_prefix();
    a_crash_leaves_whole_frames();
    let newest = frames.newest_over(image.number)?;
    let Some(own) = frames.frames_of(alloc, table, image.number, bytes)? else {
        let frames = FrameBytes {
            seed: frames.seed,
            base: frames.base,
            bytes,
        };
        return recover(alloc, image, limits, table, frames);
    };
    let manager = made_again(alloc, image.table, limits, table, newest, own.as_slice())?;
    Ok(Recovered {
        manager,
        whole: frames.whole,
    })
}

/// The manager of a stable table with its own frames made again, the newest commit of all under this number.
fn made_again(
    alloc: Global,
    stable: StableTable,
    limits: Limits,
    table: u32,
    newest: u64,
    own: &[Frame<'_>],
) -> Result<Manager, RecoverFault>
    requires few { newest ≤ 2 ^ 62 }
    requires many { length own.now ≤ newest }
    ensures number { IfOk result (λ manager. newest_number manager ≡ newest) }
    ensures schema { IfOk result (λ manager. manager.schema ≡ stable.schema) }
    ensures limits { IfOk result (λ manager. (manager.start.limit ≡ limits.row_limit) × (manager.start.recent ≡ limits.recent)
        × (manager.start.rule ≡ limits.conflicts)) }
    ensures late { IfErr result IsLate }

    // Frames that have no part of the table may be between its own.
    ensures rows { IfOk result (λ manager. (since : List Logged) → map logged_in own.now ≡ own_frames table since
        → rows_of (newest_table manager) ≡ rows_after stable.rows (map (λ l. decoded stable.schema table l.payload) since)) }
    ensures read { IfOk result (λ _. (since : List Logged) → map logged_in own.now ≡ own_frames table since
        → AreRead stable.schema table (map (λ l. l.payload) since)) }
    ensures caused { IfErr result (λ fault. (since : List Logged) → map logged_in own.now ≡ own_frames table since
        → IsCaused limits.recent limits.row_limit stable.rows (map (λ l. decoded stable.schema table l.payload) since) fault) }
    ensures named { IfErr result (λ fault. IsMisfit fault → (since : List Logged) → map logged_in own.now ≡ own_frames table since
        → IsNamed stable.schema table since fault) }
    ensures fits { IfErr result (λ fault. IsMisfit fault → (since : List Logged) → map logged_in own.now ≡ own_frames table since
        → (commits : List Effects) → AreCommits stable.schema (table_of stable.schema.key_cols stable.rows) commits
        → AreSaid stable.schema table (table_of stable.schema.key_cols stable.rows) commits (map (λ l. l.payload) since) → ⊥) }
{
    // Called for what their clauses tell.
    other_tables_read_none();
    merges_to_table();
    let image = Image {
        table: stable,
        number: newest - own.len() as u64,
    };
    let mut manager = opened(alloc, image, limits)?;
    replay(alloc, &mut manager, table, own)?;
    Ok(manager)
}
