//! A table, recovered from an image of it and a journal.
ghost use Rattle.std.specs.Prelude.{◌≡◌, ℕ, ◌+◌, ◌-◌, ◌<◌, ◌≤◌, ◌^◌, List, IfErr, IfOk, length, map};
ghost use Rattle.codec.specs.Reading.{decoded};
ghost use Rattle.journal.specs.Reading.{read_of};
ghost use Rattle.manager.specs.Managed.{newest_number, newest_table, opened_at};
ghost use Rattle.model.specs.Effects.{Effects};
ghost use Rattle.model.specs.Table.{Table, rows_of};
ghost use Rattle.replay.specs.Recovered.{HasPrefix, IsBlameless, IsCrashed, IsImage, IsLate, IsMissing, IsTold, MayEnd, AreBehind, frames_since, logged_since, newest_in, payloads_since};
ghost use Rattle.model.specs.declared.entry.Entry.{Entry};
ghost use Rattle.replay.specs.Replayed.{AreRead, AreSaid, IsCaused, IsMisfit, IsNamed, rows_after};

use crate::fault::RecoverFault;
use crate::laws::recovery_is_a_prefix;
use crate::replaying::replay;
use journal::{Ending, a_crash_leaves_whole_frames, read_frames};
use manager::{MAX_RECORDS, Manager, OpenFault};
use model::ConflictRule;
use stable::StableTable;
use std::alloc::Global;

/// A table as it was stored, and how many commits had made it.
#[derive(Drop)]
pub struct Image {
    pub table: StableTable,
    pub number: u64,
}

/// By what a manager is opened.
#[derive(Clone, Copy)]
pub struct Limits {
    /// How many rows a table may have.
    pub row_limit: u64,
    /// How many commits may come between a transaction's begin and its commit.
    pub recent: usize,
    /// Which modifies of one row conflict.
    pub conflicts: ConflictRule,
}

/// The frames of a journal, as their file has them.
#[derive(Clone, Copy)]
pub struct FrameBytes<'a> {
    /// The seed of their checks.
    pub seed: u32,
    /// The number of the commit before the first of them.
    pub base: u64,
    pub bytes: &'a [u8],
}

/// What was recovered.
#[derive(Drop)]
pub struct Recovered {
    /// The manager of the newest table, whose history starts there.
    pub manager: Manager,
    /// How many bytes of the frames are whole: a journal that goes on is cut here first.
    pub whole: usize,
}

/// The table of this number in the payloads, after the last whole frame: its image, and the commits since then made again. It
/// changes nothing that is stored, so that it can be made again.
///
/// # Errors
///
/// `Rot` with the first commit whose frame is damaged though it was safe; `Gap` with the first commit that is missing, which is the
/// one after the last frame that was read, where another one is in its place or the journal ends before the image, and the one
/// after the image, where the journal begins after it; `NumbersSpent` where the newest commit has a number above 2^62; then
/// `BadLimit` and `TooManyRows` as an opening; then the first fault of a frame, `BadPayload`, `Misfit` or `TooManyRows`; and
/// `NoMemory` where a growth is refused.
pub fn recover(
    alloc: Global,
    image: Image,
    limits: Limits,
    table: u32,
    frames: FrameBytes<'_>,
) -> Result<Recovered, RecoverFault>
    requires base { frames.base < 2 ^ 63 }

    // Whatever the bytes are: what was recovered is the image with the frames that they say.
    ensures rows { IfOk result (λ r. rows_of (newest_table r.manager) ≡ rows_after image.table.rows
        (logged_since (decoded image.table.schema table) frames.entry.seed frames.entry.base image.number frames.entry.bytes.now)) }
    ensures number { IfOk result (λ r. newest_number r.manager ≡ image.number
        + length (logged_since (decoded image.table.schema table) frames.entry.seed frames.entry.base image.number frames.entry.bytes.now)) }

    // The newest commit is that of the last whole frame: one for all tables of a journal.
    ensures newest { IfOk result (λ r. newest_number r.manager ≡ newest_in frames.entry.seed frames.entry.base frames.entry.bytes.now) }
    ensures schema { IfOk result (λ r. r.manager.schema ≡ image.table.schema) }
    ensures limits { IfOk result (λ r. (r.manager.start.limit ≡ limits.row_limit) × (r.manager.start.recent ≡ limits.recent)
        × (r.manager.start.rule ≡ limits.conflicts)) }

    // No commit is passed over: the frames go on from the image, and the payload of each since then was read.
    ensures reached { IfOk result (λ r. AreBehind frames.entry.base image.number
        (read_of frames.entry.seed (frames.entry.base + 1) frames.entry.bytes.now)) }
    ensures read { IfOk result (λ r. AreRead image.table.schema table
        (payloads_since frames.entry.seed frames.entry.base image.number frames.entry.bytes.now)) }

    ensures whole { IfOk result (λ r. r.whole ≡ length frames.entry.bytes.now
        - length (read_of frames.entry.seed (frames.entry.base + 1) frames.entry.bytes.now).rest) }

    // No rot and no gap is passed over, and each is told with its commit.
    ensures ending { IfOk result (λ r. MayEnd (read_of frames.entry.seed (frames.entry.base + 1) frames.entry.bytes.now).ending) }
    ensures fault { IfErr result (λ fault. IsTold fault frames.entry.base image.number
        (read_of frames.entry.seed (frames.entry.base + 1) frames.entry.bytes.now)) }

    // A limit that refuses it is outside its range, or really passed.
    ensures caused { IfErr result (IsCaused limits.recent limits.row_limit image.table.rows
        (logged_since (decoded image.table.schema table) frames.entry.seed frames.entry.base image.number frames.entry.bytes.now)) }

    // And a commit that it names is one of those since the image.
    ensures named { IfErr result (λ fault. IsMisfit fault → IsNamed image.table.schema table
        (frames_since frames.entry.seed frames.entry.base image.number frames.entry.bytes.now) fault) }

    // Wherever a crash fell: it is the table after the first commits, as many as the device said were safe, or more.
    ensures prefix { IfOk result (λ r. (t : Table) (commits : List Effects) (safe : ℕ)
        → IsCrashed (decoded image.table.schema table) image.table.schema frames.entry.seed frames.entry.base t commits safe frames.entry.bytes.now
        → IsImage frames.entry.base t commits safe image.number image.table.rows
        → HasPrefix frames.entry.base t commits safe r.manager) }

    // Nor is it refused for the journal's sake, where the payloads say the commits' entries.
    ensures sound { IfErr result (λ fault. (t : Table) (commits : List Effects) (safe : ℕ)
        → (crash : IsCrashed (decoded image.table.schema table) image.table.schema frames.entry.seed frames.entry.base t commits safe
        frames.entry.bytes.now)
        → AreSaid image.table.schema table t commits (map (λ l. l.payload) crash.logged)
        → IsImage frames.entry.base t commits safe image.number image.table.rows → IsBlameless fault) }
{
    // Called for what their clauses tell.
    recovery_is_a_prefix();
    a_crash_leaves_whole_frames();
    let reading = read_frames(alloc, frames.seed, frames.base + 1, frames.bytes)?;
    let due = frames.base + 1 + reading.frames.len() as u64;
    match reading.ending {
        Ending::Rot => return Err(RecoverFault::Rot(due)),
        Ending::Gap => return Err(RecoverFault::Gap(due)),
        Ending::End | Ending::Torn => {}
    }
    let skipped = match frames_before(frames.base, due, image.number) {
        Ok(skipped) => skipped,
        Err(missing) => return Err(RecoverFault::Gap(missing)),
    };
    if due - 1 > MAX_RECORDS {
        return Err(RecoverFault::NumbersSpent);
    }
    let mut manager = opened(alloc, image, limits)?;
    replay(alloc, &mut manager, table, &reading.frames[skipped..])?;
    Ok(Recovered {
        manager,
        whole: frames.bytes.len().saturating_sub(reading.rest.len()),
    })
}

/// The manager of an image.
pub(crate) fn opened(alloc: Global, image: Image, limits: Limits) -> Result<Manager, RecoverFault>
    requires few { image.number ≤ 2 ^ 62 }
    ensures ok { IfOk result (λ manager. manager ≡ opened_at image.number image.table limits.row_limit limits.recent limits.conflicts) }
    ensures fault { IfErr result IsLate }
    ensures sound { IfErr result IsBlameless }
    ensures caused { IfErr result (λ fault. (logged : List (List Entry))
        → IsCaused limits.recent limits.row_limit image.table.rows logged fault) }
{
    let Limits {
        row_limit,
        recent,
        conflicts,
    } = limits;
    match Manager::open_at(
        alloc,
        image.table,
        image.number,
        recent,
        row_limit,
        conflicts,
    ) {
        Ok(manager) => Ok(manager),
        Err(OpenFault::BadLimit) => Err(RecoverFault::BadLimit),
        Err(OpenFault::TooManyRows) => Err(RecoverFault::TooManyRows),
        Err(OpenFault::NoMemory) => Err(RecoverFault::NoMemory),
    }
}

/// How many frames behind a base an image of this number has already, where those before the commit that is due were read; or the
/// first commit that is missing, where they begin after the image or end before it.
pub(crate) fn frames_before(base: u64, due: u64, number: u64) -> Result<usize, u64>
    ensures ok { IfOk result (λ skipped. (base ≤ number) × (number < due) × (skipped ≡ number - base)) }
    ensures missing { IfErr result (λ n. IsMissing n base number due) }
{
    if number < base {
        return Err(number + 1);
    }
    if number >= due {
        return Err(due);
    }
    Ok((number - base) as usize)
}
