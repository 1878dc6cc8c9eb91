//! The frames of a journal, read once for all of its tables.
ghost use Rattle.std.specs.Prelude.{◌≡◌, ◌<◌, ◌≤◌, ◌^◌, ◌+◌, ℕ, IfErr, IfOk, IfSome, List, map};
ghost use Rattle.std.specs.Borrow.{ftrue};
ghost use Rattle.journal.specs.Reading.{logged_in, read_of};
ghost use Rattle.model.specs.Effects.{Effects};
ghost use Rattle.model.specs.Table.{Table};
ghost use Rattle.model.specs.declared.entry.Entry.{Entry};
ghost use Rattle.values.specs.Shape.{Columns};
ghost use Rattle.values.specs.declared.row.Row.{Row};
ghost use Rattle.replay.specs.Own.{own_frames};
ghost use Rattle.replay.specs.Recovered.{AreBehind, IsBlameless, IsCrashed, IsImage, IsTold, MayEnd, frames_since, newest_in};
ghost use Rattle.replay.specs.Replayed.{IsCaused, IsMisfit};

use crate::fault::RecoverFault;
use crate::recovering::{FrameBytes, frames_before};
use crate::spots::{Spot, frames_after, spots_in};
use journal::{Ending, Frame, a_crash_leaves_whole_frames, read_frames};
use manager::MAX_RECORDS;
use std::alloc::Global;
use std::collections::BTreeMap;
use std::marker::Model;
use values::NoMemory;

/// The bytes that were read, for clauses alone. It takes none.
#[derive(Drop)]
struct Bytes {
    ghost read: { List ℕ },
}

impl Model for Bytes {
    ghost also_owns = { λ _. ftrue };
}

impl Bytes {
    fn of(_bytes: &[u8]) -> Bytes
        ensures { result.read ≡ _bytes.now }
    {
        Bytes {}
    }
}

/// The frames of a journal, as their file has them, read once for all of its tables. It keeps where those of each table are, and
/// not the bytes: whoever recovers a table of them lends them again.
#[derive(Drop)]
pub struct ReadFrames {
    pub(crate) seed: u32,
    pub(crate) base: u64,
    /// How many frames are whole and in turn.
    count: u64,
    ending: Ending,
    /// How many bytes these have.
    pub(crate) whole: usize,
    /// Where those of each table are, or none where a payload can't be read as parts.
    spots: Option<BTreeMap<u32, Vec<Spot>>>,
    bytes: Bytes,
}

impl Model for ReadFrames {
    ghost use Rattle.replay.specs.Own.{Given, IsKept};

    ghost Value = { Given };

    ghost view = { λ f. record { seed = f.seed; base = f.base; bytes = f.bytes.read } };

    ghost invariant = { λ f. IsKept (λ v. v.items) (record { seed = f.seed; base = f.base; bytes = f.bytes.read }) f.count f.ending
        f.whole f.spots };
}

impl ReadFrames {
    /// Reads the frames. It takes memory for each frame while it reads, and keeps a place for each part of a payload.
    ///
    /// # Errors
    ///
    /// `NoMemory` where a growth is refused.
    pub fn read(alloc: Global, frames: FrameBytes<'_>) -> Result<ReadFrames, NoMemory>
        requires base { frames.base < 2 ^ 63 }
        ensures { IfOk result (λ read. read ≡ record { seed = frames.entry.seed; base = frames.entry.base; bytes = frames.entry.bytes.now }) }
    {
        let FrameBytes { seed, base, bytes } = frames;
        let reading = read_frames(alloc, seed, base + 1, bytes)?;
        let whole = bytes.len().saturating_sub(reading.rest.len());
        let spots = spots_in(alloc, reading.frames.as_slice())?;
        Ok(ReadFrames {
            seed,
            base,
            count: reading.frames.len() as u64,
            ending: reading.ending,
            whole,
            spots,
            bytes: Bytes::of(bytes),
        })
    }

    /// The number of the newest commit, where the frames go on from an image of this number.
    ///
    /// # Errors
    ///
    /// As `recover` before it opens: `Rot`, `Gap` or `NumbersSpent`.
    pub(crate) fn newest_over(&self, number: u64) -> Result<u64, RecoverFault>
        ensures newest { IfOk result (λ newest. newest ≡ newest_in self.now.seed self.now.base self.now.bytes) }
        ensures few { IfOk result (λ newest. newest ≤ 2 ^ 62) }
        ensures reached { IfOk result (λ _. AreBehind self.now.base number (read_of self.now.seed (self.now.base + 1) self.now.bytes)) }
        ensures ending { IfOk result (λ _. MayEnd (read_of self.now.seed (self.now.base + 1) self.now.bytes).ending) }
        ensures fault { IfErr result (λ fault. IsTold fault self.now.base number (read_of self.now.seed (self.now.base + 1) self.now.bytes)) }
        ensures caused { IfErr result (λ fault. (recent : ℕ) (limit : ℕ) (rows : List Row) (logged : List (List Entry))
            → IsCaused recent limit rows logged fault) }
        ensures named { IfErr result (λ fault. IsMisfit fault → ⊥) }
        ensures sound { IfErr result (λ fault. (decode : List ℕ → List Entry) (schema : Columns) (t : Table) (commits : List Effects) (safe : ℕ)
            (rows : List Row) → IsCrashed decode schema self.now.seed self.now.base t commits safe self.now.bytes
            → IsImage self.now.base t commits safe number rows → IsBlameless fault) }
    {
        // Called for what its clause tells.
        a_crash_leaves_whole_frames();
        let due = self.base + 1 + self.count;
        match self.ending {
            Ending::Rot => return Err(RecoverFault::Rot(due)),
            Ending::Gap => return Err(RecoverFault::Gap(due)),
            Ending::End | Ending::Torn => {}
        }
        if let Err(missing) = frames_before(self.base, due, number) {
            return Err(RecoverFault::Gap(missing));
        }
        if due - 1 > MAX_RECORDS {
            return Err(RecoverFault::NumbersSpent);
        }
        Ok(due - 1)
    }

    /// The frames of a table after a number, in the bytes that were read; or none where a payload can't be read as parts.
    pub(crate) fn frames_of<'a>(
        &self,
        alloc: Global,
        table: u32,
        number: u64,
        bytes: &'a [u8],
    ) -> Result<Option<Vec<Frame<'a>>>, NoMemory>
        requires same { bytes.now ≡ self.now.bytes }
        ensures { IfOk result (λ found. IfSome found (λ own. map logged_in own.items
            ≡ own_frames table (frames_since self.now.seed self.now.base number self.now.bytes))) }
    {
        let Some(spots) = &self.spots else {
            return Ok(None);
        };
        match spots.get(&table) {
            Some(own) => Ok(Some(frames_after(alloc, bytes, number, own.as_slice())?)),
            None => Ok(Some(Vec::new(alloc))),
        }
    }
}
