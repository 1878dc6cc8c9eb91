//! Where the frames of each table are in a journal's bytes.
ghost use Rattle.std.specs.Prelude.{◌≡◌, ℕ, ◌+◌, ◌==◌, ◌<◌, ◌≤◌, ◌^◌, ◌++◌, ◌∷◌, [], cond, length, map, IfOk, IfSome, OnOk};
ghost use Rattle.codec.specs.Tables.{Ascend, is_among};
ghost use Rattle.journal.specs.Reading.{logged_in};
ghost use Rattle.replay.specs.Own.{AreWithin, frames_after, logged_at, size_of, spot_of, spots_at, spots_in};

use codec::{PayloadFault, other_tables_read_none, tables_in};
use journal::Frame;
use std::alloc::Global;
use std::collections::BTreeMap;
use values::NoMemory;

/// How many bytes the head of a frame has.
const HEAD: usize = 28;

/// A frame by its place: what its head says, and where its payload is among the bytes.
#[derive(Clone, Copy)]
pub(crate) struct Spot {
    pub(crate) number: u64,
    pub(crate) synced: u64,
    /// The offset of the payload.
    pub(crate) at: usize,
    /// How many bytes it has.
    pub(crate) len: usize,
}

/// Where the frames of each table are, the first frame at the front of the bytes; or none where a payload can't be read as parts.
pub(crate) fn spots_in(
    alloc: Global,
    frames: &[Frame<'_>],
) -> Result<Option<BTreeMap<u32, Vec<Spot>>>, NoMemory>
    requires { size_of (map logged_in frames.now) < 2 ^ 63 }
    ensures { IfOk result (λ found. IfSome found (λ spots. (table : ℕ)
        → spots_at (λ v. v.items) spots table ≡ spots_in table 0 (map logged_in frames.now))) }
{
    // Called for what its clause tells.
    other_tables_read_none();
    let mut spots = BTreeMap::new(alloc);
    let mut at = 0;
    let mut rest = frames;
    while let [frame, after @ ..] = rest {
        let tables = match tables_in(alloc, frame.payload) {
            Ok(tables) => tables,
            Err(PayloadFault::NoMemory) => return Err(NoMemory),
            Err(_) => return Ok(None),
        };
        let spot = spot_of(at, frame);
        enter_all(alloc, &mut spots, tables.as_slice(), spot)?;
        at = spot.at + spot.len;
        rest = after;
    }
    Ok(Some(spots))
}

/// Where the payload of a frame is that begins at this offset.
fn spot_of(at: usize, frame: &Frame<'_>) -> Spot
    requires { at + 28 < 2 ^ 64 }
    ensures { result ≡ spot_of at (logged_in frame.now) }
{
    Spot {
        number: frame.number,
        synced: frame.synced,
        at: at + HEAD,
        len: frame.payload.len(),
    }
}

/// Enters a place behind those of each table.
fn enter_all(
    alloc: Global,
    spots: &mut BTreeMap<u32, Vec<Spot>>,
    tables: &[u32],
    spot: Spot,
) -> Result<(), NoMemory>
    requires { Ascend 0 tables.now }
    ensures { OnOk result ((table : ℕ) → spots_at (λ v. v.items) spots.new table
        ≡ spots_at (λ v. v.items) spots.old table ++ cond (is_among table tables.now) (spot ∷ []) []) }
{
    let mut rest = tables;
    while let [table, after @ ..] = rest {
        enter(alloc, spots, *table, spot)?;
        rest = after;
    }
    Ok(())
}

/// Enters a place behind those of a table.
fn enter(
    alloc: Global,
    spots: &mut BTreeMap<u32, Vec<Spot>>,
    table: u32,
    spot: Spot,
) -> Result<(), NoMemory>
    ensures { OnOk result ((other : ℕ) → spots_at (λ v. v.items) spots.new other
        ≡ spots_at (λ v. v.items) spots.old other ++ cond (table == other) (spot ∷ []) []) }
{
    let mut own = match spots.remove(&table) {
        Some(own) => own,
        None => Vec::new(alloc),
    };
    own.push(spot)?;
    spots.insert(table, own)?;
    Ok(())
}

/// The frames at these places, those after a number alone.
pub(crate) fn frames_after<'a>(
    alloc: Global,
    bytes: &'a [u8],
    number: u64,
    spots: &[Spot],
) -> Result<Vec<Frame<'a>>, NoMemory>
    requires { AreWithin (length bytes.now) spots.now }
    ensures { IfOk result (λ own. map logged_in own.items ≡ frames_after bytes.now number spots.now) }
{
    let mut own = Vec::with_capacity(alloc, spots.len())?;
    let mut rest = spots;
    while let [spot, after @ ..] = rest {
        if spot.number > number {
            own.push(frame_at(bytes, spot))?;
        }
        rest = after;
    }
    Ok(own)
}

/// The frame at a place.
fn frame_at<'a>(bytes: &'a [u8], spot: &Spot) -> Frame<'a>
    requires { spot.now.at + spot.now.len ≤ length bytes.now }
    ensures { logged_in result ≡ logged_at bytes.now spot.now }
{
    let (payload, _) = bytes[spot.at..].split_at(spot.len);
    Frame {
        number: spot.number,
        synced: spot.synced,
        payload,
    }
}
