//! Commits that are appended together, and their bytes.
ghost use Rattle.std.specs.Prelude.{◌≡◌, ◌+◌, ◌≤◌, ◌<◌, ◌^◌, ◌++◌, [], IfOk, IfSome, MatchOption, None, length, map};
ghost use Rattle.journal.specs.Frame.{frame_bytes};
ghost use Rattle.journal_steps.specs.Batch.{HaveRooms, HaveSizes, batch_bytes, framed, header_part, payload_in, sealed_bytes};

use journal::{Frame, Header, frame_head, spelt_header};
use std::alloc::Global;
use std::marker::Model;
use values::NoMemory;

/// How many bytes a frame has before its payload.
pub const HEAD_BYTES: usize = 28;

/// How many bytes a frame has room for from its begin on: a commit of a few cells fits.
const SMALL_FRAME: usize = 120;

/// How many bytes a file's header has.
pub const HEADER_BYTES: usize = 36;

/// Commits that are appended to a file together.
#[derive(Drop)]
pub struct Batch {
    /// The number of the file.
    pub(crate) seq: u64,
    /// The file's header, where these are its first commits.
    pub(crate) header: Option<Header>,
    /// The seed of the checks.
    pub(crate) seed: u32,
    /// The number of the first commit.
    pub(crate) first: u64,
    /// The newest commit that is durable.
    pub(crate) durable: u64,
    /// The payload of each commit, behind the room of its head.
    pub(crate) frames: Vec<Vec<u8>>,
}

impl Model for Batch {
    ghost use Rattle.std.specs.Prelude.{map};
    ghost use Rattle.journal_steps.specs.Batch.{BatchFields, HaveRooms, IsBatch, payload_in};

    ghost Value = { BatchFields };

    ghost view = { λ b. record {
      seq = b.seq;
      header = b.header;
      seed = b.seed;
      first = b.first;
      durable = b.durable;
      payloads = map (λ v. payload_in v.items) b.frames.items;
    } };

    ghost invariant = { λ b. IsBatch (record {
      seq = b.seq;
      header = b.header;
      seed = b.seed;
      first = b.first;
      durable = b.durable;
      payloads = map (λ v. payload_in v.items) b.frames.items;
    }) × HaveRooms (map (λ v. v.items) b.frames.items) };
}

impl Batch {
    /// The number of the file that it is appended to.
    pub fn file(&self) -> u64
        ensures { result ≡ self.now.seq }
    {
        self.seq
    }
}

/// The bytes of a batch: they are to be appended to its file in one step.
#[derive(Drop)]
pub struct Sealed {
    header: Option<Header>,
    frames: Vec<Vec<u8>>,
}

impl Model for Sealed {
    ghost use Rattle.std.specs.Prelude.{map};
    ghost use Rattle.journal_steps.specs.Batch.{SealedFields};

    ghost Value = { SealedFields };

    ghost view = { λ s. record { header = s.header; frames = map (λ v. v.items) s.frames.items } };
}

impl Sealed {
    /// The bytes of the header that is before the frames, unless the file has it. Takes no memory.
    pub fn header(&self) -> Option<[u8; HEADER_BYTES]>
        ensures bytes { MatchOption result (self.now.header ≡ None) (λ bytes. bytes ≡ header_part self.now.header) }
        ensures length { IfSome result (λ bytes. length bytes ≡ 36) }
    {
        match &self.header {
            Some(header) => Some(spelt_header(header)),
            None => None,
        }
    }

    /// The frames, in turn.
    pub fn frames(&self) -> &[Vec<u8>]
        ensures { map (λ v. v.items) result.now ≡ self.now.frames }
    {
        self.frames.as_slice()
    }
}

/// A frame with no payload yet: the bytes that are appended to it are its payload.
///
/// # Errors
///
/// `NoMemory` where a growth is refused.
pub fn new_frame(alloc: Global) -> Result<Vec<u8>, NoMemory>
    ensures room { IfOk result (λ frame. 28 ≤ length frame.items) }
    ensures payload { IfOk result (λ frame. payload_in frame.items ≡ []) }
{
    let mut frame = Vec::with_capacity(alloc, SMALL_FRAME)?;
    frame.extend_from_slice(&[0; HEAD_BYTES])?;
    Ok(frame)
}

/// The bytes that are to be appended: the checks of all payloads and heads are made here, without the journal's value. Takes no memory.
pub fn seal(batch: Batch) -> Sealed
    ensures { sealed_bytes result ≡ batch_bytes batch }
{
    let Batch {
        header,
        seed,
        first,
        durable,
        mut frames,
        ..
    } = batch;
    put_heads(seed, first, durable, frames.as_mut_slice());
    Sealed { header, frames }
}

/// Fills the heads of frames, the first of which has this number.
fn put_heads(seed: u32, first: u64, durable: u64, frames: &mut [Vec<u8>])
    requires rooms { HaveRooms (map (λ v. v.items) frames.old) }
    requires sizes { HaveSizes (map (λ v. payload_in v.items) frames.old) }
    requires numbers { first + length frames.old ≤ 2 ^ 63 }
    ensures { map (λ v. v.items) frames.new ≡ map (frame_bytes seed) (framed first durable (map (λ v. payload_in v.items) frames.old)) }
{
    let mut number = first;
    for frame in frames.iter_mut() {
        put_head(seed, number, durable, frame);
        number += 1;
    }
}

/// Fills the head of the frame of a commit.
fn put_head(seed: u32, number: u64, durable: u64, frame: &mut Vec<u8>)
    requires room { 28 ≤ length frame.old.items }
    requires size { length (payload_in frame.old.items) < 2 ^ 32 }
    ensures { frame.new.items ≡ frame_bytes seed (record { number = number; synced = durable; payload = payload_in frame.old.items }) }
{
    let (head, payload) = frame.as_mut_slice().split_at_mut(HEAD_BYTES);
    head.copy_from_slice(&frame_head(
        seed,
        &Frame {
            number,
            synced: durable,
            payload,
        },
    ));
}
