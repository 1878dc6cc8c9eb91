//! How many commits had made an image, by the marks of a journal.
ghost use Rattle.std.specs.Prelude.{◌≡◌, ◌+◌, ◌<◌, ◌^◌, None, Some, IfErr, IfOk, map};
ghost use Rattle.journal.specs.Reading.{logged_in, read_of};
ghost use Rattle.images.specs.Mark.{bad_mark, number_in};
ghost use Rattle.images.specs.Reading.{IsLate, IsUnknown, MayEnd};

use crate::fault::ImagesFault;
use crate::mark::mark_in;
use journal::{Ending, Frame, read_frames};
use std::alloc::Global;

/// How many commits had made the image of this generation, by the marks in a journal's frames, which are the bytes after its header.
/// The last mark of the generation counts.
///
/// # Errors
///
/// `Rot` with the first frame that is damaged though it was safe; `Gap` with the frame in whose place another one is; `BadMark`
/// with the first frame whose payload is no mark; `Unmarked` where no mark is of the generation; and `NoMemory` where a growth is
/// refused.
pub fn image_number(
    alloc: Global,
    seed: u32,
    base: u64,
    bytes: &[u8],
    generation: u32,
) -> Result<u64, ImagesFault>
    requires base { base < 2 ^ 63 }
    ensures ok { IfOk result (λ number. Some number ≡ number_in generation (read_of seed (base + 1) bytes.now).logged) }

    // No rot, no gap and no bad mark is passed over.
    ensures ending { IfOk result (λ number. MayEnd (read_of seed (base + 1) bytes.now).ending) }
    ensures marks { IfOk result (λ number. bad_mark (read_of seed (base + 1) bytes.now).logged ≡ None) }
    ensures err { IfErr result (λ fault. IsUnknown fault base generation (read_of seed (base + 1) bytes.now)) }
{
    let reading = read_frames(alloc, seed, base + 1, bytes)?;
    let due = base + 1 + reading.frames.len() as u64;
    match reading.ending {
        Ending::Rot => Err(ImagesFault::Rot(due)),
        Ending::Gap => Err(ImagesFault::Gap(due)),
        Ending::End | Ending::Torn => last_number(reading.frames.as_slice(), generation),
    }
}

/// The number of the last mark of a generation among the frames.
///
/// # Errors
///
/// `BadMark` with the first frame whose payload is no mark; else `Unmarked`, where there is none of the generation.
fn last_number(frames: &[Frame<'_>], generation: u32) -> Result<u64, ImagesFault>
    ensures ok { IfOk result (λ number. Some number ≡ number_in generation (map logged_in frames.now)) }
    ensures marks { IfOk result (λ number. bad_mark (map logged_in frames.now) ≡ None) }
    ensures err { IfErr result (λ fault. IsLate fault generation (map logged_in frames.now)) }
{
    let mut number = None;
    for frame in frames {
        let Some(mark) = mark_in(frame.payload) else {
            return Err(ImagesFault::BadMark(frame.number));
        };
        if mark.generation == generation {
            number = Some(mark.number);
        }
    }
    number.ok_or(ImagesFault::Unmarked(generation))
}
