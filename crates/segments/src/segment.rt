//! A file of a journal, by its bytes.
ghost use Rattle.std.specs.Prelude.{◌≡◌, Some, IfOk, drop};
ghost use Rattle.manifest.specs.declared.entries.ManifestHead.{ManifestHead};
ghost use Rattle.segments.specs.Pieces.{piece_of};
ghost use Rattle.segments.specs.Segment.{base_in, segment_in, segment_of};

use crate::fault::SegmentFault;
use crate::version::is_later_header;
use journal::read_header;

/// How many bytes a header has.
const HEADER_BYTES: u64 = 36;

/// A file of a journal: what its header says, and how many bytes it has.
#[repr(C)]
#[derive(Clone, Copy)]
pub struct Segment {
    /// The number of the commit before its first frame, as its header says; 0 where it has none.
    pub base: u64,
    /// How many bytes stand before its frames: those of its header, or 0 where it has none.
    pub front: u64,
    /// How many bytes of frames it has, whole or not.
    pub len: u64,
}

/// What the file of a number is, where the one that is due is the next after those before it. One without a header is the end of a
/// journal, or damaged: what it says as frames tells which. Takes no memory.
///
/// # Errors
///
/// `NotInTurn` where another file is due; `OtherStore` where the header is that of another database's journal; `LaterVersion` where it is
/// one of a later version whose check is right.
pub fn read_segment(
    due: u64,
    number: u64,
    salt: u64,
    store: u64,
    bytes: &[u8],
) -> Result<Segment, SegmentFault>
    ensures segment { result ≡ segment_of due number salt store bytes.now }

    // Whoever restores a table of the same file takes it for the same frames behind the same base.
    ensures piece { IfOk result (λ s. (head : ManifestHead) → head.salt ≡ salt → head.store ≡ store
        → piece_of head bytes.now ≡ Some (record { base = base_in s; frames = drop s.front bytes.now })) }
{
    if number != due {
        return Err(SegmentFault::NotInTurn);
    }
    segment_in(salt, store, bytes)
}

/// What a file is that is in turn.
#[tactic(auto, unfolding(crate::specs::Segment::segment_in))]
fn segment_in(salt: u64, store: u64, bytes: &[u8]) -> Result<Segment, SegmentFault>
    ensures { result ≡ segment_in salt store bytes.now }
{
    match read_header(bytes) {
        Ok((header, frames)) => {
            if header.salt() == salt && header.store() == store {
                Ok(Segment {
                    base: header.base(),
                    front: HEADER_BYTES,
                    len: frames.len() as u64,
                })
            } else {
                Err(SegmentFault::OtherStore)
            }
        }
        Err(_) => {
            if is_later_header(bytes) {
                Err(SegmentFault::LaterVersion)
            } else {
                Ok(Segment {
                    base: 0,
                    front: 0,
                    len: bytes.len() as u64,
                })
            }
        }
    }
}
