//! One mark, and the payload that it is kept as.
ghost use Rattle.std.specs.Prelude.{◌≡◌};
ghost use Rattle.images.specs.Mark.{mark_bytes, mark_in};

/// How many bytes a mark has.
const MARK_BYTES: usize = 12;

/// An image of a store: the generation that it has in the columns, and how many commits had made its table.
#[derive(Clone, Copy, Debug, PartialEq, Eq)]
pub struct ImageMark {
    pub generation: u32,
    pub number: u64,
}

/// The bytes of a mark.
pub(crate) fn mark_bytes(mark: ImageMark) -> [u8; 12]
    ensures { result ≡ mark_bytes mark }
{
    let [a, b, c, d] = mark.generation.to_be_bytes();
    let [e, f, g, h, i, j, k, l] = mark.number.to_be_bytes();
    [a, b, c, d, e, f, g, h, i, j, k, l]
}

/// The mark that a payload is, where it is one.
#[tactic(auto, unfolding(crate::specs::Mark::mark_in))]
pub(crate) fn mark_in(payload: &[u8]) -> Option<ImageMark>
    ensures { result ≡ mark_in payload.now }
{
    if payload.len() != MARK_BYTES {
        return None;
    }
    Some(ImageMark {
        generation: u32::from_be_bytes([payload[0], payload[1], payload[2], payload[3]]),
        number: u64::from_be_bytes([
            payload[4],
            payload[5],
            payload[6],
            payload[7],
            payload[8],
            payload[9],
            payload[10],
            payload[11],
        ]),
    })
}
