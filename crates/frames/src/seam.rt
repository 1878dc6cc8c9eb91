//! What the frames so far say of the frames that may follow.
ghost use Rattle.std.specs.Prelude.{◌≡◌};
ghost use Rattle.frames.specs.Column.{start, may_stand, goes_on, is_above, is_in_turn, has_due_count, seam_after};

use crate::frame::{Frame, Head, Kind};
use values::limits::MAX_BLOCK_VALUES;

/// A block that another one of its generation has to follow.
#[derive(Clone, Copy)]
pub struct Unfinished {
    pub generation: u32,
    pub number: u32,
}

/// A seam between two frames of a column.
#[derive(Clone, Copy)]
pub struct Seam {
    /// What the last header before it says.
    pub kind: Option<Kind>,
    /// The greatest generation before it.
    pub newest: Option<u32>,
    /// The block directly before it, where that isn't the last of its generation.
    pub before: Option<Unfinished>,
}

impl Seam {
    /// The seam before the first frame.
    pub fn start() -> Seam
        ensures { result ≡ start }
    {
        Seam {
            kind: None,
            newest: None,
            before: None,
        }
    }

    /// Whether a block with these numbers may stand here.
    pub fn may_stand(&self, head: &Head) -> bool
        ensures { result ≡ may_stand self.now head.now }
    {
        self.kind.is_some() && self.is_in_turn(head) && has_due_count(head)
    }

    /// Whether the block begins a new generation, or goes on with that of the block before.
    fn is_in_turn(&self, head: &Head) -> bool
        ensures { result ≡ is_in_turn self.now head.now }
    {
        if head.number == 0 {
            self.is_above(head.generation)
        } else {
            self.goes_on(head)
        }
    }

    /// Whether the generation is above each before it.
    fn is_above(&self, generation: u32) -> bool
        ensures { result ≡ is_above self.now.newest generation }
    {
        match self.newest {
            None => true,
            Some(newest) => newest < generation,
        }
    }

    /// Whether the block goes on with the generation of the block before.
    fn goes_on(&self, head: &Head) -> bool
        ensures { result ≡ goes_on self.now.before head.now }
    {
        match self.before {
            None => false,
            Some(before) => {
                before.generation == head.generation
                    && u64::from(before.number) + 1 == u64::from(head.number)
            }
        }
    }

    /// The seam after a frame.
    pub fn after(self, frame: &Frame<'_>) -> Seam
        ensures { result ≡ seam_after self frame.now }
    {
        match frame {
            Frame::Header(kind) => Seam {
                kind: Some(*kind),
                newest: self.newest,
                before: None,
            },
            Frame::Block(part) => Seam {
                kind: self.kind,
                newest: Some(part.generation),
                before: if part.last {
                    None
                } else {
                    Some(Unfinished {
                        generation: part.generation,
                        number: part.number,
                    })
                },
            },
            Frame::End => Seam {
                kind: self.kind,
                newest: self.newest,
                before: None,
            },
        }
    }
}

/// Whether a block has as many values as its place among its generation's asks for: all but the last are full, and the
/// last has one at least unless it is the only one.
fn has_due_count(head: &Head) -> bool
    ensures { result ≡ has_due_count head.now }
{
    let count = head.count as usize;
    match head.flag {
        0 => count == MAX_BLOCK_VALUES,
        1 => count <= MAX_BLOCK_VALUES && (count > 0 || head.number == 0),
        _ => false,
    }
}
