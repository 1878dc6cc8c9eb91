//! Frames, and the bytes of a batch.
ghost use Rattle.std.specs.Prelude.{◌≤◌, IfOk, length};

use journal_steps::{Sealed, new_frame};
use std::alloc::Global;
use std::test::Fail;

/// The frame of a payload, with the room of its head.
pub(crate) fn frame_of(alloc: Global, payload: &[u8]) -> Result<Vec<u8>, Fail>
    ensures { IfOk result (λ frame. 28 ≤ length frame.items) }
{
    let mut frame = new_frame(alloc)?;
    frame.extend_from_slice(payload)?;
    Ok(frame)
}

/// The bytes of a batch: its header, and its frames behind it.
pub(crate) fn bytes_of(alloc: Global, sealed: &Sealed) -> Result<Vec<u8>, Fail> {
    let mut bytes = Vec::new(alloc);
    if let Some(header) = sealed.header() {
        bytes.extend_from_slice(&header)?;
    }
    for frame in sealed.frames() {
        bytes.extend_from_slice(frame.as_slice())?;
    }
    Ok(bytes)
}
