//! The standard streams, which no file of the program may stand in for.
ghost use Rattle.std.specs.Prelude.{IfOk, pos, ◌≤ℤ◌};
ghost use Rattle.std.specs.Fd.{file_raw_fd};

use std::fs::File;
use std::io;
use std::os::fd::AsRawFd;

/// The first descriptor after those of the standard streams.
const FIRST_FREE: i32 = 3;

/// What stands in for a stream: a folder that is always there. A write to it fails.
const NO_STREAM: &str = "/";

/// Files at the descriptors of the standard streams that were closed when the program began, and one above them.
///
/// A system gives a new file the least descriptor that is free. So as long as these are held no file that is opened has the
/// descriptor of a stream, and a reply can't be written into a store.
#[derive(Drop)]
pub(crate) struct HeldStreams {
    /// Those at the descriptors of streams.
    below: Vec<File>,
    /// The one that tells that no descriptor of a stream is free.
    above: File,
}

/// Takes the descriptors of the standard streams that are closed.
///
/// # Errors
///
/// The system's, where no file can be opened.
pub(crate) fn hold_streams(rt: &HostRuntime) -> io::Result<HeldStreams>
    ensures { IfOk result (λ held. pos 3 ≤ℤ file_raw_fd held.above) }
{
    let mut below = Vec::new(rt.alloc());
    for _ in 0..=FIRST_FREE {
        let file = File::open(rt, NO_STREAM)?;
        if file.as_raw_fd() >= FIRST_FREE {
            return Ok(HeldStreams { below, above: file });
        }
        below.push(file)?;
    }
    Err(io::Error::from(io::ErrorKind::Other))
}
