//! Reading the frames of a journal, once for all tables that are opened on it.
ghost use Rattle.std.specs.Prelude.{◌≡◌, ◌≢◌, ◌⊎◌, ◌≤◌, ◌^◌, IfErr, IfOk, IsSome, None, Some};
ghost use Rattle.journal.specs.Header.{seed_of};
ghost use Rattle.pdt_c.specs.declared.codes.TheConstants.{DONE, GAP, MISFIT, NO_MEMORY};

use crate::codes::{DONE, GAP, MISFIT, NO_MEMORY};
use crate::handles::journal_frames::{JournalFrames, put, take};
use journal::{NUMBER_LIMIT, seed_of};
use replay::{FrameBytes, ReadFrames};
use std::alloc::Global;

/// Reads the frames of a journal behind `base` into a handle that holds nothing. It keeps where those of each table are, and not
/// the bytes: C lends these again with the handle, and keeps them as they are.
#[unsafe(no_mangle)]
pub extern "C" fn pdtr_frames_read(
    alloc: Global,
    salt: u64,
    base: u64,
    frames: &[u8],
    read: &mut JournalFrames,
) -> u32
    ensures done { result ≡ DONE → read.new.value ≡ Some (record { seed = seed_of salt; base = base; bytes = frames.now }) }

    // No journal has this base, or this salt: under its seed zeros read as frames.
    ensures gap { result ≡ GAP → 2 ^ 63 ≤ base }
    ensures misfit { result ≡ MISFIT → seed_of salt ≡ 0 }
    ensures told { result ≢ DONE → (result ≡ GAP) ⊎ (result ≡ MISFIT) ⊎ (result ≡ NO_MEMORY) }
    ensures kept { result ≢ DONE → read.new.value ≡ read.old.value }
{
    match frames_read(alloc, salt, base, frames) {
        Ok(made) => {
            put(read, made);
            DONE
        }
        Err(code) => code,
    }
}

/// The frames behind a base, read.
fn frames_read(alloc: Global, salt: u64, base: u64, frames: &[u8]) -> Result<Box<ReadFrames>, u32>
    ensures ok { IfOk result (λ made. made.value ≡ record { seed = seed_of salt; base = base; bytes = frames.now }) }
    ensures gap { IfErr result (λ code. code ≡ GAP → 2 ^ 63 ≤ base) }
    ensures misfit { IfErr result (λ code. code ≡ MISFIT → seed_of salt ≡ 0) }
    ensures told { IfErr result (λ code. (code ≡ GAP) ⊎ (code ≡ MISFIT) ⊎ (code ≡ NO_MEMORY)) }
{
    if base >= NUMBER_LIMIT {
        return Err(GAP);
    }
    let seed = seed_of(salt);
    if seed == 0 {
        return Err(MISFIT);
    }
    let frames = FrameBytes {
        seed,
        base,
        bytes: frames,
    };
    match ReadFrames::read(alloc, frames) {
        Ok(made) => match Box::new(alloc, made) {
            Ok(made) => Ok(made),
            Err(_) => Err(NO_MEMORY),
        },
        Err(_) => Err(NO_MEMORY),
    }
}

/// Lets go of what was read.
#[unsafe(no_mangle)]
pub extern "C" fn pdtr_frames_close(alloc: Global, read: &mut JournalFrames)
    requires { IsSome read.old.value }
    ensures { read.new.value ≡ None }
{
    let _frames = take(alloc, read);
}
