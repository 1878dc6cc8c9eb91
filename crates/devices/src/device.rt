//! What a column is written to: it takes pieces, counts its failures, and ends what it has taken.
ghost use Rattle.std.specs.Prelude.{◌≡◌, ℕ, ◌<◌, ◌++◌, List, take, OnOk, OnErr};
ghost use Rattle.devices.specs.Device.{HasRoom, ended_contents};
ghost use Rattle.devices.specs.Ready.{StoresAs};

use std::alloc::{AllocError, AllocFailed};
use thiserror::Error;

/// A device took only a part of a piece, or none of it.
#[derive(Clone, Copy, Debug, PartialEq, Eq, Error)]
#[error("DeviceFault")]
pub struct DeviceFault;

impl From<AllocError> for DeviceFault {
    fn from(_: AllocError) -> DeviceFault {
        DeviceFault
    }
}

impl<T: Drop> From<AllocFailed<T>> for DeviceFault {
    fn from(_: AllocFailed<T>) -> DeviceFault {
        DeviceFault
    }
}

/// What a column is written to. Its drop ends what it has taken as `ended` does.
pub trait ColumnDevice: Drop {
    /// The bytes that it has taken, in order.
    ghost contents: { Self → List ℕ };

    /// How often it has failed.
    ghost failures: { Self → ℕ };

    /// Takes a piece after the bytes so far. It is called only while nothing has failed.
    ///
    /// # Errors
    ///
    /// `DeviceFault` where it could not take the whole piece: some beginning of it stands after the bytes so far then,
    /// which may be all of it, and the failure is counted. Want of memory is such a failure.
    fn append(&mut self, piece: &[u8]) -> Result<(), DeviceFault>
        requires { failures self.old ≡ 0 }
        ensures whole { OnOk result (contents self.new ≡ contents self.old ++ piece.now) }
        ensures sound { OnOk result (failures self.new ≡ failures self.old) }
        ensures part { OnErr result ((n : ℕ) × (contents self.new ≡ contents self.old ++ take n piece.now)) }
        ensures counted { OnErr result (failures self.old < failures self.new) };

    /// How often it has failed.
    fn failures(&self) -> u64
        ensures { result ≡ failures self.now };
}

/// What a device leaves at its end: the bytes that it has taken, with a clean end after them where it never failed. Takes
/// no memory: there is room for that end.
pub fn ended(contents: Vec<u8>, failures: u64) -> Vec<u8>
    requires { HasRoom contents failures }
    ensures bytes { result.items ≡ ended_contents contents.items failures }

    // The end changes no image that columns store.
    ensures stored { StoresAs contents.items result.items }
{
    let mut contents = contents;
    if failures == 0 {
        contents.push(b'E').unwrap();
    }
    contents
}
