//! What a journal is written to: it takes pieces at its end, makes them safe, and counts its failures.
ghost use Rattle.std.specs.Prelude.{◌≡◌, ℕ, ◌<◌, ◌≤◌, ◌++◌, List, length, take, OnOk, OnErr};

use thiserror::Error;

/// A device took only a part of a piece, or can't say that what it took is safe.
#[derive(Clone, Copy, Debug, PartialEq, Eq, Error)]
#[error("DeviceFault")]
pub struct DeviceFault;

/// What a journal is written to. After a failure it takes nothing more: what it still has of the last pieces is known only once
/// it is read again.
pub trait JournalDevice: Drop {
    /// The bytes that it was handed, in order.
    ghost appended: { Self → List ℕ };

    /// How many of them it has said to be safe.
    ghost safe: { Self → ℕ };

    /// How often it has failed.
    ghost faults: { Self → ℕ };

    /// Takes a piece after the bytes so far. It is called only while nothing has failed.
    ///
    /// # Errors
    ///
    /// `DeviceFault` where it could not take the whole piece: some beginning of it stands after the bytes so far then,
    /// which may be all of it, and the failure is counted. Want of memory is such a failure.
    fn append(&mut self, piece: &[u8]) -> Result<(), DeviceFault>
        requires { faults self.old ≡ 0 }
        ensures whole { OnOk result (appended self.new ≡ appended self.old ++ piece.now) }
        ensures sound { OnOk result (faults self.new ≡ faults self.old) }
        ensures part { OnErr result ((n : ℕ) × (appended self.new ≡ appended self.old ++ take n piece.now)) }
        ensures counted { OnErr result (faults self.old < faults self.new) }
        ensures kept { safe self.new ≡ safe self.old };

    /// Makes the bytes so far safe: a crash leaves them from then on. It is called only while nothing has failed.
    ///
    /// # Errors
    ///
    /// `DeviceFault` where it can't say that they are: what was safe stays so, and the failure is counted.
    fn sync(&mut self) -> Result<(), DeviceFault>
        requires { faults self.old ≡ 0 }
        ensures safe { OnOk result (safe self.new ≡ length (appended self.old)) }
        ensures sound { OnOk result (faults self.new ≡ faults self.old) }
        ensures kept { OnErr result (safe self.old ≤ safe self.new) }
        ensures counted { OnErr result (faults self.old < faults self.new) }
        ensures same { appended self.new ≡ appended self.old };

    /// How often it has failed.
    fn failures(&self) -> u64
        ensures { result ≡ faults self.now };
}
