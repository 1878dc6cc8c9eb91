//! A journal in memory.
ghost use Rattle.std.specs.Prelude.{◌≡◌, ℕ, ◌++◌, length, take};

use crate::device::{DeviceFault, JournalDevice};
use std::marker::Model;
use std::sync::{Arc, OnceLock};

/// What a journal in memory leaves.
#[derive(Drop)]
pub struct LeftJournal {
    pub bytes: Vec<u8>,
    /// How many of the bytes it had said to be safe.
    pub safe: usize,
}

/// A journal in memory. Its drop hands on what it leaves, through a slot that is written once.
pub struct MemJournal {
    bytes: Vec<u8>,
    safe: usize,
    failures: u64,
    out: Arc<OnceLock<LeftJournal>>,
}

impl Model for MemJournal {
    ghost use Rattle.logging.specs.Device.{Device};

    ghost Value = { Device };

    ghost view = { λ m. record { appended = m.bytes.items; safe = m.safe; failures = m.failures } };
}

impl MemJournal {
    /// A journal that begins with these bytes, all of them safe. Its drop puts what it leaves into `out`, where that is still
    /// empty. Takes no memory.
    pub fn new(bytes: Vec<u8>, out: Arc<OnceLock<LeftJournal>>) -> MemJournal
        ensures { result ≡ record { appended = bytes.items; safe = length bytes.items; failures = 0 } }
    {
        let safe = bytes.len();
        MemJournal {
            bytes,
            safe,
            failures: 0,
            out,
        }
    }

    /// Takes these bytes, where there is memory for them, and fails.
    pub(crate) fn fail_after(&mut self, front: &[u8])
        ensures part { (n : ℕ) × (self.new.appended ≡ self.old.appended ++ take n front.now) }
        ensures safe { self.new.safe ≡ self.old.safe }
        ensures counted { self.new.failures ≡ 1 }
    {
        let _ = self.bytes.extend_from_slice(front);
        self.failures = 1;
    }
}

impl JournalDevice for MemJournal {
    ghost appended = { λ m. m.appended };

    ghost safe = { λ m. m.safe };

    ghost faults = { λ m. m.failures };

    fn append(&mut self, piece: &[u8]) -> Result<(), DeviceFault> {
        if self.bytes.extend_from_slice(piece).is_err() {
            self.failures = 1;
            return Err(DeviceFault);
        }
        Ok(())
    }

    fn sync(&mut self) -> Result<(), DeviceFault> {
        self.safe = self.bytes.len();
        Ok(())
    }

    fn failures(&self) -> u64 {
        self.failures
    }
}

impl Drop for MemJournal {
    fn drop(self) {
        let MemJournal {
            bytes,
            safe,
            failures: _,
            out,
        } = self;
        let _ = out.try_set(LeftJournal { bytes, safe });
    }
}
