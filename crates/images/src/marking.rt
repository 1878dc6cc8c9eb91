//! An image is marked before it is stored.
ghost use Rattle.std.specs.Prelude.{◌≡◌, ◌<◌, IfErr, OnOk, nat_lt};
ghost use Rattle.images.specs.Images.{IsUnmarked, with_mark};

use crate::mark::{ImageMark, mark_bytes};
use journal::Frame;
use logging::{Appender, JournalDevice, LogFault};
use std::marker::Model;

/// How many marks are made at most.
const MAX_MARKS: u64 = 1 << 62;

/// The marks of a store's images, and the journal that they are kept in.
#[derive(Drop)]
pub struct Images<D: JournalDevice> {
    journal: Appender<D>,
    /// The number of the next mark's frame.
    next: u64,
}

impl<D: JournalDevice> Model for Images<D> {
    ghost use Rattle.images.specs.Images.{Images as Marking};

    ghost Value = { Marking };

    ghost view = { λ i. record { log = i.journal; next = i.next } };
}

impl<D: JournalDevice> Images<D> {
    /// Marks go to this journal, the next one as its frame of this number. Takes no memory.
    pub fn new(journal: Appender<D>, next: u64) -> Images<D>
        ensures { result ≡ record { log = journal; next = next } }
    {
        Images { journal, next }
    }

    /// Whether the device has failed: no mark is taken any more.
    pub fn has_failed(&self) -> bool
        ensures { result ≡ nat_lt 0 self.now.log.device.failures }
    {
        self.journal.failures() > 0
    }

    /// Marks an image before it is stored: on Ok the mark is safe. Takes 40 bytes for the first one.
    ///
    /// # Errors
    ///
    /// `NoMemory` where a growth is refused, or 2^62 marks were made: nothing changes. `DeviceFailed` where the device has failed
    /// before, or fails over this mark: no mark is taken after it.
    pub fn mark(&mut self, mark: ImageMark) -> Result<(), LogFault>
        ensures ok { OnOk result (self.new ≡ with_mark mark self.old) }
        ensures err { IfErr result (λ fault. IsUnmarked fault mark self.old self.new) }
        ensures failed { 0 < self.old.log.device.failures → result ≡ Err LogFault.DeviceFailed }
    {
        if self.has_failed() {
            return Err(LogFault::DeviceFailed);
        }
        if self.next > MAX_MARKS {
            return Err(LogFault::NoMemory);
        }
        let payload = mark_bytes(mark);
        self.journal.log(&Frame {
            number: self.next,
            synced: self.next.saturating_sub(1),
            payload: &payload,
        })?;
        self.next += 1;
        Ok(())
    }
}
