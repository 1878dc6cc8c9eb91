//! A journal whose sync takes as long as a disk's.
ghost use Rattle.std.specs.Prelude.{◌≡◌};

use logging::{DeviceFault, JournalDevice, MemJournal};
use std::marker::Model;
use std::thread::sleep;
use std::time::{Clock, Duration};

/// How long a sync takes.
const SYNC_MILLIS: u64 = 1;

/// A journal in memory whose sync takes a millisecond.
#[derive(Drop)]
pub(crate) struct SlowJournal<'e, C: Clock> {
    journal: MemJournal,
    clock: &'e C,
}

impl<'e, C: Clock> Model for SlowJournal<'e, C> {
    ghost use Rattle.logging.specs.Device.{Device};

    ghost Value = { Device };

    ghost view = { λ s. s.journal };
}

impl<'e, C: Clock> SlowJournal<'e, C> {
    /// This journal, whose syncs are timed by a clock.
    pub(crate) fn new(journal: MemJournal, clock: &'e C) -> SlowJournal<'e, C>
        ensures { result ≡ journal }
    {
        SlowJournal { journal, clock }
    }
}

impl<'e, C: Clock> JournalDevice for SlowJournal<'e, C> {
    ghost appended = { λ s. s.appended };

    ghost safe = { λ s. s.safe };

    ghost faults = { λ s. s.failures };

    fn append(&mut self, piece: &[u8]) -> Result<(), DeviceFault> {
        self.journal.append(piece)
    }

    fn sync(&mut self) -> Result<(), DeviceFault> {
        sleep(self.clock, Duration::from_millis(SYNC_MILLIS));
        self.journal.sync()
    }

    fn failures(&self) -> u64 {
        self.journal.failures()
    }
}
