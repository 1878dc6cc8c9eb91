//! A journal that fails where a test wants it to.
ghost use Rattle.std.specs.Prelude.{◌≡◌};

use crate::device::{DeviceFault, JournalDevice};
use crate::memory::MemJournal;
use std::cmp::min;
use std::marker::Model;

/// Which of the coming calls fails. Both kinds are counted from 1; at 0 none fails.
#[derive(Clone, Copy, Debug, PartialEq, Eq)]
pub enum Failure {
    /// This append takes so many bytes of its piece, and fails.
    Append { turn: u64, takes: usize },
    /// This sync fails: nothing more is safe than before.
    Sync { turn: u64 },
}

/// A journal in memory one of whose calls fails.
#[derive(Drop)]
pub struct FailingJournal {
    journal: MemJournal,
    failure: Failure,
}

impl Model for FailingJournal {
    ghost use Rattle.logging.specs.Device.{Device};

    ghost Value = { Device };

    ghost view = { λ f. f.journal };
}

impl FailingJournal {
    /// A device over this journal, one of whose calls fails as it is said here.
    pub fn new(journal: MemJournal, failure: Failure) -> FailingJournal
        ensures { result ≡ journal }
    {
        FailingJournal { journal, failure }
    }
}

impl JournalDevice for FailingJournal {
    ghost appended = { λ f. f.appended };

    ghost safe = { λ f. f.safe };

    ghost faults = { λ f. f.failures };

    fn append(&mut self, piece: &[u8]) -> Result<(), DeviceFault> {
        if let Failure::Append { turn, takes } = self.failure {
            if turn == 1 {
                let end = min(takes, piece.len());
                self.journal.fail_after(&piece[..end]);
                return Err(DeviceFault);
            }
            self.failure = Failure::Append {
                turn: turn.saturating_sub(1),
                takes,
            };
        }
        self.journal.append(piece)
    }

    fn sync(&mut self) -> Result<(), DeviceFault> {
        if let Failure::Sync { turn } = self.failure {
            if turn == 1 {
                self.journal.fail_after(&[]);
                return Err(DeviceFault);
            }
            self.failure = Failure::Sync {
                turn: turn.saturating_sub(1),
            };
        }
        self.journal.sync()
    }

    fn failures(&self) -> u64 {
        self.journal.failures()
    }
}
