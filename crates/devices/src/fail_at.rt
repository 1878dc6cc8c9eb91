//! A device that fails where a test wants it to.
ghost use Rattle.std.specs.Prelude.{◌≡◌};

use crate::device::{ColumnDevice, DeviceFault};
use crate::memory::MemColumn;
use std::cmp::min;
use std::marker::Model;

/// A column in memory one of whose appends takes only the first bytes of its piece, and fails.
#[derive(Drop)]
pub struct FailAt {
    column: MemColumn,
    /// Which of the coming appends fails, from 1; at 0 none does.
    turn: u64,
    /// How many bytes that one takes.
    takes: usize,
}

impl Model for FailAt {
    ghost use Rattle.devices.specs.Device.{Device};

    ghost Value = { Device };

    ghost view = { λ f. f.column };
}

impl FailAt {
    /// A device over this column whose append number `turn`, from 1, takes the first `takes` bytes of its piece and fails.
    pub fn new(column: MemColumn, turn: u64, takes: usize) -> FailAt
        ensures { result ≡ column }
    {
        FailAt {
            column,
            turn,
            takes,
        }
    }
}

impl ColumnDevice for FailAt {
    ghost contents = { λ f. f.contents };

    ghost failures = { λ f. f.failures };

    fn append(&mut self, piece: &[u8]) -> Result<(), DeviceFault> {
        if self.turn == 1 {
            let end = min(self.takes, piece.len());
            self.column.fail_after(&piece[..end]);
            return Err(DeviceFault);
        }
        self.turn = self.turn.saturating_sub(1);
        self.column.append(piece)
    }

    fn failures(&self) -> u64 {
        self.column.failures()
    }
}
