//! A device in memory.
ghost use Rattle.std.specs.Prelude.{◌≡◌, ℕ, ◌<◌, ◌++◌, take, IfOk, OnOk, OnErr};
ghost use Rattle.std.specs.Vec.{vec_len, vec_capacity};

use crate::device::{ColumnDevice, DeviceFault, ended};
use std::marker::Model;
use std::sync::{Arc, OnceLock};
use values::NoMemory;

/// A column in memory. Its drop hands on what it leaves, through a slot that is written once.
pub struct MemColumn {
    /// There is room for one byte more while nothing has failed.
    contents: Vec<u8>,
    failures: u64,
    out: Arc<OnceLock<Vec<u8>>>,
}

impl Model for MemColumn {
    ghost use Rattle.devices.specs.Device.{Device, HasRoom};

    ghost Value = { Device };

    ghost view = { λ m. record { contents = m.contents.items; failures = m.failures } };

    ghost invariant = { λ m. HasRoom m.contents m.failures };
}

impl MemColumn {
    /// A column that begins with these bytes. Its drop puts what it leaves into `out`, where that is still empty.
    ///
    /// # Errors
    ///
    /// `NoMemory` where a growth is refused.
    pub fn new(contents: Vec<u8>, out: Arc<OnceLock<Vec<u8>>>) -> Result<MemColumn, NoMemory>
        ensures { IfOk result (λ column. column ≡ record { contents = contents.items; failures = 0 }) }
    {
        let mut contents = contents;
        contents.reserve(1)?;
        Ok(MemColumn {
            contents,
            failures: 0,
            out,
        })
    }

    /// Takes these bytes, where there is memory for them, and fails.
    pub(crate) fn fail_after(&mut self, front: &[u8])
        ensures part { (n : ℕ) × (self.new.contents ≡ self.old.contents ++ take n front.now) }
        ensures counted { self.new.failures ≡ 1 }
    {
        let _ = take_piece(&mut self.contents, front);
        self.failures = 1;
    }
}

impl ColumnDevice for MemColumn {
    ghost contents = { λ m. m.contents };

    ghost failures = { λ m. m.failures };

    fn append(&mut self, piece: &[u8]) -> Result<(), DeviceFault> {
        let taken = take_piece(&mut self.contents, piece);
        if taken.is_err() {
            self.failures = 1;
        }
        taken
    }

    fn failures(&self) -> u64 {
        self.failures
    }
}

impl Drop for MemColumn {
    fn drop(self) {
        let MemColumn {
            contents,
            failures,
            out,
        } = self;
        let _ = out.try_set(ended(contents, failures));
    }
}

/// Puts the piece after the others, and keeps room for one byte more.
pub(crate) fn take_piece(contents: &mut Vec<u8>, piece: &[u8]) -> Result<(), DeviceFault>
    ensures whole { OnOk result (contents.new.items ≡ contents.old.items ++ piece.now) }
    ensures room { OnOk result (vec_len contents.new < vec_capacity contents.new) }
    ensures err { OnErr result (contents.new.items ≡ contents.old.items) }
{
    contents.reserve(piece.len() + 1)?;
    contents.extend_from_slice(piece)?;
    Ok(())
}
