//! A device in memory that wakes nobody: what C calls may not wake a thread, and `MemColumn` does by its `OnceLock`.
ghost use Rattle.std.specs.Prelude.{◌≡◌, [], IfOk};

use devices::{ColumnDevice, DeviceFault};
use once_cell::race::OnceBox;
use std::alloc::Global;
use std::marker::Model;
use std::sync::Arc;
use values::NoMemory;

/// Where a column leaves its bytes.
pub(crate) type Slot = Arc<OnceBox<Vec<u8>>>;

/// A column in memory. Its drop hands on what it took.
pub(crate) struct ByteColumn {
    contents: Box<Vec<u8>>,
    failures: u64,
    out: Slot,
}

impl Model for ByteColumn {
    ghost use Rattle.devices.specs.Device.{Device};
    ghost use Rattle.std.specs.Box.{box_value};

    ghost Value = { Device };

    ghost view = { λ m. record { contents = (box_value m.contents).items; failures = m.failures } };
}

impl ByteColumn {
    /// A column with no bytes.
    pub(crate) fn new(alloc: Global, out: Slot) -> Result<ByteColumn, NoMemory>
        ensures { IfOk result (λ column. column ≡ record { contents = []; failures = 0 }) }
    {
        Ok(ByteColumn {
            contents: Box::new(alloc, Vec::new(alloc))?,
            failures: 0,
            out,
        })
    }
}

impl ColumnDevice for ByteColumn {
    ghost contents = { λ m. m.contents };

    ghost failures = { λ m. m.failures };

    fn append(&mut self, piece: &[u8]) -> Result<(), DeviceFault> {
        match self.contents.extend_from_slice(piece) {
            Ok(()) => Ok(()),
            Err(_) => {
                self.failures = 1;
                Err(DeviceFault)
            }
        }
    }

    fn failures(&self) -> u64 {
        self.failures
    }
}

impl Drop for ByteColumn {
    fn drop(self) {
        let ByteColumn {
            contents,
            failures: _,
            out,
        } = self;
        let _ = out.set(contents);
    }
}
