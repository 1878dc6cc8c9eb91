//! A boxed device is a device.

use crate::device::{ColumnDevice, DeviceFault};

impl ColumnDevice for Box<dyn ColumnDevice + Send> {
    ghost contents = { λ b. (ColumnDevice-box b).contents b.value };

    ghost failures = { λ b. (ColumnDevice-box b).failures b.value };

    fn append(&mut self, piece: &[u8]) -> Result<(), DeviceFault> {
        (**self).append(piece)
    }

    fn failures(&self) -> u64 {
        (**self).failures()
    }
}
