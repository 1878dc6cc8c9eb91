//! A boxed device is a device.

use crate::device::{DeviceFault, JournalDevice};

impl JournalDevice for Box<dyn JournalDevice + Send> {
    ghost appended = { λ b. (JournalDevice-box b).appended b.value };

    ghost safe = { λ b. (JournalDevice-box b).safe b.value };

    ghost faults = { λ b. (JournalDevice-box b).faults b.value };

    fn append(&mut self, piece: &[u8]) -> Result<(), DeviceFault> {
        (**self).append(piece)
    }

    fn sync(&mut self) -> Result<(), DeviceFault> {
        (**self).sync()
    }

    fn failures(&self) -> u64 {
        (**self).failures()
    }
}
