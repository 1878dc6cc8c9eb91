//! Where threads sleep until a batch is written.
use std::sync::{Condvar, Mutex, Wait};

/// Counts written batches, and wakes the threads that wait for one. No proof depends on it.
#[derive(Drop)]
pub(crate) struct Waiters {
    batches: Mutex<u64>,
    written: Condvar,
}

impl Waiters {
    pub(crate) fn new() -> Waiters {
        Waiters {
            batches: Mutex::new(0),
            written: Condvar::new(),
        }
    }

    /// The count, to be read before a try.
    pub(crate) fn count<R: Wait>(&self, rt: &R) -> u64 {
        *self.batches.lock(rt)
    }

    /// Counts a batch, and wakes all.
    pub(crate) fn wake_all<R: Wait>(&self, rt: &R) {
        let mut batches = self.batches.lock(rt);
        *batches = batches.wrapping_add(1);
        self.written.notify_all();
    }

    /// Sleeps until the count isn't what was seen.
    pub(crate) fn sleep_past<R: Wait>(&self, rt: &R, seen: u64) {
        let _batches = self
            .written
            .wait_while(rt, self.batches.lock(rt), |batches| *batches == seen);
    }
}
