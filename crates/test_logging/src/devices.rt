//! Journals in memory, and commits to be logged.
ghost use Rattle.std.specs.Prelude.{◌≡◌, length};

use journal::{Frame, write_frame};
use logging::{Appender, JournalDevice, LeftJournal, LogFault, MemJournal};
use std::alloc::Global;
use std::sync::{Arc, OnceLock};
use values::NoMemory;

/// The seed of every journal here.
pub(crate) const SEED: u32 = 0x1234_5678;

/// The number of the first commit.
pub(crate) const FIRST: u64 = 1;

/// How many bytes each frame has.
pub(crate) const SIZE: usize = 31;

/// Where a journal leaves its bytes.
pub(crate) type Slot = Arc<OnceLock<LeftJournal>>;

/// A slot with nothing in it.
pub(crate) fn empty_slot(alloc: Global) -> Result<Slot, NoMemory> {
    Ok(Arc::new(alloc, OnceLock::new())?)
}

/// A journal of no bytes over this slot.
pub(crate) fn journal_over(alloc: Global, slot: &Slot) -> Result<MemJournal, NoMemory> {
    Ok(MemJournal::new(Vec::new(alloc), slot.clone()?))
}

/// The commit of this number, which tells that the one before it was safe.
pub(crate) fn commit(number: u64) -> Frame<'static>
    ensures { length result.payload.now ≡ 3 }
{
    Frame {
        number,
        synced: number.saturating_sub(1),
        payload: b"abc",
    }
}

/// Logs the commits from the first on, up to this many or the first that isn't logged, and answers how many were.
pub(crate) fn log_up_to<D: JournalDevice>(
    appender: &mut Appender<D>,
    count: u64,
) -> (u64, Option<LogFault>) {
    for place in 0..count {
        if appender.failures() > 0 {
            return (place, None);
        }
        if let Err(fault) = appender.log(&commit(FIRST.wrapping_add(place))) {
            return (place, Some(fault));
        }
    }
    (count, None)
}

/// The bytes of the commits from this number on.
pub(crate) fn spelt(alloc: Global, first: u64, count: u64) -> Result<Vec<u8>, NoMemory> {
    let mut out = Vec::new(alloc);
    for place in 0..count {
        write_frame(SEED, &commit(first.wrapping_add(place)), &mut out)?;
    }
    Ok(out)
}

/// What is in a slot: the bytes, and how many of them are safe.
pub(crate) fn left_in(slot: &Slot) -> (&[u8], usize) {
    match slot.get() {
        Some(left) => (left.bytes.as_slice(), left.safe),
        None => (&[], 0),
    }
}
