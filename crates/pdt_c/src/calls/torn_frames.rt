//! Whole frames in what an opening cuts off a journal's end.
ghost use Rattle.std.specs.Prelude.{◌≡◌, IsTrue, IsFalse};
ghost use Rattle.journal.specs.Header.{seed_of};
ghost use Rattle.segments.specs.Torn.{HasFrameBehind};

use journal::seed_of;
use segments::has_frame_behind;

/// Whether a whole frame of a commit after the newest one begins behind the first of these bytes, which are torn off the journal of a
/// salt. Takes no memory.
#[unsafe(no_mangle)]
pub extern "C" fn pdtr_has_frames(salt: u64, newest: u64, torn: &[u8]) -> bool
    ensures some { IsTrue result → HasFrameBehind (seed_of salt) newest torn.now }
    ensures none { IsFalse result → HasFrameBehind (seed_of salt) newest torn.now → ⊥ }
{
    has_frame_behind(seed_of(salt), newest, torn)
}
