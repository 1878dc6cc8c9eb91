//! What is recovered after a crash, as the contract of a function that does nothing. A caller who needs it calls it.
ghost use Rattle.replay.specs.Recovered.{RecoveryIsAPrefix};

use journal::a_crash_leaves_whole_frames;
use model::merges_to_table;

/// Wherever a crash falls, what is recovered is the table after the first commits, as many as the device said were safe, or more.
pub fn recovery_is_a_prefix()
    ensures { RecoveryIsAPrefix }
{
    merges_to_table();
    a_crash_leaves_whole_frames();
}
