//! The laws of stores, each the contract of a function that does nothing. A caller who needs one calls it.
ghost use Rattle.devices.specs.Laws.{NewestIsTheGreatest};

use frames::what_reads_is_a_column;

/// Of columns that can be read, the generation of the image is the greatest that is whole in each of them; there is none
/// where none is whole in each.
pub fn newest_is_the_greatest()
    ensures { NewestIsTheGreatest }
{
    what_reads_is_a_column();
}
