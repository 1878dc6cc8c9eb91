//! The laws of marks, each the contract of a function that does nothing. A caller who needs one calls it.
ghost use Rattle.images.specs.Laws.{ACrashLeavesTheMarks, AMarkReadsBack};

use journal::a_crash_leaves_whole_frames;

/// A mark that was written is read again.
pub fn a_mark_reads_back()
    ensures { AMarkReadsBack }
{}

/// After a crash the marks that were safe are read, and maybe the next ones, and the last of a generation among them counts.
pub fn a_crash_leaves_the_marks()
    ensures { ACrashLeavesTheMarks }
{
    a_crash_leaves_whole_frames();
}
