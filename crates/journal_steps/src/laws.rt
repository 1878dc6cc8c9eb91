//! What a journal's steps keep, each law the contract of a function that does nothing. A caller that needs a law calls it.
ghost use Rattle.journal_steps.specs.Laws.{ANewJournalHolds, TheJournalGoesOn, TheJournalSurvives, TheWorldDoesWhatIsTold, ThreeStepsGoOn, TwoStepsMakeAllDurable};

use journal::{a_header_reads_back, a_journal_survives};

/// For every order of events, and wherever a crash falls: the files of the journal read as its first frames, those of all durable commits
/// among them.
pub fn the_journal_survives()
    ensures { TheJournalSurvives }
{
    a_journal_survives();
    a_header_reads_back();
}

/// A new journal is where that begins.
pub fn a_new_journal_holds()
    ensures { ANewJournalHolds }
{}

/// So is a journal that is opened after a crash, behind the frames that were read.
pub fn the_journal_goes_on()
    ensures { TheJournalGoesOn }
{}

/// The world of these laws does what the calls of `Steps` do and tell.
pub fn the_world_does_what_is_told()
    ensures { TheWorldDoesWhatIsTold }
{}

/// Nothing is left behind: an append and a sync that don't fail make all commits durable.
pub fn two_steps_make_all_durable()
    ensures { TwoStepsMakeAllDurable }
{}

/// A new file that is wanted becomes the file that is written in three steps that don't fail.
pub fn three_steps_go_on()
    ensures { ThreeStepsGoOn }
{}
