//! The law of marks, as the contract of a function that does nothing. A caller who needs it calls it.
ghost use Rattle.txn.specs.Marks.{MarksStand};

/// A mark stands where it is made, through further writes, and through going back to it or to a later one.
pub fn marks_stand()
    ensures { MarksStand }
{}
