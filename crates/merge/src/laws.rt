//! What a merge makes of values that it doesn't look at, each law the contract of a function that does nothing. A caller who
//! needs one calls it.
ghost use Rattle.merge.specs.Laws.{AMergeCommutes, APlaceholderIsEnough, AlteredEntriesAreOrdered};

/// A merge commutes with any change of values, column by column: of the stable rows, and of the entries in the same way.
pub fn a_merge_commutes()
    ensures { AMergeCommutes }
{}

/// Where a column's values stay, so do they in the image, whatever stands in the other columns. So a placeholder is enough
/// for a column whose values are kept elsewhere: rows stand where they would, and all other columns are the same.
pub fn a_placeholder_is_enough()
    ensures { APlaceholderIsEnough }
{}

/// Entries stay in order where the values of the key do.
pub fn altered_entries_are_ordered()
    ensures { AlteredEntriesAreOrdered }
{}
