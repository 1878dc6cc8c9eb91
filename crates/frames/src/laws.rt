//! The laws of columns, each the contract of a function that does nothing. A caller who needs one calls it.
ghost use Rattle.frames.specs.Laws.{AColumnIsInOneWay, AColumnReadsBack, WhatReadsIsAColumn};

/// Bytes are a column in one way at most: of these frames, with this rest.
pub fn a_column_is_in_one_way()
    ensures { AColumnIsInOneWay }
{}

/// A column whose headers are of the type that is wanted reads as its frames, in either format.
pub fn a_column_reads_back()
    ensures { AColumnReadsBack }
{}

/// Bytes that read as frames are a column of these frames, with a rest that was cut short or none.
pub fn what_reads_is_a_column()
    ensures { WhatReadsIsAColumn }
{}
