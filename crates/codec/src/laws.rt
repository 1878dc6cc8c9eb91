//! The laws of payloads, each the contract of a function that does nothing. A caller who needs one calls it.
ghost use Rattle.codec.specs.Tables.{OtherTablesReadNone};
ghost use Rattle.codec.specs.Laws.{APayloadIsOfOneList, CommitEntriesFit, EntriesAreSpelt, OthersReadNone, PartsAreSpelt, PartsReadBack};

/// Each table's entries are read from the payload of all parts, and none for another table.
pub fn parts_read_back()
    ensures parts { PartsReadBack }
    ensures others { OthersReadNone }
{}

/// The entries of a commit over a table that has not too many rows can be written.
pub fn commit_entries_fit()
    ensures { CommitEntriesFit }
{}

/// Bytes that read as parts, and the part of a table that reads as entries, are spelt by what was read.
pub fn what_reads_is_spelt()
    ensures parts { PartsAreSpelt }
    ensures entries { EntriesAreSpelt }
{}

/// Bytes are the payload of one list of parts at most.
pub fn a_payload_is_of_one_list()
    ensures { APayloadIsOfOneList }
{}

/// The tables of a payload ascend, and it says no entries of any other.
pub fn other_tables_read_none()
    ensures { OtherTablesReadNone }
{}
