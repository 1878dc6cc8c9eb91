//! The laws of the definitions, each the contract of a function that does nothing. A caller who needs one calls it.
ghost use Rattle.std.specs.Prelude.{ℕ};
ghost use Rattle.values.specs.Shape.{Columns};
ghost use Rattle.model.specs.Laws.{BaseStandsAtRid, ComposesInTurn, ConflictIsFound, DecidesInTurn, EntriesAreOrdered, EntriesSplit, FirstClashIsLeast, FitsTheNewest, FoldsToComposed, InsertStandsAtRid, LeavesTable, LegalCommitsFit, LegalTablesKeepLimit, MergesToTable, RebasesEntries, WriteEdits, WriteKeeps, WriteKeepsLimit, WritesKeep};

/// The entries of effects, merged into the rows of the table that they fit, give the rows of the table after them (Héman
/// et al. 2010, "MergeScan").
pub fn merges_to_table()
    ensures { (schema : Columns) → MergesToTable schema }
{}

/// Effects that fit a table leave a table of its schema.
pub fn leaves_table()
    ensures { (schema : Columns) → LeavesTable schema }
{}

/// The effects of one transaction after another's are those of one transaction.
pub fn composes_in_turn()
    ensures { (schema : Columns) → ComposesInTurn schema }
{}

/// A write keeps a transaction's effects over its snapshot.
pub fn write_keeps()
    ensures { (schema : Columns) → WriteKeeps schema }
{}

/// And so do writes in order.
pub fn writes_keep()
    ensures { (schema : Columns) → WritesKeep schema }
{}

/// No write takes the image past the row limit, so an insert is answered Full where the image has just as many rows.
pub fn write_keeps_limit()
    ensures { (schema : Columns) → WriteKeepsLimit schema }
{}

/// A write that is done is one edit of the transaction's entries, at the number of the snapshot's keys below its own.
pub fn write_edits()
    ensures { (schema : Columns) → WriteEdits schema }
{}

/// Canonical entries are in order, and none past the last row.
pub fn entries_are_ordered()
    ensures { (schema : Columns) → EntriesAreOrdered schema }
{}

/// Canonical entries are those of the keys below any key, followed by those of the rest.
pub fn entries_split()
    ensures { (schema : Columns) → EntriesSplit schema }
{}

/// Entries in order put the row of an insert at its RID in the image.
pub fn insert_stands_at_rid()
    ensures { (key_cols : ℕ) → InsertStandsAtRid key_cols }
{}

/// And a base row that isn't deleted, as its modifies leave it, at that of its SID.
pub fn base_stands_at_rid()
    ensures { (key_cols : ℕ) → BaseStandsAtRid key_cols }
{}

/// Two transactions over one table conflict just where a first clash of their entries is found, by either rule.
pub fn conflict_is_found()
    ensures { (schema : Columns) → ConflictIsFound schema }
{}

/// A first clash is two entries that clash, with the least place in the one list, then in the other.
pub fn first_clash_is_least()
    ensures { (key_cols : ℕ) → FirstClashIsLeast key_cols }
{}

/// Entries made consecutive to those of a transaction that they don't conflict with are the entries over the table after
/// it (Héman et al. 2010, "Serialize").
pub fn rebases_entries()
    ensures { (schema : Columns) → RebasesEntries schema }
{}

/// Entries over the image of a tree, folded into the tree, are those of the composed effects (Héman et al. 2010,
/// "Propagate").
pub fn folds_to_composed()
    ensures { (schema : Columns) → FoldsToComposed schema }
{}

/// A transaction made consecutive to the commits since its begin, one at a time, is stopped just where it conflicts with
/// one of them.
pub fn decides_in_turn()
    ensures { (schema : Columns) → DecidesInTurn schema }
{}

/// Where it conflicts with none, its effects fit the newest table.
pub fn fits_the_newest()
    ensures { (schema : Columns) → FitsTheNewest schema }
{}

/// Each commit of a legal history is over the table that it found, whatever the number at which the history starts.
pub fn legal_commits_fit()
    ensures { (schema : Columns) → LegalCommitsFit schema }
{}

/// No table of a legal history has more rows than the limit.
pub fn legal_tables_keep_limit()
    ensures { (schema : Columns) → LegalTablesKeepLimit schema }
{}
