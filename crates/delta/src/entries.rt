//! The entries of a tree, in order: all, and those at a SID.
ghost use Rattle.std.specs.Prelude.{◌≡◌, ◌==◌, filter};
ghost use Rattle.model.specs.Entries.{IsLawful};

use crate::tree::DeltaTree;
use counted::Iter;

impl DeltaTree {
    /// The entries in order. It takes no memory.
    pub fn iter(&self) -> Iter<'_>
        ensures all { result ≡ self.now.entries }
        ensures lawful { IsLawful self.now.key_cols self.now.entries }
    {
        self.tree.iter(0, self.tree.len())
    }

    /// The entries at the SID: the inserts by key, and then a delete, or modifies by column. Binary search finds the first
    /// and the last. It takes no memory.
    pub fn entries_at(&self, sid: u64) -> Iter<'_>
        ensures { result ≡ filter (λ e. e.sid == sid) self.now.entries }
    {
        let start = self.index_of_sid(sid);
        let end = self.index_past(sid);
        self.tree.iter(start, end - start)
    }
}
