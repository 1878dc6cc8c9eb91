//! What the last commits changed.
ghost use Rattle.std.specs.Prelude.{◌≡◌, ◌-◌, IfSome, length};
ghost use Rattle.std.specs.Option.{option_copied};
ghost use Rattle.model.specs.Merging.{merged_rows};

use crate::manager::Manager;
use delta::DeltaTree;

impl Manager {
    ghost use Rattle.manager.specs.Kept.{kept_tree, kept_trees, rows_at};

    /// What the commit of this number changed: its entries over the table of the number before, where it is one of the last
    /// commits since the history's start. Takes no memory.
    pub fn changes(&self, number: u64) -> Option<&DeltaTree>
        ensures kept { option_copied result ≡ kept_tree self.now number }

        // Merged into the table of the number before, they are the table of this one.
        ensures merged { IfSome result (λ tree. merged_rows (rows_at self.now (number - 1)) tree.now.entries ≡ rows_at self.now number) }
    {
        let newest = self.newest.number();
        let count = self.kept.len();
        if number > newest || newest - number >= count as u64 {
            return None;
        }
        self.kept.get(count - 1 - (newest - number) as usize)
    }

    /// How many of the last commits' trees it keeps. Takes no memory.
    pub fn kept_len(&self) -> usize
        ensures { result ≡ length (kept_trees self.now) }
    {
        self.kept.len()
    }
}
