//! A commit that is made again, from what was logged of it.
ghost use Rattle.std.specs.Prelude.{◌≡◌, ◌<◌, OnOk, OnErr, IfErr, length};
ghost use Rattle.merge.specs.Image.{IsLayer};
ghost use Rattle.model.specs.Effects.{table_with};

use crate::commit::MAX_RECORDS;
use crate::fault::RedoFault;
use crate::manager::Manager;
use delta::DeltaTree;
use merge::grown;

impl Manager {
    ghost use Rattle.manager.specs.Managed.{newest_table};
    ghost use Rattle.manager.specs.Redone.{IsRedone};

    /// Makes a commit again by its entries over the newest table, and starts the history after it: what the commit's client
    /// asked for isn't known any more. Numbers go on, and a transaction that began before it comes too late. It takes the
    /// time of the commit's fold into the Write-PDT.
    ///
    /// # Errors
    ///
    /// `TooManyRows` where the table after it has more rows than the row limit, and `NoMemory` where a growth is refused or
    /// 2^62 records were made: nothing changes.
    pub fn redo(&mut self, tree: DeltaTree) -> Result<(), RedoFault>
        requires layer { IsLayer self.old.schema (newest_table self.old) tree }
        ensures ok { OnOk result ((w : IsLayer self.old.schema (newest_table self.old) tree) → IsRedone self.old w.effects self.new) }
        ensures full { IfErr result (λ fault. fault ≡ RedoFault.TooManyRows → (w : IsLayer self.old.schema (newest_table self.old) tree)
            → self.old.start.limit < length (table_with (newest_table self.old) w.effects)) }
        ensures err { OnErr result (self.new ≡ self.old) }
    {
        if self.made >= MAX_RECORDS {
            return Err(RedoFault::NoMemory);
        }
        if grown(self.newest.len(), &tree) > self.row_limit() {
            return Err(RedoFault::TooManyRows);
        }
        let version = self.grant(tree)?.into_version();
        self.history = self.history.next(self.alloc, &version);
        self.kept.clear();
        self.made += 1;
        self.newest = version;
        Ok(())
    }
}
