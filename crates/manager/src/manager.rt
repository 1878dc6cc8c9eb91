//! The manager's type: what it is opened with, what it holds, and what it lends.
ghost use Rattle.std.specs.Prelude.{◌≡◌, ◌≤◌, ◌^◌, length, false, IfOk, IsOkUnless, MatchOption, Err};
ghost use Rattle.txn.specs.Txn.{Transaction};
ghost use Rattle.manager.specs.declared.fault.OpenFault.{OpenFault};
ghost use Rattle.manager.specs.Managed.{is_bad_limit};
ghost use Rattle.merge.specs.Image.{image_rows, image_table, stack_below};
ghost use Rattle.model.specs.Table.{rows_of};
ghost use Rattle.txn.specs.Version.{numbered, table_version};
ghost use Rattle.values.specs.declared.limits.TheConstants.{MAX_ROWS};

use crate::fault::OpenFault;
use crate::history::{History, Rules};
use circular_buffer::HeapCircularBuffer;
use delta::DeltaTree;
use merge::Layers;
use model::ConflictRule;
use stable::StableTable;
use std::alloc::Global;
use std::marker::Model;
use std::sync::Arc;
use txn::{Txn, Version};
use values::NoMemory;
use values::limits::{MAX_RECENT_COMMITS, MAX_ROWS};

/// The newest version of a table, and the history of the transactions that asked to commit.
#[derive(Drop)]
pub struct Manager {
    pub(crate) history: History,
    /// How many records were made, each commit before the opening counted as one.
    pub(crate) made: u64,
    pub(crate) newest: Version,
    /// The trees of the last commits, each over the table that its commit found.
    pub(crate) kept: HeapCircularBuffer<DeltaTree>,
    pub(crate) alloc: Global,
}

impl Model for Manager {
    ghost use Rattle.std.specs.Prelude.{◌≡◌};
    ghost use Rattle.manager.specs.Managed.{Managed, managed_of};
    ghost use Rattle.manager.specs.Kept.{HoldsNewest};

    ghost Value = { Managed };

    ghost view = { λ m. managed_of m.history m.made m.newest.layers };

    ghost invariant = { λ m. HoldsNewest (managed_of m.history m.made m.newest.layers) m.newest.layers m.newest m.kept.items
        × (m.kept.capacity ≡ m.history.start.recent) };
}

impl Manager {
    ghost use Rattle.manager.specs.Managed.{opened, opened_at, fault_of_opening, begun_at, newest_number, newest_table, newest_version, history_of, IsManaged, IsOwn};

    /// A manager of this table, whose numbers of commits count from 0, under a limit of its rows and of the commits that
    /// may come between a transaction's begin and its commit, and a rule of what conflicts.
    ///
    /// # Errors
    ///
    /// `BadLimit` where the row limit isn't 1 to 2,147,483,647 or the recent commits aren't 1 to 65,536, then
    /// `TooManyRows` where the table has more rows than the limit, then `NoMemory` where a growth is refused.
    pub fn open(
        alloc: Global,
        table: StableTable,
        recent: usize,
        row_limit: u64,
        conflicts: ConflictRule,
    ) -> Result<Manager, OpenFault>
        ensures ok { IfOk result (λ manager. manager ≡ opened table row_limit recent conflicts) }
        ensures fault { MatchOption (fault_of_opening table recent row_limit) (IsOkUnless result OpenFault.NoMemory)
            (λ fault. result ≡ Err fault) }
    {
        Manager::open_at(alloc, table, 0, recent, row_limit, conflicts)
    }

    /// A manager of this table, which so many commits made: as `open` makes it, but that numbers of commits go on from
    /// there, and that it counts those commits as records which were made.
    ///
    /// # Errors
    ///
    /// As `open`.
    pub fn open_at(
        alloc: Global,
        table: StableTable,
        number: u64,
        recent: usize,
        row_limit: u64,
        conflicts: ConflictRule,
    ) -> Result<Manager, OpenFault>
        requires few { number ≤ 2 ^ 62 }
        ensures ok { IfOk result (λ manager. manager ≡ opened_at number table row_limit recent conflicts) }
        ensures fault { MatchOption (fault_of_opening table recent row_limit) (IsOkUnless result OpenFault.NoMemory)
            (λ fault. result ≡ Err fault) }
    {
        if is_bad_limit(recent, row_limit) {
            return Err(OpenFault::BadLimit);
        }
        if table.len() > row_limit {
            return Err(OpenFault::TooManyRows);
        }
        let newest = Version::new(alloc, Arc::new(alloc, table)?, number)?;
        let rules = Rules {
            row_limit,
            recent,
            conflicts,
        };
        Ok(Manager {
            history: History::new(alloc, &newest, rules),
            made: number,
            newest,
            kept: HeapCircularBuffer::with_capacity(alloc, recent)?,
            alloc,
        })
    }

    /// A transaction of the client over the newest table. Takes the same time whatever the table and its layers hold.
    ///
    /// # Errors
    ///
    /// `NoMemory` where a growth, or a share of the version, is refused.
    pub fn begin(&self, client: u32) -> Result<Txn, NoMemory>
        ensures { IfOk result (λ txn. txn ≡ begun_at self.now client) }
    {
        Txn::open(
            self.alloc,
            self.newest.copy()?,
            client,
            self.history.rules().row_limit,
        )
    }

    /// Drops the records that it keeps, and keeps none from here on: its memory no longer grows with the commits. Clauses
    /// see the whole history as before.
    pub fn count_only(&mut self)
        ensures counted { self.new ≡ record self.old { keeps = false } }
        ensures own { (txn : Transaction) → IsOwn self.old txn → IsOwn self.new txn }
    {
        self.history.count_only();
    }

    /// The history: each transaction that asked to commit since its start, in the order of the commits. Takes no memory.
    pub fn history(&self) -> &History
        ensures history { result.now ≡ history_of self.now }
        ensures lawful { IsManaged self.now }
    {
        &self.history
    }

    /// The layers of the newest table, whose image is its rows. Takes no memory.
    pub fn newest(&self) -> Layers<'_>
        ensures schema { result.schema ≡ self.now.schema }
        ensures rows { image_rows result ≡ rows_of (newest_table self.now) }
        ensures table { image_table result ≡ newest_table self.now }
        ensures few { length (image_rows result) ≤ MAX_ROWS }
        ensures layers { result ≡ stack_below self.now.layers.stable self.now.layers.read self.now.layers.write }
    {
        self.newest.image()
    }

    /// The stable table under the newest version. Takes no memory.
    pub fn stable(&self) -> &StableTable
        ensures { result.now ≡ self.now.layers.stable }
    {
        self.newest.stable()
    }

    /// The Read-PDT of the newest version. Takes no memory.
    pub fn read_tree(&self) -> &DeltaTree
        ensures { result.now ≡ self.now.layers.read }
    {
        self.newest.read_tree()
    }

    /// The Write-PDT of the newest version. Takes no memory.
    pub fn write_tree(&self) -> &DeltaTree
        ensures { result.now ≡ self.now.layers.write }
    {
        self.newest.write_tree()
    }

    /// The newest version. Takes no memory.
    pub fn version(&self) -> &Version
        ensures layers { result.now ≡ numbered self.now.layers (newest_number self.now) }
        ensures table { table_version result.now ≡ newest_version self.now }
    {
        &self.newest
    }

    /// The number at which the history starts: how many commits came before it.
    pub fn base(&self) -> u64
        ensures { result ≡ self.now.start.base }
    {
        self.history.base()
    }

    /// Transactions that began below this number are no longer decided: the trees of the commits up to it are let go, by a cut or
    /// by `cut_to`. It is the base or above.
    pub fn floor(&self) -> u64
        ensures { result ≡ self.now.floor }
    {
        self.history.floor()
    }

    /// How many records it made, those that a cut has handed out among them. Each commit before its opening counts as one.
    pub fn made(&self) -> u64
        ensures { result ≡ self.now.made }
    {
        self.made
    }

    /// How many rows a table may have.
    pub fn row_limit(&self) -> u64
        ensures { result ≡ self.now.start.limit }
    {
        self.history.rules().row_limit
    }

    /// How many commits may come between a transaction's begin and its commit.
    pub fn recent(&self) -> usize
        ensures { result ≡ self.now.start.recent }
    {
        self.history.rules().recent
    }
}

/// Whether a limit is outside its range.
fn is_bad_limit(recent: usize, row_limit: u64) -> bool
    ensures { result ≡ is_bad_limit recent row_limit }
{
    recent == 0 || recent > MAX_RECENT_COMMITS || row_limit == 0 || row_limit > MAX_ROWS
}
