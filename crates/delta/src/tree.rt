//! The tree: a counted tree of shared entries.
ghost use Rattle.std.specs.Prelude.{◌≡◌, IfOk, length, []};
ghost use Rattle.counted.specs.Trees.{IsDepth};
ghost use Rattle.delta.specs.Lookups.{total_of};

use counted::{ChangeRef, CountedTree, SharedEntry};
use model::{Change, Entry};
use std::alloc::Global;
use std::marker::Model;
use values::{NoMemory, Row};

/// The entries over the rows of an image, in order.
#[derive(Drop)]
pub struct DeltaTree {
    /// How many of a row's first cells are its key.
    pub(crate) key_cols: usize,
    /// Lawful: in order, at SIDs below 2^32, and at most 2^40 of them.
    pub(crate) tree: CountedTree,
    /// Where its nodes are made.
    pub(crate) alloc: Global,
}

impl Model for DeltaTree {
    ghost use Rattle.model.specs.Entries.{IsLawful};
    ghost use Rattle.delta.specs.Tree.{Tree};

    ghost Value = { Tree };

    ghost view = { λ t. record { key_cols = t.key_cols; entries = t.tree.entries } };

    ghost invariant = { λ t. IsLawful t.key_cols t.tree.entries };
}

impl DeltaTree {
    ghost use Rattle.model.specs.Entries.{IsLawful};

    /// A tree with no entries, over rows whose key is their first `key_cols` cells. It takes no memory.
    pub fn new(alloc: Global, key_cols: usize) -> DeltaTree
        ensures { result ≡ record { key_cols = key_cols; entries = [] } }
    {
        DeltaTree {
            key_cols,
            tree: CountedTree::new(),
            alloc,
        }
    }

    /// A tree of these entries, over rows whose key is their first `key_cols` cells.
    ///
    /// # Errors
    ///
    /// `NoMemory` where a growth is refused.
    pub fn from_sorted(
        alloc: Global,
        key_cols: usize,
        entries: Vec<Entry>,
    ) -> Result<DeltaTree, NoMemory>
        requires { IsLawful key_cols entries.items }
        ensures { IfOk result (λ tree. tree ≡ record { key_cols = key_cols; entries = entries.items }) }
    {
        let tree = CountedTree::from_sorted(alloc, entries)?;
        Ok(DeltaTree {
            key_cols,
            tree,
            alloc,
        })
    }

    /// A tree of these entries, which go on sharing their changes.
    ///
    /// # Errors
    ///
    /// `NoMemory` where a growth is refused.
    pub fn from_shared(
        alloc: Global,
        key_cols: usize,
        entries: Vec<SharedEntry>,
    ) -> Result<DeltaTree, NoMemory>
        requires { IsLawful key_cols entries.items }
        ensures { IfOk result (λ tree. tree ≡ record { key_cols = key_cols; entries = entries.items }) }
    {
        let tree = CountedTree::from_shared(alloc, entries)?;
        Ok(DeltaTree {
            key_cols,
            tree,
            alloc,
        })
    }

    /// Another tree of the same entries, which shares its nodes with this one.
    ///
    /// # Errors
    ///
    /// `NoMemory` where a growth is refused.
    pub fn copy(&self) -> Result<DeltaTree, NoMemory>
        ensures { IfOk result (λ tree. tree ≡ self.now) }
    {
        Ok(DeltaTree {
            key_cols: self.key_cols,
            tree: self.tree.copy()?,
            alloc: self.alloc,
        })
    }

    /// How many of a row's first cells are its key.
    pub fn key_cols(&self) -> usize
        ensures { result ≡ self.now.key_cols }
    {
        self.key_cols
    }

    /// How many entries the tree has.
    pub fn len(&self) -> usize
        ensures { result ≡ length self.now.entries }
    {
        self.tree.len()
    }

    /// How many levels of nodes it has.
    pub fn depth(&self) -> usize
        ensures { IsDepth result (length self.now.entries) }
    {
        self.tree.depth()
    }

    /// The inserts less the deletes: how many rows the image above has more than that below.
    pub fn total(&self) -> i64
        ensures total { result ≡ total_of self.now.entries }
        ensures lawful { IsLawful self.now.key_cols self.now.entries }
    {
        self.tree.total()
    }
}

/// The entry, with its change copied.
pub(crate) fn copy_entry(alloc: Global, entry: &SharedEntry) -> Result<Entry, NoMemory>
    ensures { IfOk result (λ copied. copied ≡ entry.now) }
{
    let change = match entry.change() {
        ChangeRef::Ins(row) => Change::Ins(Row::of_shared(row.copy()?)),
        ChangeRef::Del(key) => Change::Del(key.copy()?),
        ChangeRef::Mod(col, value) => Change::Mod(col, value.copy(alloc)?),
    };
    Ok(Entry {
        sid: entry.sid(),
        change,
    })
}
