//! A Read-PDT as the versions over it share it: a tree, which a scan may read as it is packed.
ghost use Rattle.std.specs.Prelude.{◌≡◌, IfOk, IfSome};
ghost use Rattle.std.specs.Option.{option_copied};
ghost use Rattle.merge.specs.Packed.{IsPacked};

use crate::packed::Packed;
use delta::DeltaTree;
use std::alloc::Global;
use std::marker::Model;
use values::{NoMemory, Schema};

/// A Read-PDT. Whether it is packed decides how fast a scan is, and is nothing that a contract sees.
#[derive(Drop)]
pub struct ReadTree {
    tree: DeltaTree,
    /// The entries of the tree, where they are packed.
    packed: Option<Packed>,
}

impl Model for ReadTree {
    ghost use Rattle.std.specs.Prelude.{IfSome};
    ghost use Rattle.delta.specs.Tree.{Tree};
    ghost use Rattle.merge.specs.Packed.{IsPacked};

    ghost Value = { Tree };

    ghost view = { λ r. r.tree };

    ghost invariant = { λ r. IfSome r.packed (IsPacked r.tree.entries) };
}

impl ReadTree {
    /// The tree, not packed. Takes no memory.
    pub fn new(tree: DeltaTree) -> ReadTree
        ensures { result ≡ tree }
    {
        ReadTree { tree, packed: None }
    }

    /// The same tree, packed, for rows with these columns. The nodes of the tree are shared.
    ///
    /// # Errors
    ///
    /// `NoMemory` where a growth, or one owner more, is refused.
    pub fn to_packed(&self, alloc: Global, schema: &Schema) -> Result<ReadTree, NoMemory>
        ensures { IfOk result (λ packed. packed ≡ self.now) }
    {
        let packed = Packed::of(alloc, &self.tree, schema)?;
        Ok(ReadTree {
            tree: self.tree.copy()?,
            packed: Some(packed),
        })
    }

    /// The tree.
    #[inline(always)]
    pub fn tree(&self) -> &DeltaTree
        ensures { result.now ≡ self.now }
    {
        &self.tree
    }

    /// The entries of the tree as they are packed, where they are.
    #[inline(always)]
    pub fn packed(&self) -> Option<&Packed>
        ensures { IfSome (option_copied result) (IsPacked self.now.entries) }
    {
        self.packed.as_ref()
    }
}
