//! The way down to the leaf of an edit, by which new nodes are made up to the root.
ghost use Rattle.std.specs.Prelude.{◌≡◌, ◌+◌, ◌≤◌, IfOk, length};
ghost use Rattle.counted.specs.Few.{IsFew};
ghost use Rattle.counted.specs.Grown.{IsGrown, grown_items};
ghost use Rattle.counted.specs.Branches.{AreBranches, IsPath, around, least_width};
ghost use Rattle.counted.specs.Trees.{IsRoot};

use crate::SharedEntry;
use crate::children::child_at;
use crate::node::edit::replaced;
use crate::node::grown::{Grown, grown_inner};
use crate::node::{Body, Child, Node};
use smallvec::SmallVec;
use std::alloc::{AllocError, Global};

/// A branch taken: the children of a node, and the index of the one that was gone into.
#[derive(Clone, Copy, Default)]
struct Branch<'a> {
    children: &'a [Child],
    index: usize,
}

/// The way from a node down to a leaf.
#[derive(Drop)]
pub(crate) struct Path<'a> {
    /// From the node down to the leaf's parent. There is room for those of the deepest tree, so that they take no memory.
    branches: SmallVec<Branch<'a>, 21>,
    pub(crate) leaf: &'a [SharedEntry],
    /// How many entries of the leaf the path was made for.
    pub(crate) end: usize,
}

impl Node {
    /// The way down to the leaf in which so many entries end. It takes no memory.
    pub(crate) fn path_to(&self, alloc: Global, end: usize) -> Path<'_>
        requires root { IsRoot self.now }
        requires within { end ≤ length self.now.items }
        requires few { IsFew (length self.now.items) }
        ensures { IsPath self.now end result }
    {
        self.levels();
        let mut branches = SmallVec::new(alloc);
        let (mut node, mut end) = (self, end);
        loop {
            match &node.body {
                Body::Leaf(leaf) => return Path {
                    branches,
                    leaf,
                    end,
                },
                Body::Inner(children) => {
                    let (index, rest) = child_at(children, end);
                    branches.push_reserved(Branch { children, index });
                    node = &children[index].node;
                    end = rest;
                }
            }
        }
    }
}

impl<'a> Path<'a> {
    /// What the node at the top of the path grows to where its leaf has grown to this: on each level, from the leaf's parent
    /// up, a new node over what the child became.
    pub(crate) fn grown(self, alloc: Global, leaf: Grown) -> Result<Grown, AllocError>
        requires branches { AreBranches 1 2 self.branches.items }
        requires leaf { IsGrown 1 (least_width self.branches.items) (grown_items leaf) leaf }
        requires few { IsFew (length (around self.branches.items (grown_items leaf))) }
        ensures { IfOk result (IsGrown (1 + length self.entry.branches.items) 0 (around self.entry.branches.items (grown_items leaf))) }
    {
        let Path { mut branches, .. } = self;
        let mut grown = leaf;
        while let Some(branch) = branches.pop() {
            grown = grown_inner(replaced(alloc, branch.children, branch.index, grown)?)?;
        }
        Ok(grown)
    }
}
