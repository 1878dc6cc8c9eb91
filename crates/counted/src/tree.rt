//! The tree.
ghost use Rattle.std.specs.Prelude.{◌≡◌, ℤ, pos, Some, IsSome, ◌+◌, ◌-◌, ◌*◌, ◌<◌, ◌≤◌, [], ◌∷◌, ◌++◌, take, drop, slice_get};
ghost use Rattle.std.specs.Prelude.{length, OnOk, OnErr, IfOk};
ghost use Rattle.std.specs.Arc.{arc_value};
ghost use Rattle.std.specs.List.{insert, remove};
ghost use Rattle.counted.specs.Edits.{put_items, edited};
ghost use Rattle.std.specs.Option.{option_copied};
ghost use Rattle.counted.specs.Descents.{IsAt};
ghost use Rattle.counted.specs.Few.{IsFew};
ghost use Rattle.counted.specs.Paths.{AreFrom};
ghost use Rattle.counted.specs.Search.{is_before, IsPlace, MayMeet};
ghost use Rattle.counted.specs.Sums.{total, shift_before, IsOrdered};
ghost use Rattle.counted.specs.Trees.{IsDepth, IsRoot};

use crate::node::bulk::{root_over, shared};
use crate::node::{Child, Node};
use crate::search::{First, Probe, Target};
use crate::spot::Spot;
use crate::{SharedEntry, Steps};
use model::Entry;
use std::alloc::{AllocError, Global};
use std::marker::{Brand, Model};
use std::sync::Arc;
use std::sync::ledger::{Blank, Ledger};

/// The entries of a tree, in order.
#[derive(Drop)]
pub struct CountedTree {
    pub(crate) root: Option<Arc<Node, Global>>,
    pub(crate) len: usize,
    pub(crate) net: i64,
}

impl Model for CountedTree {
    ghost use Rattle.counted.specs.Trees.{Tree};

    ghost Value = { Tree };

    ghost use Rattle.counted.specs.Roots.{view_of_root, IsTree};

    ghost view = { λ t. view_of_root t.root };

    ghost invariant = { λ t. IsTree t.root t.len t.net };
}

impl CountedTree {
    /// A tree with no entries. It takes no memory.
    pub fn new() -> CountedTree
        ensures { result ≡ record { entries = []; depth = 1 } }
    {
        CountedTree {
            root: None,
            len: 0,
            net: 0,
        }
    }

    /// How many entries it has.
    pub fn len(&self) -> usize
        ensures len { result ≡ length self.now.entries }
        ensures few { IsFew result }
    {
        self.len
    }

    /// Inserts minus deletes.
    pub fn total(&self) -> i64
        ensures { result ≡ total self.now.entries }
    {
        self.net
    }

    /// The number of levels.
    pub fn depth(&self) -> usize
        ensures depth { result ≡ self.now.depth }
        ensures levels { IsDepth result (length self.now.entries) }
    {
        match &self.root {
            None => 1,
            Some(root) => root.depth(),
        }
    }

    /// What the entries below the SID add.
    pub fn shift_before<L: Ledger>(&self, sid: u64, steps: &mut Steps<L>) -> i64
        requires ordered { IsOrdered self.now.entries }
        ensures shift { result ≡ shift_before sid self.now.entries }
        ensures steps { steps.new ≡ steps.old + self.now.depth }
        ensures levels { IsDepth self.now.depth (length self.now.entries) }
    {
        self.place_of(Target::Sid(sid), &First, steps).shift
    }

    /// The entry at an index that there is. It takes no memory.
    pub fn get(&self, at: usize) -> &SharedEntry
        requires { at < length self.now.entries }
        ensures { Some result.now ≡ slice_get self.now.entries at }
    {
        &self.leaf_from(at).0[0]
    }

    /// Where what is looked for stands.
    #[inline(always)]
    pub fn place_of<P: Probe, L: Ledger>(
        &self,
        target: Target,
        probe: &P,
        steps: &mut Steps<L>,
    ) -> Spot<'_>
        requires met { MayMeet target self.now.entries }
        ensures place { IsPlace (is_before (P.stand probe.now) target) (pos 0) self.now.entries result.index }
        ensures at { IsAt self.now.entries result.index result.shift result.leaf.now result.lead }
        ensures steps { ((weight : ℤ) → IsSome (P.by_weight probe.now weight)) → steps.new ≡ steps.old + self.now.depth }
        ensures levels { IsDepth self.now.depth (length self.now.entries) }
        ensures few { IsFew (length self.now.entries) }
    {
        match &self.root {
            None => Spot::first(steps),
            Some(root) => {
                root.levels();
                root.find(target, probe, steps)
            }
        }
    }

    /// A tree of these entries, none of which is copied.
    pub fn from_sorted(alloc: Global, entries: Vec<Entry>) -> Result<CountedTree, AllocError>
        requires { IsFew (length entries.items) }
        ensures { IfOk result (λ t. t.entries ≡ entries.items) }
    {
        let entries = shared(alloc, entries)?;
        CountedTree::from_shared(alloc, entries)
    }

    /// A tree of these entries, which go on sharing their changes.
    pub fn from_shared(alloc: Global, entries: Vec<SharedEntry>) -> Result<CountedTree, AllocError>
        requires { IsFew (length entries.items) }
        ensures { IfOk result (λ t. t.entries ≡ entries.items) }
    {
        if entries.is_empty() {
            return Ok(CountedTree::new());
        }
        let root = root_over(alloc, entries)?;
        Ok(CountedTree::of_root(Arc::new(alloc, root)?))
    }

    /// The entries from an index on that lie in one leaf, and the children behind it at the leaf's parent.
    pub(crate) fn leaf_from(&self, at: usize) -> (&[SharedEntry], &[Child])
        requires { at < length self.now.entries }
        ensures few { IsFew (length self.now.entries) }
        ensures some { 1 ≤ length result.0.now }
        ensures rest { drop at self.now.entries ≡ result.0.now ++ drop (at + length result.0.now) self.now.entries }
        ensures children { AreFrom self.now.entries (at + length result.0.now) result.1.now }
    {
        match &self.root {
            None => unreachable!(),
            Some(root) => root.leaf_from(at, &[]),
        }
    }

    /// The same tree, whose nodes are shared.
    pub fn copy(&self) -> Result<CountedTree, AllocError>
        ensures { IfOk result (λ t. t ≡ self.now) }
    {
        let root = match &self.root {
            None => None,
            Some(root) => Some(Arc::try_clone(root)?),
        };
        Ok(CountedTree {
            root,
            len: self.len,
            net: self.net,
        })
    }

    /// Puts an entry in at an index.
    pub fn insert(&mut self, alloc: Global, at: usize, entry: Entry) -> Result<(), AllocError>
        requires within { at ≤ length self.old.entries }
        requires few { IsFew (length self.old.entries + 1) }
        ensures ok { OnOk result (self.new.entries ≡ insert self.old.entries at entry) }
        ensures err { OnErr result (self.new ≡ self.old) }
    {
        let entry = SharedEntry::new(alloc, entry)?;
        self.edit(alloc, at, 0, Some(entry))
    }

    /// Takes away the entry at an index.
    pub fn remove(&mut self, alloc: Global, at: usize) -> Result<(), AllocError>
        requires within { at < length self.old.entries }
        requires few { IsFew (length self.old.entries + 1) }
        ensures ok { OnOk result (self.new.entries ≡ remove self.old.entries at) }
        ensures err { OnErr result (self.new ≡ self.old) }
    {
        self.edit(alloc, at, 1, None)
    }

    /// Puts an entry in the place of those from `start` up to `end`.
    pub fn replace_run(
        &mut self,
        alloc: Global,
        start: usize,
        end: usize,
        entry: Entry,
    ) -> Result<(), AllocError>
        requires start_le_end { start ≤ end }
        requires within { end ≤ length self.old.entries }
        requires few { IsFew (length self.old.entries + 1) }
        ensures ok { OnOk result (self.new.entries ≡ take start self.old.entries ++ entry ∷ drop end self.old.entries) }
        ensures err { OnErr result (self.new ≡ self.old) }
    {
        let entry = SharedEntry::new(alloc, entry)?;
        self.replace_shared(alloc, start, end, entry)
    }

    /// Puts an entry, which goes on sharing its change, in the place of those from `start` up to `end`.
    pub fn replace_shared(
        &mut self,
        alloc: Global,
        start: usize,
        end: usize,
        entry: SharedEntry,
    ) -> Result<(), AllocError>
        requires start_le_end { start ≤ end }
        requires within { end ≤ length self.old.entries }
        requires few { IsFew (length self.old.entries + 1) }
        ensures ok { OnOk result (self.new.entries ≡ take start self.old.entries ++ entry ∷ drop end self.old.entries) }
        ensures err { OnErr result (self.new ≡ self.old) }
    {
        if end - start <= 1 {
            return self.edit(alloc, start, end - start, Some(entry));
        }
        let mut tree = self.copy()?;
        tree.edit(alloc, start, 1, Some(entry))?;
        for _ in start + 1..end {
            tree.edit(alloc, start + 1, 1, None)?;
        }
        *self = tree;
        Ok(())
    }

    /// Replaces so many entries from an index on, one at most, by another, if there is one: in place where that can be
    /// done, and else by a new path.
    #[inline(always)]
    fn edit(
        &mut self,
        alloc: Global,
        at: usize,
        gone: usize,
        put: Option<SharedEntry>,
    ) -> Result<(), AllocError>
        requires one { gone ≤ 1 }
        requires within { at + gone ≤ length self.old.entries }
        requires few { IsFew (length self.old.entries + 1) }
        ensures ok { OnOk result (self.new.entries ≡ edited at gone (put_items put) self.old.entries) }
        ensures err { OnErr result (self.new ≡ self.old) }
    {
        if let Err(put) = self.edit_in_place(alloc, at, gone, put) {
            *self = self.edited(alloc, at, gone, put)?;
        }
        Ok(())
    }

    /// The tree with so many entries from an index on, one at most, replaced by another, if there is one. It shares all
    /// other nodes with this one, which stays as it is.
    #[inline(never)]
    fn edited(
        &self,
        alloc: Global,
        at: usize,
        gone: usize,
        put: Option<SharedEntry>,
    ) -> Result<CountedTree, AllocError>
        requires one { gone ≤ 1 }
        requires within { at + gone ≤ length self.now.entries }
        requires few { IsFew (length self.now.entries + 1) }
        ensures { IfOk result (λ t. t.entries ≡ edited at gone (put_items put) self.now.entries) }
    {
        let root = match &self.root {
            None => Arc::new(alloc, Node::leaf_of(alloc, put)?)?,
            Some(root) => root.edited_root(alloc, at, gone, put)?,
        };
        Ok(CountedTree::of_root(root))
    }

    /// The tree of a root.
    fn of_root(root: Arc<Node, Global>) -> CountedTree
        requires root { IsRoot (arc_value root) }
        requires few { IsFew (length (arc_value root).items) }
        ensures { result.entries ≡ (arc_value root).items }
    {
        let len = root.len();
        let net = root.total();
        CountedTree {
            root: Some(root),
            len,
            net,
        }
    }
}

/// Where what is looked for stands, by a count that is let go.
#[inline(always)]
pub(crate) fn place_uncounted<'a, P: Probe, L: Ledger>(
    tree: &'a CountedTree,
    target: Target,
    probe: &P,
    blank: Blank,
) -> Spot<'a>
    requires name { blank.name ≡ L.name }
    requires parts { blank.parts ≡ L.parts }
    requires some { 0 < L.parts }
    requires met { MayMeet target tree.now.entries }
    ensures place { IsPlace (is_before (P.stand probe.now) target) (pos 0) tree.now.entries result.index }
    ensures at { IsAt tree.now.entries result.index result.shift result.leaf.now result.lead }
{
    let mut steps = Steps::<L>::new(blank);
    tree.place_of(target, probe, &mut steps)
}
