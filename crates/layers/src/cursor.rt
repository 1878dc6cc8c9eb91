//! A place in a tree that goes forward past its entries, as those of another one over the same image come.
ghost use Rattle.std.specs.Prelude.{◌≡◌, ◌+◌, ◌<◌, ◌^◌, Some, slice_get};
ghost use Rattle.model.specs.Rebasing.{rebased_entry};
ghost use Rattle.delta.specs.Search.{stands_before, IsSplit};
ghost use Rattle.layers.specs.Passing.{AreBefore, IsCursor};
ghost use Rattle.layers.specs.Serialization.{IsClashBeside, clash_cmp};

use crate::ahead::Ahead;
use crate::beside::Beside;
use crate::clash::{clash_at, stands_before};
use delta::{ChangeRef, DeltaTree, SharedEntry};
use model::ConflictRule;

/// So many of a tree's entries are passed, and the others are ahead.
#[derive(Drop)]
pub(crate) struct Cursor<'a> {
    pub(crate) tree: &'a DeltaTree,
    pub(crate) ahead: Ahead<'a>,
    pub(crate) passed: usize,
    /// So many inserts are among those passed.
    pub(crate) added: u64,
    /// And so many deletes.
    pub(crate) gone: u64,
}

impl<'a> Cursor<'a> {
    /// Before all entries of the tree.
    pub(crate) fn of(tree: &'a DeltaTree) -> Cursor<'a>
        ensures tree { result.tree.now ≡ tree.now }
        ensures passed { result.passed ≡ 0 }
        ensures cursor { IsCursor result }
    {
        Cursor {
            tree,
            ahead: Ahead::of(tree),
            passed: 0,
            added: 0,
            gone: 0,
        }
    }

    /// What the tree makes of the entry, which has the index `i` in its own, past all entries that stand before it.
    pub(crate) fn find(&mut self, rule: ConflictRule, i: usize, entry: &SharedEntry) -> Beside
        requires cursor { IsCursor self.old }
        requires before { AreBefore rule self.old entry.now }
        requires sid { entry.now.sid < 2 ^ 63 }
        ensures rid { result.rid ≡ (rebased_entry self.old.tree.now.key_cols self.old.tree.now.entries entry.now).sid }
        ensures clash { IsClashBeside rule self.old.tree.now.key_cols i entry.now self.old.tree.now.entries result.clash }
        ensures before { AreBefore rule self.new entry.now }
        ensures tree { self.new.tree.now ≡ self.old.tree.now }
        ensures cursor { IsCursor self.new }
    {
        self.pass_before(rule, entry);
        Beside {
            rid: (entry.sid() + self.added).saturating_sub(self.gone),
            clash: clash_at(
                rule,
                self.tree.key_cols(),
                i,
                entry,
                self.passed,
                self.ahead.first(),
            ),
        }
    }

    /// Goes past the entries that stand before this one.
    fn pass_before(&mut self, rule: ConflictRule, entry: &SharedEntry)
        requires cursor { IsCursor self.old }
        requires before { AreBefore rule self.old entry.now }
        ensures split { IsSplit (stands_before (clash_cmp self.old.tree.now.key_cols rule entry.now.change) entry.now.sid)
            self.old.tree.now.entries self.new.passed }
        ensures tree { self.new.tree.now ≡ self.old.tree.now }
        ensures cursor { IsCursor self.new }
    {
        let key_cols = self.tree.key_cols();
        while let Some(there) = self.ahead.first() {
            if !stands_before(rule, key_cols, entry, there) {
                break;
            }
            self.pass(there);
        }
    }

    /// Goes past the next entry.
    fn pass(&mut self, there: &SharedEntry)
        requires cursor { IsCursor self.old }
        requires at { slice_get self.old.tree.now.entries self.old.passed ≡ Some there.now }
        ensures passed { self.new.passed ≡ self.old.passed + 1 }
        ensures tree { self.new.tree.now ≡ self.old.tree.now }
        ensures cursor { IsCursor self.new }
    {
        self.ahead.pass();
        self.passed += 1;
        match there.change() {
            ChangeRef::Ins(_) => self.added += 1,
            ChangeRef::Del(_) => self.gone += 1,
            ChangeRef::Mod(_, _) => {}
        }
    }
}
