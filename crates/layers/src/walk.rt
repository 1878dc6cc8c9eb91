//! A tree folded into the tree below it by one walk over both.
ghost use Rattle.std.specs.Prelude.{◌≡◌, ◌+◌, ◌≤◌, ◌<◌, ◌^◌, ◌∷◌, [], ◌++◌, List, IfOk, OnOk, drop, length, slice_get};
ghost use Rattle.std.specs.List.{All};
ghost use Rattle.delta.specs.Lent.{change_of};
ghost use Rattle.model.specs.declared.entry.Entry.{Entry};
ghost use Rattle.model.specs.Folding.{added_by, gone_by, fold_from, lowered_entry};
ghost use Rattle.layers.specs.Over.{AreConsecutive};
ghost use Rattle.layers.specs.Propagation.{composed_tree};

use crate::ahead::Ahead;
use crate::meeting::{Meeting, changed, meet};
use delta::{ChangeRef, DeltaTree, SharedEntry};
use model::folds_to_composed;
use std::alloc::Global;
use values::NoMemory;

/// What a walk over both trees has still to fold, and what it has put.
#[derive(Drop)]
struct Walk<'a> {
    key_cols: usize,
    alloc: Global,
    /// The upper entries that are left.
    uppers: Ahead<'a>,
    /// So many inserts of the lower tree were passed.
    added: u64,
    /// And so many deletes.
    gone: u64,
    /// The entries so far.
    out: Vec<SharedEntry>,
}

impl<'a> Walk<'a> {
    /// Folds the upper entries that meet the lower one into it, and puts those that come before it, and what is left of it.
    fn fold(&mut self, lower: &SharedEntry) -> Result<(), NoMemory>
        requires lower { lower.now.sid < 2 ^ 32 }
        requires placed { All (λ e. e.sid < 2 ^ 32) self.old.uppers }
        requires few { self.old.added + self.old.gone < 2 ^ 40 }

        // Whatever lower entries follow: what is put, and what comes of the rest, is what was to come.
        ensures folded { OnOk result ((lowers : List Entry) → self.new.out.items ++ fold_from self.new.key_cols lowers self.new.added
            self.new.gone self.new.uppers
            ≡ self.old.out.items ++ fold_from self.old.key_cols (lower.now ∷ lowers) self.old.added self.old.gone self.old.uppers) }
        ensures placed { OnOk result (All (λ e. e.sid < 2 ^ 32) self.new.uppers) }
        ensures few { OnOk result (self.new.added + self.new.gone ≤ self.old.added + self.old.gone + 1) }
        ensures key_cols { self.new.key_cols ≡ self.old.key_cols }
    {
        let mut own = lower.copy()?;
        while let Some(upper) = self.uppers.first() {
            match meet(self.key_cols, self.added, self.gone, &own, upper) {
                Meeting::Upper => self.put_upper(upper)?,
                Meeting::Lower => break,
                Meeting::Over => return Ok(()),
                Meeting::Neither => {
                    self.uppers.pass();
                    self.count(own.change());
                    return Ok(());
                }
                Meeting::Into => {
                    own = changed(self.alloc, &own, upper)?;
                    self.uppers.pass();
                }
            }
        }
        self.count(own.change());
        self.out.push(own)?;
        Ok(())
    }

    /// Puts the next upper entry, at its place in the base of the lower tree.
    fn put_upper(&mut self, upper: &SharedEntry) -> Result<(), NoMemory>
        requires next { 0 < length self.old.uppers }
        requires upper { upper.now.sid < 2 ^ 32 }
        requires few { self.old.gone ≤ 2 ^ 40 }
        ensures out { OnOk result (self.new.out.items ≡ self.old.out.items ++ lowered_entry self.old.added self.old.gone upper.now ∷ []) }
        ensures uppers { OnOk result (self.new.uppers ≡ drop 1 self.old.uppers) }
        ensures added { self.new.added ≡ self.old.added }
        ensures gone { self.new.gone ≡ self.old.gone }
        ensures key_cols { self.new.key_cols ≡ self.old.key_cols }
    {
        let sid = (upper.sid() + self.gone).saturating_sub(self.added);
        self.out.push(upper.with_sid(sid)?)?;
        self.uppers.pass();
        Ok(())
    }

    /// Puts the upper entries that are left.
    fn put_rest(&mut self) -> Result<(), NoMemory>
        requires placed { All (λ e. e.sid < 2 ^ 32) self.old.uppers }
        requires few { self.old.gone ≤ 2 ^ 40 }
        ensures { OnOk result (self.new.out.items ≡ self.old.out.items ++ fold_from self.old.key_cols [] self.old.added self.old.gone
            self.old.uppers) }
    {
        while let Some(upper) = self.uppers.first() {
            self.put_upper(upper)?;
        }
        Ok(())
    }

    /// Counts a lower change that is passed.
    fn count(&mut self, lower: ChangeRef<'_>)
        requires few { self.old.added + self.old.gone < 2 ^ 40 }
        ensures added { self.new.added ≡ self.old.added + added_by (change_of lower.entry) }
        ensures gone { self.new.gone ≡ self.old.gone + gone_by (change_of lower.entry) }
        ensures out { self.new.out ≡ self.old.out }
        ensures uppers { self.new.uppers ≡ self.old.uppers }
        ensures key_cols { self.new.key_cols ≡ self.old.key_cols }
    {
        match lower {
            ChangeRef::Ins(_) => self.added += 1,
            ChangeRef::Del(_) => self.gone += 1,
            ChangeRef::Mod(_, _) => {}
        }
    }
}

/// The lower tree with the upper one folded into it, built anew of the entries of both. Those that stay share their rows.
pub(crate) fn fold_all(
    alloc: Global,
    lower: &DeltaTree,
    upper: &DeltaTree,
) -> Result<DeltaTree, NoMemory>
    requires { AreConsecutive lower.now upper.now }
    ensures { IfOk result (λ tree. (w : AreConsecutive lower.now upper.now) → tree ≡ composed_tree lower.now upper.now w) }
{
    folds_to_composed();
    let mut walk = Walk {
        key_cols: lower.key_cols(),
        alloc,
        uppers: Ahead::of(upper),
        added: 0,
        gone: 0,
        out: Vec::with_capacity(alloc, lower.len().saturating_add(upper.len()))?,
    };
    for entry in lower.iter() {
        walk.fold(entry)?;
    }
    walk.put_rest()?;
    Ok(DeltaTree::from_shared(alloc, lower.key_cols(), walk.out)?)
}
