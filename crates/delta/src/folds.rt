//! Where an entry over the image is folded in, found by one search.
ghost use Rattle.std.specs.Prelude.{◌≡◌, ◌<◌, ◌^◌, IsTrue};
ghost use Rattle.values.specs.Shape.{key_of};
ghost use Rattle.counted.specs.Changes.{change_of};
ghost use Rattle.model.specs.Entries.{IsLawful};
ghost use Rattle.model.specs.declared.entry.Change.TheVariants.{Ins};
ghost use Rattle.delta.specs.declared.places.Place.{Place};
ghost use Rattle.delta.specs.declared.places.Place.TheVariants.{Base};
ghost use Rattle.delta.specs.Ahead.{IsAhead};
ghost use Rattle.delta.specs.Folds.{row_of_fold, IsRunOf, IsFold, IsOnlyFold};
ghost use Rattle.delta.specs.Positions.{deletes_below, deletes_ascend, past_some_deletes, past_where, IsAtRid};
ghost use Rattle.delta.specs.Search.{base_cmp, stands_before, IsSplit};

use crate::changes::modify_worth;
use crate::places::{Place, Walk, next_row, past_where, row_at};
use crate::sorted::Ahead;
use crate::tree::DeltaTree;
use counted::{ChangeRef, Probe, Target};
use std::cmp::Ordering;
use values::{SharedRow, Value};

/// Where an entry over the image is folded in.
#[derive(Clone, Copy)]
pub enum Fold {
    /// Into the insert that is the entry at this index, which changes or goes.
    Into(usize),
    /// At a SID, in the place of the entries from one index up to another.
    Put(u64, usize, usize),
}

/// A row to come, which is after the deletes of smaller keys.
#[derive(Drop)]
struct RowOf<'a> {
    key: &'a [Value],
}

impl<'a> Probe for RowOf<'a> {
    ghost stand = { λ p c. past_where (deletes_below p.key.now c) };

    ghost by_weight = { λ p. past_some_deletes };

    fn compare(&self, change: ChangeRef<'_>) -> Ordering {
        past_where(deletes_below(self.key, change))
    }

    fn compare_weight(&self, weight: i64) -> Option<Ordering> {
        if weight < 0 {
            None
        } else {
            Some(Ordering::Less)
        }
    }
}

impl DeltaTree {
    /// Where the change of a row at a position of the image is folded in: an insert, whose row comes to the position, past
    /// the deletes, among those just before the row that stands there, of smaller keys; another change where that row
    /// stands. One descent, and from there on past the modifies of the row; it takes no memory.
    pub fn find_fold(&self, rid: u64, change: ChangeRef<'_>) -> Fold
        requires rid { rid < 2 ^ 63 }

        // So that those of smaller keys stand first among the deletes just before a row.
        requires ascending { IsTrue (deletes_ascend self.now.entries) }
        ensures fold { IsFold self.now.key_cols self.now.entries rid (change_of change.entry) result }
        ensures only { IsOnlyFold self.now.key_cols self.now.entries rid (change_of change.entry) result }
    {
        match change {
            ChangeRef::Ins(row) => self.find_gap(rid, row),
            ChangeRef::Del(_) => self.find_row(rid, change),
            ChangeRef::Mod(_, _) => self.find_row(rid, change),
        }
    }

    /// Where an insert of the row stands whose row comes to a position of the image.
    fn find_gap(&self, rid: u64, row: &SharedRow) -> Fold
        requires rid { rid < 2 ^ 63 }
        requires ascending { IsTrue (deletes_ascend self.now.entries) }
        ensures fold { IsFold self.now.key_cols self.now.entries rid (Ins row.now) result }
        ensures only { IsOnlyFold self.now.key_cols self.now.entries rid (Ins row.now) result }
    {
        let sought = RowOf {
            key: row.key(self.key_cols),
        };
        let place = self.tree.place(Target::Rid(rid), &sought);
        let sid = next_row(&self.tree, rid, &sought, place.index, place.shift);
        Fold::Put(sid, place.index, place.index)
    }

    /// Where the row at a position stands, and the entries in whose place a change of it is put, if it is a base row.
    fn find_row(&self, rid: u64, change: ChangeRef<'_>) -> Fold
        requires rid { rid < 2 ^ 63 }
        ensures at { IsAtRid self.now.entries rid (row_of_fold result) }
        ensures only { (place : Place) → IsAtRid self.now.entries rid place → place ≡ row_of_fold result }
        ensures run { IsRunOf self.now.key_cols self.now.entries (change_of change.entry) result }
    {
        let Walk {
            index,
            sid,
            entries: mut rest,
        } = self.find_walk(rid);
        let next = rest.next();
        match row_at(next, index, sid) {
            Place::Inserted(at) => Fold::Into(at),
            Place::Base(_) => self.run_from(Ahead { index, next, rest }, sid, change),
        }
    }

    /// The entries in whose place a change of a base row is put, from where they stand on.
    fn run_from(&self, ahead: Ahead<'_>, sid: u64, change: ChangeRef<'_>) -> Fold
        requires lawful { IsLawful self.now.key_cols self.now.entries }
        requires ahead { IsAhead self.now.entries ahead }
        requires split { IsSplit (stands_before base_cmp sid) self.now.entries ahead.index }
        ensures row { row_of_fold result ≡ Base sid }
        ensures run { IsRunOf self.now.key_cols self.now.entries (change_of change.entry) result }
    {
        match change {
            ChangeRef::Ins(_) => Fold::Put(sid, ahead.index, ahead.index),
            ChangeRef::Del(_) => {
                let start = ahead.index;
                Fold::Put(sid, start, self.end_of(ahead, sid))
            }
            ChangeRef::Mod(col, _) => {
                let (start, entry) = self.modify_from(ahead, sid, col);
                Fold::Put(sid, start, start + modify_worth(entry, sid, col))
            }
        }
    }
}

/// Whether the change deletes a row of a smaller key.
fn deletes_below(key: &[Value], change: ChangeRef<'_>) -> bool
    ensures { result ≡ deletes_below key.now (change_of change.entry) }
{
    match change {
        ChangeRef::Del(gone) => gone.cells().cmp(key).is_lt(),
        _ => false,
    }
}
