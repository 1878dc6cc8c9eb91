//! Where something is in a tree, with the entries from there on, which the same descent hands over.
ghost use Rattle.std.specs.Prelude.{◌≡◌, ◌<◌, ◌^◌, List, pos, drop, slice_get, take};
ghost use Rattle.std.specs.Option.{option_copied};
ghost use Rattle.model.specs.declared.entry.Entry.{Entry};
ghost use Rattle.counted.specs.Descents.{IsAt};
ghost use Rattle.counted.specs.Search.{is_before, IsPlace, MayMeet};
ghost use Rattle.counted.specs.Sums.{total};

use crate::search::{Probe, Target};
use crate::spot::Spot;
use crate::tree::{CountedTree, place_uncounted};
use crate::{Iter, SharedEntry};
use std::marker::Brand;
use std::sync::ledger::Blank;

/// Where something is, or comes to stand: how many entries are before it, what those add, and the entries from there
/// on.
#[derive(Drop)]
pub struct EntryPlace<'a> {
    pub index: usize,
    pub shift: i64,
    pub entries: Iter<'a>,
}

impl<'a> EntryPlace<'a> {
    /// The entry there, if there is one.
    pub fn entry(&self) -> Option<&'a SharedEntry>
        ensures { (es : List Entry) → self.now.entries ≡ drop self.now.index es → option_copied result ≡ slice_get es self.now.index }
    {
        self.entries.first()
    }
}

impl CountedTree {
    /// Where what is looked for stands, where nobody counts nodes.
    #[inline(always)]
    pub fn place<P: Probe>(&self, target: Target, probe: &P) -> EntryPlace<'_>
        requires met { MayMeet target self.now.entries }
        ensures place { IsPlace (is_before (P.stand probe.now) target) (pos 0) self.now.entries result.index }
        ensures shift { result.shift ≡ total (take result.index self.now.entries) }
        ensures rest { result.entries ≡ drop result.index self.now.entries }
    {
        self.place_at(place_uncounted::<P, Brand>(self, target, probe, Blank::new(1)))
    }

    /// A place with the entries from there on. The leaf that the search ended at is at hand, so that no descent is made for
    /// its entries.
    fn place_at<'a>(&'a self, spot: Spot<'a>) -> EntryPlace<'a>
        requires { IsAt self.now.entries spot.index spot.shift spot.leaf.now spot.lead }
        ensures index { result.index ≡ spot.entry.index }
        ensures shift { result.shift ≡ spot.entry.shift }
        ensures rest { result.entries ≡ drop spot.entry.index self.now.entries }
    {
        EntryPlace {
            index: spot.index,
            shift: spot.shift,
            entries: self.iter_in(spot.index, spot.leaf),
        }
    }
}
