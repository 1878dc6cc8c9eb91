//! Search, by SID or by position, and at one place by what is there.
ghost use Rattle.std.specs.Prelude.{◌≡◌, ◌+◌, ◌-◌, ◌*◌, ◌<◌, ◌≤◌, ◌+ℤ◌, pos, ℕ, ℤ, Option, Some, IsSome, length};
ghost use Rattle.std.specs.Prelude.{slice_get, take};
ghost use Rattle.std.specs.Ordering.{is_gt, is_lt};
ghost use Rattle.std.proofs.Common.{Ordering, Less};
ghost use Rattle.model.specs.declared.entry.Change.{Change};
ghost use Rattle.model.specs.declared.entry.Entry.{Entry};
ghost use Rattle.counted.specs.Few.{IsFew};
ghost use Rattle.counted.specs.declared.node.Child.{Child};
ghost use Rattle.counted.specs.Changes.{change_of};
ghost use Rattle.counted.specs.Descents.{IsAt};
ghost use Rattle.counted.specs.Leads.{lead_of};
ghost use Rattle.counted.specs.Search.{is_before, order, IsChildPlace, IsNear, IsPlace, IsReached, IsUp, MayMeet};
ghost use Rattle.counted.specs.Shapes.{AreChildren, all_items, items_of};
ghost use Rattle.counted.specs.Sums.{total, weight_of};

use crate::node::{Body, Child, Node};
use crate::spot::{Above, Spot};
use crate::{ChangeRef, SharedEntry, Steps};
use std::cmp::Ordering;
use std::sync::ledger::Ledger;

/// Where something is looked for.
#[derive(Clone, Copy)]
pub enum Target {
    /// At a SID.
    Sid(u64),
    /// At a position of the image above. The rows below are thought to go on without end.
    Rid(u64),
}

/// What is looked for there.
pub trait Probe {
    /// How it stands to a change that stands there.
    ghost stand: { Self → Change → Ordering };

    /// The same by what the change adds alone, where that tells.
    ghost by_weight: { Self → ℤ → Option Ordering };

    fn compare(&self, change: ChangeRef<'_>) -> Ordering
        ensures { result ≡ stand self.now (change_of change.entry) };

    /// How it stands to a change that adds so much, so that a search seldom reads a change.
    fn compare_weight(&self, weight: i64) -> Option<Ordering>
        ensures is { result ≡ by_weight self.now weight }
        ensures tells { (change : Change) (order : Ordering) → weight_of change ≡ weight → result ≡ Some order
            → stand self.now change ≡ order };
}

/// What is before all at a place.
pub struct First;

impl Probe for First {
    ghost stand = { λ p c. Less };

    ghost by_weight = { λ p w. Some Less };

    fn compare(&self, _change: ChangeRef<'_>) -> Ordering {
        Ordering::Less
    }

    fn compare_weight(&self, _weight: i64) -> Option<Ordering> {
        Some(Ordering::Less)
    }
}

impl Target {
    /// Whether an entry at the SID, so far above the rows below, stands before it.
    #[inline(always)]
    fn is_past(self, sid: u64, up: i64) -> bool
        requires { IsReached self sid up }
        ensures { result ≡ is_gt (order self sid up) }
    {
        match self {
            Target::Sid(to) => sid < to,
            Target::Rid(to) => sid as i64 + up < to as i64,
        }
    }

    /// Whether it stands behind it.
    #[inline(always)]
    fn is_short_of(self, sid: u64, up: i64) -> bool
        requires { IsReached self sid up }
        ensures { result ≡ is_lt (order self sid up) }
    {
        match self {
            Target::Sid(to) => to < sid,
            Target::Rid(to) => (to as i64) < sid as i64 + up,
        }
    }

    /// Which of those from one up to another is looked at next: by a SID the last one where that is the tree's, since keys that ascend
    /// go behind it, and else the one in the middle. By a position it is the first, since what those before it add is added up from
    /// the left.
    #[inline(always)]
    fn next_of(self, low: usize, high: usize, is_end: bool) -> usize
        requires { low < high }
        ensures low { low ≤ result }
        ensures high { result < high }
        ensures up { (up : ℤ) (sum : ℕ → ℤ) → IsUp self up (sum low) → IsUp self up (sum result) }
    {
        match self {
            Target::Sid(_) if is_end => high - 1,
            Target::Sid(_) => low + (high - low) / 2,
            Target::Rid(_) => low,
        }
    }

    /// How far above the rows below what comes behind a child is, by the same of the child. A SID asks for no rows.
    #[inline(always)]
    fn up_past_child(self, up: i64, children: &[Child], at: usize) -> i64
        requires children { AreChildren children.now }
        requires within { at < length children.now }
        requires up { (shift : ℤ) × IsNear shift (length (all_items children.now))
            × IsUp self up (total (all_items (take at children.now)) +ℤ shift) }
        ensures { (shift : ℤ) → IsUp self up (total (all_items (take at children.now)) +ℤ shift)
            → IsUp self result (total (all_items (take (at + 1) children.now)) +ℤ shift) }
    {
        match self {
            Target::Sid(_) => up,
            Target::Rid(_) => up + children[at].net,
        }
    }

    /// The same of an entry of a leaf.
    #[inline(always)]
    fn up_past_entry(self, up: i64, entries: &[SharedEntry], at: usize) -> i64
        requires within { at < length entries.now }
        requires up { (shift : ℤ) × IsNear shift (length entries.now) × IsUp self up (total (take at entries.now) +ℤ shift) }
        ensures { (shift : ℤ) → IsUp self up (total (take at entries.now) +ℤ shift)
            → IsUp self result (total (take (at + 1) entries.now) +ℤ shift) }
    {
        match self {
            Target::Sid(_) => up,
            Target::Rid(_) => up + entries[at].weight(),
        }
    }
}

impl Node {
    /// Where what is looked for stands. It reads one node on each level, and more only where what a change adds doesn't tell
    /// how it stands to that.
    #[inline(always)]
    pub(crate) fn find<P: Probe, L: Ledger>(
        &self,
        target: Target,
        probe: &P,
        steps: &mut Steps<L>,
    ) -> Spot<'_>
        requires met { MayMeet target self.now.items }
        requires few { IsFew (length self.now.items) }
        ensures place { IsPlace (is_before (P.stand probe.now) target) (pos 0) self.now.items result.index }
        ensures at { IsAt self.now.items result.index result.shift result.leaf.now result.lead }
        ensures steps { ((weight : ℤ) → IsSome (P.by_weight probe.now weight)) → steps.new ≡ steps.old + self.now.depth }
    {
        let (mut node, mut above) = (self, Above::root());
        let mut is_last = true;
        loop {
            match node.read(steps) {
                Body::Leaf(entries) => {
                    let at = place_in(entries, target, above.shift, is_last, probe);
                    return above.spot(entries, at);
                }
                Body::Inner(children) => {
                    let at = child_before(children, target, above.shift, is_last, probe, steps);
                    is_last = is_last && at + 1 == children.len();
                    above = above.child(children, at);
                    node = &children[at].node;
                }
            }
        }
    }
}

/// The last child found whose first entry is before what is looked for, or else the first, where the first child's entries
/// are `shift` above the rows below. The last child is looked at first where no entry of the tree is behind it.
#[inline(always)]
fn child_before<P: Probe, L: Ledger>(
    children: &[Child],
    target: Target,
    shift: i64,
    is_last: bool,
    probe: &P,
    steps: &mut Steps<L>,
) -> usize
    requires children { AreChildren children.now }
    requires met { MayMeet target (all_items children.now) }
    requires near { IsNear shift (length (all_items children.now)) }
    ensures place { IsChildPlace (is_before (P.stand probe.now) target) shift children.now result }
    ensures steps { ((weight : ℤ) → IsSome (P.by_weight probe.now weight)) → steps.new ≡ steps.old }
{
    let mut low = 0;
    let mut high = children.len();
    let mut up = target.up_past_child(shift, children, low);
    while low + 1 < high {
        let next = target.next_of(low + 1, high, is_last && high == children.len());
        if begins_before(&children[next], target, up, probe, steps) {
            low = next;
            up = target.up_past_child(up, children, low);
        } else {
            high = next;
        }
    }
    low
}

/// Whether the first entry of a child, so far above the rows below, is before what is looked for.
#[inline(always)]
fn begins_before<P: Probe, L: Ledger>(
    child: &Child,
    target: Target,
    up: i64,
    probe: &P,
    steps: &mut Steps<L>,
) -> bool
    requires some { 1 ≤ length (items_of child.now) }
    requires lead { (e : Entry) → slice_get (items_of child.now) 0 ≡ Some e → child.now.lead ≡ lead_of e }
    requires reached { IsReached target child.now.lead.sid up }
    ensures before { (e : Entry) → slice_get (items_of child.now) 0 ≡ Some e
        → is_before (P.stand probe.now) target e up ≡ result }
    ensures steps { ((weight : ℤ) → IsSome (P.by_weight probe.now weight)) → steps.new ≡ steps.old }
{
    let lead = child.lead;
    if target.is_past(lead.sid, up) {
        return true;
    }
    if target.is_short_of(lead.sid, up) {
        return false;
    }
    match probe.compare_weight(lead.weight) {
        Some(order) => order.is_gt(),
        None => probe.compare(child.node.first(steps).change()).is_gt(),
    }
}

impl SharedEntry {
    /// Whether it stands before what is looked for, where it is so far above the rows below. It reads its change only where
    /// what that adds doesn't tell.
    #[inline(always)]
    pub fn is_before<P: Probe>(&self, target: Target, up: i64, probe: &P) -> bool
        requires { IsReached target self.now.sid up }
        ensures { is_before (P.stand probe.now) target self.now up ≡ result }
    {
        if target.is_past(self.sid(), up) {
            return true;
        }
        if target.is_short_of(self.sid(), up) {
            return false;
        }
        match probe.compare_weight(self.weight()) {
            Some(order) => order.is_gt(),
            None => probe.compare(self.change()).is_gt(),
        }
    }
}

/// How many entries of a leaf, which are `shift` above the rows below, are before what is looked for. The last one is looked at
/// first where no entry of the tree is behind it.
#[inline(always)]
fn place_in<P: Probe>(
    entries: &[SharedEntry],
    target: Target,
    shift: i64,
    is_last: bool,
    probe: &P,
) -> usize
    requires met { MayMeet target entries.now }
    requires near { IsNear shift (length entries.now) }
    ensures { IsPlace (is_before (P.stand probe.now) target) shift entries.now result }
{
    let mut low = 0;
    let mut high = entries.len();
    let mut up = shift;
    while low < high {
        let next = target.next_of(low, high, is_last && high == entries.len());
        if entries[next].is_before(target, up, probe) {
            low = next + 1;
            up = target.up_past_entry(up, entries, next);
        } else {
            high = next;
        }
    }
    low
}
