//! The history: each transaction that asked to commit, in the order of the commits.
ghost use Rattle.std.specs.Prelude.{◌≡◌, ◌+◌, ◌<◌, ◌^◌, ◌++◌, ◌∷◌, [], cond, length, IsTrue, MatchOption, false};
ghost use Rattle.model.specs.History.{IsLegal};
ghost use Rattle.manager.specs.History.{start_at};

use crate::past::Past;
use model::{CommitReply, ConflictRule, Record};
use std::alloc::Global;
use std::collections::LinkedList;
use std::marker::Model;
use std::snapshot::Snapshot;
use txn::{Txn, Version};

/// The limits and the rule that a manager is opened with.
#[derive(Clone, Copy)]
pub(crate) struct Rules {
    /// How many rows a table may have.
    pub(crate) row_limit: u64,
    /// How many commits may come between a transaction's begin and its commit.
    pub(crate) recent: usize,
    /// Which modifies of one row conflict.
    pub(crate) conflicts: ConflictRule,
}

/// The records of the transactions that asked to commit since a start, in the order of their commits. Contracts see the
/// start beside them, and that they are legal from it on. A long one is dropped link by link, without recursion.
#[derive(Drop)]
pub struct History {
    /// The version at which it starts, for clauses alone.
    opening: Snapshot<Version>,
    /// The number of that version.
    base: u64,
    /// By what its records were decided.
    rules: Rules,
    /// All records, for clauses alone.
    all: Past,
    /// How many they are.
    count: u64,
    /// The records themselves, or nothing where they are only counted.
    kept: Option<LinkedList<Record>>,
    /// The trees of its commits up to this number are let go.
    floor: u64,
}

impl Model for History {
    ghost use Rattle.std.specs.Prelude.{◌≡◌, IfSome, length};
    ghost use Rattle.model.specs.History.{IsLegal};
    ghost use Rattle.txn.specs.Version.{table_version};
    ghost use Rattle.manager.specs.History.{Recorded, recorded_at, start_at, keeps_them};

    ghost Value = { Recorded };

    ghost view = { λ h. record (recorded_at (table_version h.opening.value) h.rules.row_limit h.rules.recent h.rules.conflicts h.all.records) {
      keeps = keeps_them h.kept;
      floor = h.floor;
    } };

    ghost invariant = { λ h. IsLegal h.opening.value.layers.stable.schema
        (start_at (table_version h.opening.value) h.rules.row_limit h.rules.recent h.rules.conflicts) h.all.records
        × (h.base ≡ h.opening.value.number)
        × (h.count ≡ length h.all.records)
        × IfSome h.kept (λ rs. rs ≡ h.all.records) };
}

impl History {
    ghost use Rattle.txn.specs.Version.{table_version};
    ghost use Rattle.manager.specs.History.{recorded_at};
    ghost use Rattle.manager.specs.Managed.{record_of};

    /// A history that starts at the version, with no records. Takes no memory.
    pub(crate) fn new(alloc: Global, opening: &Version, rules: Rules) -> History
        ensures { result ≡ recorded_at (table_version opening.now) rules.row_limit rules.recent rules.conflicts [] }
    {
        History {
            opening: Snapshot::of(opening),
            base: opening.number(),
            rules,
            all: Past::none(),
            count: 0,
            kept: Some(LinkedList::new(alloc)),
            floor: opening.number(),
        }
    }

    /// Adds records that are legal after those before them. Where it only counts them they come out again. Takes no memory, and the
    /// same time however many there are.
    pub(crate) fn enter(&mut self, links: LinkedList<Record>) -> LinkedList<Record>
        requires legal { IsLegal self.old.schema self.old.start (self.old.records ++ links) }
        requires few { length self.old.records + length links < 2 ^ 63 }
        ensures entered { self.new ≡ record self.old { records = self.old.records ++ links } }
        ensures left { result ≡ cond self.old.keeps [] links }
    {
        let mut links = links;
        self.all = self.all.and(&links);
        self.count += links.len() as u64;
        if let Some(kept) = &mut self.kept {
            kept.append(&mut links).unwrap();
        }
        links
    }

    /// Counts the record of one transaction more where none is kept, after which they are legal too. Takes no memory.
    pub(crate) fn count(&mut self, txn: &Txn, reply: CommitReply)
        requires counts { self.old.keeps ≡ false }
        requires legal { IsLegal self.old.schema self.old.start (self.old.records ++ record_of txn.now reply ∷ []) }
        requires few { length self.old.records + 1 < 2 ^ 63 }
        ensures { self.new ≡ record self.old { records = self.old.records ++ record_of txn.now reply ∷ [] } }
    {
        self.all = self.all.and_one(txn, &reply);
        self.count += 1;
    }

    /// Whether it keeps its records, or only counts them.
    pub(crate) fn keeps(&self) -> bool
        ensures { result ≡ self.now.keeps }
    {
        self.kept.is_some()
    }

    /// A history that starts at the version under the same rules, with no records. It keeps them where this one does.
    /// Takes no memory.
    pub(crate) fn next(&self, alloc: Global, opening: &Version) -> History
        ensures { result ≡ record (recorded_at (table_version opening.now) self.now.start.limit self.now.start.recent
            self.now.start.rule []) { keeps = self.now.keeps } }
    {
        let mut next = History::new(alloc, opening, self.rules);
        if self.kept.is_none() {
            next.count_only();
        }
        next
    }

    /// Drops its records, and keeps none from here on. Clauses see them as before.
    pub(crate) fn count_only(&mut self)
        ensures { self.new ≡ record self.old { keeps = false } }
    {
        self.kept = None;
    }

    /// Notes that the trees of its commits up to this number are let go.
    pub(crate) fn raise(&mut self, floor: u64)
        ensures { self.new ≡ record self.old { floor = floor } }
    {
        self.floor = floor;
    }

    /// The trees of its commits up to this number are let go.
    pub fn floor(&self) -> u64
        ensures { result ≡ self.now.floor }
    {
        self.floor
    }

    /// The number of commits before its start.
    pub fn base(&self) -> u64
        ensures { result ≡ self.now.start.base }
    {
        self.base
    }

    /// How many records it has, kept or only counted.
    pub fn len(&self) -> u64
        ensures { result ≡ length self.now.records }
    {
        self.count
    }

    /// Its records, which are legal from its start on; nothing where they are only counted.
    pub fn records(&self) -> Option<&LinkedList<Record>>
        ensures records { MatchOption result (self.now.keeps ≡ false) (λ rs. IsTrue self.now.keeps × (rs.now ≡ self.now.records)) }
        ensures legal { IsLegal self.now.schema self.now.start self.now.records }
    {
        self.kept.as_ref()
    }

    /// By what its records were decided.
    pub(crate) fn rules(&self) -> Rules
        ensures limit { result.row_limit ≡ self.now.start.limit }
        ensures recent { result.recent ≡ self.now.start.recent }
        ensures conflicts { result.conflicts ≡ self.now.start.rule }
    {
        self.rules
    }
}
