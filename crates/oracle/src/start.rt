//! Where a history starts, and by what it goes on.
ghost use Rattle.std.specs.Prelude.{◌≡◌, ◌<◌, ◌^◌};

use crate::table::OrderedTable;
use model::ConflictRule;
use std::marker::Model;

/// The table at which a history starts, how many commits came before, how many rows a table may have, how many
/// commits may come between a transaction's begin and its commit, and what conflicts.
#[derive(Drop)]
pub struct Start {
    table: OrderedTable,
    /// Below 2^63, so that the numbers of all commits to come fit 64 bits.
    base: u64,
    limit: u64,
    recent: usize,
    rule: ConflictRule,
}

impl Model for Start {
    ghost use Rattle.std.specs.Prelude.{◌<◌, ◌^◌};
    ghost use Rattle.model.specs.History.{Start as Started};

    ghost Value = { Started };

    ghost view = { λ s. record { table = s.table; base = s.base; limit = s.limit; recent = s.recent; rule = s.rule } };

    ghost invariant = { λ s. s.base < 2 ^ 63 };
}

impl Start {
    /// A start from this table, which so many commits made.
    pub fn new(
        table: OrderedTable,
        base: u64,
        limit: u64,
        recent: usize,
        rule: ConflictRule,
    ) -> Start
        requires { base < 2 ^ 63 }
        ensures { result
            ≡ record { table = table; base = base; limit = limit; recent = recent; rule = rule } }
    {
        Start {
            table,
            base,
            limit,
            recent,
            rule,
        }
    }

    /// The table.
    pub fn table(&self) -> &OrderedTable
        ensures { result.now ≡ self.now.table }
    {
        &self.table
    }

    /// How many commits made it.
    pub fn base(&self) -> u64
        ensures number { result ≡ self.now.base }
        ensures small { self.now.base < 2 ^ 63 }
    {
        self.base
    }

    /// How many rows a table may have.
    pub fn limit(&self) -> u64
        ensures { result ≡ self.now.limit }
    {
        self.limit
    }

    /// How many commits may come between a transaction's begin and its commit.
    pub fn recent(&self) -> usize
        ensures { result ≡ self.now.recent }
    {
        self.recent
    }

    /// What conflicts.
    pub fn rule(&self) -> ConflictRule
        ensures { result ≡ self.now.rule }
    {
        self.rule
    }
}
