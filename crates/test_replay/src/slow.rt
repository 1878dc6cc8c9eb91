//! The commits of a history, as the slow program has them.
use crate::recoveries::LIMITS;
use model::CommitReply;
use oracle::{Effects, OrderedTable, Start, due_reply};
use std::alloc::Global;
use txn::Txn;
use values::{NoMemory, Row};

/// The table of each number from 0 on, and the commits between them.
#[derive(Drop)]
pub(crate) struct Slow {
    tables: Vec<OrderedTable>,
    commits: Vec<Effects>,
}

impl Slow {
    /// The table of these rows, before any commit.
    pub(crate) fn new(alloc: Global, rows: Vec<Row>) -> Result<Slow, NoMemory> {
        let mut tables = Vec::new(alloc);
        tables.push(OrderedTable::from_rows(alloc, 1, rows)?)?;
        Ok(Slow {
            tables,
            commits: Vec::new(alloc),
        })
    }

    /// How many commits there were.
    pub(crate) fn number(&self) -> u64 {
        self.commits.len() as u64
    }

    /// Forgets the commits after a number.
    pub(crate) fn cut_to(&mut self, number: u64) {
        self.commits.truncate(number as usize);
        self.tables.truncate((number as usize).saturating_add(1));
    }

    /// The rows of the table of a number, or none.
    pub(crate) fn rows_at(&self, number: u64) -> Result<Option<Vec<Row>>, NoMemory> {
        match self.tables.get(number as usize) {
            Some(table) => Ok(Some(table.rows()?)),
            None => Ok(None),
        }
    }

    /// The effects of a transaction's writes, where each was answered as is due over the table of its begin.
    pub(crate) fn effects_of(&self, txn: &Txn) -> Result<Option<Effects>, NoMemory> {
        match self.tables.get(txn.begin() as usize) {
            Some(table) => table.answered_effects(1, LIMITS.row_limit, txn.writes()),
            None => Ok(None),
        }
    }

    /// The reply that is due to effects over the table of a number. They are added where they are committed.
    pub(crate) fn commit(
        &mut self,
        begin: u64,
        effects: Effects,
    ) -> Result<Option<CommitReply>, NoMemory> {
        let reply = self.due(begin, &effects)?;
        if let (Some(CommitReply::Committed(_)), Some(newest)) = (reply, self.tables.last()) {
            let next = newest.with(&effects)?;
            self.tables.push(next)?;
            self.commits.push(effects)?;
        }
        Ok(reply)
    }

    /// The reply that is due: nothing before the table of its begin matters to it.
    fn due(&self, begin: u64, effects: &Effects) -> Result<Option<CommitReply>, NoMemory> {
        let (Some(table), Ok(base)) = (self.tables.get(begin as usize), u32::try_from(begin)) else {
            return Ok(None);
        };
        let start = Start::new(
            table.copy()?,
            u64::from(base),
            LIMITS.row_limit,
            LIMITS.recent,
            LIMITS.conflicts,
        );
        let since = (begin as usize).min(self.commits.len());
        Ok(Some(due_reply(&start, &self.commits[since..], begin, effects)?))
    }
}
