//! The slow program, which decides the records of histories one by one.

use manager::{History, Manager};
use merge::RowView;
use model::{CommitReply, ConflictRule, Record};
use oracle::{Effects, OrderedTable, Start, due_reply};
use std::alloc::Global;
use values::limits::MAX_ROWS;
use values::{NoMemory, Row};

/// What the slow program knows after the records so far.
#[derive(Drop)]
pub(crate) struct Replay {
    alloc: Global,
    recent: u32,
    /// The number at which the history of the next record starts.
    base: u32,
    /// The number of the newest table.
    number: u32,
    /// The table of each number.
    tables: Vec<OrderedTable>,
    /// The commit that made each table but the first.
    commits: Vec<Effects>,
    /// The commit replies that were due, by client.
    replies: Vec<Vec<CommitReply>>,
}

impl Replay {
    /// The table of these rows, and so many clients with no replies.
    pub(crate) fn new(
        alloc: Global,
        rows: Vec<Row>,
        recent: u32,
        clients: u32,
    ) -> Result<Replay, NoMemory> {
        let mut tables = Vec::new(alloc);
        tables.push(OrderedTable::from_rows(alloc, 1, rows)?)?;
        let mut replies = Vec::new(alloc);
        for _ in 0..clients {
            replies.push(Vec::new(alloc))?;
        }
        Ok(Replay {
            alloc,
            recent,
            base: 0,
            number: 0,
            tables,
            commits: Vec::new(alloc),
            replies,
        })
    }

    /// The commit replies that were due, by client.
    pub(crate) fn replies(&self) -> &[Vec<CommitReply>] {
        self.replies.as_slice()
    }

    /// The table of a number.
    fn table_at(&self, number: u32) -> Option<&OrderedTable> {
        self.tables.get(number as usize)
    }

    /// The reply that is due to effects over the table of number `begin`. It is decided from that table on, or where that is
    /// older than the history or than the recent commits, from the first that isn't: nothing before matters to it.
    fn due(&self, begin: u32, effects: &Effects) -> Result<Option<CommitReply>, NoMemory> {
        let first = self.base.max(self.number.saturating_sub(self.recent));
        let from = first.max(begin);
        let Some(table) = self.table_at(from) else {
            return Ok(None);
        };
        let start = Start::new(
            table.copy()?,
            u64::from(from),
            MAX_ROWS,
            self.recent as usize,
            ConflictRule::ByColumn,
        );
        let since = (from as usize).min(self.commits.len());
        let reply = due_reply(&start, &self.commits[since..], u64::from(begin), effects)?;
        Ok(Some(reply))
    }

    /// Adds a commit.
    fn commit(&mut self, effects: Effects) -> Result<(), NoMemory> {
        if let Some(newest) = self.table_at(self.number) {
            let next = newest.with(&effects)?;
            self.tables.push(next)?;
        }
        self.commits.push(effects)?;
        self.number = self.number.wrapping_add(1);
        Ok(())
    }

    /// Adds a reply of a client.
    fn reply(&mut self, client: u32, reply: CommitReply) -> Result<bool, NoMemory> {
        match self.replies.get_mut(client as usize) {
            Some(replies) => {
                replies.push(reply)?;
                Ok(true)
            }
            None => Ok(false),
        }
    }

    /// The effects of a record and the reply that is due to its commit, where its writes were answered as is due.
    fn decided(&self, entry: &Record) -> Result<Option<(Effects, CommitReply)>, NoMemory> {
        let Ok(begin) = u32::try_from(entry.begin()) else {
            return Ok(None);
        };
        let Some(table) = self.table_at(begin) else {
            return Ok(None);
        };
        let Some(effects) = table.answered_effects(1, MAX_ROWS, entry.writes())? else {
            return Ok(None);
        };
        match self.due(begin, &effects)? {
            Some(reply) => Ok(Some((effects, reply))),
            None => Ok(None),
        }
    }

    /// Whether the record is due after those before it.
    fn takes(&mut self, entry: &Record) -> Result<bool, NoMemory> {
        let Some((effects, due)) = self.decided(entry)? else {
            return Ok(false);
        };
        if let CommitReply::Committed(_) = due {
            self.commit(effects)?;
        }
        Ok(self.reply(entry.client(), due)? && entry.reply() == due)
    }

    /// Whether the history starts at the newest table, and each of its records is due.
    pub(crate) fn goes_on(&mut self, history: &History) -> Result<bool, NoMemory> {
        self.base = self.number;
        if history.base() != u64::from(self.base) {
            return Ok(false);
        }
        let Some(records) = history.records() else {
            return Ok(false);
        };
        for entry in records {
            if !self.takes(entry)? {
                return Ok(false);
            }
        }
        Ok(true)
    }

    /// Whether the history starts at the newest table, and each of its records is due, up to the one that makes the table of a number.
    pub(crate) fn goes_on_to(&mut self, history: &History, number: u64) -> Result<bool, NoMemory> {
        let Some(records) = history.records() else {
            return Ok(false);
        };
        self.base = self.number;
        for entry in records {
            if u64::from(self.number) >= number {
                return Ok(true);
            }
            if !self.takes(entry)? {
                return Ok(false);
            }
        }
        Ok(true)
    }

    /// Whether the manager's rows are those of the newest table.
    pub(crate) fn is_image(&self, manager: &Manager) -> Result<bool, NoMemory> {
        let Some(table) = self.table_at(self.number) else {
            return Ok(false);
        };
        let rows = table.rows()?;
        let newest = manager.newest();
        let mut place = 0_usize;
        for view in newest.scan(0, newest.len()) {
            if !is_row(self.alloc, &view, rows.get(place))? {
                return Ok(false);
            }
            place = place.wrapping_add(1);
        }
        Ok(place == rows.len())
    }
}

/// Whether the row is this one.
fn is_row(alloc: Global, view: &RowView<'_>, row: Option<&Row>) -> Result<bool, NoMemory> {
    match row {
        Some(row) => Ok(view.copy(alloc)?.cells() == row.cells()),
        None => Ok(false),
    }
}
