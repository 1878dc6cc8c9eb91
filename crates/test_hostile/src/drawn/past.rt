//! The commits so far, as the slow program has them.
use model::{CommitReply, Record};
use oracle::{Effects, OrderedTable, Start, due_reply};
use pdtcli::OpenOptions;
use std::alloc::Global;
use values::{NoMemory, Row};

/// The table of each number, and the commits since the last cut.
#[derive(Drop)]
pub(crate) struct Past {
    alloc: Global,
    options: OpenOptions,
    /// The number at which the history starts.
    base: u32,
    /// The number of the newest table.
    number: u32,
    tables: Vec<OrderedTable>,
    commits: Vec<Effects>,
}

impl Past {
    /// The table of these rows, before any commit.
    pub(crate) fn new(
        alloc: Global,
        options: OpenOptions,
        rows: Vec<Row>,
    ) -> Result<Past, NoMemory> {
        let mut tables = Vec::new(alloc);
        tables.push(OrderedTable::from_rows(alloc, 1, rows)?)?;
        Ok(Past {
            alloc,
            options,
            base: 0,
            number: 0,
            tables,
            commits: Vec::new(alloc),
        })
    }

    /// Where what is answered takes its memory.
    pub(crate) fn alloc(&self) -> Global {
        self.alloc
    }

    /// How many rows a table may have.
    pub(crate) fn limit(&self) -> u64 {
        self.options.limit
    }

    /// The number of the newest table.
    pub(crate) fn number(&self) -> u64 {
        u64::from(self.number)
    }

    /// The tables, each at its number.
    pub(crate) fn tables(&self) -> &[OrderedTable] {
        self.tables.as_slice()
    }

    /// The table of a number.
    pub(crate) fn table_at(&self, number: u64) -> Option<&OrderedTable> {
        self.tables.get(number as usize)
    }

    /// The newest table.
    pub(crate) fn newest(&self) -> Option<&OrderedTable> {
        self.table_at(self.number())
    }

    /// The reply that is due to effects over the table of a number. It is decided from that table on, or where that is older
    /// than the history or than the recent commits, from the first that isn't: nothing before matters to it.
    fn due(&self, begin: u64, effects: &Effects) -> Result<Option<CommitReply>, NoMemory> {
        let recent = self.options.recent;
        let oldest = self.number().saturating_sub(recent as u64);
        let from = oldest.max(u64::from(self.base)).max(begin);
        let (Some(table), Ok(from)) = (self.table_at(from), u32::try_from(from)) else {
            return Ok(None);
        };
        let start = Start::new(
            table.copy()?,
            u64::from(from),
            self.options.limit,
            recent,
            self.options.conflicts,
        );
        let since = (from.wrapping_sub(self.base) as usize).min(self.commits.len());
        Ok(Some(due_reply(&start, &self.commits[since..], begin, effects)?))
    }

    /// The reply that is due to effects over the table of a number. They are added where they are committed.
    pub(crate) fn commit(
        &mut self,
        begin: u64,
        effects: Effects,
    ) -> Result<Option<CommitReply>, NoMemory> {
        let reply = self.due(begin, &effects)?;
        if let (Some(CommitReply::Committed(_)), Some(newest)) = (reply, self.newest()) {
            let next = newest.with(&effects)?;
            self.tables.push(next)?;
            self.commits.push(effects)?;
            self.number = self.number.wrapping_add(1);
        }
        Ok(reply)
    }

    /// Whether a record is due after those before it: its snapshot is there, and its writes and its commit were answered as
    /// is due.
    pub(crate) fn takes(&mut self, entry: &Record) -> Result<bool, NoMemory> {
        let (begin, limit) = (entry.begin(), self.limit());
        let found = match self.table_at(begin) {
            Some(table) => table.answered_effects(1, limit, entry.writes())?,
            None => None,
        };
        match found {
            Some(effects) => Ok(self.commit(begin, effects)? == Some(entry.reply())),
            None => Ok(false),
        }
    }

    /// Starts the history anew.
    pub(crate) fn cut(&mut self) {
        self.base = self.number;
        self.commits = Vec::new(self.alloc);
    }

    /// What was known at the last cut.
    pub(crate) fn at_cut(&self) -> Result<Past, NoMemory> {
        let mut tables = Vec::new(self.alloc);
        for table in self
            .tables
            .iter()
            .take((self.base as usize).wrapping_add(1))
        {
            tables.push(table.copy()?)?;
        }
        Ok(Past {
            alloc: self.alloc,
            options: self.options,
            base: self.base,
            number: self.base,
            tables,
            commits: Vec::new(self.alloc),
        })
    }
}
