//! The slow program for a history whose transactions have one write each: the states of each key.

use model::{CommitReply, Record, Write, WriteReply, is_done, key_of_write, reply_where};
use std::alloc::Global;
use std::collections::BTreeMap;
use values::limits::MAX_ROWS;
use values::{NoMemory, Row, Value};

/// The row of a key from a number of commits on, or that there is none.
#[derive(Drop)]
struct State {
    number: u64,
    row: Option<Row>,
}

/// What is known after the records so far. No run of these tests comes near the limit of rows.
#[derive(Drop)]
pub(crate) struct ByKey {
    alloc: Global,
    recent: u64,
    /// How many commits were made.
    number: u64,
    /// The states of each key, the latest last.
    states: BTreeMap<i64, Vec<State>>,
}

impl ByKey {
    /// The table of these rows, with so many recent commits.
    pub(crate) fn new(alloc: Global, recent: u64, rows: Vec<Row>) -> Result<ByKey, NoMemory> {
        let mut states = BTreeMap::new(alloc);
        for row in rows {
            if let Some(Value::Int(id)) = row.cells().first() {
                let id = *id;
                let mut first = Vec::new(alloc);
                first.push(State {
                    number: 0,
                    row: Some(row),
                })?;
                states.insert(id, first)?;
            }
        }
        Ok(ByKey {
            alloc,
            recent,
            number: 0,
            states,
        })
    }

    /// How many commits were made.
    pub(crate) fn number(&self) -> u64 {
        self.number
    }

    /// The states of a key.
    fn states_of(&self, id: i64) -> &[State] {
        match self.states.get(&id) {
            Some(states) => states.as_slice(),
            None => &[],
        }
    }

    /// The row of a key in the table of a number.
    fn row_at(&self, id: i64, number: u64) -> Option<&Row> {
        for state in self.states_of(id).iter().rev() {
            if state.number <= number {
                return state.row.as_ref();
            }
        }
        None
    }

    /// Whether a commit after this number changed the key.
    fn is_changed_since(&self, id: i64, number: u64) -> bool {
        match self.states_of(id).last() {
            Some(state) => number < state.number,
            None => false,
        }
    }

    /// The reply to the commit of a transaction that began at this number and changed the key, or nothing.
    fn due(&self, changed: Option<i64>, begin: u64) -> CommitReply {
        if self.recent < self.number.saturating_sub(begin) {
            return CommitReply::TooOld(self.number);
        }
        match changed {
            Some(id) if self.is_changed_since(id, begin) => CommitReply::Conflict(self.number),
            _ => CommitReply::Committed(self.number.wrapping_add(1)),
        }
    }

    /// Adds a commit of a write.
    fn commit(&mut self, id: i64, write: &Write) -> Result<(), NoMemory> {
        self.number = self.number.wrapping_add(1);
        let number = self.number;
        let row = row_after(self.alloc, write, self.row_at(id, number))?;
        match self.states.get_mut(&id) {
            Some(states) => states.push(State { number, row })?,
            None => {
                let mut first = Vec::new(self.alloc);
                first.push(State { number, row })?;
                self.states.insert(id, first)?;
            }
        }
        Ok(())
    }

    /// Whether the record is due after those before it: it began at a number that was there, and its one write and its
    /// commit were answered as is due.
    pub(crate) fn takes(&mut self, entry: &Record) -> Result<bool, NoMemory> {
        let (begin, reply) = (entry.begin(), entry.reply());
        let [(write, answer)] = entry.writes() else {
            return Ok(false);
        };
        let Some(id) = id_of(write) else {
            return Ok(false);
        };
        if self.number < begin || *answer != self.answer(id, write, begin) {
            return Ok(false);
        }
        let changed = if is_done(*answer) { Some(id) } else { None };
        if reply != self.due(changed, begin) {
            return Ok(false);
        }
        if let CommitReply::Committed(_) = reply {
            self.commit(id, write)?;
        }
        Ok(true)
    }

    /// The reply to a write in a transaction that began at this number and wrote nothing before.
    fn answer(&self, id: i64, write: &Write, begin: u64) -> WriteReply {
        let there = self.row_at(id, begin).is_some();
        reply_where(MAX_ROWS, there, 0, write)
    }

    /// The rows of the newest table, in ascending key.
    pub(crate) fn rows(&self) -> Result<Vec<Row>, NoMemory> {
        let mut rows = Vec::new(self.alloc);
        for states in self.states.values() {
            if let Some(State { row: Some(row), .. }) = states.last() {
                rows.push(row.copy()?)?;
            }
        }
        Ok(rows)
    }
}

/// The number of the row that a write is about.
fn id_of(write: &Write) -> Option<i64> {
    match key_of_write(1, write).first() {
        Some(Value::Int(id)) => Some(*id),
        _ => None,
    }
}

/// What a write that is done leaves of a row.
fn row_after(alloc: Global, write: &Write, old: Option<&Row>) -> Result<Option<Row>, NoMemory> {
    match (write, old) {
        (Write::Insert(row), _) => Ok(Some(row.copy()?)),
        (Write::Set(_, col, value), Some(old)) => {
            let mut cells = Vec::new(alloc);
            for (place, cell) in old.cells().iter().enumerate() {
                cells.push(if place == *col {
                    value.copy()?
                } else {
                    cell.copy()?
                })?;
            }
            Ok(Some(Row::new(cells)))
        }
        _ => Ok(None),
    }
}
