//! A history decided record by record.
ghost use Rattle.std.specs.Prelude.{◌≡◌, ◌↔◌, ◌+◌, ◌-◌, ◌<◌, ◌^◌, [], length, min, IfOk, IsTrue};
ghost use Rattle.std.specs.List.{list_any};
ghost use Rattle.model.specs.Clashes.{conflicts};
ghost use Rattle.values.specs.Shape.{Columns};
ghost use Rattle.model.specs.History.{table_after, due_reply, IsLegal};
ghost use Rattle.oracle.specs.Replay.{snapshot_at, IsDueAs, AreDueFrom, AllFitSchema, AreTables, AllBeginFrom};

use crate::effects::Effects;
use crate::start::Start;
use crate::table::OrderedTable;
use model::{CommitReply, ConflictRule, Record};
use std::alloc::Global;
use values::NoMemory;

/// The table of a number from the start's own on, or the newest.
pub fn table_after(
    start: &Start,
    commits: &[Effects],
    number: u64,
) -> Result<OrderedTable, NoMemory>
    ensures { IfOk result (λ table. table ≡ table_after start.now commits.now number) }
{
    start
        .table()
        .with_all(&commits[..place(start, commits, number)])
}

/// The reply that is due to effects over the table of number `begin`, after these commits.
pub fn due_reply(
    start: &Start,
    commits: &[Effects],
    begin: u64,
    effects: &Effects,
) -> Result<CommitReply, NoMemory>
    ensures { IfOk result (λ reply. reply
        ≡ due_reply start.now commits.now begin effects.now) }
{
    let number = newest_number(start, commits);
    if begin < start.base() || (start.recent() as u64) < number.saturating_sub(begin) {
        return Ok(CommitReply::TooOld(number));
    }
    let since = &commits[place(start, commits, begin)..];
    if conflicts_with_any(start.rule(), effects, since) {
        return Ok(CommitReply::Conflict(number));
    }
    let image = start.table().with_all(commits)?.with(effects)?;
    if start.limit() < image.len() as u64 {
        return Ok(CommitReply::Full(number));
    }
    Ok(CommitReply::Committed(number + 1))
}

/// Whether the history is legal from this start: each record began at a number that was there, and its writes and its
/// commit were answered as the sequential table answers them after the records before it. A record that began below the
/// start's number was answered over the older table of its number, counted from 0. That rows, keys and cells fit a schema
/// isn't looked at. Takes copies of the table for each write and each commit.
pub fn is_legal(
    alloc: Global,
    key_cols: usize,
    start: &Start,
    older: &[OrderedTable],
    history: &[Record],
) -> Result<bool, NoMemory>
    ensures due { IfOk result (λ legal. IsTrue legal
        ↔ AreDueFrom key_cols start.now older.now [] history.now) }
    ensures legal { IfOk result (λ legal. (schema : Columns)
        → schema.key_cols ≡ key_cols
        → AllFitSchema schema history.now
        → AreTables schema older.now
        → IsTrue legal
        → IsLegal schema start.now history.now) }
    // Where no record began below the start's number, the older tables don't matter.
    ensures only { IfOk result (λ legal. (schema : Columns)
        → schema.key_cols ≡ key_cols
        → AllBeginFrom start.now.base history.now
        → IsLegal schema start.now history.now
        → IsTrue legal) }
{
    are_due(alloc, key_cols, start, older, history)
}

/// Whether each record is due after those before it.
fn are_due(
    alloc: Global,
    key_cols: usize,
    start: &Start,
    older: &[OrderedTable],
    history: &[Record],
) -> Result<bool, NoMemory>
    ensures { IfOk result (λ due. IsTrue due
        ↔ AreDueFrom key_cols start.now older.now [] history.now) }
{
    let mut commits = Vec::new(alloc);
    for entry in history {
        match due_effects(key_cols, start, older, commits.as_slice(), entry)? {
            None => return Ok(false),
            Some(effects) => {
                if let CommitReply::Committed(_) = entry.reply() {
                    commits.push(effects)?;
                }
            }
        }
    }
    Ok(true)
}

/// The effects of a record that is due after these commits.
fn due_effects(
    key_cols: usize,
    start: &Start,
    older: &[OrderedTable],
    commits: &[Effects],
    entry: &Record,
) -> Result<Option<Effects>, NoMemory>
    ensures { IfOk result (λ found.
        IsDueAs key_cols start.now older.now commits.now entry.now found) }
{
    let begin = entry.begin();
    if newest_number(start, commits) < begin {
        return Ok(None);
    }
    let Some(snapshot) = snapshot_at(start, older, commits, begin)? else {
        return Ok(None);
    };
    let Some(effects) = snapshot.answered_effects(key_cols, start.limit(), entry.writes())? else {
        return Ok(None);
    };
    if due_reply(start, commits, begin, &effects)? != entry.reply() {
        return Ok(None);
    }
    Ok(Some(effects))
}

/// The table of a number, from the start's own on or among the older ones.
fn snapshot_at(
    start: &Start,
    older: &[OrderedTable],
    commits: &[Effects],
    number: u64,
) -> Result<Option<OrderedTable>, NoMemory>
    ensures { IfOk result (λ found. found ≡ snapshot_at start.now older.now commits.now number) }
{
    if start.base() <= number {
        return Ok(Some(table_after(start, commits, number)?));
    }
    match older.get(number as usize) {
        None => Ok(None),
        Some(table) => Ok(Some(table.copy()?)),
    }
}

/// The number of the newest table.
fn newest_number(start: &Start, commits: &[Effects]) -> u64
    ensures number { result ≡ start.now.base + length commits.now }
    ensures small { start.now.base + length commits.now < 2 ^ 64 - 1 }
{
    start.base() + commits.len() as u64
}

/// How many of the commits made the table of this number, or all.
fn place(start: &Start, commits: &[Effects], number: u64) -> usize
    ensures { result ≡ min (number - start.now.base) (length commits.now) }
{
    number
        .saturating_sub(start.base())
        .min(commits.len() as u64) as usize
}

fn conflicts_with_any(rule: ConflictRule, effects: &Effects, commits: &[Effects]) -> bool
    ensures { result ≡ list_any (conflicts rule effects.now) commits.now }
{
    commits.iter().any(|commit| effects.conflicts(rule, commit))
}
