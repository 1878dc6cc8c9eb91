//! Effects by position, and what they make of a list of rows: by scans, with no tree.
ghost use Rattle.std.specs.Prelude.{◌≡◌, ◌∷◌, [], ◌++◌, map, IfOk, OnOk};
ghost use Rattle.model.specs.Entries.{entry_at, entries_of, canonical_entries};
ghost use Rattle.model.specs.Merging.{changes_at, inserted_rows, left_of, merged_rows};
ghost use Rattle.model.specs.declared.entry.Change.TheVariants as change;

use crate::effect::copy_values;
use crate::effects::Effects;
use crate::table::OrderedTable;
use model::{Cells, Change, Effect, Entry};
use std::alloc::Global;
use values::{Key, NoMemory, Row};

/// The entries of effects over a table, each at the place of its key. Goes over the table once for each effect.
pub fn canonical_entries(
    alloc: Global,
    table: &OrderedTable,
    effects: &Effects,
) -> Result<Vec<Entry>, NoMemory>
    ensures { IfOk result (λ entries. entries.items ≡ canonical_entries table.now effects.now) }
{
    let mut entries = Vec::new(alloc);
    for (key, effect) in effects.by_key() {
        push_entries(&mut entries, table.rank(key) as u64, key, effect)?;
    }
    Ok(entries)
}

/// Adds the entries of one effect, at the place of its key.
fn push_entries(
    entries: &mut Vec<Entry>,
    sid: u64,
    key: &Key,
    effect: &Effect,
) -> Result<(), NoMemory>
    ensures { OnOk result (entries.new.items ≡ entries.old.items ++ entries_of sid key.now effect.now) }
{
    match effect {
        Effect::Ins(row) => push_entry(entries, sid, Change::Ins(row.copy()?)),
        Effect::Del => push_entry(entries, sid, Change::Del(key.copy()?)),
        Effect::Mod(cells) => push_modifies(entries, sid, cells),
        Effect::Rep(row) => {
            push_entry(entries, sid, Change::Ins(row.copy()?))?;
            push_entry(entries, sid, Change::Del(key.copy()?))
        }
    }
}

fn push_entry(entries: &mut Vec<Entry>, sid: u64, change: Change) -> Result<(), NoMemory>
    ensures { OnOk result (entries.new.items ≡ entries.old.items ++ entry_at sid change ∷ []) }
{
    entries.push(Entry { sid, change })?;
    Ok(())
}

/// Adds a modify for each cell.
fn push_modifies(entries: &mut Vec<Entry>, sid: u64, cells: &Cells) -> Result<(), NoMemory>
    ensures { OnOk result (entries.new.items
        ≡ entries.old.items ++ map (λ c. entry_at sid (change.Mod c.0 c.1)) cells.now) }
{
    for (col, value) in cells.values() {
        push_entry(entries, sid, Change::Mod(*col, value.copy()?))?;
    }
    Ok(())
}

/// The rows that the entries make of these. Goes over the entries twice for each row.
pub fn merged_rows(alloc: Global, base: &[Row], entries: &[Entry]) -> Result<Vec<Row>, NoMemory>
    ensures { IfOk result (λ rows. rows.items ≡ merged_rows base.now entries.now) }
{
    let mut rows = Vec::new(alloc);
    for (sid, row) in base.iter().enumerate() {
        push_inserted(&mut rows, entries, sid as u64)?;
        push_left(alloc, &mut rows, entries, sid as u64, row)?;
    }
    push_inserted(&mut rows, entries, base.len() as u64)?;
    Ok(rows)
}

/// Adds the rows that are inserted at the place.
fn push_inserted(rows: &mut Vec<Row>, entries: &[Entry], sid: u64) -> Result<(), NoMemory>
    ensures { OnOk result (rows.new.items
        ≡ rows.old.items ++ inserted_rows (changes_at sid entries.now)) }
{
    for entry in entries {
        if entry.sid == sid {
            if let Change::Ins(row) = &entry.change {
                rows.push(row.copy()?)?;
            }
        }
    }
    Ok(())
}

/// Adds what the entries at its place leave of a base row.
fn push_left(
    alloc: Global,
    rows: &mut Vec<Row>,
    entries: &[Entry],
    sid: u64,
    row: &Row,
) -> Result<(), NoMemory>
    ensures { OnOk result (rows.new.items
        ≡ rows.old.items ++ left_of row.now (changes_at sid entries.now)) }
{
    let mut cells = copy_values(alloc, row.cells())?;
    for entry in entries {
        if entry.sid == sid {
            match &entry.change {
                Change::Ins(_) => {}
                Change::Del(_) => return Ok(()),
                Change::Mod(col, value) => {
                    if *col < cells.len() {
                        cells[*col] = value.copy()?;
                    }
                }
            }
        }
    }
    rows.push(Row::new(cells))?;
    Ok(())
}
