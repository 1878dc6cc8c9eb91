//! One effect on one key.
ghost use Rattle.std.specs.Prelude.{◌≡◌, is_some, IfOk};
ghost use Rattle.std.specs.Option.{option_copied};
ghost use Rattle.std.specs.Ordering.{nat_cmp};
ghost use Rattle.std.specs.List.{list_any};
ghost use Rattle.model.specs.Maps.{find};
ghost use Rattle.model.specs.Effects.{set_cells, fits, row_after};
ghost use Rattle.model.specs.Composition.{over_cells, composed_effect};
ghost use Rattle.model.specs.Clashes.{clashes, modifies_clash};

use crate::map::put;
use model::{Cells, ConflictRule, Effect};
use std::alloc::Global;
use std::collections::BTreeMap;
use values::{NoMemory, Row, Value};

/// The values, copied.
pub(crate) fn copy_values(alloc: Global, values: &[Value]) -> Result<Vec<Value>, NoMemory>
    ensures { IfOk result (λ copied. copied.items ≡ values.now) }
{
    let mut copied = Vec::new(alloc);
    for value in values {
        copied.push(value.copy()?)?;
    }
    Ok(copied)
}

/// A map from column to value, copied.
fn copy_columns(
    alloc: Global,
    columns: &BTreeMap<usize, Value>,
) -> Result<BTreeMap<usize, Value>, NoMemory>
    ensures { IfOk result (λ copied. copied.entries ≡ columns.now.entries) }
{
    let mut copied = BTreeMap::new(alloc);
    for (col, value) in columns {
        put(&mut copied, *col, value.copy()?)?;
    }
    Ok(copied)
}

/// The effect, copied.
pub(crate) fn copy_effect(alloc: Global, effect: &Effect) -> Result<Effect, NoMemory>
    ensures { IfOk result (λ copied. copied ≡ effect.now) }
{
    match effect {
        Effect::Ins(row) => Ok(Effect::Ins(row.copy()?)),
        Effect::Del => Ok(Effect::Del),
        Effect::Mod(cells) => Ok(Effect::Mod(Cells::new(copy_columns(alloc, cells.values())?))),
        Effect::Rep(row) => Ok(Effect::Rep(row.copy()?)),
    }
}

/// The row with these cells.
fn set_cells(alloc: Global, cells: &Cells, row: &Row) -> Result<Row, NoMemory>
    ensures { IfOk result (λ set. set ≡ set_cells cells.now row.now) }
{
    let mut values = copy_values(alloc, row.cells())?;
    for (col, value) in cells.values() {
        if *col < values.len() {
            values[*col] = value.copy()?;
        }
    }
    Ok(Row::new(values))
}

/// The later cells, and the first where those say nothing.
fn over_cells(alloc: Global, cells: &Cells, later: &Cells) -> Result<Cells, NoMemory>
    ensures { IfOk result (λ over. over ≡ over_cells cells.now later.now) }
{
    let mut columns = copy_columns(alloc, cells.values())?;
    for (col, value) in later.values() {
        put(&mut columns, *col, value.copy()?)?;
    }
    Ok(Cells::new(columns))
}

/// Whether the effect can be had where this row is, or none.
pub(crate) fn fits(old: Option<&Row>, effect: &Effect) -> bool
    ensures { result ≡ fits (option_copied old.entry) effect.now }
{
    match effect {
        Effect::Ins(_) => old.is_none(),
        _ => old.is_some(),
    }
}

/// What is at the key after the effect.
pub(crate) fn row_after(
    alloc: Global,
    effect: &Effect,
    old: Option<&Row>,
) -> Result<Option<Row>, NoMemory>
    ensures { IfOk result (λ row. row ≡ row_after effect.now (option_copied old.entry)) }
{
    match (effect, old) {
        (Effect::Ins(row), _) => Ok(Some(row.copy()?)),
        (Effect::Rep(row), _) => Ok(Some(row.copy()?)),
        (Effect::Mod(cells), Some(row)) => Ok(Some(set_cells(alloc, cells, row)?)),
        _ => Ok(None),
    }
}

/// Whether two effects on one key can't both be kept.
pub(crate) fn clashes(rule: ConflictRule, x: &Effect, y: Option<&Effect>) -> bool
    ensures { result ≡ clashes rule x.now (option_copied y.entry) }
{
    match (x, y) {
        (_, None) => false,
        (Effect::Ins(_), Some(Effect::Ins(_))) => true,
        (Effect::Ins(_), _) => false,
        (_, Some(Effect::Ins(_))) => false,
        (Effect::Mod(cells), Some(Effect::Mod(others))) => modifies_clash(rule, cells, others),
        _ => true,
    }
}

/// Whether two modifies of one row can't both be kept.
fn modifies_clash(rule: ConflictRule, cells: &Cells, others: &Cells) -> bool
    ensures { result ≡ modifies_clash rule cells.now others.now }
{
    match rule {
        ConflictRule::ByColumn => share_column(cells, others),
        ConflictRule::ByRow => true,
    }
}

/// Whether some column is in both.
fn share_column(cells: &Cells, others: &Cells) -> bool
    ensures { result ≡ list_any (λ c. is_some (find nat_cmp c.0 others.now)) cells.now }
{
    cells
        .values()
        .iter()
        .any(|(col, _)| has_column(others, *col))
}

fn has_column(cells: &Cells, col: usize) -> bool
    ensures { result ≡ is_some (find nat_cmp col cells.now) }
{
    cells.values().contains_key(&col)
}

/// The later effect after what was done to the key before, where anything was.
pub(crate) fn composed_effect(
    alloc: Global,
    later: &Effect,
    before: Option<&Effect>,
) -> Result<Option<Effect>, NoMemory>
    ensures { IfOk result (λ composed. composed ≡ composed_effect later.now (option_copied before.entry)) }
{
    let Some(before) = before else {
        return Ok(Some(copy_effect(alloc, later)?));
    };
    match (later, before) {
        (Effect::Del, Effect::Ins(_)) => Ok(None),
        (Effect::Mod(cells), Effect::Ins(row)) => {
            Ok(Some(Effect::Ins(set_cells(alloc, cells, row)?)))
        }
        (Effect::Rep(row), Effect::Ins(_)) => Ok(Some(Effect::Ins(row.copy()?))),
        (Effect::Ins(row), Effect::Del) => Ok(Some(Effect::Rep(row.copy()?))),
        (Effect::Del, Effect::Mod(_)) => Ok(Some(Effect::Del)),
        (Effect::Mod(cells), Effect::Mod(first)) => {
            Ok(Some(Effect::Mod(over_cells(alloc, first, cells)?)))
        }
        (Effect::Del, Effect::Rep(_)) => Ok(Some(Effect::Del)),
        (Effect::Mod(cells), Effect::Rep(row)) => {
            Ok(Some(Effect::Rep(set_cells(alloc, cells, row)?)))
        }
        (Effect::Rep(row), Effect::Mod(_)) => Ok(Some(Effect::Rep(row.copy()?))),
        (Effect::Rep(row), Effect::Rep(_)) => Ok(Some(Effect::Rep(row.copy()?))),
        _ => Ok(Some(copy_effect(alloc, before)?)),
    }
}
