//! What a transaction does to one key.
ghost use Rattle.std.specs.Prelude.{◌≡◌};

use std::collections::BTreeMap;
use std::marker::Model;
use values::{Row, Value};

/// New values of some columns, seen by contracts as the list of them in ascending column.
#[derive(Drop)]
pub struct Cells {
    cells: BTreeMap<usize, Value>,
}

impl Model for Cells {
    ghost use Rattle.std.specs.Prelude.{List, ℕ};
    ghost use Rattle.values.specs.declared.value.Value.{Value as Cell};

    ghost Value = { List (ℕ × Cell) };

    ghost view = { λ c. c.cells.entries };
}

impl Cells {
    /// The cells of a map from column to value.
    pub fn new(cells: BTreeMap<usize, Value>) -> Cells
        ensures { result ≡ cells.entries }
    {
        Cells { cells }
    }

    /// The map from column to value.
    pub fn values(&self) -> &BTreeMap<usize, Value>
        ensures { result.now.entries ≡ self.now }
    {
        &self.cells
    }
}

/// What a transaction does to one key.
#[derive(Drop)]
pub enum Effect {
    /// The key is absent and gets a row.
    Ins(Row),
    /// The row goes away.
    Del,
    /// Some cells of the row get new values, none of them in the key.
    Mod(Cells),
    /// The row is deleted, and another of its key inserted.
    Rep(Row),
}
