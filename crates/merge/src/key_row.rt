//! The row of a key, layer by layer: one descent in each tree.
ghost use Rattle.std.specs.Prelude.{◌≡◌, ◌<◌, ◌≤◌, ◌^◌, IfSome, suc};
ghost use Rattle.std.specs.Option.{option_map, option_copied};
ghost use Rattle.values.specs.Shape.{Columns};
ghost use Rattle.values.specs.declared.limits.TheConstants.{MAX_ROWS};
ghost use Rattle.model.specs.Table.{Table, IsTable, rank, row_at};
ghost use Rattle.model.specs.Effects.{table_with};
ghost use Rattle.stable.specs.Stable.{table_in};
ghost use Rattle.delta.specs.declared.by_sid.BaseChange.TheVariants.{Modified};
ghost use Rattle.merge.specs.Image.{IsLayer};
ghost use Rattle.merge.specs.KeyRow.{row_above};
ghost use Rattle.merge.specs.View.{IsBare, layer_number, row_of};

use crate::view::{Layer, Modifies, RowView};
use delta::{BaseChange, DeltaTree, SidPlace, Sought};
use stable::StableTable;
use values::Value;

/// What some rows have of a key.
#[derive(Clone, Copy)]
pub(crate) struct KeyRow<'a> {
    /// How many of their keys are below it.
    pub rank: u64,
    /// The row that has it, if there is one.
    pub row: Option<RowView<'a>>,
}

/// What the rows of a table have of the key, by halving.
pub(crate) fn find_in<'a>(table: &'a StableTable, key: &[Value]) -> KeyRow<'a>
    requires { IsTable table.now.schema (table_in table.now) }
    ensures rank { result.rank ≡ rank key.now (table_in table.now) }
    ensures row { option_map row_of result.row ≡ row_at (table_in table.now) key.now }
    ensures bare { IfSome result.row (IsBare 0) }
    ensures few { result.rank ≤ MAX_ROWS }
{
    let (rank, is_there) = table.locate(key);
    let row = if is_there {
        Some(RowView::stable(table, rank))
    } else {
        None
    };
    KeyRow { rank, row }
}

/// What the image of a tree has of the key, from what the rows below the tree have of it. One descent.
pub(crate) fn find_over<'a>(
    tree: &'a DeltaTree,
    layer: Layer,
    below: KeyRow<'a>,
    key: &[Value],
) -> KeyRow<'a>
    requires few { below.rank < 2 ^ 63 }
    requires bare { IfSome below.row (IsBare (layer_number layer)) }
    ensures rank { (schema : Columns) (t : Table) (is : IsLayer schema t tree.now) → below.entry.rank ≡ rank key.now t → result.rank
        ≡ rank key.now (table_with t is.effects) }
    ensures row { (schema : Columns) (t : Table) (is : IsLayer schema t tree.now) → below.entry.rank ≡ rank key.now t
        → option_map row_of below.entry.row ≡ row_at t key.now
        → option_map row_of result.row ≡ row_at (table_with t is.effects) key.now }
    ensures bare { IfSome result.row (IsBare (suc (layer_number layer))) }
{
    let place = tree.find(below.rank, Sought::Insert(key));
    KeyRow {
        rank: place.rid,
        row: row_over(tree, layer, below, place),
    }
}

/// The row of the key over a tree, from what stands at its place there.
fn row_over<'a>(
    tree: &'a DeltaTree,
    layer: Layer,
    below: KeyRow<'a>,
    place: SidPlace<'a>,
) -> Option<RowView<'a>>
    requires small { place.base ≡ Modified → below.rank < 2 ^ 32 }
    requires bare { IfSome below.row (IsBare (layer_number layer)) }
    ensures row { option_map row_of result
        ≡ row_above below.entry.rank tree.now.entries (option_map row_of below.entry.row)
        (option_copied place.entry.row) place.entry.base }
    ensures bare { IfSome result (IsBare (suc (layer_number layer))) }
{
    if let Some(row) = place.row {
        return Some(RowView::inserted(row));
    }
    match place.base {
        BaseChange::Kept => below.row,
        BaseChange::Deleted => None,
        BaseChange::Modified => {
            let view = below.row?;
            let modifies = Modifies::InTree(tree, below.rank as u32);
            Some(view.modified_in(layer, modifies))
        }
    }
}
