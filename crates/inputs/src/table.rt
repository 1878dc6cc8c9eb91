//! A whole table, read from text, as rows.
ghost use Rattle.std.specs.Prelude.{◌≡◌, ◌≢◌, ◌≤◌, IfOk, IfErr, length};
ghost use Rattle.model.specs.Table as model;
ghost use Rattle.model.specs.Table.{IsTable};
ghost use Rattle.inputs.specs.Input.{IsTableOf, IsFaultOf};

use crate::fault::TableFault;
use crate::loading::load_table;
use stable::StableTable;
use std::alloc::Global;
use values::limits::MAX_ROWS;
use values::{NoMemory, Row, Schema};

/// The schema and the rows of a table's text, in ascending key: those of the table that `load_table` reads, copied.
///
/// # Errors
///
/// Those of `load_table`.
pub fn read_table(alloc: Global, text: &[u8]) -> Result<(Schema, Vec<Row>), TableFault>
    ensures ok { IfOk result (λ table. IsTableOf text.now table.0 table.1.items) }
    ensures table { IfOk result (λ table. IsTable table.0 (model.table_of table.0.key_cols table.1.items)) }
    ensures few { IfOk result (λ table. length table.1.items ≤ MAX_ROWS) }
    ensures err { IfErr result (λ fault. fault ≢ TableFault.NoMemory → IsFaultOf text.now fault) }
{
    let table = load_table(alloc, text)?;
    let rows = copied_rows(alloc, &table)?;
    let schema = table.schema().copy()?;
    Ok((schema, rows))
}

/// The rows of a table, copied.
fn copied_rows(alloc: Global, table: &StableTable) -> Result<Vec<Row>, NoMemory>
    ensures { IfOk result (λ rows. rows.items ≡ table.now.rows) }
{
    let mut rows = Vec::with_capacity(alloc, table.len() as usize)?;
    for sid in 0..table.len() {
        rows.push(table.row(alloc, sid)?)?;
    }
    Ok(rows)
}
