//! A whole table, read from text into its columns.
ghost use Rattle.std.specs.Prelude.{◌≡◌, ◌≢◌, ◌≤◌, ◌∷◌, ℕ, List, [], IfOk, IfErr, Err, length};
ghost use Rattle.std.specs.List.{All};
ghost use Rattle.values.specs.declared.limits.TheConstants.{MAX_ROWS};
ghost use Rattle.inputs.specs.Filling.{AreRead, types_in};
ghost use Rattle.inputs.specs.Input.{IsTableOf, IsFaultOf, numbered_rows};
ghost use Rattle.inputs.specs.Reading.{AreRecordsOf, Fields, IsReading};

use crate::ascent::in_ascending_key;
use crate::columns::{add_record, empty_columns};
use crate::fault::TableFault;
use crate::header::first_schema;
use crate::reading::{next_record, records_of};
use csv::{ByteRecord, Reader};
use stable::{Column, StableTable};
use std::alloc::Global;
use values::ColumnType;

/// The columns of rows, and how many rows there are.
#[derive(Drop)]
pub(crate) struct ReadRows {
    pub(crate) columns: Vec<Column>,
    pub(crate) count: usize,
}

/// The table of a text: the cells go from the text into the columns, and no row is made. Rows that are in ascending key
/// stay where they are; others are sorted by their places.
///
/// # Errors
///
/// The first fault: of the header, cell by cell and then as a schema; then record by record, the count before the cells
/// and the cells from the left; and where all records were read, the least one whose key is in an earlier one.
pub fn load_table(alloc: Global, text: &[u8]) -> Result<StableTable, TableFault>
    ensures ok { IfOk result (λ table. IsTableOf text.now table.schema table.rows) }
    ensures err { IfErr result (λ fault. fault ≢ TableFault.NoMemory → IsFaultOf text.now fault) }
{
    let mut reader = records_of(alloc, text)?;
    let mut fields = ByteRecord::new(alloc);
    load_records(alloc, reader.as_mut(), &mut fields)
}

/// The table of the records that the reader gives, which has given none yet.
fn load_records<'a>(
    alloc: Global,
    reader: &mut Reader<&'a [u8]>,
    fields: &mut ByteRecord,
) -> Result<StableTable, TableFault>
    requires { (text : List ℕ) × IsReading text [] reader.old }
    ensures ok { IfOk result (λ table. (text : List ℕ) → IsReading text [] reader.old → IsTableOf text table.schema table.rows) }
    ensures err { IfErr result
        (λ fault. fault ≢ TableFault.NoMemory → (text : List ℕ) → IsReading text [] reader.old → IsFaultOf text fault) }
{
    let schema = first_schema(alloc, reader, fields)?;
    let rows = read_rows(alloc, reader, fields, schema.types())?;
    let sorted = in_ascending_key(alloc, schema.key_cols(), rows.columns, rows.count)?;
    Ok(StableTable::of_columns(schema, sorted))
}

/// The rows of the records that the reader gives after the header, as columns of these types.
pub(crate) fn read_rows<'a>(
    alloc: Global,
    reader: &mut Reader<&'a [u8]>,
    fields: &mut ByteRecord,
    types: &[ColumnType],
) -> Result<ReadRows, TableFault>
    requires { (text : List ℕ) × (header : Fields) × IsReading text (header ∷ []) reader.old }
    ensures typed { IfOk result (λ rows. types_in rows.columns.items ≡ types.now) }
    ensures filled { IfOk result (λ rows. All (λ c. length c.values ≡ rows.count) rows.columns.items) }
    ensures few { IfOk result (λ rows. rows.count ≤ MAX_ROWS) }
    ensures ok { IfOk result (λ rows. (text : List ℕ) (header : Fields) → IsReading text (header ∷ []) reader.old
        → AreRead text header types.now rows.columns.items rows.count) }
    ensures err { IfErr result
        (λ fault. fault ≢ TableFault.NoMemory → (text : List ℕ) (header : Fields) → IsReading text (header ∷ []) reader.old
        → (records : List Fields) → AreRecordsOf text (header ∷ records) → numbered_rows types.now 2 records ≡ Err fault) }
{
    let mut columns = empty_columns(alloc, types)?;
    for number in 2..u64::MAX {
        let more = next_record(reader, fields)?;
        if !more {
            let count = (number - 2) as usize;
            return Ok(ReadRows { columns, count });
        }
        add_record(&mut columns, number, fields)?;
    }
    unreachable!()
}
