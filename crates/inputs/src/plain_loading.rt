//! A whole table, read from a text whose header names no types.
ghost use Rattle.std.specs.Prelude.{◌≡◌, ◌≢◌, ℕ, List, [], IfOk, IfErr, Ok, map};
ghost use Rattle.inputs.specs.Plain.{AreFound, IsPlainFaultOf, IsPlainTableOf, arranged, plain_columns};
ghost use Rattle.inputs.specs.Reading.{AreRecordsOf, Fields, IsReading};

use crate::ascent::in_ascending_key;
use crate::fault::{PlainFault, TableFault};
use crate::loading::read_rows;
use crate::plain::{FoundColumns, find_columns, move_first};
use crate::reading::{next_record, records_of};
use csv::{ByteRecord, Reader};
use stable::{Column, StableTable};
use std::alloc::Global;
use values::NoMemory;

/// The table of a text whose header names columns and no types. The key is the columns of these names, which come first, and with no
/// names the first column. A column's type is what its cells in the first `sample` records say: int or bool where all of them
/// do, and else text. A later cell that is not of that type is a fault.
///
/// # Errors
///
/// The first fault: of the header, cell by cell and then as a schema; then a name of the key that no column has, the last of them
/// first; then as of `load_table`. Cells count in the text's order.
pub fn load_plain_table(
    alloc: Global,
    text: &[u8],
    key: &[&[u8]],
    sample: usize,
) -> Result<StableTable, PlainFault>
    ensures ok { IfOk result
        (λ table. IsPlainTableOf text.now (map (λ name. name.now) key.now) sample table.schema table.rows) }
    ensures err { IfErr result (λ fault. fault ≢ PlainFault.Table TableFault.NoMemory
        → IsPlainFaultOf text.now (map (λ name. name.now) key.now) sample fault) }
{
    let found = find_columns(alloc, text, key, sample)?;
    let mut reader = records_of(alloc, text)?;
    let mut fields = ByteRecord::new(alloc);
    load_found(alloc, reader.as_mut(), &mut fields, found)
}

/// The table of the records that the reader gives, which has given none yet, over the columns that were found.
fn load_found<'a>(
    alloc: Global,
    reader: &mut Reader<&'a [u8]>,
    fields: &mut ByteRecord,
    found: FoundColumns,
) -> Result<StableTable, PlainFault>
    requires { (text : List ℕ) × (key : List (List ℕ)) × (sample : ℕ) × IsReading text [] reader.old
        × AreFound text key sample (record { schema = found.schema; types = found.types.items; moved = found.moved.items }) }
    ensures ok { IfOk result (λ table. (text : List ℕ) (key : List (List ℕ)) (sample : ℕ) → IsReading text [] reader.old
        → AreFound text key sample (record { schema = found.schema; types = found.types.items; moved = found.moved.items })
        → IsPlainTableOf text key sample table.schema table.rows) }
    ensures err { IfErr result (λ fault. fault ≢ PlainFault.Table TableFault.NoMemory
        → (text : List ℕ) (key : List (List ℕ)) (sample : ℕ) → IsReading text [] reader.old
        → AreFound text key sample (record { schema = found.schema; types = found.types.items; moved = found.moved.items })
        → IsPlainFaultOf text key sample fault) }
{
    if !next_record(reader, fields)? {
        return Err(PlainFault::Table(TableFault::NoHeader));
    }
    let rows = read_rows(alloc, reader, fields, found.types.as_slice())?;
    let columns = moved_columns(rows.columns, found.moved.as_slice())?;
    let sorted = in_ascending_key(alloc, found.schema.key_cols(), columns, rows.count)?;
    Ok(StableTable::of_columns(found.schema, sorted))
}

/// The columns, each of these places moved before the others, one after the other.
fn moved_columns(mut columns: Vec<Column>, moved: &[usize]) -> Result<Vec<Column>, NoMemory>
    ensures { IfOk result (λ moved_ones. moved_ones.items ≡ arranged moved.now columns.items) }
{
    for place in moved {
        move_first(&mut columns, *place)?;
    }
    Ok(columns)
}
