//! The sentence of a fault of a table's text.
ghost use Rattle.std.specs.Prelude.{◌≡◌, ℕ, List, [], IfOk, string_bytes};
ghost use Rattle.csv.specs.Records.{fields_of, field_at};
ghost use Rattle.inputs.specs.Reading.{AreRecordsOf, Fields};
ghost use Rattle.sentences.specs.Tables.{count_sentence, counted, heading_sentence, key_count_sentence, record_of, record_sentence, repeat_sentence, repeated_sentence, schema_sentence, table_sentence, textless};

use crate::cells::{BadCell, CellFault, cell_sentence, missing_cell, missing_record, place_of};
use crate::headings::{heading_fault, name_in};
use crate::keys::{key_count, push_key};
use crate::quoting::{ROOM, quoted};
use csv::ByteRecord;
use inputs::{TableFault, record_at};
use std::alloc::Global;
use values::{ColumnType, NoMemory, SchemaFault};

/// The sentence that explains a fault of a table's text: the line on which its record begins, the column by its name, what the cell
/// has and what is wanted, as in `line 4, column "age": "abc" is not an int: a whole number of 64 bits is wanted`. It is one line of at
/// most some 400 bytes, whatever the text is. The text is read again up to the fault's record.
///
/// `types` is empty where the header's cells name the columns' types, as `id:int:key`. A caller that found the types itself passes
/// them, one for each column of the text, and a header cell is then a name alone. For a fault that is not of the text the sentence
/// says which record or cell isn't there.
///
/// # Errors
///
/// `NoMemory` where a growth is refused.
pub fn explain_table(
    alloc: Global,
    text: &[u8],
    types: &[ColumnType],
    fault: TableFault,
) -> Result<String, NoMemory>
    ensures { IfOk result (λ sentence. (line : ℕ) × ((records : List Fields) → AreRecordsOf text.now records
        → string_bytes sentence ≡ table_sentence types.now line records fault)) }
{
    let number = match record_of(fault) {
        Some(number) => number,
        None => return textless(alloc, fault),
    };
    let header = match record_at(alloc, text, 1)? {
        Some(header) => header,
        None => return missing_record(alloc, number),
    };
    let found = match record_at(alloc, text, number)? {
        Some(found) => found,
        None => return missing_record(alloc, number),
    };
    let place = place_of(alloc, found.line, number)?;
    record_sentence(
        alloc,
        types,
        place.as_str(),
        &header.fields,
        &found.fields,
        fault,
    )
}

/// The record that a fault is of.
fn record_of(fault: TableFault) -> Option<u64>
    ensures { result ≡ record_of fault }
{
    match fault {
        TableFault::NoHeader | TableFault::TooManyRows | TableFault::NoMemory => None,
        TableFault::BadHeader(_) | TableFault::Schema(_) => Some(1),
        TableFault::BadCount(number)
        | TableFault::BadText(number, _)
        | TableFault::BadCell(number, _)
        | TableFault::TextTooLong(number, _)
        | TableFault::RepeatedKey(number) => Some(number),
    }
}

/// The sentence of a fault that is of no record.
fn textless(alloc: Global, fault: TableFault) -> Result<String, NoMemory>
    ensures { IfOk result (λ text. string_bytes text ≡ textless fault) }
{
    let sentence = match fault {
        TableFault::NoHeader => {
            "the text is empty: a header such as id:int:key,name:text is wanted"
        }
        TableFault::TooManyRows => "the text has too many records: 2147483647 rows are the most",
        _ => "there was no memory to read the text",
    };
    Ok(String::from_str(alloc, sentence)?)
}

/// The sentence of a fault of a record, which begins at a place.
fn record_sentence(
    alloc: Global,
    types: &[ColumnType],
    place: &str,
    header: &ByteRecord,
    fields: &ByteRecord,
    fault: TableFault,
) -> Result<String, NoMemory>
    ensures { IfOk result (λ text. string_bytes text
        ≡ record_sentence types.now place.now (fields_of header.now) (fields_of fields.now) fault) }
{
    let bad = match fault {
        TableFault::BadHeader(col) => return heading_sentence(alloc, types, place, header, col),
        TableFault::Schema(fault) => return schema_sentence(alloc, types, place, header, fault),
        TableFault::BadCount(_) => return count_sentence(alloc, place, header, fields),
        TableFault::RepeatedKey(_) => return repeat_sentence(alloc, types, place, header, fields),
        TableFault::BadText(_, col) => BadCell {
            col,
            fault: CellFault::NotText,
        },
        TableFault::BadCell(_, col) => BadCell {
            col,
            fault: CellFault::NotTyped,
        },
        TableFault::TextTooLong(_, col) => BadCell {
            col,
            fault: CellFault::TooLong,
        },
        _ => return textless(alloc, fault),
    };
    cell_sentence(alloc, types, place, header, fields, bad)
}

/// The sentence of a header cell that names no column.
fn heading_sentence(
    alloc: Global,
    types: &[ColumnType],
    place: &str,
    header: &ByteRecord,
    col: usize,
) -> Result<String, NoMemory>
    ensures { IfOk result (λ text. string_bytes text ≡ heading_sentence types.now place.now col (field_at (fields_of header.now) col)) }
{
    let cell = match header.get(col) {
        Some(cell) => cell,
        None => return missing_cell(alloc, place, col),
    };
    let fault = heading_fault(alloc, types, cell)?;
    let from_one = col as u128 + 1;
    Ok(format!(in alloc; "{place}, column {from_one}: {fault}")?)
}

/// The sentence of a header whose columns make no schema.
fn schema_sentence(
    alloc: Global,
    types: &[ColumnType],
    place: &str,
    header: &ByteRecord,
    fault: SchemaFault,
) -> Result<String, NoMemory>
    ensures { IfOk result (λ text. string_bytes text ≡ schema_sentence types.now place.now (fields_of header.now) fault) }
{
    match fault {
        SchemaFault::NoColumns => Ok(format!(in alloc; "{place}: the header names no column")?),
        SchemaFault::TooManyColumns => {
            let columns = counted(alloc, header.len(), "column")?;
            Ok(format!(in alloc; "{place}: the header has {columns}, and 32 are the most")?)
        }
        SchemaFault::BadKeyCount => key_count_sentence(alloc, types, place, header),
        SchemaFault::RepeatedName(col) => repeated_sentence(alloc, types, place, header, col),
        SchemaFault::NoMemory => textless(alloc, TableFault::NoMemory),
    }
}

/// The sentence of a key that has no column, or too many.
fn key_count_sentence(
    alloc: Global,
    types: &[ColumnType],
    place: &str,
    header: &ByteRecord,
) -> Result<String, NoMemory>
    ensures { IfOk result (λ text. string_bytes text ≡ key_count_sentence types.now place.now (fields_of header.now)) }
{
    if types.is_empty() {
        named_key_count(alloc, place, header)
    } else {
        Ok(format!(in alloc; "{place}: a key of 1 to 4 columns is wanted")?)
    }
}

/// The same, where the header names the key columns.
fn named_key_count(alloc: Global, place: &str, header: &ByteRecord) -> Result<String, NoMemory>
    ensures { IfOk result (λ text. string_bytes text ≡ key_count_sentence [] place.now (fields_of header.now)) }
{
    let columns = counted(alloc, key_count(header), "key column")?;
    Ok(format!(in alloc; "{place}: {columns}, and 1 to 4 are wanted, as in id:int:key")?)
}

/// The sentence of a column whose name an earlier one has.
fn repeated_sentence(
    alloc: Global,
    types: &[ColumnType],
    place: &str,
    header: &ByteRecord,
    col: usize,
) -> Result<String, NoMemory>
    ensures { IfOk result (λ text. string_bytes text ≡ repeated_sentence types.now place.now col (field_at (fields_of header.now) col)) }
{
    let cell = match header.get(col) {
        Some(cell) => cell,
        None => return missing_cell(alloc, place, col),
    };
    let name = quoted(alloc, ROOM, name_in(types, cell))?;
    let from_one = col as u128 + 1;
    Ok(format!(in alloc; "{place}, column {from_one}: an earlier column has the name {name}")?)
}

/// The sentence of a record that has not as many cells as the header.
fn count_sentence(
    alloc: Global,
    place: &str,
    header: &ByteRecord,
    fields: &ByteRecord,
) -> Result<String, NoMemory>
    ensures { IfOk result (λ text. string_bytes text ≡ count_sentence place.now (fields_of header.now) (fields_of fields.now)) }
{
    let cells = counted(alloc, fields.len(), "cell")?;
    let columns = counted(alloc, header.len(), "column")?;
    Ok(format!(in alloc; "{place}: {cells}, and the header has {columns}")?)
}

/// The sentence of a record whose key an earlier one has.
fn repeat_sentence(
    alloc: Global,
    types: &[ColumnType],
    place: &str,
    header: &ByteRecord,
    fields: &ByteRecord,
) -> Result<String, NoMemory>
    ensures { IfOk result (λ text. string_bytes text ≡ repeat_sentence types.now place.now (fields_of header.now) (fields_of fields.now)) }
{
    if !types.is_empty() {
        return Ok(format!(in alloc; "{place}: an earlier record has the key of this one")?);
    }
    let mut sentence = format!(in alloc; "{place}, key")?;
    push_key(alloc, &mut sentence, header, fields)?;
    sentence.push_str(": an earlier record has this key")?;
    Ok(sentence)
}

/// So many of something, by its word for one.
pub(crate) fn counted(alloc: Global, count: usize, one: &str) -> Result<String, NoMemory>
    ensures { IfOk result (λ text. string_bytes text ≡ counted count one.now) }
{
    let ending = if count == 1 { "" } else { "s" };
    Ok(format!(in alloc; "{count} {one}{ending}")?)
}
