//! A text whose header names columns and no types: its columns, whose types the first records show.
ghost use Rattle.std.specs.Prelude.{◌≡◌, ◌≢◌, ◌∷◌, ℕ, List, [], IfOk, IfErr, OnOk, Ok, Err, take, length, map, position};
ghost use Rattle.std.specs.List.{list_any};
ghost use Rattle.csv.specs.Records.{fields_of};
ghost use Rattle.inputs.specs.Plain.{columns_found, common_type, first_in_key, fronted, has_type, joined, joined_type, kind_of, names_types, or_text, is_named, plain_columns, plain_heading, plain_headings, types_found, types_shown, unseen, with_key};
ghost use Rattle.inputs.specs.Reading.{AreRecordsOf, Fields, IsReading};

use crate::cell::{read_int, read_truth};
use crate::fault::{PlainFault, TableFault};
use crate::header::{Heading, first_colon, name_heading, schema_named};
use crate::reading::{next_record, records_of};
use csv::{ByteRecord, Reader};
use std::alloc::Global;
use values::{ColumnType, NoMemory, Schema};

/// The columns of such a text.
#[derive(Drop)]
pub(crate) struct FoundColumns {
    pub(crate) schema: Schema,
    /// The types in the text's order.
    pub(crate) types: Vec<ColumnType>,
    /// Where each column of the key stood when it was moved before the others, the last first.
    pub(crate) moved: Vec<usize>,
}

/// Whether the header of a text names types: some cell of it has a colon.
///
/// # Errors
///
/// `NoMemory` where a growth is refused.
pub fn has_types(alloc: Global, text: &[u8]) -> Result<bool, NoMemory>
    ensures { IfOk result (λ has. (records : List Fields) → AreRecordsOf text.now records → has ≡ names_types records) }
{
    let mut reader = records_of(alloc, text)?;
    let mut fields = ByteRecord::new(alloc);
    let found = next_record(reader.as_mut(), &mut fields)?;
    Ok(found && some_type(&fields))
}

/// Whether some cell of the header has a type beside the name.
fn some_type(header: &ByteRecord) -> bool
    ensures { result ≡ list_any has_type (fields_of header.now) }
{
    for i in 0..header.len() {
        let cell = match header.get(i) {
            Some(cell) => cell,
            None => unreachable!(),
        };
        if first_colon(cell).is_some() {
            return true;
        }
    }
    false
}

/// The types that the first `sample` records of a text show after its header, one for each of the header's columns.
///
/// # Errors
///
/// `NoMemory` where a growth is refused.
pub fn find_types(alloc: Global, text: &[u8], sample: usize) -> Result<Vec<ColumnType>, NoMemory>
    ensures { IfOk result
        (λ types. (records : List Fields) → AreRecordsOf text.now records → types.items ≡ types_found sample records) }
{
    let mut reader = records_of(alloc, text)?;
    let mut header = ByteRecord::new(alloc);
    if !next_record(reader.as_mut(), &mut header)? {
        return Ok(Vec::new(alloc));
    }
    show_types(alloc, reader.as_mut(), header.len(), sample)
}

/// The columns of a text. The key is the columns of these names, and with no names the first column; the types are what the first
/// `sample` records show.
///
/// # Errors
///
/// The first fault of the header, cell by cell and then as a schema; then a name of the key that no column has.
pub(crate) fn find_columns(
    alloc: Global,
    text: &[u8],
    key: &[&[u8]],
    sample: usize,
) -> Result<FoundColumns, PlainFault>
    ensures ok { IfOk result (λ f. (records : List Fields) → AreRecordsOf text.now records
        → plain_columns (map (λ name. name.now) key.now) sample records
        ≡ Ok (record { schema = f.schema; types = f.types.items; moved = f.moved.items })) }
    ensures err { IfErr result (λ fault. fault ≢ PlainFault.Table TableFault.NoMemory → (records : List Fields)
        → AreRecordsOf text.now records → plain_columns (map (λ name. name.now) key.now) sample records ≡ Err fault) }
{
    let mut reader = records_of(alloc, text)?;
    let mut header = ByteRecord::new(alloc);
    if !next_record(reader.as_mut(), &mut header)? {
        return Err(PlainFault::Table(TableFault::NoHeader));
    }
    let types = show_types(alloc, reader.as_mut(), header.len(), sample)?;
    header_columns(alloc, &header, types, key)
}

/// The types of so many columns, by the first `sample` records that the reader gives after the header.
fn show_types<'a>(
    alloc: Global,
    reader: &mut Reader<&'a [u8]>,
    width: usize,
    sample: usize,
) -> Result<Vec<ColumnType>, NoMemory>
    requires { (text : List ℕ) × (header : Fields) × IsReading text (header ∷ []) reader.old }
    ensures wide { IfOk result (λ types. length types.items ≡ width) }
    ensures shown { IfOk result (λ types. (text : List ℕ) (header : Fields) (records : List Fields)
        → IsReading text (header ∷ []) reader.old → AreRecordsOf text (header ∷ records)
        → types.items ≡ types_shown width (take sample records)) }
{
    let mut kinds = no_kinds(alloc, width)?;
    let mut fields = ByteRecord::new(alloc);
    for _ in 0..sample {
        let found = next_record(reader, &mut fields)?;
        if !found {
            return kinds_shown(alloc, kinds.as_slice());
        }
        add_kinds(&mut kinds, &fields);
    }
    kinds_shown(alloc, kinds.as_slice())
}

/// No type yet, of so many columns.
fn no_kinds(alloc: Global, width: usize) -> Result<Vec<Option<ColumnType>>, NoMemory>
    ensures { IfOk result (λ kinds. kinds.items ≡ unseen width) }
{
    let mut kinds = Vec::with_capacity(alloc, width)?;
    for _ in 0..width {
        kinds.push(None)?;
    }
    Ok(kinds)
}

/// The types, a column with no cell being one of texts.
fn kinds_shown(alloc: Global, kinds: &[Option<ColumnType>]) -> Result<Vec<ColumnType>, NoMemory>
    ensures { IfOk result (λ types. types.items ≡ map or_text kinds.now) }
{
    let mut types = Vec::with_capacity(alloc, kinds.len())?;
    for kind in kinds {
        types.push(or_text(*kind))?;
    }
    Ok(types)
}

fn or_text(kind: Option<ColumnType>) -> ColumnType
    ensures { result ≡ or_text kind }
{
    match kind {
        Some(kind) => kind,
        None => ColumnType::Text,
    }
}

/// Notes the cells of a record.
fn add_kinds(kinds: &mut Vec<Option<ColumnType>>, fields: &ByteRecord)
    ensures { kinds.new.items ≡ joined kinds.old.items (fields_of fields.now) }
{
    for i in 0..kinds.len() {
        let bytes = match fields.get(i) {
            Some(bytes) => bytes,
            None => return,
        };
        kinds[i] = Some(joined_type(kinds[i], kind_of(bytes)));
    }
}

fn joined_type(so_far: Option<ColumnType>, kind: ColumnType) -> ColumnType
    ensures { result ≡ joined_type so_far kind }
{
    match so_far {
        Some(other) => common_type(other, kind),
        None => kind,
    }
}

fn common_type(a: ColumnType, b: ColumnType) -> ColumnType
    ensures { result ≡ common_type a b }
{
    match (a, b) {
        (ColumnType::Int, ColumnType::Int) => ColumnType::Int,
        (ColumnType::Bool, ColumnType::Bool) => ColumnType::Bool,
        _ => ColumnType::Text,
    }
}

/// The type of what a cell says.
fn kind_of(bytes: &[u8]) -> ColumnType
    ensures { result ≡ kind_of bytes.now }
{
    if read_int(bytes).is_some() {
        ColumnType::Int
    } else if read_truth(bytes).is_some() {
        ColumnType::Bool
    } else {
        ColumnType::Text
    }
}

/// The columns of a header, of these types.
fn header_columns(
    alloc: Global,
    header: &ByteRecord,
    types: Vec<ColumnType>,
    key: &[&[u8]],
) -> Result<FoundColumns, PlainFault>
    requires { length types.items ≡ length (fields_of header.now) }
    ensures ok { IfOk result (λ f. columns_found (map (λ name. name.now) key.now) (fields_of header.now) types.items
        ≡ Ok (record { schema = f.schema; types = f.types.items; moved = f.moved.items })) }
    ensures err { IfErr result (λ fault. fault ≢ PlainFault.Table TableFault.NoMemory
        → columns_found (map (λ name. name.now) key.now) (fields_of header.now) types.items ≡ Err fault) }
{
    let first = plain_headings(alloc, header, types.as_slice())?;
    let schema = schema_named(alloc, first)?;
    if key.is_empty() {
        let moved = Vec::new(alloc);
        return Ok(FoundColumns {
            schema,
            types,
            moved,
        });
    }
    let mut headings = plain_headings(alloc, header, types.as_slice())?;
    set_first(&mut headings, false);
    let moved = move_key(alloc, key, &mut headings)?;
    let schema = schema_named(alloc, headings)?;
    Ok(FoundColumns {
        schema,
        types,
        moved,
    })
}

/// The columns that the header's cells name, in their order. The first is the key.
fn plain_headings(
    alloc: Global,
    header: &ByteRecord,
    types: &[ColumnType],
) -> Result<Vec<Heading>, TableFault>
    requires { length types.now ≡ length (fields_of header.now) }
    ensures ok { IfOk result (λ headings. plain_headings 0 (fields_of header.now) types.now ≡ Ok headings.items) }
    ensures err { IfErr result
        (λ fault. fault ≢ TableFault.NoMemory → plain_headings 0 (fields_of header.now) types.now ≡ Err fault) }
{
    let mut headings = Vec::new(alloc);
    for i in 0..types.len() {
        let name = match header.get(i) {
            Some(name) => name,
            None => unreachable!(),
        };
        headings.push(plain_heading(alloc, i, name, types[i])?)?;
    }
    Ok(headings)
}

/// The column that cell `at` names.
fn plain_heading(
    alloc: Global,
    at: usize,
    name: &[u8],
    column: ColumnType,
) -> Result<Heading, TableFault>
    ensures ok { IfOk result (λ heading. plain_heading at name.now column ≡ Ok heading) }
    ensures err { IfErr result (λ fault. fault ≢ TableFault.NoMemory → plain_heading at name.now column ≡ Err fault) }
{
    if first_colon(name).is_some() {
        return Err(TableFault::BadHeader(at));
    }
    match name_heading(alloc, name, column, at == 0)? {
        Some(heading) => Ok(heading),
        None => Err(TableFault::BadHeader(at)),
    }
}

/// Puts the first column into the key, or takes it out.
fn set_first(headings: &mut Vec<Heading>, is_key: bool)
    ensures { headings.new.items ≡ first_in_key is_key headings.old.items }
{
    if !headings.is_empty() {
        headings[0].is_key = is_key;
    }
}

/// Moves the columns of these names before the others, in this order. Tells where each was, the last first.
fn move_key(
    alloc: Global,
    key: &[&[u8]],
    headings: &mut Vec<Heading>,
) -> Result<Vec<usize>, PlainFault>
    ensures ok { IfOk result (λ moved. with_key 0 (map (λ name. name.now) key.now) headings.old.items
        ≡ Ok (record { places = moved.items; headings = headings.new.items })) }
    ensures err { IfErr result (λ fault. fault ≢ PlainFault.Table TableFault.NoMemory
        → with_key 0 (map (λ name. name.now) key.now) headings.old.items ≡ Err fault) }
{
    let mut moved = Vec::with_capacity(alloc, key.len())?;
    for i in 0..key.len() {
        let at = key.len() - 1 - i;
        let place = match place_named(headings.as_slice(), key[at]) {
            Some(place) => place,
            None => return Err(PlainFault::NoColumn(at)),
        };
        move_first(headings, place)?;
        set_first(headings, true);
        moved.push(place)?;
    }
    Ok(moved)
}

/// Where the column of this name is that is not in the key yet.
fn place_named(headings: &[Heading], name: &[u8]) -> Option<usize>
    ensures { result ≡ position (is_named name.now) headings.now }
{
    headings.iter().position(|heading| !heading.is_key && heading.name.as_str().as_bytes() == name)
}

/// Moves the element at a place before all others.
pub(crate) fn move_first<T: Drop>(items: &mut Vec<T>, place: usize) -> Result<(), NoMemory>
    ensures { OnOk result (items.new.items ≡ fronted place items.old.items) }
{
    if place < items.len() {
        let item = items.remove(place);
        items.insert(0, item)?;
    }
    Ok(())
}
