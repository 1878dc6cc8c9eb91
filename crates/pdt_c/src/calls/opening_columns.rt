//! Opening a manager over columns that C gives: numbers, truths, and the bytes of texts, from where they lie.
ghost use Rattle.std.specs.Prelude.{◌≡◌, ◌≢◌, ◌<◌, ◌≤◌, IfErr, IfOk, IfSome, Some, length, map, take};
ghost use Rattle.headers.specs.Naming.{IsNamed};
ghost use Rattle.stable.specs.declared.fault.BuildFault.TheVariants as build_fault;
ghost use Rattle.pdt_c.specs.Columns.{HaveTypes, OpensColumns, OpensGiven};
ghost use Rattle.pdt_c.specs.Told.{code_of_type};
ghost use Rattle.pdt_c.specs.declared.codes.TheConstants.{DONE, NOT_ASCENDING, SHAPE};
ghost use Rattle.pdt_c.specs.declared.given.columns.GivenFault.TheVariants as given_fault;

use crate::calls::opening::open_over;
use crate::codes::{BAD_TABLE, NO_MEMORY, NOT_ASCENDING, SHAPE, TOO_MANY_ROWS, code_of_table};
use crate::given::columns::{GivenColumns, GivenFault};
use crate::handles::store::Store;
use headers::named_schema;
use stable::BuildFault;
use std::alloc::Global;
use values::{ColumnType, NoMemory, Schema};

/// Where columns that C gives are no table. Rows and columns count from 0.
#[repr(C)]
#[derive(Clone, Copy)]
pub struct Place {
    pub row: u64,
    pub column: u64,
}

/// Opens a manager over columns with these names and types, the first of which are the key, and so many rows, into a handle that holds
/// nothing. For each column C gives numbers, offsets and bytes, of which it has those of its type. Where a value or a key isn't as it
/// should be, the place is the first such one of the first such column.
#[unsafe(no_mangle)]
pub extern "C" fn pdtr_open_columns(
    alloc: Global,
    names: &[&[u8]],
    types: &[u32],
    key_cols: usize,
    rows: usize,
    numbers: &[&[i64]],
    offsets: &[&[u64]],
    bytes: &[&[u8]],
    recent: usize,
    row_limit: u64,
    by_row: bool,
    place: &mut Place,
    store: &mut Store,
) -> u32
    ensures opens { OpensColumns (map (λ n. n.now) names.now) types.now key_cols
        (record { numbers = map (λ n. n.now) numbers.now; offsets = map (λ o. o.now) offsets.now; bytes = map (λ b. b.now) bytes.now })
        rows row_limit recent by_row result place.new store.old.value store.new.value }
{
    let given = GivenColumns {
        numbers,
        offsets,
        bytes,
    };
    match schema_in(alloc, names, types, key_cols) {
        Ok(schema) => open_given(
            alloc, schema, &given, rows, recent, row_limit, by_row, place, store,
        ),
        Err(code) => code,
    }
}

/// The schema of columns that C names.
fn schema_in(alloc: Global, names: &[&[u8]], types: &[u32], key_cols: usize) -> Result<Schema, u32>
    ensures ok { IfOk result (λ s. IsNamed (map (λ n. n.now) names.now) s.types key_cols s) }
    ensures types { IfOk result (λ s. HaveTypes types.now s.types) }
    ensures err { IfErr result (λ code. (code ≢ DONE) × (code ≢ SHAPE) × (code ≢ NOT_ASCENDING)) }
{
    let Ok(found) = types_in(alloc, types) else {
        return Err(NO_MEMORY);
    };
    if found.len() < types.len() {
        return Err(BAD_TABLE);
    }
    match named_schema(alloc, names, found.as_slice(), key_cols) {
        Ok(schema) => Ok(schema),
        Err(fault) => Err(code_of_table(fault)),
    }
}

/// The types of these numbers, up to the first that is none of a type.
fn types_in(alloc: Global, numbers: &[u32]) -> Result<Vec<ColumnType>, NoMemory>
    ensures types { IfOk result (λ types. HaveTypes (take (length types.items) numbers.now) types.items) }
    ensures most { IfOk result (λ types. length types.items ≤ length numbers.now) }
{
    let mut types = Vec::new(alloc);
    for number in numbers {
        let Some(kind) = type_of(*number) else {
            return Ok(types);
        };
        types.push(kind)?;
    }
    Ok(types)
}

/// The type of a number.
fn type_of(number: u32) -> Option<ColumnType>
    ensures some { IfSome result (λ kind. code_of_type (Some kind) ≡ number) }
{
    match number {
        1 => Some(ColumnType::Int),
        2 => Some(ColumnType::Text),
        3 => Some(ColumnType::Bool),
        _ => None,
    }
}

/// The same under a schema.
fn open_given(
    alloc: Global,
    schema: Schema,
    given: &GivenColumns<'_>,
    rows: usize,
    recent: usize,
    row_limit: u64,
    by_row: bool,
    place: &mut Place,
    store: &mut Store,
) -> u32
    ensures { OpensGiven schema given.now rows row_limit recent by_row result place.new store.old.value store.new.value }
{
    match given.table(alloc, schema, rows) {
        Ok(table) => open_over(alloc, table, recent, row_limit, by_row, store),
        Err(fault) => code_of_given(fault, place),
    }
}

/// The code of why columns make no table, and where.
fn code_of_given(fault: GivenFault, place: &mut Place) -> u32
    ensures some { 0 < result }
    ensures value { result ≡ SHAPE → fault ≡ given_fault.Value place.new.row place.new.column }
    ensures order { result ≡ NOT_ASCENDING → fault ≡ given_fault.Build (build_fault.NotAscending place.new.row) }
{
    match fault {
        GivenFault::Value(row, column) => {
            place.row = row as u64;
            place.column = column as u64;
            SHAPE
        }
        GivenFault::Build(BuildFault::NotAscending(row)) => {
            place.row = row as u64;
            NOT_ASCENDING
        }
        GivenFault::Build(BuildFault::TooManyRows) => TOO_MANY_ROWS,
        GivenFault::Build(BuildFault::Shape(_, _)) => BAD_TABLE,
        GivenFault::Build(BuildFault::NoMemory) | GivenFault::NoMemory => NO_MEMORY,
    }
}
