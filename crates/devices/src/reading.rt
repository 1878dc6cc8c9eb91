//! A store, read.
ghost use Rattle.std.specs.Prelude.{◌≡◌, [], length, map, IfOk};
ghost use Rattle.std.specs.List.{list_all};
ghost use Rattle.frames.specs.Reading.{Gives, frames_of, parts_after};
ghost use Rattle.devices.specs.Stored.{all_parts, are_even, columns_in, ends_image, fault_of, image_of, is_whole, newest_of, newest_whole, stored_image, values_in};
ghost use Rattle.devices.specs.Turns.{AreAllInTurn, AreEachInTurn, AreInTurn, IsInTurn};

use frames::{Part, ReadFault, read_column, what_reads_is_a_column};
use stable::{BuildFault, Column, StableTable};
use std::alloc::Global;
use values::{ColumnType, NoMemory, Schema};

/// What a store has: a table, and the generation that stores it.
#[derive(Drop)]
pub struct StoredImage {
    pub generation: u32,
    pub table: StableTable,
}

/// The image that columns store under a schema, one for each of its columns: that of the greatest generation which is
/// whole in every column.
///
/// # Errors
///
/// `WrongCount` where there aren't as many columns as the schema has, before all else. Then, column by column, the first
/// fault of its frames from the left: `BadFrame`, `TypesDiffer` or `BadBlock`. Then `NoImage` where no generation is
/// whole in every column, `CountsDiffer` where they haven't all as many values in it, `TooManyRows`, and `NotAscending`
/// with the first row whose key isn't above that of the row before. `NoMemory` where a growth is refused.
pub fn read_store(
    alloc: Global,
    schema: &Schema,
    columns: &[&[u8]],
) -> Result<StoredImage, ReadFault>
    ensures { Gives (λ image. record { generation = image.generation; table = image.table }) result
        (stored_image schema.now (map (λ c. c.now) columns.now)) }
{
    if columns.len() != schema.width() {
        return Err(ReadFault::WrongCount);
    }
    let parts = read_parts(alloc, schema.types(), columns)?;
    let Some(generation) = newest_whole(parts.as_slice()) else {
        return Err(ReadFault::NoImage);
    };
    let columns = columns_in(alloc, generation, schema.types(), parts)?;
    image_of(schema, generation, columns)
}

/// The image of a generation's columns, which are of the schema's types.
fn image_of(
    schema: &Schema,
    generation: u32,
    columns: Vec<Column>,
) -> Result<StoredImage, ReadFault>
    requires { map (λ c. c.ty) columns.items ≡ schema.now.types }
    ensures { Gives (λ image. record { generation = image.generation; table = image.table }) result
        (image_of schema.now generation columns.items) }
{
    if !are_even(columns.as_slice()) {
        return Err(ReadFault::CountsDiffer);
    }
    match StableTable::from_columns(schema.copy()?, columns) {
        Ok(table) => Ok(StoredImage { generation, table }),
        Err(fault) => Err(fault_of(fault)),
    }
}

/// Rows that are no table, as columns that are no image.
fn fault_of(fault: BuildFault) -> ReadFault
    ensures { result ≡ fault_of fault }
{
    match fault {
        BuildFault::TooManyRows => ReadFault::TooManyRows,
        BuildFault::Shape(row, _) => ReadFault::NotAscending(row),
        BuildFault::NotAscending(row) => ReadFault::NotAscending(row),
        BuildFault::NoMemory => ReadFault::NoMemory,
    }
}

/// Whether each of the columns has as many values as the first.
fn are_even(columns: &[Column]) -> bool
    ensures { result ≡ are_even columns.now }
{
    let count = match columns {
        [] => 0,
        [first, ..] => first.len(),
    };
    for column in columns {
        if column.len() != count {
            return false;
        }
    }
    true
}

/// The columns of a generation.
fn columns_in(
    alloc: Global,
    generation: u32,
    types: &[ColumnType],
    columns: Vec<Vec<Part<'_>>>,
) -> Result<Vec<Column>, NoMemory>
    requires even { length columns.items ≡ length types.now }
    requires turn { AreAllInTurn types.now (map (λ p. p.items) columns.items) }
    ensures { IfOk result (λ made. made.items ≡ columns_in generation types.now (map (λ p. p.items) columns.entry.items)) }
{
    let mut made = Vec::with_capacity(alloc, types.len())?;
    for parts in columns {
        let ty = types[made.len()];
        made.push(column_in(alloc, generation, ty, parts)?)?;
    }
    Ok(made)
}

/// The column of a generation: its blocks, read and kept. Those of other generations are passed over.
fn column_in(
    alloc: Global,
    generation: u32,
    ty: ColumnType,
    parts: Vec<Part<'_>>,
) -> Result<Column, NoMemory>
    requires { AreInTurn ty parts.items }
    ensures { IfOk result (λ column. column ≡ record { ty = ty; values = values_in generation parts.entry.items }) }
{
    let mut column = Column::new(alloc, ty);
    for part in parts {
        if part.generation == generation && part.block.len() > 0 {
            column.push_block(part.block.read(alloc)?)?;
        }
    }
    Ok(column)
}

/// The blocks of each column, in order, their payloads lent.
fn read_parts<'a>(
    alloc: Global,
    types: &[ColumnType],
    columns: &[&'a [u8]],
) -> Result<Vec<Vec<Part<'a>>>, ReadFault>
    requires { length columns.now ≡ length types.now }
    ensures parts { Gives (λ parts. map (λ p. p.items) parts.items) result (all_parts 0 types.now (map (λ c. c.now) columns.now)) }
    ensures turn { IfOk result (λ parts. AreAllInTurn types.now (map (λ p. p.items) parts.items)) }
    ensures even { IfOk result (λ parts. length parts.items ≡ length types.now) }
{
    let mut parts = Vec::new(alloc);
    for (col, bytes) in columns.iter().enumerate() {
        parts.push(read_in_turn(alloc, col, types[col], bytes)?)?;
    }
    Ok(parts)
}

/// The blocks of a column, in order, each where it may be.
fn read_in_turn<'a>(
    alloc: Global,
    col: usize,
    ty: ColumnType,
    bytes: &'a [u8],
) -> Result<Vec<Part<'a>>, ReadFault>
    ensures parts { Gives (λ parts. parts.items) result (parts_after [] (frames_of col (Some ty) bytes.now)) }
    ensures turn { IfOk result (λ parts. AreInTurn ty parts.items) }
{
    what_reads_is_a_column();
    read_column(alloc, col, ty, bytes)
}

/// The greatest generation that is whole in each of the columns.
fn newest_whole(columns: &[Vec<Part<'_>>]) -> Option<u32>
    requires { AreEachInTurn (map (λ p. p.items) columns.now) }
    ensures { result ≡ newest_whole (map (λ p. p.items) columns.now) }
{
    match columns {
        [] => None,
        [first, others @ ..] => newest_among(first.as_slice(), others),
    }
}

/// The last generation among the blocks of a column that is whole in each of the others. It is sought from the last block
/// on back, so that no older one is tested where the newest is whole.
fn newest_among(parts: &[Part<'_>], others: &[Vec<Part<'_>>]) -> Option<u32>
    requires { AreEachInTurn (map (λ p. p.items) others.now) }
    ensures { result ≡ newest_of (map (λ p. p.items) others.now) None parts.now }
{
    let mut end = parts.len();
    while end > 0 {
        let part = &parts[end - 1];
        if ends_image(part, others) {
            return Some(part.generation);
        }
        end -= 1;
    }
    None
}

/// Whether the block ends a generation that is whole in each of the columns.
fn ends_image(part: &Part<'_>, columns: &[Vec<Part<'_>>]) -> bool
    requires { AreEachInTurn (map (λ p. p.items) columns.now) }
    ensures { result ≡ ends_image (map (λ p. p.items) columns.now) part.now }
{
    part.last && is_whole_in_all(part.generation, columns)
}

/// Whether a generation is whole in each of the columns.
fn is_whole_in_all(generation: u32, columns: &[Vec<Part<'_>>]) -> bool
    requires { AreEachInTurn (map (λ p. p.items) columns.now) }
    ensures { result ≡ list_all (is_whole generation) (map (λ p. p.items) columns.now) }
{
    for parts in columns {
        if !is_whole(generation, parts.as_slice()) {
            return false;
        }
    }
    true
}

/// Whether a generation is whole among the blocks of a column, found by halving.
fn is_whole(generation: u32, parts: &[Part<'_>]) -> bool
    requires { IsInTurn parts.now }
    ensures { result ≡ is_whole generation parts.now }
{
    let end = parts.partition_point(|part| part.generation <= generation);
    if end == 0 {
        return false;
    }
    let part = &parts[end - 1];
    part.last && part.generation == generation
}
