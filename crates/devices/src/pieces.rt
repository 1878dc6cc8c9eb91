//! The pieces of a table's image, one for each column.
ghost use Rattle.std.specs.Prelude.{◌≡◌, ◌≤◌, ◌++◌, IfOk, OnOk, length, map};
ghost use Rattle.values.specs.declared.limits.TheConstants.{MAX_ROWS};
ghost use Rattle.frames.specs.Column.{column_bytes};
ghost use Rattle.stable.specs.Stable.{IsStable};
ghost use Rattle.values.specs.Shape.{IsSchema};
ghost use Rattle.devices.specs.Image.{AllBlocks, AreBlocks, headers_of, image_frames, pieces_of};

use blocks::Block;
use frames::{write_header, write_part};
use stable::{Column, StableTable};
use std::alloc::Global;
use values::limits::MAX_BLOCK_VALUES;
use values::{ColumnType, NoMemory};

/// What a frame has beside the numbers: its head, and the byte that names the encoding.
const FRAME_BYTES: usize = 17;

/// The most that a number's payload takes.
const INT_BYTES: usize = 8;

/// Appends a column's values, each block as a frame of this generation.
fn write_column(
    alloc: Global,
    generation: u32,
    column: &Column,
    out: &mut Vec<u8>,
) -> Result<(), NoMemory>
    requires { length column.now.values ≤ MAX_ROWS }
    ensures bytes { OnOk result (out.new.items ≡ out.old.items ++ column_bytes (image_frames generation column.now)) }
    ensures blocks { OnOk result (AreBlocks column.now) }
{
    let count = column.len();
    if count == 0 {
        let none = Block::new(alloc, column.column_type());
        return write_part(generation, 0, true, &none, out);
    }
    let blocks = count.div_ceil(MAX_BLOCK_VALUES);
    reserve_numbers(column, out)?;
    for k in 0..blocks {
        let block = column.block(k);
        // A block tells with its length that each value fits its type: so what is written reads back.
        let held = block.len();
        prove!(held <= MAX_BLOCK_VALUES);
        write_part(generation, k as u32, k + 1 == blocks, block, out)?;
    }
    Ok(())
}

/// Makes room for all frames of a column of numbers at once, whose payloads are at most so long. Texts tell how long theirs are
/// block by block.
fn reserve_numbers(column: &Column, out: &mut Vec<u8>) -> Result<(), NoMemory>
    requires { length column.now.values ≤ MAX_ROWS }
    ensures { OnOk result (out.new.items ≡ out.old.items) }
{
    if column.column_type() == ColumnType::Int {
        let count = column.len();
        out.reserve(FRAME_BYTES * count.div_ceil(MAX_BLOCK_VALUES) + INT_BYTES * count)?;
    }
    Ok(())
}

/// The header of each column.
pub(crate) fn headers_of(alloc: Global, types: &[ColumnType]) -> Result<Vec<Vec<u8>>, NoMemory>
    ensures { IfOk result (λ headers. map (λ p. p.items) headers.items ≡ headers_of types.now) }
{
    let mut headers = Vec::with_capacity(alloc, types.len())?;
    for ty in types {
        let mut header = Vec::new(alloc);
        write_header(*ty, &mut header)?;
        headers.push(header)?;
    }
    Ok(headers)
}

/// What each column's device is to take for a table.
pub(crate) fn pieces_of(
    alloc: Global,
    generation: u32,
    table: &StableTable,
) -> Result<Vec<Vec<u8>>, NoMemory>
    ensures pieces { IfOk result (λ pieces. map (λ p. p.items) pieces.items ≡ pieces_of generation table.now) }
    ensures blocks { OnOk result (AllBlocks table.now) }
    ensures lawful { OnOk result (IsStable table.now) }
    ensures schema { OnOk result (IsSchema table.now.schema) }
{
    let width = table.schema().width();
    let mut pieces = Vec::with_capacity(alloc, width)?;
    for col in 0..width {
        let mut piece = Vec::new(alloc);
        write_column(alloc, generation, table.column(col), &mut piece)?;
        pieces.push(piece)?;
    }
    Ok(pieces)
}
