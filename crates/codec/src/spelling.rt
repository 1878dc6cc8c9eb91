//! Entries, written as a part of a payload.
ghost use Rattle.std.specs.Prelude.{◌≡◌, ◌≢◌, ◌<◌, ◌≤◌, ◌^◌, ◌-◌, ◌++◌, Ok, Err, false, length, take, drop, OnOk, OnErr};
ghost use Rattle.std.specs.List.{All};
ghost use Rattle.std.specs.Int.{w16, w32, to_be_bytes};
ghost use Rattle.values.specs.Lent.{value_of};
ghost use Rattle.values.specs.Shape.{IsSchema, is_too_long};
ghost use Rattle.codec.specs.declared.fault.SpellFault.TheVariants as spell_fault;
ghost use Rattle.codec.specs.Fit.{ArePlain, ArePlainEntries, EntriesFit, EntryFits, IsPlain, IsPlainChange};
ghost use Rattle.codec.specs.Laws.{ReadBack};
ghost use Rattle.codec.specs.Payload.{cell_bytes, cells_bytes, entries_bytes, entry_bytes, part_bytes};
ghost use Rattle.codec.specs.Reading.{entries_in};

use crate::fault::SpellFault;
use crate::format::{DELETE, FALSE, INSERT, MODIFY, TRUE};
use delta::{ChangeRef, DeltaTree, SharedEntry};
use values::{Schema, Value, ValueRef};

/// Appends the part of a table: its number, and the entries of its tree. At a fault the bytes are as they were.
///
/// # Errors
///
/// `TooLong` where the entries have 2^32 bytes or more, `NoMemory` where a growth is refused.
pub fn write_part(
    schema: &Schema,
    table: u32,
    tree: &DeltaTree,
    out: &mut Vec<u8>,
) -> Result<(), SpellFault>
    requires fits { EntriesFit schema.now tree.now.entries }
    ensures ok { OnOk result (out.new.items ≡ out.old.items ++ part_bytes table tree.now.entries) }
    // The part alone is read as the entries again, and so are its entries wherever they end.
    ensures again { OnOk result (entries_in schema.now table (part_bytes table tree.now.entries) ≡ Ok tree.now.entries) }
    ensures anywhere { OnOk result (ReadBack schema.now tree.now.entries) }
    ensures short { OnOk result (length (entries_bytes tree.now.entries) < 2 ^ 32) }
    ensures long { result ≡ Err spell_fault.TooLong → 2 ^ 32 ≤ length (entries_bytes tree.now.entries) }
    ensures err { OnErr result (out.new.items ≡ out.old.items) }
{
    let begin = out.len();
    let written = append_part(schema, table, tree, out);
    if written.is_err() {
        out.truncate(begin);
    }
    written
}

/// Appends the part, or at a fault some bytes in its place.
fn append_part(
    schema: &Schema,
    table: u32,
    tree: &DeltaTree,
    out: &mut Vec<u8>,
) -> Result<(), SpellFault>
    requires fits { EntriesFit schema.now tree.now.entries }
    ensures ok { OnOk result (out.new.items ≡ out.old.items ++ part_bytes table tree.now.entries) }
    ensures plain { OnOk result (ArePlainEntries tree.now.entries) }
    ensures short { OnOk result (length (entries_bytes tree.now.entries) < 2 ^ 32) }
    ensures long { result ≡ Err spell_fault.TooLong → 2 ^ 32 ≤ length (entries_bytes tree.now.entries) }
    ensures kept { take (length out.old.items) out.new.items ≡ out.old.items }
{
    out.extend_from_slice(&table.to_be_bytes())?;
    // How long the entries are is known once they stand there.
    out.extend_from_slice(&[0; 4])?;
    let begin = out.len();
    append_entries(schema, tree, out)?;
    let size = out.len() - begin;
    if size > u32::MAX as usize {
        return Err(SpellFault::TooLong);
    }
    set_size(out, begin, size as u32);
    Ok(())
}

/// Puts the length of the entries that begin at this place over the four bytes in front of it.
fn set_size(out: &mut Vec<u8>, begin: usize, size: u32)
    requires behind { 4 ≤ begin }
    requires within { begin ≤ length out.old.items }
    ensures { out.new.items ≡ take (begin - 4) out.old.items ++ (to_be_bytes w32 size ++ drop begin out.old.items) }
{
    out[begin - 4..begin].copy_from_slice(&size.to_be_bytes());
}

/// Appends the tree's entries.
fn append_entries(schema: &Schema, tree: &DeltaTree, out: &mut Vec<u8>) -> Result<(), SpellFault>
    requires fits { EntriesFit schema.now tree.now.entries }
    ensures ok { OnOk result (out.new.items ≡ out.old.items ++ entries_bytes tree.now.entries) }
    ensures plain { OnOk result (ArePlainEntries tree.now.entries) }
    ensures err { result ≢ Err spell_fault.TooLong }
    ensures kept { take (length out.old.items) out.new.items ≡ out.old.items }
{
    for entry in tree.iter() {
        append_entry(schema, entry, out)?;
    }
    Ok(())
}

/// Appends an entry.
fn append_entry(schema: &Schema, entry: &SharedEntry, out: &mut Vec<u8>) -> Result<(), SpellFault>
    requires fits { EntryFits schema.now entry.now }
    ensures ok { OnOk result (out.new.items ≡ out.old.items ++ entry_bytes entry.now) }
    ensures plain { OnOk result (IsPlainChange entry.now.change) }
    ensures err { result ≢ Err spell_fault.TooLong }
    ensures kept { take (length out.old.items) out.new.items ≡ out.old.items }
{
    prove!(schema.width() <= 32);
    out.extend_from_slice(&(entry.sid() as u32).to_be_bytes())?;
    match entry.change() {
        ChangeRef::Ins(row) => {
            out.push(INSERT)?;
            append_cells(row.cells(), out)
        }
        ChangeRef::Del(key) => {
            out.push(DELETE)?;
            append_cells(key.cells(), out)
        }
        ChangeRef::Mod(col, value) => {
            out.extend_from_slice(&[MODIFY, col as u8])?;
            append_cell(value, out)
        }
    }
}

/// Appends cells.
fn append_cells(cells: &[Value], out: &mut Vec<u8>) -> Result<(), SpellFault>
    requires short { All (λ value. is_too_long value ≡ false) cells.now }
    ensures ok { OnOk result (out.new.items ≡ out.old.items ++ cells_bytes cells.now) }
    ensures plain { OnOk result (ArePlain cells.now) }
    ensures err { result ≢ Err spell_fault.TooLong }
    ensures kept { take (length out.old.items) out.new.items ≡ out.old.items }
{
    for cell in cells {
        append_cell(cell.as_ref(), out)?;
    }
    Ok(())
}

/// Appends a cell.
fn append_cell(value: ValueRef<'_>, out: &mut Vec<u8>) -> Result<(), SpellFault>
    requires short { is_too_long (value_of value) ≡ false }
    ensures ok { OnOk result (out.new.items ≡ out.old.items ++ cell_bytes (value_of value.entry)) }
    ensures plain { OnOk result (IsPlain (value_of value.entry)) }
    ensures err { result ≢ Err spell_fault.TooLong }
    ensures kept { take (length out.old.items) out.new.items ≡ out.old.items }
{
    match value {
        ValueRef::Int(number) => Ok(out.extend_from_slice(&number.to_be_bytes())?),
        ValueRef::Text(text) => append_text(text, out),
        ValueRef::Bool(truth) => Ok(out.push(if truth { TRUE } else { FALSE })?),
    }
}

/// Appends a text after its length.
fn append_text(text: &str, out: &mut Vec<u8>) -> Result<(), SpellFault>
    requires short { length text.now ≤ 4096 }
    ensures ok { OnOk result (out.new.items ≡ out.old.items ++ (to_be_bytes w16 (length text.now) ++ text.now)) }
    ensures err { result ≢ Err spell_fault.TooLong }
    ensures kept { take (length out.old.items) out.new.items ≡ out.old.items }
{
    out.extend_from_slice(&(text.len() as u16).to_be_bytes())?;
    Ok(out.extend_from_slice(text.as_bytes())?)
}
