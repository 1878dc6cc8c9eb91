//! A manifest, spelt.
ghost use Rattle.std.specs.Prelude.{◌≡◌, ◌≢◌, ◌≤◌, ◌++◌, Err, [], ◌∷◌, IfOk, OnOk, codes, map};
ghost use Rattle.std.specs.List.{flat_map, AllByRecursion};
ghost use Rattle.manifest.specs.Manifest.{IsHead, IsLine, IsManifest, IsMark, IsName, IsTable, flag_text, head_text, line_now, line_text, long_text, manifest_now, mark_text, number_text, spelling, table_now, table_text};
ghost use Rattle.manifest.specs.declared.fault.WriteFault.TheVariants as write_fault;

use crate::entries::{FileMark, Manifest, ManifestHead, TableEntry, TableLine};
use crate::fault::WriteFault;
use crate::names::is_name;
use crate::numbers::{put_end, put_flag, put_long, put_number, put_word};
use std::alloc::{AllocError, Global};

/// How many columns a table has at most.
const MAX_WIDTH: u64 = 32;

/// The bytes that spell the manifest, as `read_manifest` reads it back.
///
/// # Errors
///
/// `Unlawful` where the manifest has no spelling: a name has no bytes or more than 64, or one that is a zero or ends a line; a table has
/// more than 32 columns, or not as many marks as its line says. `NoMemory` where a growth is refused.
pub fn write_manifest(alloc: Global, manifest: &Manifest<'_>) -> Result<Vec<u8>, WriteFault>
    ensures spelt { IfOk result (λ bytes. bytes.items ≡ spelling (manifest_now manifest.now)) }

    // What is spelt is lawful, and what is lawful is spelt, unless memory runs out.
    ensures lawful { IfOk result (λ _. IsManifest (manifest_now manifest.now)) }
    ensures only { IsManifest (manifest_now manifest.now) → result ≢ Err write_fault.Unlawful }
{
    let mut text = Vec::new(alloc);
    put_head(manifest.head, &mut text)?;
    put_tables(manifest.tables.as_slice(), &mut text)?;
    put_end(&mut text)?;
    Ok(text)
}

/// Puts the head, of three lines.
fn put_head(head: ManifestHead, out: &mut Vec<u8>) -> Result<(), AllocError>
    ensures spelt { OnOk result (out.new.items ≡ out.old.items ++ head_text head) }
    ensures lawful { IsHead head }
{
    put_database(head.store, head.salt, out)?;
    put_at(head.commit, head.first_file, out)?;
    put_next(head.next_table, head.next_folder, out)
}

/// Puts the line of the version, and that of the database's name and salt.
fn put_database(store: u64, salt: u64, out: &mut Vec<u8>) -> Result<(), AllocError>
    ensures { OnOk result (out.new.items ≡ out.old.items
        ++ (codes "narthexmace 1\ndatabase " ++ ((long_text store ++ 32 ∷ []) ++ (long_text salt ++ 10 ∷ [])))) }
{
    out.extend_from_slice(b"narthexmace 1\ndatabase ")?;
    put_long(store, b' ', out)?;
    put_long(salt, b'\n', out)
}

/// Puts the line of what was safe.
fn put_at(commit: u64, first_file: u64, out: &mut Vec<u8>) -> Result<(), AllocError>
    ensures { OnOk result (out.new.items ≡ out.old.items ++ (codes "at " ++ (number_text 32 commit ++ number_text 10 first_file))) }
{
    out.extend_from_slice(b"at ")?;
    put_number(commit, b' ', out)?;
    put_number(first_file, b'\n', out)
}

/// Puts the line of the next numbers.
fn put_next(table: u32, folder: u64, out: &mut Vec<u8>) -> Result<(), AllocError>
    ensures { OnOk result (out.new.items ≡ out.old.items ++ (codes "next " ++ (number_text 32 table ++ number_text 10 folder))) }
{
    out.extend_from_slice(b"next ")?;
    put_number(u64::from(table), b' ', out)?;
    put_number(folder, b'\n', out)
}

/// Puts the tables, one after the other.
fn put_tables(tables: &[TableEntry<'_>], out: &mut Vec<u8>) -> Result<(), WriteFault>
    ensures spelt { OnOk result (out.new.items ≡ out.old.items ++ flat_map table_text (map table_now tables.now)) }
    ensures lawful { OnOk result (AllByRecursion IsTable (map table_now tables.now)) }
    ensures only { AllByRecursion IsTable (map table_now tables.now) → result ≢ Err write_fault.Unlawful }
{
    for table in tables {
        put_table(table, out)?;
    }
    Ok(())
}

/// Puts a table's line, the mark of its header, and those of its columns.
fn put_table(table: &TableEntry<'_>, out: &mut Vec<u8>) -> Result<(), WriteFault>
    ensures spelt { OnOk result (out.new.items ≡ out.old.items ++ table_text (table_now table.now)) }
    ensures lawful { OnOk result (IsTable (table_now table.now)) }
    ensures only { IsTable (table_now table.now) → result ≢ Err write_fault.Unlawful }
{
    let line = table.line;
    if table.columns.len() as u64 != line.width || line.width > MAX_WIDTH || !is_name(line.name) {
        return Err(WriteFault::Unlawful);
    }
    put_line(line, out)?;
    put_mark(table.header, out)?;
    put_marks(table.columns.as_slice(), out)?;
    Ok(())
}

/// Puts the line of a table.
fn put_line(line: TableLine<'_>, out: &mut Vec<u8>) -> Result<(), AllocError>
    ensures spelt { OnOk result (out.new.items ≡ out.old.items ++ line_text (line_now line.entry)) }
    ensures lawful { IsName line.entry.name.now → line.entry.width ≤ 32 → IsLine (line_now line.entry) }
{
    put_place(line.number, line.commit, line.folder, out)?;
    put_limits(line.recent, line.limit, line.by_row, out)?;
    put_width(line.width, line.name, out)
}

/// Puts where a table's image is.
fn put_place(table: u32, commit: u64, folder: u64, out: &mut Vec<u8>) -> Result<(), AllocError>
    ensures { OnOk result (out.new.items ≡ out.old.items
        ++ (codes "table " ++ (number_text 32 table ++ (number_text 32 commit ++ number_text 32 folder)))) }
{
    out.extend_from_slice(b"table ")?;
    put_number(u64::from(table), b' ', out)?;
    put_number(commit, b' ', out)?;
    put_number(folder, b' ', out)
}

/// Puts a table's limits.
fn put_limits(recent: u64, limit: u64, by_row: bool, out: &mut Vec<u8>) -> Result<(), AllocError>
    ensures { OnOk result (out.new.items ≡ out.old.items ++ (number_text 32 recent ++ (number_text 32 limit ++ flag_text by_row))) }
{
    put_number(recent, b' ', out)?;
    put_number(limit, b' ', out)?;
    put_flag(by_row, out)
}

/// Puts how many columns a table has, and its name.
fn put_width(width: u64, name: &[u8], out: &mut Vec<u8>) -> Result<(), AllocError>
    ensures { OnOk result (out.new.items ≡ out.old.items ++ (number_text 32 width ++ (name.now ++ 10 ∷ []))) }
{
    put_number(width, b' ', out)?;
    out.extend_from_slice(name)?;
    out.extend_from_slice(b"\n")
}

/// Puts marks, one after the other.
fn put_marks(marks: &[FileMark], out: &mut Vec<u8>) -> Result<(), AllocError>
    ensures spelt { OnOk result (out.new.items ≡ out.old.items ++ flat_map mark_text marks.now) }
    ensures lawful { OnOk result (AllByRecursion IsMark marks.now) }
{
    for mark in marks {
        put_mark(*mark, out)?;
    }
    Ok(())
}

/// Puts the mark of a file.
fn put_mark(mark: FileMark, out: &mut Vec<u8>) -> Result<(), AllocError>
    ensures spelt { OnOk result (out.new.items ≡ out.old.items ++ mark_text mark) }
    ensures lawful { IsMark mark }
{
    put_number(mark.size, b' ', out)?;
    put_word(mark.check, out)?;
    out.extend_from_slice(b"\n")
}
