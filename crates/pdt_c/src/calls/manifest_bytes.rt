//! The manifest of a database, made of what C gives, and the bytes that spell it.
ghost use Rattle.std.specs.Prelude.{◌≡◌, ◌≢◌, ◌⊎◌, [], ◌∷◌, ◌++◌, IfOk, IfSome, IsSome, Ok, Err, Some, map};
ghost use Rattle.manifest.specs.Manifest.{IsManifest, spelling, table_now};
ghost use Rattle.manifest.specs.declared.fault.WriteFault.TheVariants as write_fault;
ghost use Rattle.pdt_c.specs.Listed.{head_of, listed_now, mark_of, table_of};
ghost use Rattle.pdt_c.specs.Stored.{bytes_at};
ghost use Rattle.pdt_c.specs.declared.codes.TheConstants.{DONE, NO_MEMORY, SHAPE};

use crate::calls::image_bytes::one_column;
use crate::calls::manifests::{HeadRecord, MarkRecord};
use crate::codes::{DONE, NO_MEMORY, SHAPE};
use crate::handles::image::{Columns, Image};
use crate::handles::listed::{LineRecord, Listed, ListedManifest, ListedTable};
use crate::handles::{image, listed};
use manifest::{
    FileMark, Manifest, ManifestHead, TableEntry, TableLine, WriteFault, write_manifest,
};
use std::alloc::Global;
use values::NoMemory;

/// Begins a manifest, without a table, in a handle that holds nothing.
#[unsafe(no_mangle)]
pub extern "C" fn pdtr_manifest_new(alloc: Global, head: &HeadRecord, manifest: &mut Listed) -> u32
    ensures code { (result ≡ DONE) ⊎ (result ≡ NO_MEMORY) }
    ensures done { result ≡ DONE → manifest.new.value ≡ Some (record { head = head_of head.now; tables = [] }) }
    ensures refused { result ≢ DONE → manifest.new.value ≡ manifest.old.value }
{
    let made = ListedManifest {
        head: head_of(head),
        tables: Vec::new(alloc),
    };
    match Box::new(alloc, made) {
        Ok(boxed) => {
            listed::put(manifest, boxed);
            DONE
        }
        Err(_) => NO_MEMORY,
    }
}

fn head_of(head: &HeadRecord) -> ManifestHead
    ensures { result ≡ head_of head.now }
{
    ManifestHead {
        store: head.store,
        salt: head.salt,
        commit: head.commit,
        first_file: head.first_file,
        next_table: head.next_table,
        next_folder: head.next_folder,
    }
}

/// Adds a table behind those that a manifest has. Nothing of it is tested before the manifest is spelt.
#[unsafe(no_mangle)]
pub extern "C" fn pdtr_manifest_add(
    alloc: Global,
    manifest: &mut Listed,
    line: &LineRecord,
    name: &[u8],
    header: &MarkRecord,
    columns: &[MarkRecord],
) -> u32
    requires { IsSome manifest.old.value }
    ensures code { (result ≡ DONE) ⊎ (result ≡ NO_MEMORY) }
    ensures done { result ≡ DONE → IfSome manifest.old.value (λ m. manifest.new.value ≡ Some (record
        { head = m.head; tables = m.tables ++ table_of line.now name.now header.now columns.now ∷ [] })) }
    ensures refused { result ≢ DONE → manifest.new.value ≡ manifest.old.value }
{
    let Ok(table) = table_of(alloc, line, name, header, columns) else {
        return NO_MEMORY;
    };
    let mut held = listed::take(alloc, manifest);
    let pushed = held.tables.push(table);
    listed::put(manifest, held);
    match pushed {
        Ok(()) => DONE,
        Err(_) => NO_MEMORY,
    }
}

fn table_of(
    alloc: Global,
    line: &LineRecord,
    name: &[u8],
    header: &MarkRecord,
    columns: &[MarkRecord],
) -> Result<ListedTable, NoMemory>
    ensures { IfOk result (λ t. listed_now t ≡ table_of line.now name.now header.now columns.now) }
{
    Ok(ListedTable {
        line: *line,
        name: Vec::from_slice(alloc, name)?,
        header: mark_of(header),
        columns: marks_of(alloc, columns)?,
    })
}

fn marks_of(alloc: Global, records: &[MarkRecord]) -> Result<Vec<FileMark>, NoMemory>
    ensures { IfOk result (λ marks. marks.items ≡ map mark_of records.now) }
{
    let mut marks = Vec::with_capacity(alloc, records.len())?;
    for found in records {
        marks.push(mark_of(found))?;
    }
    Ok(marks)
}

fn mark_of(found: &MarkRecord) -> FileMark
    ensures { result ≡ mark_of found.now }
{
    FileMark {
        size: found.size,
        check: found.check,
    }
}

/// Puts the bytes that spell a manifest into a handle that holds nothing, as its column 0: `SHAPE` where none do. They are read as the
/// manifest again. Nothing else changes.
#[unsafe(no_mangle)]
pub extern "C" fn pdtr_manifest_bytes(
    alloc: Global,
    manifest: &mut Listed,
    bytes: &mut Image,
) -> u32
    requires { IsSome manifest.old.value }
    ensures kept { manifest.new.value ≡ manifest.old.value }
    ensures code { (result ≡ DONE) ⊎ ((result ≡ SHAPE) ⊎ (result ≡ NO_MEMORY)) }
    ensures held { result ≡ DONE → IsSome bytes.new.value }
    ensures spelt { result ≡ DONE → IfSome manifest.old.value (λ m. IfSome bytes.new.value (λ b. bytes_at b 0 ≡ spelling m)) }

    // What is spelt is lawful, and what is lawful is spelt, unless memory runs out.
    ensures lawful { result ≡ DONE → IfSome manifest.old.value IsManifest }
    ensures shape { result ≡ SHAPE → IfSome manifest.old.value (λ m. IsManifest m → ⊥) }
    ensures refused { result ≢ DONE → bytes.new.value ≡ bytes.old.value }
{
    let held = listed::take(alloc, manifest);
    let spelt = spell(alloc, &held);
    listed::put(manifest, held);
    match spelt {
        Ok(columns) => {
            image::put(bytes, columns);
            DONE
        }
        Err(WriteFault::Unlawful) => SHAPE,
        Err(WriteFault::NoMemory) => NO_MEMORY,
    }
}

/// The bytes of a manifest.
fn spell(alloc: Global, held: &ListedManifest) -> Result<Box<Columns>, WriteFault>
    ensures spelt { IfOk result (λ b. bytes_at b.value 0 ≡ spelling held.now) }
    ensures lawful { IfOk result (λ _. IsManifest held.now) }
    ensures only { IsManifest held.now → result ≢ Err write_fault.Unlawful }
{
    let Ok(tables) = entries_of(alloc, held.tables.as_slice()) else {
        return Err(WriteFault::NoMemory);
    };
    let manifest = Manifest {
        head: held.head,
        tables,
    };
    let bytes = write_manifest(alloc, &manifest)?;
    match one_column(alloc, bytes) {
        Ok(columns) => Ok(columns),
        Err(NoMemory) => Err(WriteFault::NoMemory),
    }
}

/// The tables of a manifest, with names that are lent.
fn entries_of<'a>(alloc: Global, tables: &'a [ListedTable]) -> Result<Vec<TableEntry<'a>>, NoMemory>
    ensures { IfOk result (λ entries. map table_now entries.items ≡ map listed_now tables.now) }
{
    let mut entries = Vec::with_capacity(alloc, tables.len())?;
    for table in tables {
        entries.push(entry_of(alloc, table)?)?;
    }
    Ok(entries)
}

fn entry_of<'a>(alloc: Global, table: &'a ListedTable) -> Result<TableEntry<'a>, NoMemory>
    ensures { IfOk result (λ entry. table_now entry ≡ listed_now table.now) }
{
    let line = table.line;
    let told = TableLine {
        number: line.number,
        commit: line.commit,
        folder: line.folder,
        recent: line.recent,
        limit: line.limit,
        by_row: line.by_row,
        width: line.width,
        name: table.name.as_slice(),
    };
    Ok(TableEntry {
        line: told,
        header: table.header,
        columns: Vec::from_slice(alloc, table.columns.as_slice())?,
    })
}
