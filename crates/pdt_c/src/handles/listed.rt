//! C's handle of a manifest that was read.
ghost use Rattle.std.specs.Prelude.{◌≡◌, IfOk, IsSome, Some, None, map};
ghost use Rattle.std.specs.declared.option.Option.{Option};
ghost use Rattle.manifest.specs.Manifest.{Fields, manifest_now, table_now};
ghost use Rattle.pdt_c.specs.Listed.{listed_now};

use crate::handles::held::Held;
use manifest::{FileMark, Manifest, ManifestHead, TableEntry};
use std::alloc::Global;
use std::marker::Model;
use std::mem;
use values::NoMemory;

/// What the line of a table says beside its name.
#[repr(C)]
#[derive(Clone, Copy)]
pub struct LineRecord {
    /// The last commit that the table's image has.
    pub commit: u64,
    /// The number of its image's folder.
    pub folder: u64,
    pub recent: u64,
    pub limit: u64,
    /// How many columns it has, at most 32.
    pub width: u64,
    /// The table's number in the payloads of the journal.
    pub number: u32,
    pub by_row: bool,
}

/// A table, with a name and marks of its own.
#[derive(Drop)]
pub(crate) struct ListedTable {
    pub(crate) line: LineRecord,
    pub(crate) name: Vec<u8>,
    pub(crate) header: FileMark,
    pub(crate) columns: Vec<FileMark>,
}

impl ListedTable {
    fn of(alloc: Global, table: &TableEntry<'_>) -> Result<ListedTable, NoMemory>
        ensures { IfOk result (λ t. listed_now t ≡ table_now table.now) }
    {
        let line = table.line;
        let record = LineRecord {
            commit: line.commit,
            folder: line.folder,
            recent: line.recent,
            limit: line.limit,
            width: line.width,
            number: line.number,
            by_row: line.by_row,
        };
        Ok(ListedTable {
            line: record,
            name: Vec::from_slice(alloc, line.name)?,
            header: table.header,
            columns: Vec::from_slice(alloc, table.columns.as_slice())?,
        })
    }
}

/// What a manifest says.
#[derive(Drop)]
pub(crate) struct ListedManifest {
    pub(crate) head: ManifestHead,
    pub(crate) tables: Vec<ListedTable>,
}

impl Model for ListedManifest {
    ghost use Rattle.std.specs.Prelude.{map};
    ghost use Rattle.manifest.specs.Manifest.{Fields};
    ghost use Rattle.pdt_c.specs.Listed.{listed_now};

    ghost Value = { Fields };

    ghost view = { λ m. record { head = m.head; tables = map listed_now m.tables.items } };
}

impl ListedManifest {
    /// What a manifest says, of which nothing is lent.
    ///
    /// # Errors
    ///
    /// `NoMemory` where a growth is refused.
    pub(crate) fn of(alloc: Global, manifest: &Manifest<'_>) -> Result<ListedManifest, NoMemory>
        ensures { IfOk result (λ m. m ≡ manifest_now manifest.now) }
    {
        let tables = listed_tables(alloc, manifest.tables.as_slice())?;
        Ok(ListedManifest {
            head: manifest.head,
            tables,
        })
    }
}

fn listed_tables(alloc: Global, tables: &[TableEntry<'_>]) -> Result<Vec<ListedTable>, NoMemory>
    ensures { IfOk result (λ listed. map listed_now listed.items ≡ map table_now tables.now) }
{
    let mut listed = Vec::with_capacity(alloc, tables.len())?;
    for table in tables {
        listed.push(ListedTable::of(alloc, table)?)?;
    }
    Ok(listed)
}

/// Nothing, or a manifest on the heap. C has it as a struct of one pointer, which is null before a call fills it.
#[repr(C)]
#[derive(Drop)]
pub struct Listed {
    at: *mut u8,
    alloc: Global,
    ghost value: { Option Fields },
}

impl Model for Listed {
    ghost use Rattle.pdt_c.specs.Held.{owns_at};
    ghost use Rattle.pdt_c.specs.contracts.handles.listed.ListedManifest.{the_row};
    ghost use Rattle.std.specs.contracts.impls.GlobalAllocator.TheImpl.{ghosts};

    ghost also_owns = { λ h. owns_at (ghosts.dealloc_token h.alloc) the_row h.at h.value };
}

/// The handle that C keeps of what is held.
fn handle_of(held: Held<ListedManifest, Global>) -> Listed
    ensures { result.value ≡ held.value }
{
    let Held { at, alloc } = held;
    Listed {
        at: at as *mut u8,
        alloc,
    }
}

/// What a handle holds.
fn held_by(handle: Listed) -> Held<ListedManifest, Global>
    ensures { result.value ≡ handle.value }
{
    let Listed { at, alloc } = handle;
    Held {
        at: at as *mut ListedManifest,
        alloc,
    }
}

/// Fills a handle. What it held before is lost.
pub(crate) fn put(handle: &mut Listed, value: Box<ListedManifest>)
    ensures { handle.new.value ≡ Some value.value }
{
    *handle = handle_of(Held::of(value));
}

/// Takes what a handle holds, and leaves nothing.
pub(crate) fn take(alloc: Global, handle: &mut Listed) -> Box<ListedManifest>
    requires { IsSome handle.old.value }
    ensures value { handle.old.value ≡ Some result.value }
    ensures empty { handle.new.value ≡ None }
{
    held_by(mem::replace(handle, handle_of(Held::none(alloc)))).into_box()
}
