//! The manifest of a database, read, and what it says of each table.
ghost use Rattle.std.specs.Prelude.{◌≡◌, ◌≢◌, ◌⊎◌, IfSome, IsSome, Some, None, length, map, slice_get};
ghost use Rattle.manifest.specs.Manifest.{Fields, IsManifest, spelling};
ghost use Rattle.manifest.specs.Version.{IsLater};
ghost use Rattle.pdt_c.specs.Listed.{head_record, line_record, listed_now, mark_record, marks_of};
ghost use Rattle.pdt_c.specs.Told.{IsPut};
ghost use Rattle.segments.specs.Marks.{has_mark};
ghost use Rattle.pdt_c.specs.declared.codes.TheConstants.{DONE, MISSING, NEWER_FORMAT, NO_MEMORY, ROT};

use crate::codes::{DONE, MISSING, NEWER_FORMAT, NO_MEMORY, ROT};
use crate::handles::listed;
use crate::handles::listed::{LineRecord, Listed, ListedManifest, ListedTable};
use crate::text_fault::put as put_bytes;
use manifest::{FileMark, ManifestFault, ManifestHead, is_later_manifest, read_manifest};
use segments::has_mark;
use std::alloc::Global;

/// What a manifest says of the database.
#[repr(C)]
#[derive(Clone, Copy)]
pub struct HeadRecord {
    pub store: u64,
    pub salt: u64,
    pub commit: u64,
    pub first_file: u64,
    pub next_folder: u64,
    pub next_table: u32,
}

/// How long a file is, and the check of its bytes.
#[repr(C)]
#[derive(Clone, Copy)]
pub struct MarkRecord {
    pub size: u64,
    pub check: u32,
}

/// Reads the manifest that bytes spell into a handle that holds nothing. Where they are the spelling of none: `NEWER_FORMAT` where they
/// are a manifest of a later version, which has its check, and else `ROT`.
#[unsafe(no_mangle)]
pub extern "C" fn pdtr_manifest_read(alloc: Global, bytes: &[u8], manifest: &mut Listed) -> u32
    // What is read is spelt so.
    ensures done { result ≡ DONE → IfSome manifest.new.value (λ m. IsManifest m × (bytes.now ≡ spelling m)) }
    ensures held { result ≡ DONE → IsSome manifest.new.value }
    ensures refused { result ≢ DONE → manifest.new.value ≡ manifest.old.value }

    // What is spelt so isn't damaged.
    ensures rot { result ≡ ROT → (m : Fields) → IsManifest m → bytes.now ≢ spelling m }

    // Exactly those of a later version are told as such, unless memory runs out.
    ensures later { result ≡ NEWER_FORMAT → IsLater bytes.now }
    ensures no_later { result ≡ ROT → IsLater bytes.now → ⊥ }
    ensures code { (result ≡ DONE) ⊎ ((result ≡ ROT) ⊎ ((result ≡ NEWER_FORMAT) ⊎ (result ≡ NO_MEMORY))) }
{
    let read = match read_manifest(alloc, bytes) {
        Ok(read) => read,
        Err(ManifestFault::Damaged) if is_later_manifest(bytes) => return NEWER_FORMAT,
        Err(ManifestFault::Damaged) => return ROT,
        Err(ManifestFault::NoMemory) => return NO_MEMORY,
    };
    let Ok(listed) = ListedManifest::of(alloc, &read) else {
        return NO_MEMORY;
    };
    match Box::new(alloc, listed) {
        Ok(boxed) => {
            listed::put(manifest, boxed);
            DONE
        }
        Err(_) => NO_MEMORY,
    }
}

/// Whether the bytes of a file are as many as its mark says, and have its check. Takes no memory.
#[unsafe(no_mangle)]
pub extern "C" fn pdtr_has_mark(size: u64, check: u32, bytes: &[u8]) -> bool
    ensures { result ≡ has_mark (record { size = size; check = check }) bytes.now }
{
    has_mark(&FileMark { size, check }, bytes)
}

/// Lets a manifest go.
#[unsafe(no_mangle)]
pub extern "C" fn pdtr_manifest_close(alloc: Global, manifest: &mut Listed)
    requires { IsSome manifest.old.value }
    ensures { manifest.new.value ≡ None }
{
    let _manifest = listed::take(alloc, manifest);
}

/// Says what a manifest says of the database, and how many tables it has.
#[unsafe(no_mangle)]
pub extern "C" fn pdtr_manifest_head(
    alloc: Global,
    manifest: &mut Listed,
    head: &mut HeadRecord,
) -> usize
    requires { IsSome manifest.old.value }
    ensures kept { manifest.new.value ≡ manifest.old.value }
    ensures head { IfSome manifest.old.value (λ m. head.new ≡ head_record m.head) }
    ensures tables { IfSome manifest.old.value (λ m. result ≡ length m.tables) }
{
    let held = listed::take(alloc, manifest);
    *head = head_record(held.head);
    let count = held.tables.len();
    listed::put(manifest, held);
    count
}

fn head_record(head: ManifestHead) -> HeadRecord
    ensures { result ≡ head_record head }
{
    HeadRecord {
        store: head.store,
        salt: head.salt,
        commit: head.commit,
        first_file: head.first_file,
        next_folder: head.next_folder,
        next_table: head.next_table,
    }
}

/// Says what a table's line says, and puts its name where there is room. Answers how many bytes the name has; 0 where there is no such
/// table.
#[unsafe(no_mangle)]
pub extern "C" fn pdtr_manifest_table(
    alloc: Global,
    manifest: &mut Listed,
    table: usize,
    line: &mut LineRecord,
    name: &mut [u8],
) -> usize
    requires { IsSome manifest.old.value }
    ensures kept { manifest.new.value ≡ manifest.old.value }
    ensures line { IfSome manifest.old.value (λ m. IfSome (slice_get m.tables table) (λ t. line.new ≡ line_record t)) }
    ensures name { IfSome manifest.old.value (λ m. IfSome (slice_get m.tables table) (λ t. IsPut result name.new t.line.name)) }
    ensures none { IfSome manifest.old.value (λ m. slice_get m.tables table ≡ None → result ≡ 0) }
{
    let held = listed::take(alloc, manifest);
    let len = put_table(held.tables.as_slice(), table, line, name);
    listed::put(manifest, held);
    len
}

fn put_table(tables: &[ListedTable], at: usize, line: &mut LineRecord, name: &mut [u8]) -> usize
    ensures line { IfSome (slice_get (map listed_now tables.now) at) (λ t. line.new ≡ line_record t) }
    ensures name { IfSome (slice_get (map listed_now tables.now) at) (λ t. IsPut result name.new t.line.name) }
    ensures none { slice_get (map listed_now tables.now) at ≡ None → result ≡ 0 }
{
    if at >= tables.len() {
        return 0;
    }
    *line = tables[at].line;
    put_bytes(tables[at].name.as_slice(), name)
}

/// Says the mark of a file of a table's image: of the header's, as file 0, or of a column's. `MISSING` where there is no such file.
#[unsafe(no_mangle)]
pub extern "C" fn pdtr_manifest_mark(
    alloc: Global,
    manifest: &mut Listed,
    table: usize,
    file: usize,
    mark: &mut MarkRecord,
) -> u32
    requires { IsSome manifest.old.value }
    ensures kept { manifest.new.value ≡ manifest.old.value }
    ensures mark { IfSome manifest.old.value (λ m. IfSome (slice_get m.tables table) (λ t. IfSome (slice_get (marks_of t) file)
        (λ found. (result ≡ DONE) × (mark.new ≡ mark_record found)))) }
    ensures no_table { IfSome manifest.old.value (λ m. slice_get m.tables table ≡ None → result ≡ MISSING) }
    ensures no_file { IfSome manifest.old.value (λ m. IfSome (slice_get m.tables table)
        (λ t. slice_get (marks_of t) file ≡ None → result ≡ MISSING)) }
{
    let held = listed::take(alloc, manifest);
    let code = put_mark(held.tables.as_slice(), table, file, mark);
    listed::put(manifest, held);
    code
}

fn put_mark(tables: &[ListedTable], at: usize, file: usize, mark: &mut MarkRecord) -> u32
    ensures mark { IfSome (slice_get (map listed_now tables.now) at) (λ t. IfSome (slice_get (marks_of t) file)
        (λ found. (result ≡ DONE) × (mark.new ≡ mark_record found))) }
    ensures no_table { slice_get (map listed_now tables.now) at ≡ None → result ≡ MISSING }
    ensures no_file { IfSome (slice_get (map listed_now tables.now) at)
        (λ t. slice_get (marks_of t) file ≡ None → result ≡ MISSING) }
{
    if at >= tables.len() {
        return MISSING;
    }
    match mark_of(&tables[at], file) {
        Some(found) => {
            *mark = mark_record(found);
            DONE
        }
        None => MISSING,
    }
}

/// The mark of a file of a table's image.
fn mark_of(table: &ListedTable, file: usize) -> Option<FileMark>
    ensures { result ≡ slice_get (marks_of (listed_now table.now)) file }
{
    if file == 0 {
        return Some(table.header);
    }
    table.columns.as_slice().get(file - 1).copied()
}

fn mark_record(mark: FileMark) -> MarkRecord
    ensures { result ≡ mark_record mark }
{
    MarkRecord {
        size: mark.size,
        check: mark.check,
    }
}
