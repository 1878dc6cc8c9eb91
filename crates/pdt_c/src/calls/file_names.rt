//! The names of files in a database's folder.
ghost use Rattle.std.specs.Prelude.{◌≡◌, ◌≢◌, ◌<◌, MatchOption, length, take};
ghost use Rattle.manifest.specs.FileName.{IsFileName, name_text};
ghost use Rattle.manifest.specs.declared.file_name.FileName.{FileName};
ghost use Rattle.pdt_c.specs.FileNames.{file_of, file_record};
ghost use Rattle.pdt_c.specs.declared.codes.TheConstants.{DONE, MISSING};

use crate::codes::{DONE, MISSING};
use manifest::{FileName, put_file_name, read_file_name};

/// A file of the journal: its number is the first.
const JOURNAL: u32 = 1;

/// The folder of an image: the table's number is the first, and its own the second.
const IMAGE: u32 = 2;

/// The declared columns of a table: the table's number is the first.
const TYPES: u32 = 3;

/// What was torn off a journal's end: the number of its last file is the first.
const TORN: u32 = 4;

/// A column of an image: its place is the first.
const COLUMN: u32 = 5;

/// The header of an image.
const HEADER: u32 = 6;

/// What a file is. A number that its kind doesn't have is 0.
#[repr(C)]
#[derive(Clone, Copy)]
pub struct FileRecord {
    pub first: u64,
    pub second: u64,
    pub kind: u32,
}

/// Says which file a name is of: `MISSING` where it is none of a database's. The zero that ends it is its last byte. Takes no memory.
#[unsafe(no_mangle)]
pub extern "C" fn pdtr_file_read(name: &[u8], file: &mut FileRecord) -> u32
    ensures named { result ≡ DONE → (f : FileName) × IsFileName f × (name.now ≡ name_text f) × (file.new ≡ file_record f) }
    ensures only { (f : FileName) → IsFileName f → name.now ≡ name_text f → result ≡ DONE }
    ensures other { result ≢ DONE → (result ≡ MISSING) × (file.new ≡ file.old) }
{
    match read_file_name(name) {
        Some(found) => {
            *file = file_record(found);
            DONE
        }
        None => MISSING,
    }
}

fn file_record(file: FileName) -> FileRecord
    ensures { result ≡ file_record file }
{
    match file {
        FileName::Journal(number) => FileRecord {
            first: number,
            second: 0,
            kind: JOURNAL,
        },
        FileName::Image(table, folder) => FileRecord {
            first: u64::from(table),
            second: folder,
            kind: IMAGE,
        },
        FileName::Types(table) => FileRecord {
            first: u64::from(table),
            second: 0,
            kind: TYPES,
        },
        FileName::Torn(number) => FileRecord {
            first: number,
            second: 0,
            kind: TORN,
        },
        FileName::Column(column) => FileRecord {
            first: u64::from(column),
            second: 0,
            kind: COLUMN,
        },
        FileName::Header => FileRecord {
            first: 0,
            second: 0,
            kind: HEADER,
        },
    }
}

/// Puts the name of a file where there is room, with the zero that ends it, and answers how many bytes it has: 0 where there is no
/// room, or no such file. Takes no memory.
#[unsafe(no_mangle)]
pub extern "C" fn pdtr_file_name(kind: u32, first: u64, second: u64, name: &mut [u8]) -> usize
    ensures put { 0 < result → MatchOption (file_of kind first second) ⊥ (λ f. take result name.new ≡ name_text f) }
    ensures none { result ≡ 0 → MatchOption (file_of kind first second) (Unit {0}) (λ f. length name.old < length (name_text f)) }
{
    match file_of(kind, first, second) {
        Some(file) => put_file_name(file, name).unwrap_or(0),
        None => 0,
    }
}

/// The file of a kind and numbers.
fn file_of(kind: u32, first: u64, second: u64) -> Option<FileName>
    ensures { result ≡ file_of kind first second }
{
    if kind == JOURNAL {
        return Some(FileName::Journal(first));
    }
    if kind == TORN {
        return Some(FileName::Torn(first));
    }
    if first > u64::from(u32::MAX) {
        return None;
    }
    match kind {
        IMAGE => Some(FileName::Image(first as u32, second)),
        TYPES => Some(FileName::Types(first as u32)),
        COLUMN => Some(FileName::Column(first as u32)),
        HEADER => Some(FileName::Header),
        _ => None,
    }
}
