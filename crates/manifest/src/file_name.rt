//! The names of files in a database's folder. A zero ends each, as in C.
ghost use Rattle.std.specs.Prelude.{◌≡◌, ◌<◌, ◌≤◌, ◌+◌, ◌++◌, Some, IfSome, IsNone, length, take};
ghost use Rattle.manifest.specs.FileName.{IsFileName, column_named, file_named, header_named, image_file_named, image_named, journal_named, name_text, other_named, torn_named, types_named};
ghost use Rattle.manifest.specs.Manifest.{number_text};

use crate::fields::{after_word, number_at};
use itoa::Buffer;

/// The greatest number of a table, and of a column.
const MAX_TABLE: u64 = u32::MAX as u64;

/// What a file of a database's folder is.
#[derive(Clone, Copy, Debug, PartialEq, Eq)]
pub enum FileName {
    /// A file of the journal, by its number.
    Journal(u64),
    /// The folder of a table's image, by the table's number and its own.
    Image(u32, u64),
    /// The declared columns of a table, by its number.
    Types(u32),
    /// What was torn off the journal's end, by the number of its last file then.
    Torn(u64),
    /// A column of an image, by its number.
    Column(u32),
    /// The header of an image, which names its columns.
    Header,
}

/// The file that a name is of. The zero that ends it is its last byte. Takes no memory.
#[tactic(auto, unfolding(crate::specs::FileName::file_named))]
pub fn read_file_name(name: &[u8]) -> Option<FileName>
    ensures named { IfSome result (λ file. IsFileName file × (name.now ≡ name_text file)) }

    // Each name of a file is read as that file, so that no two files have one name.
    ensures only { (file : FileName) → IsFileName file → name.now ≡ name_text file → result ≡ Some file }
{
    file_named(name)
}

#[tactic(auto, unfolding(crate::specs::FileName::file_named))]
fn file_named(name: &[u8]) -> Option<FileName>
    ensures { result ≡ file_named name.now }
{
    match journal_named(name) {
        Some(file) => Some(file),
        None => match image_named(name) {
            Some(file) => Some(file),
            None => other_named(name),
        },
    }
}

#[tactic(auto, unfolding(crate::specs::FileName::other_named))]
fn other_named(name: &[u8]) -> Option<FileName>
    ensures { result ≡ other_named name.now }
{
    match types_named(name) {
        Some(file) => Some(file),
        None => match torn_named(name) {
            Some(file) => Some(file),
            None => image_file_named(name),
        },
    }
}

#[tactic(auto, unfolding(crate::specs::FileName::image_file_named))]
fn image_file_named(name: &[u8]) -> Option<FileName>
    ensures { result ≡ image_file_named name.now }
{
    match column_named(name) {
        Some(file) => Some(file),
        None => header_named(name),
    }
}

#[tactic(auto, unfolding(crate::specs::FileName::journal_named))]
fn journal_named(name: &[u8]) -> Option<FileName>
    ensures { result ≡ journal_named name.now }
{
    let rest = after_word(name, b"journal-")?;
    let (number, rest) = number_at(rest, u64::MAX, 0)?;
    if rest.is_empty() {
        Some(FileName::Journal(number))
    } else {
        None
    }
}

#[tactic(auto, unfolding(crate::specs::FileName::image_named))]
fn image_named(name: &[u8]) -> Option<FileName>
    ensures { result ≡ image_named name.now }
{
    let rest = after_word(name, b"image-")?;
    let (table, rest) = number_at(rest, MAX_TABLE, b'-')?;
    let (folder, rest) = number_at(rest, u64::MAX, 0)?;
    if rest.is_empty() {
        Some(FileName::Image(table as u32, folder))
    } else {
        None
    }
}

#[tactic(auto, unfolding(crate::specs::FileName::types_named))]
fn types_named(name: &[u8]) -> Option<FileName>
    ensures { result ≡ types_named name.now }
{
    let rest = after_word(name, b"types-")?;
    let (table, rest) = number_at(rest, MAX_TABLE, 0)?;
    if rest.is_empty() {
        Some(FileName::Types(table as u32))
    } else {
        None
    }
}

#[tactic(auto, unfolding(crate::specs::FileName::torn_named))]
fn torn_named(name: &[u8]) -> Option<FileName>
    ensures { result ≡ torn_named name.now }
{
    let rest = after_word(name, b"torn-")?;
    let (number, rest) = number_at(rest, u64::MAX, 0)?;
    if rest.is_empty() {
        Some(FileName::Torn(number))
    } else {
        None
    }
}

#[tactic(auto, unfolding(crate::specs::FileName::column_named))]
fn column_named(name: &[u8]) -> Option<FileName>
    ensures { result ≡ column_named name.now }
{
    let rest = after_word(name, b"column-")?;
    let (number, rest) = number_at(rest, MAX_TABLE, b'.')?;
    let rest = after_word(rest, b"pdt\0")?;
    if rest.is_empty() {
        Some(FileName::Column(number as u32))
    } else {
        None
    }
}

#[tactic(auto, unfolding(crate::specs::FileName::header_named))]
fn header_named(name: &[u8]) -> Option<FileName>
    ensures { result ≡ header_named name.now }
{
    if name == b"header.csv\0".as_slice() {
        Some(FileName::Header)
    } else {
        None
    }
}

/// Puts the name of a file, with the zero that ends it, where there is room, and answers how many bytes it has. Takes no memory.
pub fn put_file_name(file: FileName, out: &mut [u8]) -> Option<usize>
    ensures put { IfSome result (λ end. take end out.new ≡ name_text file) }
    ensures within { IfSome result (λ end. end ≤ length out.old) }
    ensures none { IsNone result → length out.old < length (name_text file) }
{
    match file {
        FileName::Journal(number) => {
            let end = put_at(out, 0, b"journal-")?;
            put_number_at(out, end, number, 0)
        }
        FileName::Image(table, folder) => {
            let end = put_at(out, 0, b"image-")?;
            let end = put_number_at(out, end, u64::from(table), b'-')?;
            put_number_at(out, end, folder, 0)
        }
        FileName::Types(table) => {
            let end = put_at(out, 0, b"types-")?;
            put_number_at(out, end, u64::from(table), 0)
        }
        FileName::Torn(number) => {
            let end = put_at(out, 0, b"torn-")?;
            put_number_at(out, end, number, 0)
        }
        FileName::Column(column) => {
            let end = put_at(out, 0, b"column-")?;
            let end = put_number_at(out, end, u64::from(column), b'.')?;
            put_at(out, end, b"pdt\0")
        }
        FileName::Header => put_at(out, 0, b"header.csv\0"),
    }
}

/// Puts a decimal number and what ends it behind so many bytes, where there is room, and answers how many there are then.
fn put_number_at(out: &mut [u8], at: usize, number: u64, end: u8) -> Option<usize>
    requires { at ≤ length out.old }
    ensures put { IfSome result (λ end'. take end' out.new ≡ take at out.old ++ number_text end number) }
    ensures within { IfSome result (λ end'. end' ≤ length out.old) }
    ensures len { length out.new ≡ length out.old }
    ensures none { IsNone result → length out.old < at + length (number_text end number) }
{
    let behind = put_at(out, at, Buffer::new().format(number).as_bytes())?;
    put_at(out, behind, &[end])
}

/// Puts bytes behind so many, where there is room, and answers how many there are then.
fn put_at(out: &mut [u8], at: usize, bytes: &[u8]) -> Option<usize>
    requires { at ≤ length out.old }
    ensures put { IfSome result (λ end. take end out.new ≡ take at out.old ++ bytes.now) }
    ensures end { IfSome result (λ end. end ≡ at + length bytes.now) }
    ensures within { IfSome result (λ end. end ≤ length out.old) }
    ensures len { length out.new ≡ length out.old }
    ensures none { IsNone result → length out.old < at + length bytes.now }
{
    if out.len() - at < bytes.len() {
        return None;
    }
    let end = at + bytes.len();
    out[at..end].copy_from_slice(bytes);
    Some(end)
}
