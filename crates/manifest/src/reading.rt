//! A manifest, read.
ghost use Rattle.std.specs.Prelude.{◌≡◌, IfOk, length, map, option_map};
ghost use Rattle.journal.specs.Check.{crc};
ghost use Rattle.manifest.specs.Manifest.{Fields, IsManifest, manifest_now, spelling, table_now};
ghost use Rattle.manifest.specs.Reading.{Gives, IsReadAs, body_of, checked, end_at, manifest_of, marks_at, seen, table_at, tables_at};

use crate::entries::{FileMark, Manifest, TableEntry};
use crate::fault::ManifestFault;
use crate::fields::{after_word, word_at};
use crate::lines::{head_at, line_at, mark_at};
use journal::crc_from;
use std::alloc::Global;

/// How many bytes the last line has.
const END_BYTES: usize = 13;

/// What the register is before a check's first byte.
const ALL_ONES: u32 = 0xffff_ffff;

/// The manifest that the bytes spell, all of them. Its names are lent. It takes memory for the tables and marks that it found, whatever
/// the bytes claim.
///
/// # Errors
///
/// `Damaged` where the bytes are the spelling of no manifest, `NoMemory` where a growth is refused.
pub fn read_manifest(alloc: Global, bytes: &[u8]) -> Result<Manifest<'_>, ManifestFault>
    // What is read is spelt so.
    ensures spelt { IfOk result (λ m. IsManifest (manifest_now m) × (bytes.now ≡ spelling (manifest_now m))) }

    // What is spelt so is read, unless memory runs out.
    ensures only { (m : Fields) → IsManifest m → bytes.now ≡ spelling m → IsReadAs m result }
{
    manifest_of(alloc, bytes)
}

/// The manifest that the bytes spell.
#[tactic(auto, unfolding(crate::specs::Reading::manifest_of))]
fn manifest_of(alloc: Global, bytes: &[u8]) -> Result<Manifest<'_>, ManifestFault>
    ensures { Gives manifest_now result (manifest_of bytes.now) }
{
    match checked(bytes) {
        Some(body) => body_of(alloc, body),
        None => Err(ManifestFault::Damaged),
    }
}

/// The bytes before the last line, where the check that it says is theirs.
#[tactic(auto, unfolding(crate::specs::Reading::checked))]
pub(crate) fn checked(bytes: &[u8]) -> Option<&[u8]>
    ensures { option_map (λ body. body.now) result ≡ checked bytes.now }
{
    if bytes.len() < END_BYTES {
        return None;
    }
    let (body, end) = bytes.split_at(bytes.len() - END_BYTES);
    let (check, rest) = end_at(end)?;
    if rest.is_empty() && check == crc_from(ALL_ONES, body) {
        Some(body)
    } else {
        None
    }
}

/// The check that the last line says.
#[tactic(auto, unfolding(crate::specs::Reading::end_at))]
fn end_at(bytes: &[u8]) -> Option<(u32, &[u8])>
    ensures { seen (λ n. n) result ≡ end_at bytes.now }
{
    let rest = after_word(bytes, b"end ")?;
    let (check, rest) = word_at(rest)?;
    let rest = after_word(rest, b"\n")?;
    Some((check, rest))
}

/// The manifest without its last line.
#[tactic(auto, unfolding(crate::specs::Reading::body_of))]
fn body_of(alloc: Global, bytes: &[u8]) -> Result<Manifest<'_>, ManifestFault>
    ensures { Gives manifest_now result (body_of bytes.now) }
{
    let Some((head, rest)) = head_at(bytes) else {
        return Err(ManifestFault::Damaged);
    };
    let tables = tables_of(alloc, rest)?;
    Ok(Manifest { head, tables })
}

/// The tables that all of the bytes say.
fn tables_of(alloc: Global, bytes: &[u8]) -> Result<Vec<TableEntry<'_>>, ManifestFault>
    ensures { Gives (λ ts. map table_now ts.items) result (tables_at (length bytes.now) bytes.now) }
{
    let mut tables = Vec::new(alloc);
    let mut rest = bytes;
    while !rest.is_empty() {
        let (table, after) = table_at(alloc, rest)?;
        tables.push(table)?;
        rest = after;
    }
    Ok(tables)
}

/// A table, with the marks of its image's files.
#[tactic(auto, unfolding(crate::specs::Reading::table_at))]
fn table_at(alloc: Global, bytes: &[u8]) -> Result<(TableEntry<'_>, &[u8]), ManifestFault>
    ensures { Gives (λ found. (table_now found.0, found.1.now)) result (table_at bytes.now) }
{
    let Some((line, rest)) = line_at(bytes) else {
        return Err(ManifestFault::Damaged);
    };
    let Some((header, rest)) = mark_at(rest) else {
        return Err(ManifestFault::Damaged);
    };
    let (columns, rest) = marks_at(alloc, line.width, rest)?;
    let table = TableEntry {
        line,
        header,
        columns,
    };
    Ok((table, rest))
}

/// So many marks.
fn marks_at(
    alloc: Global,
    count: u64,
    bytes: &[u8],
) -> Result<(Vec<FileMark>, &[u8]), ManifestFault>
    ensures { Gives (λ found. (found.0.items, found.1.now)) result (marks_at count bytes.now) }
{
    let mut marks = Vec::new(alloc);
    let mut rest = bytes;
    for _ in 0..count {
        let Some((mark, after)) = mark_at(rest) else {
            return Err(ManifestFault::Damaged);
        };
        marks.push(mark)?;
        rest = after;
    }
    Ok((marks, rest))
}
