//! The declared columns of a table, as a text: a line of each column that is declared, and the check.
ghost use Rattle.std.specs.Prelude.{◌≡◌, ◌≢◌, ◌↔◌, ◌++◌, ℕ, Err, IfOk, IsTrue, List, OnOk};
ghost use Rattle.std.specs.List.{AllByRecursion};
ghost use Rattle.manifest.specs.Reading.{Gives, seen};
ghost use Rattle.manifest.specs.Types.{AreFormats, IsFormat, format_at, format_line, formats_at, formats_now, types_lines, types_of, types_spelling};
ghost use Rattle.manifest.specs.declared.fault.ManifestFault.TheVariants as manifest_fault;
ghost use Rattle.manifest.specs.declared.fault.WriteFault.TheVariants as write_fault;

use crate::fault::{ManifestFault, WriteFault};
use crate::fields::{name_at, number_at};
use crate::names::are_plain;
use crate::numbers::{put_end, put_number};
use crate::reading::checked;
use std::alloc::{AllocError, Global};

/// How many bytes a format has at most.
const MAX_FORMAT: usize = 63;

/// The format of each of so many columns, as the bytes spell them: one that isn't declared has no bytes. The formats are lent.
///
/// # Errors
///
/// `Damaged` where the bytes are the spelling of no such formats, `NoMemory` where a growth is refused.
pub fn read_types<'a>(
    alloc: Global,
    width: usize,
    bytes: &'a [u8],
) -> Result<Vec<&'a [u8]>, ManifestFault>
    // What is read is spelt so.
    ensures spelt { IfOk result (λ fs. AreFormats width (formats_now fs.items) × (bytes.now ≡ types_spelling (formats_now fs.items))) }

    // What is spelt so is read, unless memory runs out.
    ensures only { (fs : List (List ℕ)) → AreFormats width fs → bytes.now ≡ types_spelling fs
        → IfOk result (λ read. formats_now read.items ≡ fs) × (result ≢ Err manifest_fault.Damaged) }
{
    types_of(alloc, width, bytes)
}

#[tactic(auto, unfolding(crate::specs::Types::types_of))]
fn types_of<'a>(
    alloc: Global,
    width: usize,
    bytes: &'a [u8],
) -> Result<Vec<&'a [u8]>, ManifestFault>
    ensures { Gives (λ fs. formats_now fs.items) result (types_of width bytes.now) }
{
    let Some(body) = checked(bytes) else {
        return Err(ManifestFault::Damaged);
    };
    let (formats, rest) = formats_at(alloc, width, body)?;
    if rest.is_empty() {
        Ok(formats)
    } else {
        Err(ManifestFault::Damaged)
    }
}

/// The formats of so many columns, and the bytes after them.
fn formats_at<'a>(
    alloc: Global,
    width: usize,
    bytes: &'a [u8],
) -> Result<(Vec<&'a [u8]>, &'a [u8]), ManifestFault>
    ensures { Gives (λ found. (formats_now found.0.items, found.1.now)) result (formats_at width 0 bytes.now) }
{
    let mut formats = Vec::new(alloc);
    let mut rest = bytes;
    for column in 0..width {
        let Some((format, after)) = format_at(column as u64, rest) else {
            return Err(ManifestFault::Damaged);
        };
        formats.push(format)?;
        rest = after;
    }
    Ok((formats, rest))
}

/// The format of a column, where a line of it is in front, and the bytes after it.
#[tactic(auto, unfolding(crate::specs::Types::format_at))]
fn format_at(column: u64, bytes: &[u8]) -> Option<(&[u8], &[u8])>
    ensures { seen (λ f. f.now) result ≡ format_at column bytes.now }
{
    match number_at(bytes, u64::MAX, b' ') {
        Some((number, rest)) if number == column => {
            let (format, rest) = name_at(rest)?;
            if format.len() <= MAX_FORMAT {
                Some((format, rest))
            } else {
                None
            }
        }
        _ => Some((&bytes[..0], bytes)),
    }
}

/// The bytes that spell the formats of columns, as `read_types` reads them back. One that isn't declared has no bytes.
///
/// # Errors
///
/// `Unlawful` where a format has more than 63 bytes, or one that is a zero or ends a line. `NoMemory` where a growth is refused.
pub fn write_types(alloc: Global, formats: &[&[u8]]) -> Result<Vec<u8>, WriteFault>
    ensures spelt { IfOk result (λ bytes. bytes.items ≡ types_spelling (formats_now formats.now)) }

    // What is spelt is lawful, and what is lawful is spelt, unless memory runs out.
    ensures lawful { IfOk result (λ _. AllByRecursion IsFormat (formats_now formats.now)) }
    ensures only { AllByRecursion IsFormat (formats_now formats.now) → result ≢ Err write_fault.Unlawful }
{
    let mut text = Vec::new(alloc);
    put_formats(formats, &mut text)?;
    put_end(&mut text)?;
    Ok(text)
}

/// Puts the lines of columns.
fn put_formats(formats: &[&[u8]], out: &mut Vec<u8>) -> Result<(), WriteFault>
    ensures spelt { OnOk result (out.new.items ≡ out.old.items ++ types_lines 0 (formats_now formats.now)) }
    ensures lawful { OnOk result (AllByRecursion IsFormat (formats_now formats.now)) }
    ensures only { AllByRecursion IsFormat (formats_now formats.now) → result ≢ Err write_fault.Unlawful }
{
    for column in 0..formats.len() {
        let format = formats[column];
        if !is_format(format) {
            return Err(WriteFault::Unlawful);
        }
        put_format(column as u64, format, out)?;
    }
    Ok(())
}

/// Puts the line of a column, where it is declared.
fn put_format(column: u64, format: &[u8], out: &mut Vec<u8>) -> Result<(), AllocError>
    ensures { OnOk result (out.new.items ≡ out.old.items ++ format_line column format.now) }
{
    if format.is_empty() {
        return Ok(());
    }
    put_number(column, b' ', out)?;
    out.extend_from_slice(format)?;
    out.extend_from_slice(b"\n")
}

/// Whether bytes are a format, or none.
fn is_format(format: &[u8]) -> bool
    ensures { IsTrue result ↔ IsFormat format.now }
{
    format.len() <= MAX_FORMAT && are_plain(format)
}
