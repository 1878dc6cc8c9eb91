//! The header of a table's text, cell by cell.
ghost use Rattle.std.specs.Prelude.{◌≡◌, ◌≢◌, ◌<◌, ◌++◌, ◌∷◌, [], false, nat_lt, IfErr, IfOk, OnOk, length, slice_get, Some};
ghost use Rattle.csv.specs.Writing.{default_writer, escaped};
ghost use Rattle.inputs.specs.Header.{kind_word};
ghost use Rattle.inputs.specs.Input.{IsTableOf};
ghost use Rattle.headers.specs.Spelling.{IsUnspelt, cell_text, comma_before, escaped_byte, header_text, is_name, quoted_text};

use crate::fault::HeaderFault;
use inputs::{first_colon, kind_word};
use std::alloc::Global;
use values::limits::MAX_NAME_BYTES;
use values::{NoMemory, Schema};

/// The header of a schema. It takes as many bytes as the header has.
///
/// # Errors
///
/// `BadName` with the first column whose name isn't one of 1 to 64 bytes without a colon; `NoMemory` where a growth is refused.
pub fn spell_header(alloc: Global, schema: &Schema) -> Result<Vec<u8>, HeaderFault>
    ensures spelt { IfOk result (λ text. text.items ≡ header_text schema.now) }

    // What is read of it is the schema again.
    ensures read { IfOk result (λ text. IsTableOf text.items schema.now []) }
    ensures err { IfErr result (IsUnspelt schema.now) }
{
    let mut text = Vec::new(alloc);
    for col in 0..schema.width() {
        let name = schema.name(col);
        if !is_name(name) {
            return Err(HeaderFault::BadName(col));
        }
        let kind = kind_word(schema.column_type(col), col < schema.key_cols());
        push_cell(&mut text, col, name, kind)?;
    }
    text.push(b'\n')?;
    Ok(text)
}

/// Whether a name is one that a header says: 1 to 64 bytes without a colon.
pub(crate) fn is_name(name: &str) -> bool
    ensures { result ≡ is_name name.now }
{
    let bytes = name.as_bytes();
    if bytes.is_empty() {
        return false;
    }
    if bytes.len() > MAX_NAME_BYTES {
        return false;
    }
    first_colon(bytes).is_none()
}

/// Adds the cell of a column between quotes, and a comma before it where it isn't the first.
fn push_cell(text: &mut Vec<u8>, col: usize, name: &str, kind: &str) -> Result<(), NoMemory>
    ensures { OnOk result (text.new.items ≡ text.old.items ++ (comma_before col ++ quoted_text (name.now ++ 58 ∷ kind.now))) }
{
    push_comma(text, col)?;
    text.push(b'"')?;
    push_escaped(text, name.as_bytes())?;
    text.push(b':')?;
    push_escaped(text, kind.as_bytes())?;
    text.push(b'"')?;
    Ok(())
}

/// Adds a comma, but before the first column.
fn push_comma(text: &mut Vec<u8>, col: usize) -> Result<(), NoMemory>
    ensures { OnOk result (text.new.items ≡ text.old.items ++ comma_before col) }
{
    if col > 0 {
        text.push(b',')?;
    }
    Ok(())
}

/// Adds bytes, and each quote twice.
fn push_escaped(text: &mut Vec<u8>, bytes: &[u8]) -> Result<(), NoMemory>
    ensures { OnOk result (text.new.items ≡ text.old.items ++ escaped default_writer bytes.now) }
{
    for byte in bytes {
        push_escaped_byte(text, *byte)?;
    }
    Ok(())
}

/// Adds a byte, twice where it is a quote.
fn push_escaped_byte(text: &mut Vec<u8>, byte: u8) -> Result<(), NoMemory>
    ensures { OnOk result (text.new.items ≡ text.old.items ++ escaped_byte byte) }
{
    if byte == b'"' {
        text.push(byte)?;
    }
    text.push(byte)?;
    Ok(())
}
