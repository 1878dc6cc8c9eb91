//! The header of a store, which has to say the columns that it was made of when it is read again.
ghost use Rattle.std.specs.Prelude.{◌≡◌, ◌↔◌, [], IfErr, IfOk, IsTrue, Ok};
ghost use Rattle.pdtcli.specs.Output.{image_text};
ghost use Rattle.pdtcli.specs.Recovery.{HasHeader, IsHeaderLost};

use crate::output::header_of;
use crate::refusal::Refusal;
use devices::StoreFault;
use inputs::{TableFault, read_table};
use std::alloc::Global;
use values::{ColumnType, Schema};

/// The header record of a store's columns, which says these columns when it is read again. A name that begins with a byte order
/// mark is lost on the way: what is at the start of a text as one is passed over.
///
/// # Errors
///
/// `CannotMake` where the header is refused as a table's, or says other columns, and `Store` where a growth is refused.
pub fn stored_header(alloc: Global, schema: &Schema) -> Result<Vec<u8>, Refusal>
    ensures text { IfOk result (λ text. text.items ≡ image_text schema.now []) }
    ensures read { IfOk result (λ text. HasHeader (Ok text.items) schema.now) }
    ensures refused { IfErr result (IsHeaderLost schema.now (image_text schema.now [])) }
{
    let text = header_of(alloc, schema)?;
    match read_table(alloc, text.as_slice()) {
        Ok((read, _)) => {
            if are_same(&read, schema) {
                Ok(text)
            } else {
                Err(Refusal::CannotMake)
            }
        }
        Err(TableFault::NoMemory) => Err(Refusal::Store(StoreFault::NoMemory)),
        Err(_) => Err(Refusal::CannotMake),
    }
}

/// Whether the two are the same columns.
fn are_same(a: &Schema, b: &Schema) -> bool
    ensures { IsTrue result ↔ (a.now ≡ b.now) }
{
    a.key_cols() == b.key_cols() && have_same_names(a, b) && have_same_types(a.types(), b.types())
}

/// Whether the two have as many columns, of the same names.
fn have_same_names(a: &Schema, b: &Schema) -> bool
    ensures { IsTrue result ↔ (a.now.names ≡ b.now.names) }
{
    if a.width() != b.width() {
        return false;
    }
    for col in 0..a.width() {
        if a.name(col) != b.name(col) {
            return false;
        }
    }
    true
}

/// Whether the two are as many types, the same in each place.
fn have_same_types(a: &[ColumnType], b: &[ColumnType]) -> bool
    ensures { IsTrue result ↔ (a.now ≡ b.now) }
{
    if a.len() != b.len() {
        return false;
    }
    for col in 0..a.len() {
        if !is_same_type(a[col], b[col]) {
            return false;
        }
    }
    true
}

/// Whether the two are one type.
fn is_same_type(a: ColumnType, b: ColumnType) -> bool
    ensures { IsTrue result ↔ (a ≡ b) }
{
    a == b
}
