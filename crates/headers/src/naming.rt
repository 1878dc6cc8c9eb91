//! A schema of columns that are named one by one.
ghost use Rattle.std.specs.Prelude.{◌≡◌, false, true, map, IfErr, IfOk, IfSome, IsNone};
ghost use Rattle.headers.specs.Naming.{IsNamed, IsUnnamed};
ghost use Rattle.headers.specs.Spelling.{is_name};

use crate::spelling::is_name;
use inputs::TableFault;
use std::alloc::Global;
use values::{ColumnType, Schema, SchemaFault};

/// The schema of columns with these names and types, the first `key_cols` of which are its key: what a header of them would say.
///
/// # Errors
///
/// `BadHeader` with the first column whose name isn't one of 1 to 64 bytes without a colon, or where there are not as many types as
/// names; `Schema` with what no schema has; `NoMemory` where a growth is refused.
pub fn named_schema(
    alloc: Global,
    names: &[&[u8]],
    types: &[ColumnType],
    key_cols: usize,
) -> Result<Schema, TableFault>
    ensures ok { IfOk result (λ schema. IsNamed (map (λ n. n.now) names.now) types.now key_cols schema) }
    ensures err { IfErr result (IsUnnamed (map (λ n. n.now) names.now) types.now key_cols) }
{
    if names.len() != types.len() {
        return Err(TableFault::BadHeader(names.len()));
    }
    let mut cols = Vec::new(alloc);
    for col in 0..names.len() {
        let Some(name) = name_of(names[col]) else {
            return Err(TableFault::BadHeader(col));
        };
        cols.push((String::from_str(alloc, name)?, types[col]))?;
    }
    match Schema::new(alloc, cols, key_cols) {
        Ok(schema) => Ok(schema),
        Err(SchemaFault::NoMemory) => Err(TableFault::NoMemory),
        Err(fault) => Err(TableFault::Schema(fault)),
    }
}

/// The name that bytes are, where a header says it.
fn name_of(bytes: &[u8]) -> Option<&str>
    ensures some { IfSome result (λ name. name.now ≡ bytes.now) }
    ensures name { IfSome result (λ name. is_name bytes.now ≡ true) }
    ensures none { IsNone result → is_name bytes.now ≡ false }
{
    match str::from_utf8(bytes) {
        Ok(name) => { if is_name(name) { Some(name) } else { None } }
        Err(_) => None,
    }
}
