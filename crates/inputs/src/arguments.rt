//! The call that a record's fields say after the client's name.
ghost use Rattle.std.specs.Prelude.{◌≡◌, ◌≢◌, ◌<◌, ◌≤◌, ◌+◌, length, drop, get_or, [], IfOk, IfErr, IfSome, Ok, Err};
ghost use Rattle.csv.specs.Records.{fields_of};
ghost use Rattle.inputs.specs.Calls.{arguments_of, asked, key_types, position_at, set_cell, typed_call, values_of};
ghost use Rattle.inputs.specs.Cells.{place_from};

use crate::call::{Call, Read};
use crate::cell::{read_position, read_value};
use crate::fault::ScriptFault;
use crate::verb::{Verb, count_arguments, read_verb};
use csv::ByteRecord;
use model::Write;
use std::alloc::Global;
use values::{ColumnType, Key, Row, Schema, Value};

/// The call of the record of this number.
pub(crate) fn read_asked(
    alloc: Global,
    schema: &Schema,
    number: u64,
    fields: &ByteRecord,
) -> Result<Call, ScriptFault>
    ensures ok { IfOk result (λ call. asked schema.now number (fields_of fields.now) ≡ Ok call) }
    ensures err { IfErr result (λ fault. fault ≢ ScriptFault.NoMemory → asked schema.now number (fields_of fields.now) ≡ Err fault) }
{
    let word = match fields.get(1) {
        Some(word) => word,
        None => return Err(ScriptFault::BadCount(number)),
    };
    let verb = match read_verb(word) {
        Some(verb) => verb,
        None => return Err(ScriptFault::BadVerb(number)),
    };
    if fields.len() != 2 + count_arguments(schema, verb) {
        return Err(ScriptFault::BadCount(number));
    }
    read_typed(alloc, schema, number, verb, fields)
}

/// The call of a verb whose arguments are as many as it wants.
fn read_typed(
    alloc: Global,
    schema: &Schema,
    number: u64,
    verb: Verb,
    fields: &ByteRecord,
) -> Result<Call, ScriptFault>
    requires { length (fields_of fields.now) ≡ 2 + arguments_of schema.now verb }
    ensures ok { IfOk result (λ call. typed_call schema.now number verb (fields_of fields.now) ≡ Ok call) }
    ensures err { IfErr result
        (λ fault. fault ≢ ScriptFault.NoMemory → typed_call schema.now number verb (fields_of fields.now) ≡ Err fault) }
{
    match verb {
        Verb::Begin => Ok(Call::Begin),
        Verb::Insert => {
            let cells = read_values(alloc, schema.types(), number, fields)?;
            Ok(Call::Write(Write::Insert(Row::new(cells))))
        }
        Verb::Delete => {
            let key = read_key(alloc, schema, number, fields)?;
            Ok(Call::Write(Write::Delete(key)))
        }
        Verb::Set => {
            let key = read_key(alloc, schema, number, fields)?;
            read_set(alloc, schema, number, key, fields)
        }
        Verb::Get => {
            let key = read_key(alloc, schema, number, fields)?;
            Ok(Call::Read(Read::Get(key)))
        }
        Verb::At => Ok(Call::Read(Read::At(read_rid(number, fields, 2)?))),
        Verb::Rank => {
            let key = read_key(alloc, schema, number, fields)?;
            Ok(Call::Read(Read::Rank(key)))
        }
        Verb::Len => Ok(Call::Read(Read::Len)),
        Verb::Scan => {
            let from = read_rid(number, fields, 2)?;
            let to = read_rid(number, fields, 3)?;
            Ok(Call::Read(Read::Scan(from, to)))
        }
        Verb::Commit => Ok(Call::Commit),
        Verb::Abort => Ok(Call::Abort),
        Verb::Fold => Ok(Call::Fold),
        Verb::Checkpoint => Ok(Call::Checkpoint),
        Verb::Cut => Ok(Call::Cut),
    }
}

/// The position that a field says.
fn read_rid(number: u64, fields: &ByteRecord, at: usize) -> Result<u64, ScriptFault>
    requires { at < length (fields_of fields.now) }
    ensures { result ≡ position_at number at (get_or (fields_of fields.now) at []) }
{
    let bytes = match fields.get(at) {
        Some(bytes) => bytes,
        None => unreachable!(),
    };
    match read_position(bytes) {
        Some(rid) => Ok(rid),
        None => Err(ScriptFault::BadArgument(number, at)),
    }
}

/// The key that the arguments begin with.
fn read_key(
    alloc: Global,
    schema: &Schema,
    number: u64,
    fields: &ByteRecord,
) -> Result<Key, ScriptFault>
    requires { 2 + schema.now.key_cols ≤ length (fields_of fields.now) }
    ensures ok { IfOk result (λ key. values_of number 2 (key_types schema.now) (drop 2 (fields_of fields.now)) ≡ Ok key) }
    ensures err { IfErr result
        (λ fault. fault ≢ ScriptFault.NoMemory → values_of number 2 (key_types schema.now) (drop 2 (fields_of fields.now)) ≡ Err fault) }
{
    let key_cols = schema.key_cols();
    let values = read_values(alloc, &schema.types()[..key_cols], number, fields)?;
    Ok(Key::new(values))
}

/// The values that the arguments from field 2 on say, one of each type.
fn read_values(
    alloc: Global,
    types: &[ColumnType],
    number: u64,
    fields: &ByteRecord,
) -> Result<Vec<Value>, ScriptFault>
    requires { 2 + length types.now ≤ length (fields_of fields.now) }
    ensures ok { IfOk result (λ values. values_of number 2 types.now (drop 2 (fields_of fields.now)) ≡ Ok values.items) }
    ensures err { IfErr result
        (λ fault. fault ≢ ScriptFault.NoMemory → values_of number 2 types.now (drop 2 (fields_of fields.now)) ≡ Err fault) }
{
    let mut values = Vec::with_capacity(alloc, types.len())?;
    for i in 0..types.len() {
        let bytes = match fields.get(2 + i) {
            Some(bytes) => bytes,
            None => unreachable!(),
        };
        let value = match read_value(alloc, types[i], bytes)? {
            Some(value) => value,
            None => return Err(ScriptFault::BadArgument(number, 2 + i)),
        };
        values.push(value)?;
    }
    Ok(values)
}

/// The call that sets a cell of the row of this key.
fn read_set(
    alloc: Global,
    schema: &Schema,
    number: u64,
    key: Key,
    fields: &ByteRecord,
) -> Result<Call, ScriptFault>
    requires { length (fields_of fields.now) ≡ 4 + schema.now.key_cols }
    ensures ok { IfOk result
        (λ call. set_cell schema.now number (2 + schema.now.key_cols) key (drop (2 + schema.now.key_cols) (fields_of fields.now))
        ≡ Ok call) }
    ensures err { IfErr result (λ fault. fault ≢ ScriptFault.NoMemory
        → set_cell schema.now number (2 + schema.now.key_cols) key (drop (2 + schema.now.key_cols) (fields_of fields.now))
        ≡ Err fault) }
{
    let at = 2 + schema.key_cols();
    let name = match fields.get(at) {
        Some(name) => name,
        None => unreachable!(),
    };
    let bytes = match fields.get(at + 1) {
        Some(bytes) => bytes,
        None => unreachable!(),
    };
    let col = match find_column(schema, name) {
        Some(col) => col,
        None => return Err(ScriptFault::BadArgument(number, at)),
    };
    let value = match read_value(alloc, schema.column_type(col), bytes)? {
        Some(value) => value,
        None => return Err(ScriptFault::BadArgument(number, at + 1)),
    };
    Ok(Call::Write(Write::Set(key, col, value)))
}

/// The column of this name.
pub fn find_column(schema: &Schema, name: &[u8]) -> Option<usize>
    ensures first { result ≡ place_from 0 name.now schema.now.names }
    ensures within { IfSome result (λ col. col < length schema.now.types) }
{
    for col in 0..schema.width() {
        if schema.name(col).as_bytes() == name {
            return Some(col);
        }
    }
    None
}
