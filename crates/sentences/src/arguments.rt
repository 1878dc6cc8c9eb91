//! What a verb wants of its arguments, and what is wrong with one.
ghost use Rattle.std.specs.Prelude.{◌≡◌, ◌<◌, IfOk, length, option_map, slice_get, string_bytes};
ghost use Rattle.csv.specs.Records.{fields_of, field_at};
ghost use Rattle.sentences.specs.Arguments.{argument_sentence, cell_wanted, column_argument, field_sentence, named_wanted, set_wanted, wanted_at, wanted_by_word, wanted_sentence};

use crate::cells::{in_column, not_typed};
use crate::quoting::{ROOM, quoted};
use csv::ByteRecord;
use inputs::{Verb, find_column, read_verb};
use std::alloc::Global;
use values::{NoMemory, Schema};

/// What a verb wants at a field.
#[derive(Clone, Copy)]
pub(crate) enum Wanted {
    /// A cell of this column.
    Cell(usize),
    /// The name of a column.
    Name,
    /// A position.
    Position,
    /// It takes no argument there.
    Nothing,
}

/// A sentence that shows a field behind a place, and then tells what is wrong with it; another one where there is no field.
pub(crate) fn field_sentence(
    alloc: Global,
    place: &str,
    field: Option<&[u8]>,
    told: &str,
) -> Result<String, NoMemory>
    ensures { IfOk result (λ text. string_bytes text ≡ field_sentence place.now (option_map (λ f. f.now) field.entry) told.now) }
{
    let field = match field {
        Some(field) => field,
        None => return Ok(format!(in alloc; "{place}: there is no such field")?),
    };
    let shown = quoted(alloc, ROOM, field)?;
    Ok(format!(in alloc; "{place}: {shown}{told}")?)
}

/// The sentence of the argument at a field: the column by its name, and what the record has there.
pub(crate) fn argument_sentence(
    alloc: Global,
    schema: &Schema,
    place: &str,
    fields: &ByteRecord,
    at: usize,
) -> Result<String, NoMemory>
    ensures { IfOk result (λ text. string_bytes text ≡ argument_sentence schema.now place.now (fields_of fields.now) at) }
{
    let argument = match fields.get(at) {
        Some(argument) => argument,
        None => return field_sentence(alloc, place, None, ""),
    };
    let wanted = wanted_by_word(schema, fields, at);
    wanted_sentence(alloc, schema, place, argument, wanted)
}

/// What is wanted at a field, by the word for the verb.
fn wanted_by_word(schema: &Schema, fields: &ByteRecord, at: usize) -> Wanted
    ensures { result ≡ wanted_by_word schema.now (field_at (fields_of fields.now) 1) (fields_of fields.now) at }
{
    let word = match fields.get(1) {
        Some(word) => word,
        None => return Wanted::Nothing,
    };
    match read_verb(word) {
        Some(verb) => wanted_at(schema, verb, fields, at),
        None => Wanted::Nothing,
    }
}

/// What a verb wants at a field.
fn wanted_at(schema: &Schema, verb: Verb, fields: &ByteRecord, at: usize) -> Wanted
    ensures { result ≡ wanted_at schema.now verb (fields_of fields.now) at }
{
    match verb {
        Verb::Insert => cell_wanted(schema.width(), at),
        Verb::Delete | Verb::Get | Verb::Rank => cell_wanted(schema.key_cols(), at),
        Verb::Set => set_wanted(schema, fields, at),
        Verb::At | Verb::Scan => Wanted::Position,
        Verb::Begin
        | Verb::Len
        | Verb::Commit
        | Verb::Abort
        | Verb::Fold
        | Verb::Checkpoint
        | Verb::Cut => Wanted::Nothing,
    }
}

/// A cell of one of the first columns.
fn cell_wanted(count: usize, at: usize) -> Wanted
    ensures { result ≡ cell_wanted count at }
{
    if at < 2 {
        return Wanted::Nothing;
    }
    if at - 2 < count {
        Wanted::Cell(at - 2)
    } else {
        Wanted::Nothing
    }
}

/// Behind the key, the column that is set, and then its cell.
fn set_wanted(schema: &Schema, fields: &ByteRecord, at: usize) -> Wanted
    ensures { result ≡ set_wanted schema.now (fields_of fields.now) at }
{
    let key_cols = schema.key_cols();
    if at == 2 + key_cols {
        return Wanted::Name;
    }
    if at == 3 + key_cols {
        return named_wanted(schema, fields.get(2 + key_cols));
    }
    cell_wanted(key_cols, at)
}

/// A cell of the column of this name.
fn named_wanted(schema: &Schema, name: Option<&[u8]>) -> Wanted
    ensures { result ≡ named_wanted schema.now (option_map (λ n. n.now) name.entry) }
{
    let name = match name {
        Some(name) => name,
        None => return Wanted::Nothing,
    };
    match find_column(schema, name) {
        Some(col) => Wanted::Cell(col),
        None => Wanted::Nothing,
    }
}

/// What is wrong with an argument where this is wanted.
fn wanted_sentence(
    alloc: Global,
    schema: &Schema,
    place: &str,
    argument: &[u8],
    wanted: Wanted,
) -> Result<String, NoMemory>
    ensures { IfOk result (λ text. string_bytes text ≡ wanted_sentence schema.now place.now argument.now wanted) }
{
    let told = match wanted {
        Wanted::Cell(col) if col < schema.width() => {
            return column_argument(alloc, schema, place, argument, col);
        }
        Wanted::Cell(_) | Wanted::Nothing => " is not an argument that the verb takes",
        Wanted::Name => " is not a column's name",
        Wanted::Position => " is not a position: a whole number from 0 on is wanted",
    };
    field_sentence(alloc, place, Some(argument), told)
}

/// The sentence of an argument that is no cell of its column.
fn column_argument(
    alloc: Global,
    schema: &Schema,
    place: &str,
    argument: &[u8],
    col: usize,
) -> Result<String, NoMemory>
    requires { col < length schema.now.types }
    ensures { IfOk result (λ text. string_bytes text
        ≡ column_argument place.now argument.now (slice_get schema.now.names col) (slice_get schema.now.types col)) }
{
    let mut sentence = in_column(alloc, place, schema.name(col).as_bytes())?;
    let told = not_typed(alloc, Some(schema.column_type(col)), argument)?;
    sentence.push_str(told.as_str())?;
    Ok(sentence)
}
