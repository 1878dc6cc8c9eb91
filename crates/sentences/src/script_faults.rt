//! The sentence of a fault of a script's text.
ghost use Rattle.std.specs.Prelude.{◌≡◌, ℕ, List, Some, IfOk, option_map, length, string_bytes};
ghost use Rattle.csv.specs.Records.{fields_of, field_at};
ghost use Rattle.inputs.specs.Reading.{AreRecordsOf, Fields};
ghost use Rattle.sentences.specs.Scripts.{count_sentence, first_bad, record_of, record_sentence, script_sentence, verb_count_sentence};

use crate::arguments::{argument_sentence, field_sentence};
use crate::cells::{missing_record, place_of};
use crate::quoting::is_text;
use crate::table_faults::counted;
use csv::ByteRecord;
use inputs::{ScriptFault, Verb, count_arguments, read_verb, record_at};
use std::alloc::Global;
use values::{NoMemory, Schema};

/// What is told of a word that is no verb.
const NOT_VERB: &str =
    " is not a verb: begin, insert, delete, set, get, at, rank, len, scan, commit, abort, fold, checkpoint or cut is wanted";

/// The sentence that explains a fault of a script's text over a table of this schema, as `explain_table` explains one of a table's. Of
/// an argument that is a cell it says the column by its name, as in `line 5, column "qty": "abc" is not an int: ..`.
///
/// # Errors
///
/// `NoMemory` where a growth is refused.
pub fn explain_script(
    alloc: Global,
    schema: &Schema,
    text: &[u8],
    fault: ScriptFault,
) -> Result<String, NoMemory>
    ensures { IfOk result (λ sentence. (line : ℕ) × ((records : List Fields) → AreRecordsOf text.now records
        → string_bytes sentence ≡ script_sentence schema.now line records fault)) }
{
    let number = match record_of(fault) {
        Some(number) => number,
        None => return Ok(String::from_str(alloc, "there was no memory to read the text")?),
    };
    let found = match record_at(alloc, text, number)? {
        Some(found) => found,
        None => return missing_record(alloc, number),
    };
    let place = place_of(alloc, found.line, number)?;
    record_sentence(alloc, schema, place.as_str(), &found.fields, fault)
}

/// The record that a fault is of.
fn record_of(fault: ScriptFault) -> Option<u64>
    ensures { result ≡ record_of fault }
{
    match fault {
        ScriptFault::NoMemory => None,
        ScriptFault::BadText(number)
        | ScriptFault::BadClient(number)
        | ScriptFault::TooManyClients(number)
        | ScriptFault::BadCount(number)
        | ScriptFault::BadVerb(number)
        | ScriptFault::BadArgument(number, _) => Some(number),
    }
}

/// The sentence of a fault of a record, which begins at a place.
fn record_sentence(
    alloc: Global,
    schema: &Schema,
    place: &str,
    fields: &ByteRecord,
    fault: ScriptFault,
) -> Result<String, NoMemory>
    ensures { IfOk result (λ text. string_bytes text ≡ record_sentence schema.now place.now (fields_of fields.now) fault) }
{
    match fault {
        ScriptFault::BadText(_) => {
            field_sentence(alloc, place, first_bad(fields), " is not UTF-8")
        }
        ScriptFault::BadClient(_) => field_sentence(
            alloc,
            place,
            fields.get(0),
            " is not a client: 1 to 32 ASCII letters, digits, - or _ are wanted",
        ),
        ScriptFault::TooManyClients(_) => field_sentence(
            alloc,
            place,
            fields.get(0),
            " is the 65th client, and 64 are the most",
        ),
        ScriptFault::BadCount(_) => count_sentence(alloc, schema, place, fields),
        ScriptFault::BadVerb(_) => field_sentence(alloc, place, fields.get(1), NOT_VERB),
        ScriptFault::BadArgument(_, at) => argument_sentence(alloc, schema, place, fields, at),
        ScriptFault::NoMemory => {
            Ok(String::from_str(alloc, "there was no memory to read the text")?)
        }
    }
}

/// The first field that is no text.
fn first_bad(fields: &ByteRecord) -> Option<&[u8]>
    ensures { option_map (λ f. f.now) result ≡ first_bad (fields_of fields.now) }
{
    for at in 0..fields.len() {
        let field = match fields.get(at) {
            Some(field) => field,
            None => unreachable!(),
        };
        if !is_text(field) {
            return Some(field);
        }
    }
    None
}

/// The sentence of a record that has no verb, or not as many arguments as its verb takes.
fn count_sentence(
    alloc: Global,
    schema: &Schema,
    place: &str,
    fields: &ByteRecord,
) -> Result<String, NoMemory>
    ensures { IfOk result (λ text. string_bytes text
        ≡ count_sentence schema.now place.now (length (fields_of fields.now)) (field_at (fields_of fields.now) 1)) }
{
    let word = match fields.get(1) {
        Some(word) => word,
        None => return Ok(format!(in alloc; "{place}: there is a client, and no verb")?),
    };
    word_count_sentence(alloc, schema, place, fields.len(), word)
}

/// The same of a record of so many fields, by the word for its verb.
fn word_count_sentence(
    alloc: Global,
    schema: &Schema,
    place: &str,
    count: usize,
    word: &[u8],
) -> Result<String, NoMemory>
    ensures { IfOk result (λ text. string_bytes text ≡ count_sentence schema.now place.now count (Some word.now)) }
{
    match read_verb(word) {
        Some(verb) => verb_count_sentence(alloc, schema, place, count, verb),
        None => field_sentence(alloc, place, Some(word), NOT_VERB),
    }
}

/// How many arguments a record of so many fields has, and how many its verb takes.
fn verb_count_sentence(
    alloc: Global,
    schema: &Schema,
    place: &str,
    count: usize,
    verb: Verb,
) -> Result<String, NoMemory>
    ensures { IfOk result (λ text. string_bytes text ≡ verb_count_sentence schema.now place.now count verb) }
{
    let arguments = counted(alloc, count.saturating_sub(2), "argument")?;
    let wanted = count_arguments(schema, verb);
    let word = verb.word();
    Ok(format!(in alloc; "{place}: {word} has {arguments}, and it takes {wanted}")?)
}
