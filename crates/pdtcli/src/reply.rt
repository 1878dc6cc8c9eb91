//! What a script's calls are answered, and the fields of the reply lines: the one place where a reply becomes text.
ghost use Rattle.std.specs.Prelude.{◌≡◌, ◌∷◌, ◌<◌, [], OnOk, codes, decimal, get_or, length, map};
ghost use Rattle.values.specs.Shown.{cell_text, truth_text};
ghost use Rattle.pdtcli.specs.Records.{TakesFields};
ghost use Rattle.pdtcli.specs.Replies.{client_name, commit_fields, line_fields, reply_fields, shown_fields, write_fields};

use crate::image::push_cell;
use crate::records::Records;
use crate::shown::ShownRows;
use inputs::Verb;
use itoa::Buffer;
use model::{CommitReply, WriteReply};
use values::{NoMemory, Row, Text, Value, ValueRef};

/// The answer to a call.
#[derive(Debug, Drop)]
pub enum Reply {
    /// A transaction is open now.
    Begun,
    /// The client has a transaction open already.
    AlreadyOpen,
    /// The client has no transaction open.
    NotOpen,
    /// What a write was answered.
    Wrote(WriteReply),
    /// A cell of the key is never set.
    KeyColumn,
    /// The text of this cell, of the row or the key, or of this column, has more than 4,096 bytes.
    TextTooLong(usize),
    /// A row of the image.
    Row(Row),
    /// The image has no row of the key.
    Missing,
    /// The image has no row at the position.
    NoRow,
    /// How many rows have a key below this one, and whether one has it.
    Place(u64, bool),
    /// How many rows the image has.
    Rows(u64),
    /// The rows of a scan: a record for each, and then one of their number.
    Scanned(ShownRows),
    /// What a commit was answered.
    Decided(CommitReply),
    /// The transaction has ended and leaves no record.
    Aborted,
    /// The Write-PDT is folded into the Read-PDT.
    Folded,
    /// The newest image stands in the store, under this generation.
    Stored(u32),
    /// This device of the store failed.
    DeviceFailed(usize),
    /// An earlier append to the store has failed.
    StoreFailed,
    /// The next generation would be 2^32.
    GenerationsSpent,
    /// How many records a cut has handed out.
    Cut(u64),
    /// No version is handed out any more.
    Ended,
    /// The session has seen more commits than are held.
    Stranger,
    /// What the commit changes has 2^32 bytes or more in the journal. The transaction stays open.
    TooLong,
    /// The journal's device failed over the commit: whether it is kept is known once the store is recovered. The transaction stays
    /// open.
    Unsure,
    /// The journal's device has failed before: no commit and no checkpoint is taken any more.
    JournalFailed,
    /// A growth was refused, and nothing has changed.
    NoMemory,
}

/// A call's answer, with the client that made the call and the call's verb.
#[derive(Debug, Drop)]
pub struct ReplyLine {
    /// The client's number, from 0 in order of first appearance.
    pub client: u32,
    /// The call's verb.
    pub verb: Verb,
    /// The answer.
    pub reply: Reply,
}

/// Adds the fields of a line's last record: the client's name, the verb, the reply's word and its values where it has some.
pub(crate) fn push_line(
    records: &mut Records,
    clients: &[Text],
    line: &ReplyLine,
) -> Result<(), NoMemory>
    ensures { OnOk result (TakesFields records.old records.new (line_fields clients.now line.now)) }
{
    push_word(records, name_of(clients, line.client))?;
    push_word(records, line.verb.word())?;
    push_reply(records, &line.reply)
}

/// Adds the fields of the record of a row that a line shows: the client's name, the verb, the word of a row, and its cells.
pub(crate) fn push_shown(
    records: &mut Records,
    clients: &[Text],
    line: &ReplyLine,
    rows: &ShownRows,
    at: u64,
) -> Result<(), NoMemory>
    requires { at < length rows.now }
    ensures { OnOk result (TakesFields records.old records.new (shown_fields clients.now line.now (get_or rows.now at []))) }
{
    push_word(records, name_of(clients, line.client))?;
    push_word(records, line.verb.word())?;
    push_word(records, "Row")?;
    for col in 0..rows.width(at) {
        push_cell(records, rows.value(at, col))?;
    }
    Ok(())
}

/// The name of the client of this number; the empty one where there is no such client.
fn name_of(clients: &[Text], client: u32) -> &str
    ensures { result.now ≡ client_name clients.now client }
{
    match clients.get(client as usize) {
        Some(name) => name.as_str(),
        None => "",
    }
}

/// Adds the reply's word, and its values where it has some.
fn push_reply(records: &mut Records, reply: &Reply) -> Result<(), NoMemory>
    ensures { OnOk result (TakesFields records.old records.new (reply_fields reply.now)) }
{
    match reply {
        Reply::Begun => push_word(records, "Begun"),
        Reply::AlreadyOpen => push_word(records, "AlreadyOpen"),
        Reply::NotOpen => push_word(records, "NotOpen"),
        Reply::Wrote(answer) => push_word(records, word_of_write(*answer)),
        Reply::KeyColumn => push_word(records, "KeyColumn"),
        Reply::TextTooLong(at) => push_counted(records, "TextTooLong", *at as u64),
        Reply::Row(row) => push_row(records, row.cells()),
        Reply::Missing => push_word(records, "Missing"),
        Reply::NoRow => push_word(records, "None"),
        Reply::Place(below, there) => push_place(records, *below, *there),
        Reply::Rows(count) => push_counted(records, "Rows", *count),
        Reply::Scanned(rows) => push_counted(records, "End", rows.len()),
        Reply::Decided(answer) => push_decided(records, *answer),
        Reply::Aborted => push_word(records, "Aborted"),
        Reply::Folded => push_word(records, "Done"),
        Reply::Stored(generation) => push_counted(records, "Done", u64::from(*generation)),
        Reply::DeviceFailed(device) => push_counted(records, "DeviceFailed", *device as u64),
        Reply::StoreFailed => push_word(records, "StoreFailed"),
        Reply::GenerationsSpent => push_word(records, "GenerationsSpent"),
        Reply::Cut(count) => push_counted(records, "Done", *count),
        Reply::Ended => push_word(records, "Ended"),
        Reply::Stranger => push_word(records, "Stranger"),
        Reply::TooLong => push_word(records, "TooLong"),
        Reply::Unsure => push_word(records, "Unsure"),
        Reply::JournalFailed => push_word(records, "JournalFailed"),
        Reply::NoMemory => push_word(records, "NoMemory"),
    }
}

/// The word of a write's answer.
fn word_of_write(answer: WriteReply) -> &'static str
    ensures { write_fields answer ≡ result.now ∷ [] }
{
    match answer {
        WriteReply::Done => "Done",
        WriteReply::Duplicate => "Duplicate",
        WriteReply::Full => "Full",
        WriteReply::Missing => "Missing",
    }
}

/// Adds the word of a commit's answer, and the number of commits held.
fn push_decided(records: &mut Records, answer: CommitReply) -> Result<(), NoMemory>
    ensures { OnOk result (TakesFields records.old records.new (commit_fields answer)) }
{
    match answer {
        CommitReply::Committed(held) => push_counted(records, "Committed", held),
        CommitReply::Conflict(held) => push_counted(records, "Conflict", held),
        CommitReply::TooOld(held) => push_counted(records, "TooOld", held),
        CommitReply::Full(held) => push_counted(records, "Full", held),
    }
}

/// Adds the word of a row, and its cells.
fn push_row(records: &mut Records, cells: &[Value]) -> Result<(), NoMemory>
    ensures { OnOk result (TakesFields records.old records.new (codes "Row" ∷ map cell_text cells.now)) }
{
    push_word(records, "Row")?;
    for cell in cells {
        push_cell(records, cell.as_ref())?;
    }
    Ok(())
}

/// Adds the word of a key's place, its number, and whether the key is there.
fn push_place(records: &mut Records, below: u64, there: bool) -> Result<(), NoMemory>
    ensures { OnOk result (TakesFields records.old records.new (codes "Place" ∷ decimal below ∷ truth_text there ∷ [])) }
{
    push_counted(records, "Place", below)?;
    push_cell(records, ValueRef::Bool(there))
}

/// Adds a word.
fn push_word(records: &mut Records, word: &str) -> Result<(), NoMemory>
    ensures { OnOk result (TakesFields records.old records.new (word.now ∷ [])) }
{
    records.push_field(word.as_bytes())
}

/// Adds a word and a number.
fn push_counted(records: &mut Records, word: &str, number: u64) -> Result<(), NoMemory>
    ensures { OnOk result (TakesFields records.old records.new (word.now ∷ decimal number ∷ [])) }
{
    let mut digits = Buffer::new();
    push_word(records, word)?;
    push_word(records, digits.format(number))
}
