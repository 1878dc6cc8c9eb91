//! The output of a run: its reply lines, an empty line, and the newest image with its header. And that of a store: the image
//! that it has.
//!
//! The image is walked as its layers lend it, row by row.
ghost use Rattle.std.specs.Prelude.{◌≡◌, ◌++◌, ◌∷◌, [], Some, OnOk, IfOk, map};
ghost use Rattle.std.specs.Io.KnownBytes.{Appends};
ghost use Rattle.merge.specs.Image.{image_rows};
ghost use Rattle.pdtcli.specs.Output.{exit_status, image_text, is_refused, lines_text, records_text, rows_text, shown};
ghost use Rattle.pdtcli.specs.Records.{Goes};
ghost use Rattle.pdtcli.specs.Refusals.{show_fault_text};
ghost use Rattle.pdtcli.specs.Replies.{line_records, shown_fields, shown_rows};
ghost use Rattle.pdtcli.specs.declared.output.ShowFault.TheVariants as show_fault;

use crate::batch::{Batch, send};
use crate::image::{push_header, push_row};
use crate::outcome::Left;
use crate::records::Records;
use crate::reply::{Reply, ReplyLine, push_line, push_shown};
use crate::shown::ShownRows;
use delta::DeltaTree;
use devices::StoredImage;
use merge::Layers;
use std::alloc::Global;
use std::error::Error;
use std::fmt;
use std::io::Write;
use values::{NoMemory, Schema, Text};

/// Why an output isn't whole. What went out before it is not said.
#[derive(Clone, Copy, Debug, PartialEq, Eq)]
pub enum ShowFault {
    /// The writer refused some bytes.
    Write,
    /// A growth was refused.
    NoMemory,
}

// By hand, since the line of a refused output is promised.
impl fmt::Display for ShowFault {
    ghost output = { λ fault. Some (show_fault_text fault) };

    fn fmt<W: fmt::Write>(&self, f: &mut fmt::Formatter<W>) -> fmt::Result {
        match self {
            ShowFault::Write => f.write_str("Write"),
            ShowFault::NoMemory => f.write_str("NoMemory"),
        }
    }
}

impl Error for ShowFault {}

impl From<NoMemory> for ShowFault {
    ghost from_gives = { λ _ fault. fault ≡ show_fault.NoMemory };

    fn from(_: NoMemory) -> ShowFault {
        ShowFault::NoMemory
    }
}

/// Writes the reply lines in order, an empty line, and the newest image with its header, all as the crate `csv` writes
/// records, with quotes where a field needs them. Answers the program's exit status: 1 where some reply is NoMemory,
/// DeviceFailed, StoreFailed, GenerationsSpent, Stranger, Ended, TooLong, Unsure or JournalFailed, and 0 otherwise.
///
/// # Errors
///
/// `Write` where the writer refuses, `NoMemory` where a growth is refused; some of the output may have gone out.
pub fn show<W: Write>(alloc: Global, left: &Left, out: &mut W) -> Result<u8, ShowFault>
    ensures bytes { OnOk result (Appends (W.contents out.old) (W.contents out.new) (shown left.now)) }
    ensures status { IfOk result (λ status. status ≡ exit_status left.now.lines) }
{
    show_lines(alloc, left.clients(), left.lines(), out)?;
    show_newest(alloc, &left.manager().newest(), out)?;
    Ok(lines_status(left.lines()))
}

/// Writes the records of one reply line, at once.
///
/// # Errors
///
/// Those of `show`.
pub fn show_reply<W: Write>(
    alloc: Global,
    clients: &[Text],
    line: &ReplyLine,
    out: &mut W,
) -> Result<(), ShowFault>
    ensures { OnOk result (Appends (W.contents out.old) (W.contents out.new) (lines_text clients.now (line.now ∷ []))) }
{
    let batch = show_line(Batch::new(alloc)?, clients, line, out)?;
    batch.finish(out)
}

/// Writes an empty line and an image with its header, as they are after the reply lines of a run.
///
/// # Errors
///
/// Those of `show`.
pub fn show_newest<W: Write>(
    alloc: Global,
    newest: &Layers<'_>,
    out: &mut W,
) -> Result<(), ShowFault>
    ensures { OnOk result (Appends (W.contents out.old) (W.contents out.new) (10 ∷ [] ++ image_text newest.now.schema (image_rows newest.now))) }
{
    show_header(alloc, newest.schema(), out)?;
    show_rows(alloc, newest, out)
}

/// Writes an image with the header of these columns, as the crate `csv` writes records.
///
/// # Errors
///
/// Those of `show`.
pub fn show_image<W: Write>(
    alloc: Global,
    schema: &Schema,
    image: &Layers<'_>,
    out: &mut W,
) -> Result<(), ShowFault>
    ensures { OnOk result (Appends (W.contents out.old) (W.contents out.new) (image_text schema.now (image_rows image.now))) }
{
    let mut text = header_of(alloc, schema)?;
    send(&mut text, out)?;
    show_rows(alloc, image, out)
}

/// Writes the image that a store has, with the header of these columns, as the crate `csv` writes records.
///
/// # Errors
///
/// `Write` where the writer refuses, `NoMemory` where a growth is refused; some of the output may have gone out.
pub fn show_store<W: Write>(
    alloc: Global,
    schema: &Schema,
    image: &StoredImage,
    out: &mut W,
) -> Result<(), ShowFault>
    ensures { OnOk result (Appends (W.contents out.old) (W.contents out.new) (image_text schema.now image.now.table.rows)) }
{
    let none = DeltaTree::new(alloc, image.table.schema().key_cols());
    let layers = Layers::new(&image.table, &none, &none, &none);
    show_image(alloc, schema, &layers, out)
}

/// The header record of these columns.
///
/// # Errors
///
/// `NoMemory` where a growth is refused.
pub fn header_of(alloc: Global, schema: &Schema) -> Result<Vec<u8>, NoMemory>
    ensures { IfOk result (λ text. text.items ≡ image_text schema.now []) }
{
    header_after(alloc, schema, Vec::new(alloc))
}

/// The exit status of a run that was answered so.
fn lines_status(lines: &[ReplyLine]) -> u8
    ensures { result ≡ exit_status lines.now }
{
    for line in lines {
        if is_refused(line) {
            return 1;
        }
    }
    0
}

/// Whether a call was refused for want of memory, by the store, by the journal or for its session.
pub fn is_refused(line: &ReplyLine) -> bool
    ensures { result ≡ is_refused line.now }
{
    matches!(
        line.reply,
        Reply::NoMemory
            | Reply::DeviceFailed(_)
            | Reply::StoreFailed
            | Reply::GenerationsSpent
            | Reply::Stranger
            | Reply::Ended
            | Reply::TooLong
            | Reply::Unsure
            | Reply::JournalFailed
    )
}

/// Writes the reply lines.
fn show_lines<W: Write>(
    alloc: Global,
    clients: &[Text],
    lines: &[ReplyLine],
    out: &mut W,
) -> Result<(), ShowFault>
    ensures { OnOk result (Appends (W.contents out.old) (W.contents out.new) (lines_text clients.now lines.now)) }
{
    let mut batch = Batch::new(alloc)?;
    for line in lines {
        batch = show_line(batch, clients, line, out)?;
    }
    batch.finish(out)
}

/// Writes the records of a line: one for each row that it shows, and the last one.
fn show_line<W: Write>(
    batch: Batch,
    clients: &[Text],
    line: &ReplyLine,
    out: &mut W,
) -> Result<Batch, ShowFault>
    ensures { IfOk result (λ next. Goes (W.contents out.old) (W.contents out.new) batch.records next.records
        (records_text (line_records clients.now line.now))) }
{
    let mut batch = show_shown(batch, clients, line, out)?;
    push_line(&mut batch.records, clients, line)?;
    batch.end_record(out)
}

/// Writes a record for each row that a line shows.
fn show_shown<W: Write>(
    batch: Batch,
    clients: &[Text],
    line: &ReplyLine,
    out: &mut W,
) -> Result<Batch, ShowFault>
    ensures { IfOk result (λ next. Goes (W.contents out.old) (W.contents out.new) batch.records next.records
        (records_text (map (shown_fields clients.now line.now) (shown_rows line.now.reply)))) }
{
    match &line.reply {
        Reply::Scanned(rows) => show_scanned(batch, clients, line, rows, out),
        _ => Ok(batch),
    }
}

/// Writes a record for each of these rows.
fn show_scanned<W: Write>(
    mut batch: Batch,
    clients: &[Text],
    line: &ReplyLine,
    rows: &ShownRows,
    out: &mut W,
) -> Result<Batch, ShowFault>
    ensures { IfOk result (λ next. Goes (W.contents out.old) (W.contents out.new) batch.records next.records
        (records_text (map (shown_fields clients.now line.now) rows.now))) }
{
    for at in 0..rows.len() {
        push_shown(&mut batch.records, clients, line, rows, at)?;
        batch = batch.end_record(out)?;
    }
    Ok(batch)
}

/// Writes the empty line and the header.
fn show_header<W: Write>(alloc: Global, schema: &Schema, out: &mut W) -> Result<(), ShowFault>
    ensures { OnOk result (Appends (W.contents out.old) (W.contents out.new) (10 ∷ [] ++ image_text schema.now [])) }
{
    let mut text = line_and_header(alloc, schema)?;
    send(&mut text, out)
}

/// Writes the rows of the image.
fn show_rows<W: Write>(alloc: Global, newest: &Layers<'_>, out: &mut W) -> Result<(), ShowFault>
    ensures { OnOk result (Appends (W.contents out.old) (W.contents out.new) (rows_text (image_rows newest.now))) }
{
    let mut batch = Batch::new(alloc)?;
    for row in newest.scan(0, newest.len()) {
        push_row(&mut batch.records, &row)?;
        batch = batch.end_record(out)?;
    }
    batch.finish(out)
}

/// The empty line and the header.
fn line_and_header(alloc: Global, schema: &Schema) -> Result<Vec<u8>, NoMemory>
    ensures { IfOk result (λ text. text.items ≡ 10 ∷ [] ++ image_text schema.now []) }
{
    header_after(alloc, schema, Vec::from_slice(alloc, b"\n")?)
}

/// The text, and after it the header.
fn header_after(alloc: Global, schema: &Schema, text: Vec<u8>) -> Result<Vec<u8>, NoMemory>
    ensures { IfOk result (λ longer. longer.items ≡ text.items ++ image_text schema.now []) }
{
    let mut records = Records::after(text)?;
    push_header(alloc, &mut records, schema)?;
    records.end_record()?;
    records.into_text()
}
