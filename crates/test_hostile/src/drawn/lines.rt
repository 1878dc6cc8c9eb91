//! The lines that a run is to write, as the slow program makes them.
use crate::drawn::asked::{Asked, Call, Look, verb_of};
use crate::drawn::past::Past;
use model::{CommitReply, WriteReply};
use oracle::{Effects, OrderedTable};
use std::alloc::Global;
use test_fixtures::{ItemWrite, key, push_cell, write_of};
use values::{NoMemory, Row};

/// The header of the base table.
const HEADER: &str = "id:int:key,name:text,qty:int\n";

/// An open transaction.
#[derive(Drop)]
pub(crate) struct Open {
    pub(crate) begin: u64,
    pub(crate) effects: Effects,
}

/// Adds a line.
pub(crate) fn push_line(
    text: &mut String,
    (client, asked): Call,
    reply: &str,
) -> Result<(), NoMemory> {
    let verb = verb_of(asked);
    write!(text, "c{client},{verb},{reply}\n")?;
    Ok(())
}

/// Adds a line whose reply has a number.
pub(crate) fn push_counted(
    text: &mut String,
    (client, asked): Call,
    (reply, count): (&str, u64),
) -> Result<(), NoMemory> {
    let verb = verb_of(asked);
    write!(text, "c{client},{verb},{reply},{count}\n")?;
    Ok(())
}

/// The cells of a row, with a comma between two.
fn cells_of(alloc: Global, row: &Row) -> Result<String, NoMemory> {
    let mut text = String::new(alloc);
    for (place, cell) in row.cells().iter().enumerate() {
        if place > 0 {
            text.push_str(",")?;
        }
        push_cell(alloc, &mut text, cell.as_ref())?;
    }
    Ok(text)
}

/// Adds the line of a row, or of none.
fn push_row(
    alloc: Global,
    text: &mut String,
    (client, asked): Call,
    (row, none): (Option<&Row>, &str),
) -> Result<(), NoMemory> {
    match row {
        Some(row) => {
            let (verb, cells) = (verb_of(asked), cells_of(alloc, row)?);
            write!(text, "c{client},{verb},Row,{cells}\n")?;
            Ok(())
        }
        None => push_line(text, (client, asked), none),
    }
}

/// The table as a file, if there is one.
pub(crate) fn image_of(alloc: Global, table: Option<&OrderedTable>) -> Result<String, NoMemory> {
    let mut text = String::from_str(alloc, HEADER)?;
    let Some(table) = table else {
        return Ok(text);
    };
    for row in table.by_key().values() {
        text.push_str(cells_of(alloc, row)?.as_str())?;
        text.push_str("\n")?;
    }
    Ok(text)
}

/// The word of a write's reply.
fn word_of(reply: WriteReply) -> &'static str {
    match reply {
        WriteReply::Done => "Done",
        WriteReply::Duplicate => "Duplicate",
        WriteReply::Full => "Full",
        WriteReply::Missing => "Missing",
    }
}

/// The word of a commit's reply, and its number.
pub(crate) fn decision_of(reply: CommitReply) -> (&'static str, u64) {
    match reply {
        CommitReply::Committed(number) => ("Committed", number),
        CommitReply::Conflict(number) => ("Conflict", number),
        CommitReply::TooOld(number) => ("TooOld", number),
        CommitReply::Full(number) => ("Full", number),
    }
}

/// Adds the lines of the rows at positions from one up to another, and their number.
fn push_scan(
    alloc: Global,
    text: &mut String,
    call: Call,
    (rows, from, to): (&[Row], usize, usize),
) -> Result<(), NoMemory> {
    let mut count = 0_u64;
    for (place, row) in rows.iter().enumerate() {
        if from <= place && place < to {
            push_row(alloc, text, call, (Some(row), ""))?;
            count = count.wrapping_add(1);
        }
    }
    push_counted(text, call, ("End", count))
}

/// Adds the line of a key's place.
fn push_place(
    alloc: Global,
    text: &mut String,
    (client, image): (usize, &OrderedTable),
    id: i64,
) -> Result<(), NoMemory> {
    let key = key(alloc, id)?;
    let (below, there) = (image.rank(&key), image.row_at(&key).is_some());
    write!(text, "c{client},rank,Place,{below},{there}\n")?;
    Ok(())
}

/// Adds the lines of a look at an image.
fn push_look(
    alloc: Global,
    text: &mut String,
    (client, image): (usize, &OrderedTable),
    look: Look,
) -> Result<(), NoMemory> {
    let call = (client, Asked::Look(look));
    match look {
        Look::Get(id) => {
            let key = key(alloc, id)?;
            push_row(alloc, text, call, (image.row_at(&key), "Missing"))
        }
        Look::At(place) => {
            let rows = image.rows()?;
            push_row(alloc, text, call, (rows.get(place), "None"))
        }
        Look::Rank(id) => push_place(alloc, text, (client, image), id),
        Look::Len => push_counted(text, call, ("Rows", image.len() as u64)),
        Look::Scan(from, to) => push_scan(alloc, text, call, (image.rows()?.as_slice(), from, to)),
    }
}

impl Open {
    /// One that begins at this number.
    pub(crate) fn new(alloc: Global, begin: u64) -> Open {
        Open {
            begin,
            effects: Effects::new(alloc),
        }
    }

    /// Adds the lines of a look.
    fn push_look(
        &self,
        past: &Past,
        text: &mut String,
        (client, look): (usize, Look),
    ) -> Result<(), NoMemory> {
        let Some(table) = past.table_at(self.begin) else {
            return Ok(());
        };
        let image = table.with(&self.effects)?;
        push_look(past.alloc(), text, (client, &image), look)
    }

    /// What a write is answered.
    fn write(&mut self, past: &Past, write: ItemWrite) -> Result<&'static str, NoMemory> {
        let write = write_of(past.alloc(), write)?;
        match past.table_at(self.begin) {
            Some(table) => {
                let reply = table.write(1, past.limit(), &mut self.effects, &write)?;
                Ok(word_of(reply))
            }
            None => Ok("no table"),
        }
    }
}

/// Adds the lines of a call that is no commit, checkpoint or cut, of a client that has this open. A transaction begins at
/// this number.
pub(crate) fn push_call(
    past: &Past,
    text: &mut String,
    (client, asked): Call,
    (open, number): (&mut Option<Open>, u64),
) -> Result<(), NoMemory> {
    let word = match (asked, &mut *open) {
        (Asked::Fold, _) => "Done",
        (Asked::Begin, Some(_)) => "AlreadyOpen",
        (Asked::Begin, None) => {
            *open = Some(Open::new(past.alloc(), number));
            "Begun"
        }
        (Asked::Write(write), Some(own)) => own.write(past, write)?,
        (Asked::Look(look), Some(own)) => {
            return own.push_look(past, text, (client, look));
        }
        (Asked::Abort, Some(_)) => {
            *open = None;
            "Aborted"
        }
        _ => "NotOpen",
    };
    push_line(text, (client, asked), word)
}
