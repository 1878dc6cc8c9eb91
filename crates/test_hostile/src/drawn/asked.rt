//! The calls of a script as a test names them, their text, and scripts drawn by chance.
ghost use Rattle.std.specs.Prelude.{◌<◌};

use std::alloc::Global;
use std::test::Fail;
use test_fixtures::{Draws, ItemWrite};
use values::NoMemory;

/// A look at a transaction's image.
#[derive(Clone, Copy)]
pub(crate) enum Look {
    Get(i64),
    At(usize),
    Rank(i64),
    Len,
    Scan(usize, usize),
}

/// A call.
#[derive(Clone, Copy)]
pub(crate) enum Asked {
    Begin,
    Write(ItemWrite),
    Look(Look),
    Commit,
    Abort,
    Fold,
    Checkpoint,
    Cut,
}

/// A call with the number of the client that makes it.
pub(crate) type Call = (usize, Asked);

/// The bound of the numbers that a call is drawn by, where none is a cut.
pub(crate) const WITHOUT_CUTS: u64 = 40;

/// The same, where one number is that of a cut.
pub(crate) const WITH_CUTS: u64 = 41;

/// There are so many keys, those of the base table among them, that most writes and commits meet.
static KEYS: [i64; 8] = [5, 10, 12, 15, 20, 25, 30, 35];

static NAMES: [&str; 4] = ["Ann", "Bob", "", "a longer name"];

/// The word of a call.
pub(crate) fn verb_of(asked: Asked) -> &'static str {
    match asked {
        Asked::Begin => "begin",
        Asked::Write(ItemWrite::Insert(_, _, _)) => "insert",
        Asked::Write(ItemWrite::Delete(_)) => "delete",
        Asked::Write(ItemWrite::Name(_, _) | ItemWrite::Set(_, _)) => "set",
        Asked::Look(Look::Get(_)) => "get",
        Asked::Look(Look::At(_)) => "at",
        Asked::Look(Look::Rank(_)) => "rank",
        Asked::Look(Look::Len) => "len",
        Asked::Look(Look::Scan(_, _)) => "scan",
        Asked::Commit => "commit",
        Asked::Abort => "abort",
        Asked::Fold => "fold",
        Asked::Checkpoint => "checkpoint",
        Asked::Cut => "cut",
    }
}

/// Adds what a write says, each value after a comma.
fn push_write(text: &mut String, write: ItemWrite) -> Result<(), Fail> {
    match write {
        ItemWrite::Insert(id, name, number) => write!(text, ",{id},{name},{number}")?,
        ItemWrite::Delete(id) => write!(text, ",{id}")?,
        ItemWrite::Name(id, name) => write!(text, ",{id},name,{name}")?,
        ItemWrite::Set(id, number) => write!(text, ",{id},qty,{number}")?,
    }
    Ok(())
}

/// Adds what a look says, each value after a comma.
fn push_look(text: &mut String, look: Look) -> Result<(), Fail> {
    match look {
        Look::Get(id) => write!(text, ",{id}")?,
        Look::At(place) => write!(text, ",{place}")?,
        Look::Rank(id) => write!(text, ",{id}")?,
        Look::Len => {}
        Look::Scan(from, to) => write!(text, ",{from},{to}")?,
    }
    Ok(())
}

/// The script of the calls.
pub(crate) fn script_of(alloc: Global, calls: &[Call]) -> Result<String, Fail> {
    let mut text = String::new(alloc);
    for (client, asked) in calls {
        let verb = verb_of(*asked);
        write!(text, "c{client},{verb}")?;
        match *asked {
            Asked::Write(write) => push_write(&mut text, write)?,
            Asked::Look(look) => push_look(&mut text, look)?,
            _ => {}
        }
        text.push_str("\n")?;
    }
    Ok(text)
}

/// A drawn write.
fn draw_write(draws: &mut Draws) -> ItemWrite {
    let id = KEYS[draws.below(8) as usize];
    let number = draws.below(9) as i64;
    let name = NAMES[draws.below(4) as usize];
    match draws.below(8) {
        0 | 1 | 2 => ItemWrite::Insert(id, name, number),
        3 | 4 => ItemWrite::Delete(id),
        5 => ItemWrite::Name(id, name),
        _ => ItemWrite::Set(id, number),
    }
}

/// A drawn look.
fn draw_look(draws: &mut Draws) -> Look {
    let id = KEYS[draws.below(8) as usize];
    let from = draws.below(12) as usize;
    let to = draws.below(12) as usize;
    match draws.below(5) {
        0 => Look::Get(id),
        1 => Look::At(from),
        2 => Look::Rank(id),
        3 => Look::Len,
        _ => Look::Scan(from, to),
    }
}

/// A drawn call of a client with an open transaction.
fn draw_open(draws: &mut Draws, kinds: u64) -> Asked
    requires { 0 < kinds }
{
    match draws.below(kinds) {
        0 => Asked::Begin,
        1 | 2 | 3 | 4 | 5 | 6 => Asked::Commit,
        7 => Asked::Abort,
        8 | 9 => Asked::Fold,
        10 | 11 => Asked::Checkpoint,
        12 | 13 | 14 | 15 | 16 | 17 => Asked::Look(draw_look(draws)),
        40 => Asked::Cut,
        _ => Asked::Write(draw_write(draws)),
    }
}

/// A drawn call of a client: most often a begin where nothing is open.
fn draw_call(draws: &mut Draws, kinds: u64, open: &mut bool) -> Asked
    requires { 0 < kinds }
{
    let asked = if *open || draws.below(4) == 0 {
        draw_open(draws, kinds)
    } else {
        Asked::Begin
    };
    match asked {
        Asked::Begin => *open = true,
        Asked::Commit | Asked::Abort => *open = false,
        _ => {}
    }
    asked
}

/// So many drawn calls of at most eight clients, which make their first calls in order.
pub(crate) fn drawn_calls(
    alloc: Global,
    draws: &mut Draws,
    clients: u64,
    count: u64,
    kinds: u64,
) -> Result<Vec<Call>, NoMemory>
    requires clients { 0 < clients }
    requires kinds { 0 < kinds }
{
    let mut open = [false; 8];
    let mut calls = Vec::new(alloc);
    for number in 0..count {
        let client = if number < clients {
            number
        } else {
            draws.below(clients)
        };
        let client = client as usize % 8;
        calls.push((client, draw_call(draws, kinds, &mut open[client])))?;
    }
    Ok(calls)
}
