//! What is left of a run beside what the slow program makes of it.
use crate::drawn::asked::Call;
use crate::drawn::lines::image_of;
use crate::drawn::past::Past;
use crate::drawn::seat::Seat;
use crate::drawn::serial::Serial;
use manager::Manager;
use model::CommitReply;
use pdtcli::{Left, Reply};
use std::alloc::Global;
use values::NoMemory;

/// The begins and the commit replies of a client's records.
type Decided = Vec<(u64, CommitReply)>;

/// What a run has left: all but its store, what it wrote, and the image in its store with the generation.
#[derive(Drop)]
pub(crate) struct Ran {
    pub(crate) left: Left,
    pub(crate) out: Vec<u8>,
    pub(crate) stored: Option<(u64, String)>,
}

impl Ran {
    /// What it wrote.
    pub(crate) fn told(&self) -> &str {
        match str::from_utf8(self.out.as_slice()) {
            Ok(told) => told,
            Err(_) => "",
        }
    }
}

/// The records of a history, by client, where each is due after those before it.
fn replayed(
    past: &mut Past,
    manager: &Manager,
    clients: usize,
) -> Result<Option<Vec<Decided>>, NoMemory> {
    let alloc = past.alloc();
    let mut decided = Vec::new(alloc);
    for _ in 0..clients {
        decided.push(Vec::new(alloc))?;
    }
    let Some(records) = manager.history().records() else {
        return Ok(None);
    };
    for entry in records {
        if !past.takes(entry)? {
            return Ok(None);
        }
        match decided.get_mut(entry.client() as usize) {
            Some(own) => own.push((entry.begin(), entry.reply()))?,
            None => return Ok(None),
        }
    }
    Ok(Some(decided))
}

/// Whether the counts are the numbers of records.
fn are_counted(counts: &[u64], decided: &[Decided]) -> bool {
    counts.len() == decided.len()
        && counts
            .iter()
            .zip(decided.iter())
            .all(|(count, own)| *count == own.len() as u64)
}

/// The generations of the lines.
fn generations_of(alloc: Global, left: &Left) -> Result<Vec<u32>, NoMemory> {
    let mut generations = Vec::new(alloc);
    for line in left.lines() {
        if let Reply::Stored(generation) = line.reply {
            generations.push(generation)?;
        }
    }
    Ok(generations)
}

/// Whether each number from 1 on is there once.
fn are_numbered(generations: &[u32]) -> bool {
    let mut next = 0_u32;
    for _ in generations {
        next = next.wrapping_add(1);
        if !generations.contains(&next) {
            return false;
        }
    }
    true
}

/// Whether the image in the store is that of some number, under the newest generation.
fn is_of_some_number(
    past: &Past,
    stored: &Option<(u64, String)>,
    newest: usize,
) -> Result<bool, NoMemory> {
    let Some((generation, image)) = stored else {
        return Ok(newest == 0);
    };
    if *generation != newest as u64 {
        return Ok(false);
    }
    for table in past.tables() {
        if image_of(past.alloc(), Some(table))? == *image {
            return Ok(true);
        }
    }
    Ok(false)
}

/// Whether the calls of each client were answered as is due, and the image after them is the newest.
fn are_told<'a>(
    seat: &mut Seat<'a>,
    calls: &[Call],
    decided: &'a [Decided],
) -> Result<bool, NoMemory> {
    for (client, own) in decided.iter().enumerate() {
        seat.turn_to(own.as_slice())?;
        for (place, call) in calls.iter().enumerate() {
            if call.0 == client && !seat.call(*call, &calls[place..])? {
                return Ok(false);
            }
        }
        if seat.decided.next().is_some() {
            return Ok(false);
        }
    }
    let image = image_of(seat.past.alloc(), seat.past.newest())?;
    Ok(seat.told.strip_prefix("\n") == Some(image.as_str()))
}

/// What of a run on threads differs from a replay of its history over the table before it.
pub(crate) fn difference_on_threads(
    past: &mut Past,
    calls: &[Call],
    ran: &Ran,
) -> Result<Option<&'static str>, NoMemory> {
    let alloc = past.alloc();
    let counts = ran.left.counts();
    let Some(decided) = replayed(past, ran.left.manager(), counts.len())? else {
        return Ok(Some("a record"));
    };
    if !are_counted(counts, decided.as_slice()) {
        return Ok(Some("the counts"));
    }
    let generations = generations_of(alloc, &ran.left)?;
    let mut seat = Seat {
        past,
        told: ran.told(),
        decided: [].iter(),
        generations: generations.iter(),
        seen: 0,
        open: Vec::new(alloc),
    };
    if !are_told(&mut seat, calls, decided.as_slice())? {
        return Ok(Some("what is written"));
    }
    if !are_numbered(generations.as_slice())
        || !is_of_some_number(past, &ran.stored, generations.len())?
    {
        return Ok(Some("the store"));
    }
    Ok(None)
}

/// Whether the history is what is due since the last cut.
fn is_due(serial: &Serial, left: &Left) -> Result<bool, NoMemory> {
    let mut past = serial.past.at_cut()?;
    let records = left.manager().history().len();
    Ok(
        left.handed() == serial.handed
            && records == serial.kept
            && replayed(&mut past, left.manager(), serial.counts.len())?.is_some()
            && past.number() == serial.past.number(),
    )
}

/// What of a run in order differs from what the slow program makes of the same calls.
pub(crate) fn difference_in_order(
    serial: &Serial,
    ran: &Ran,
) -> Result<Option<&'static str>, NoMemory> {
    let image = image_of(serial.past.alloc(), serial.past.newest())?;
    let lines = ran.told().strip_prefix(serial.lines.as_str());
    if lines.and_then(|rest| rest.strip_prefix("\n")) != Some(image.as_str()) {
        return Ok(Some("what is written"));
    }
    if ran.left.counts() != serial.counts.as_slice() {
        return Ok(Some("the counts"));
    }
    if ran.stored != serial.stored {
        return Ok(Some("the store"));
    }
    if !is_due(serial, &ran.left)? {
        return Ok(Some("the history"));
    }
    Ok(None)
}
