//! The journals of a new store, in files.
use crate::files::write_front;
use journal::{Header, write_header};
use journaled_clients::NewCommits;
use logging::{Appender, FileJournal};
use pdtcli::Refusal;
use std::fs::File;
use std::random::RandomSource;

/// The journals of a new store in files: that of its commits, and that of its images' marks.
#[derive(Drop)]
pub(crate) struct NewJournals {
    pub(crate) commits: NewCommits<FileJournal>,
    pub(crate) images: Appender<FileJournal>,
}

/// The number of the commit before the first frame of a new journal.
const BASE: u64 = 0;

/// How often a salt is drawn, since one in 2^32 makes no seed.
const DRAWS: usize = 8;

/// The journals of a new store in these files. They have the same name, which is drawn, and are on disk as far as they go.
pub(crate) fn journals_over(
    rt: &HostRuntime,
    images: File,
    commits: File,
) -> Result<NewJournals, Refusal> {
    let store = drawn(rt)?;
    let NewCommits { log, seed: _ } = journal_over(rt, images, store)?;
    Ok(NewJournals {
        images: log,
        commits: journal_over(rt, commits, store)?,
    })
}

/// A new journal of the store of this name in a file.
fn journal_over(
    rt: &HostRuntime,
    mut file: File,
    store: u64,
) -> Result<NewCommits<FileJournal>, Refusal> {
    let alloc = rt.alloc();
    let header = drawn_header(rt, store)?;
    let mut front = Vec::new(alloc);
    write_header(&header, &mut front)?;
    write_front(&mut file, front.as_slice())?;
    let device = FileJournal::new(file, front.as_slice());
    let seed = header.seed();
    Ok(NewCommits {
        log: Appender::new(alloc, device, seed),
        seed,
    })
}

/// A header of a new journal, whose salt is drawn.
fn drawn_header(rt: &HostRuntime, store: u64) -> Result<Header, Refusal> {
    for _ in 0..DRAWS {
        if let Some(header) = Header::new(drawn(rt)?, store, BASE) {
            return Ok(header);
        }
    }
    Err(Refusal::CannotMake)
}

/// A number that the system draws.
fn drawn(rt: &HostRuntime) -> Result<u64, Refusal> {
    let mut bytes = [0; 8];
    if rt.fill_bytes(&mut bytes).is_err() {
        return Err(Refusal::CannotMake);
    }
    Ok(u64::from_be_bytes(bytes))
}
