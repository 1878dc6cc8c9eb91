//! Drawn events over a disk in memory. At drawn moments a crash leaves some disk, whose files are read again.
use crate::bytes::{bytes_of, frame_of};
use crate::draws::Draws;
use crate::medium::{File, Medium, Name, drawn_up_to};
use journal::{Ending, Header, read_frames, read_header};
use journal_steps::{Lane, Step, Steps, seal};
use std::alloc::Global;
use std::test::Fail;

const LIVES: u64 = 60;

const EVENTS: u64 = 150;

/// The file that a journal begins with, and the commit before its first frame.
const FIRST: u64 = 3;

const BASE: u64 = 6;

/// What was met over all lives, so that no kind of crash is left out.
#[derive(Drop)]
struct Met {
    torn: u64,
    sync_beside_append: u64,
    several_files: u64,
    removed: u64,
    after_failure: u64,
}

/// The step under way of the next file.
#[derive(Clone, Copy)]
enum NextFile {
    Idle,
    Creating,
    SyncingNames,
}

/// A journal's steps, and the disk that they are performed on.
#[derive(Drop)]
struct Life {
    seed: u32,
    steps: Steps,
    medium: Medium,
    /// The oldest file that is counted on.
    first: u64,
    added: u64,
    taken: u64,
    /// The file of the append under way, and how long it was before.
    appending: Option<(u64, usize)>,
    /// The file of the sync under way, and how many bytes were surely there when it began.
    syncing: Option<(u64, usize)>,
    next_file: NextFile,
}

/// The payload of a commit.
fn payload_of(alloc: Global, number: u64) -> Result<Vec<u8>, Fail> {
    let mut payload = Vec::new(alloc);
    for place in 0..number % 7 {
        payload.push((number.wrapping_add(place) % 251) as u8)?;
    }
    Ok(payload)
}

/// A new journal.
fn new_life(alloc: Global) -> Result<Option<Life>, Fail> {
    let Some(header) = Header::new(0x0102_0304_0506_0708, 9, BASE) else {
        return Ok(None);
    };
    let Some(steps) = Steps::new(alloc, &header, BASE, FIRST, FIRST) else {
        return Ok(None);
    };
    let mut files = Vec::new(alloc);
    files.push(File::new(alloc, FIRST, Name::Durable))?;
    Ok(Some(Life {
        seed: header.seed(),
        steps,
        medium: Medium { files },
        first: FIRST,
        added: BASE,
        taken: BASE,
        appending: None,
        syncing: None,
        next_file: NextFile::Idle,
    }))
}

impl Life {
    /// What is due in a lane begins.
    fn begin(&mut self, alloc: Global, lane: Lane) -> Result<(), Fail> {
        match self.steps.next(alloc, lane) {
            None => {}
            Some(Step::Append(batch)) => {
                let seq = batch.file();
                let bytes = bytes_of(alloc, &seal(batch))?;
                let taken = self.taken;
                if let Some(file) = self.medium.file(seq) {
                    let at = file.bytes.len();
                    if at == 0 {
                        file.base = taken;
                    }
                    file.bytes.extend_from_slice(bytes.as_slice())?;
                    self.appending = Some((seq, at));
                }
                self.taken = self.added;
            }
            Some(Step::Sync(seq)) => {
                let there = match self.appending {
                    Some((_, at)) => at,
                    None => self.medium.length(seq),
                };
                self.syncing = Some((seq, there));
            }
            Some(Step::Create(seq)) => {
                self.medium.create(alloc, seq)?;
                self.next_file = NextFile::Creating;
            }
            Some(Step::SyncNames) => self.next_file = NextFile::SyncingNames,
        }
        Ok(())
    }

    /// What is under way in a lane is done.
    fn done(&mut self, lane: Lane) {
        match lane {
            Lane::Append => {
                if self.appending.is_none() {
                    return;
                }
                self.appending = None;
            }
            Lane::Sync => {
                let Some((seq, there)) = self.syncing else {
                    return;
                };
                self.syncing = None;
                if let Some(file) = self.medium.file(seq) {
                    file.synced(there);
                }
            }
            Lane::Next => match self.next_file {
                NextFile::Idle => return,
                NextFile::Creating => self.next_file = NextFile::Idle,
                NextFile::SyncingNames => {
                    self.next_file = NextFile::Idle;
                    self.medium.sync_names();
                }
            },
        }
        self.steps.done(lane);
    }

    /// What is under way in a lane has failed.
    fn fail(&mut self, lane: Lane, draws: &mut Draws) {
        match lane {
            Lane::Append => {
                let Some((seq, at)) = self.appending else {
                    return;
                };
                self.appending = None;
                if let Some(file) = self.medium.file(seq) {
                    let more = file.bytes.len().saturating_sub(at) as u64;
                    file.fail_append(at, drawn_up_to(draws, more));
                }
            }
            Lane::Sync => {
                let Some((seq, _)) = self.syncing else {
                    return;
                };
                self.syncing = None;
                if let Some(file) = self.medium.file(seq) {
                    file.sound = false;
                }
            }
            Lane::Next => self.next_file = NextFile::Idle,
        }
        self.steps.failed(lane);
    }

    /// A commit is added.
    fn add(&mut self, alloc: Global) -> Result<bool, Fail> {
        let number = self.added.wrapping_add(1);
        let payload = payload_of(alloc, number)?;
        let added = self.steps.add(frame_of(alloc, payload.as_slice())?) == Ok(number);
        self.added = number;
        Ok(added)
    }

    /// The newest commit is taken back, where it waits.
    fn withdraw(&mut self) {
        self.steps.withdraw();
        self.added = self.added.saturating_sub(1).max(self.taken);
    }

    /// An event that is drawn.
    fn happen(&mut self, alloc: Global, draws: &mut Draws) -> Result<bool, Fail> {
        let lane = match draws.below(3) {
            0 => Lane::Append,
            1 => Lane::Sync,
            _ => Lane::Next,
        };
        match draws.below(40) {
            0..=9 => return self.add(alloc),
            10..=22 => self.begin(alloc, lane)?,
            23..=35 => self.done(lane),
            36 => self.steps.want_next(),
            37 => self.withdraw(),
            38 => {
                match draws.below(12) {
                    0 => self.steps.stop(),
                    1..=3 => self.fail(lane, draws),
                    _ => self.steps.want_next(),
                }
            }
            _ => {
                if let Some(seq) = self.steps.remove_oldest() {
                    if let Some(file) = self.medium.file(seq) {
                        file.name = Name::Absent;
                    }
                    self.first = seq.wrapping_add(1);
                }
            }
        }
        Ok(true)
    }

    /// The commit before the first frame of the oldest file.
    fn base(&mut self) -> u64 {
        let (first, taken) = (self.first, self.taken);
        match self.medium.file(first) {
            Some(file) if !file.bytes.is_empty() => file.base,
            _ => taken,
        }
    }

    /// The frames in the files that a crash leaves, and whether each header that is read is that of its file.
    fn frames_left(&self, alloc: Global, draws: &mut Draws) -> Result<(Vec<u8>, bool), Fail> {
        let mut frames = Vec::new(alloc);
        let mut is_right = true;
        for file in &self.medium.files {
            if file.seq < self.first {
                continue;
            }
            if file.name == Name::Absent || (file.name == Name::Pending && draws.below(2) == 0) {
                break;
            }
            let bytes = file.left(alloc, draws)?;
            match read_header(bytes.as_slice()) {
                Ok((header, rest)) => {
                    is_right = is_right && header.base() == file.base;
                    frames.extend_from_slice(rest)?;
                }
                Err(_) => {
                    is_right = is_right && file.durable == 0;
                    frames.extend_from_slice(bytes.as_slice())?;
                }
            }
        }
        Ok((frames, is_right))
    }

    /// Whether the files after a crash read as the first commits, the durable ones among them.
    fn survives(&mut self, alloc: Global, draws: &mut Draws, met: &mut Met) -> Result<bool, Fail> {
        let base = self.base();
        let (bytes, is_right) = self.frames_left(alloc, draws)?;
        let reading = read_frames(alloc, self.seed, base.wrapping_add(1), bytes.as_slice())?;
        let newest = base.wrapping_add(reading.frames.len() as u64);
        let mut same = is_right && self.steps.durable() <= newest && newest <= self.taken;
        for frame in &reading.frames {
            let payload = payload_of(alloc, frame.number)?;
            same = same && frame.payload == payload.as_slice() && frame.synced < frame.number;
        }
        if reading.ending == Ending::Torn {
            met.torn = met.torn.wrapping_add(1);
        }
        self.count(met);
        Ok(same && (reading.ending == Ending::End || reading.ending == Ending::Torn))
    }

    /// What this moment shows.
    fn count(&self, met: &mut Met) {
        if self.appending.is_some() && self.syncing.is_some() {
            met.sync_beside_append = met.sync_beside_append.wrapping_add(1);
        }
        if self.medium.files.len() > 2 {
            met.several_files = met.several_files.wrapping_add(1);
        }
        if self.first > FIRST {
            met.removed = met.removed.wrapping_add(1);
        }
        if self.steps.is_broken() {
            met.after_failure = met.after_failure.wrapping_add(1);
        }
    }
}

/// Whether each crash of a life leaves the commits that are durable.
fn is_safe(alloc: Global, seed: u64, met: &mut Met) -> Result<bool, Fail> {
    let mut draws = Draws::new(seed);
    let Some(mut life) = new_life(alloc)? else {
        return Ok(false);
    };
    for _ in 0..EVENTS {
        if !life.happen(alloc, &mut draws)? {
            return Ok(false);
        }
        if draws.below(4) == 0 && !life.survives(alloc, &mut draws, met)? {
            return Ok(false);
        }
    }
    Ok(true)
}

#[test]
fn each_crash_leaves_the_durable_commits(rt: HostRuntime) -> Result<(), Fail> {
    let mut met = Met {
        torn: 0,
        sync_beside_append: 0,
        several_files: 0,
        removed: 0,
        after_failure: 0,
    };
    for seed in 0..LIVES {
        let safe = is_safe(rt.alloc(), seed, &mut met)?;
        assert!(&rt; safe, "life {seed}");
    }
    assert!(&rt; met.torn > 0 && met.sync_beside_append > 0 && met.several_files > 0);
    assert!(&rt; met.removed > 0 && met.after_failure > 0);
    Ok(())
}
