//! A disk in memory, as the definitions of crate `disk` have it: what a sync made durable stays, and of the rest a crash leaves anything.
use crate::draws::Draws;
use std::alloc::Global;
use std::test::Fail;

/// Whether a crash leaves a name.
#[derive(Clone, Copy, PartialEq, Eq)]
pub enum Name {
    Absent,
    Pending,
    Durable,
}

/// A file of a journal.
#[derive(Drop)]
pub struct File {
    pub seq: u64,
    pub name: Name,
    pub bytes: Vec<u8>,
    pub durable: usize,
    /// Whether each write and each sync of it has succeeded.
    pub sound: bool,
    /// The commit before its first frame, once it has one.
    pub base: u64,
}

/// The files of a journal, by their numbers.
#[derive(Drop)]
pub struct Medium {
    pub files: Vec<File>,
}

impl File {
    /// An empty file.
    pub(crate) fn new(alloc: Global, seq: u64, name: Name) -> File {
        File {
            seq,
            name,
            bytes: Vec::new(alloc),
            durable: 0,
            sound: true,
            base: 0,
        }
    }

    /// A write has failed that began behind so many bytes: some beginning of it is there.
    pub(crate) fn fail_append(&mut self, at: usize, taken: usize) {
        self.bytes.truncate(at.wrapping_add(taken));
        self.durable = self.durable.min(self.bytes.len());
        self.sound = false;
    }

    /// A sync is done that began when so many bytes were there.
    pub(crate) fn synced(&mut self, upto: usize) {
        if self.sound {
            self.durable = self.durable.max(upto.min(self.bytes.len()));
        }
    }

    /// The bytes that a crash leaves: the durable ones, maybe more, and maybe others.
    pub(crate) fn left(&self, alloc: Global, draws: &mut Draws) -> Result<Vec<u8>, Fail> {
        let pending = self.bytes.len().saturating_sub(self.durable) as u64;
        let size = self.durable.wrapping_add(drawn_up_to(draws, pending));
        let others = drawn_up_to(draws, self.bytes.len().saturating_sub(size) as u64);
        let mut left = Vec::new(alloc);
        left.extend_from_slice(self.bytes.as_slice())?;
        left.truncate(size);
        let is_zero = draws.below(2) == 0;
        for _ in 0..others {
            left.push(if is_zero { 0 } else { draws.below(256) as u8 })?;
        }
        Ok(left)
    }
}

/// A number that is at most this one: one of the two ends half of the time.
pub(crate) fn drawn_up_to(draws: &mut Draws, most: u64) -> usize {
    match draws.below(4) {
        0 => 0,
        1 => most as usize,
        _ => draws.below(most.saturating_add(1)) as usize,
    }
}

impl Medium {
    /// The file of a number.
    pub(crate) fn file(&mut self, seq: u64) -> Option<&mut File> {
        let mut place = self.files.len();
        for at in 0..self.files.len() {
            if self.files[at].seq == seq {
                place = at;
            }
        }
        self.files.get_mut(place)
    }

    /// How many bytes the file of a number has.
    pub(crate) fn length(&mut self, seq: u64) -> usize {
        match self.file(seq) {
            Some(file) => file.bytes.len(),
            None => 0,
        }
    }

    /// A file is made, in place of an empty one that has the name.
    pub(crate) fn create(&mut self, alloc: Global, seq: u64) -> Result<(), Fail> {
        if self.file(seq).is_some() {
            return Ok(());
        }
        self.files.push(File::new(alloc, seq, Name::Pending))?;
        Ok(())
    }

    /// A sync of the folder is done.
    pub(crate) fn sync_names(&mut self) {
        for file in &mut self.files {
            if file.name == Name::Pending {
                file.name = Name::Durable;
            }
        }
    }
}
