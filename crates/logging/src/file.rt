//! A journal in a file.
ghost use Rattle.std.specs.Prelude.{◌≡◌, ℕ, ◌≤◌, ◌++◌, length, take, OnOk, OnErr};
ghost use Rattle.std.specs.Io.KnownBytes.{Appends};

use crate::device::{DeviceFault, JournalDevice};
use crate::handed::Handed;
use std::fs::File;
use std::io::Write;
use std::marker::Model;

/// A journal in a file, of which it keeps no copy. What it has appended is what it handed to the file, and what is safe is what
/// it had handed over when the system last answered that the file's data is on its device. That the file holds the same, and that
/// the system says the truth, are premises.
#[derive(Drop)]
pub struct FileJournal {
    file: File,
    /// What the file was handed. It takes no bytes.
    handed: Handed,
    failures: u64,
}

impl Model for FileJournal {
    ghost use Rattle.logging.specs.Device.{Device};

    ghost Value = { Device };

    ghost view = { λ f. record { appended = f.handed.bytes; safe = f.handed.safe; failures = f.failures } };
}

impl FileJournal {
    /// A journal in this file, which is written at its end. The file holds these bytes, and all of them are safe: that is so where
    /// they were read from it and it was synced since. Takes no memory.
    pub fn new(file: File, bytes: &[u8]) -> FileJournal
        ensures { result ≡ record { appended = bytes.now; safe = length bytes.now; failures = 0 } }
    {
        FileJournal {
            file,
            handed: Handed::all(bytes),
            failures: 0,
        }
    }
}

impl JournalDevice for FileJournal {
    ghost appended = { λ f. f.appended };

    ghost safe = { λ f. f.safe };

    ghost faults = { λ f. f.failures };

    fn append(&mut self, piece: &[u8]) -> Result<(), DeviceFault> {
        let FileJournal {
            file,
            handed,
            failures,
        } = self;
        let taken = hand_over(file, handed, piece);
        if taken.is_err() {
            *failures = 1;
        }
        taken
    }

    fn sync(&mut self) -> Result<(), DeviceFault> {
        if self.file.sync_data().is_err() {
            self.failures = 1;
            return Err(DeviceFault);
        }
        self.handed = self.handed.synced();
        Ok(())
    }

    fn failures(&self) -> u64 {
        self.failures
    }
}

/// Hands the piece to the file, and notes what the file took.
fn hand_over<W: Write>(file: &mut W, handed: &mut Handed, piece: &[u8]) -> Result<(), DeviceFault>
    ensures whole { OnOk result (handed.new.bytes ≡ handed.old.bytes ++ piece.now) }
    ensures handed { OnOk result (Appends (W.contents file.old) (W.contents file.new) piece.now) }

    // What is noted is what the file has taken.
    ensures part { OnErr result ((n : ℕ)
        × (handed.new.bytes ≡ handed.old.bytes ++ take n piece.now)
        × Appends (W.contents file.old) (W.contents file.new) (take n piece.now)) }
    ensures kept { handed.new.safe ≡ handed.old.safe }
{
    let count = write_front(file, piece);
    *handed = handed.and(&piece[..count]);
    if count < piece.len() {
        return Err(DeviceFault);
    }
    Ok(())
}

/// Writes the bytes, up to the first fault of the file, and answers how many it took.
fn write_front<W: Write>(file: &mut W, bytes: &[u8]) -> usize
    ensures within { result ≤ length bytes.now }
    ensures taken { Appends (W.contents file.old) (W.contents file.new) (take result bytes.now) }
{
    let mut at = 0;
    while at < bytes.len() {
        match file.write(&bytes[at..]) {
            Ok(0) => return at,
            Ok(count) => at += count,
            Err(_) => return at,
        }
    }
    at
}
