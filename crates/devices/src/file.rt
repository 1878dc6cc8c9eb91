//! A device over a file.
ghost use Rattle.std.specs.Prelude.{◌≡◌, ℕ, ◌<◌, ◌≤◌, ◌++◌, [], length, take, IfOk, OnOk, OnErr};
ghost use Rattle.std.specs.Io.KnownBytes.{Appends};
ghost use Rattle.std.specs.Vec.{vec_len, vec_capacity};

use crate::device::{ColumnDevice, DeviceFault, ended};
use std::alloc::Global;
use std::fs::File;
use std::io::Write;
use std::marker::Model;
use values::NoMemory;

/// A column in a new file. Its contents are what it handed to the file, of which it keeps a copy; that the file holds
/// the same is a premise. A piece is taken once the system says that it is on the device.
pub struct FileColumn {
    file: File,
    /// There is room for one byte more while nothing has failed.
    contents: Vec<u8>,
    failures: u64,
}

impl Model for FileColumn {
    ghost use Rattle.devices.specs.Device.{Device, HasRoom};

    ghost Value = { Device };

    ghost view = { λ f. record { contents = f.contents.items; failures = f.failures } };

    ghost invariant = { λ f. HasRoom f.contents f.failures };
}

impl FileColumn {
    /// A column in this file, which is new: the device begins with no bytes, and keeps its copy in memory from `alloc`.
    ///
    /// # Errors
    ///
    /// `NoMemory` where a growth is refused.
    pub fn new(alloc: Global, file: File) -> Result<FileColumn, NoMemory>
        ensures { IfOk result (λ column. column ≡ record { contents = []; failures = 0 }) }
    {
        let mut contents = Vec::new(alloc);
        contents.reserve(1)?;
        Ok(FileColumn {
            file,
            contents,
            failures: 0,
        })
    }
}

impl ColumnDevice for FileColumn {
    ghost contents = { λ f. f.contents };

    ghost failures = { λ f. f.failures };

    fn append(&mut self, piece: &[u8]) -> Result<(), DeviceFault> {
        let FileColumn {
            file,
            contents,
            failures,
        } = self;
        let taken = hand_over_safely(file, contents, piece);
        if taken.is_err() {
            *failures = 1;
        }
        taken
    }

    fn failures(&self) -> u64 {
        self.failures
    }
}

impl Drop for FileColumn {
    fn drop(self) {
        let FileColumn {
            mut file,
            contents,
            failures,
        } = self;
        let written = contents.len();
        let all = ended(contents, failures);
        if written < all.len() {
            write_front(&mut file, &all[written..]);
        }
    }
}

/// Hands the piece to the file, keeps a copy of what it took, and asks that this is on the device: so it is there after a loss of
/// power too.
fn hand_over_safely(
    file: &mut File,
    contents: &mut Vec<u8>,
    piece: &[u8],
) -> Result<(), DeviceFault>
    ensures whole { OnOk result (contents.new.items ≡ contents.old.items ++ piece.now) }
    ensures room { OnOk result (vec_len contents.new < vec_capacity contents.new) }
    ensures part { OnErr result ((n : ℕ) × (contents.new.items ≡ contents.old.items ++ take n piece.now)) }
{
    hand_over(file, contents, piece)?;
    if file.sync_data().is_err() {
        return Err(DeviceFault);
    }
    Ok(())
}

/// Hands the piece to the file, and keeps a copy of what the file took and room for one byte more. Room for the copy comes first:
/// what the file has taken is kept whatever comes.
fn hand_over<W: Write>(
    file: &mut W,
    contents: &mut Vec<u8>,
    piece: &[u8],
) -> Result<(), DeviceFault>
    ensures whole { OnOk result (contents.new.items ≡ contents.old.items ++ piece.now) }
    ensures room { OnOk result (vec_len contents.new < vec_capacity contents.new) }
    ensures handed { OnOk result (Appends (W.contents file.old) (W.contents file.new) piece.now) }

    // What the copy lacks the file has not taken either.
    ensures part { OnErr result ((n : ℕ)
        × (contents.new.items ≡ contents.old.items ++ take n piece.now)
        × Appends (W.contents file.old) (W.contents file.new) (take n piece.now)) }
{
    contents.reserve(piece.len() + 1)?;
    let count = write_front(file, piece);
    contents.extend_from_slice(&piece[..count])?;
    if count < piece.len() {
        return Err(DeviceFault);
    }
    Ok(())
}

/// Writes the bytes, up to the first fault of the file, and answers how many it took.
fn write_front<W: Write>(file: &mut W, bytes: &[u8]) -> usize
    ensures within { result ≤ length bytes.now }
    ensures taken { Appends (W.contents file.old) (W.contents file.new) (take result bytes.now) }
{
    let mut at = 0;
    while at < bytes.len() {
        match file.write(&bytes[at..]) {
            Ok(0) => return at,
            Ok(count) => at += count,
            Err(_) => return at,
        }
    }
    at
}
