//! A commit is logged: it is answered once it is safe.
ghost use Rattle.std.specs.Prelude.{◌≡◌, ℕ, ◌<◌, ◌≤◌, ◌^◌, ◌++◌, length, take, IfErr, OnErr, OnOk};
ghost use Rattle.journal.specs.Frame.{frame_bytes};
ghost use Rattle.journal.specs.Reading.{logged_in};
ghost use Rattle.logging.specs.Log.{IsGivenUp, with_safe};
ghost use Rattle.logging.specs.declared.fault.LogFault.TheVariants as log_fault;

use crate::device::{DeviceFault, JournalDevice};
use crate::fault::LogFault;
use journal::{Frame, write_frame};
use std::alloc::Global;
use std::marker::Model;

/// A journal that is written to a device, frame by frame or several frames at once.
#[derive(Drop)]
pub struct Appender<D: JournalDevice> {
    device: D,
    seed: u32,
    /// The bytes of the frame that is being logged. What stands here between two calls says nothing.
    buffer: Vec<u8>,
}

impl<D: JournalDevice> Model for Appender<D> {
    ghost use Rattle.logging.specs.Log.{Log};

    ghost Value = { Log };

    ghost view = { λ a. record
        { device = record { appended = D.appended a.device; safe = D.safe a.device; failures = D.faults a.device }; seed = a.seed } };
}

impl<D: JournalDevice> Appender<D> {
    /// Who appends frames of this seed to the device. Takes no memory.
    pub fn new(alloc: Global, device: D, seed: u32) -> Appender<D>
        ensures { result ≡ record
            { device = record { appended = D.appended device; safe = D.safe device; failures = D.faults device }; seed = seed } }
    {
        Appender {
            device,
            seed,
            buffer: Vec::new(alloc),
        }
    }

    /// How often the device has failed.
    pub fn failures(&self) -> u64
        ensures { result ≡ self.now.device.failures }
    {
        self.device.failures()
    }

    /// Logs one commit: its frame is appended, and then made safe. It is called only while the device has not failed. Takes memory
    /// for a frame that is longer than each one before it.
    ///
    /// # Errors
    ///
    /// `NoMemory` where a growth is refused: nothing is appended. `DeviceFailed` where the device took only a part of the frame, or
    /// can't say that it is safe.
    pub fn log(&mut self, frame: &Frame<'_>) -> Result<(), LogFault>
        requires sound { self.old.device.failures ≡ 0 }
        requires size { length frame.now.payload.now < 2 ^ 32 }
        ensures ok { OnOk result (self.new ≡ with_safe (frame_bytes self.old.seed (logged_in frame.now)) self.old) }
        ensures err { IfErr result (λ fault. IsGivenUp (frame_bytes self.old.seed (logged_in frame.now)) self.old fault self.new) }
    {
        self.buffer.clear();
        write_frame(self.seed, frame, &mut self.buffer)?;
        append_safely(&mut self.device, self.buffer.as_slice())?;
        Ok(())
    }

    /// Logs frames that are spelt already, all of them at once: they are appended together, and then made safe. It is called only
    /// while the device has not failed. Takes no memory of its own.
    ///
    /// # Errors
    ///
    /// `DeviceFailed` alone: the device took only a part of them, or can't say that they are safe.
    pub fn log_batch(&mut self, frames: &[u8]) -> Result<(), LogFault>
        requires sound { self.old.device.failures ≡ 0 }
        ensures ok { OnOk result (self.new ≡ with_safe frames.now self.old) }
        ensures err { IfErr result (λ fault. IsGivenUp frames.now self.old fault self.new) }
        ensures failed { IfErr result (λ fault. fault ≡ log_fault.DeviceFailed) }
    {
        match append_safely(&mut self.device, frames) {
            Ok(()) => Ok(()),
            Err(DeviceFault) => Err(LogFault::DeviceFailed),
        }
    }
}

/// Appends the bytes, and then makes them safe.
fn append_safely<D: JournalDevice>(device: &mut D, bytes: &[u8]) -> Result<(), DeviceFault>
    requires { D.faults device.old ≡ 0 }
    ensures whole { OnOk result (D.appended device.new ≡ D.appended device.old ++ bytes.now) }
    ensures safe { OnOk result (D.safe device.new ≡ length (D.appended device.new)) }
    ensures sound { OnOk result (D.faults device.new ≡ D.faults device.old) }
    ensures part { OnErr result ((n : ℕ) × (D.appended device.new ≡ D.appended device.old ++ take n bytes.now)) }
    ensures kept { OnErr result (D.safe device.old ≤ D.safe device.new) }
    ensures counted { OnErr result (D.faults device.old < D.faults device.new) }
{
    device.append(bytes)?;
    if device.sync().is_err() {
        return Err(DeviceFault);
    }
    Ok(())
}
