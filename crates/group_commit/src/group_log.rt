//! The log of a journal whose commits are written in batches: the device, and which commits on it are durable.
ghost use Rattle.std.specs.Prelude.{◌≡◌, ◌≢◌, ◌+◌, ◌<◌, ◌≤◌, ◌⊎◌, length, Err, IfErr, OnOk, [], nat_lt};
ghost use Rattle.group_commit.specs.Batch.{IsBatch};
ghost use Rattle.group_commit.specs.GroupLog.{GroupLogState, Holds, IsRefused};
ghost use Rattle.group_commit.specs.declared.fault.WriteFault.TheVariants as write_fault;
ghost use Rattle.logging.specs.Log.{with_safe};

use crate::fault::WriteFault;
use crate::history::{HistoryPrefix, JournalId};
use journal::a_journal_goes_on;
use logging::{Appender, JournalDevice, LogFault};
use std::marker::Model;
use std::sync::Wait;
use watermark::{Watermark, WatermarkReader, WatermarkWriter};

/// The log of a journal. The thread that holds its lock is the leader of a group commit: it writes the batch of all that wait, syncs
/// once, and acknowledges them.
#[derive(Drop)]
pub struct GroupLog<T: HistoryPrefix, D: JournalDevice, J: JournalId> {
    journal: Appender<D>,
    /// The commits that are written and durable.
    written: T,
    /// Those, and the batch during which the device failed.
    tried: T,
    /// The number of the newest commit that is written.
    number: u64,
    /// It never passes that number.
    writer: WatermarkWriter<J>,
}

/// What is left of a group log.
#[derive(Drop)]
pub struct GroupLogParts<T: HistoryPrefix, D: JournalDevice> {
    pub journal: Appender<D>,
    /// The commits that are written and durable.
    pub written: T,
    /// Those, and the batch during which the device failed.
    pub tried: T,
    /// The number of the newest commit that is written.
    pub number: u64,
}

impl<T: HistoryPrefix, D: JournalDevice, J: JournalId> Model for GroupLog<T, D, J> {
    ghost use Rattle.std.specs.Prelude.{◌≡◌, ◌+◌, ◌≤◌, length};
    ghost use Rattle.group_commit.specs.GroupLog.{GroupLogState, Holds};

    ghost Value = { GroupLogState };

    ghost view = { λ d. record { log = d.journal; written = T.payloads d.written; tried = T.payloads d.tried; watermark = d.writer } };

    ghost invariant = { λ d.
        Holds J.front J.base J.seed (record
        { log = d.journal; written = T.payloads d.written; tried = T.payloads d.tried; watermark = d.writer })
        × (d.number ≡ J.base + length (T.payloads d.written)) };
}

impl<T: HistoryPrefix, D: JournalDevice, J: JournalId> GroupLog<T, D, J> {
    /// A log over a device all of whose bytes are durable, and a history with no commit yet. Takes no memory.
    pub fn new(
        journal: Appender<D>,
        history: T,
        number: u64,
        writer: WatermarkWriter<J>,
    ) -> GroupLog<T, D, J>
        requires device { (journal.device.appended ≡ J.front) × (length J.front ≤ journal.device.safe) × (journal.seed ≡ J.seed) }
        requires none { T.payloads history ≡ [] }
        requires number { number ≡ J.base }
        requires writer { writer ≤ J.base }
        ensures { result ≡ record { log = journal; written = []; tried = []; watermark = writer } }
    {
        let tried = history.again();
        GroupLog {
            journal,
            written: history,
            tried,
            number,
            writer,
        }
    }

    /// Whether the device has failed. Nothing is written after that.
    pub fn has_failed(&self) -> bool
        ensures { result ≡ nat_lt 0 self.now.log.device.failures }
    {
        self.journal.failures() > 0
    }

    /// The number of the newest commit that is written.
    pub fn number(&self) -> u64
        ensures { result ≡ J.base + length self.now.written }
    {
        self.number
    }

    /// The commits that are written.
    pub fn written(&self) -> &T
        ensures { T.payloads result.now ≡ self.now.written }
    {
        &self.written
    }

    /// Appends a batch and syncs the device. It may not wait, so it always returns, and what the log holds during it is the law
    /// `a_batch_at_any_moment`. Takes no memory.
    ///
    /// # Errors
    ///
    /// `Failed` if the device had failed before, or the batch doesn't follow the last one: nothing is appended. `Unsure` if the device
    /// fails during this write. Nothing else is refused.
    pub fn write(&mut self, from: &T, to: T, number: u64, bytes: &[u8]) -> Result<(), WriteFault>
        requires batch { IsBatch J.seed J.base (T.payloads from.now) (T.payloads to) bytes.now }
        requires number { number ≡ J.base + length (T.payloads to) }
        ensures ok { OnOk result (self.new ≡ record self.old
            { log = with_safe bytes.now self.old.log; written = T.payloads to; tried = T.payloads to }) }
        ensures next { OnOk result (self.old.written ≡ T.payloads from.now) }
        ensures err { IfErr result (λ fault. IsRefused fault bytes.now (T.payloads to) self.old self.new) }
        ensures cause { result ≡ Err write_fault.Failed
            → (0 < self.old.log.device.failures) ⊎ (T.payloads from.now ≢ self.old.written) }
    {
        // Called for its clause.
        a_journal_goes_on();
        if self.has_failed() {
            return Err(WriteFault::Failed);
        }
        if !from.has_same_commits(&self.written) {
            return Err(WriteFault::Failed);
        }
        match self.journal.log_batch(bytes) {
            Ok(()) => {
                self.tried = to.again();
                self.written = to;
                self.number = number;
                Ok(())
            }
            Err(LogFault::DeviceFailed) => {
                self.tried = to;
                Err(WriteFault::Unsure)
            }
            // It takes no memory, so this isn't answered.
            Err(LogFault::NoMemory) => Err(WriteFault::Failed),
        }
    }

    /// Acknowledges all that is written: advances the watermark to the newest commit.
    pub fn advance<R: Wait>(&mut self, rt: &R, watermark: &Watermark<J>)
        ensures { self.new ≡ record self.old { watermark = J.base + length self.old.written } }
    {
        self.writer.advance(rt, watermark, self.number);
    }

    /// A reader that has loaded the watermark.
    pub fn reader(&mut self, watermark: &Watermark<J>) -> WatermarkReader<J>
        ensures reader { result ≡ self.old.watermark }
        ensures same { self.new ≡ self.old }
    {
        self.writer.reader(watermark)
    }

    /// Takes a reader back, and shows that the commits up to its number are written.
    pub fn retire<R: Wait>(&mut self, rt: &R, watermark: &Watermark<J>, reader: WatermarkReader<J>)
        ensures below { reader ≤ J.base + length self.old.written }
        ensures same { self.new ≡ self.old }
    {
        self.writer.retire(rt, watermark, reader);
    }

    /// The journal, and the commits that are written to it.
    pub fn into_parts(self) -> GroupLogParts<T, D>
        ensures holds { Holds J.front J.base J.seed (record
            { log = result.journal; written = T.payloads result.written; tried = T.payloads result.tried; watermark = self.watermark }) }
        ensures log { result.journal ≡ self.log }
        ensures written { T.payloads result.written ≡ self.written }
        ensures tried { T.payloads result.tried ≡ self.tried }
        ensures number { result.number ≡ J.base + length (T.payloads result.written) }
    {
        let GroupLog {
            journal,
            written,
            tried,
            number,
            writer: _writer,
        } = self;
        GroupLogParts {
            journal,
            written,
            tried,
            number,
        }
    }
}
