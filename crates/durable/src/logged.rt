//! What is logged of a commit.
ghost use Rattle.std.specs.Prelude.{◌≡◌, ◌≢◌, ◌<◌, ◌^◌, suc, length, IfErr, IsTrue, OnErr, OnOk};
ghost use Rattle.journal.specs.Frame.{frame_bytes};
ghost use Rattle.journal.specs.Reading.{logged_in};
ghost use Rattle.logging.specs.Log.{with_safe};
ghost use Rattle.manager.specs.Managed.{IsOwn, is_too_old, newest_number};
ghost use Rattle.manager.specs.Prepared.{IsPrepared};
ghost use Rattle.durable.specs.Durable.{IsLong, IsReadAgain, IsReadable, IsUnlogged, log_with, logged_of, over};

use crate::fault::CommitFault;
use crate::spelling::spell_prepared;
use journal::Frame;
use logging::{Appender, JournalDevice, LogFault};
use manager::{Manager, Prepared};
use txn::Txn;

/// Appends a frame and makes it safe.
fn append<D: JournalDevice>(journal: &mut Appender<D>, frame: &Frame<'_>) -> Result<(), CommitFault>
    requires sound { journal.old.device.failures ≡ 0 }
    requires size { length frame.now.payload.now < 2 ^ 32 }
    ensures ok { OnOk result (journal.new ≡ with_safe (frame_bytes journal.old.seed (logged_in frame.now)) journal.old) }
    ensures err { IfErr result (λ fault. IsUnlogged fault (frame_bytes journal.old.seed (logged_in frame.now)) journal.old journal.new) }
    ensures short { IfErr result (λ fault. fault ≢ CommitFault.TooLong) }
{
    match journal.log(frame) {
        Ok(()) => Ok(()),
        Err(LogFault::NoMemory) => Err(CommitFault::NoMemory),
        Err(LogFault::DeviceFailed) => Err(CommitFault::Unsure),
    }
}

/// Logs what was prepared for the commit of a transaction, where it is committed, with all commits before it as safe. The payload is
/// made in the room that is lent.
///
/// # Errors
///
/// `TooLong` where the payload would have 2^32 bytes or more, `NoMemory` where a growth is refused: nothing is logged. `Unsure` where
/// the device fails over it.
pub(crate) fn log_prepared<D: JournalDevice>(
    journal: &mut Appender<D>,
    payload: &mut Vec<u8>,
    table: u32,
    manager: &Manager,
    txn: &Txn,
    prepared: &Prepared,
) -> Result<(), CommitFault>
    requires sound { journal.old.device.failures ≡ 0 }
    requires own { IsOwn manager.now txn.now }
    requires prepared { IsPrepared manager.now txn.now prepared.now }
    ensures ok { OnOk result (journal.new ≡ log_with (over manager.now journal.old table) txn.now prepared.now.reply) }
    ensures again { OnOk result (IsReadAgain (over manager.now journal.old table) txn.now prepared.now.reply) }
    ensures err { IfErr result (λ fault. IsUnlogged fault (frame_bytes journal.old.seed
        (logged_of (over manager.now journal.old table) txn.now (suc (newest_number manager.now)))) journal.old journal.new) }
    ensures unsure { IfErr result (λ fault. fault ≡ CommitFault.Unsure → IsReadable (over manager.now journal.old table) txn.now) }
    ensures long { IfErr result (λ fault. fault ≡ CommitFault.TooLong
        → IsLong (logged_of (over manager.now journal.old table) txn.now (suc (newest_number manager.now)))) }
    ensures granted { OnErr result (IsTrue (is_too_old manager.now txn.now) → ⊥) }
{
    let Some(number) = spell_prepared(payload, table, manager, txn, prepared)? else {
        return Ok(());
    };
    let frame = Frame {
        number,
        synced: number - 1,
        payload: payload.as_slice(),
    };
    append(journal, &frame)
}
