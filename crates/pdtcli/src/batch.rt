//! Records on their way out. Text is made of a thousand before it is handed on, so that the memory that it takes does not grow
//! with what is shown.
ghost use Rattle.std.specs.Prelude.{◌≡◌, ◌++◌, [], ℕ, List, IfOk, OnOk};
ghost use Rattle.std.specs.Io.KnownBytes.{Appends};
ghost use Rattle.inputs.specs.Reading.{Fields};
ghost use Rattle.pdtcli.specs.Records.{HasGone, IsUnderway, IsWritten, record_text};

use crate::output::ShowFault;
use crate::records::Records;
use std::alloc::Global;
use std::io::Write;
use values::NoMemory;

/// How many records are made text before it is handed on: many, since each text's writer begins with 8 KB of zeros.
const RECORDS_AT_ONCE: usize = 1_024;

/// The records that are written and not handed on yet, and how many are taken before they are.
#[derive(Drop)]
pub(crate) struct Batch {
    pub(crate) records: Records,
    left: usize,
}

impl Batch {
    /// No record.
    ///
    /// # Errors
    ///
    /// `NoMemory` where room for the writer is refused.
    pub(crate) fn new(alloc: Global) -> Result<Batch, NoMemory>
        ensures { IfOk result (λ batch. IsWritten batch.records []) }
    {
        Batch::after(Vec::new(alloc))
    }

    /// No record yet, after this text.
    fn after(text: Vec<u8>) -> Result<Batch, NoMemory>
        ensures { IfOk result (λ batch. IsWritten batch.records text.items) }
    {
        let records = Records::after(text)?;
        Ok(Batch {
            records,
            left: RECORDS_AT_ONCE,
        })
    }

    /// Ends the record that is under way, and hands all on where they are enough.
    ///
    /// # Errors
    ///
    /// `Write` where the writer refuses, `NoMemory` where a growth is refused.
    pub(crate) fn end_record<W: Write>(mut self, out: &mut W) -> Result<Batch, ShowFault>
        ensures { IfOk result (λ next. (text : List ℕ) (fields : Fields) → IsUnderway self.records text fields
            → HasGone (W.contents out.old) (W.contents out.new) next.records (text ++ record_text fields)) }
    {
        self.records.end_record()?;
        if self.left > 1 {
            self.left -= 1;
            return Ok(self);
        }
        let mut text = self.records.into_text()?;
        send(&mut text, out)?;
        Ok(Batch::after(text)?)
    }

    /// Hands on what is left.
    ///
    /// # Errors
    ///
    /// Those of `end_record`.
    pub(crate) fn finish<W: Write>(self, out: &mut W) -> Result<(), ShowFault>
        ensures { OnOk result ((text : List ℕ) → IsWritten self.records text
            → Appends (W.contents out.old) (W.contents out.new) text) }
    {
        let mut text = self.records.into_text()?;
        send(&mut text, out)
    }
}

/// Hands the text on, and leaves the vector empty.
pub(crate) fn send<W: Write>(text: &mut Vec<u8>, out: &mut W) -> Result<(), ShowFault>
    ensures bytes { OnOk result (Appends (W.contents out.old) (W.contents out.new) text.old.items) }
    ensures empty { text.new.items ≡ [] }
{
    let sent = out.write_all(text.as_slice());
    text.clear();
    match sent {
        Ok(()) => Ok(()),
        Err(_) => Err(ShowFault::Write),
    }
}
