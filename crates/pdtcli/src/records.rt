//! Records as the crate `csv` writes them, one field at a time after a text.
//!
//! A field goes into the writer as soon as it is made: no record is held beside its text.
ghost use Rattle.std.specs.Prelude.{◌≡◌, ◌++◌, ◌∷◌, [], ℕ, List, OnOk, IfOk};
ghost use Rattle.inputs.specs.Reading.{Fields};
ghost use Rattle.pdtcli.specs.Records.{IsUnderway, IsWritten, TakesFields, record_text};

use csv::{Writer, WriterBuilder};
use std::marker::Model;
use values::NoMemory;

/// Records of any length, after a text. Their writer has 8 KB of the text in its value: it is in a box, and only the
/// functions that make it, end it and let it go have it on their stack.
pub(crate) struct Records {
    writer: Box<Writer<Vec<u8>>>,
}

impl Model for Records {
    ghost use Rattle.std.specs.Prelude.{ℕ, Vec};
    ghost use Rattle.std.specs.declared.alloc.Global.{Global};
    ghost use Rattle.csv.specs.declared.writer.Writer.{Writer};

    ghost Value = { Writer (Vec ℕ Global) };

    ghost view = { λ r. r.writer.value };
}

// By hand, since what lets a writer go has it on its stack.
impl Drop for Records {
    #[inline(never)]
    fn drop(self) {
        let Records { writer: _writer } = self;
    }
}

impl Records {
    /// What goes on after the text, at a record's start.
    ///
    /// # Errors
    ///
    /// `NoMemory` where room for the writer is refused.
    #[inline(never)]
    pub(crate) fn after(text: Vec<u8>) -> Result<Records, NoMemory>
        ensures { IfOk result (λ records. IsWritten records text.items) }
    {
        let alloc = *text.allocator();
        let writer = WriterBuilder::new().flexible(true).from_writer(text);
        Ok(Records {
            writer: Box::new(alloc, writer)?,
        })
    }

    /// Adds a field to the record that is under way. The crate's own function is inlined here, in one place.
    #[inline(never)]
    pub(crate) fn push_field(&mut self, field: &[u8]) -> Result<(), NoMemory>
        ensures { OnOk result (TakesFields self.old self.new (field.now ∷ [])) }
    {
        match self.writer.as_mut().write_field(field) {
            Ok(()) => Ok(()),
            Err(_) => Err(NoMemory),
        }
    }

    /// Ends the record that is under way.
    pub(crate) fn end_record(&mut self) -> Result<(), NoMemory>
        ensures { OnOk result ((text : List ℕ) → (fields : Fields)
            → IsUnderway self.old text fields → IsWritten self.new (text ++ record_text fields)) }
    {
        match self.writer.as_mut().end_record() {
            Ok(()) => Ok(()),
            Err(_) => Err(NoMemory),
        }
    }

    /// What was written.
    ///
    /// # Errors
    ///
    /// `NoMemory` where the text's growth is refused.
    #[inline(never)]
    pub(crate) fn into_text(self) -> Result<Vec<u8>, NoMemory>
        ensures { IfOk result (λ text. (written : List ℕ) → IsWritten self written → text.items ≡ written) }
    {
        let Records { writer } = self;
        match Box::into_inner(writer).into_inner() {
            Ok(text) => Ok(text),
            Err(_) => Err(NoMemory),
        }
    }
}
