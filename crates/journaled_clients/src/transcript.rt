//! What clients on threads write their reply lines to: one writer, under a lock.
ghost use Rattle.std.specs.Prelude.{◌≡◌, ◌≤◌, ◌∷◌, [], IfOk, List, None, OnOk, false};
ghost use Rattle.std.specs.Io.KnownBytes.{Appends};
ghost use Rattle.pdtcli.specs.Output.{exit_status, lines_text};
ghost use Rattle.pdtcli.specs.declared.reply.ReplyLine.{ReplyLine as Line};
ghost use Rattle.journaled_clients.specs.Transcripts.{IsReported, AreReported};

use durable_sessions::DurableOpening;
use pdtcli::{ReplyLine, ShowFault, is_refused, show_reply};
use std::alloc::Global;
use std::io::Write;
use std::marker::{Brand, Model};
use values::Text;
use watermark::WatermarkReader;

/// Names a transcript: the clients, and the bytes that its writer had before the first line.
pub trait TranscriptId: DurableOpening {
    ghost use Rattle.std.specs.Prelude.{ℕ, List, Option};

    ghost names: { List (List ℕ) };

    ghost before: { Option (List ℕ) };
}

impl TranscriptId for Brand {
    ghost use Rattle.std.specs.Prelude.{[], None};

    ghost names = { [] };

    ghost before = { None };
}

/// A writer that has whole reply lines behind what it had before. Each is the reply to a call of a session, and the commits that they report
/// are below the watermark. After a failure it takes no line any more.
#[derive(Drop)]
pub(crate) struct Transcript<O: TranscriptId, W: Write> {
    out: W,
    /// It has loaded a watermark that no commit of the lines is above.
    reader: WatermarkReader<O>,
    /// Whether some line is one of refusal.
    refused: bool,
    fault: Option<ShowFault>,
}

/// What a transcript comes to.
#[derive(Drop)]
pub(crate) struct Written<O: TranscriptId, W: Write> {
    pub(crate) out: W,
    pub(crate) reader: WatermarkReader<O>,
    /// The exit status that the lines are due.
    pub(crate) status: u8,
}

impl<O: TranscriptId, W: Write> Model for Transcript<O, W> {
    ghost use Rattle.journaled_clients.specs.Transcripts.{IsTranscript, Transcribed};

    ghost Value = { Transcribed };

    ghost view = { λ t. record { bytes = W.contents t.out; safe = t.reader; refused = t.refused; fault = t.fault } };

    ghost invariant = { λ t. IsTranscript O.opened.manager O.names O.before
        (record { bytes = W.contents t.out; safe = t.reader; refused = t.refused; fault = t.fault }) };
}

impl<O: TranscriptId, W: Write> Transcript<O, W> {
    /// A transcript with no lines.
    pub(crate) fn new(out: W, reader: WatermarkReader<O>) -> Transcript<O, W>
        requires { W.contents out ≡ O.before }
        ensures { result ≡ record { bytes = O.before; safe = reader; refused = false; fault = None } }
    {
        Transcript {
            out,
            reader,
            refused: false,
            fault: None,
        }
    }

    /// Writes a reply line whole. The reader has loaded the number of the commit that it reports.
    ///
    /// # Errors
    ///
    /// Those of `show_reply`, then and from then on.
    pub(crate) fn write(
        &mut self,
        alloc: Global,
        names: &[Text],
        line: &ReplyLine,
        reader: WatermarkReader<O>,
    ) -> Result<(), ShowFault>
        requires names { names.now ≡ O.names }
        requires reported { IsReported O.opened.manager reader line.now }
        ensures written { OnOk result (Appends self.old.bytes self.new.bytes (lines_text names.now (line.now ∷ []))) }
        ensures covered { OnOk result (reader ≤ self.new.safe) }
        ensures later { self.old.safe ≤ self.new.safe }
    {
        if let Some(fault) = self.fault {
            return Err(fault);
        }
        if reader.number() > self.reader.number() {
            self.reader = reader;
        }
        match show_reply(alloc, names, line, &mut self.out) {
            Ok(()) => {
                self.refused |= is_refused(line);
                Ok(())
            }
            Err(fault) => {
                self.fault = Some(fault);
                Err(fault)
            }
        }
    }
}

impl<O: TranscriptId, W: Write + Drop> Transcript<O, W> {
    /// The writer with its lines, and the reader.
    ///
    /// # Errors
    ///
    /// The fault over which a line isn't whole.
    pub(crate) fn into_written(self) -> Result<Written<O, W>, ShowFault>
        ensures { IfOk result (λ written. (lines : List Line)
            × Appends O.before (W.contents written.out) (lines_text O.names lines)
            × AreReported O.opened.manager written.reader lines
            × (written.status ≡ exit_status lines)) }
    {
        let Transcript {
            out,
            reader,
            refused,
            fault,
        } = self;
        match fault {
            Some(fault) => Err(fault),
            None => Ok(Written {
                out,
                reader,
                status: u8::from(refused),
            }),
        }
    }
}
