//! One client's thread: its calls, in their order. Each reply line is written before the next call.
ghost use Rattle.std.specs.Prelude.{◌≡◌, All, IsTrue, List, OnOk};
ghost use Rattle.inputs.specs.Typed.{is_typed_call};
ghost use Rattle.pdtcli.specs.declared.reply.ReplyLine.{ReplyLine as Line};
ghost use Rattle.journaled_clients.specs.Clients.{DurableServed, HasMadeDurably};
ghost use Rattle.journaled_clients.specs.Transcripts.{IsReported};

use crate::seat::serve;
use crate::transcript::{Transcript, TranscriptId};
use durable_sessions::{DurableSession, DurableShared};
use inputs::ClientCall;
use logging::JournalDevice;
use pdtcli::{ReplyLine, ShowFault, verb_of_call};
use shared::ImageStore;
use std::alloc::Global;
use std::io::Write;
use std::sync::{Mutex, MutexGuard, Wait};
use values::Text;
use watermark::WatermarkReader;

/// What comes back of a client's thread: the session, and why a line isn't written, where one isn't. The calls end there.
pub(crate) type ClientRun<O> = (DurableSession<O>, Result<(), ShowFault>);

/// Writes a line to the transcript, under its lock.
fn write_line<O: TranscriptId, W: Write, R: Wait>(
    rt: &R,
    alloc: Global,
    transcript: &Mutex<Transcript<O, W>>,
    names: &[Text],
    line: &ReplyLine,
    reader: WatermarkReader<O>,
) -> Result<(), ShowFault>
    requires names { names.now ≡ O.names }
    requires reported { IsReported O.opened.manager reader line.now }
{
    let mut held = transcript.lock(rt);
    let outcome = held.write(alloc, names, line, reader);
    MutexGuard::unlock(held);
    outcome
}

/// Makes a call of the client, and writes the line of its reply.
fn answer<O: TranscriptId, S: ImageStore, D: JournalDevice, W: Write, R: Wait>(
    rt: &R,
    alloc: Global,
    shared: &DurableShared<O, S, D>,
    transcript: &Mutex<Transcript<O, W>>,
    names: &[Text],
    client: &mut DurableSession<O>,
    asked: &ClientCall,
) -> Result<(), ShowFault>
    requires names { names.now ≡ O.names }
    requires typed { IsTrue (is_typed_call O.opened.manager.schema asked.now.call) }
    ensures served { (line : Line) × DurableServed O.opened.manager client.old.session asked.now line client.new.session }
{
    let reply = serve(rt, alloc, shared, client, &asked.call);
    let line = ReplyLine {
        client: asked.client,
        verb: verb_of_call(&asked.call),
        reply,
    };
    let reader = shared.reader(client);
    write_line(rt, alloc, transcript, names, &line, reader)
}

/// Makes those of the calls that are the client's, in their order. It ends at the first line that isn't written.
pub(crate) fn run_client<O: TranscriptId, S: ImageStore, D: JournalDevice, W: Write, R: Wait>(
    rt: &R,
    alloc: Global,
    shared: &DurableShared<O, S, D>,
    transcript: &Mutex<Transcript<O, W>>,
    names: &[Text],
    calls: &[ClientCall],
    mut client: DurableSession<O>,
) -> ClientRun<O>
    requires names { names.now ≡ O.names }
    requires typed { All (λ asked. IsTrue (is_typed_call O.opened.manager.schema asked.call)) calls.now }
    ensures { OnOk result.1 ((lines : List Line) × HasMadeDurably O.opened.manager client.session calls.now lines result.0.session) }
{
    let number = client.session.client();
    for asked in calls {
        if asked.client == number {
            if let Err(fault) = answer(rt, alloc, shared, transcript, names, &mut client, asked) {
                return (client, Err(fault));
            }
        }
    }
    (client, Ok(()))
}
