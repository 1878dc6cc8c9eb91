//! A run of a script over a journaled store. Each reply is written as soon as it is given, so that who reads it may rely on it.
ghost use Rattle.std.specs.Prelude.{◌≡◌, ◌∷◌, [], cond, false, List, IfErr, IfOk, IfSome, IsTrue};
ghost use Rattle.std.specs.Io.KnownBytes.{Appends};
ghost use Rattle.devices.specs.Appending.{taken_by};
ghost use Rattle.inputs.specs.Typed.{is_typed_call};
ghost use Rattle.manager.specs.Managed.{IsOwn};
ghost use Rattle.pdtcli.specs.Output.{exit_status, is_refused, lines_text};
ghost use Rattle.pdtcli.specs.Refusals.{is_output};
ghost use Rattle.pdtcli.specs.Run.{line_of};
ghost use Rattle.pdtcli.specs.declared.reply.Reply.{Reply};
ghost use Rattle.pdtcli.specs.declared.reply.ReplyLine.{ReplyLine as Line};
ghost use Rattle.journaled.specs.Run.{IsRunFrom, IsRunRefusal, run_text};
ghost use Rattle.journaled.specs.Journaled.{IsServed, journaled_over};

use crate::fault::image_refusal;
use crate::journaled::{Journaled, Journals};
use devices::{ColumnDevice, Store};
use inputs::ClientCall;
use logging::JournalDevice;
use pdtcli::{
    CallQueue, Caller, Opened, Refusal, ReplyLine, ShowFault, is_refused, new_callers, show_newest,
    show_reply, verb_of_call,
};
use std::alloc::Global;
use std::io::Write;
use values::Text;

/// What a run leaves.
#[derive(Drop)]
pub struct JournaledRun<D: JournalDevice> {
    /// The manager and its journals.
    pub journaled: Journaled<D>,
    /// The store, as the checkpoints of the run left it.
    pub store: Store,
}

/// Runs the script over the table, with a journal of its commits and its checkpoints to the store, whose next image has the
/// generation `next`. The table is stored first, as the store's image; then each call's reply is written before the next call is
/// made, and at the end the newest image. A commit that is replied Committed is safe in the journal. Answers the program's exit
/// status, as `show`, and what the run leaves. Transactions that are open at the end are ended without a line.
///
/// # Errors
///
/// `Run` where the run has no room for its clients, `Store` or `JournalFailed` where the table isn't stored: nothing is written then.
/// `Output` where the output is refused: the run ends there, and the commits that were replied Committed are safe.
pub fn run_journaled<D: JournalDevice, W: Write>(
    alloc: Global,
    opened: Opened,
    journals: Journals<D>,
    store: Store,
    next: u32,
    out: &mut W,
) -> Result<(u8, JournaledRun<D>), Refusal>
    requires script { opened.script.schema ≡ opened.manager.schema }
    requires store { store.schema ≡ opened.manager.schema }
    requires next { store.next ≡ next }
    ensures ran { let taken = taken_by (λ b. (ColumnDevice-dyn (b.vtable, b.value)).contents b.value)
        (λ b. (ColumnDevice-dyn (b.vtable, b.value)).failures b.value) in
        IfOk result (λ ran. (lines : List Line)
        × IsRunFrom (journaled_over opened.manager journals.commits journals.images next) opened.script
        (taken store.devices.items store.next)
        lines ran.1.journaled (taken ran.1.store.devices.items ran.1.store.next)
        × Appends (W.contents out.old) (W.contents out.new) (run_text opened.script.clients lines ran.1.journaled.durable.manager)
        × (ran.0 ≡ exit_status lines)) }
    ensures refused { let taken = taken_by (λ b. (ColumnDevice-dyn (b.vtable, b.value)).contents b.value)
        (λ b. (ColumnDevice-dyn (b.vtable, b.value)).failures b.value) in
        IfErr result (IsRunRefusal (journaled_over opened.manager journals.commits journals.images next)
        (taken store.devices.items store.next)) }
    ensures silent { IfErr result (λ refusal. is_output refusal ≡ false → out.new ≡ out.old) }
{
    let Opened { manager, script } = opened;
    let mut store = store;
    let (names, calls) = script.into_parts();
    let mut callers = match new_callers(alloc, names.len()) {
        Ok(callers) => callers,
        Err(fault) => return Err(Refusal::Run(fault)),
    };
    let mut journaled = Journaled::new(alloc, manager, journals, next);
    if let Err(fault) = journaled.store_image(&mut store) {
        return Err(image_refusal(fault));
    }
    let mut left = CallQueue::of(calls);
    let mut refused = false;
    while let Some(asked) = left.next() {
        let caller = &mut callers[asked.client as usize];
        let told = answer(
            alloc,
            &mut journaled,
            caller,
            asked,
            &mut store,
            names.as_slice(),
            out,
        )?;
        refused |= told;
    }
    show_newest(alloc, &journaled.manager().newest(), out)?;
    Ok((status_of(refused), JournaledRun { journaled, store }))
}

/// Makes a call of a client, and writes the reply. Answers whether it is one of refusal.
fn answer<D: JournalDevice, W: Write>(
    alloc: Global,
    journaled: &mut Journaled<D>,
    caller: &mut Caller,
    asked: ClientCall,
    store: &mut Store,
    names: &[Text],
    out: &mut W,
) -> Result<bool, ShowFault>
    requires own { IfSome caller.old (IsOwn journaled.old.durable.manager) }
    requires typed { IfSome caller.old (λ txn. IsTrue (is_typed_call txn.schema asked.call)) }
    requires schema { store.old.schema ≡ journaled.old.durable.manager.schema }
    requires next { journaled.old.next ≡ store.old.next }
    ensures told { let taken = taken_by (λ b. (ColumnDevice-dyn (b.vtable, b.value)).contents b.value)
        (λ b. (ColumnDevice-dyn (b.vtable, b.value)).failures b.value) in
        IfOk result (λ refused. (reply : Reply) × IsServed asked.client asked.call
        (record { journaled = journaled.old; own = caller.old; store = taken store.old.devices.items store.old.next }) reply
        (record { journaled = journaled.new; own = caller.new; store = taken store.new.devices.items store.new.next })
        × Appends (W.contents out.old) (W.contents out.new) (lines_text names.now (line_of asked reply ∷ []))
        × (refused ≡ is_refused (line_of asked reply))) }
    ensures schema { store.new.schema ≡ store.old.schema }
    ensures next { journaled.new.next ≡ store.new.next }
{
    let client = asked.client;
    let verb = verb_of_call(&asked.call);
    let reply = journaled.serve(alloc, caller, asked, store);
    let line = ReplyLine {
        client,
        verb,
        reply,
    };
    show_reply(alloc, names, &line, out)?;
    Ok(is_refused(&line))
}

/// The status of a run, by whether some reply was refused.
fn status_of(refused: bool) -> u8
    ensures { result ≡ cond refused 1 0 }
{
    if refused { 1 } else { 0 }
}
