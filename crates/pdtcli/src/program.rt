//! What the program does with the bytes of its files: it reads them, runs the script over the table, and shows what the
//! run leaves; or it reads a store, and shows the image that it has.
ghost use Rattle.std.specs.Prelude.{◌≡◌, false, IfErr, IfOk};
ghost use Rattle.std.specs.Io.KnownBytes.{Appends};
ghost use Rattle.devices.specs.Appending.{taken_by};
ghost use Rattle.pdtcli.specs.Output.{exit_status, shown};
ghost use Rattle.pdtcli.specs.Program.{bytes_of, status_of, HasScript, HasTable, IsOpening, IsRefusalOf, IsRunFrom, IsRunOnThreads, IsRunRefusal, IsScriptRefusal, IsTableRefusal, IsThreadsRefusal};
ghost use Rattle.pdtcli.specs.Refusals.{is_output};

use crate::clients::run_clients;
use crate::gate::OpenGate;
use crate::outcome::Outcome;
use crate::output::show;
use crate::refusal::Refusal;
use crate::serial::run_serial;
use devices::{ColumnDevice, Store};
use inputs::{Script, ScriptFault, TableFault, load_table, read_script};
use manager::Manager;
use model::ConflictRule;
use shared::ImageStore;
use stable::StableTable;
use std::alloc::Global;
use std::io::Write;
use std::sync::Wait;
use std::thread::Threads;
use values::Schema;

/// What a table is opened with.
#[derive(Clone, Copy, Debug, PartialEq, Eq)]
pub struct OpenOptions {
    /// How many commits may come between a transaction's begin and its commit, 1 to 65,536.
    pub recent: usize,
    /// The most rows that a table may have, 1 to 2,147,483,647.
    pub limit: u64,
    /// Which modifies of one row conflict.
    pub conflicts: ConflictRule,
}

/// The status where an input is refused, or the output.
const REFUSED: u8 = 1;

/// Why a file's bytes aren't there.
#[derive(Clone, Copy, Debug, PartialEq, Eq)]
pub enum FileFault {
    /// The file can't be read.
    Unreadable,
    /// A growth was refused while it was read.
    NoMemory,
}

/// A table that is opened, and the script that runs over it.
#[derive(Drop)]
pub struct Opened {
    /// The manager of the table.
    pub manager: Manager,
    /// The script, read under the table's schema.
    pub script: Script,
}

impl Opened {
    /// The columns of the table, which a store has to have too.
    pub fn schema(&self) -> &Schema
        ensures { result.now ≡ self.now.manager.schema }
    {
        self.manager.newest().schema()
    }
}

/// Reads a table and a script, each given as the bytes of its file or as why they aren't there, and opens the table.
///
/// # Errors
///
/// The first part that is refused: the table, the script, and the opening of the table.
pub fn open_texts(
    alloc: Global,
    table: Result<&[u8], FileFault>,
    script: Result<&[u8], FileFault>,
    options: OpenOptions,
) -> Result<Opened, Refusal>
    ensures opened { IfOk result (λ opened. IsOpening (bytes_of table.entry) (bytes_of script.entry) options opened.manager opened.script) }
    ensures schema { IfOk result (λ opened. opened.script.schema ≡ opened.manager.schema) }
    ensures refused { IfErr result (IsRefusalOf (bytes_of table.entry) (bytes_of script.entry) options) }
{
    let stable = table_of(alloc, table)?;
    let script = script_of(alloc, stable.schema(), script)?;
    let OpenOptions {
        recent,
        limit,
        conflicts,
    } = options;
    let manager = Manager::open(alloc, stable, recent, limit, conflicts)?;
    Ok(Opened { manager, script })
}

/// Runs the script over the table, with its checkpoints to the store, and writes what the run leaves. Answers the program's
/// exit status, and what was written.
///
/// # Errors
///
/// `Run` where the run has no room for its replies: nothing is written then. `Output` where the output is refused, after
/// some of it may have gone out.
pub fn run_opened<W: Write>(
    alloc: Global,
    opened: Opened,
    store: Store,
    out: &mut W,
) -> Result<(u8, Outcome<Store>), Refusal>
    requires script { opened.script.schema ≡ opened.manager.schema }
    requires store { store.schema ≡ opened.manager.schema }
    ensures shown { let taken = taken_by (λ b. (ColumnDevice-dyn (b.vtable, b.value)).contents b.value)
        (λ b. (ColumnDevice-dyn (b.vtable, b.value)).failures b.value) in
        IfOk result (λ ran. IsRunFrom opened.manager opened.script (taken store.devices.items store.next) ran.1.left
        × Appends (W.contents out.old) (W.contents out.new) (shown ran.1.left)
        × (ran.0 ≡ exit_status ran.1.left.lines)) }
    ensures refused { let taken = taken_by (λ b. (ColumnDevice-dyn (b.vtable, b.value)).contents b.value)
        (λ b. (ColumnDevice-dyn (b.vtable, b.value)).failures b.value) in
        IfErr result (IsRunRefusal opened.manager opened.script (taken store.devices.items store.next)) }
    ensures silent { IfErr result (λ refusal. is_output refusal ≡ false → out.new ≡ out.old) }
{
    let Opened { manager, script } = opened;
    let outcome = match run_serial(alloc, manager, store, script) {
        Ok(outcome) => outcome,
        Err(fault) => return Err(Refusal::Run(fault)),
    };
    let status = show(alloc, &outcome.left, out)?;
    Ok((status, outcome))
}

/// As `run_opened`, with each client's calls on a thread of its own. The reply lines are grouped by client.
///
/// # Errors
///
/// `Threads` where the sessions aren't opened, no thread could be made for a client, or room for the run is refused:
/// nothing is written then. `Output` where the output is refused, after some of it may have gone out.
pub fn run_opened_on_threads<S: ImageStore + Send, W: Write, R: Threads + Wait + Sync>(
    rt: &R,
    alloc: Global,
    opened: Opened,
    store: S,
    out: &mut W,
) -> Result<(u8, Outcome<S>), Refusal>
    requires script { opened.script.schema ≡ opened.manager.schema }
    requires store { S.columns store ≡ opened.manager.schema }
    ensures shown { IfOk result (λ ran. IsRunOnThreads opened.manager opened.script ran.1.left
        × Appends (W.contents out.old) (W.contents out.new) (shown ran.1.left)
        × (ran.0 ≡ exit_status ran.1.left.lines)) }
    ensures refused { IfErr result (IsThreadsRefusal opened.manager opened.script) }
    ensures silent { IfErr result (λ refusal. is_output refusal ≡ false → out.new ≡ out.old) }
{
    let Opened { manager, script } = opened;
    let outcome = run_clients(rt, alloc, manager, store, &script, &OpenGate)?;
    let status = show(alloc, &outcome.left, out)?;
    Ok((status, outcome))
}

/// The status that the program ends with, by what a run or a recovery answers: its own, or 1 where a part was refused.
pub fn status_of(answer: &Result<u8, Refusal>) -> u8
    ensures { result ≡ status_of answer.now }
{
    match answer {
        Ok(status) => *status,
        Err(_) => REFUSED,
    }
}

/// The table of these bytes.
fn table_of(alloc: Global, given: Result<&[u8], FileFault>) -> Result<StableTable, Refusal>
    ensures ok { IfOk result (HasTable (bytes_of given.entry)) }
    ensures refused { IfErr result (IsTableRefusal (bytes_of given.entry)) }
    ensures input { IfErr result (λ refusal. is_output refusal ≡ false) }
{
    let text = match given {
        Ok(text) => text,
        Err(FileFault::Unreadable) => return Err(Refusal::UnreadableTable),
        Err(FileFault::NoMemory) => return Err(Refusal::Table(TableFault::NoMemory)),
    };
    Ok(load_table(alloc, text)?)
}

/// The script of these bytes, over a table of the schema.
fn script_of(
    alloc: Global,
    schema: &Schema,
    given: Result<&[u8], FileFault>,
) -> Result<Script, Refusal>
    ensures ok { IfOk result (λ script. HasScript schema.now (bytes_of given.entry) script.clients script.calls) }
    ensures under { IfOk result (λ script. script.schema ≡ schema.now) }
    ensures refused { IfErr result (IsScriptRefusal schema.now (bytes_of given.entry)) }
    ensures input { IfErr result (λ refusal. is_output refusal ≡ false) }
{
    let text = match given {
        Ok(text) => text,
        Err(FileFault::Unreadable) => return Err(Refusal::UnreadableScript),
        Err(FileFault::NoMemory) => return Err(Refusal::Script(ScriptFault::NoMemory)),
    };
    Ok(read_script(alloc, schema, text)?)
}
