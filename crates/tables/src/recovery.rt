//! A table of a database, recovered from the bytes of its files and shown.
ghost use Rattle.std.specs.Prelude.{◌≡◌, false, List, IfErr, IfOk, option_map};
ghost use Rattle.std.specs.Io.KnownBytes.{Appends};
ghost use Rattle.databases.specs.Restored.{files_now};
ghost use Rattle.manager.specs.Managed.{newest_table};
ghost use Rattle.model.specs.Table.{rows_of};
ghost use Rattle.pdtcli.specs.Output.{image_text};
ghost use Rattle.pdtcli.specs.Refusals.{is_output};
ghost use Rattle.values.specs.Shape.{Columns};
ghost use Rattle.values.specs.declared.row.Row.{Row};
ghost use Rattle.tables.specs.Recovery.{IsLost, IsRecovered, refusal_of};

use crate::meaning::meant_table;
use databases::{RestoreFault, Restored, TableBytes, restore_table};
use pdtcli::{Refusal, StoreFault, show_image};
use std::alloc::Global;
use std::io::Write;

/// The status of a recovery that is written whole.
const RECOVERED: u8 = 0;

/// Writes a table of a database, as a table is written: its image, and the commits since then made again, up to the last whole frame
/// of the journal. Answers the program's exit status. It changes nothing that is stored, so that it can be made again.
///
/// # Errors
///
/// `DamagedManifest`, `NoTable`, `NotNamed` as `wanted_files` says them; then the first of these: `OtherStore` where a file of the
/// journal is another database's, `BadManifest` where the manifest's salt makes no seed, or no journal begins after its commit,
/// `DamagedHeader`, `DamagedColumn` with the first file of the image that hasn't its mark, `Header` and `Columns` with the first
/// fault of what these say, `Commits` where the journal's commits aren't made again. `Store` where a growth is refused. Nothing is
/// written then. `Output` where the output is refused, after some of it may have gone out.
pub fn recover_table<W: Write>(
    alloc: Global,
    text: &[u8],
    name: Option<&str>,
    files: TableBytes<'_>,
    out: &mut W,
) -> Result<u8, Refusal>
    // Whatever the bytes are, and wherever a crash fell.
    ensures shown { IfOk result (λ status. (schema : Columns) × (rows : List Row)
        × IsRecovered text.now (option_map (λ n. n.now) name.entry) (files_now files.entry) schema rows
        × Appends (W.contents out.old) (W.contents out.new) (image_text schema rows)
        × (status ≡ 0)) }
    ensures refused { IfErr result (IsLost text.now (option_map (λ n. n.now) name.entry) (files_now files.entry)) }
    ensures silent { IfErr result (λ refusal. is_output refusal ≡ false → out.new ≡ out.old) }
{
    let restored = match restored_table(alloc, text, name, files) {
        Ok(restored) => restored,
        Err(refusal) => return Err(refusal),
    };
    match show_image(alloc, &restored.schema, &restored.manager.newest(), out) {
        Ok(()) => Ok(RECOVERED),
        Err(fault) => Err(Refusal::Output(fault)),
    }
}

/// The table that is meant, restored.
///
/// # Errors
///
/// Those of `recover_table` but the output's.
fn restored_table(
    alloc: Global,
    text: &[u8],
    name: Option<&str>,
    files: TableBytes<'_>,
) -> Result<Restored, Refusal>
    ensures ok { IfOk result (λ r. IsRecovered text.now (option_map (λ n. n.now) name.entry) (files_now files.entry) r.schema
        (rows_of (newest_table r.manager))) }
    ensures err { IfErr result (IsLost text.now (option_map (λ n. n.now) name.entry) (files_now files.entry)) }
    ensures silent { IfErr result (λ refusal. is_output refusal ≡ false) }
{
    let meant = match meant_table(alloc, text, name) {
        Ok(meant) => meant,
        Err(refusal) => return Err(refusal),
    };
    match restore_table(alloc, &meant.head, &meant.table, files) {
        Ok(restored) => Ok(restored),
        Err(fault) => Err(refusal_of(fault)),
    }
}

/// The refusal of a table that isn't restored.
fn refusal_of(fault: RestoreFault) -> Refusal
    ensures { result ≡ refusal_of fault }
{
    match fault {
        RestoreFault::OtherStore => Refusal::OtherStore,
        RestoreFault::BadManifest => Refusal::BadManifest,
        RestoreFault::DamagedHeader => Refusal::DamagedHeader,
        RestoreFault::DamagedColumn(col) => Refusal::DamagedColumn(col),
        RestoreFault::Header(fault) => Refusal::Header(fault),
        RestoreFault::Columns(fault) => Refusal::Columns(fault),
        RestoreFault::Commits(fault) => Refusal::Commits(fault),
        RestoreFault::NoMemory => Refusal::Store(StoreFault::NoMemory),
    }
}
