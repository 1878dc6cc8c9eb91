//! What the program does with the bytes of a store's files: it reads the columns' header, and shows the image that they store.
ghost use Rattle.std.specs.Prelude.{◌≡◌, false, map, IfErr, IfOk};
ghost use Rattle.std.specs.Io.KnownBytes.{Appends};
ghost use Rattle.devices.specs.Stored.{Image};
ghost use Rattle.pdtcli.specs.Output.{image_text};
ghost use Rattle.pdtcli.specs.Program.{bytes_of};
ghost use Rattle.pdtcli.specs.Recovery.{HasHeader, IsHeaderRefusal, IsStored, IsRecoveryRefusal};
ghost use Rattle.pdtcli.specs.Refusals.{is_output};

use crate::output::show_store;
use crate::program::FileFault;
use crate::refusal::Refusal;
use devices::read_store;
use inputs::{TableFault, read_table};
use std::alloc::Global;
use std::io::Write;
use values::Schema;

/// The status of a recovery that is written whole.
const RECOVERED: u8 = 0;

/// The columns of a store, by its header, which is given as the bytes of its file or as why they aren't there. Rows after
/// the header are read too, and passed over.
///
/// # Errors
///
/// `UnreadableStore` where the file can't be read, and `Header` with the first fault of its text as a table's.
pub fn read_header(alloc: Global, header: Result<&[u8], FileFault>) -> Result<Schema, Refusal>
    ensures ok { IfOk result (HasHeader (bytes_of header.entry)) }
    ensures refused { IfErr result (IsHeaderRefusal (bytes_of header.entry)) }
{
    let text = match header {
        Ok(text) => text,
        Err(FileFault::Unreadable) => return Err(Refusal::UnreadableStore),
        Err(FileFault::NoMemory) => return Err(Refusal::Header(TableFault::NoMemory)),
    };
    match read_table(alloc, text) {
        Ok((schema, _)) => Ok(schema),
        Err(fault) => Err(Refusal::Header(fault)),
    }
}

/// Writes the image that columns store under a schema, as a table is written, and answers the program's exit status.
///
/// # Errors
///
/// `Columns` with the first fault of the columns: nothing is written then. `Output` where the output is refused, after some
/// of it may have gone out.
pub fn recover<W: Write>(
    alloc: Global,
    schema: &Schema,
    columns: &[&[u8]],
    out: &mut W,
) -> Result<u8, Refusal>
    ensures shown { IfOk result (λ status. (image : Image)
        × IsStored schema.now (map (λ c. c.now) columns.now) image
        × Appends (W.contents out.old) (W.contents out.new) (image_text schema.now image.table.rows)
        × (status ≡ 0)) }
    ensures refused { IfErr result (IsRecoveryRefusal schema.now (map (λ c. c.now) columns.now)) }
    ensures silent { IfErr result (λ refusal. is_output refusal ≡ false → out.new ≡ out.old) }
{
    let image = read_store(alloc, schema, columns)?;
    show_store(alloc, schema, &image, out)?;
    Ok(RECOVERED)
}
