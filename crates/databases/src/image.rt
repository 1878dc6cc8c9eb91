//! The image of a table, tested by the marks that the manifest has of its files.
ghost use Rattle.std.specs.Prelude.{◌≡◌, false, IfErr, IfOk};
ghost use Rattle.manifest.specs.Manifest.{table_now};
ghost use Rattle.databases.specs.Restored.{IsImageFault, IsWhole, files_now};

use crate::fault::RestoreFault;
use crate::restoring::TableBytes;
use devices::{StoredImage, read_store};
use inputs::read_table;
use manifest::TableEntry;
use segments::{first_damaged, has_mark};
use std::alloc::Global;
use values::Schema;

/// The image that a table's files have, with the columns of its header.
///
/// # Errors
///
/// `DamagedHeader`, or `DamagedColumn` with the first column, where a file isn't as long as its mark says, or has another check; then
/// `Header` and `Columns` with the first fault of what they say.
pub(crate) fn whole_image(
    alloc: Global,
    table: &TableEntry<'_>,
    files: TableBytes<'_>,
) -> Result<(Schema, StoredImage), RestoreFault>
    ensures ok { IfOk result (λ found. IsWhole (table_now table.now) (files_now files.entry) found.0
        (record { generation = found.1.generation; table = found.1.table })) }
    ensures err { IfErr result (IsImageFault (table_now table.now) (files_now files.entry)) }
{
    if !has_mark(&table.header, files.header) {
        return Err(RestoreFault::DamagedHeader);
    }
    if let Some(col) = first_damaged(table.columns.as_slice(), files.columns) {
        return Err(RestoreFault::DamagedColumn(col));
    }
    let schema = match read_table(alloc, files.header) {
        Ok((schema, _)) => schema,
        Err(fault) => return Err(RestoreFault::Header(fault)),
    };
    match read_store(alloc, &schema, files.columns) {
        Ok(image) => Ok((schema, image)),
        Err(fault) => Err(RestoreFault::Columns(fault)),
    }
}
