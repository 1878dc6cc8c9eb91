//! The table that is meant, by the text of its database's manifest.
ghost use Rattle.std.specs.Prelude.{◌≡◌, IfErr, IfOk, option_map};
ghost use Rattle.manifest.specs.Manifest.{table_now};
ghost use Rattle.tables.specs.Meant.{IsMeant, IsUnmeant};

use manifest::{ManifestFault, ManifestHead, TableEntry, read_manifest};
use pdtcli::{Refusal, StoreFault};
use segments::{NameFault, table_named};
use std::alloc::Global;

/// A table that is meant, with what the manifest says of its database.
#[derive(Drop)]
pub(crate) struct Meant<'a> {
    pub(crate) head: ManifestHead,
    pub(crate) table: TableEntry<'a>,
}

/// The table that is meant: the first of the name, or the one table, where none is named.
///
/// # Errors
///
/// `DamagedManifest` where the text is the spelling of no manifest; `NoTable` where no table has the name, `NotNamed` where none is
/// named, and there isn't one alone; `Store` where a growth is refused.
pub(crate) fn meant_table<'a>(
    alloc: Global,
    text: &'a [u8],
    name: Option<&str>,
) -> Result<Meant<'a>, Refusal>
    ensures ok { IfOk result (λ meant. IsMeant text.entry.now (option_map (λ n. n.now) name.entry) meant.head (table_now meant.table)) }
    ensures err { IfErr result (IsUnmeant text.entry.now (option_map (λ n. n.now) name.entry)) }
{
    let mut manifest = match read_manifest(alloc, text) {
        Ok(manifest) => manifest,
        Err(ManifestFault::Damaged) => return Err(Refusal::DamagedManifest),
        Err(ManifestFault::NoMemory) => return Err(Refusal::Store(StoreFault::NoMemory)),
    };
    match table_named(manifest.tables.as_slice(), name) {
        Ok(at) => {
            let table = manifest.tables.swap_remove(at);
            Ok(Meant {
                head: manifest.head,
                table,
            })
        }
        Err(NameFault::NoTable) => Err(Refusal::NoTable),
        Err(NameFault::NotNamed) => Err(Refusal::NotNamed),
    }
}
