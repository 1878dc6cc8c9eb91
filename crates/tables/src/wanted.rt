//! The files that a table's recovery wants.
ghost use Rattle.std.specs.Prelude.{IfErr, IfOk, map, option_map};
ghost use Rattle.tables.specs.Meant.{IsUnwanted, IsWanted};

use crate::meaning::meant_table;
use pdtcli::Refusal;
use segments::last_file;
use std::alloc::Global;

/// The files that a table's recovery wants, by their numbers.
#[derive(Clone, Copy, Debug, PartialEq, Eq)]
pub struct WantedFiles {
    /// The number of the table.
    pub table: u32,
    /// That of its image's folder.
    pub folder: u64,
    /// How many columns the image has.
    pub width: usize,
    /// The number of the journal's first file.
    pub first: u64,
    /// That of its last one. All between them are there.
    pub last: u64,
}

/// The files that the recovery of a table wants, by the text of its database's manifest and the names in the folder.
///
/// # Errors
///
/// `DamagedManifest` where the text is the spelling of no manifest; `NoTable` where no table has the name, `NotNamed` where none is
/// named, and there isn't one alone; `MissingJournal` with the first file of the journal that isn't there, where the manifest names
/// it or a later one is there; `Store` where a growth is refused.
pub fn wanted_files(
    alloc: Global,
    text: &[u8],
    name: Option<&str>,
    names: &[&str],
) -> Result<WantedFiles, Refusal>
    ensures ok { IfOk result (IsWanted text.now (option_map (λ n. n.now) name.entry) (map (λ n. n.now) names.now)) }
    ensures err { IfErr result (IsUnwanted text.now (option_map (λ n. n.now) name.entry) (map (λ n. n.now) names.now)) }
{
    let meant = match meant_table(alloc, text, name) {
        Ok(meant) => meant,
        Err(refusal) => return Err(refusal),
    };
    let first = meant.head.first_file;
    match last_file(first, names) {
        Ok(last) => Ok(WantedFiles {
            table: meant.table.line.number,
            folder: meant.table.line.folder,
            width: meant.table.columns.len(),
            first,
            last,
        }),
        Err(missing) => Err(Refusal::MissingJournal(missing.number)),
    }
}
