//! The files of a database, as far as the recovery of a table wants them.
use crate::files::{bytes_of_all, column_path, header_path, stored_bytes};
use pdtcli::{Refusal, StoreFault};
use std::alloc::Global;
use std::{fs, io};
use tables::WantedFiles;

/// What was read of the files of a table.
#[derive(Drop)]
pub(crate) struct ReadFiles {
    pub(crate) header: io::Result<Vec<u8>>,
    columns: Vec<io::Result<Vec<u8>>>,
    journal: Vec<io::Result<Vec<u8>>>,
}

/// The bytes of a table's files.
#[derive(Drop)]
pub(crate) struct LentFiles<'a> {
    pub(crate) header: &'a [u8],
    pub(crate) columns: Vec<&'a [u8]>,
    pub(crate) journal: Vec<&'a [u8]>,
}

/// The file of a database's manifest in a folder.
pub(crate) fn manifest_path(alloc: Global, dir: &str) -> Result<String, Refusal> {
    Ok(format!(in alloc; "{dir}/manifest")?)
}

/// The names in a folder. One that isn't UTF-8 is none of a database's, and is passed over.
pub(crate) fn names_in(rt: &HostRuntime, dir: &str) -> Result<Vec<String>, Refusal> {
    let alloc = rt.alloc();
    let mut names = Vec::new(alloc);
    let entries = match fs::read_dir(rt, dir) {
        Ok(entries) => entries,
        Err(fault) => return Err(folder_refusal(&fault)),
    };
    for entry in entries {
        match entry {
            Ok(entry) => names.push(String::from_str(alloc, entry.file_name())?)?,
            Err(fault) if fault.kind() == io::ErrorKind::InvalidFilename => {}
            Err(fault) => return Err(folder_refusal(&fault)),
        }
    }
    Ok(names)
}

/// The refusal of a folder whose names can't be read.
fn folder_refusal(fault: &io::Error) -> Refusal {
    if fault.kind() == io::ErrorKind::OutOfMemory {
        Refusal::Store(StoreFault::NoMemory)
    } else {
        Refusal::UnreadableStore
    }
}

/// Reads the files that are wanted in a database's folder, as far as they can be read.
pub(crate) fn read_files(
    rt: &HostRuntime,
    dir: &str,
    wanted: &WantedFiles,
) -> Result<ReadFiles, Refusal> {
    let alloc = rt.alloc();
    let image = format!(in alloc; "{dir}/image-{}-{}", wanted.table, wanted.folder)?;
    let header = fs::read(rt, header_path(alloc, image.as_str())?.as_str());
    let mut columns = Vec::new(alloc);
    for col in 0..wanted.width {
        columns.push(fs::read(rt, column_path(alloc, image.as_str(), col)?.as_str()))?;
    }
    let mut journal = Vec::new(alloc);
    for file in wanted.first..=wanted.last {
        let path = format!(in alloc; "{dir}/journal-{file}")?;
        journal.push(fs::read(rt, path.as_str()))?;
    }
    Ok(ReadFiles {
        header,
        columns,
        journal,
    })
}

/// The bytes of files that were read, or the refusal of the first that can't be.
pub(crate) fn lent_files(alloc: Global, files: &ReadFiles) -> Result<LentFiles<'_>, Refusal> {
    Ok(LentFiles {
        header: stored_bytes(&files.header)?,
        columns: bytes_of_all(alloc, files.columns.as_slice())?,
        journal: bytes_of_all(alloc, files.journal.as_slice())?,
    })
}
