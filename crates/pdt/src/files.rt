//! The files of the program: what is read of them, and those of a store, which are made.
use crate::journals::{NewJournals, journals_over};
use devices::FileColumn;
use pdtcli::{FileFault, Refusal, StoreFault};
use std::alloc::Global;
use std::fs::{File, OpenOptions};
use std::io::Write;
use std::{fs, io};

/// The files of a store, by their paths, in the order in which they are made.
#[derive(Drop)]
pub(crate) struct StorePaths {
    /// That of the header, of each column, of the images' marks, and of the journal.
    all: Vec<String>,
    /// How many columns there are.
    width: usize,
}

/// What a store's files are made as.
#[derive(Drop)]
pub(crate) struct StoreFiles {
    /// A device over each column's file.
    pub(crate) columns: Vec<Box<FileColumn>>,
    /// The journals, where the store has them.
    pub(crate) journals: Option<NewJournals>,
}

/// A file's bytes, or why they aren't there.
pub(crate) fn bytes_of(read: &io::Result<Vec<u8>>) -> Result<&[u8], FileFault> {
    match read {
        Ok(bytes) => Ok(bytes.as_slice()),
        Err(fault) if fault.kind() == io::ErrorKind::OutOfMemory => Err(FileFault::NoMemory),
        Err(_) => Err(FileFault::Unreadable),
    }
}

/// The file of a store's header in a folder.
pub(crate) fn header_path(alloc: Global, dir: &str) -> Result<String, Refusal> {
    Ok(format!(in alloc; "{dir}/header.csv")?)
}

/// The file of a store's column in a folder, by its number from 0.
pub(crate) fn column_path(alloc: Global, dir: &str, col: usize) -> Result<String, Refusal> {
    Ok(format!(in alloc; "{dir}/column-{col}.pdt")?)
}

/// The file of the marks of a store's images in a folder.
pub(crate) fn images_path(alloc: Global, dir: &str) -> Result<String, Refusal> {
    Ok(format!(in alloc; "{dir}/images.pdt")?)
}

/// The file of the journal of a store's commits in a folder.
pub(crate) fn journal_path(alloc: Global, dir: &str) -> Result<String, Refusal> {
    Ok(format!(in alloc; "{dir}/journal.pdt")?)
}

/// The files of a store in a folder.
pub(crate) fn store_paths(alloc: Global, dir: &str, width: usize) -> Result<StorePaths, Refusal> {
    let mut all = Vec::new(alloc);
    all.push(header_path(alloc, dir)?)?;
    for col in 0..width {
        all.push(column_path(alloc, dir, col)?)?;
    }
    all.push(images_path(alloc, dir)?)?;
    all.push(journal_path(alloc, dir)?)?;
    Ok(StorePaths { all, width })
}

/// Makes the files of a store in the folder, the first with this header, a device over each column's, and its journals where they
/// are asked for. Where one is there already none is made, a journal among them, and where one can't be made, what was made is taken
/// away again. The headers and the files' names are on disk when this returns.
pub(crate) fn make_store(
    rt: &HostRuntime,
    dir: &str,
    paths: &StorePaths,
    journaled: bool,
    header: &[u8],
) -> Result<StoreFiles, Refusal> {
    are_free(rt, paths.all.as_slice())?;
    let wanted = if journaled {
        paths.all.len()
    } else {
        paths.all.len().saturating_sub(2)
    };
    // Room comes first: each file that is made is counted.
    let mut files = Vec::with_capacity(rt.alloc(), paths.all.len())?;
    let made = make_files(rt, paths.all.as_slice(), wanted, &mut files);
    let count = files.len();
    let store = match made {
        Ok(()) => lasting_files(rt, dir, files, paths.width, header),
        Err(refusal) => Err(refusal),
    };
    if store.is_err() {
        remove_files(rt, paths, count);
    }
    store
}

/// Takes away the first files of a store. One that stays changes nothing: what is told is why the store isn't made.
pub(crate) fn remove_files(rt: &HostRuntime, paths: &StorePaths, count: usize) {
    for path in paths.all.iter().take(count) {
        let _ = fs::remove_file(rt, path.as_str());
    }
}

/// Takes away all files of a store.
pub(crate) fn remove_store(rt: &HostRuntime, paths: &StorePaths, journaled: bool) {
    let count = paths.all.len();
    remove_files(
        rt,
        paths,
        if journaled {
            count
        } else {
            count.saturating_sub(2)
        },
    );
}

/// Tests that none of the files is there. A link that leads nowhere is there too.
fn are_free(rt: &HostRuntime, paths: &[String]) -> Result<(), Refusal> {
    for path in paths {
        match fs::symlink_metadata(rt, path.as_str()) {
            Err(fault) if fault.kind() == io::ErrorKind::NotFound => {}
            _ => return Err(Refusal::CannotMake),
        }
    }
    Ok(())
}

/// Makes the first files, up to the first that can't be made.
fn make_files(
    rt: &HostRuntime,
    paths: &[String],
    wanted: usize,
    files: &mut Vec<File>,
) -> Result<(), Refusal> {
    for path in paths.iter().take(wanted) {
        files.push(new_file(rt, path.as_str())?)?;
    }
    Ok(())
}

/// A file that was not there, for writing.
fn new_file(rt: &HostRuntime, path: &str) -> Result<File, Refusal> {
    match OpenOptions::new()
        .write(true)
        .create_new(true)
        .open(rt, path)
    {
        Ok(file) => Ok(file),
        Err(_) => Err(Refusal::CannotMake),
    }
}

/// What a store's files are made as, once the headers and the files' names are on disk.
fn lasting_files(
    rt: &HostRuntime,
    dir: &str,
    files: Vec<File>,
    width: usize,
    header: &[u8],
) -> Result<StoreFiles, Refusal> {
    let store = store_over(rt, files, width, header)?;
    sync_folder(rt, dir)?;
    Ok(store)
}

/// Writes the header into the first file, to the disk, and makes a device over each column's, and the journals over the last two.
fn store_over(
    rt: &HostRuntime,
    files: Vec<File>,
    width: usize,
    header: &[u8],
) -> Result<StoreFiles, Refusal> {
    let alloc = rt.alloc();
    let mut columns = Vec::new(alloc);
    let mut files = files.into_iter();
    if let Some(mut first) = files.next() {
        write_front(&mut first, header)?;
    }
    for file in files.by_ref().take(width) {
        let column = FileColumn::new(alloc, file)?;
        columns.push(Box::new(alloc, column)?)?;
    }
    let journals = match (files.next(), files.next()) {
        (Some(images), Some(commits)) => Some(journals_over(rt, images, commits)?),
        _ => None,
    };
    Ok(StoreFiles { columns, journals })
}

/// Writes the front of a new file, to the disk.
pub(crate) fn write_front(file: &mut File, front: &[u8]) -> Result<(), Refusal> {
    if file.write_all(front).is_err() || file.sync_data().is_err() {
        return Err(Refusal::CannotMake);
    }
    Ok(())
}

/// Has the names of a folder's files on disk. A folder that the user may not read is passed over, and so is one whose file system
/// has no such call: more can't be done there.
fn sync_folder(rt: &HostRuntime, dir: &str) -> Result<(), Refusal> {
    let folder = match File::open(rt, dir) {
        Ok(folder) => folder,
        Err(fault) if fault.kind() == io::ErrorKind::PermissionDenied => return Ok(()),
        Err(_) => return Err(Refusal::CannotMake),
    };
    match folder.sync_all() {
        Ok(()) => Ok(()),
        Err(fault) if fault.kind() == io::ErrorKind::InvalidInput => Ok(()),
        Err(_) => Err(Refusal::CannotMake),
    }
}

/// Whether a file that was to be read isn't there.
pub(crate) fn is_missing(read: &io::Result<Vec<u8>>) -> bool {
    match read {
        Ok(_) => false,
        Err(fault) => fault.kind() == io::ErrorKind::NotFound,
    }
}

/// The bytes of a store's file, or the refusal of it.
pub(crate) fn stored_bytes(read: &io::Result<Vec<u8>>) -> Result<&[u8], Refusal> {
    match bytes_of(read) {
        Ok(bytes) => Ok(bytes),
        Err(FileFault::Unreadable) => Err(Refusal::UnreadableStore),
        Err(FileFault::NoMemory) => Err(Refusal::Store(StoreFault::NoMemory)),
    }
}

/// The bytes of files that were read, or the refusal of the first that wasn't.
pub(crate) fn bytes_of_all(
    alloc: Global,
    files: &[io::Result<Vec<u8>>],
) -> Result<Vec<&[u8]>, Refusal> {
    let mut all = Vec::new(alloc);
    for file in files {
        all.push(stored_bytes(file)?)?;
    }
    Ok(all)
}
