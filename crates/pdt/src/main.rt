//! The program: takes the words, reads the files, makes the devices of a store, prints what a run, a store or a database leaves,
//! and ends with its status.
#![tactic(auto)]

ghost use Rattle.std.specs.Prelude.{◌≡◌, [], IfOk};
ghost use Rattle.std.specs.Box.{box_value};

mod database;
mod files;
mod journals;
mod refused;
mod streams;

use crate::database::{ReadFiles, lent_files, manifest_path, names_in, read_files};
use crate::files::{
    StoreFiles, StorePaths, bytes_of, bytes_of_all, column_path, header_path, images_path,
    is_missing, journal_path, make_store, remove_store, store_paths, stored_bytes,
};
use crate::journals::NewJournals;
use crate::refused::{Explained, Refused, explained_opening, explained_recovery};
use crate::streams::hold_streams;
use devices::{ColumnDevice, MemColumn, Store, StoreFault, have_failed};
use journaled::{JournaledRun, Journals, StoreBytes, recover_journaled, run_journaled};
use journaled_clients::{ClientsRun, MarkedStore, NewCommits, run_journaled_on_threads};
use pdtcli::{
    OpenOptions, Opened, Outcome, Refusal, Settings, ShowFault, open_texts, read_header,
    read_words, recover, run_opened, run_opened_on_threads, status_of, stored_header,
};
use std::alloc::Global;
use std::process::ExitCode;
use std::sync::{Arc, OnceLock, Wait};
use std::thread::Threads;
use std::{env, fs, io, mem};
use tables::{TableBytes, recover_table, wanted_files};
use values::{NoMemory, Schema};

/// The status of a command line that asks for nothing.
const MISUSED: u8 = 2;

/// The generation of a new store's first image.
const FIRST_GENERATION: u32 = 1;

/// The files that a run reads, by their paths.
#[derive(Clone, Copy)]
struct Inputs<'p> {
    table: &'p str,
    script: &'p str,
}

/// How the clients of a script make their calls.
#[derive(Drop)]
enum Turns<'t, T> {
    /// One after the other, in the script's order.
    InOrder,
    /// Each client on a thread of its own, which this handle starts and waits for.
    OnThreads(&'t T),
}

/// Where the store of a run is.
#[derive(Clone, Copy)]
enum Storage<'p> {
    Memory,
    /// In the folder.
    Folder(&'p str),
    /// In the folder, with a journal.
    Journaled(&'p str),
}

fn main(rt: HostRuntime) -> ExitCode {
    // Held until the end: a stream that was closed stays one that can't be written to.
    let streams = hold_streams(&rt);
    let status = match &streams {
        Ok(_) => run_command_line(&rt, &rt),
        Err(_) => tell(
            &rt,
            &Err(Refused::new(Explained::Nothing, Refusal::Output(ShowFault::Write))),
        ),
    };
    ExitCode::from(status)
}

/// Does what the command line asks for, and gives the status to end with. What is refused is told on standard error. The second handle
/// may start threads and wait for them.
fn run_command_line<T: Threads + Wait + Sync>(rt: &HostRuntime, starter: &T) -> u8 {
    match command_line_words(rt) {
        Ok(given) => run_words(rt, starter, given.as_slice()),
        Err(fault) => {
            let _ = eprintln!(rt; "error: {}", words_fault(fault.kind()));
            MISUSED
        }
    }
}

/// Does what these words ask for.
fn run_words<T: Threads + Wait + Sync>(rt: &HostRuntime, starter: &T, given: &[String]) -> u8 {
    let words = match words_of(rt.alloc(), given) {
        Ok(words) => words,
        Err(_) => {
            let _ = eprintln!(rt; "error: {}", words_fault(io::ErrorKind::OutOfMemory));
            return MISUSED;
        }
    };
    match settings_of(rt, words.as_slice()) {
        Ok(settings) => tell(rt, &carry_out(rt, starter, settings)),
        Err(status) => status,
    }
}

/// What the words ask for. Where they say nothing that can be done, that is told, and the status is given. The 16 KB of stack
/// that `clap` wants are free again before a run.
#[inline(never)]
fn settings_of<'w>(rt: &HostRuntime, words: &'w [&'w str]) -> Result<Settings<'w>, u8> {
    match read_words(rt.alloc(), words) {
        Ok(settings) => Ok(settings),
        Err(fault) => {
            let _ = rt.eprint(&fault);
            Err(MISUSED)
        }
    }
}

/// Tells what was refused, with what explains it behind it, and gives the status to end with.
fn tell(rt: &HostRuntime, answer: &Result<u8, Refused>) -> u8 {
    match answer {
        Ok(status) => status_of(&Ok(*status)),
        Err(refused) => {
            // Where even this can't be written, the status alone tells.
            let _ = eprintln!(rt; "{}", refused.refusal);
            if let Some(sentence) = refused.sentence() {
                let _ = eprintln!(rt; "pdt: {sentence}");
            }
            status_of(&Err(refused.refusal))
        }
    }
}

/// The words of the command line, the first of which is the program's name.
fn command_line_words(rt: &HostRuntime) -> io::Result<Vec<String>> {
    let mut given = Vec::new(rt.alloc());
    for word in env::args(rt)? {
        given.push(word)?;
    }
    Ok(given)
}

/// The words, lent.
fn words_of<'a>(alloc: Global, given: &'a [String]) -> Result<Vec<&'a str>, NoMemory> {
    let mut words = Vec::new(alloc);
    for word in given {
        words.push(word.as_str())?;
    }
    Ok(words)
}

/// Why the words of a command line can't be had.
fn words_fault(kind: io::ErrorKind) -> &'static str {
    if kind == io::ErrorKind::InvalidData {
        "a word of the command line isn't UTF-8"
    } else {
        "there is no memory for the command line"
    }
}

/// Does what the settings ask for.
fn carry_out<T: Threads + Wait + Sync>(
    rt: &HostRuntime,
    starter: &T,
    settings: Settings<'_>,
) -> Result<u8, Refused> {
    match settings {
        Settings::Run {
            table,
            script,
            threads,
            store,
            journal,
            recent,
            limit,
            conflicts,
            explain,
        } => {
            let options = OpenOptions {
                recent,
                limit,
                conflicts,
            };
            let turns = if threads {
                Turns::OnThreads(starter)
            } else {
                Turns::InOrder
            };
            let storage = match store {
                Some(dir) if journal => Storage::Journaled(dir),
                Some(dir) => Storage::Folder(dir),
                None => Storage::Memory,
            };
            let opened = open_files(rt, Inputs { table, script }, options, explain)?;
            match run(rt, turns, storage, opened) {
                Ok(status) => Ok(status),
                Err(refusal) => Err(Refused::new(Explained::plainly(explain), refusal)),
            }
        }
        Settings::Recover {
            dir,
            table,
            explain,
        } => recover_folder(rt, dir, table, explain),
    }
}

/// Opens the table's file, and reads the script's. Their bytes are let go before a call is made, and what this takes of the
/// stack is free again.
#[inline(never)]
fn open_files(
    rt: &HostRuntime,
    inputs: Inputs<'_>,
    options: OpenOptions,
    explain: bool,
) -> Result<Opened, Refused>
    ensures script { IfOk result (λ opened. opened.script.schema ≡ opened.manager.schema) }
    ensures new { IfOk result (λ opened. opened.manager.history ≡ []) }
{
    let table = fs::read(rt, inputs.table);
    let script = fs::read(rt, inputs.script);
    match open_texts(rt.alloc(), bytes_of(&table), bytes_of(&script), options) {
        Ok(opened) => Ok(opened),
        Err(refusal) => Err(explained_opening(
            explain,
            rt.alloc(),
            bytes_of(&table),
            bytes_of(&script),
            refusal,
        )),
    }
}

/// Runs the script over the table that was opened, with a store in the storage.
fn run<T: Threads + Wait + Sync>(
    rt: &HostRuntime,
    turns: Turns<'_, T>,
    storage: Storage<'_>,
    opened: Opened,
) -> Result<u8, Refusal>
    requires script { opened.script.schema ≡ opened.manager.schema }
    requires new { opened.manager.history ≡ [] }
{
    match storage {
        Storage::Journaled(dir) => run_with_journal(rt, turns, dir, opened),
        Storage::Folder(dir) => run_in_folder(rt, turns, dir, opened),
        Storage::Memory => run_in_memory(rt, turns, opened),
    }
}

/// A store that is made in a folder: its files, and what they are made as.
#[derive(Drop)]
struct FolderStore {
    paths: StorePaths,
    files: StoreFiles,
}

/// Makes the files of a store of these columns in the folder.
fn store_in_folder(
    rt: &HostRuntime,
    dir: &str,
    schema: &Schema,
    journaled: bool,
) -> Result<FolderStore, Refusal> {
    let alloc = rt.alloc();
    let header = stored_header(alloc, schema)?;
    let paths = store_paths(alloc, dir, schema.width())?;
    let files = make_store(rt, dir, &paths, journaled, header.as_slice())?;
    Ok(FolderStore { paths, files })
}

/// Runs what was opened over a store in the folder. Where the store isn't made, no file of it stays.
fn run_in_folder<T: Threads + Wait + Sync>(
    rt: &HostRuntime,
    turns: Turns<'_, T>,
    dir: &str,
    opened: Opened,
) -> Result<u8, Refusal>
    requires { opened.script.schema ≡ opened.manager.schema }
{
    // Room comes first: once the files are made each device has its place.
    let mut devices: Vec<Box<dyn ColumnDevice + Send>> = Vec::with_capacity(
        rt.alloc(),
        opened.schema().width(),
    )?;
    let FolderStore { paths, files } = store_in_folder(rt, dir, opened.schema(), false)?;
    for column in files.columns {
        devices.push(column)?;
    }
    let answer = run_over(rt, turns, opened, devices);
    if let Err(Refusal::Store(_)) = &answer {
        remove_store(rt, &paths, false);
    }
    answer
}

/// Runs what was opened over a store with a journal in the folder. Where the store isn't made, or its first image isn't stored, no file of
/// it stays.
fn run_with_journal<T: Threads + Wait + Sync>(
    rt: &HostRuntime,
    turns: Turns<'_, T>,
    dir: &str,
    opened: Opened,
) -> Result<u8, Refusal>
    requires script { opened.script.schema ≡ opened.manager.schema }
    requires new { opened.manager.history ≡ [] }
{
    // As above.
    let mut devices: Vec<Box<dyn ColumnDevice + Send>> = Vec::with_capacity(
        rt.alloc(),
        opened.schema().width(),
    )?;
    let FolderStore { paths, files } = store_in_folder(rt, dir, opened.schema(), true)?;
    for column in files.columns {
        devices.push(column)?;
    }
    let answer = match files.journals {
        Some(journals) => run_journaled_over(rt, turns, opened, journals, devices),
        None => Err(Refusal::CannotMake),
    };
    match &answer {
        Ok(_) | Err(Refusal::Output(_)) => {}
        Err(_) => remove_store(rt, &paths, true),
    }
    answer
}

/// Runs what was opened, over a store of these devices and journals.
fn run_journaled_over<T: Threads + Wait + Sync>(
    rt: &HostRuntime,
    turns: Turns<'_, T>,
    opened: Opened,
    journals: NewJournals,
    devices: Vec<Box<dyn ColumnDevice + Send>>,
) -> Result<u8, Refusal>
    requires script { opened.script.schema ≡ opened.manager.schema }
    requires new { opened.manager.history ≡ [] }
{
    if have_failed(devices.as_slice()) {
        return Err(Refusal::Store(StoreFault::StoreFailed));
    }
    let store = Store::new(rt.alloc(), devices, opened.schema(), FIRST_GENERATION)?;
    match turns {
        Turns::OnThreads(starter) => run_clients_over(rt, starter, opened, journals, store),
        Turns::InOrder => run_calls_over(rt, opened, journals, store),
    }
}

/// Runs what was opened call by call, over a store with these journals.
fn run_calls_over(
    rt: &HostRuntime,
    opened: Opened,
    journals: NewJournals,
    store: Store,
) -> Result<u8, Refusal>
    requires script { opened.script.schema ≡ opened.manager.schema }
    requires store { store.schema ≡ opened.manager.schema }
    requires next { store.next ≡ FIRST_GENERATION }
{
    let NewJournals { commits, images } = journals;
    let NewCommits { log, seed: _ } = commits;
    let journals = Journals {
        commits: log,
        images,
    };
    let mut out = io::writer(rt);
    let (status, run) = run_journaled(
        rt.alloc(),
        opened,
        journals,
        store,
        FIRST_GENERATION,
        &mut out,
    )?;
    // As in a run without a journal.
    let JournaledRun {
        journaled,
        store: _store,
    } = run;
    mem::forget(journaled);
    Ok(status)
}

/// Runs what was opened with each client's calls on a thread of its own, over a store with these journals.
fn run_clients_over<T: Threads + Wait + Sync>(
    rt: &HostRuntime,
    starter: &T,
    opened: Opened,
    journals: NewJournals,
    store: Store,
) -> Result<u8, Refusal>
    requires script { opened.script.schema ≡ opened.manager.schema }
    requires new { opened.manager.history ≡ [] }
    requires store { store.schema ≡ opened.manager.schema }
    requires next { store.next ≡ FIRST_GENERATION }
{
    let NewJournals { commits, images } = journals;
    let marked = MarkedStore::new(store, images, FIRST_GENERATION);
    let ClientsRun {
        manager,
        status,
        store: _store,
        journal: _journal,
        counts: _counts,
        out: _out,
    } = run_journaled_on_threads(starter, rt.alloc(), opened, commits, marked, io::writer(rt))?;
    // As in a run without a journal.
    mem::forget(manager);
    Ok(status)
}

/// Runs what was opened over a store in memory.
fn run_in_memory<T: Threads + Wait + Sync>(
    rt: &HostRuntime,
    turns: Turns<'_, T>,
    opened: Opened,
) -> Result<u8, Refusal>
    requires { opened.script.schema ≡ opened.manager.schema }
{
    let mut devices: Vec<Box<dyn ColumnDevice + Send>> = Vec::new(rt.alloc());
    for _ in 0..opened.schema().width() {
        devices.push(memory_column(rt.alloc())?)?;
    }
    run_over(rt, turns, opened, devices)
}

/// Runs what was opened, over a store of these devices.
fn run_over<T: Threads + Wait + Sync>(
    rt: &HostRuntime,
    turns: Turns<'_, T>,
    opened: Opened,
    devices: Vec<Box<dyn ColumnDevice + Send>>,
) -> Result<u8, Refusal>
    requires { opened.script.schema ≡ opened.manager.schema }
{
    if have_failed(devices.as_slice()) {
        return Err(Refusal::Store(StoreFault::StoreFailed));
    }
    let alloc = rt.alloc();
    let store = Store::new(alloc, devices, opened.schema(), FIRST_GENERATION)?;
    let mut out = io::writer(rt);
    let (status, outcome) = match turns {
        Turns::OnThreads(starter) => {
            run_opened_on_threads(starter, alloc, opened, store, &mut out)?
        }
        Turns::InOrder => run_opened(alloc, opened, store, &mut out)?,
    };
    // The process ends, and gives its memory back as a whole: no row and no node is let go by itself. The store's files are.
    let Outcome {
        left,
        store: _store,
    } = outcome;
    mem::forget(left);
    Ok(status)
}

/// A device in memory, whose bytes nobody reads.
fn memory_column(alloc: Global) -> Result<Box<MemColumn>, NoMemory>
    ensures { IfOk result (λ column. (box_value column).failures ≡ 0) }
{
    let column = MemColumn::new(Vec::new(alloc), Arc::new(alloc, OnceLock::new())?)?;
    Ok(Box::new(alloc, column)?)
}

/// The files of a store's columns in a folder, as far as they can be read.
fn column_files(
    rt: &HostRuntime,
    dir: &str,
    width: usize,
) -> Result<Vec<io::Result<Vec<u8>>>, Refusal> {
    let mut files = Vec::new(rt.alloc());
    for col in 0..width {
        files.push(fs::read(rt, column_path(rt.alloc(), dir, col)?.as_str()))?;
    }
    Ok(files)
}

/// Prints the table that a folder has: that of the name, where it has a database, or else its store's.
#[inline(never)]
fn recover_folder(
    rt: &HostRuntime,
    dir: &str,
    name: Option<&str>,
    explain: bool,
) -> Result<u8, Refused> {
    let path = match manifest_path(rt.alloc(), dir) {
        Ok(path) => path,
        Err(refusal) => return Err(Refused::new(Explained::plainly(explain), refusal)),
    };
    let manifest = fs::read(rt, path.as_str());
    match name {
        Some(_) if is_missing(&manifest) => Err(Refused::new(
            Explained::plainly(explain),
            Refusal::NoDatabase,
        )),
        None if is_missing(&manifest) => recover_store(rt, dir, explain),
        _ => recover_database(rt, dir, &manifest, name, explain),
    }
}

/// Prints a table of the database in a folder.
fn recover_database(
    rt: &HostRuntime,
    dir: &str,
    manifest: &io::Result<Vec<u8>>,
    name: Option<&str>,
    explain: bool,
) -> Result<u8, Refused> {
    let alloc = rt.alloc();
    let read = match files_of_table(rt, dir, manifest, name) {
        Ok(read) => read,
        Err(refusal) => return Err(Refused::new(Explained::plainly(explain), refusal)),
    };
    match recover_read(rt, manifest, name, &read) {
        Ok(status) => Ok(status),
        Err(refusal) => Err(explained_recovery(explain, alloc, bytes_of(&read.header), refusal)),
    }
}

/// Reads the files of a table of the database in a folder.
fn files_of_table(
    rt: &HostRuntime,
    dir: &str,
    manifest: &io::Result<Vec<u8>>,
    name: Option<&str>,
) -> Result<ReadFiles, Refusal> {
    let alloc = rt.alloc();
    let text = stored_bytes(manifest)?;
    let names = names_in(rt, dir)?;
    let listed = words_of(alloc, names.as_slice())?;
    let wanted = wanted_files(alloc, text, name, listed.as_slice())?;
    read_files(rt, dir, &wanted)
}

/// Prints a table of a database whose files were read: its image, with the commits of the journal since then.
fn recover_read(
    rt: &HostRuntime,
    manifest: &io::Result<Vec<u8>>,
    name: Option<&str>,
    read: &ReadFiles,
) -> Result<u8, Refusal> {
    let alloc = rt.alloc();
    let files = lent_files(alloc, read)?;
    let bytes = TableBytes {
        header: files.header,
        columns: files.columns.as_slice(),
        journal: files.journal.as_slice(),
    };
    recover_table(
        alloc,
        stored_bytes(manifest)?,
        name,
        bytes,
        &mut io::writer(rt),
    )
}

/// Prints the image that the store in a folder has, with the commits of its journal, where it has one.
fn recover_store(rt: &HostRuntime, dir: &str, explain: bool) -> Result<u8, Refused> {
    let alloc = rt.alloc();
    let path = match header_path(alloc, dir) {
        Ok(path) => path,
        Err(refusal) => return Err(Refused::new(Explained::plainly(explain), refusal)),
    };
    let header = fs::read(rt, path.as_str());
    match recover_under(rt, dir, &header) {
        Ok(status) => Ok(status),
        Err(refusal) => Err(explained_recovery(explain, alloc, bytes_of(&header), refusal)),
    }
}

/// Prints the image that the store in a folder has, under the header that was read.
fn recover_under(rt: &HostRuntime, dir: &str, header: &io::Result<Vec<u8>>) -> Result<u8, Refusal> {
    let alloc = rt.alloc();
    let schema = read_header(alloc, bytes_of(header))?;
    let files = column_files(rt, dir, schema.width())?;
    let columns = bytes_of_all(alloc, files.as_slice())?;
    let images = fs::read(rt, images_path(alloc, dir)?.as_str());
    let commits = fs::read(rt, journal_path(alloc, dir)?.as_str());
    recover_files(rt, &schema, columns.as_slice(), &images, &commits)
}

/// Prints the image that columns store, with the commits of a journal. The files of a journal may both be missing.
fn recover_files(
    rt: &HostRuntime,
    schema: &Schema,
    columns: &[&[u8]],
    images: &io::Result<Vec<u8>>,
    commits: &io::Result<Vec<u8>>,
) -> Result<u8, Refusal> {
    let alloc = rt.alloc();
    let mut out = io::writer(rt);
    match (is_missing(images), is_missing(commits)) {
        (true, true) => recover(alloc, schema, columns, &mut out),
        (true, false) => Err(Refusal::NoImages),
        (false, true) => Err(Refusal::NoCommits),
        (false, false) => {
            let files = StoreBytes {
                columns,
                images: stored_bytes(images)?,
                commits: stored_bytes(commits)?,
            };
            recover_journaled(alloc, schema, files, &mut out)
        }
    }
}
