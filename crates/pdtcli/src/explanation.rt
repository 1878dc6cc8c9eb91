//! The sentence that explains a refusal: of a table's or a script's text what is there and what is wanted, of another part what to do.
ghost use Rattle.std.specs.Prelude.{◌<◌, Ok, IfOk, length, string_bytes};
ghost use Rattle.pdtcli.specs.Explanations.{ExplainsHeader, ExplainsOpening, ExplainsScript, ExplainsTable};
ghost use Rattle.pdtcli.specs.Program.{bytes_of};

use crate::output::ShowFault;
use crate::program::FileFault;
use crate::refusal::Refusal;
use inputs::{ScriptFault, TableFault, load_table};
use sentences::{explain_script, explain_table};
use std::alloc::Global;
use values::NoMemory;

/// The sentence that explains why a table and a script aren't opened, each given as the bytes of its file or as why they aren't there.
/// A fault of the script is told over the table's columns, so the table is read again.
///
/// # Errors
///
/// `NoMemory` where a growth is refused.
pub fn explain_opening(
    alloc: Global,
    table: Result<&[u8], FileFault>,
    script: Result<&[u8], FileFault>,
    refusal: Refusal,
) -> Result<String, NoMemory>
    ensures { IfOk result (λ sentence. ExplainsOpening (bytes_of table.entry) (bytes_of script.entry) refusal (string_bytes sentence)) }
{
    match refusal {
        Refusal::Table(fault) => explain_table_part(alloc, table, fault),
        Refusal::Script(fault) => explain_script_part(alloc, table, script, fault),
        _ => Ok(String::from_str(alloc, plain_sentence(refusal))?),
    }
}

/// The sentence that explains why a store or a table of a database isn't recovered, whose header is given as that of a store.
///
/// # Errors
///
/// `NoMemory` where a growth is refused.
pub fn explain_recovery(
    alloc: Global,
    header: Result<&[u8], FileFault>,
    refusal: Refusal,
) -> Result<String, NoMemory>
    ensures { IfOk result (λ sentence. ExplainsHeader (bytes_of header.entry) refusal (string_bytes sentence)) }
{
    match (refusal, header) {
        (Refusal::Header(fault), Ok(text)) => explain_table(alloc, text, &[], fault),
        _ => Ok(String::from_str(alloc, plain_sentence(refusal))?),
    }
}

/// The sentence of a fault of the table.
fn explain_table_part(
    alloc: Global,
    table: Result<&[u8], FileFault>,
    fault: TableFault,
) -> Result<String, NoMemory>
    ensures { IfOk result (λ sentence. ExplainsTable (bytes_of table.entry) fault (string_bytes sentence)) }
{
    match table {
        Ok(text) => explain_table(alloc, text, &[], fault),
        Err(_) => Ok(String::from_str(alloc, plain_sentence(Refusal::Table(fault)))?),
    }
}

/// The sentence of a fault of the script.
fn explain_script_part(
    alloc: Global,
    table: Result<&[u8], FileFault>,
    script: Result<&[u8], FileFault>,
    fault: ScriptFault,
) -> Result<String, NoMemory>
    ensures { IfOk result (λ sentence. ExplainsScript (bytes_of table.entry) (bytes_of script.entry) fault (string_bytes sentence)) }
{
    match (table, script) {
        (Ok(table), Ok(script)) => explain_script_text(alloc, table, script, fault),
        _ => Ok(String::from_str(alloc, plain_sentence(Refusal::Script(fault)))?),
    }
}

/// The sentence of a fault of a script's text over a table's.
fn explain_script_text(
    alloc: Global,
    table: &[u8],
    script: &[u8],
    fault: ScriptFault,
) -> Result<String, NoMemory>
    ensures { IfOk result (λ sentence. ExplainsScript (Ok table.now) (Ok script.now) fault (string_bytes sentence)) }
{
    match load_table(alloc, table) {
        Ok(stable) => explain_script(alloc, stable.schema(), script, fault),
        Err(TableFault::NoMemory) => Err(NoMemory),
        Err(_) => Ok(String::from_str(alloc, plain_sentence(Refusal::Script(fault)))?),
    }
}

/// A sentence that explains a refusal without the texts that it is of: which file or folder is meant, and what to do.
pub fn plain_sentence(refusal: Refusal) -> &'static str
    ensures { 0 < length result.now }
{
    match refusal {
        Refusal::UnreadableTable =>
            "the table's file can't be read: look at its path and its permissions",
        Refusal::Table(_) => "the table's file can't be read whole: there is no memory for it",
        Refusal::UnreadableScript =>
            "the script's file can't be read: look at its path and its permissions",
        Refusal::Script(_) => "the script's file can't be read whole: there is no memory for it",
        Refusal::Open(_) =>
            "the table has more rows than --limit allows, or there is no memory for it",
        Refusal::CannotMake => {
            "a file of the store can't be made in the folder of --store, or is there already: take an empty folder that you may write to"
        }
        Refusal::Run(_) => "there is no memory for the replies: nothing was written",
        Refusal::Threads(_) => {
            "a client has no thread or no session, or there is no memory for it: run without --threads"
        }
        Refusal::Output(ShowFault::Write) => {
            "standard output takes no more: some of the output may be missing"
        }
        Refusal::Output(ShowFault::NoMemory) => {
            "there is no memory for the output: some of it may be missing"
        }
        _ => stored_sentence(refusal),
    }
}

/// The same of a store or a database.
fn stored_sentence(refusal: Refusal) -> &'static str
    ensures { 0 < length result.now }
{
    match refusal {
        Refusal::UnreadableStore => {
            "a file of the store can't be read: look at the folder's path, its files and their permissions"
        }
        Refusal::Store(_) | Refusal::JournalFailed => {
            "the store's files can't be written: look at the space and the permissions of the folder of --store"
        }
        Refusal::Header(_) => "header.csv can't be read whole: there is no memory for it",
        Refusal::Columns(_) => {
            "the columns' files are damaged, or have no image that is whole: take a copy from before"
        }
        Refusal::NoCommits => "the folder has images.pdt and no journal.pdt: put that file back",
        Refusal::NoImages => "the folder has journal.pdt and no images.pdt: put that file back",
        Refusal::ImagesHeader(_) | Refusal::Images(_) => {
            "images.pdt is damaged, or is another store's: take a copy from before"
        }
        Refusal::JournalHeader(_) | Refusal::Commits(_) => {
            "the journal is damaged, or doesn't fit the table's image: take a copy from before"
        }
        Refusal::OtherStore => {
            "files of two stores are in one folder: put those of one store back together"
        }
        _ => database_sentence(refusal),
    }
}

/// The same of a database alone.
fn database_sentence(refusal: Refusal) -> &'static str
    ensures { 0 < length result.now }
{
    match refusal {
        Refusal::NoDatabase => "the folder has no database: leave --table out to recover a store",
        Refusal::DamagedManifest | Refusal::BadManifest => {
            "the manifest is damaged: take a copy of the folder from before"
        }
        Refusal::NoTable => "no table of the database has this name: look at --table",
        Refusal::NotNamed => "the database has several tables, or none: name one with --table",
        Refusal::MissingJournal(_) => {
            "a file of the database's journal is missing: put it back into the folder"
        }
        Refusal::DamagedHeader =>
            "the header of the table's image is damaged: take a copy from before",
        Refusal::DamagedColumn(_) =>
            "a column of the table's image is damaged: take a copy from before",
        _ => "the program has no more to say of it",
    }
}
