//! What keeps the program from its output: the part that was refused, with its fault. A refusal shows as the one line
//! that the program writes of it.
ghost use Rattle.std.specs.Prelude.{◌≡◌, ◌++◌, Some, codes};
ghost use Rattle.pdtcli.specs.Refusals.{part_text, refusal_text};
ghost use Rattle.devices.specs.declared.fault.StoreFault.TheVariants as store_fault;
ghost use Rattle.pdtcli.specs.declared.refusal.Refusal.TheVariants as parts;

use crate::clients::RunFault;
use crate::output::ShowFault;
use devices::{ReadFault, StoreFault};
use images::ImagesFault;
use inputs::{ScriptFault, TableFault};
use journal::HeaderFault;
use manager::OpenFault;
use replay::RecoverFault;
use std::alloc::{AllocError, AllocFailed};
use std::error::Error;
use std::fmt;
use values::NoMemory;

/// The first part that was refused, in the order of the variants; of a database, in the order of the call that says them.
#[derive(Clone, Copy, Debug, PartialEq, Eq)]
pub enum Refusal {
    /// The table's file can't be read.
    UnreadableTable,
    /// The table's text has this fault.
    Table(TableFault),
    /// The script's file can't be read.
    UnreadableScript,
    /// The script's text has this fault.
    Script(ScriptFault),
    /// The table isn't opened.
    Open(OpenFault),
    /// The store's files can't be made, or aren't new.
    CannotMake,
    /// The store isn't made.
    Store(StoreFault),
    /// A file of the store can't be read.
    UnreadableStore,
    /// The store's header has this fault.
    Header(TableFault),
    /// The store's columns have this fault.
    Columns(ReadFault),
    /// The store has marks of its images, and no journal of its commits.
    NoCommits,
    /// The store has a journal of its commits, and no marks of its images.
    NoImages,
    /// The header of the images' marks has this fault.
    ImagesHeader(HeaderFault),
    /// The header of the journal has this fault.
    JournalHeader(HeaderFault),
    /// The journal is of another store than the marks of the images.
    OtherStore,
    /// The marks don't tell how many commits had made the image that the columns store.
    Images(ImagesFault),
    /// The commits of the journal aren't made again over the image.
    Commits(RecoverFault),
    /// A table is named, and the folder has no database.
    NoDatabase,
    /// The manifest of the database is the spelling of none.
    DamagedManifest,
    /// No table of the database has the name.
    NoTable,
    /// No table is named, and the database hasn't one alone.
    NotNamed,
    /// This file of the database's journal isn't there.
    MissingJournal(u64),
    /// The manifest's salt makes no seed, or no journal begins after its commit.
    BadManifest,
    /// The header of the table's image hasn't its mark.
    DamagedHeader,
    /// This column of the table's image hasn't its mark.
    DamagedColumn(usize),
    /// A device of the journal failed before the first call.
    JournalFailed,
    /// The run had no room for its replies.
    Run(NoMemory),
    /// The run of clients on threads of their own left nothing.
    Threads(RunFault),
    /// The output isn't whole.
    Output(ShowFault),
}

impl Refusal {
    /// The part that was refused, by its name in the line.
    fn part(&self) -> &'static str
        ensures { result.now ≡ part_text self.now }
    {
        match self {
            Refusal::UnreadableTable | Refusal::Table(_) => "table",
            Refusal::UnreadableScript | Refusal::Script(_) => "script",
            Refusal::Open(_) => "open",
            Refusal::CannotMake
            | Refusal::Store(_)
            | Refusal::UnreadableStore
            | Refusal::Header(_)
            | Refusal::Columns(_)
            | Refusal::NoCommits
            | Refusal::NoImages
            | Refusal::ImagesHeader(_)
            | Refusal::JournalHeader(_)
            | Refusal::OtherStore
            | Refusal::Images(_)
            | Refusal::Commits(_)
            | Refusal::NoDatabase
            | Refusal::DamagedManifest
            | Refusal::NoTable
            | Refusal::NotNamed
            | Refusal::MissingJournal(_)
            | Refusal::BadManifest
            | Refusal::DamagedHeader
            | Refusal::DamagedColumn(_)
            | Refusal::JournalFailed => "store",
            Refusal::Run(_) | Refusal::Threads(_) => "run",
            Refusal::Output(_) => "output",
        }
    }
}

impl fmt::Display for Refusal {
    ghost output = { refusal_text };

    fn fmt<W: fmt::Write>(&self, f: &mut fmt::Formatter<W>) -> fmt::Result {
        let part = self.part();
        match self {
            Refusal::UnreadableTable | Refusal::UnreadableScript | Refusal::UnreadableStore => {
                write!(f, "pdt: {part}: Unreadable")
            }
            Refusal::CannotMake => write!(f, "pdt: {part}: CannotMake"),
            Refusal::Table(fault) => write!(f, "pdt: {part}: {fault}"),
            Refusal::Script(fault) => write!(f, "pdt: {part}: {fault}"),
            Refusal::Open(fault) => write!(f, "pdt: {part}: {fault}"),
            Refusal::Store(fault) => write!(f, "pdt: {part}: {fault}"),
            Refusal::Header(fault) => write!(f, "pdt: {part}: {fault}"),
            Refusal::Columns(fault) => write!(f, "pdt: {part}: {fault}"),
            Refusal::NoCommits => write!(f, "pdt: {part}: NoCommits"),
            Refusal::NoImages => write!(f, "pdt: {part}: NoImages"),
            Refusal::ImagesHeader(fault) => write!(f, "pdt: {part}: Images {fault}"),
            Refusal::JournalHeader(fault) => write!(f, "pdt: {part}: {fault}"),
            Refusal::OtherStore => write!(f, "pdt: {part}: OtherStore"),
            Refusal::Images(fault) => write!(f, "pdt: {part}: Images {fault}"),
            Refusal::Commits(fault) => write!(f, "pdt: {part}: {fault}"),
            Refusal::NoDatabase => write!(f, "pdt: {part}: NoDatabase"),
            Refusal::DamagedManifest => write!(f, "pdt: {part}: DamagedManifest"),
            Refusal::NoTable => write!(f, "pdt: {part}: NoTable"),
            Refusal::NotNamed => write!(f, "pdt: {part}: NotNamed"),
            Refusal::MissingJournal(file) => write!(f, "pdt: {part}: MissingJournal {file}"),
            Refusal::BadManifest => write!(f, "pdt: {part}: BadManifest"),
            Refusal::DamagedHeader => write!(f, "pdt: {part}: DamagedHeader"),
            Refusal::DamagedColumn(col) => write!(f, "pdt: {part}: DamagedColumn {col}"),
            Refusal::JournalFailed => write!(f, "pdt: {part}: JournalFailed"),
            Refusal::Run(NoMemory) => write!(f, "pdt: {part}: NoMemory"),
            Refusal::Threads(fault) => write!(f, "pdt: {part}: {fault}"),
            Refusal::Output(fault) => write!(f, "pdt: {part}: {fault}"),
        }
    }
}

impl Error for Refusal {}

impl From<TableFault> for Refusal {
    ghost from_gives = { λ fault refusal. refusal ≡ parts.Table fault };

    fn from(fault: TableFault) -> Refusal {
        Refusal::Table(fault)
    }
}

impl From<ScriptFault> for Refusal {
    ghost from_gives = { λ fault refusal. refusal ≡ parts.Script fault };

    fn from(fault: ScriptFault) -> Refusal {
        Refusal::Script(fault)
    }
}

impl From<OpenFault> for Refusal {
    ghost from_gives = { λ fault refusal. refusal ≡ parts.Open fault };

    fn from(fault: OpenFault) -> Refusal {
        Refusal::Open(fault)
    }
}

impl From<StoreFault> for Refusal {
    ghost from_gives = { λ fault refusal. refusal ≡ parts.Store fault };

    fn from(fault: StoreFault) -> Refusal {
        Refusal::Store(fault)
    }
}

impl From<ReadFault> for Refusal {
    ghost from_gives = { λ fault refusal. refusal ≡ parts.Columns fault };

    fn from(fault: ReadFault) -> Refusal {
        Refusal::Columns(fault)
    }
}

impl From<ImagesFault> for Refusal {
    ghost from_gives = { λ fault refusal. refusal ≡ parts.Images fault };

    fn from(fault: ImagesFault) -> Refusal {
        Refusal::Images(fault)
    }
}

impl From<RecoverFault> for Refusal {
    ghost from_gives = { λ fault refusal. refusal ≡ parts.Commits fault };

    fn from(fault: RecoverFault) -> Refusal {
        Refusal::Commits(fault)
    }
}

// Memory that the store's own devices and files are refused.
impl From<AllocError> for Refusal {
    ghost from_gives = { λ _ refusal. refusal ≡ parts.Store store_fault.NoMemory };

    fn from(_: AllocError) -> Refusal {
        Refusal::Store(StoreFault::NoMemory)
    }
}

impl<T: Drop> From<AllocFailed<T>> for Refusal {
    ghost from_gives = { λ _ refusal. refusal ≡ parts.Store store_fault.NoMemory };

    fn from(_: AllocFailed<T>) -> Refusal {
        Refusal::Store(StoreFault::NoMemory)
    }
}

impl From<NoMemory> for Refusal {
    ghost from_gives = { λ _ refusal. refusal ≡ parts.Store store_fault.NoMemory };

    fn from(_: NoMemory) -> Refusal {
        Refusal::Store(StoreFault::NoMemory)
    }
}

impl From<RunFault> for Refusal {
    ghost from_gives = { λ fault refusal. refusal ≡ parts.Threads fault };

    fn from(fault: RunFault) -> Refusal {
        Refusal::Threads(fault)
    }
}

impl From<ShowFault> for Refusal {
    ghost from_gives = { λ fault refusal. refusal ≡ parts.Output fault };

    fn from(fault: ShowFault) -> Refusal {
        Refusal::Output(fault)
    }
}
