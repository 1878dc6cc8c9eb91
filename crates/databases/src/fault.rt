//! Why a table isn't restored.
use frames::ReadFault;
use inputs::TableFault;
use replay::RecoverFault;

/// Why a table isn't restored: the first that holds, in the order of the variants, but for want of memory.
#[derive(Clone, Copy, Debug, PartialEq, Eq)]
pub enum RestoreFault {
    /// A file of the journal is another database's.
    OtherStore,
    /// The manifest's salt makes no seed, or no journal begins after its commit.
    BadManifest,
    /// The header of the image hasn't its mark.
    DamagedHeader,
    /// This column of the image hasn't its mark.
    DamagedColumn(usize),
    /// The text of the header has this fault.
    Header(TableFault),
    /// The columns have this fault.
    Columns(ReadFault),
    /// The commits of the journal aren't made again, or a file of it isn't behind the one before it.
    Commits(RecoverFault),
    /// A growth was refused.
    NoMemory,
}
