//! What a manifest says.

/// How long a file is, and the check of its bytes.
#[derive(Clone, Copy, Debug, PartialEq, Eq)]
pub struct FileMark {
    /// How many bytes it has.
    pub size: u64,
    /// The register of CRC-32C after them, from all ones.
    pub check: u32,
}

/// What the line of a table says.
#[derive(Clone, Copy, Debug)]
pub struct TableLine<'a> {
    /// The table's number in the payloads of the journal.
    pub number: u32,
    /// The last commit that its image has.
    pub commit: u64,
    /// The number of its image's folder.
    pub folder: u64,
    /// How many commits may come between a transaction's begin and its commit.
    pub recent: u64,
    /// How many rows it may have.
    pub limit: u64,
    /// Whether all modifies of one row conflict, and not those of one column alone.
    pub by_row: bool,
    /// How many columns it has, at most 32.
    pub width: u64,
    /// Its name, of 1 to 64 bytes.
    pub name: &'a [u8],
}

/// A table, and the files of its image.
#[derive(Debug, Drop)]
pub struct TableEntry<'a> {
    pub line: TableLine<'a>,
    /// The mark of the header's file.
    pub header: FileMark,
    /// Those of the columns' files, as many as the line says.
    pub columns: Vec<FileMark>,
}

/// What a manifest says of the database.
#[derive(Clone, Copy, Debug, PartialEq, Eq)]
pub struct ManifestHead {
    /// The name that was drawn for it.
    pub store: u64,
    /// The salt of the files of its journal.
    pub salt: u64,
    /// A commit that was safe.
    pub commit: u64,
    /// The number of the first file of the journal that an image wants.
    pub first_file: u64,
    /// The number of the next table.
    pub next_table: u32,
    /// The number of the next image's folder.
    pub next_folder: u64,
}

/// What a manifest says.
#[derive(Debug, Drop)]
pub struct Manifest<'a> {
    pub head: ManifestHead,
    /// The tables, in the order of their lines.
    pub tables: Vec<TableEntry<'a>>,
}
