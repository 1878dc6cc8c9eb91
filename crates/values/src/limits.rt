//! Every limit of the product, once. The least is 1 in each, but for the bytes of a text and the values of a block,
//! where it is 0, and a generation, whose least is with the store.

/// Columns of a table. So few that names are compared two by two, and that one row's changes fit beside one another.
pub const MAX_COLUMNS: usize = 32;

/// Columns of a sort key, which are the table's first. Each delete keeps its whole key, so a key is short.
pub const MAX_KEY_COLUMNS: usize = 4;

/// Bytes of a text, not characters. A full block of texts stays at 4 MiB, so its offsets fit 32 bits.
pub const MAX_TEXT_BYTES: usize = 4_096;

/// Rows of a table, and the largest row limit that an opening may choose. Twice as many, the rows and as many inserts,
/// are still counted in 32 bits.
pub const MAX_ROWS: u64 = 2_147_483_647;

/// Recent commits that an opening may choose to keep. Each keeps its changes in memory.
pub const MAX_RECENT_COMMITS: usize = 65_536;

/// Clients of one opening. Each has a reader's place of its own, and a thread where a run is threaded.
pub const MAX_CLIENTS: u32 = 64;

/// Values of a block: as many are read and written as one piece.
pub const MAX_BLOCK_VALUES: usize = 1_024;

/// The last generation of a store, since a frame spells it in four bytes.
pub const MAX_GENERATION: u32 = 4_294_967_295;

/// Bytes of a column's name in a header cell. A name is told in an error line and compared with every other name.
pub const MAX_NAME_BYTES: usize = 64;

/// Bytes of a client's name in a script. A name is in each of its client's reply lines.
pub const MAX_CLIENT_BYTES: usize = 32;
