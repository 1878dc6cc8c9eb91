//! Runs that the program's words can't ask for: over devices that fail, to writers that refuse, with clients who meet, and what they hand
//! on. Those that they can are in examples/cases.
mod checkpoints;
mod edges;
mod long_run;
mod long_scan;
mod memory;
mod outcomes;
mod refusals;
mod regrown;
mod threads;
mod writers;

use model::ConflictRule;
use pdtcli::OpenOptions;
use values::limits::MAX_ROWS;

/// The base table as a file.
const BASE_TEXT: &[u8] = b"id:int:key,name:text,qty:int\n10,Ann,1\n20,Bob,2\n30,Cid,3\n";

/// How many columns it has.
const BASE_COLUMNS: usize = 3;

/// What a run is opened with where nothing is said.
const USUAL: OpenOptions = OpenOptions {
    recent: 64,
    limit: MAX_ROWS,
    conflicts: ConflictRule::ByColumn,
};
