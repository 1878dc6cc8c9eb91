//! The files of a database, before any of them is taken for what it says: which table is meant, whether a file of an image is the one
//! that the manifest means, which files the journal has, whether one is of a later version, and these as the one journal that they are.
//!
//! *What a contract sees.* A piece is the frames of a file, with the base that its header says. A journal in files is its pieces, the
//! base of the first and the frames of all, behind one another.
//!
//! *What it stands on.* `manifest` for what a database has, `journal` for headers and checks, `itoa` for the spelling of numbers, and
//! `values` for want of memory.
#![tactic(auto)]

mod ends;
mod fault;
mod listing;
mod marks;
mod naming;
mod pieces;
mod segment;
mod torn;
mod version;

pub use ends::{JournalEnd, base_before, find_end};
pub use fault::{EndFault, JoinFault, MissingFile, NameFault, SegmentFault};
pub use listing::last_file;
pub use marks::{first_damaged, has_mark};
pub use naming::table_named;
pub use pieces::{Joined, Piece, are_behind, join_files, last_len};
pub use segment::{Segment, read_segment};
pub use torn::has_frame_behind;
pub use version::is_later_header;
