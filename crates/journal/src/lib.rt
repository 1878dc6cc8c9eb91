//! A journal's bytes: its header, frames, one for each commit, what a list of bytes says as a journal, and why it ends there.
//!
//! *What a contract sees.* A frame is what it logs: the number of a commit, the greatest number that was known to be safe when
//! it was written, and its payload. A journal is read as the frames from the left that are whole, with the rest. A header is its
//! fields: a salt, a store's name and the number of the commit before the first frame.
//!
//! *What it stands on.* `values` for want of memory, and `thiserror` for what a fault shows.
#![tactic(auto)]

mod check;
mod fault;
mod frame;
mod header;
mod laws;
mod reading;
mod room;
mod witness;
mod writing;

pub use check::crc_from;
pub use fault::HeaderFault;
pub use frame::{Ending, Frame, Reading};
pub use header::{Header, NUMBER_LIMIT, read_header, seed_of, spelt_header, write_header};
pub use laws::{
    a_burst_is_found, a_changed_byte_is_found, a_crash_leaves_whole_frames, a_header_is_guarded,
    a_header_is_spelt, a_header_reads_back, a_journal_goes_on, a_journal_survives,
    a_prefix_reads_as_whole_frames, frames_read_back, rot_is_told, what_reads_is_spelt,
};
pub use reading::read_frames;
pub use writing::{frame_head, write_frame};
