//! The steps of a journal in files, as a value without input or output: it is told which commits are added, and which steps are done or
//! have failed, and it answers which append, sync or new file is due next. The caller performs the steps, on as many threads as it likes.
//!
//! *What a contract sees.* A `Steps` is a `Progress`: the numbers of the newest commits that are handed out, written and durable, and what
//! is under way. A batch is the commits that one append writes. In a law, a `World` is that with the disk.
//!
//! *What it stands on.* `disk` for what a crash may leave, `journal` for headers and frames, and `values` for want of memory.
#![tactic(auto)]

mod batch;
mod fault;
mod laws;
mod step;
mod steps;

pub use batch::{Batch, HEAD_BYTES, HEADER_BYTES, Sealed, new_frame, seal};
pub use fault::AddFault;
pub use laws::{
    a_new_journal_holds, the_journal_goes_on, the_journal_survives, the_world_does_what_is_told,
    three_steps_go_on, two_steps_make_all_durable,
};
pub use step::{Ahead, Goal, Lane, Step};
pub use steps::Steps;
