//! A disk as definitions: files that grow at their end, the names of one folder, the calls of the system that change them, and what a
//! crash may leave. No function here touches a file.
//!
//! *What a contract sees.* A `Disk`; a call as it begins, is done or has failed; and `MayLeave`, the disks that a crash may leave.
//!
//! *What it rests on.* The assumptions about a file system and its device that `specs/Disk.antt` names at its head.
#![tactic(auto)]

mod laws;

pub use laws::{
    a_crash_before_a_step, a_crash_in_a_write, a_crash_of_a_crash, a_kill_is_a_crash,
    a_synced_name_stays, what_was_synced_stays,
};
