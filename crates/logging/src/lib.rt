//! The device that a journal is written to, and who appends frames to it: a commit is answered once it is safe.
//!
//! *What a contract sees.* A device is the bytes that it was handed, how many of them it has said to be safe, and how often it
//! has failed. A log is that, and the seed of its frames.
//!
//! *What it stands on.* `journal` for frames, `values` for want of memory, and `thiserror` for what a fault shows.
#![tactic(auto)]

mod appender;
mod boxed;
mod device;
mod failing;
mod fault;
mod file;
mod handed;
mod laws;
mod memory;

pub use appender::Appender;
pub use device::{DeviceFault, JournalDevice};
pub use failing::{FailingJournal, Failure};
pub use fault::LogFault;
pub use file::FileJournal;
pub use laws::a_device_leaves_what_was_logged;
pub use memory::{LeftJournal, MemJournal};
