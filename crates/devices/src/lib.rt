//! The devices that columns are written to, and the store that writes tables to them.
//!
//! *What a contract sees.* A device is the bytes that it has taken and how often it has failed.
//!
//! *What it stands on.* `values`, `blocks`, `stable`, `frames` for the frames of a column, and `thiserror` for what a
//! fault shows.
#![tactic(auto)]

mod boxed;
mod device;
mod fail_at;
mod fault;
mod file;
mod laws;
mod memory;
mod pieces;
mod reading;
mod store;

pub use device::{ColumnDevice, DeviceFault, ended};
pub use fail_at::FailAt;
pub use fault::StoreFault;
pub use file::FileColumn;
pub use frames::ReadFault;
pub use laws::newest_is_the_greatest;
pub use memory::MemColumn;
pub use reading::{StoredImage, read_store};
pub use store::{Store, have_failed};
