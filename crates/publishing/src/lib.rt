//! The published version: readers take the newest one without a lock, and one writer puts another in its place.
//!
//! *What a contract sees.* The list of what was published since an opening: commits with their client, begin number and
//! effects, folds and checkpoints, cuts. A version that is published is the newest one of its list; a reader has seen a
//! beginning of the list, and sees a longer one with each look.
//!
//! *What it stands on.* `left_right` for the two copies of the version, `logbook` for the one list of which all that was
//! seen are beginnings, `manager` for what an opening starts from.
#![tactic(auto)]

mod book;
mod item;
mod opening;
mod published;
mod reading;
mod seen;

pub use book::Counted;
pub use item::Item;
pub use opening::Opening;
pub use published::{Notes, Published, Publishing, Sees, View};
pub use reading::{ReadingFault, VersionReader, newest_seen};
pub use seen::{ItemCounter, NewBook, SeenList};
