//! The marks of a store's images: how many commits had made the image of each generation, in a journal of their own.
//!
//! *What a contract sees.* A mark is a generation and a number. The marks of a store are their journal, and the number of its next
//! frame. In a journal that is read, the last mark of a generation counts.
//!
//! *What it stands on.* `journal` for frames and `logging` for devices, `values` for want of memory, and `thiserror` for what a
//! fault shows.
#![tactic(auto)]

mod fault;
mod laws;
mod mark;
mod marking;
mod reading;

pub use fault::ImagesFault;
pub use laws::{a_crash_leaves_the_marks, a_mark_reads_back};
pub use mark::ImageMark;
pub use marking::Images;
pub use reading::image_number;
