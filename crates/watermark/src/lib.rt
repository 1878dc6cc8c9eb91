//! A monotone watermark that threads share: one writer advances it, and what a reader has loaded stays a lower bound for good.
//!
//! *What a contract sees.* The writer is the watermark, a reader is the number that it loaded last. A reader is never ahead of the
//! writer; `WatermarkWriter::retire` proves it of the reader that it is given.
//!
//! *What it stands on.* `crossbeam_utils` and `atomic_table` for a word whose passes know what they have seen.
#![tactic(auto)]

mod cell;
mod watermark;

pub use cell::{Cell, ViewPass, WatermarkId};
pub use watermark::{NewWatermark, Watermark, WatermarkReader, WatermarkWriter};
