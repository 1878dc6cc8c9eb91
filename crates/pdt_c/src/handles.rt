//! What C keeps: each handle is a struct of one pointer.

pub(crate) mod decision;
pub(crate) mod ended;
pub(crate) mod held;
pub(crate) mod image;
pub(crate) mod journal_frames;
pub(crate) mod layer;
pub(crate) mod listed;
pub(crate) mod next_table;
pub(crate) mod open_batch;
pub(crate) mod open_journal;
pub(crate) mod pin;
pub(crate) mod store;
pub(crate) mod transaction;
pub(crate) mod trees;
