//! A counted tree of entries: nodes are shared, and a writing call copies those on its path that others share, once.
#![tactic(auto)]

mod children;
mod entry;
mod entry_place;
mod iter;
mod leaf;
mod node;
mod search;
mod spot;
mod steps;
mod tree;

pub use entry::{ChangeRef, Lead, SharedEntry};
pub use entry_place::EntryPlace;
pub use iter::Iter;
pub use search::{First, Probe, Target};
pub use spot::Spot;
pub use steps::Steps;
pub use tree::CountedTree;
