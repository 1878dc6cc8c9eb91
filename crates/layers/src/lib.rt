//! Delta trees over delta trees: one folded into the tree below it, and one made consecutive to another over the same
//! image (Héman et al. 2010, "Propagate" and "Serialize").
//!
//! *What a contract sees.* Trees as the entries of effects over a table: a fold gives those of the composed effects, and
//! a tree made consecutive to another those over the table after it, or the first two entries that clash.
//!
//! *What it stands on.* `delta` for the trees, `model` for effects and their laws. No key column of a table is read.
#![tactic(auto)]

mod ahead;
mod beside;
mod blocks;
mod clash;
mod cursor;
mod list;
mod meeting;
mod passage;
mod propagation;
mod rebase;
mod shift;
mod walk;

pub use model::{Clash, ClashKind, ConflictRule};
pub use passage::{Passage, Passed};
pub use propagation::propagate;
pub use rebase::{Serialized, serialize};
