//! Delta trees: the entries of a transaction, or of a layer, over the rows of the image below it (Héman et al. 2010,
//! "Positional Delta Tree").
//!
//! A contract sees a tree as its lawful list of entries: in ascending SID, at one SID the inserts by key and then
//! either one delete or the modifies by column. It stands on `values` and `model`.
#![tactic(auto)]

mod by_sid;
mod changes;
mod entries;
mod folds;
mod laws;
mod lookup;
mod places;
mod sorted;
mod tree;

pub use by_sid::{BaseChange, SidPlace, Sought};
pub use counted::{ChangeRef, Iter, SharedEntry, Steps};
pub use folds::Fold;
pub use laws::{a_write_is_one_call, canonical_look_ups, inserts_ascend_at_a_sid};
pub use model::{Change, Entry};
pub use places::{Place, Walk};
pub use tree::DeltaTree;
