//! A transaction: a client's writes over a version of the table, which stays as it is however others commit, and what it
//! reads of the two.
//!
//! *What a contract sees.* A version is its layers and the number of the commits that made it; its table is a function of
//! the layers. A transaction is its version's table and number, its row limit, its client, and its writes with the reply
//! that each was due. Its tree is the canonical entries of the writes' effects over the version's table, and its reads
//! are of that table with those effects.
//!
//! *What it stands on.* `values` for schemas, rows and limits, `model` for tables, writes and effects, `stable` and
//! `delta` for a version's layers and the transaction's tree, `merge` for reads, and `thiserror` for what a fault shows.
#![tactic(auto)]

mod fault;
mod laws;
mod mark;
mod parts;
mod reads;
mod slot;
mod transaction;
mod version;
mod writes;

pub use fault::WriteFault;
pub use laws::marks_stand;
pub use mark::Mark;
pub use merge::{ReadTree, RowView, Stretch};
pub use model::WriteReply;
pub use parts::{Parts, Rest};
pub use transaction::Txn;
pub use version::Version;
