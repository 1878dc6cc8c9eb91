//! The stable table: the rows of a table in key order, kept column by column in blocks of 1,024 values.
//!
//! *What a contract sees.* A table is its schema and the list of its rows, which fit the schema and ascend by their
//! keys. Rows that make no table are refused with the first fault.
//!
//! *What it stands on.* `values` for schemas, rows and limits, `blocks` for the values of a column, `model` for what a
//! table is, and `thiserror` for what a fault shows.
#![tactic(auto)]

mod bounds;
mod column;
mod columns;
mod fault;
mod halving;
mod order;
mod table;

pub use column::Column;
pub use fault::BuildFault;
pub use table::StableTable;
