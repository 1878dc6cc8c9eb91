//! Sentences that explain a fault of a table's or a script's text: on which line it is, in which column, what the cell has and what
//! is wanted there.
//!
//! *What a contract sees.* A sentence is a function of the text's records, the fault, and the line on which the fault's record begins.
//! Which line that is no contract says.
//!
//! *What it stands on.* `values` for types and schemas, `inputs` for faults, records by their numbers, headers and verbs, and `csv` for
//! the cells of a record.
#![tactic(auto)]

mod arguments;
mod cells;
mod headings;
mod keys;
mod quoting;
mod script_faults;
mod table_faults;

pub use script_faults::explain_script;
pub use table_faults::explain_table;
