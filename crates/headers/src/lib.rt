//! The header of a table's text, spelt: one record that names the columns, as the files of an image have it. And the schema of columns that
//! are named without one.
//!
//! *What a contract sees.* A header is the text of one record (`header_text`), each cell of it between quotes, so that a name may have
//! commas, quotes and ends of lines. What is read of it as a table is the schema that it was spelt of, without a row.
//!
//! *What it stands on.* `values` for schemas, `inputs` for what a text says as a table, `csv` for what is read of quotes, and `thiserror`
//! for what a fault shows.
#![tactic(auto)]

mod fault;
mod naming;
mod spelling;

pub use fault::HeaderFault;
pub use naming::named_schema;
pub use spelling::spell_header;
