//! Values, rows and keys of an ordered table, their orders, and the schema that they are checked against.
//!
//! *What a contract sees.* A text is its bytes, a row or a key the list of its values, and a schema its columns' names
//! and types with the number of key columns. A value that is lent says the same as the value that it is lent from. The
//! orders are lawful, and only equal values tie. A check answers the first fault, or that there is none.
//!
//! *What it stands on.* The standard library, and `thiserror` for what a fault shows.
#![tactic(auto)]

mod fault;
pub mod limits;
mod row;
mod schema;
mod shared_row;
mod text;
mod value;

pub use fault::{NoMemory, SchemaFault, ShapeFault};
pub use row::{Key, Row};
pub use schema::Schema;
pub use shared_row::SharedRow;
pub use text::{Text, copy_texts};
pub use value::{ColumnType, Value, ValueRef};
