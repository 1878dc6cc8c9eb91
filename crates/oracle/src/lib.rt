//! The slow, plain program beside the definitions: what each call answers is a definition of `model`, word for word.
//! Maps are std's ordered maps, and everything is copied. Tests compare the faster crates with it.
#![tactic(auto)]

mod effect;
mod effects;
mod entries;
mod map;
mod replay;
mod start;
mod table;

pub use effects::Effects;
pub use entries::{canonical_entries, merged_rows};
pub use replay::{due_reply, is_legal, table_after};
pub use start::Start;
pub use table::{OrderedTable, effects_of_writes};
