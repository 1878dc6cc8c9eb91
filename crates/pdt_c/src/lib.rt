//! The exports for engines that are written in C: a table's manager and its transactions behind handles that C holds, as
//! functions of the C calling convention.
//!
//! *What crosses.* Numbers, slices of numbers and of bytes, and handles: a struct of one pointer, which C keeps and hands
//! back by its address. A row or a key is its numbers, one for each column, and its texts one after the other: a text's
//! number is how many bytes it has, a truth's 0 or 1.
//!
//! *Where to look.* `calls/` has the exports, by what they are for; `handles/` what C keeps of them; `given/` cells and
//! columns that come in, and `shown_cells` cells that go out.
//!
//! *What a contract sees.* A handle is what it holds, or nothing; cells are those whose numbers and bytes C gave.
//!
//! *What C owes.* Nothing checks a C caller against the contracts: `libpdt/src` meets each `requires` before it calls.
#![tactic(auto)]

mod byte_column;
mod calls;
mod codes;
mod given;
mod handles;
mod shown_cells;
mod text_fault;
