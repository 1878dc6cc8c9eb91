//! Cells and columns that C gives.

pub(crate) mod cells;
pub(crate) mod columns;
mod filling;
