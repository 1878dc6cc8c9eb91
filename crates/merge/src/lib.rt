//! The image of a stable table under its three layers of changes: rows by position, the rank of a key, scans and stretches
//! (Héman et al. 2010, "MergeScan"). Everything is lent; no call but the copy of a row takes memory.
//!
//! *What a contract sees.* Layers are the schema, the stable rows and the entries of three trees; the image is what each
//! tree in turn makes of the rows below it. A view is its row, a scan the rows that are left, and so are stretches; stretches
//! with their places are the layers, a position and how many rows are left from there; the runs of a column are its type and
//! the values that are left.
//!
//! *What it stands on.* `stable` for the rows, `delta` for the trees, `model` for what merged rows are.
#![tactic(auto)]

mod column_stretch;
mod cursor;
mod image;
mod key_row;
mod laws;
mod layers;
mod level;
mod number_rows;
mod number_runs;
mod numbers;
mod packed;
mod packed_rows;
mod placed;
mod read_rows;
mod read_tree;
mod run;
mod runs;
mod scan;
mod stretch;
mod table;
mod view;

pub use laws::{a_merge_commutes, a_placeholder_is_enough, altered_entries_are_ordered};
pub use layers::Layers;
pub use level::grown;
pub use number_runs::{NumberRun, NumberRuns};
pub use packed::Packed;
pub use placed::PlacedStretches;
pub use read_tree::ReadTree;
pub use run::{Run, TextRun, TruthRun};
pub use runs::ColumnRuns;
pub use scan::{MergeScan, Stretches};
pub use stretch::{StableStretch, Stretch};
pub use view::RowView;
