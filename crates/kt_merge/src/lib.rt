//! What maintenance writes: histories of rows as the rows and records of new files, and the records of several files as one.
//!
//! For the layer above: `merge_rows` writes of each key of its inputs one row, which has the row at a mark and the changes above it up
//! to a bound; `major` folds a rowset's REDO records into its base rows, which then tell the same; `minor` makes one REDO file of
//! several, with all their records; `with_deltas`, `with_one_redo` and `with_folded` write one rowset's files anew, so that they tell
//! exactly what it told; `folded_whole` is both of the first and the last, with each row's changes in their order. `with_late` puts into an output what its
//! inputs took since they were read, and `with_changes` what the lists of a flush have. It stands on disk rowsets as plain data, on base files and delta files, and on the definitions of
//! changes and of histories.
#![tactic(auto)]

pub mod changes;
pub mod compacting;
pub mod fitting;
pub mod folding;
pub mod heads;
pub mod late;
pub mod laws;
pub mod merge;
pub mod output;
pub mod outputs;
pub mod placing;
pub mod redo;
pub mod refold;
pub mod rewrite;
pub mod row;
mod undoing;

pub use compacting::folded_whole;
pub use folding::{Folded, major};
pub use late::with_late;
pub use merge::merge_rows;
pub use placing::with_changes;
pub use redo::{merge_files, minor};
pub use refold::with_folded;
pub use rewrite::{with_deltas, with_one_redo};
pub use row::{RowWritten, fold_row, write_row};
