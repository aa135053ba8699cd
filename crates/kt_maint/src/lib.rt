//! Maintenance: a flush, a compaction, jobs on the files of one disk rowset, and the chores of a maintenance command.
//!
//! For the layer above: each `run_` call does one job for its want, or tells that there is nothing to do, and shows nothing of it: the tablet has the
//! same rows at each time from its mark on. `run_chore` does all that a command asks for. A job takes two visits of the lock: in the first, while nothing flies and no
//! record waits for the log, it reads what it takes and takes the store with it; it makes what it writes and writes it with the lock free; and in the second, while
//! nothing flies, it publishes. A flush or a compaction puts what came meanwhile into its outputs first, and a flush freezes once more then, and writes what came to the
//! MemRowSet that took inserts meanwhile too. A job on the files of one disk rowset makes and writes that anew where a change came to it.
//! The gate of the run is called outside the lock: once what a job writes there is written, and once it is done.
//! It stands on kt_engine for the events of a job, on kt_merge for what is written, and on kt_files and kt_storeside for the files and the superblock.
#![tactic(auto)]

mod changes;
pub mod chore;
pub mod deltas;
mod ending;
mod endings;
mod handing;
pub mod jobs;
mod late;
mod leaving;
mod numbers;
pub mod outside;
mod points;
mod publishing;
mod ready;
pub mod reworking;
mod rewriting;
pub mod run;
mod since;
pub mod tries;
pub mod work;

pub use chore::run_chore;
pub use run::{Ran, run_compact, run_dms_flush, run_flush, run_major, run_minor};
pub use work::pick;
