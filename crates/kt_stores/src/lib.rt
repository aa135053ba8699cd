//! The stores of a tablet in one pool: the MemRowSet that takes inserts, the frozen ones, and the disk rowsets.
//!
//! For the layer above: an operation goes to the store that has its row, or else to the one that takes inserts, and no
//! other store changes. All cells of the pool that are used are the stores'. It stands on the pool, the MemRowSet, and on
//! what a store of rows is. Of each disk rowset they tell its files, which no operation touches.
#![tactic(auto)]

pub mod file_store;
pub mod range_tree;
pub mod ranged_rowsets;
pub mod stores;

pub use file_store::FileStore;
pub use ranged_rowsets::RangedRowSets;
pub use stores::Stores;
