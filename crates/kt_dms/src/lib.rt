//! The changes in memory of one disk rowset, each of a row by its ordinal and at a timestamp. All of it lies in the cells of
//! a pool: nodes and keys in a tree whose order is that of ordinals and then of timestamps, and each change in a place
//! of its own.
//!
//! For the layer above: read with its pool, a DeltaMemStore is a sorted list of changes, and a call changes no place but
//! its own. It stands on the pool and the tree, and on the definitions of changes and of how cells are spelled.
#![tactic(auto)]

pub mod changes;
pub mod keys;
pub mod laws;
pub mod rows;
pub mod store;

pub use store::DeltaMem;
