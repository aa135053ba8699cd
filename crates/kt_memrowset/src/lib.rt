//! The rows of a MemRowSet: sorted by their encoded keys, each with the chain of its changes, the oldest first. All of it
//! lies in the cells of a pool: keys and nodes in a tree, whose values are the places of the rows' first changes, and each
//! change in a place of its own.
//!
//! For the layer above: read with its pool, a MemRowSet is a store of histories, and a call changes no place but its own.
//! It stands on the pool and the tree, and on the definitions of histories and of how cells are spelled.
#![tactic(auto)]

pub mod chain;
pub mod laws;
pub mod link;
mod row_store;
pub mod store;
pub mod times;
pub mod write;

pub use store::MemRowSet;
