//! A sorted map from byte strings to places, which lies in the cells of a pool: a cell for each node, and those of its
//! key. Its one contract for the layer above: read with its pool, a tree is a rising list of keys with the places of
//! their values, and a call changes no place but the tree's own. It stands on the pool.
#![tactic(auto)]

pub use seat::Seat;
pub use tree::{Pair, Tree};
pub use walk::Walk;

pub mod change;
pub mod node;
pub mod seat;
pub mod tree;
pub mod walk;
