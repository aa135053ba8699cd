//! A pool of cells: one block of memory, made once, in which byte strings are placed and given back. Taking a cell
//! and giving one back take constant time, and once cells are reserved, placing in them cannot fail. Its one contract
//! for the layer above: the pool is a list with an entry for each cell, the bytes of the place that begins there or
//! none, and a count of reserved cells; a call changes the entry of its own place and no other. It stands on nothing.
#![tactic(auto)]

pub use error::{Full, NoMemory};
pub use place::Place;
pub use pool::Pool;

mod cells;
pub mod error;
pub mod place;
pub mod pool;
