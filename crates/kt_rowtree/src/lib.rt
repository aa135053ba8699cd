//! Which rowsets may hold a key. Each rowset covers a range of keys; the tree is built from these ranges, is changed where
//! some rowsets take the place of others, and tells the rowsets whose range holds a key, and the deepest stack: those that
//! hold the key that lies in the most ranges. Its one contract for the layer above: the tree is a list of the ranges that
//! were put in, in some order, and what it tells is exact. It stands on `kt_bytes` alone.
#![tactic(auto)]

pub use kt_bytes::{NoMemory, Octets};
pub use lists::{IdList, Range, RangeList};
pub use tree::RowTree;

mod links;
pub mod lists;
mod search;
mod stack;
pub mod tree;
