//! The filter and the index of a file's keys: a Bloom filter that never hides a key, and every sixteenth key in
//! order.
//!
//! For the layers above: `build` makes both from the keys. The filter has exactly the bits that the keys set and
//! no other bytes have them, and a search of the index takes no more comparisons than its length has binary
//! digits. `spell` and `check` write and read the bytes that a base file has of both. It stands on
//! `kt_bytes` alone.
#![tactic(auto)]

mod bits;
mod filters;
mod hashing;
mod indexes;
pub mod laws;
mod lookups;
mod steps;
mod tails;

pub use kt_bytes::{NoMemory, Octets, Texts as KeyList};
pub use lookups::{Lookup, build};
pub use steps::Steps;
pub use tails::Differs;
