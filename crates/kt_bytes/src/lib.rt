//! Byte strings, lists of them, and how every format reads its fields and tells the place of a fault.
//! It stands on `byteorder` alone.
#![tactic(auto)]

pub mod fault;
pub mod fields;
pub mod memory;
pub mod octets;
pub mod texts;

pub use fault::{CodecNo, Stop};
pub use memory::NoMemory;
pub use octets::Octets;
pub use texts::{Texts, start_at};
