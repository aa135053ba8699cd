//! The run-length encoding of a block's numbers: runs of a length in four bytes and the number in its
//! width, lowest byte first. Each length is at least 1, neighbouring runs have different numbers, and
//! the lengths sum to the number of items.
//!
//! Its one contract: `encode` gives the one spelling of the items, and `decode` gives the items that
//! the bytes spell, or the place of the first fault. Items are held as runs, however many numbers
//! these stand for. It stands on `kt_bytes`, `kt_plain`, whose numbers it writes, and `byteorder`.
#![tactic(auto)]

mod decoding;
mod encoding;
mod items;
mod laws;
mod reading;
mod runs;

pub use decoding::decode;
pub use encoding::{encode, encoded_len, plain_len, spelled_len};
pub use items::{Item, Items, get};
pub use kt_bytes::{CodecNo, NoMemory, Octets};
pub use kt_plain::NumberWidth as Width;
pub use laws::{delimited, one_place, one_spelling, one_value};
