//! The plain encoding of a block's cells: numbers in their width, two's complement and lowest byte
//! first, a bool as the byte 00 or 01, and byte lists as an end position each and then all their
//! bytes.
//!
//! Its one contract: `encode` gives the one spelling of the items, and `decode` gives the items that
//! the bytes spell, or the place of the first fault; `decode_within` does so of byte lists that are no
//! longer than a limit. Items are held as a block has them: the bytes of
//! the numbers, and the bytes and ends of the byte lists. It stands on `kt_bytes` and `byteorder`.
#![tactic(auto)]

mod decoding;
mod encoding;
mod faults;
mod items;
mod laws;
mod numbers;
mod widths;

pub use decoding::{decode, decode_within};
pub use encoding::{encode, encoded_len};
pub use items::{Item, Items, get};
pub use kt_bytes::{CodecNo, NoMemory, Octets, Texts};
pub use laws::{delimited, one_value};
pub use numbers::{Numbers, value_at};
pub use widths::{NumberWidth, Width};
