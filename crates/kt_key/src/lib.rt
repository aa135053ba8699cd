//! Encoded keys: bytes that compare as the key's cells do, column by column.
//!
//! For the layers above: the order of two encoded keys is the order of their cells, and no key has two spellings.
//! It stands on the cells and kinds of `kt_base`.
#![tactic(auto)]

pub mod fit;
pub mod laws;
pub mod length;
pub mod read;
pub mod spell;

pub use fit::has_kind;
pub use length::key_len;
pub use read::decode_key;
pub use spell::{encode_key, encode_key_into};
