//! A column as it is written into a base file: blocks of up to 8,192 cells of one kind, or of encoded
//! keys, all of them full but the last. Each block is in the shortest of the four encodings that its
//! kind allows, and of encodings that are as long in the one of the lowest number.
//!
//! In memory a block that was read is held as its encoding has it: plain values, runs, entries with a
//! code for each cell, or prefixes with where their stretches begin. So a column takes a few times its
//! bytes, whatever they stand for. In a nullable column it has for each cell the place of its value.
//! `cell` and `compare` take one division and look up one value there, and make no list of the others. A
//! block of cells is held as plain values, and its encoding is chosen when it is written. Contracts see
//! a block and a column as their lists of cells.
//!
//! `spell` writes the one spelling, and `decode` answers the cells exactly where the bytes begin with
//! their spelling, and otherwise the first place at which they don't. A byte list that is too long
//! is at fault at its length. A block that is written in an encoding that is not the shortest is at
//! fault at its first byte, the number of its encoding: that is a rule on the block as a whole.
#![tactic(auto)]

// What `?` gives where the error stays as it is, with no conversion to be proved.
macro_rules! tri {
    ($result:expr) => {
        match $result {
            Ok(value) => value,
            Err(error) => return Err(error),
        }
    };
}

mod block;
mod cells;
mod column;
mod column_decoding;
mod decoding;
mod errors;
mod form;
mod held;
mod laws;
mod least;
mod lengths;
mod nulls;
mod parts;
mod reading;
mod rising;
mod values;

pub use block::Block;
pub use cells::Cells1;
pub use column::{ColumnData, build, build_keys};
pub use column_decoding::{decode, decode_keys};
pub use decoding::{Found, decode_block};
pub use errors::CodecNo;
pub use form::{Encoding, Form};
pub use laws::{one_column, one_column_spelling, one_place, one_spelling};
pub use rising::decode_rising;
