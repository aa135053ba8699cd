//! A base file: the rows that a disk rowset was written with, by rising key.
//!
//! In memory a base set holds the encoded keys as one column, each other column with its id, its kind and whether
//! it may be null, the Bloom filter's bytes, and every sixteenth key once more as the index. The columns are held
//! decoded, as kt_column has them, so a row is put together by one look-up in each column. Contracts see the schema
//! and the list of rows, each a key and its cells.
//!
//! For the layers above: `build` makes a base set of rows, `ordinal` finds a key's row, `row` and `key` give what
//! stands there, `spell` writes the one spelling, and `decode` answers a base set exactly where the bytes are its
//! spelling, and otherwise the place of the first fault. It stands on kt_column for the columns, on kt_lookup for
//! the filter and the index, and on kt_cells, whose definition says how a flag is read.
#![tactic(auto)]

mod asked;
mod baseset;
mod columns;
mod decoding;
mod errors;
mod fields;
mod held;
mod keys;
pub mod laws;
mod rows;
mod schema;
mod spelling;

pub use baseset::{BaseSet, build};
pub use decoding::decode;
pub use errors::CodecNo;
pub use rows::{KeyedRow, KeyedRows};
pub use schema::{ColumnShape, Schema1};
