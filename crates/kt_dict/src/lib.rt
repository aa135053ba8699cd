//! Dictionary blocks: the different cells of a string or binary column, each once, in the order of
//! their first use, and then for each cell the place of its bytes among them.
//!
//! `encode` writes the one spelling of a list of byte strings with at most 4,096 different ones, and
//! `decode` answers that list exactly where the bytes spell it, and otherwise the first place at
//! which they don't; `decode_within` does so of items that are no longer than a limit. A list that was
//! read is held as it stands on disk, each entry once and a code for each cell, and `get` hands out an
//! item where its entry lies. `Entries` tells how long the block of a list would be whose items are
//! gone over one by one.
#![tactic(auto)]

// What `?` gives where the error stays as it is, with no conversion to be proved.
macro_rules! tri {
    ($result:expr) => {
        match $result {
            Ok(value) => value,
            Err(error) => return Err(error),
        }
    };
}

mod entries;
mod error;
mod items;
mod laws;
mod reading;
mod table;
mod writing;

pub use entries::Entries;
pub use error::{CodecNo, Width};
pub use items::{Item, Items, get};
pub use kt_bytes::{NoMemory, Octets, Texts};
pub use laws::{one_place, one_value};
pub use reading::{decode, decode_within};
pub use writing::{encode, encoded_len};
