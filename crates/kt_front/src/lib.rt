//! Prefix blocks: the cells of a string or binary column, each written as how many bytes it shares
//! with the cell before and the bytes that follow those. Every sixteenth cell shares nothing, so the
//! sixteen cells from there on, a stretch, are read on their own.
//!
//! `encode` writes the one spelling of a list of byte strings, and `decode` answers that list exactly
//! where the bytes spell it, and otherwise the first place at which they don't; `decode_within` does so
//! of items that are no longer than a limit. A list that was read is held as it stands on disk, with
//! where its stretches begin, and `get` hands out an item where it stands: its length, its order
//! against a key and a copy of it come from its stretch alone. `first_fall`
//! tells where items that are to rise stop doing so. `compare` and `compare_at` order an item of a block's bytes against a key.
#![tactic(auto)]

mod items;
mod laws;
mod prefix;
mod reading;
mod rising;
mod starts;
mod walking;
mod width;
mod writing;

pub use items::{Item, Items, get};
pub use kt_bytes::{CodecNo, NoMemory, Octets, Texts};
pub use laws::{fields_spell, one_place, one_value};
pub use reading::{decode, decode_within};
pub use rising::first_fall;
pub use starts::{Starts, compare_at};
pub use walking::compare;
pub use width::Width;
pub use writing::{cell_len, encode};
