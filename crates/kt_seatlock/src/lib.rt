//! A lock whose value is moved out of one slot for each visit and home again, with a pass for each caller.
//!
//! The value tells a trail, a list that visits only add to, and a part for each pass number. Every visit finds the trail that its pass has seen, gone on
//! with entries of others alone, and its own part as it left it. So when the last pass closes the lock, the trail holds of each pass just the entries that
//! it made, each once and in order. The crate knows nothing of the value but this, and stands on `atomic_table` alone.
//!
//! A visit that waits for nobody costs two atomic changes, and a third where it added an entry, and the value is moved out and home. A value of more than
//! a few words should therefore keep its bulk in a `Box`. A caller that waits tries for a short while, sleeps, and is woken when a visit ends. One that rests
//! for others' visits then sleeps again, without a visit of its own, where each that has ended since its last one left the value as it was got.
#![tactic(auto)]

mod laws;
mod life;
mod lock;
mod parting;
mod pass;
mod plays;
mod rule;
mod shared;
mod tells;
mod uses;
mod view;
mod visits;

pub use laws::{own_law, part_law, trail_law};
pub use lock::{NoMemory, SeatLock};
pub use pass::Pass;
pub use rule::Seats;
pub use shared::Shared;
pub use uses::{Journal, Line, count_lines, note, write_all};
pub use view::{Joined, Stage, View};
