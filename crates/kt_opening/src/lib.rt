//! The text of an opening: the rows at an ancient history mark and the writes above it, as a checker reads them.
//!
//! For the layers above: `read_opening` reads the opening that a text begins with, and where there is none it tells the first
//! byte at which no opening goes on. It stands on the openings of kt_judge and the literals of kt_script.
#![tactic(auto)]

mod line_fronts;
mod lines;
mod live;
mod opening_lines;
mod opening_text;
mod parts;

pub use opening_text::{OpeningNo, Read, read_opening};
