//! A source read whole, and a text written whole.
//!
//! For the layers above: `read_all` takes all bytes of a source, or so many of them, and `write_all` writes a text to a
//! sink, or a front of it where the sink fails. It stands on the source and the sink of kt_base.
#![tactic(auto)]

pub mod streams;

pub use streams::{ReadNo, read_all, write_all};
