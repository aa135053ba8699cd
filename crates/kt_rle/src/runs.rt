//! Runs of one number.

/// How often a number stands there, and the number.
#[derive(Clone, Copy)]
pub struct Run {
    pub len: u32,
    pub value: i64,
}

/// A run as it is held: where it ends among all numbers, and its number.
#[derive(Clone, Copy)]
pub struct Held {
    pub end: usize,
    pub value: i64,
}
