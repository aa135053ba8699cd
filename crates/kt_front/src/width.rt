//! What the cells of a block are.

/// What the cells of a block are: a prefix block holds byte strings alone.
#[derive(Clone, Copy, PartialEq, Eq)]
pub enum Width {
    Bytes,
}
