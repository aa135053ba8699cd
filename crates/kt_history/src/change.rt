//! What a write does to one row, and what it answers.
use kt_base::Cells;

/// What a write does to the row of one key. An insert lists every column that is no key.
#[derive(Drop)]
pub enum Change {
    Ins(Cells),
    Upd(Cells),
    Del,
}

/// What became of one operation of a write.
#[derive(Clone, Copy, Debug, PartialEq, Eq)]
pub enum Outcome {
    Done,
    Present,
    Absent,
    Ignored,
}
