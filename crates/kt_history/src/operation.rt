//! The operations of a write.
use crate::OpList;
use kt_base::{Cells, Octets};

/// What an operation asks for. One that ignores does as its plain kind does, and where that would change nothing it is ignored.
#[derive(Clone, Copy, Debug, PartialEq, Eq)]
pub enum OpKind {
    Insert,
    Upsert,
    Update,
    Delete,
    InsertIgnore,
    UpdateIgnore,
    DeleteIgnore,
}

/// An operation on one key, taken apart. An insert lists every column that is no key, upsert and update list the named ones,
/// and a delete lists none; one that ignores lists what its plain kind does.
#[derive(Drop)]
pub struct RowOp {
    pub kind: OpKind,
    pub key: Octets,
    pub cells: Cells,
}

/// Operations on different keys, which are done at one timestamp.
#[derive(Drop)]
pub struct Write {
    pub ops: OpList,
}
