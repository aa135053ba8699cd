//! Changes, and lists of them by ordinal.
ghost use Rattle.std.specs.Prelude.{◌≡◌, ◌==◌, length};

use crate::Change;
use kt_base::Octets;
use std::marker::Model;

/// A change of a key's row at a timestamp.
#[derive(Drop)]
pub struct KeyChange {
    pub key: Octets,
    pub ts: u64,
    pub change: Change,
}

/// A change of the row with this ordinal at a timestamp.
#[derive(Drop)]
pub struct Delta {
    pub ordinal: u32,
    pub ts: u64,
    pub change: Change,
}

/// Changes by ordinal, then timestamp. Contracts see them as a list.
#[derive(Drop)]
pub struct DeltaList {
    deltas: Vec<Delta>,
}

impl Model for DeltaList {
    ghost use Rattle.std.specs.Prelude.{List};
    ghost use Rattle.kt_history.specs.declared.changes.Delta.{Delta};

    ghost Value = { List Delta };

    ghost view = { λ l. l.deltas.items };
}

impl DeltaList {
    /// The changes of a vector, which takes no memory.
    pub fn of(deltas: Vec<Delta>) -> DeltaList
        ensures { result ≡ deltas.items }
    {
        DeltaList { deltas }
    }

    pub fn len(&self) -> usize
        ensures { result ≡ length self.now }
    {
        self.deltas.len()
    }

    pub fn is_empty(&self) -> bool
        ensures { result ≡ (length self.now == 0) }
    {
        self.deltas.is_empty()
    }

    pub fn as_slice(&self) -> &[Delta]
        ensures { result.now ≡ self.now }
    {
        &self.deltas
    }
}
