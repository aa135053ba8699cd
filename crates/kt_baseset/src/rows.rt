//! The rows of a base file.
ghost use Rattle.std.specs.Prelude.{◌≡◌, length};

use kt_base::{Cells, Octets};
use std::marker::Model;

/// A row: its encoded key, and its cells under the columns that are not the key's.
#[derive(Drop)]
pub struct KeyedRow {
    pub key: Octets,
    pub cells: Cells,
}

/// Rows by rising key. Contracts see them as a list.
#[derive(Drop)]
pub struct KeyedRows {
    rows: Vec<KeyedRow>,
}

impl Model for KeyedRows {
    ghost use Rattle.std.specs.Prelude.{List};
    ghost use Rattle.kt_baseset.specs.declared.rows.KeyedRow.{KeyedRow};

    ghost Value = { List KeyedRow };

    ghost view = { λ r. r.rows.items };
}

impl KeyedRows {
    /// The rows of a vector, which takes no memory.
    pub fn of(rows: Vec<KeyedRow>) -> KeyedRows
        ensures { result ≡ rows.items }
    {
        KeyedRows { rows }
    }

    /// The rows as a vector, which takes no memory.
    pub fn into_vec(self) -> Vec<KeyedRow>
        ensures { result.items ≡ self }
    {
        self.rows
    }

    pub fn len(&self) -> usize
        ensures { result ≡ length self.now }
    {
        self.rows.len()
    }

    pub fn as_slice(&self) -> &[KeyedRow]
        ensures { result.now ≡ self.now }
    {
        &self.rows
    }
}
