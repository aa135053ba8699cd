//! The columns of a base file that are not the key's.
ghost use Rattle.std.specs.Prelude.{◌≡◌, length};

use kt_base::Kind;
use std::marker::Model;

/// A column that is not part of the key.
#[derive(Clone, Copy, PartialEq, Eq)]
pub struct ColumnShape {
    pub id: u16,
    pub kind: Kind,
    pub nullable: bool,
}

/// The columns that are not part of the key, by rising id. Contracts see them as a list.
#[derive(Drop)]
pub struct Schema1 {
    columns: Vec<ColumnShape>,
}

impl Model for Schema1 {
    ghost use Rattle.std.specs.Prelude.{List};
    ghost use Rattle.kt_baseset.specs.declared.schema.ColumnShape.{ColumnShape};

    ghost Value = { List ColumnShape };

    ghost view = { λ s. s.columns.items };
}

impl Schema1 {
    /// The columns of a vector, which takes no memory.
    pub fn of(columns: Vec<ColumnShape>) -> Schema1
        ensures { result ≡ columns.items }
    {
        Schema1 { columns }
    }

    /// The columns as a vector, which takes no memory.
    pub fn into_vec(self) -> Vec<ColumnShape>
        ensures { result.items ≡ self }
    {
        self.columns
    }

    pub fn len(&self) -> usize
        ensures { result ≡ length self.now }
    {
        self.columns.len()
    }

    pub fn as_slice(&self) -> &[ColumnShape]
        ensures { result.now ≡ self.now }
    {
        &self.columns
    }
}
