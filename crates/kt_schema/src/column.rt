//! Columns, and why some make no schema.
ghost use Rattle.std.specs.Prelude.{◌≡◌};

use kt_base::{Cell, Kind, Octets};
use std::marker::Model;
use thiserror::Error;

/// A column of a table. Its id stays with it, whatever becomes of the columns around it.
#[derive(Clone, Drop)]
pub struct Column {
    pub id: u16,
    pub name: Octets,
    pub kind: Kind,
    pub key: bool,
    pub nullable: bool,
    /// What a row has here that names no cell for it. Without one it has null.
    pub default: Option<Cell>,
}

/// Columns in order. Contracts see them as a list.
#[derive(Clone, Drop)]
pub struct ColumnList {
    columns: Vec<Column>,
}

impl Model for ColumnList {
    ghost use Rattle.std.specs.Prelude.{List};
    ghost use Rattle.kt_schema.specs.declared.column.Column.{Column};

    ghost Value = { List Column };

    ghost view = { λ l. l.columns.items };
}

impl ColumnList {
    /// The columns of a vector, which takes no memory.
    pub fn of(columns: Vec<Column>) -> ColumnList
        ensures { result ≡ columns.items }
    {
        ColumnList { columns }
    }

    /// The columns as a vector, which takes no memory.
    pub fn into_vec(self) -> Vec<Column>
        ensures { result.items ≡ self }
    {
        self.columns
    }

    pub fn as_slice(&self) -> &[Column]
        ensures { result.now ≡ self.now }
    {
        &self.columns
    }
}

/// Why columns make no schema. A place is the number of a column, from 0.
#[derive(Clone, Copy, Debug, PartialEq, Eq, Error)]
pub enum SchemaNo {
    /// None is a key column.
    #[error("no column is a key")]
    S1,
    /// A key column behind one that is no key.
    #[error("key column {at} stands behind another column")]
    S2 { at: usize },
    /// A key column that may be null, or is of truth values.
    #[error("key column {at} is nullable or of truth values")]
    S3 { at: usize },
    /// A column with the name of one before it.
    #[error("column {at} has the name of one before it")]
    S4 { at: usize },
    /// More than 300 columns.
    #[error("there are more than 300 columns")]
    S5,
    /// There was no memory for the schema.
    #[error("out of memory")]
    Memory,
}
