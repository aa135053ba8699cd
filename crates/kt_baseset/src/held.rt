//! A column in memory.

use crate::schema::ColumnShape;
use kt_column::ColumnData;

/// A column that is not part of the key, and its cells.
#[derive(Drop)]
pub struct HeldColumn {
    pub shape: ColumnShape,
    pub column: ColumnData,
}
