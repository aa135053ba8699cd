//! The columns of a table, and the check of a row against them.
//!
//! For the layers above: columns make a schema exactly where none of the refusals S1 to S5 holds, and a row passes
//! exactly where none of S6 to S9 does; of those that hold the first is told, with its least place, counted from 0.
//! It stands on the cells of `kt_base` and the encoded keys of `kt_key`.
#![tactic(auto)]

pub mod column;
pub mod name;
pub mod row;
pub mod schema;

pub use column::{Column, ColumnList, SchemaNo};
pub use name::is_name;
pub use row::RowNo;
pub use schema::Schema;
