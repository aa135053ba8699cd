//! How a store tells its rows to a scan: a visit reads so little of it that its rows up to a time can be told later, when
//! the store is out of reach.
//!
//! For the layers above: `ViewStore`, a store of rows that can be read so, `StoreRows`, what was read of one, and `Table`,
//! the rows at one time, which is a view. It stands on the stores and views of `kt_history`.
#![tactic(auto)]

mod lookup;
pub mod table;
pub mod view_store;

pub use table::Table;
pub use view_store::{StoreRows, ViewStore};
