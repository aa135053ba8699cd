//! A disk rowset as its files and its changes in memory tell it. The files are shared by several owners.
//!
//! For the layer above: a row at a time is its base row, with every UNDO record above the time taken back from the newest, and
//! then every REDO record at or below it done from the oldest; and behind these the changes of its DeltaMemStores, the
//! oldest first. Read with its pool, a disk rowset is a list of histories by key, and so a store of rows, which takes no insert.
//! As plain data it tells its rows at a time, one by one, in pages or all of them, and its keys; and so does what a scan reads of it,
//! which holds its files and its changes up to a time (`ViewStore`). It stands on base files, delta files,
//! DeltaMemStores and the definitions of rows in files.
#![tactic(auto)]

pub mod alive;
pub mod base;
pub mod data;
pub mod files;
mod fitting;
mod fresh;
pub mod inputs;
pub mod laws;
pub mod mems;
pub mod page;
mod row_store;
pub mod rows;
pub mod rowset;
pub mod table;
mod taking;
pub mod view;

pub use alive::is_alive;
pub use base::BaseHeld;
pub use data::RowSetData;
pub use files::{FileHeld, FileLists};
pub use inputs::{ChangeLists, Inputs, Missed, Outputs, RowSetList};
pub use mems::{is_live_after, row_after};
pub use page::Page;
pub use rows::row_at;
pub use rowset::DiskRowSet;
pub use view::RowSetView;
