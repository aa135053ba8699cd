//! The tablet as a machine: what changes do to rows, what a history is, which lines may come next, and the
//! reply that each line gives. The types are the plain values that contracts speak of.
//!
//! For the layers above: the definitions in `specs/`, the laws of `laws` over them, and what a store of rows is. It
//! stands on kt_base, kt_cells and kt_pool.
#![tactic(auto)]

pub mod change;
pub mod change_list;
pub mod change_store;
pub mod changes;
pub mod command;
pub mod effect;
pub mod event;
pub mod laws;
pub mod need;
pub mod op_list;
pub mod operation;
pub mod reply;
pub mod row_list;
pub mod row_ref;
pub mod row_store;
pub mod scan;
mod shared_texts;
pub mod target;
mod text_part;
pub mod view;

pub use change::{Change, Outcome};
pub use change_list::{ChangeList, ChangeRef};
pub use change_store::ChangeStore;
pub use changes::{Delta, DeltaList, KeyChange};
pub use command::{Command, Plan, Session};
pub use effect::{apply, outcome, put_cell, undo_of, with_cells};
pub use event::{Event, EventList};
pub use need::{cells_needed, cells_of};
pub use op_list::{OpList, OpRef};
pub use operation::{OpKind, RowOp, Write};
pub use reply::{OutcomeList, Reply};
pub use row_list::{RowCells, RowList};
pub use row_ref::RowRef;
pub use row_store::{RowStore, Taken, kind_made};
pub use scan::{At, ColumnIds, Pred, PredList, Scan, Test};
pub use target::{Kindly, Target};
pub use view::View;
