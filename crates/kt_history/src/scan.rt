//! What a scan asks for.
ghost use Rattle.std.specs.Prelude.{◌≡◌, ◌==◌, length};

use kt_base::Cell;
use std::marker::Model;

/// When a scan reads: at the timestamp that it has drawn, or at one that is given.
#[derive(Clone, Copy, Debug, PartialEq, Eq)]
pub enum At {
    Looked,
    Given(u64),
}

/// A test of one cell. A comparison with null is false.
#[derive(Drop)]
pub enum Test {
    Eq(Cell),
    Lt(Cell),
    Le(Cell),
    Gt(Cell),
    Ge(Cell),
    IsNull,
    NotNull,
}

/// A test of the cell in one column.
#[derive(Drop)]
pub struct Pred {
    pub column: u16,
    pub test: Test,
}

/// The tests of a scan, all of which a row passes. Contracts see them as a list.
#[derive(Drop)]
pub struct PredList {
    preds: Vec<Pred>,
}

impl Model for PredList {
    ghost use Rattle.std.specs.Prelude.{List};
    ghost use Rattle.kt_history.specs.declared.scan.Pred.{Pred};

    ghost Value = { List Pred };

    ghost view = { λ l. l.preds.items };
}

impl PredList {
    /// The tests of a vector, which takes no memory.
    pub fn of(preds: Vec<Pred>) -> PredList
        ensures { result ≡ preds.items }
    {
        PredList { preds }
    }

    pub fn len(&self) -> usize
        ensures { result ≡ length self.now }
    {
        self.preds.len()
    }

    pub fn is_empty(&self) -> bool
        ensures { result ≡ (length self.now == 0) }
    {
        self.preds.is_empty()
    }

    pub fn as_slice(&self) -> &[Pred]
        ensures { result.now ≡ self.now }
    {
        &self.preds
    }
}

/// The ids of selected columns, in the order of the selection. Contracts see them as a list.
#[derive(Drop)]
pub struct ColumnIds {
    ids: Vec<u16>,
}

impl Model for ColumnIds {
    ghost use Rattle.std.specs.Prelude.{List, ℕ};

    ghost Value = { List ℕ };

    ghost view = { λ l. l.ids.items };
}

impl ColumnIds {
    /// The ids of a vector, which takes no memory.
    pub fn of(ids: Vec<u16>) -> ColumnIds
        ensures { result ≡ ids.items }
    {
        ColumnIds { ids }
    }

    pub fn as_slice(&self) -> &[u16]
        ensures { result.now ≡ self.now }
    {
        &self.ids
    }
}

/// What is read, which columns of it are shown, and which rows. Without a selection every column is shown.
#[derive(Drop)]
pub struct Scan {
    pub at: At,
    pub columns: Option<ColumnIds>,
    pub preds: PredList,
}
