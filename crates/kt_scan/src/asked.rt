//! What a scan asks of each row.
ghost use Rattle.std.specs.Prelude.{true, false, ◌≡◌, ◌++◌, ◌∷◌, [], map, IfOk, OnOk};
ghost use Rattle.std.specs.List.{list_any};
ghost use Rattle.kt_schema.specs.Columns.{key_columns};
ghost use Rattle.kt_scan.specs.Asking.{others_in, asked_ids};
ghost use Rattle.kt_scan.specs.Whole.{has_id, shows_key, reads_key};

use kt_base::NoMemory;
use kt_history::{ColumnIds, Pred, Scan};
use kt_schema::{Column, Schema};
use std::alloc::Global;

/// A scan of a table with the columns of a schema.
#[derive(Clone, Copy)]
pub struct Asked<'s> {
    pub scan: &'s Scan,
    pub schema: &'s Schema,
    /// Whether the scan shows or tests a key column.
    pub with_key: bool,
    /// Whether it tests one.
    pub tests_key: bool,
    /// The columns that are no key and that it tests.
    pub tested: &'s [u16],
    /// The columns that are no key and that the scan tests or selects.
    pub ids: &'s [u16],
    ghost tests: { tests_key ≡ list_any (λ p. has_id (key_columns schema.now) p.column) scan.now.preds },
    ghost in_tests: { tested.now ≡ others_in (key_columns schema.now) (map (λ p. p.column) scan.now.preds) },
    ghost tells: { with_key ≡ reads_key (key_columns schema.now) scan.now },
    ghost asks: { ids.now ≡ asked_ids (key_columns schema.now) scan.now },
}

fn has_id(columns: &[Column], id: u16) -> bool
    ensures { result ≡ has_id columns.now id }
{
    columns.iter().any(|column| column.id == id)
}

fn has_any(columns: &[Column], ids: &[u16]) -> bool
    ensures { result ≡ list_any (has_id columns.now) ids.now }
{
    for id in ids {
        if has_id(columns, *id) {
            return true;
        }
    }
    false
}

// Whether a selection shows a key column.
fn shows_key(columns: &[Column], selection: &Option<ColumnIds>) -> bool
    ensures { result ≡ shows_key columns.now selection.now }
{
    match selection {
        None => true,
        Some(ids) => has_any(columns, ids.as_slice()),
    }
}

// Whether any test is of a key column.
fn tests_key(columns: &[Column], preds: &[Pred]) -> bool
    ensures { result ≡ list_any (λ p. has_id columns.now p.column) preds.now }
{
    for pred in preds {
        if has_id(columns, pred.column) {
            return true;
        }
    }
    false
}

// Adds a column, unless it is one of the key.
fn push_other(keys: &[Column], id: u16, ids: &mut Vec<u16>) -> Result<(), NoMemory>
    ensures { OnOk result (ids.new.items ≡ ids.old.items ++ others_in keys.now (id ∷ [])) }
{
    if has_id(keys, id) {
        return Ok(());
    }
    ids.push(id)?;
    Ok(())
}

// Adds the columns of some tests, but those of the key.
fn push_tested(keys: &[Column], preds: &[Pred], ids: &mut Vec<u16>) -> Result<(), NoMemory>
    ensures { OnOk result (ids.new.items ≡ ids.old.items ++ others_in keys.now (map (λ p. p.column) preds.now)) }
{
    for pred in preds {
        push_other(keys, pred.column, ids)?;
    }
    Ok(())
}

// Adds some columns, but those of the key.
fn push_selected(keys: &[Column], columns: &[u16], ids: &mut Vec<u16>) -> Result<(), NoMemory>
    ensures { OnOk result (ids.new.items ≡ ids.old.items ++ others_in keys.now columns.now) }
{
    for id in columns {
        push_other(keys, *id, ids)?;
    }
    Ok(())
}

/// The columns that are no key and that a scan tests.
pub fn tested_ids(alloc: Global, keys: &[Column], scan: &Scan) -> Result<Vec<u16>, NoMemory>
    ensures { IfOk result (λ ids. ids.items ≡ others_in keys.now (map (λ p. p.column) scan.now.preds)) }
{
    let mut ids = Vec::new(alloc);
    push_tested(keys, scan.preds.as_slice(), &mut ids)?;
    Ok(ids)
}

/// The columns that are no key and that a scan tests or selects.
pub fn asked_ids(alloc: Global, keys: &[Column], scan: &Scan) -> Result<Vec<u16>, NoMemory>
    ensures { IfOk result (λ ids. ids.items ≡ asked_ids keys.now scan.now) }
{
    let mut ids = Vec::new(alloc);
    push_tested(keys, scan.preds.as_slice(), &mut ids)?;
    match &scan.columns {
        Some(columns) => {
            push_selected(keys, columns.as_slice(), &mut ids)?;
            Ok(ids)
        }
        None => Ok(ids),
    }
}

impl<'s> Asked<'s> {
    /// A scan, told which columns it tests, and which it asks for.
    pub fn of(scan: &'s Scan, schema: &'s Schema, tested: &'s [u16], ids: &'s [u16]) -> Asked<'s>
        requires tested { tested.now ≡ others_in (key_columns schema.now) (map (λ p. p.column) scan.now.preds) }
        requires ids { ids.now ≡ asked_ids (key_columns schema.now) scan.now }
        ensures scan { result.scan.now ≡ scan.now }
        ensures schema { result.schema.now ≡ schema.now }
    {
        let columns = schema.key_columns();
        let tests_key = tests_key(columns, scan.preds.as_slice());
        let with_key = tests_key || shows_key(columns, &scan.columns);
        Asked {
            scan,
            schema,
            with_key,
            tests_key,
            tested,
            ids,
        }
    }

    /// Whether the columns that it tests can be read alone, and are not all that it reads.
    pub fn may_test_first(&self) -> bool
        ensures { result ≡ true → self.now.tests_key ≡ false }
    {
        if self.tests_key || self.tested.is_empty() {
            return false;
        }
        self.scan.columns.is_none() || self.tested.len() < self.ids.len()
    }
}
