//! The keys of several views, by rising bytes, and the rows of each.
ghost use Rattle.std.specs.Prelude.{◌≡◌, ◌≤◌, Some, None, IfOk, if◌then◌else◌};
ghost use Rattle.std.specs.List.{All};
ghost use Rattle.std.specs.Option.{option_copied};
ghost use Rattle.kt_history.specs.Rows.{AgreeOn};
ghost use Rattle.kt_history.specs.Views.{key_above};
ghost use Rattle.kt_scan.specs.Live.{lesser, all_keys, row_in};

use kt_base::NoMemory;
use kt_history::{RowRef, View};
use std::alloc::Global;

/// A place for each view, where it is looked at first. The places tell nothing: they only save a search.
#[derive(Drop)]
pub struct Hints {
    places: Vec<usize>,
    kept: Vec<usize>,
}

impl Hints {
    /// The first places of so many views.
    pub fn new(alloc: Global, views: usize) -> Result<Hints, NoMemory> {
        let mut places = Vec::with_capacity(alloc, views)?;
        let mut kept = Vec::with_capacity(alloc, views)?;
        for _ in 0..views {
            places.push(0)?;
            kept.push(0)?;
        }
        Ok(Hints { places, kept })
    }

    /// Keeps the places, to go back to them.
    pub fn keep(&mut self) {
        for (kept, place) in self.kept.iter_mut().zip(self.places.iter()) {
            *kept = *place;
        }
    }

    /// Goes back to the places that were kept last.
    pub fn go_back(&mut self) {
        std::mem::swap(&mut self.places, &mut self.kept);
    }

    fn place(&self, view: usize) -> usize {
        self.places.get(view).copied().unwrap_or(0)
    }

    fn set(&mut self, view: usize, place: usize) {
        if let Some(old) = self.places.get_mut(view) {
            *old = place;
        }
    }
}

// The lesser of two keys.
fn lesser<'v>(one: Option<&'v [u8]>, other: Option<&'v [u8]>) -> Option<&'v [u8]>
    ensures { option_copied result ≡ lesser (option_copied one.entry) (option_copied other.entry) }
{
    match (one, other) {
        (None, other) => other,
        (Some(one), None) => Some(one),
        (Some(one), Some(other)) => {
            if other.cmp(&one).is_lt() {
                Some(other)
            } else {
                Some(one)
            }
        }
    }
}

/// The least key of any view above another, or the least one of all.
pub fn next_key<'v, V: View>(
    views: &'v [V],
    after: Option<&[u8]>,
    hints: &mut Hints,
) -> Option<&'v [u8]>
    ensures { option_copied result ≡ key_above (option_copied after.entry) (all_keys V.keys views.now) }
{
    let mut found = None;
    for (at, view) in views.iter().enumerate() {
        let mut place = hints.place(at);
        found = lesser(found, view.next_key(after, &mut place));
        hints.set(at, place);
    }
    found
}

/// The row of a key at a time, of the first view that has one. Tells whether there is one.
pub fn row_into<'v, V: View>(
    views: &'v [V],
    key: &[u8],
    t: u64,
    hints: &mut Hints,
    row: &mut RowRef<'v>,
) -> Result<bool, NoMemory>
    requires { All (λ v. V.mark v ≤ t) views.now }
    ensures { IfOk result (λ found. row_in V.row_of views.now key.now t ≡ (if found then Some row.new else None)) }
{
    for (at, view) in views.iter().enumerate() {
        let mut place = hints.place(at);
        let found = view.row_into(key, t, &mut place, row)?;
        hints.set(at, place);
        if found {
            return Ok(true);
        }
    }
    Ok(false)
}

/// As `row_into`, of the columns alone that are asked for.
pub fn columns_into<'v, V: View>(
    views: &'v [V],
    ids: &[u16],
    key: &[u8],
    t: u64,
    hints: &mut Hints,
    row: &mut RowRef<'v>,
) -> Result<bool, NoMemory>
    requires { All (λ v. V.mark v ≤ t) views.now }
    ensures { IfOk result (λ found. AgreeOn ids.now (row_in V.row_of views.now key.now t) (if found then Some row.new else None)) }
{
    for (at, view) in views.iter().enumerate() {
        let mut place = hints.place(at);
        let found = view.columns_into(ids, key, t, &mut place, row)?;
        hints.set(at, place);
        if found {
            return Ok(true);
        }
    }
    Ok(false)
}
