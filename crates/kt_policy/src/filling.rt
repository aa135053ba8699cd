//! The sums of widths, each row found from the row before it.
ghost use Rattle.std.specs.Prelude.{◌≡◌, ◌<◌, ◌↔◌, ◌^◌, length, IfOk, IsTrue, []};
ghost use Rattle.std.specs.List.{All};
ghost use Rattle.kt_policy.specs.Gain.{IsCandidate, AreCandidates};
ghost use Rattle.kt_policy.specs.Sums.{IsRow, IsPart, IsTable, in_order};
ghost use Rattle.kt_policy.specs.Steps.{with_more, IsNext};

use crate::order::{Few, from_bound};
use crate::{Candidate, Part, Sums, Table};
use kt_base::NoMemory;
use std::alloc::Global;

// The sum at one cost, with one candidate more.
fn with_more(candidate: &Candidate, row: &[u32], b: usize) -> u32
    requires is { IsCandidate candidate.now }
    requires at { b < length row.now }
    requires small { All (λ n. n < 2 ^ 31) row.now }
    ensures { result ≡ with_more candidate.now row.now b }
{
    let units = candidate.units as usize;
    if units <= b {
        row[b].max(row[b - units] + candidate.width())
    } else {
        row[b]
    }
}

// The row with one candidate more.
fn next_row(alloc: Global, candidate: &Candidate, row: &[u32]) -> Result<Vec<u32>, NoMemory>
    requires is { IsCandidate candidate.now }
    requires small { All (λ n. n < 2 ^ 31) row.now }
    ensures { IfOk result (λ next. IsNext candidate.now row.now next.items) }
{
    let mut next = row.to_vec(alloc)?;
    let units = candidate.units as usize;
    let width = candidate.width();
    for b in units..row.len() {
        next[b] = next[b].max(row[b - units] + width);
    }
    Ok(next)
}

// Whether a row is that.
fn is_next_row(candidate: &Candidate, row: &[u32], next: &[u32]) -> bool
    requires is { IsCandidate candidate.now }
    requires small { All (λ n. n < 2 ^ 31) row.now }
    ensures { IsTrue result ↔ IsNext candidate.now row.now next.now }
{
    if next.len() != row.len() {
        return false;
    }
    for b in 0..row.len() {
        if next[b] != with_more(candidate, row, b) {
            return false;
        }
    }
    true
}

// The rows of one left bound.
fn part_of(alloc: Global, part: &[Candidate], budget: u32) -> Result<Part, NoMemory>
    requires are { AreCandidates part.now }
    ensures { IfOk result (λ p. IsPart part.now budget p) }
{
    let mut rows = Vec::with_capacity(alloc, part.len() + 1)?;
    rows.push(Sums::of(vec![in alloc; 0; budget as usize + 1]?))?;
    for (k, candidate) in part.iter().enumerate() {
        let next = next_row(alloc, candidate, rows[k].as_slice())?;
        rows.push(Sums::of(next))?;
    }
    Ok(Part::of(rows))
}

// Whether the rows are those.
fn is_part(part: &[Candidate], budget: u32, rows: &[Sums]) -> bool
    requires are { AreCandidates part.now }
    ensures { IsTrue result ↔ IsPart part.now budget rows.now }
{
    if rows.len() != part.len() + 1 || !is_first_row(budget, rows[0].as_slice()) {
        return false;
    }
    for (k, candidate) in part.iter().enumerate() {
        if !is_next_row(candidate, rows[k].as_slice(), rows[k + 1].as_slice()) {
            return false;
        }
    }
    true
}

// Whether a row is that of no candidates.
fn is_first_row(budget: u32, row: &[u32]) -> bool
    ensures { IsTrue result ↔ IsRow [] budget row.now }
{
    if row.len() != budget as usize + 1 {
        return false;
    }
    for sum in row {
        if *sum != 0 {
            return false;
        }
    }
    true
}

/// The table of these candidates, which are given by their order too.
pub fn table_of(
    alloc: Global,
    list: &[Candidate],
    order: &Few,
    budget: u32,
) -> Result<Table, NoMemory>
    requires are { AreCandidates list.now }
    requires order { order.now.items ≡ in_order list.now }
    ensures { IfOk result (λ table. IsTable list.now budget table) }
{
    let mut parts = Vec::with_capacity(alloc, list.len())?;
    for bound in list {
        let part = from_bound(bound, order);
        parts.push(part_of(alloc, &part, budget)?)?;
    }
    Ok(Table::of(parts))
}

/// Whether a table is that one.
pub fn is_table(list: &[Candidate], order: &Few, budget: u32, table: &[Part]) -> bool
    requires are { AreCandidates list.now }
    requires order { order.now.items ≡ in_order list.now }
    ensures { IsTrue result ↔ IsTable list.now budget table.now }
{
    if table.len() != list.len() {
        return false;
    }
    for (l, bound) in list.iter().enumerate() {
        let part = from_bound(bound, order);
        if !is_part(&part, budget, table[l].as_slice()) {
            return false;
        }
    }
    true
}
