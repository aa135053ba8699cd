//! Reading the disk rowsets of a superblock.
ghost use Rattle.std.specs.Prelude.{◌≡◌, ◌++◌, [], ◌+◌, ◌<◌, IfOk};
ghost use Rattle.std.specs.Int.{w32, w64};
ghost use Rattle.kt_bytes.specs.Reading.{Gives, checked_at, many_at};
ghost use Rattle.kt_super.specs.Rowsets.{is_small, numbers_of, is_free, taken_by, free_numbers, has_room, is_next_rowset, may_have, file_at, next_file_at, counted_files_at, rowset_at, next_rowset_at, counted_rowsets_at};

use crate::taken::Taken;
use crate::{FileRef, FileRefs, MetaRowset, MetaRowsets};
use kt_bytes::Stop;
use kt_bytes::fields::{fault_at, u32_at, u64_at};
use std::alloc::Global;

// Numbers and lengths lie below this.
pub const SMALL: u64 = 1 << 62;

pub fn small_at(bytes: &[u8]) -> Result<(u64, &[u8]), Stop>
    ensures { Gives (λ x. (x.0, x.1.now)) result (checked_at w64 is_small bytes.now) }
{
    let (number, rest) = tri!(u64_at(bytes));
    if number < SMALL {
        Ok((number, rest))
    } else {
        fault_at(bytes)
    }
}

fn file_number_at<'a>(next: u64, taken: &Taken, bytes: &'a [u8]) -> Result<(u64, &'a [u8]), Stop>
    ensures { Gives (λ x. (x.0, x.1.now)) result (checked_at w64 (is_free next taken.now) bytes.now) }
{
    let (number, rest) = tri!(u64_at(bytes));
    if 3 <= number && number < next && !taken.has(number) {
        Ok((number, rest))
    } else {
        fault_at(bytes)
    }
}

#[tactic(auto, unfolding(crate::specs::Rowsets::file_at))]
fn file_of<'a>(next: u64, taken: &Taken, bytes: &'a [u8]) -> Result<(FileRef, &'a [u8]), Stop>
    ensures { Gives (λ x. (x.0, x.1.now)) result (file_at next taken.now bytes.now) }
{
    let (file, rest) = tri!(file_number_at(next, taken, bytes));
    let (len, rest) = tri!(small_at(rest));
    Ok((FileRef { file, len }, rest))
}

// How many numbers of data files are free.
fn free_numbers(next: u64, taken: &Taken) -> u64
    ensures { result ≡ free_numbers next taken.now }
{
    next.saturating_sub(3).saturating_sub(taken.len() as u64)
}

// So many files, and beside them a base file of each rowset that is to come, have numbers.
fn file_count_at<'a>(
    next: u64,
    taken: &Taken,
    behind: u32,
    bytes: &'a [u8],
) -> Result<(u32, &'a [u8]), Stop>
    ensures { Gives (λ x. (x.0, x.1.now)) result (checked_at w32 (has_room next taken.now behind) bytes.now) }
{
    let (count, rest) = tri!(u32_at(bytes));
    if u64::from(count) + u64::from(behind) <= free_numbers(next, taken) {
        Ok((count, rest))
    } else {
        fault_at(bytes)
    }
}

fn files_of<'a>(
    alloc: Global,
    count: u32,
    next: u64,
    taken: &mut Taken,
    bytes: &'a [u8],
) -> Result<(Vec<FileRef>, &'a [u8]), Stop>
    ensures files { Gives (λ x. (x.0.items, x.1.now)) result (many_at (next_file_at next taken.old) count [] bytes.now) }
    ensures taken { IfOk result (λ x. taken.new ≡ taken.old ++ numbers_of x.0.items) }
{
    let mut files = Vec::new(alloc);
    let mut rest = bytes;
    for _ in 0..count {
        let (file, after) = tri!(file_of(next, taken, rest));
        taken.push(file.file)?;
        files.push(file)?;
        rest = after;
    }
    Ok((files, rest))
}

#[tactic(auto, unfolding(crate::specs::Rowsets::counted_files_at))]
fn counted_files_of<'a>(
    alloc: Global,
    next: u64,
    taken: &mut Taken,
    behind: u32,
    bytes: &'a [u8],
) -> Result<(FileRefs, &'a [u8]), Stop>
    ensures files { Gives (λ x. (x.0, x.1.now)) result (counted_files_at next taken.old behind bytes.now) }
    ensures taken { IfOk result (λ x. taken.new ≡ taken.old ++ numbers_of x.0) }
{
    let (count, rest) = tri!(file_count_at(next, taken, behind, bytes));
    let (files, rest) = tri!(files_of(alloc, count, next, taken, rest));
    Ok((FileRefs::of(files), rest))
}

fn rowset_number_at(least: u64, next: u64, behind: u32, bytes: &[u8]) -> Result<(u64, &[u8]), Stop>
    ensures number { Gives (λ x. (x.0, x.1.now)) result (checked_at w64 (is_next_rowset least next behind) bytes.now) }
    ensures below { IfOk result (λ x. x.0 < next) }
{
    let (number, rest) = tri!(u64_at(bytes));
    if least <= number && u64::from(behind) < next.saturating_sub(number) {
        Ok((number, rest))
    } else {
        fault_at(bytes)
    }
}

/// The numbers that come next.
#[derive(Clone, Copy)]
pub struct Next {
    pub rowset: u64,
    pub file: u64,
}

// A rowset with so many behind it.
#[tactic(auto, unfolding(crate::specs::Rowsets::rowset_at))]
fn rowset_of<'a>(
    alloc: Global,
    next: Next,
    behind: u32,
    least: u64,
    taken: &mut Taken,
    bytes: &'a [u8],
) -> Result<(MetaRowset, &'a [u8]), Stop>
    ensures rowset { Gives (λ x. (x.0, x.1.now)) result (rowset_at next.rowset next.file behind least taken.old bytes.now) }
    ensures taken { IfOk result (λ x. taken.new ≡ taken_by taken.old x.0) }
    ensures below { IfOk result (λ x. x.0.rowset < next.rowset) }
{
    let (rowset, rest) = tri!(rowset_number_at(least, next.rowset, behind, bytes));
    let (last_dms, rest) = tri!(small_at(rest));
    let (base, rest) = tri!(file_of(next.file, taken, rest));
    taken.push(base.file)?;
    let (undo, rest) = tri!(counted_files_of(alloc, next.file, taken, behind, rest));
    let (redo, rest) = tri!(counted_files_of(alloc, next.file, taken, behind, rest));
    let read = MetaRowset {
        rowset,
        last_dms,
        base,
        undo,
        redo,
    };
    Ok((read, rest))
}

fn rowsets_of(
    alloc: Global,
    count: u32,
    next: Next,
    bytes: &[u8],
) -> Result<(Vec<MetaRowset>, &[u8]), Stop>
    ensures { Gives (λ x. (x.0.items, x.1.now)) result (many_at (next_rowset_at next.rowset next.file count) count [] bytes.now) }
{
    let mut rowsets = Vec::new(alloc);
    let mut taken = Taken::new(alloc);
    let mut least = 0;
    let mut rest = bytes;
    for i in 0..count {
        let (rowset, after) = tri!(rowset_of(alloc, next, count - i - 1, least, &mut taken, rest));
        least = rowset.rowset + 1;
        rowsets.push(rowset)?;
        rest = after;
    }
    Ok((rowsets, rest))
}

// So many rowsets, and their base files, have numbers.
fn rowset_count_at(next: Next, bytes: &[u8]) -> Result<(u32, &[u8]), Stop>
    ensures { Gives (λ x. (x.0, x.1.now)) result (checked_at w32 (may_have next.rowset next.file) bytes.now) }
{
    let (count, rest) = tri!(u32_at(bytes));
    if u64::from(count) <= next.rowset && u64::from(count) <= next.file.saturating_sub(3) {
        Ok((count, rest))
    } else {
        fault_at(bytes)
    }
}

/// The rowsets, with their count before them.
#[tactic(auto, unfolding(crate::specs::Rowsets::counted_rowsets_at))]
pub fn counted_rowsets_of(
    alloc: Global,
    next: Next,
    bytes: &[u8],
) -> Result<(MetaRowsets, &[u8]), Stop>
    ensures { Gives (λ x. (x.0, x.1.now)) result (counted_rowsets_at next.rowset next.file bytes.now) }
{
    let (count, rest) = tri!(rowset_count_at(next, bytes));
    let (rowsets, rest) = tri!(rowsets_of(alloc, count, next, rest));
    Ok((MetaRowsets::of(rowsets), rest))
}
