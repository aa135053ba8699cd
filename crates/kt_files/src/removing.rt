//! Removing the files that no superblock names.
ghost use Rattle.std.specs.Prelude.{◌≡◌, ◌≤◌, ◌++◌, ℕ, IsTrue, true, false, None, Err, IfOk, OnOk};
ghost use Rattle.std.specs.List.{Contains};
ghost use Rattle.kt_base.specs.Causes.{Rose, HasCause};
ghost use Rattle.kt_disk.specs.Disk.{Gone, LeavesOnly};
ghost use Rattle.kt_super.specs.Rowsets.{HaveTheSame, numbers_of};
ghost use Rattle.kt_files.specs.Named.{named_in, named_by, is_kept, Spares};

use crate::refusal::RemoveNo;
use kt_base::Failed;
use kt_disk::Disk;
use kt_super::{FileRef, Meta, MetaRowset};
use std::alloc::{AllocError, Global};
use std::collections::BTreeSet;

// Adds the numbers of files.
fn add_files(named: &mut BTreeSet<u64>, files: &[FileRef]) -> Result<(), AllocError>
    ensures { OnOk result (HaveTheSame named.new.keys (named.old.keys ++ numbers_of files.now)) }
{
    'files: for file in files {
        named.insert(file.file)?;
    }
    Ok(())
}

// Adds the numbers of a rowset's files.
fn add_rowset(named: &mut BTreeSet<u64>, rowset: &MetaRowset) -> Result<(), AllocError>
    ensures { OnOk result (HaveTheSame named.new.keys (named.old.keys ++ named_by rowset.now)) }
{
    named.insert(rowset.base.file)?;
    add_files(named, rowset.undo.as_slice())?;
    add_files(named, rowset.redo.as_slice())?;
    Ok(())
}

// The numbers of the files that a superblock names.
fn names_of(alloc: Global, rowsets: &[MetaRowset]) -> Result<BTreeSet<u64>, AllocError>
    ensures { IfOk result (λ named. HaveTheSame named.keys (named_in rowsets.now)) }
{
    let mut named = BTreeSet::new(alloc);
    'rowsets: for rowset in rowsets {
        add_rowset(&mut named, rowset)?;
    }
    Ok(named)
}

// Whether a file stays: a slot of the superblock, or a file that is named.
fn is_kept(named: &BTreeSet<u64>, file: u64) -> bool
    ensures { result ≡ is_kept named.now.keys file }
{
    file == 1 || file == 2 || named.contains(&file)
}

// Removes a file, unless it stays.
fn remove_other<D: Disk>(disk: &mut D, file: u64, named: &BTreeSet<u64>) -> Result<(), Failed>
    ensures removed { OnOk result (IsTrue D.tells → is_kept named.now.keys file ≡ false → D.seen disk.new file ≡ None) }
    ensures kept { IsTrue D.tells → (n : ℕ) → is_kept named.now.keys n ≡ true → D.seen disk.new n ≡ D.seen disk.old n }
    ensures others { OnOk result (IsTrue D.tells → (n : ℕ) → Gone (D.seen disk.old n) (D.seen disk.new n)) }
    ensures any_moment { IsTrue D.tells → LeavesOnly D.now D.leaves (Spares D.now D.leaves disk.old named.now.keys) disk.old disk.new }
    ensures cause { HasCause (D.faults disk.old) (D.faults disk.new) result }
{
    if is_kept(named, file) {
        return Ok(());
    }
    disk.remove(file)?;
    Ok(())
}

// Removes those of some files that do not stay.
fn remove_all<D: Disk>(disk: &mut D, found: &[u64], named: &BTreeSet<u64>) -> Result<(), Failed>
    ensures removed { OnOk result (IsTrue D.tells → (n : ℕ) → Contains found.now n → is_kept named.now.keys n ≡ false → D.seen disk.new n ≡ None) }
    ensures kept { IsTrue D.tells → (n : ℕ) → is_kept named.now.keys n ≡ true → D.seen disk.new n ≡ D.seen disk.old n }
    ensures others { OnOk result (IsTrue D.tells → (n : ℕ) → Gone (D.seen disk.old n) (D.seen disk.new n)) }
    ensures any_moment { IsTrue D.tells → LeavesOnly D.now D.leaves (Spares D.now D.leaves disk.old named.now.keys) disk.old disk.new }
    ensures cause { HasCause (D.faults disk.old) (D.faults disk.new) result }
{
    'files: for file in found {
        remove_other(disk, *file, named)?;
    }
    Ok(())
}

/// Removes each file but the two slots and those that the superblock names. A removed file may come back in a crash,
/// until it is written anew.
pub fn remove_others<D: Disk>(alloc: Global, disk: &mut D, meta: &Meta) -> Result<(), RemoveNo>
    ensures removed { OnOk result (IsTrue D.tells → (n : ℕ) → is_kept (named_in meta.now.rowsets) n ≡ false → D.seen disk.new n ≡ None) }
    ensures kept { IsTrue D.tells → (n : ℕ) → is_kept (named_in meta.now.rowsets) n ≡ true → D.seen disk.new n ≡ D.seen disk.old n }

    // A crash at any moment leaves the kept files as an image from before has them, and each other one too, or none.
    ensures any_moment { IsTrue D.tells → LeavesOnly D.now D.leaves (Spares D.now D.leaves disk.old (named_in meta.now.rowsets)) disk.old disk.new }

    ensures fault { result ≡ Err RemoveNo.Fault → Rose (D.faults disk.old) (D.faults disk.new) }
    ensures faults { D.faults disk.old ≤ D.faults disk.new }
{
    let named = names_of(alloc, meta.rowsets.as_slice())?;
    let found = disk.files(alloc)?;
    remove_all(disk, found.as_slice(), &named)?;
    Ok(())
}
