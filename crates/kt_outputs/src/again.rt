//! Writing files that came to disk rowsets which are written already.
ghost use Rattle.std.specs.Prelude.{◌≡◌, ◌≤◌, max, ℕ, IsTrue, Err, None, IfOk, OnOk, map};
ghost use Rattle.kt_base.specs.Causes.{Rose};
ghost use Rattle.kt_disk.specs.Disk.{Files};
ghost use Rattle.kt_diskrowset.specs.Data.{held_in};
ghost use Rattle.kt_files.specs.Reading.{HoldAll};
ghost use Rattle.kt_outputs.specs.Outputs.{meta_in, AreWhole, AreThere, HasLeft, AreStable};
ghost use Rattle.kt_outputs.specs.Again.{AreAgain, AllNumbered, AllKeptStand};

use crate::outputs::{NextNumbers, WriteNo};
use crate::rewriting::write_rewritten;
use kt_disk::Disk;
use kt_diskrowset::{Outputs, RowSetList};
use std::alloc::Global;

/// Writes the files of disk rowsets that have no number, each under the next file number, and keeps the others, as `write_rewritten` does
/// of one disk rowset. They keep their own numbers. From the next file number on there is no file yet. Where no number below `most`
/// is left there is no memory.
pub fn write_again<D: Disk>(
    alloc: Global,
    disk: &mut D,
    next: &mut NextNumbers,
    most: u64,
    outputs: &Outputs,
) -> Result<Outputs, WriteNo>
    requires vacant { IsTrue D.tells → (n : ℕ) → next.old.file ≤ n → D.seen disk.old n ≡ None }

    // No file is a slot of the superblock.
    requires apart { 3 ≤ next.old.file }

    ensures again { IfOk result (λ done. AreAgain outputs.now.rowsets done.rowsets) }

    // Each file that is written has a number of its own, the next one, and a length that a superblock can spell.
    ensures numbered { IfOk result (λ done. AllNumbered next.old.file next.new.file outputs.now.rowsets done.rowsets) }

    // The files hold them, in any image that has the same files of the new numbers and in which those that are kept hold what they did.
    ensures holds { IfOk result (λ done. IsTrue D.tells → AreWhole outputs.now.rowsets → (files : Files) → AreThere next.old.file next.new.file (D.seen disk.new) files → AllKeptStand files outputs.now.rowsets → HoldAll files (map (meta_in 0) done.rowsets) (map held_in done.rowsets)) }

    // A crash leaves the new ones so.
    ensures stable { OnOk result (IsTrue D.tells → AreStable D.seen D.now D.leaves next.old.file next.new.file disk.new) }

    // File numbers rise up to `most`. No rowset gets a number.
    ensures up { next.old.file ≤ next.new.file }
    ensures few { next.new.file ≤ max next.old.file most }
    ensures rowset { next.new.rowset ≡ next.old.rowset }

    // Whatever comes of it, no other file has changed, in no image either.
    ensures left { IsTrue D.tells → HasLeft D.seen D.now D.leaves next.old.file next.new.file disk.old disk.new }

    ensures fault { result ≡ Err WriteNo.Fault → Rose (D.faults disk.old) (D.faults disk.new) }
    ensures faults { D.faults disk.old ≤ D.faults disk.new }
{
    let mut rowsets = Vec::with_capacity(alloc, outputs.rowsets.len())?;
    'outputs: for rowset in outputs.rowsets.as_slice() {
        let written = write_rewritten(alloc, disk, next, most, rowset)?;
        rowsets.push_reserved(written);
    }
    Ok(Outputs {
        rowsets: RowSetList::of(rowsets),
    })
}
