//! Publishing the superblock that a pass was lent.
ghost use Rattle.std.specs.Prelude.{◌≡◌, ◌≢◌, ◌≤◌, ◌+◌, ◌⊎◌, ◌∷◌, [], ℕ, IsTrue, Ok, Err, Some, OnOk};
ghost use Rattle.kt_base.specs.Causes.{Rose};
ghost use Rattle.kt_disk.specs.Disk.{LeavesOnly};
ghost use Rattle.kt_super.specs.Body.{IsMeta};
ghost use Rattle.kt_super.specs.Slots.{super_of, AreStable};
ghost use Rattle.kt_storeside.specs.Supers.{BetweenBoth};
ghost use Rattle.kt_storeside.specs.Turns.{IsTurn, HasOneOf};

use kt_disk::Disk;
use kt_super::{Meta, PrepareNo, open_gate, prepare};
use std::alloc::Global;

/// Publishes a superblock: it is prepared, and its gate is opened. For want of memory nothing was written.
pub fn publish<D: Disk>(alloc: Global, disk: &mut D, meta: &Meta) -> Result<(), PrepareNo>
    requires rules { IsMeta meta.now }
    requires stable { IsTrue D.tells → AreStable D.seen D.now D.leaves disk.old }
    requires next { IsTrue D.tells → (was : Meta) × (super_of (D.seen disk.old) ≡ Ok (Some was)) × (meta.now.number ≡ was.number + 1) }
    ensures superblock { OnOk result (IsTrue D.tells → super_of (D.seen disk.new) ≡ Ok (Some meta.now)) }
    ensures stable { OnOk result (IsTrue D.tells → AreStable D.seen D.now D.leaves disk.new) }
    ensures others { IsTrue D.tells → (n : ℕ) → n ≢ 1 → n ≢ 2 → D.seen disk.new n ≡ D.seen disk.old n }

    // A crash at any moment leaves the old superblock or this one, and all files but the slots.
    ensures any_moment { IsTrue D.tells → LeavesOnly D.now D.leaves (BetweenBoth D.seen D.now D.leaves meta.now disk.old) disk.old disk.new }

    // So it is a turn that used no number, and leaves one of both.
    ensures turn { IsTrue D.tells → (first next : ℕ) → IsTurn D.seen D.now D.leaves first next disk.old disk.new }
    ensures one_of { IsTrue D.tells → (was : Meta) → super_of (D.seen disk.old) ≡ Ok (Some was) → HasOneOf D.now D.leaves was meta.now disk.new }

    ensures memory { result ≡ Err PrepareNo.Memory → disk.new ≡ disk.old }
    ensures fault { result ≡ Err PrepareNo.Fault → Rose (D.faults disk.old) (D.faults disk.new) }
    ensures faults { D.faults disk.old ≤ D.faults disk.new }
{
    let prepared = prepare(alloc, disk, meta)?;
    match open_gate(disk, prepared) {
        Ok(()) => Ok(()),
        Err(_) => Err(PrepareNo::Fault),
    }
}
