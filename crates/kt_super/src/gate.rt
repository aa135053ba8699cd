//! Opening the gate of a superblock that was prepared.
ghost use Rattle.std.specs.Prelude.{◌≡◌, ◌≢◌, ◌⊎◌, ℕ, IsTrue, Ok, Some, OnOk};
ghost use Rattle.kt_base.specs.Causes.{HasCause};
ghost use Rattle.kt_disk.specs.Disk.{LeavesOnly};
ghost use Rattle.kt_super.specs.declared.meta.Meta.{Meta};
ghost use Rattle.kt_super.specs.Slots.{super_of, AreStable, IsReady, IsWith, IsNoneOrNew};

use crate::Prepared;
use kt_base::Failed;
use kt_disk::Disk;

/// Opens the gate of a prepared superblock, which is the disk's from then on.
pub fn open_gate<D: Disk>(disk: &mut D, prepared: Prepared) -> Result<(), Failed>
    requires ready { IsTrue D.tells → (m : Meta) × IsReady (D.seen disk.old) prepared m }
    requires stable { IsTrue D.tells → AreStable D.seen D.now D.leaves disk.old }

    ensures opened { OnOk result (IsTrue D.tells → (m : Meta) → IsReady (D.seen disk.old) prepared m → super_of (D.seen disk.new) ≡ Ok (Some m)) }
    ensures stable { OnOk result (IsTrue D.tells → AreStable D.seen D.now D.leaves disk.new) }
    ensures others { IsTrue D.tells → (n : ℕ) → n ≢ prepared.slot → D.seen disk.new n ≡ D.seen disk.old n }

    // A crash at any moment leaves the old superblock or this one, and all files but the slot, which tells none or this one.
    ensures any_moment { IsTrue D.tells → (m : Meta) → IsReady (D.seen disk.old) prepared m
        → LeavesOnly D.now D.leaves (IsWith D.now D.leaves disk.old prepared.slot (λ s. (s ≡ super_of (D.seen disk.old)) ⊎ (s ≡ Ok (Some m))) (IsNoneOrNew m)) disk.old disk.new }

    ensures cause { HasCause (D.faults disk.old) (D.faults disk.new) result }
{
    tri!(disk.write_at(prepared.slot, 0, &[1]));
    tri!(disk.sync(prepared.slot));
    Ok(())
}
