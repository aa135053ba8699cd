//! Preparing a superblock in the slot of its number.
ghost use Rattle.std.specs.Prelude.{◌≡◌, ◌≢◌, ◌≤◌, ◌++◌, ℕ, List, IsTrue, true, false, drop, Err, IfOk, OnOk};
ghost use Rattle.kt_base.specs.Causes.{Rose, HasCause};
ghost use Rattle.kt_disk.specs.Disk.{held, Same, Turns, LeavesOnly};
ghost use Rattle.kt_bytes.specs.Places.{AreBytes};
ghost use Rattle.kt_super.specs.Body.{slot_for, IsMeta};
ghost use Rattle.kt_super.specs.Slots.{is_open, is_shut, slot_at, super_of, IsSlot, AreStable, IsNext, IsReady, IsWith, Tells, IsOldOrNone};

use crate::body::slot_for;
use crate::spell::spelled;
use crate::{Meta, PrepareNo, Prepared};
use kt_base::Failed;
use kt_disk::Disk;
use std::alloc::Global;

// Whether a slot has a gate byte that does not open it.
fn is_shut<D: Disk>(disk: &mut D, slot: u64) -> Result<bool, Failed>
    ensures shut { IfOk result (λ shut. IsTrue D.tells → shut ≡ is_shut (held (D.seen disk.old) slot)) }
    ensures seen { IsTrue D.tells → D.seen disk.new ≡ D.seen disk.old }
    ensures images { IsTrue D.tells → Turns D.now D.leaves Same disk.old disk.new }
    ensures cause { HasCause (D.faults disk.old) (D.faults disk.new) result }
{
    if tri!(disk.len(slot)) == 0 {
        return Ok(false);
    }
    let mut gate = [0];
    tri!(disk.read(slot, 0, &mut gate));
    Ok(gate[0] != 1)
}

// Closes a slot that has no gate byte yet, or an open one. One that is closed and stable stays so: an unsynced
// write over its gate could open it.
fn shut<D: Disk>(disk: &mut D, slot: u64) -> Result<(), Failed>
    requires slot { IsSlot slot }
    requires stable { IsTrue D.tells → AreStable D.seen D.now D.leaves disk.old }
    ensures shut { OnOk result (IsTrue D.tells → is_shut (held (D.seen disk.new) slot) ≡ true) }
    ensures stable { OnOk result (IsTrue D.tells → AreStable D.seen D.now D.leaves disk.new) }
    ensures others { IsTrue D.tells → (n : ℕ) → n ≢ slot → D.seen disk.new n ≡ D.seen disk.old n }
    ensures any_moment { IsTrue D.tells → LeavesOnly D.now D.leaves (Tells D.now D.leaves disk.old slot (IsOldOrNone (slot_at slot (held (D.seen disk.old) slot)))) disk.old disk.new }
    ensures cause { HasCause (D.faults disk.old) (D.faults disk.new) result }
{
    if tri!(is_shut(disk, slot)) {
        return Ok(());
    }
    tri!(disk.write_at(slot, 0, &[0]));
    tri!(disk.sync(slot));
    Ok(())
}

// Writes behind the closed gate of a slot.
fn place<D: Disk>(disk: &mut D, slot: u64, rest: &[u8]) -> Result<(), Failed>
    requires slot { IsSlot slot }
    requires stable { IsTrue D.tells → AreStable D.seen D.now D.leaves disk.old }
    ensures closed { OnOk result (IsTrue D.tells → is_open (held (D.seen disk.new) slot) ≡ false) }
    ensures behind { OnOk result (IsTrue D.tells → (more : List ℕ) × (drop 1 (held (D.seen disk.new) slot) ≡ rest.now ++ more)) }
    ensures bytes { OnOk result (AreBytes rest.now) }
    ensures stable { OnOk result (IsTrue D.tells → AreStable D.seen D.now D.leaves disk.new) }
    ensures others { IsTrue D.tells → (n : ℕ) → n ≢ slot → D.seen disk.new n ≡ D.seen disk.old n }
    ensures any_moment { IsTrue D.tells → LeavesOnly D.now D.leaves (Tells D.now D.leaves disk.old slot (IsOldOrNone (slot_at slot (held (D.seen disk.old) slot)))) disk.old disk.new }
    ensures cause { HasCause (D.faults disk.old) (D.faults disk.new) result }
{
    tri!(shut(disk, slot));
    tri!(disk.write_at(slot, 1, rest));
    tri!(disk.sync(slot));
    Ok(())
}

/// Writes a superblock behind the closed gate of its slot.
pub fn prepare<D: Disk>(alloc: Global, disk: &mut D, meta: &Meta) -> Result<Prepared, PrepareNo>
    requires meta { IsMeta meta.now }
    requires next { IsTrue D.tells → IsNext (super_of (D.seen disk.old)) meta.now.number }

    // Loading has made both slots stable, and so has opening a gate.
    requires stable { IsTrue D.tells → AreStable D.seen D.now D.leaves disk.old }

    ensures ready { IfOk result (λ prepared. IsTrue D.tells → IsReady (D.seen disk.new) prepared meta.now) }
    ensures stable { OnOk result (IsTrue D.tells → AreStable D.seen D.now D.leaves disk.new) }
    ensures others { IsTrue D.tells → (n : ℕ) → n ≢ slot_for meta.now.number → D.seen disk.new n ≡ D.seen disk.old n }

    // A crash at any moment leaves the old superblock, and all files but the slot, which tells what it told before, or none.
    ensures any_moment { IsTrue D.tells → LeavesOnly D.now D.leaves (IsWith D.now D.leaves disk.old (slot_for meta.now.number) (λ s. s ≡ super_of (D.seen disk.old)) (IsOldOrNone (slot_at (slot_for meta.now.number) (held (D.seen disk.old) (slot_for meta.now.number))))) disk.old disk.new }

    ensures memory { result ≡ Err PrepareNo.Memory → disk.new ≡ disk.old }
    ensures fault { result ≡ Err PrepareNo.Fault → Rose (D.faults disk.old) (D.faults disk.new) }
    ensures faults { D.faults disk.old ≤ D.faults disk.new }
{
    let rest = spelled(alloc, meta)?;
    let slot = slot_for(meta.number);
    place(disk, slot, rest.as_slice())?;
    Ok(Prepared {
        slot,
        number: meta.number,
    })
}
