//! Reading the superblock of a disk.
ghost use Rattle.std.specs.Prelude.{◌≡◌, ◌≢◌, ◌≤◌, ◌<◌, ◌+◌, ◌^◌, ℕ, length, take, drop, IsTrue, Ok, Err, IfOk, OnOk, IfSome};
ghost use Rattle.kt_super.specs.Body.{IsMeta};
ghost use Rattle.kt_base.specs.Causes.{Rose, HasCause};
ghost use Rattle.kt_disk.specs.Disk.{held, Same, Turns};
ghost use Rattle.kt_super.specs.Slots.{newer, super_of, slot_at, of_length, IsHead, IsSlot, AreStable};
ghost use Rattle.kt_super.specs.Faults.{IsFaultBehind, IsSlotFault};
ghost use Rattle.kt_super.specs.Told.{TellsOf};

use crate::slot::{Head, SlotNo, body_told, head_of};
use crate::{Meta, SuperNo};
use kt_base::Failed;
use kt_disk::Disk;
use std::alloc::Global;

// Makes both slots stable.
fn steady<D: Disk>(disk: &mut D) -> Result<(), Failed>
    ensures stable { OnOk result (IsTrue D.tells → AreStable D.seen D.now D.leaves disk.new) }
    ensures seen { OnOk result (IsTrue D.tells → D.seen disk.new ≡ D.seen disk.old) }
    ensures others { IsTrue D.tells → (n : ℕ) → n ≢ 1 → n ≢ 2 → D.seen disk.new n ≡ D.seen disk.old n }
    ensures images { IsTrue D.tells → Turns D.now D.leaves Same disk.old disk.new }
    ensures cause { HasCause (D.faults disk.old) (D.faults disk.new) result }
{
    tri!(disk.sync(1));
    tri!(disk.sync(2));
    Ok(())
}

// What the body of a slot tells, of which only as many bytes are read as it should have.
fn slot_body<D: Disk>(
    alloc: Global,
    disk: &mut D,
    slot: u64,
    len: u32,
    left: u64,
) -> Result<Option<Meta>, SuperNo>
    requires left { IsTrue D.tells → left ≡ length (drop 5 (held (D.seen disk.old) slot)) }
    requires room { left + 5 < 2 ^ 64 }
    requires behind { IsTrue D.tells → 5 ≤ length (held (D.seen disk.old) slot) }
    ensures rules { IfOk result (λ found. IfSome found IsMeta) }
    ensures told { IsTrue D.tells → TellsOf slot result (of_length slot len (drop 5 (held (D.seen disk.old) slot))) }
    ensures place { (at offset : ℕ) → result ≡ Err (SuperNo.Place at offset) → IsTrue D.tells → IsSlot slot → IsFaultBehind slot len (drop 5 (held (D.seen disk.old) slot)) offset }
    ensures seen { IsTrue D.tells → D.seen disk.new ≡ D.seen disk.old }
    ensures images { IsTrue D.tells → Turns D.now D.leaves Same disk.old disk.new }
    ensures fault { result ≡ Err SuperNo.Fault → Rose (D.faults disk.old) (D.faults disk.new) }
    ensures faults { D.faults disk.old ≤ D.faults disk.new }
{
    let len = u64::from(len);
    let mut body = vec![in alloc; 0; len.min(left) as usize]?;
    let Ok(()) = disk.read(slot, 5, body.as_mut_slice()) else {
        return Err(SuperNo::Fault);
    };
    match body_told(alloc, slot, len, left, body.as_slice()) {
        Ok(found) => Ok(found),
        Err(SlotNo::Memory) => Err(SuperNo::Memory),
        Err(SlotNo::At(offset)) => Err(SuperNo::Place { slot, offset }),
    }
}

// The first bytes of a slot of so many bytes, and what they say.
fn slot_head<D: Disk>(disk: &mut D, slot: u64, len: u64) -> Result<Head, Failed>
    requires { IsTrue D.tells → len ≡ length (held (D.seen disk.old) slot) }
    ensures head { IfOk result (λ head. IsTrue D.tells → IsHead (take 5 (held (D.seen disk.old) slot)) head) }
    ensures behind { (size : ℕ) → result ≡ Ok (Head.Body size) → 5 ≤ len }
    ensures seen { IsTrue D.tells → D.seen disk.new ≡ D.seen disk.old }
    ensures images { IsTrue D.tells → Turns D.now D.leaves Same disk.old disk.new }
    ensures cause { HasCause (D.faults disk.old) (D.faults disk.new) result }
{
    let mut bytes = [0; 5];
    let front = &mut bytes[..len.min(5) as usize];
    tri!(disk.read(slot, 0, front));
    Ok(head_of(front))
}

// What a slot tells.
fn slot_told<D: Disk>(alloc: Global, disk: &mut D, slot: u64) -> Result<Option<Meta>, SuperNo>
    ensures rules { IfOk result (λ found. IfSome found IsMeta) }
    ensures told { IsTrue D.tells → TellsOf slot result (slot_at slot (held (D.seen disk.old) slot)) }
    ensures place { (at offset : ℕ) → result ≡ Err (SuperNo.Place at offset) → IsTrue D.tells → IsSlot slot → IsSlotFault slot (held (D.seen disk.old) slot) offset }
    ensures seen { IsTrue D.tells → D.seen disk.new ≡ D.seen disk.old }
    ensures images { IsTrue D.tells → Turns D.now D.leaves Same disk.old disk.new }
    ensures fault { result ≡ Err SuperNo.Fault → Rose (D.faults disk.old) (D.faults disk.new) }
    ensures faults { D.faults disk.old ≤ D.faults disk.new }
{
    let Ok(len) = disk.len(slot) else {
        return Err(SuperNo::Fault);
    };
    let Ok(head) = slot_head(disk, slot, len) else {
        return Err(SuperNo::Fault);
    };
    match head {
        Head::Closed => Ok(None),
        Head::Short => Err(SuperNo::Place { slot, offset: len }),
        Head::Body(size) => slot_body(alloc, disk, slot, size, len - 5),
    }
}

fn newer(one: Option<Meta>, two: Option<Meta>) -> Option<Meta>
    requires one { IfSome one IsMeta }
    requires two { IfSome two IsMeta }
    ensures value { result ≡ newer one two }
    ensures rules { IfSome result IsMeta }
{
    match (one, two) {
        (None, two) => two,
        (Some(one), None) => Some(one),
        (Some(one), Some(two)) => {
            if one.number < two.number {
                drop(one);
                Some(two)
            } else {
                drop(two);
                Some(one)
            }
        }
    }
}

/// The superblock of a disk, none where no slot is open. Both slots are stable then.
pub fn load<D: Disk>(alloc: Global, disk: &mut D) -> Result<Option<Meta>, SuperNo>
    // The superblock of the disk as it read before.
    ensures found { IfOk result (λ found. IsTrue D.tells → super_of (D.seen disk.old) ≡ Ok found) }

    ensures rules { IfOk result (λ found. IfSome found IsMeta) }

    // An open slot is not in the grammar, and here is its first fault, told by the spellings alone.
    ensures fault_place { (slot offset : ℕ) → result ≡ Err (SuperNo.Place slot offset) → IsTrue D.tells → IsSlotFault slot (held (D.seen disk.old) slot) offset }

    // How the reader finds it, in slot 1 first.
    ensures place { (slot offset : _) → result ≡ Err (SuperNo.Place slot offset) → IsTrue D.tells → super_of (D.seen disk.old) ≡ Err (record { slot = slot; offset = offset }) }

    ensures stable { OnOk result (IsTrue D.tells → AreStable D.seen D.now D.leaves disk.new) }
    ensures seen { OnOk result (IsTrue D.tells → D.seen disk.new ≡ D.seen disk.old) }
    ensures others { IsTrue D.tells → (n : ℕ) → n ≢ 1 → n ≢ 2 → D.seen disk.new n ≡ D.seen disk.old n }

    // A crash at any moment leaves what one before the call might have left.
    ensures images { IsTrue D.tells → Turns D.now D.leaves Same disk.old disk.new }

    ensures fault { result ≡ Err SuperNo.Fault → Rose (D.faults disk.old) (D.faults disk.new) }
    ensures faults { D.faults disk.old ≤ D.faults disk.new }
{
    let Ok(()) = steady(disk) else {
        return Err(SuperNo::Fault);
    };
    let one = tri!(slot_told(alloc, disk, 1));
    match slot_told(alloc, disk, 2) {
        Ok(two) => Ok(newer(one, two)),
        Err(no) => {
            drop(one);
            Err(no)
        }
    }
}
