//! The range of the keys of a disk rowset.
ghost use Rattle.std.specs.Prelude.{◌≡◌, ◌<◌, ◌-◌, [], length, IfOk};
ghost use Rattle.kt_baseset.specs.Tables.{key_at};

use super::DiskRowSet;
use crate::base::BaseHeld;
use kt_base::{NoMemory, Octets};
use std::alloc::Global;

// The least key of a base file and the greatest. Where it has no row, both are empty.
pub(crate) fn ends_of(alloc: Global, base: &BaseHeld) -> Result<(Octets, Octets), NoMemory>
    ensures least { IfOk result (λ ends. 0 < length base.now.set.value.rows → ends.0 ≡ key_at base.now.set.value.rows 0) }
    ensures greatest { IfOk result (λ ends. 0 < length base.now.set.value.rows → ends.1 ≡ key_at base.now.set.value.rows (length base.now.set.value.rows - 1)) }
    ensures none { IfOk result (λ ends. length base.now.set.value.rows ≡ 0 → (ends.0 ≡ []) × (ends.1 ≡ [])) }
{
    let rows = base.rows();
    if rows == 0 {
        return Ok((Octets::new(alloc), Octets::new(alloc)));
    }
    Ok((base.key(alloc, 0)?, base.key(alloc, rows - 1)?))
}

impl DiskRowSet {
    ghost use Rattle.kt_history.specs.Views.{AreRising};
    ghost use Rattle.kt_diskrowset.specs.Held.{keys_held, ends_held};
    ghost use Rattle.kt_diskrowset.specs.Rowset.{held_of};

    /// The least key of its base file and the greatest. Where it has no row, both are empty. The keys of the rows rise.
    pub fn ends(&self, alloc: Global) -> Result<(Octets, Octets), NoMemory>
        ensures least { IfOk result (λ ends. ends.0 ≡ (ends_held (held_of self.now)).0) }
        ensures greatest { IfOk result (λ ends. ends.1 ≡ (ends_held (held_of self.now)).1) }
        ensures rise { AreRising (keys_held (held_of self.now)) }
    {
        self.base.standing();
        let (least, greatest) = ends_of(alloc, &self.base)?;
        Ok((least, greatest))
    }
}
