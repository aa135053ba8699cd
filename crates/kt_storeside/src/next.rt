//! The superblock that comes behind the published one where no job has changed a store.
ghost use Rattle.std.specs.Prelude.{◌≡◌, IfOk};
ghost use Rattle.kt_storeside.specs.Sides.{MayBeLent};
ghost use Rattle.kt_storeside.specs.Next.{next_meta};

use crate::copies::{rowsets_of, schema_of};
use crate::side::StoreSide;
use kt_base::NoMemory;
use kt_disk::Disk;
use kt_super::Meta;
use std::alloc::Global;

/// Numbers of a superblock lie below this.
const SMALL: u64 = 1 << 62;

impl<D: Disk + Drop> StoreSide<D> {
    /// The superblock that comes next: with the rowsets and columns of the published one, and with this mark, last timestamp and count of
    /// records. Where a number would be too great for a superblock, or too many were published since the side began, there is none, as for want of memory.
    pub fn next_meta(&self, alloc: Global, a: u64, c: u64, need: u64) -> Result<Meta, NoMemory>
        ensures next { IfOk result (λ m. m ≡ next_meta self.now a c need) }
        ensures lent { IfOk result (λ m. MayBeLent D.tells D.seen D.now D.leaves self.now m) }
    {
        // The published one keeps the rules, and the next numbers are its own or later ones.
        self.standing();
        let was = self.meta();
        let (next_rowset, next_file) = self.next_numbers();
        let number = was.number;
        if !self.has_number() {
            return Err(NoMemory);
        }
        if number >= SMALL - 1 || need >= SMALL || next_rowset >= SMALL || next_file >= SMALL {
            return Err(NoMemory);
        }
        Ok(Meta {
            number: number + 1,
            a,
            c,
            need,
            last_mem: was.last_mem,
            next_rowset,
            next_file,
            next_column: was.next_column,
            schema: schema_of(alloc, &was.schema)?,
            rowsets: rowsets_of(alloc, &was.rowsets)?,
        })
    }
}
