//! The first superblock of a tablet.
ghost use Rattle.std.specs.Prelude.{◌≡◌, ◌≢◌, ◌≤◌, ◌⊎◌, ℕ, IsTrue, Ok, Err, Some, None, IfOk, OnOk};
ghost use Rattle.kt_base.specs.Causes.{Rose};
ghost use Rattle.kt_disk.specs.Disk.{LeavesOnly};
ghost use Rattle.kt_super.specs.Body.{IsMeta};
ghost use Rattle.kt_super.specs.Slots.{super_of, AreStable};
ghost use Rattle.kt_reopen.specs.Tables.{IsTable};
ghost use Rattle.kt_reopen.specs.Holding.{IsOfStore};
ghost use Rattle.kt_reopen.specs.Opened.{first_meta};

use crate::why::Why;
use kt_base::NoMemory;
use kt_disk::Disk;
use kt_schema::Schema;
use kt_storeside::copies::schema_of;
use kt_super::{Meta, MetaRowsets, open_gate, prepare};
use std::alloc::Global;

/// The first superblock of a table.
pub fn first_meta(alloc: Global, schema: &Schema) -> Result<Meta, NoMemory>
    requires { IsTable schema.now }
    ensures meta { IfOk result (λ m. m ≡ first_meta schema.now) }
    ensures rules { IfOk result IsMeta }
{
    let next_column = schema.columns().len() as u16 + 1;
    Ok(Meta {
        number: 1,
        a: 0,
        c: 0,
        need: 0,
        last_mem: 0,
        next_rowset: 1,
        next_file: 3,
        next_column,
        schema: schema_of(alloc, schema)?,
        rowsets: MetaRowsets::of(Vec::new(alloc)),
    })
}

/// Publishes the first superblock on a store that has none. A crash at any moment leaves none, or this one.
pub fn publish_first<D: Disk>(alloc: Global, store: &mut D, meta: &Meta) -> Result<(), Why>
    requires rules { IsMeta meta.now }
    requires first { meta.now.number ≡ 1 }
    requires none { IsTrue D.tells → super_of (D.seen store.old) ≡ Ok None }
    requires stable { IsTrue D.tells → AreStable D.seen D.now D.leaves store.old }

    ensures published { OnOk result (IsTrue D.tells → super_of (D.seen store.new) ≡ Ok (Some meta.now)) }
    ensures stable { OnOk result (IsTrue D.tells → AreStable D.seen D.now D.leaves store.new) }
    ensures others { IsTrue D.tells → (n : ℕ) → n ≢ 1 → D.seen store.new n ≡ D.seen store.old n }
    ensures any_moment { IsTrue D.tells → LeavesOnly D.now D.leaves (IsOfStore D.now D.leaves meta.now store.old) store.old store.new }
    ensures no_refusal { (no : Why) → result ≡ Err no → (no ≡ Why.Fault) ⊎ (no ≡ Why.Memory) }
    ensures fault { result ≡ Err Why.Fault → Rose (D.faults store.old) (D.faults store.new) }
    ensures faults { D.faults store.old ≤ D.faults store.new }
{
    let prepared = prepare(alloc, store, meta)?;
    open_gate(store, prepared)?;
    Ok(())
}
