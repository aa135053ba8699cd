//! The numbers with which an opened tablet goes on.
ghost use Rattle.std.specs.Prelude.{◌≡◌, ◌+◌, ◌^◌, ◌<◌, ◌∷◌, ◌++◌, [], max, List, IfOk, OnOk};
ghost use Rattle.kt_reopen.specs.Numbers.{named_by, named_of, greatest_dms};
ghost use Rattle.kt_reopen.specs.Opened.{IsNamedBy};
ghost use Rattle.kt_history.specs.declared.target.Target.{Target};

use kt_base::NoMemory;
use kt_history::Target;
use kt_records::{CommitRow, LogRecords, RecordRef};
use std::alloc::Global;
use std::collections::BTreeMap;

/// The greatest numbers of stores that the COMMITs of a log name, or 0: of a MemRowSet, and of the DeltaMemStores of each
/// rowset; and one above that of a rowset.
#[derive(Drop)]
pub struct Named {
    pub mem: u64,
    pub next: u64,
    dms: BTreeMap<u64, u64>,
}

// Adds a store that is named.
fn add(named: &mut Named, target: &Target) -> Result<(), NoMemory>
    ensures { OnOk result ((targets : List Target) → IsNamedBy named.old targets → IsNamedBy named.new (targets ++ target.now ∷ [])) }
{
    match target {
        Target::Mem(number) => named.mem = named.mem.max(*number),
        Target::Delta { rowset, dms } => {
            named.next = named.next.max(rowset.saturating_add(1));
            let greatest = named.dms.get(rowset).copied().unwrap_or(0).max(*dms);
            named.dms.insert(*rowset, greatest)?;
        }
    }
    Ok(())
}

// Adds stores that are named.
fn add_all(named: &mut Named, targets: &[Target]) -> Result<(), NoMemory>
    ensures { OnOk result ((before : List Target) → IsNamedBy named.old before → IsNamedBy named.new (before ++ targets.now)) }
{
    'targets: for target in targets {
        add(named, target)?;
    }
    Ok(())
}

// Adds the stores that the rows of a COMMIT name.
fn add_rows(named: &mut Named, rows: &[CommitRow]) -> Result<(), NoMemory>
    ensures { OnOk result ((targets : List Target) → IsNamedBy named.old targets → IsNamedBy named.new (targets ++ named_of rows.now)) }
{
    'rows: for row in rows {
        add_all(named, row.targets.as_slice())?;
    }
    Ok(())
}

/// The greatest numbers that a log names.
pub fn named_in(alloc: Global, records: &LogRecords) -> Result<Named, NoMemory>
    ensures { IfOk result (λ named. IsNamedBy named (named_by records.now)) }
{
    let mut named = Named {
        mem: 0,
        next: 0,
        dms: BTreeMap::new(alloc),
    };
    'records: for at in 0..records.len() {
        if let RecordRef::Commit { ts: _, rows } = records.at(at) {
            add_rows(&mut named, rows)?;
        }
    }
    Ok(named)
}

impl Named {
    /// The number of the DeltaMemStore of a rowset, of which the last durable one is told.
    pub fn dms(&self, rowset: u64, last: u64) -> u64
        requires { last + 1 < 2 ^ 64 }
        ensures { (targets : List Target) → IsNamedBy self.now targets → result ≡ max (last + 1) (greatest_dms rowset targets) }
    {
        let greatest = self.dms.get(&rowset).copied().unwrap_or(0);
        greatest.max(last + 1)
    }
}
