//! Reading the disk rowsets of a superblock.
ghost use Rattle.std.specs.Prelude.{◌≡◌, ◌≤◌, [], ℕ, IsTrue, Err, IfOk, map};
ghost use Rattle.kt_base.specs.Causes.{Rose};
ghost use Rattle.kt_disk.specs.Disk.{Same, Turns};
ghost use Rattle.kt_diskrowset.specs.Data.{held_in};
ghost use Rattle.kt_files.specs.Reading.{HoldsRowset, IsRowsetFault, HoldAll, IsFirstFault};
ghost use Rattle.kt_files.specs.Held.{AreFresh, numbers_in, numbers_named};
ghost use Rattle.kt_files.specs.Named.{Names, AreNamed};

use crate::bases::read_base;
use crate::deltas::read_list;
use crate::refusal::FilesNo;
use kt_deltafile::Way;
use kt_disk::Disk;
use kt_diskrowset::RowSetData;
use kt_history::DeltaList;
use kt_super::{Meta, MetaRowset};
use std::alloc::Global;
use std::marker::Model;

/// Disk rowsets as plain data, in order. Contracts see them as a list.
#[derive(Drop)]
pub struct RowSets {
    rowsets: Vec<RowSetData>,
}

impl Model for RowSets {
    ghost use Rattle.std.specs.Prelude.{List};
    ghost use Rattle.kt_diskrowset.specs.declared.data.RowSetData.{RowSetData};

    ghost Value = { List RowSetData };

    ghost view = { λ r. r.rowsets.items };
}

impl RowSets {
    pub fn as_slice(&self) -> &[RowSetData]
        ensures { result.now ≡ self.now }
    {
        &self.rowsets
    }

    /// The rowsets as a vector, which takes no memory.
    pub fn into_vec(self) -> Vec<RowSetData>
        ensures { result.items ≡ self }
    {
        self.rowsets
    }
}

// Reads the files of a disk rowset.
fn read_rowset<D: Disk>(
    alloc: Global,
    disk: &mut D,
    rowset: &MetaRowset,
) -> Result<RowSetData, FilesNo>
    ensures holds { IfOk result (λ held. IsTrue D.tells → HoldsRowset (D.seen disk.old) rowset.now (held_in held)) }
    ensures fresh { IfOk result (λ held. held.fresh ≡ []) }
    ensures number { IfOk result (λ held. held.number ≡ rowset.now.rowset) }
    ensures named { IfOk result (λ held. Names rowset.now (held_in held)) }
    ensures place { (file offset : ℕ) → result ≡ Err (FilesNo.Place file offset) → IsTrue D.tells → IsRowsetFault (D.seen disk.old) rowset.now file offset }
    ensures seen { IsTrue D.tells → D.seen disk.new ≡ D.seen disk.old }
    ensures images { IsTrue D.tells → Turns D.now D.leaves Same disk.old disk.new }
    ensures fault { result ≡ Err FilesNo.Fault → Rose (D.faults disk.old) (D.faults disk.new) }
    ensures faults { D.faults disk.old ≤ D.faults disk.new }
{
    let base = tri!(read_base(alloc, disk, rowset.base));
    let rows = base.rows();
    let undo = tri!(read_list(alloc, disk, Way::Undo, rows, rowset.undo.as_slice()));
    let redo = tri!(read_list(alloc, disk, Way::Redo, rows, rowset.redo.as_slice()));
    Ok(RowSetData {
        number: rowset.rowset,
        base,
        undo,
        redo,
        fresh: DeltaList::of(Vec::new(alloc)),
    })
}

/// Reads the files that a superblock names, rowset by rowset: the base file, the UNDO files, the REDO files. Of a file that is
/// longer than its length only the front is read.
pub fn read_rowsets<D: Disk>(alloc: Global, disk: &mut D, meta: &Meta) -> Result<RowSets, FilesNo>
    // As many rowsets as the superblock has, each with what its files hold.
    ensures hold { IfOk result (λ rowsets. IsTrue D.tells → HoldAll (D.seen disk.old) meta.now.rowsets (map held_in rowsets)) }

    ensures fresh { IfOk result AreFresh }
    ensures numbers { IfOk result (λ rowsets. numbers_in rowsets ≡ numbers_named meta.now.rowsets) }

    // Each has the files that the superblock names, whatever the disk tells.
    ensures named { IfOk result (λ rowsets. AreNamed meta.now.rowsets (map held_in rowsets)) }

    // The first file that is shorter than its length or not in its grammar, and its first fault.
    ensures place { (file offset : ℕ) → result ≡ Err (FilesNo.Place file offset) → IsTrue D.tells → IsFirstFault (D.seen disk.old) meta.now.rowsets file offset }

    ensures seen { IsTrue D.tells → D.seen disk.new ≡ D.seen disk.old }
    ensures images { IsTrue D.tells → Turns D.now D.leaves Same disk.old disk.new }
    ensures fault { result ≡ Err FilesNo.Fault → Rose (D.faults disk.old) (D.faults disk.new) }
    ensures faults { D.faults disk.old ≤ D.faults disk.new }
{
    let mut rowsets = Vec::new(alloc);
    'rowsets: for rowset in meta.rowsets.as_slice() {
        let held = tri!(read_rowset(alloc, disk, rowset));
        rowsets.push(held)?;
    }
    Ok(RowSets { rowsets })
}
