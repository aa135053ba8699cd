//! Laws of disk rowsets that were written and that a superblock is to name.
ghost use Rattle.kt_outputs.specs.Named.{outputs_come_behind, outputs_stand, others_hold_beside_outputs};
ghost use Rattle.kt_outputs.specs.Fewer.{some_may_be_named, some_stand};
ghost use Rattle.kt_outputs.specs.Again.{late_files_may_be_named, late_files_stand, others_hold_beside_late_files};
ghost use Rattle.kt_outputs.specs.InPlace.{a_rewritten_rowset_comes_in_place, a_rewritten_rowset_stands_in_place};

use kt_files::laws::same_law;

/// Rowsets that were written under the next numbers may stand behind those that a superblock names.
pub fn behind_law()
    ensures { outputs_come_behind }
{}

/// Their files stand where the files of their numbers do.
pub fn stand_law()
    ensures { outputs_stand }
{}

/// Disk rowsets that were written before others hold what they did.
pub fn beside_law()
    ensures { others_hold_beside_outputs }
{
    same_law();
}

/// A disk rowset that was written again may stand in the place of the one of its number, and its files stand.
pub fn in_place_law()
    ensures comes { a_rewritten_rowset_comes_in_place }
    ensures stands { a_rewritten_rowset_stands_in_place }
{}

/// A superblock may name some of the disk rowsets that another one names, and their files stand.
pub fn fewer_law()
    ensures named { some_may_be_named }
    ensures stand { some_stand }
{}

/// A superblock may name disk rowsets with REDO files that came to them where it may name them without, and these stand. The others
/// hold what they did.
pub fn again_law()
    ensures named { late_files_may_be_named }
    ensures stand { late_files_stand }
    ensures others { others_hold_beside_late_files }
{}
