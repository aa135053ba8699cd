//! What a visit's condition refuses, as laws.
ghost use Rattle.kt_seatlock.specs.Refusals.{RefusesAnew, RefusesForeign, RefusesTwo, RefusesOtherPart, KeepsOwn};

use crate::shared::Shared;

/// No visit begins the trail anew, adds an entry with another's number, or adds two.
pub fn trail_law<T: Shared>()
    ensures anew { RefusesAnew T.owner }
    ensures foreign { RefusesForeign T.owner }
    ensures two { RefusesTwo T.owner }
{}

/// No visit changes another pass's part.
pub fn part_law<T: Shared>()
    ensures { RefusesOtherPart T.part }
{}

/// A trail that goes on by entries of others has the same entries of one's own.
pub fn own_law<T: Shared>()
    ensures { KeepsOwn T.owner }
{}
