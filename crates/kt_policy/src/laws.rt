//! Laws of the definitions, and what the two calls say of each other.
ghost use Rattle.std.specs.Prelude.{IfOk, IsTrue};
ghost use Rattle.kt_policy.specs.Gain.{AreCandidates};
ghost use Rattle.kt_policy.specs.Laws.{offers_are_gained, gains_are_offered};

use crate::{CandidateList, accepts, best};
use kt_base::NoMemory;
use std::alloc::Global;

/// The checker takes every answer.
pub fn accepts_best(alloc: Global, list: &CandidateList, budget: u32) -> Result<bool, NoMemory>
    requires { AreCandidates list.now }
    ensures { IfOk result (λ accepted. IsTrue accepted) }
{
    match best(alloc, list, budget)? {
        None => Ok(true),
        Some(picked) => Ok(accepts(list, budget, &picked)),
    }
}

/// What a left bound and a last candidate offer, some set within the budget gains.
pub fn offer_law()
    ensures { offers_are_gained }
{}

/// What a set within the budget gains, some left bound and last candidate offer. So the best set is found among them.
pub fn bound_law()
    ensures { gains_are_offered }
{}
