//! What a set costs and gains, and whether it is listed as it should be.
ghost use Rattle.std.specs.Prelude.{◌≡◌, ◌<◌, ◌↔◌, true, IsTrue};
ghost use Rattle.std.specs.List.{All, AllPairs};
ghost use Rattle.kt_policy.specs.Gain.{AreCandidates, cost, gain, chosen, is_in, is_known};

use crate::Candidate;

/// What a set costs and gains.
#[derive(Clone, Copy)]
pub struct Measure {
    pub cost: u64,
    pub gain: u32,
}

/// The measure of the set of these numbers.
pub fn measure_of(list: &[Candidate], set: &[u64]) -> Measure
    requires are { AreCandidates list.now }
    ensures cost { result.cost ≡ cost (chosen (is_in set.now) list.now) }
    ensures gain { result.gain ≡ gain (chosen (is_in set.now) list.now) }
{
    let mut cost: u64 = 0;
    let mut widths: u32 = 0;
    let mut low = u32::MAX;
    let mut high: u32 = 0;
    for candidate in list {
        if set.contains(&candidate.rowset) {
            cost += candidate.cost();
            widths += candidate.width();
            low = low.min(candidate.least);
            high = high.max(candidate.greatest);
        }
    }
    // no member, no hull: low is then above high
    let hull = (high + 1).saturating_sub(low);
    Measure {
        cost,
        gain: widths.saturating_sub(hull),
    }
}

/// Whether the numbers rise.
pub fn is_rising(set: &[u64]) -> bool
    ensures { IsTrue result ↔ AllPairs (λ m n. m < n) set.now }
{
    for k in 1..set.len() {
        if set[k] <= set[k - 1] {
            return false;
        }
    }
    true
}

pub(crate) fn is_known(list: &[Candidate], id: u64) -> bool
    ensures { result ≡ is_known list.now id }
{
    list.iter().any(|candidate| candidate.rowset == id)
}

/// Whether each number is that of a candidate.
pub fn are_known(list: &[Candidate], set: &[u64]) -> bool
    ensures { IsTrue result ↔ All (λ id. is_known list.now id ≡ true) set.now }
{
    for id in set {
        if !is_known(list, *id) {
            return false;
        }
    }
    true
}
