//! The rowsets that may be compacted, and the numbers of those that are picked.
ghost use Rattle.std.specs.Prelude.{◌≡◌, ◌<◌, ◌^◌};
ghost use Rattle.kt_policy.specs.Gain.{width, IsCandidate};
ghost use Rattle.kt_policy.specs.Sums.{is_before};

use std::marker::Model;

/// A rowset: the ranks of its least and greatest key among the keys of all candidates, and its size in units of the
/// budget.
#[derive(Clone, Copy, Default, PartialEq, Eq)]
pub struct Candidate {
    pub rowset: u64,
    pub least: u32,
    pub greatest: u32,
    pub units: u32,
}

impl Candidate {
    // How many ranks it spans.
    pub(crate) fn width(&self) -> u32
        requires { IsCandidate self.now }
        ensures { result ≡ width self.now }
    {
        self.greatest - self.least + 1
    }

    // Its units, in a number with room for the sum of many.
    pub(crate) fn cost(&self) -> u64
        ensures units { result ≡ self.now.units }
        ensures small { result < 2 ^ 32 }
    {
        u64::from(self.units)
    }

    // Whether it comes first by greatest rank, then by rowset number.
    pub(crate) fn is_before(&self, other: &Candidate) -> bool
        ensures { result ≡ is_before self.now other.now }
    {
        self.greatest < other.greatest
            || (self.greatest == other.greatest && self.rowset < other.rowset)
    }
}

/// Rowsets that may be compacted. Contracts see them as a list.
#[derive(Drop)]
pub struct CandidateList {
    candidates: Vec<Candidate>,
}

impl Model for CandidateList {
    ghost use Rattle.std.specs.Prelude.{List};
    ghost use Rattle.kt_policy.specs.declared.candidate.Candidate.{Candidate};

    ghost Value = { List Candidate };

    ghost view = { λ l. l.candidates.items };
}

impl CandidateList {
    /// The candidates of a vector, which takes no memory.
    pub fn of(candidates: Vec<Candidate>) -> CandidateList
        ensures { result ≡ candidates.items }
    {
        CandidateList { candidates }
    }

    pub fn as_slice(&self) -> &[Candidate]
        ensures { result.now ≡ self.now }
    {
        &self.candidates
    }

    /// The candidates as a vector, which takes no memory.
    pub fn into_vec(self) -> Vec<Candidate>
        ensures { result.items ≡ self }
    {
        self.candidates
    }
}

/// Rowset numbers. Contracts see them as a list.
#[derive(Drop)]
pub struct IdList {
    ids: Vec<u64>,
}

impl Model for IdList {
    ghost use Rattle.std.specs.Prelude.{List, ℕ};

    ghost Value = { List ℕ };

    ghost view = { λ l. l.ids.items };
}

impl IdList {
    /// The numbers of a vector, which takes no memory.
    pub fn of(ids: Vec<u64>) -> IdList
        ensures { result ≡ ids.items }
    {
        IdList { ids }
    }

    pub fn as_slice(&self) -> &[u64]
        ensures { result.now ≡ self.now }
    {
        &self.ids
    }

    /// The numbers as a vector, which takes no memory.
    pub fn into_vec(self) -> Vec<u64>
        ensures { result.items ≡ self }
    {
        self.ids
    }
}
