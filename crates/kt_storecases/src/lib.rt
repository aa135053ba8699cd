//! Worked cases of what holds the rows of a tablet, where a caller alone can ask for them: pages of a disk rowset, several MemRowSets
//! side by side, and what a merge writes of several disk rowsets. Tests alone: they call what each crate offers to all others. What a
//! run shows of rows, of files and of maintenance stands in `tests/rowsets.py`.
#![tactic(auto)]

#[cfg(test)]
mod dice;
#[cfg(test)]
mod histories;
#[cfg(test)]
mod inputs;
#[cfg(test)]
mod rowset;
#[cfg(test)]
mod stores;
