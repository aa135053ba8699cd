//! Worked cases of the parts of a tablet, each by itself. Tests alone: they call what each crate offers to all others.
#![tactic(auto)]

#[cfg(test)]
mod bounds;
#[cfg(test)]
mod disk;
#[cfg(test)]
mod host;
#[cfg(test)]
mod mvcc;
#[cfg(test)]
mod policy;
#[cfg(test)]
mod pool;
#[cfg(test)]
mod ranges;
#[cfg(test)]
mod tree;
