//! Worked values of the crates of formats, against the bytes and answers that they are to give, where a caller alone can ask
//! for them: the outside in memory, keys, rows, records of the log, and values in each encoding. Tests alone: they call what
//! each crate offers to all others. What a folder shows of the formats stands in `tests/files.py`.
#![tactic(auto)]

#[cfg(test)]
mod base;
#[cfg(test)]
mod encodings;
#[cfg(test)]
mod key;
#[cfg(test)]
mod records;
#[cfg(test)]
mod schema;
