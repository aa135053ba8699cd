//! Whole runs of the top call over streams and disks in memory, threads on one lock, and scripts that are printed. Tests alone.
#![tactic(auto)]

#[cfg(test)]
mod hold;
#[cfg(test)]
mod runs;
#[cfg(test)]
mod scripts;
#[cfg(test)]
mod seats;
