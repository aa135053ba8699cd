//! What a flush does to an engine that can be recovered, as laws: what it reads of the stores in memory has no fault, and passes the rules
//! of the table; so does what it writes; and a superblock with its outputs stands, where the outputs take the place of the frozen
//! MemRowSets in memory.
//!
//! For the layer above: while nothing flies and every record is durable, the superblock that a flush publishes stands over the stores as they
//! are once the flush is over. It stands on kt_content.
#![tactic(auto)]

pub mod laws;
