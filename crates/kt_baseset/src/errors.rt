//! Why a base file could not be read.

use thiserror::Error;

/// Why a base file could not be read.
#[derive(Clone, Copy, Debug, PartialEq, Eq, Error)]
pub enum CodecNo {
    /// No base file's spelling goes on at this offset, or the bytes end there too early.
    #[error("the bytes are no base file at offset {offset}")]
    Place { offset: u64 },
    #[error("out of memory")]
    Memory,
}
