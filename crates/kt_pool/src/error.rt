use std::alloc::{AllocError, AllocFailed};
use thiserror::Error;

/// There was no memory.
#[derive(Clone, Copy, Debug, PartialEq, Eq, Error)]
#[error("out of memory")]
pub struct NoMemory;

impl From<AllocError> for NoMemory {
    fn from(_error: AllocError) -> NoMemory {
        NoMemory
    }
}

impl<T: Drop> From<AllocFailed<T>> for NoMemory {
    fn from(_error: AllocFailed<T>) -> NoMemory {
        NoMemory
    }
}

/// So many cells were asked for, and so many were free and not reserved.
#[derive(Clone, Copy, Debug, PartialEq, Eq, Error)]
#[error("{need} cells were asked for, and {free} were free")]
pub struct Full {
    pub need: u32,
    pub free: u32,
}
