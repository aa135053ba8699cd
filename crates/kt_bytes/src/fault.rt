//! Why bytes could not be read.
ghost use Rattle.std.specs.Prelude.{◌≡◌};
ghost use Rattle.kt_bytes.specs.declared.fault.Stop.TheVariants as stops;
ghost use Rattle.kt_bytes.specs.declared.fault.CodecNo.TheVariants as answers;
ghost use Rattle.kt_bytes.specs.Reading.{IsAmong};

use crate::NoMemory;
use std::alloc::{AllocError, AllocFailed};
use thiserror::Error;

/// Why bytes could not be read.
#[derive(Clone, Copy, Debug, PartialEq, Eq, Error)]
pub enum CodecNo {
    /// No spelling goes on with the field at this offset, or the bytes end there too early.
    #[error("no spelling goes on at offset {offset}")]
    Place { offset: u64 },
    /// There was no memory.
    #[error("out of memory")]
    Memory,
}

/// Why a field could not be read.
#[derive(Clone, Copy, Debug, PartialEq, Eq, Error)]
pub enum Stop {
    /// There was no memory.
    #[error("out of memory")]
    Memory,
    /// There is a fault, with so many bytes from its place to the end: none where bytes are missing.
    #[error("no spelling goes on {0} bytes before the end")]
    Left(usize),
}

impl Stop {
    /// The same for all of the bytes, which are so many.
    pub fn among(self, total: usize) -> CodecNo
        ensures { IsAmong total self result }
    {
        match self {
            Stop::Memory => CodecNo::Memory,
            Stop::Left(left) => CodecNo::Place {
                offset: total.saturating_sub(left) as u64,
            },
        }
    }
}

impl From<AllocError> for Stop {
    ghost from_gives = { λ _ e. e ≡ stops.Memory };

    fn from(_: AllocError) -> Stop {
        Stop::Memory
    }
}

impl From<NoMemory> for Stop {
    ghost from_gives = { λ _ e. e ≡ stops.Memory };

    fn from(_: NoMemory) -> Stop {
        Stop::Memory
    }
}

impl<T: Drop> From<AllocFailed<T>> for Stop {
    ghost from_gives = { λ _ e. e ≡ stops.Memory };

    fn from(_: AllocFailed<T>) -> Stop {
        Stop::Memory
    }
}

impl From<AllocError> for CodecNo {
    ghost from_gives = { λ _ e. e ≡ answers.Memory };

    fn from(_: AllocError) -> CodecNo {
        CodecNo::Memory
    }
}

impl From<NoMemory> for CodecNo {
    ghost from_gives = { λ _ e. e ≡ answers.Memory };

    fn from(_: NoMemory) -> CodecNo {
        CodecNo::Memory
    }
}

impl<T: Drop> From<AllocFailed<T>> for CodecNo {
    ghost from_gives = { λ _ e. e ≡ answers.Memory };

    fn from(_: AllocFailed<T>) -> CodecNo {
        CodecNo::Memory
    }
}
