//! Why a call gave no answer.

use kt_base::NoMemory;
use std::alloc::{AllocError, AllocFailed};
use thiserror::Error;

/// Why bytes gave no block, or no column.
#[derive(Clone, Copy, Debug, PartialEq, Eq, Error)]
pub enum CodecNo {
    /// No such spelling begins the bytes: the place of the first fault.
    #[error("the bytes are no column at offset {offset}")]
    Place { offset: u64 },
    #[error("out of memory")]
    Memory,
}

impl From<NoMemory> for CodecNo {
    ghost use Rattle.std.specs.Prelude.{◌≡◌};
    ghost use Rattle.kt_column.specs.declared.errors.CodecNo.TheVariants.{Memory};

    ghost from_gives = { λ _ e. e ≡ Memory };

    fn from(_e: NoMemory) -> CodecNo {
        CodecNo::Memory
    }
}

/// Why reading stopped: no memory, or a fault at a place.
#[derive(Clone, Copy)]
pub enum Stop {
    Memory,
    Fault { at: usize },
}

impl From<NoMemory> for Stop {
    ghost use Rattle.std.specs.Prelude.{◌≡◌};
    ghost use Rattle.kt_column.specs.declared.errors.Stop.TheVariants.{Memory};

    ghost from_gives = { λ _ e. e ≡ Memory };

    fn from(_e: NoMemory) -> Stop {
        Stop::Memory
    }
}

impl From<AllocError> for Stop {
    ghost use Rattle.std.specs.Prelude.{◌≡◌};
    ghost use Rattle.kt_column.specs.declared.errors.Stop.TheVariants.{Memory};

    ghost from_gives = { λ _ e. e ≡ Memory };

    fn from(_e: AllocError) -> Stop {
        Stop::Memory
    }
}

impl<T: Drop> From<AllocFailed<T>> for Stop {
    ghost use Rattle.std.specs.Prelude.{◌≡◌};
    ghost use Rattle.kt_column.specs.declared.errors.Stop.TheVariants.{Memory};

    ghost from_gives = { λ _ e. e ≡ Memory };

    fn from(_e: AllocFailed<T>) -> Stop {
        Stop::Memory
    }
}
