//! Why a call on a dictionary block gave no value.

ghost use Rattle.std.specs.Prelude.{◌≡◌};
ghost use Rattle.kt_dict.specs.declared.error.CodecNo.TheVariants.{Memory};

use kt_bytes::NoMemory;
use std::alloc::AllocError;
use thiserror::Error;

/// What the cells of a block are: a dictionary block holds byte strings alone.
#[derive(Clone, Copy, PartialEq, Eq)]
pub enum Width {
    Bytes,
}

#[derive(Clone, Copy, Debug, PartialEq, Eq, Error)]
pub enum CodecNo {
    /// The bytes spell no list: the place of the first fault.
    #[error("the bytes are no dictionary block at offset {offset}")]
    Place { offset: u64 },
    /// There are more than 4,096 different items: how many there are.
    #[error("there are {count} different items, more than 4,096")]
    TooMany { count: u32 },
    #[error("out of memory")]
    Memory,
}

impl From<AllocError> for CodecNo {
    ghost from_gives = { λ _ e. e ≡ Memory };

    fn from(_e: AllocError) -> CodecNo {
        CodecNo::Memory
    }
}

impl From<NoMemory> for CodecNo {
    ghost from_gives = { λ _ e. e ≡ Memory };

    fn from(_e: NoMemory) -> CodecNo {
        CodecNo::Memory
    }
}
