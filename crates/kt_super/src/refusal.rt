//! Why a superblock is not read or written.
ghost use Rattle.std.specs.Prelude.{◌≡◌};

use kt_base::{Failed, NoMemory};
use std::alloc::AllocError;
use thiserror::Error;

/// A byte of a slot.
#[derive(Clone, Copy, Debug, PartialEq, Eq)]
pub struct Place {
    pub slot: u64,
    pub offset: u64,
}

/// Why no superblock is told.
#[derive(Clone, Copy, Debug, PartialEq, Eq, Error)]
pub enum SuperNo {
    /// The disk failed.
    #[error("the disk failed")]
    Fault,
    /// An open slot holds no superblock, and here is its first fault.
    #[error("slot {slot} holds no superblock: it is at fault at offset {offset}")]
    Place { slot: u64, offset: u64 },
    #[error("out of memory")]
    Memory,
}

/// Why a superblock is not prepared.
#[derive(Clone, Copy, Debug, PartialEq, Eq, Error)]
pub enum PrepareNo {
    /// The disk failed.
    #[error("the disk failed")]
    Fault,
    #[error("out of memory")]
    Memory,
}

impl From<AllocError> for SuperNo {
    ghost use Rattle.kt_super.specs.declared.refusal.SuperNo.TheVariants.{Memory};

    ghost from_gives = { λ _ e. e ≡ Memory };

    fn from(_: AllocError) -> Self {
        SuperNo::Memory
    }
}

impl From<Failed> for SuperNo {
    ghost use Rattle.kt_super.specs.declared.refusal.SuperNo.TheVariants as super_no;

    ghost from_gives = { λ _ e. e ≡ super_no.Fault };

    fn from(_: Failed) -> Self {
        SuperNo::Fault
    }
}

impl From<NoMemory> for PrepareNo {
    ghost use Rattle.kt_super.specs.declared.refusal.PrepareNo.TheVariants.{Memory};

    ghost from_gives = { λ _ e. e ≡ Memory };

    fn from(_: NoMemory) -> Self {
        PrepareNo::Memory
    }
}

impl From<Failed> for PrepareNo {
    ghost use Rattle.kt_super.specs.declared.refusal.PrepareNo.TheVariants as prepare_no;

    ghost from_gives = { λ _ e. e ≡ prepare_no.Fault };

    fn from(_: Failed) -> Self {
        PrepareNo::Fault
    }
}
