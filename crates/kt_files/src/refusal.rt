//! Why files are not read or removed.
ghost use Rattle.std.specs.Prelude.{◌≡◌};
ghost use Rattle.kt_files.specs.declared.refusal.FilesNo.TheVariants as files_no;
ghost use Rattle.kt_files.specs.declared.refusal.RemoveNo.TheVariants as remove_no;

use kt_base::Failed;
use kt_disk::DiskNo;
use std::alloc::{AllocError, AllocFailed};
use thiserror::Error;

/// Why the files of a superblock are not read.
#[derive(Clone, Copy, Debug, PartialEq, Eq, Error)]
pub enum FilesNo {
    /// The disk failed.
    #[error("the disk failed")]
    Fault,
    /// This file is the first that is shorter than its length, or that does not hold what it is to hold, and here is its
    /// first fault.
    #[error("file {file} is at fault at offset {offset}")]
    Place { file: u64, offset: u64 },
    #[error("out of memory")]
    Memory,
}

/// Why files are not removed.
#[derive(Clone, Copy, Debug, PartialEq, Eq, Error)]
pub enum RemoveNo {
    /// The disk failed.
    #[error("the disk failed")]
    Fault,
    #[error("out of memory")]
    Memory,
}

impl From<Failed> for FilesNo {
    ghost from_gives = { λ _ e. e ≡ files_no.Fault };

    fn from(_: Failed) -> Self {
        FilesNo::Fault
    }
}

impl From<AllocError> for FilesNo {
    ghost from_gives = { λ _ e. e ≡ files_no.Memory };

    fn from(_: AllocError) -> Self {
        FilesNo::Memory
    }
}

impl<T: Drop> From<AllocFailed<T>> for FilesNo {
    ghost from_gives = { λ _ e. e ≡ files_no.Memory };

    fn from(_: AllocFailed<T>) -> Self {
        FilesNo::Memory
    }
}

impl From<Failed> for RemoveNo {
    ghost from_gives = { λ _ e. e ≡ remove_no.Fault };

    fn from(_: Failed) -> Self {
        RemoveNo::Fault
    }
}

impl From<AllocError> for RemoveNo {
    ghost from_gives = { λ _ e. e ≡ remove_no.Memory };

    fn from(_: AllocError) -> Self {
        RemoveNo::Memory
    }
}

impl From<DiskNo> for RemoveNo {
    ghost use Rattle.kt_files.specs.Refusal.{no_of};

    ghost from_gives = { λ no e. e ≡ no_of no };

    fn from(no: DiskNo) -> Self {
        match no {
            DiskNo::Failed => RemoveNo::Fault,
            DiskNo::Memory => RemoveNo::Memory,
        }
    }
}
