//! Why a tablet is not opened.
ghost use Rattle.std.specs.Prelude.{◌≡◌};
ghost use Rattle.kt_reopen.specs.declared.why.Why.TheVariants as why;
ghost use Rattle.kt_reopen.specs.Refusal.{super_why, files_why, prepare_why, remove_why};

use kt_base::{Failed, NoMemory};
use kt_files::{FilesNo, RemoveNo};
use kt_super::{PrepareNo, SuperNo};
use thiserror::Error;

/// Why a tablet is not opened.
#[derive(Clone, Copy, Debug, PartialEq, Eq, Error)]
pub enum Why {
    /// An open slot holds no superblock, and here is its first fault. Without a superblock there is a log: slot 1, offset 0.
    #[error("slot {slot} is at fault at offset {offset}")]
    B1 { slot: u64, offset: u64 },
    /// A data file is too short, or not in its grammar, and here is its first fault.
    #[error("file {file} is at fault at offset {offset}")]
    B2 { file: u64, offset: u64 },
    /// The log is at fault in the frame whose gate stands at this offset.
    #[error("the log is at fault at offset {offset}")]
    B3 { offset: u64 },
    /// The log has fewer records than the superblock needs.
    #[error("the log has {found} records of {need}")]
    B4 { need: u64, found: u64 },
    /// This column, counted from 1, is another one in the superblock.
    #[error("column {column} is another one")]
    B5 { column: u32 },
    /// The last timestamp is too great for another run.
    #[error("the last timestamp {last} is too great")]
    B6 { last: u64 },
    /// A call on a device failed.
    #[error("a device failed")]
    Fault,
    #[error("out of memory")]
    Memory,
}

impl From<NoMemory> for Why {
    ghost from_gives = { λ _ e. e ≡ why.Memory };

    fn from(_: NoMemory) -> Self {
        Why::Memory
    }
}

impl From<Failed> for Why {
    ghost from_gives = { λ _ e. e ≡ why.Fault };

    fn from(_: Failed) -> Self {
        Why::Fault
    }
}

impl From<SuperNo> for Why {
    ghost from_gives = { λ no e. e ≡ super_why no };

    fn from(no: SuperNo) -> Self {
        match no {
            SuperNo::Fault => Why::Fault,
            SuperNo::Place { slot, offset } => Why::B1 { slot, offset },
            SuperNo::Memory => Why::Memory,
        }
    }
}

impl From<FilesNo> for Why {
    ghost from_gives = { λ no e. e ≡ files_why no };

    fn from(no: FilesNo) -> Self {
        match no {
            FilesNo::Fault => Why::Fault,
            FilesNo::Place { file, offset } => Why::B2 { file, offset },
            FilesNo::Memory => Why::Memory,
        }
    }
}

impl From<PrepareNo> for Why {
    ghost from_gives = { λ no e. e ≡ prepare_why no };

    fn from(no: PrepareNo) -> Self {
        match no {
            PrepareNo::Fault => Why::Fault,
            PrepareNo::Memory => Why::Memory,
        }
    }
}

impl From<RemoveNo> for Why {
    ghost from_gives = { λ no e. e ≡ remove_why no };

    fn from(no: RemoveNo) -> Self {
        match no {
            RemoveNo::Fault => Why::Fault,
            RemoveNo::Memory => Why::Memory,
        }
    }
}
