//! Why a call on the log gives up.
ghost use Rattle.std.specs.Prelude.{◌≡◌};
ghost use Rattle.kt_journal.specs.declared.refusal.AppendNo.TheVariants.{Memory};
ghost use Rattle.kt_journal.specs.declared.refusal.JournalNo.TheVariants as journal_no;

use kt_base::{Failed, NoMemory};
use kt_disk::DiskNo;
use std::alloc::{AllocError, AllocFailed};
use thiserror::Error;

/// Why an append gives up.
#[derive(Clone, Copy, Debug, PartialEq, Eq, Error)]
pub enum AppendNo {
    /// The device has failed.
    #[error("the device failed")]
    Fault,
    /// There was no memory, and nothing was written.
    #[error("out of memory")]
    Memory,
}

impl From<NoMemory> for AppendNo {
    ghost from_gives = { λ _ e. e ≡ Memory };

    fn from(_: NoMemory) -> Self {
        AppendNo::Memory
    }
}

/// Why opening a log gives up.
#[derive(Clone, Copy, Debug, PartialEq, Eq, Error)]
pub enum JournalNo {
    /// The device has failed.
    #[error("the device failed")]
    Fault,
    /// The log has its first fault at this offset.
    #[error("the log is at fault at offset {offset}")]
    Place { offset: u64 },
    /// There was no memory.
    #[error("out of memory")]
    Memory,
}

impl From<NoMemory> for JournalNo {
    ghost from_gives = { λ _ e. e ≡ journal_no.Memory };

    fn from(_: NoMemory) -> Self {
        JournalNo::Memory
    }
}

impl<T: Drop> From<AllocFailed<T>> for JournalNo {
    ghost from_gives = { λ _ e. e ≡ journal_no.Memory };

    fn from(_: AllocFailed<T>) -> Self {
        JournalNo::Memory
    }
}

impl From<Failed> for JournalNo {
    ghost from_gives = { λ _ e. e ≡ journal_no.Fault };

    fn from(_: Failed) -> Self {
        JournalNo::Fault
    }
}

impl From<AllocError> for JournalNo {
    ghost from_gives = { λ _ e. e ≡ journal_no.Memory };

    fn from(_: AllocError) -> Self {
        JournalNo::Memory
    }
}

impl From<DiskNo> for JournalNo {
    ghost use Rattle.kt_journal.specs.Refusal.{no_of};

    ghost from_gives = { λ no e. e ≡ no_of no };

    fn from(no: DiskNo) -> Self {
        match no {
            DiskNo::Failed => JournalNo::Fault,
            DiskNo::Memory => JournalNo::Memory,
        }
    }
}
