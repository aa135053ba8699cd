//! The lists that a disk's calls take and give.
ghost use Rattle.std.specs.Prelude.{◌≡◌};

use kt_base::Octets;
use std::marker::Model;

/// The numbers of files. Contracts see it as a list.
#[derive(Drop)]
pub struct FileList {
    files: Vec<u64>,
}

impl Model for FileList {
    ghost use Rattle.std.specs.Prelude.{List, ℕ};

    ghost Value = { List ℕ };

    ghost view = { λ l. l.files.items };
}

impl FileList {
    /// The numbers of a vector, which takes no memory.
    pub fn of(files: Vec<u64>) -> FileList
        ensures { result ≡ files.items }
    {
        FileList { files }
    }

    pub fn as_slice(&self) -> &[u64]
        ensures { result.now ≡ self.now }
    {
        &self.files
    }
}

/// A file with its bytes.
#[derive(Drop)]
pub struct FileBytes {
    pub file: u64,
    pub bytes: Octets,
}

/// Files with their bytes. Contracts see it as a list.
#[derive(Drop)]
pub struct FileBytesList {
    files: Vec<FileBytes>,
}

impl Model for FileBytesList {
    ghost use Rattle.std.specs.Prelude.{List};
    ghost use Rattle.kt_disk.specs.declared.lists.FileBytes.{FileBytes};

    ghost Value = { List FileBytes };

    ghost view = { λ l. l.files.items };
}

impl FileBytesList {
    /// The files of a vector, which takes no memory.
    pub fn of(files: Vec<FileBytes>) -> FileBytesList
        ensures { result ≡ files.items }
    {
        FileBytesList { files }
    }

    pub fn as_slice(&self) -> &[FileBytes]
        ensures { result.now ≡ self.now }
    {
        &self.files
    }
}

/// A call that is to fail, counted from 1: of all calls, or of those that change a file.
#[derive(Clone, Copy, PartialEq, Eq)]
pub enum Fail {
    Any(u64),
    Change(u64),
}

/// The calls that are to fail. Contracts see it as a list.
#[derive(Drop)]
pub struct FailList {
    fails: Vec<Fail>,
}

impl Model for FailList {
    ghost use Rattle.std.specs.Prelude.{List};
    ghost use Rattle.kt_disk.specs.declared.lists.Fail.{Fail};

    ghost Value = { List Fail };

    ghost view = { λ l. l.fails.items };
}

impl FailList {
    /// The calls of a vector, which takes no memory.
    pub fn of(fails: Vec<Fail>) -> FailList
        ensures { result ≡ fails.items }
    {
        FailList { fails }
    }

    pub fn as_slice(&self) -> &[Fail]
        ensures { result.now ≡ self.now }
    {
        &self.fails
    }
}
