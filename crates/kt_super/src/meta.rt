//! What a superblock says.
ghost use Rattle.std.specs.Prelude.{◌≡◌};

use kt_schema::Schema;
use std::marker::Model;

/// A data file that stands as it is, with its length.
#[derive(Clone, Copy, PartialEq, Eq)]
pub struct FileRef {
    pub file: u64,
    pub len: u64,
}

/// Files in order. Contracts see them as a list.
#[derive(Drop)]
pub struct FileRefs {
    files: Vec<FileRef>,
}

impl Model for FileRefs {
    ghost use Rattle.std.specs.Prelude.{List};
    ghost use Rattle.kt_super.specs.declared.meta.FileRef.{FileRef};

    ghost Value = { List FileRef };

    ghost view = { λ f. f.files.items };
}

impl FileRefs {
    /// The files of a vector, which takes no memory.
    pub fn of(files: Vec<FileRef>) -> FileRefs
        ensures { result ≡ files.items }
    {
        FileRefs { files }
    }

    pub fn as_slice(&self) -> &[FileRef]
        ensures { result.now ≡ self.now }
    {
        &self.files
    }
}

/// A disk rowset: its files, and its last DeltaMemStore that they hold.
#[derive(Drop)]
pub struct MetaRowset {
    pub rowset: u64,
    pub last_dms: u64,
    pub base: FileRef,
    pub undo: FileRefs,
    pub redo: FileRefs,
}

/// Disk rowsets by rising number. Contracts see them as a list.
#[derive(Drop)]
pub struct MetaRowsets {
    rowsets: Vec<MetaRowset>,
}

impl Model for MetaRowsets {
    ghost use Rattle.std.specs.Prelude.{List};
    ghost use Rattle.kt_super.specs.declared.meta.MetaRowset.{MetaRowset};

    ghost Value = { List MetaRowset };

    ghost view = { λ r. r.rowsets.items };
}

impl MetaRowsets {
    /// The rowsets of a vector, which takes no memory.
    pub fn of(rowsets: Vec<MetaRowset>) -> MetaRowsets
        ensures { result ≡ rowsets.items }
    {
        MetaRowsets { rowsets }
    }

    pub fn as_slice(&self) -> &[MetaRowset]
        ensures { result.now ≡ self.now }
    {
        &self.rowsets
    }
}

/// The value of a superblock.
#[derive(Drop)]
pub struct Meta {
    /// Which superblock it is, from 1.
    pub number: u64,
    /// The ancient history mark.
    pub a: u64,
    /// The last timestamp.
    pub c: u64,
    /// How many records of the log were durable when it was made.
    pub need: u64,
    /// The last MemRowSet that is in the files.
    pub last_mem: u64,
    pub next_rowset: u64,
    pub next_file: u64,
    pub next_column: u16,
    pub schema: Schema,
    pub rowsets: MetaRowsets,
}

/// A slot that holds a superblock behind a closed gate.
#[derive(Clone, Copy, PartialEq, Eq)]
pub struct Prepared {
    pub slot: u64,
    pub number: u64,
}
