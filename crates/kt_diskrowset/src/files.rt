//! Delta files that several owners share.
ghost use Rattle.std.specs.Prelude.{◌≡◌, ◌==◌, length, IfOk};
ghost use Rattle.kt_diskrowset.specs.Files.{as_files};

use kt_base::NoMemory;
use kt_deltafile::DeltaFile;
use std::alloc::Global;
use std::marker::Model;
use std::sync::Arc;

/// A delta file: its number, how many bytes it has, and its records. One that is not written yet has the number 0.
#[derive(Drop)]
pub struct FileHeld {
    pub file: u64,
    pub len: u64,
    pub deltas: Arc<DeltaFile>,
}

impl FileHeld {
    /// Another owner of the same file.
    pub fn copy(&self) -> Result<FileHeld, NoMemory>
        ensures { IfOk result (λ copy. (copy.file ≡ self.now.file) × (copy.len ≡ self.now.len) × (copy.deltas.value ≡ self.now.deltas.value)) }
    {
        match Arc::try_clone(&self.deltas) {
            Ok(deltas) => Ok(FileHeld {
                file: self.file,
                len: self.len,
                deltas,
            }),
            Err(_) => Err(NoMemory),
        }
    }
}

// Other owners of the same files.
fn copies(alloc: Global, files: &[FileHeld]) -> Result<Vec<FileHeld>, NoMemory>
    ensures { IfOk result (λ copies. as_files copies.items ≡ as_files files.now) }
{
    let mut copies = Vec::new(alloc);
    'files: for file in files {
        copies.push(file.copy()?)?;
    }
    Ok(copies)
}

/// The UNDO files or the REDO files of a disk rowset. Contracts see them as a list.
#[derive(Drop)]
pub struct FileLists {
    files: Vec<FileHeld>,
}

impl Model for FileLists {
    ghost use Rattle.std.specs.Prelude.{List};
    ghost use Rattle.kt_diskrowset.specs.declared.files.FileHeld.{FileHeld};

    ghost Value = { List FileHeld };

    ghost view = { λ f. f.files.items };
}

impl FileLists {
    /// Other owners of the same files.
    pub fn copy(&self, alloc: Global) -> Result<FileLists, NoMemory>
        ensures { IfOk result (λ copy. as_files copy ≡ as_files self.now) }
    {
        Ok(FileLists {
            files: copies(alloc, &self.files)?,
        })
    }

    /// The files of a vector, which takes no memory.
    pub fn of(files: Vec<FileHeld>) -> FileLists
        ensures { result ≡ files.items }
    {
        FileLists { files }
    }

    pub fn len(&self) -> usize
        ensures { result ≡ length self.now }
    {
        self.files.len()
    }

    pub fn is_empty(&self) -> bool
        ensures { result ≡ (length self.now == 0) }
    {
        self.files.is_empty()
    }

    pub fn as_slice(&self) -> &[FileHeld]
        ensures { result.now ≡ self.now }
    {
        &self.files
    }
}
