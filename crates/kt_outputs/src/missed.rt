//! The files of what the outputs of a job missed.
ghost use Rattle.std.specs.Prelude.{◌≡◌};

use kt_diskrowset::FileHeld;
use std::marker::Model;

/// For each output the REDO file of the changes that it missed, or none where it missed none. Contracts see them as a list.
#[derive(Drop)]
pub struct MissedFiles {
    files: Vec<Option<FileHeld>>,
}

impl Model for MissedFiles {
    ghost use Rattle.std.specs.Prelude.{List, Option};
    ghost use Rattle.kt_diskrowset.specs.declared.files.FileHeld.{FileHeld};

    ghost Value = { List (Option FileHeld) };

    ghost view = { λ m. m.files.items };
}

impl MissedFiles {
    /// The files of a vector, which takes no memory.
    pub fn of(files: Vec<Option<FileHeld>>) -> MissedFiles
        ensures { result ≡ files.items }
    {
        MissedFiles { files }
    }
}
