//! The superblock with which a tablet is opened, as clauses see it.
ghost use Rattle.std.specs.Prelude.{◌≡◌, map};
ghost use Rattle.kt_diskrowset.specs.Data.{held_in};
ghost use Rattle.kt_content.specs.Places.{fresh};
ghost use Rattle.kt_reopen.specs.Both.{super_in};

use kt_files::RowSets;
use kt_super::Meta;
use std::marker::Model;
use std::snapshot::Snapshot;

/// The superblock with which a tablet is opened, and what the files hold that it names: that of a fresh tablet, or one that was
/// read with its files. No file is kept here: the stores of the tablet have them.
#[derive(Drop)]
pub struct Superblock {
    told: Told,
}

/// What a superblock is told by.
#[derive(Drop)]
pub enum Told {
    Fresh,
    Read {
        meta: Snapshot<Meta>,
        files: Snapshot<RowSets>,
    },
}

impl Model for Superblock {
    ghost use Rattle.kt_content.specs.Places.{Super};
    ghost use Rattle.kt_reopen.specs.Superblock.{super_told};

    ghost Value = { Super };

    ghost view = { λ s. super_told s.told };
}

impl Superblock {
    /// That of a fresh tablet.
    pub const fn fresh() -> Superblock
        ensures { result ≡ fresh }
    {
        Superblock { told: Told::Fresh }
    }

    /// One that was read, with its files.
    pub fn read(meta: &Meta, files: &RowSets) -> Superblock
        ensures { result ≡ super_in meta.now (map held_in files.now) }
    {
        let told = Told::Read {
            meta: Snapshot::of(meta),
            files: Snapshot::of(files),
        };
        Superblock { told }
    }
}
