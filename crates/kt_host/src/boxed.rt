//! A disk on the heap.
ghost use Rattle.std.specs.Prelude.{◌≡◌, MatchResult};
ghost use Rattle.kt_host.specs.Boxed.{within, inside};

use kt_base::Failed;
use kt_disk::{Disk, DiskNo, FileList};
use std::alloc::Global;

/// Passes each call on to another disk, which stands on the heap: whoever moves it moves one word, however large that one is.
#[derive(Drop)]
pub struct BoxedDisk<D: Disk> {
    inner: Box<D>,
}

impl<D: Disk> BoxedDisk<D> {
    /// A disk that is put on the heap. Without memory it comes back.
    pub fn of(alloc: Global, inner: D) -> Result<BoxedDisk<D>, D>
        ensures { MatchResult result (λ disk. within disk ≡ inner) (λ back. back ≡ inner) }
    {
        match Box::new(alloc, inner) {
            Ok(inner) => Ok(BoxedDisk { inner }),
            Err(no) => Err(no.value),
        }
    }
}

impl<D: Disk> Disk for BoxedDisk<D> {
    ghost tells = { D.tells };

    ghost seen = { inside D.seen };

    ghost now = { inside D.now };

    ghost leaves = { inside D.leaves };

    ghost faults = { inside D.faults };

    ghost reads_as_image = { λ d. D.reads_as_image d.inner.value };

    ghost images_hold_bytes = { λ d. D.images_hold_bytes d.inner.value };

    fn files(&mut self, alloc: Global) -> Result<FileList, DiskNo> {
        self.inner.files(alloc)
    }

    fn len(&mut self, file: u64) -> Result<u64, Failed> {
        self.inner.len(file)
    }

    fn read(&mut self, file: u64, at: u64, into: &mut [u8]) -> Result<(), Failed> {
        self.inner.read(file, at, into)
    }

    fn write_at(&mut self, file: u64, at: u64, bytes: &[u8]) -> Result<(), Failed> {
        self.inner.write_at(file, at, bytes)
    }

    fn cut(&mut self, file: u64, to: u64) -> Result<(), Failed> {
        self.inner.cut(file, to)
    }

    fn sync(&mut self, file: u64) -> Result<(), Failed> {
        self.inner.sync(file)
    }

    fn remove(&mut self, file: u64) -> Result<(), Failed> {
        self.inner.remove(file)
    }
}
