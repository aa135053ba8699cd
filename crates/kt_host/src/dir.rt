//! A folder of the machine as a disk. It is trusted: what a read or a write means on a real file is not claimed.

ghost use Rattle.kt_base.specs.Causes.{HasCause};

use kt_base::Failed;
use kt_disk::{Disk, DiskNo, FileList};
use std::alloc::Global;
use std::fs::{File, Files, read_dir, remove_file};
use std::io;
use std::io::ErrorKind;
use std::os::unix::fs::FileExt;

/// A file that is open, and its number.
#[derive(Drop)]
struct Opened {
    number: u64,
    file: File,
}

/// A folder that this program alone uses, as long as this is kept.
#[derive(Drop)]
pub struct Taken {
    path: String,
    // The folder, opened three times: each standard descriptor that was closed is then this folder, and no file of the
    // disk. A folder is neither read nor written as a stream.
    folders: [File; 3],
    // The file `lock` in it, which is locked.
    lock: File,
}

impl Taken {
    /// Takes a folder. An error where it is not there, or taken already.
    pub fn of<R: Files<File = File>>(rt: &R, alloc: Global, path: &str) -> io::Result<Taken> {
        let folders = [
            File::open(rt, path)?,
            File::open(rt, path)?,
            File::open(rt, path)?,
        ];
        let name = format!(in alloc; "{path}/lock")?;
        let lock = File::options()
            .read(true)
            .write(true)
            .create(true)
            .open(rt, name.as_str())?;
        lock.try_lock()?;
        Ok(Taken {
            path: String::from_str(alloc, path)?,
            folders,
            lock,
        })
    }
}

/// A folder in which file n has the name `f` and n in decimal. The file of the last call stays open.
#[derive(Drop)]
struct Folder<'a, R: Files> {
    rt: &'a R,
    alloc: Global,
    // Nothing where the folder could not be taken: each call then fails.
    taken: Option<Taken>,
    last: Option<Opened>,
    // Whether the folder must be synced: a file was made or removed since it was, or it never was since it was taken.
    is_moved: bool,
}

// The number that a file's name tells.
fn number_of(name: &str) -> Option<u64> {
    let digits = name.strip_prefix("f")?;
    if digits.is_empty() || digits.starts_with('+') || digits.starts_with('0') && digits.len() > 1 {
        return None;
    }
    digits.parse::<u64>().ok()
}

// Notes the number that a name tells, if it tells one.
fn push_number(files: &mut Vec<u64>, name: &str) -> io::Result<()> {
    if let Some(number) = number_of(name) {
        files.push(number)?;
    }
    Ok(())
}

impl<'a, R: Files<File = File> + Alloc + Clone + Drop> Folder<'a, R> {
    fn taken(&self) -> io::Result<&Taken> {
        match &self.taken {
            Some(taken) => Ok(taken),
            None => Err(io::Error::from(ErrorKind::NotFound)),
        }
    }

    fn name_of(&self, number: u64) -> io::Result<String> {
        let path = self.taken()?.path.as_str();
        Ok(format!(in self.alloc; "{path}/f{number}")?)
    }

    // Opens a file that is there.
    fn opened(&self, number: u64) -> io::Result<Option<Opened>> {
        let name = self.name_of(number)?;
        match File::options()
            .read(true)
            .write(true)
            .open(self.rt, name.as_str())
        {
            Ok(file) => Ok(Some(Opened { number, file })),
            Err(e) if e.kind() == ErrorKind::NotFound => Ok(None),
            Err(e) => Err(e),
        }
    }

    fn made(&mut self, number: u64) -> io::Result<Opened> {
        let name = self.name_of(number)?;
        self.is_moved = true;
        let file = File::options()
            .read(true)
            .write(true)
            .create_new(true)
            .open(self.rt, name.as_str())?;
        Ok(Opened { number, file })
    }

    // Brings a file to hand, and tells whether it is there.
    fn find(&mut self, number: u64) -> io::Result<bool> {
        if let Some(opened) = &self.last
            && opened.number == number
        {
            return Ok(true);
        }
        self.last = self.opened(number)?;
        Ok(self.last.is_some())
    }

    fn make(&mut self, number: u64) -> io::Result<()> {
        if !self.find(number)? {
            let opened = self.made(number)?;
            self.last = Some(opened);
        }
        Ok(())
    }

    fn files(&self) -> io::Result<Vec<u64>> {
        let mut files = Vec::new(self.alloc);
        for entry in read_dir(self.rt, self.taken()?.path.as_str())? {
            match entry {
                Ok(entry) => push_number(&mut files, entry.file_name())?,
                // A name that is no text is none of a file of this disk.
                Err(e) if e.kind() == ErrorKind::InvalidFilename => {}
                Err(e) => return Err(e),
            }
        }
        files.sort_unstable();
        Ok(files)
    }

    fn len(&mut self, number: u64) -> io::Result<u64> {
        self.find(number)?;
        match &self.last {
            Some(opened) => Ok(opened.file.metadata()?.len()),
            None => Ok(0),
        }
    }

    fn read(&mut self, number: u64, at: u64, into: &mut [u8]) -> io::Result<()> {
        self.find(number)?;
        match &self.last {
            Some(opened) => opened.file.read_exact_at(into, at),
            None if into.is_empty() => Ok(()),
            None => Err(io::Error::from(ErrorKind::NotFound)),
        }
    }

    fn write_at(&mut self, number: u64, at: u64, bytes: &[u8]) -> io::Result<()> {
        self.make(number)?;
        match &self.last {
            Some(opened) => opened.file.write_all_at(bytes, at),
            None => Err(io::Error::from(ErrorKind::NotFound)),
        }
    }

    fn cut(&mut self, number: u64, to: u64) -> io::Result<()> {
        self.find(number)?;
        match &self.last {
            Some(opened) => opened.file.set_len(to),
            None => Ok(()),
        }
    }

    // The file first, and then the folder, where a name in it came or went.
    fn sync(&mut self, number: u64) -> io::Result<()> {
        self.find(number)?;
        if let Some(opened) = &self.last {
            opened.file.sync_all()?;
        }
        if self.is_moved {
            self.taken()?.folders[0].sync_all()?;
            self.is_moved = false;
        }
        Ok(())
    }

    fn remove(&mut self, number: u64) -> io::Result<()> {
        let name = self.name_of(number)?;
        self.last = None;
        self.is_moved = true;
        match remove_file(self.rt, name.as_str()) {
            Err(e) if e.kind() != ErrorKind::NotFound => Err(e),
            _ => Ok(()),
        }
    }
}

/// A disk in a folder. It tells nothing of what its files hold.
#[derive(Drop)]
pub struct DirDisk<'a, R: Files> {
    folder: Folder<'a, R>,
    faults: u64,
}

impl<'a, R: Files<File = File> + Alloc + Clone + Drop> DirDisk<'a, R> {
    /// A disk in a folder that was taken. Without one each call fails.
    pub fn new(alloc: Global, rt: &'a R, taken: Option<Taken>) -> DirDisk<'a, R> {
        let folder = Folder {
            rt,
            alloc,
            taken,
            last: None,
            is_moved: true,
        };
        DirDisk { folder, faults: 0 }
    }
}

// Counts a call that failed.
fn counted<T: Drop>(answer: io::Result<T>, faults: &mut u64) -> Result<T, Failed>
    ensures { HasCause faults.old faults.new result }
{
    match answer {
        Ok(value) => Ok(value),
        Err(_) => {
            *faults = faults.saturating_add(1);
            Err(Failed)
        }
    }
}

impl<'a, R: Files<File = File> + Alloc + Clone + Drop> Disk for DirDisk<'a, R> {
    ghost use Rattle.std.specs.Prelude.{false, None};

    ghost tells = { false };

    ghost seen = { λ d n. None };

    ghost now = { λ d. 0 };

    ghost leaves = { λ d m c. Unit {0} };

    ghost faults = { λ d. d.faults };

    ghost reads_as_image = { λ d told. tt };

    ghost images_hold_bytes = { λ d m c told left. Prim.cc };

    fn files(&mut self, _alloc: Global) -> Result<FileList, DiskNo> {
        let answer = self.folder.files();
        Ok(FileList::of(counted(answer, &mut self.faults)?))
    }

    fn len(&mut self, file: u64) -> Result<u64, Failed> {
        let answer = self.folder.len(file);
        counted(answer, &mut self.faults)
    }

    fn read(&mut self, file: u64, at: u64, into: &mut [u8]) -> Result<(), Failed> {
        let answer = self.folder.read(file, at, into);
        counted(answer, &mut self.faults)
    }

    fn write_at(&mut self, file: u64, at: u64, bytes: &[u8]) -> Result<(), Failed> {
        let answer = self.folder.write_at(file, at, bytes);
        counted(answer, &mut self.faults)
    }

    fn cut(&mut self, file: u64, to: u64) -> Result<(), Failed> {
        let answer = self.folder.cut(file, to);
        counted(answer, &mut self.faults)
    }

    fn sync(&mut self, file: u64) -> Result<(), Failed> {
        let answer = self.folder.sync(file);
        counted(answer, &mut self.faults)
    }

    fn remove(&mut self, file: u64) -> Result<(), Failed> {
        let answer = self.folder.remove(file);
        counted(answer, &mut self.faults)
    }
}
