//! The real ends: a folder as a disk, streams, and the machine's clock.
use kt_base::{Clock, Sink, Source};
use kt_disk::Disk;
use kt_host::{DirDisk, MachineClock, Stdin, Stdout, Taken};
use std::fs::{create_dir, remove_dir_all};
use std::io::{ErrorKind, Read, Write};
use std::time::Duration;
use std::{env, io, process, time};

// A folder of this test's own, made anew.
fn new_folder(rt: &HostRuntime, name: &str) -> io::Result<String> {
    let alloc = rt.alloc();
    let base = env::temp_dir(rt)?;
    let number = process::id(rt.process());
    let folder = format!(in alloc; "{}/kt_host_{name}_{number}", base.display())?;
    create_dir(rt, folder.as_str())?;
    Ok(folder)
}

fn disk_in<'a>(rt: &'a HostRuntime, folder: &str) -> io::Result<DirDisk<'a, HostRuntime>> {
    let taken = Taken::of(rt, rt.alloc(), folder)?;
    Ok(DirDisk::new(rt.alloc(), rt, Some(taken)))
}

// Writes two files. Tells whether all was done.
fn write_some(disk: &mut DirDisk<HostRuntime>) -> bool {
    disk.len(1) == Ok(0)
        && disk.write_at(1, 0, b"abcd").is_ok()
        && disk.write_at(1, 3, b"xy").is_ok()
        && disk.write_at(12, 0, b"z").is_ok()
        && disk.sync(1).is_ok()
        && disk.sync(12).is_ok()
}

// Whether the two files are found.
fn is_found(rt: &HostRuntime, disk: &mut DirDisk<HostRuntime>) -> bool {
    let mut bytes = [0u8; 5];
    let is_read = disk.read(1, 0, &mut bytes).is_ok() && bytes == *b"abcxy";
    match disk.files(rt.alloc()) {
        Ok(files) => is_read && files.as_slice().len() == 2,
        Err(_) => false,
    }
}

// Cuts the first file and removes the second, once and again. Tells whether all was done.
fn cut_and_remove(disk: &mut DirDisk<HostRuntime>) -> bool {
    disk.cut(1, 2).is_ok()
        && disk.remove(12).is_ok()
        && disk.remove(12).is_ok()
        && disk.sync(12).is_ok()
        && disk.len(1) == Ok(2)
        && disk.len(12) == Ok(0)
}

// Writes a folder that nobody else can take meanwhile, opens it again and empties it. Tells whether it kept what was written.
fn keeps(rt: &HostRuntime, folder: &str) -> io::Result<bool> {
    let mut first = disk_in(rt, folder)?;
    let written = write_some(&mut first) && disk_in(rt, folder).is_err();
    drop(first);
    let mut again = disk_in(rt, folder)?;
    Ok(written && is_found(rt, &mut again) && cut_and_remove(&mut again))
}

// The same in a folder of its own, which is removed.
fn a_folder_keeps(rt: &HostRuntime) -> io::Result<bool> {
    let folder = new_folder(rt, "folder")?;
    let kept = keeps(rt, folder.as_str())?;
    remove_dir_all(rt, folder.as_str())?;
    Ok(kept)
}

#[test]
fn a_folder_keeps_what_was_written_and_is_taken_once(rt: HostRuntime) {
    assert!(rt; matches!(a_folder_keeps(&rt), Ok(true)));
}

// A stream that signals interrupt so often. It then takes or gives one byte, and fails from then on.
#[derive(Drop)]
struct Interrupted {
    left: u32,
    is_done: bool,
}

impl Interrupted {
    fn times(left: u32) -> Interrupted {
        Interrupted {
            left,
            is_done: false,
        }
    }

    fn answer(&mut self) -> io::Result<usize> {
        if self.left > 0 {
            self.left -= 1;
            return Err(io::Error::from(ErrorKind::Interrupted));
        }
        if self.is_done {
            return Err(io::Error::from(ErrorKind::BrokenPipe));
        }
        self.is_done = true;
        Ok(1)
    }
}

impl Read for Interrupted {
    fn read(&mut self, into: &mut [u8]) -> io::Result<usize> {
        Ok(self.answer()?.min(into.len()))
    }
}

impl Write for Interrupted {
    fn write(&mut self, piece: &[u8]) -> io::Result<usize> {
        Ok(self.answer()?.min(piece.len()))
    }

    fn flush(&mut self) -> io::Result<()> {
        Ok(())
    }
}

// How many bytes a source takes in two calls that so many signals interrupt.
fn taken(signals: u32) -> [Option<usize>; 2] {
    let mut source = Stdin::new(Interrupted::times(signals));
    let mut into = [0u8; 4];
    [source.take(&mut into).ok(), source.take(&mut into).ok()]
}

// The same of a sink.
fn given(signals: u32) -> [Option<usize>; 2] {
    let mut sink = Stdout::new(Interrupted::times(signals));
    [sink.put(b"ab").ok(), sink.put(b"ab").ok()]
}

#[test]
fn a_call_on_a_stream_outlives_999_signals(rt: HostRuntime) {
    assert_eq!(rt;
        (taken(999), given(999)),
        ([Some(1), None], [Some(1), None])
    );
    assert_eq!(rt;
        (taken(1000), given(1000)),
        ([None, Some(1)], [None, Some(1)])
    );
}

// A machine whose clock stands, or cannot be read.
#[derive(Drop)]
struct Stands(Option<Duration>);

impl time::Clock for Stands {
    fn monotonic(&self) -> io::Result<Duration> {
        self.since_1970()
    }

    fn since_1970(&self) -> io::Result<Duration> {
        match self.0 {
            Some(since) => Ok(since),
            None => Err(io::Error::from(ErrorKind::Unsupported)),
        }
    }
}

fn reading_at(secs: u64, micros: u32) -> u64 {
    let since = Duration::from_secs(secs).saturating_add(Duration::from_micros(u64::from(micros)));
    MachineClock::new(&Stands(Some(since))).now()
}

// Seconds and microseconds since 1970, and the reading of the clock.
const READINGS: [(u64, u32, u64); 5] = [
    (0, 0, 0),
    (1_577_836_799, 999_999, 0),
    (1_577_836_800, 0, 0),
    (1_577_836_800, 1, 1),
    // One second into 2021, after the 366 days of 2020.
    (1_609_459_201, 7, 31_622_401_000_007),
];

// Whether each reading is as it is to be.
fn all_are_read() -> bool {
    for (secs, micros, reading) in READINGS {
        if reading_at(secs, micros) != reading {
            return false;
        }
    }
    MachineClock::new(&Stands(None)).now() == 0
}

#[test]
fn the_clock_counts_microseconds_from_2020(rt: HostRuntime) {
    assert!(rt; all_are_read());
    // The machine's own stands between 2025 and 2055.
    let reading = MachineClock::new(&rt).now();
    assert!(rt; reading > 157_766_400_000_000 && reading < 1 << 50);
}
