//! Disks in memory: the images of a crash, and calls that fail.
use kt_disk::{Disk, Fail, FailList, FaultDisk, HeldDisk, MemDisk, PassGate};
use std::alloc::Global;

// What a file holds.
fn bytes<D: Disk>(alloc: Global, disk: &mut D, file: u64) -> Option<Vec<u8>> {
    let len = disk.len(file).ok()?;
    let mut bytes = Vec::new(alloc);
    bytes.resize(len as usize, 0).ok()?;
    disk.read(file, 0, bytes.as_mut_slice()).ok()?;
    Some(bytes)
}

// Whether a file has these bytes.
fn holds<D: Disk>(alloc: Global, disk: &mut D, file: u64, wanted: &[u8]) -> bool {
    match bytes(alloc, disk, file) {
        Some(found) => found.as_slice() == wanted,
        None => false,
    }
}

// Writes a stable file, and then two pieces that are not stable. Tells whether all was written.
fn write_two(disk: &mut MemDisk) -> bool {
    disk.write_at(1, 0, b"abcd").is_ok()
        && disk.sync(1).is_ok()
        && disk.write_at(1, 0, b"efghij").is_ok()
        && disk.write_at(2, 0, b"klmn").is_ok()
}

// How many calls before its last a disk crashes, the pick, and what the two files hold then.
const IMAGES: [(u64, &[u8], &[u8], &[u8]); 11] = [
    (0, &[], b"abcd", b""),
    (0, &[0], b"abcd", b""),
    (0, &[1], b"efghij", b"klmn"),
    (0, &[2], b"efgd", b"kl"),
    (0, &[3], &[1, 1, 1, 1, 1, 1], &[1, 1, 1, 1]),
    (0, &[0, 1], b"abcd", b"klmn"),
    (0, &[1, 0, 3], b"efghij", b""),
    (1, &[1], b"efghij", b""),
    (2, &[1], b"abcd", b""),
    (3, &[1], b"abcd", b""),
    (4, &[1], b"", b""),
];

fn leaves(
    alloc: Global,
    disk: &MemDisk,
    back: u64,
    pick: &[u8],
    first: &[u8],
    second: &[u8],
) -> bool {
    match disk.crash(alloc, disk.moment().saturating_sub(back), pick) {
        Ok(mut image) => holds(alloc, &mut image, 1, first) && holds(alloc, &mut image, 2, second),
        Err(_) => false,
    }
}

fn has_its_images(alloc: Global) -> bool {
    let mut disk = MemDisk::new(alloc);
    let mut all = write_two(&mut disk);
    for (back, pick, first, second) in IMAGES {
        all &= leaves(alloc, &disk, back, pick, first, second);
    }
    all
}

#[test]
fn each_moment_and_pick_has_its_image(rt: HostRuntime) {
    assert!(rt; has_its_images(rt.alloc()));
}

// Writes a file of which a part is stable.
fn write_one(disk: &mut MemDisk, file: u64) -> bool {
    disk.write_at(file, 0, b"abcd").is_ok()
        && disk.sync(file).is_ok()
        && disk.write_at(file, 0, b"ef").is_ok()
        && disk.len(file).is_ok()
}

// Some of a thousand such files, and what they hold in the image.
const LEFT: [(u64, &[u8]); 5] = [
    (0, b"efcd"),
    (1, b"abcd"),
    (2, &[1, 1, b'c', b'd']),
    (3, b"ebcd"),
    (999, b"ebcd"),
];

fn are_left(alloc: Global, disk: &MemDisk) -> bool {
    let Ok(mut image) = disk.crash(alloc, disk.moment(), &[1, 0, 3, 2]) else {
        return false;
    };
    let mut all = true;
    for (file, left) in LEFT {
        all &= holds(alloc, &mut image, file, left);
    }
    all
}

fn has_a_late_image(alloc: Global) -> bool {
    let mut disk = MemDisk::new(alloc);
    let mut all = true;
    for file in 0..1000u64 {
        all &= write_one(&mut disk, file);
    }
    all && are_left(alloc, &disk)
}

#[test]
fn a_crash_after_four_thousand_calls_has_its_image(rt: HostRuntime) {
    assert!(rt; has_a_late_image(rt.alloc()));
}

// A disk whose second call fails, and the second and the fourth of those that change it.
fn failing(alloc: Global) -> Option<FaultDisk<MemDisk>> {
    let mut fails = Vec::new(alloc);
    fails.push(Fail::Any(2)).ok()?;
    fails.push(Fail::Change(2)).ok()?;
    fails.push(Fail::Change(4)).ok()?;
    FaultDisk::of(alloc, MemDisk::new(alloc), FailList::of(fails)).ok()
}

// Which of eight calls are done.
fn told(disk: &mut FaultDisk<MemDisk>) -> [bool; 8] {
    [
        disk.len(1).is_ok(),
        disk.len(1).is_ok(),
        disk.write_at(1, 0, b"ab").is_ok(),
        disk.write_at(1, 0, b"xy").is_ok(),
        disk.sync(1).is_ok(),
        disk.remove(1).is_ok(),
        disk.cut(1, 0).is_ok(),
        disk.write_at(1, 0, b"ab").is_ok(),
    ]
}

fn fails_as_listed(alloc: Global) -> bool {
    let Some(mut disk) = failing(alloc) else {
        return false;
    };
    let wanted = [true, false, true, false, true, false, true, true];
    told(&mut disk) == wanted && holds(alloc, &mut disk.into_inner(), 1, b"ab")
}

#[test]
fn listed_calls_fail_and_are_not_done(rt: HostRuntime) {
    assert!(rt; fails_as_listed(rt.alloc()));
}

// Whether a disk has two files.
fn has_two(alloc: Global, disk: &mut MemDisk) -> bool {
    match disk.files(alloc) {
        Ok(files) => files.as_slice().len() == 2,
        Err(_) => false,
    }
}

fn holds_its_disk(alloc: Global) -> bool {
    let mut disk = MemDisk::new(alloc);
    let done = write_two(&mut disk);
    let mut held = HeldDisk::of(disk, &PassGate, 7);
    done && holds(alloc, &mut held, 1, b"efghij") && has_two(alloc, &mut held.into_inner())
}

#[test]
fn a_held_disk_holds_what_its_disk_does(rt: HostRuntime) {
    assert!(rt; holds_its_disk(rt.alloc()));
}
