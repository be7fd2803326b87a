//! A file of runs: what openings find after cuts, after changes of its bytes, and what reads cost.
use crate::device::{bytes_of, device, group, key};
use mega_base::{Bytes, Items, Position};
use mega_disk::{Disk, MemDisk, StoreError};
use mega_runs::{Mark, Run, RunFile, Version, can_write};
use std::alloc::Global;
use std::process::Abort;

/// The first run of a small store: the mark 1 of the group `b`, and the key `a` without a row at position 1.
const FIRST: [u8; 46] = [
    1, 0, 0, 0, 0, 0, 0, 0, 36, 1, 0, 0, 0, 1, 0, 0, 0, 1, 98, 0, 0, 0, 0, 0, 0, 0, 1, 0, 0, 0, 1,
    0, 0, 0, 1, 97, 0, 0, 0, 0, 0, 0, 0, 1, 0, 0,
];

/// A run of so many keys from a number on, each without a row at position 1.
fn run_of(rt: &impl Abort, alloc: Global, is_base: bool, from: u32, count: u32) -> Run {
    let mut versions = Items::new(alloc);
    for number in 0..count {
        let version = Version {
            key: key(rt, alloc, u64::from(from) + u64::from(number)),
            at: Position(1),
            row: None,
        };
        versions.push(version).expect(rt, "refused");
    }
    Run {
        is_base,
        marks: Items::new(alloc),
        versions,
    }
}

/// Adds a run that can be written.
fn add(alloc: Global, file: &mut RunFile<MemDisk>, run: Run) -> Result<(), StoreError> {
    if !can_write(&run) {
        return Err(StoreError::NoMemory);
    }
    file.add(alloc, run)
}

/// What an opening of the device gives, and the device.
fn opened(alloc: Global, disk: MemDisk) -> Result<RunFile<MemDisk>, StoreError> {
    match RunFile::open(alloc, disk) {
        Ok(file) => Ok(file),
        Err((error, _)) => Err(error),
    }
}

/// Whether a version of the key is found.
fn has(rt: &impl Abort, alloc: Global, file: &mut RunFile<MemDisk>, number: u64) -> bool {
    let key = key(rt, alloc, number);
    let seen = file.found(alloc, &key, Position(9)).expect(rt, "refused");
    seen.is_some()
}

#[test]
fn the_first_run_has_these_bytes(rt: HostRuntime) {
    let alloc = rt.alloc();
    let mut file = opened(alloc, MemDisk::new(alloc)).expect(&rt, "refused");
    let mut marks = Items::new(alloc);
    marks
        .push(Mark {
            group: group(&rt, alloc),
            at: Position(1),
        })
        .expect(&rt, "refused");
    let mut versions = Items::new(alloc);
    versions
        .push(Version {
            key: Bytes::from_slice(alloc, b"a").expect(&rt, "refused"),
            at: Position(1),
            row: None,
        })
        .expect(&rt, "refused");
    let run = Run {
        is_base: false,
        marks,
        versions,
    };
    add(alloc, &mut file, run).expect(&rt, "refused");
    let mut disk = file.close();
    let bytes = bytes_of(&rt, alloc, &mut disk);
    assert_eq!(rt; bytes.as_slice(), FIRST.as_slice());
}

#[test]
fn other_first_bytes_are_bad(rt: HostRuntime) {
    let alloc = rt.alloc();
    for kind in 0..5u8 {
        let mut bytes = FIRST;
        bytes[9] = kind;
        let disk = device(&rt, alloc, &bytes);
        match opened(alloc, disk) {
            Ok(_) => assert!(rt; kind == 1 || kind == 2),
            Err(StoreError::BadRecord { number }) => {
                assert!(rt; kind != 1 && kind != 2);
                assert_eq!(rt; number, 1);
            }
            Err(error) => panic!(rt; "refused: {error:?}"),
        }
    }
}

#[test]
fn a_cut_leaves_the_old_runs_or_the_new_ones(rt: HostRuntime) {
    let alloc = rt.alloc();
    for calls in 0..5u64 {
        for image in 0..3u8 {
            let mut file = opened(alloc, MemDisk::new(alloc)).expect(&rt, "refused");
            add(alloc, &mut file, run_of(&rt, alloc, false, 0, 20)).expect(&rt, "refused");
            file.fuse(calls, image);
            let answer = add(alloc, &mut file, run_of(&rt, alloc, calls == 2, 20, 20));
            assert_eq!(rt; answer.is_ok(), calls == 4);
            let mut disk = file.close();
            disk.fuse(1000, 0);
            let mut file = opened(alloc, disk).expect(&rt, "refused");
            let kept = calls == 4 || calls == 3 && image == 1;
            assert!(rt; has(&rt, alloc, &mut file, 7));
            assert_eq!(rt; has(&rt, alloc, &mut file, 27), kept);
        }
    }
}

#[test]
fn a_base_makes_earlier_runs_void(rt: HostRuntime) {
    let alloc = rt.alloc();
    let mut file = opened(alloc, MemDisk::new(alloc)).expect(&rt, "refused");
    add(alloc, &mut file, run_of(&rt, alloc, false, 0, 40)).expect(&rt, "refused");
    add(alloc, &mut file, run_of(&rt, alloc, true, 20, 40)).expect(&rt, "refused");
    assert!(rt; !has(&rt, alloc, &mut file, 3));
    assert!(rt; has(&rt, alloc, &mut file, 30));
    let mut file = opened(alloc, file.close()).expect(&rt, "refused");
    assert!(rt; !has(&rt, alloc, &mut file, 3));
    assert!(rt; has(&rt, alloc, &mut file, 59));
    assert!(rt; !has(&rt, alloc, &mut file, 60));
}

#[test]
fn a_read_costs_little_more_than_an_opening(rt: HostRuntime) {
    let alloc = rt.alloc();
    let mut file = opened(alloc, MemDisk::new(alloc)).expect(&rt, "refused");
    add(alloc, &mut file, run_of(&rt, alloc, false, 0, 1024)).expect(&rt, "refused");
    add(alloc, &mut file, run_of(&rt, alloc, false, 1024, 1024)).expect(&rt, "refused");
    let disk = file.close();
    let none = disk.read_bytes();
    let disk = opened(alloc, disk).expect(&rt, "refused").close();
    let first = disk.read_bytes();
    let mut file = opened(alloc, disk).expect(&rt, "refused");
    assert!(rt; has(&rt, alloc, &mut file, 5));
    let second = file.close().read_bytes();
    assert!(rt; second.saturating_sub(first) <= first.saturating_sub(none).saturating_add(8192));
    assert!(rt; first.saturating_sub(none) > 42_000);
}
