//! A store over a device that stops at any call.
use crate::asserted::same;
use crate::device::{append_many, bytes_on, count_on, device, opened, records_on};
use mega_checkpoint::Checkpoint;
use mega_disk::{Disk, MemDisk, RecordError, Records};
use std::alloc::Global;
use std::process::Abort;

/// Whether bytes have this front from a place on.
fn stands_at(bytes: &[u8], place: usize, front: &[u8]) -> bool {
    match bytes.get(place..) {
        Some(rest) => rest.starts_with(front),
        None => false,
    }
}

#[test]
fn a_new_file_has_three_pages(rt: HostRuntime) {
    let alloc = rt.alloc();
    let mut disk = device(&rt, alloc, b"\0");
    same(&rt, count_on(&rt, alloc, &mut disk), 0);
    let bytes = bytes_on(&rt, alloc, &mut disk);
    same(&rt, bytes.len(), 12288);
    let mark = stands_at(bytes.as_slice(), 0, b"\x01\x47\x41\x32\0");
    same(&rt, mark, true);
    let odd = stands_at(bytes.as_slice(), 4096, b"\x01\0\0\0\0\0\0\0\x01\0");
    same(&rt, odd, true);
}

/// Asserts how many records are found on a device that stopped before its call `calls + 1`.
fn check_count(rt: &impl Abort, calls: u64, image: u8, found: usize, wanted: usize) {
    assert_eq!(rt; found, wanted, "{calls} {image}");
}

/// Whether what stopped there was the last call, or reached the device before it stopped.
fn is_kept(calls: u64, image: u8) -> bool {
    calls == 4 || calls == 3 && image == 1
}

/// Whether an append of `second` behind `first` was acknowledged, on a device that stops before its call `calls + 1`.
fn append_second(
    rt: &impl Abort,
    alloc: Global,
    disk: &mut MemDisk,
    calls: u64,
    image: u8,
) -> bool {
    let mut store = opened(rt, alloc, disk);
    store.append(alloc, b"first").expect(rt, "refused");
    store.fuse(calls, image);
    let answer = store.append(alloc, b"second");
    answer.is_ok()
}

/// Asserts what is found behind an append that stopped.
fn check_append(rt: &impl Abort, alloc: Global, calls: u64, image: u8) {
    let mut disk = MemDisk::new(alloc);
    let acknowledged = append_second(rt, alloc, &mut disk, calls, image);
    same(rt, acknowledged, calls == 4);
    disk.fuse(1000, 0);
    let found = count_on(rt, alloc, &mut disk);
    let wanted = if is_kept(calls, image) { 2 } else { 1 };
    check_count(rt, calls, image, found, wanted);
}

#[test]
fn an_append_is_kept_where_its_gate_was_written(rt: HostRuntime) {
    for calls in 0..5u64 {
        for image in 0..3u8 {
            check_append(&rt, rt.alloc(), calls, image);
        }
    }
}

/// Opens a device that may stop.
fn try_opening(alloc: Global, disk: &mut MemDisk) {
    let _ = Checkpoint::open(alloc, disk).is_ok();
}

/// Asserts that no record is found behind an opening that stopped.
fn check_start(rt: &impl Abort, alloc: Global, mut disk: MemDisk, calls: u64, image: u8) {
    disk.fuse(calls, image);
    try_opening(alloc, &mut disk);
    disk.fuse(1000, 0);
    let found = count_on(rt, alloc, &mut disk);
    check_count(rt, calls, image, found, 0);
}

/// Stops the opening of a file at each of its calls.
fn check_starts(rt: &impl Abort, alloc: Global, bytes: &[u8]) {
    for calls in 0..16u64 {
        for image in 0..3u8 {
            let disk = device(rt, alloc, bytes);
            check_start(rt, alloc, disk, calls, image);
        }
    }
}

#[test]
fn a_start_that_stops_keeps_the_list(rt: HostRuntime) {
    check_starts(&rt, rt.alloc(), b"");
    check_starts(&rt, rt.alloc(), b"\x01");
}

/// Replaces the list of a device by `all`, which stops before its call `calls + 1`: whether it was acknowledged.
fn replace_list(rt: &impl Abort, alloc: Global, disk: &mut MemDisk, calls: u64, image: u8) -> bool {
    let mut store = opened(rt, alloc, disk);
    store.fuse(calls, image);
    let answer = store.replace(alloc, b"all");
    answer.is_ok()
}

/// Asserts what is found behind a replacement that stopped.
fn check_replacement(rt: &impl Abort, alloc: Global, mut disk: MemDisk, calls: u64, image: u8) {
    let acknowledged = replace_list(rt, alloc, &mut disk, calls, image);
    same(rt, acknowledged, calls == 4);
    disk.fuse(1000, 0);
    let found = count_on(rt, alloc, &mut disk);
    let wanted = if is_kept(calls, image) { 1 } else { 4096 };
    check_count(rt, calls, image, found, wanted);
}

#[test]
fn a_replacement_that_stops_leaves_the_old_list_or_the_new_one(rt: HostRuntime) {
    let alloc = rt.alloc();
    let mut full = MemDisk::new(alloc);
    same(&rt, append_many(&rt, alloc, &mut full, 4096), 4096);
    let bytes = bytes_on(&rt, alloc, &mut full);
    for calls in 0..5u64 {
        for image in 0..3u8 {
            let disk = device(&rt, alloc, bytes.as_slice());
            check_replacement(&rt, alloc, disk, calls, image);
        }
    }
}

/// Asserts that one more record makes a list due, which is then replaced.
fn check_due<R: Records>(rt: &impl Abort, alloc: Global, store: &mut R) {
    same(rt, store.due(), false);
    let early = store.replace(alloc, b"all");
    same(rt, early, Err(RecordError::Spent));
    store.append(alloc, b"x").expect(rt, "refused");
    same(rt, store.due(), true);
    store.replace(alloc, b"all").expect(rt, "refused");
    same(rt, store.due(), false);
    same(rt, store.count(), 1);
}

#[test]
fn a_list_is_due_where_many_records_follow(rt: HostRuntime) {
    let alloc = rt.alloc();
    let mut disk = MemDisk::new(alloc);
    same(&rt, append_many(&rt, alloc, &mut disk, 4095), 4095);
    let mut store = opened(&rt, alloc, disk);
    check_due(&rt, alloc, &mut store);
    let found = records_on(&rt, alloc, &mut store.close());
    let [record] = found.as_slice() else {
        panic!(rt; "not one record");
    };
    same(&rt, record.as_slice(), b"all".as_slice());
}
