//! Devices, in memory and of a file, and the stores in memory.
ghost use Rattle.std.specs.Prelude.{◌≡◌, ◌≤◌, ◌+◌, true, length};

use mega_base::{Bytes, Items, Position, Row};
use mega_disk::{
    Disk, DiskError, FileDisk, MemDisk, MemRecords, MemVersions, RecordError, Records, Versions,
};
use std::alloc::Global;
use std::fs;
use std::process::Abort;

/// All bytes of a device.
fn content<D: Disk>(rt: &impl Abort, alloc: Global, disk: &mut D) -> Vec<u8> {
    let Ok(size) = disk.len() else {
        panic!(rt; "no length");
    };
    let Ok(mut bytes) = vec![in alloc; 0u8; size as usize] else {
        panic!(rt; "no memory");
    };
    disk.read(0, bytes.as_mut_slice()).expect(rt, "refused");
    bytes
}

/// Writes within the length or at its end.
fn put<D: Disk>(disk: &mut D, at: u64, bytes: &[u8]) -> Result<(), DiskError> {
    if at > disk.len()? {
        return Err(DiskError::Failed);
    }
    disk.write(at, bytes)
}

fn cut<D: Disk>(disk: &mut D, size: u64) -> Result<(), DiskError> {
    if size > disk.len()? {
        return Err(DiskError::Failed);
    }
    disk.cut(size)
}

#[test]
fn a_burnt_fuse_leaves_what_its_image_says(rt: HostRuntime) {
    let alloc = rt.alloc();
    let kept: [&[u8]; 3] = [b"abcdef", b"aXYz", b"a\xa5\xa5\xa5"];
    for (image, want) in kept.iter().enumerate() {
        let mut disk = MemDisk::new(alloc);
        put(&mut disk, 0, b"abcdef").expect(&rt, "refused");
        disk.sync().expect(&rt, "refused");
        put(&mut disk, 1, b"XY").expect(&rt, "refused");
        cut(&mut disk, 3).expect(&rt, "refused");
        put(&mut disk, 3, b"z").expect(&rt, "refused");
        disk.fuse(0, image as u8);
        assert!(rt; matches!(disk.sync(), Err(DiskError::Failed)));
        let left = content(&rt, alloc, &mut disk);
        assert_eq!(rt; left.as_slice(), *want, "image {image}");
    }
}

#[test]
fn a_device_fails_where_it_was_told_to(rt: HostRuntime) {
    let alloc = rt.alloc();
    let mut disk = MemDisk::new(alloc);
    disk.fuse(2, 1);
    assert!(rt; disk.sync().is_ok());
    assert!(rt; disk.sync().is_ok());
    assert!(rt; matches!(disk.sync(), Err(DiskError::Failed)));
    assert!(rt; disk.sync().is_ok());
    disk.fail_at(6);
    assert!(rt; disk.sync().is_ok());
    let lent = &mut disk;
    assert!(rt; matches!(put(lent, 0, b"a"), Err(DiskError::Failed)));
    put(&mut disk, 0, b"ab").expect(&rt, "refused");
    content(&rt, alloc, &mut disk);
    content(&rt, alloc, &mut disk);
    assert_eq!(rt; disk.read_bytes(), 4);
}

#[test]
fn a_file_is_a_device(rt: HostRuntime) {
    let alloc = rt.alloc();
    let name = "mega_disk_file_test";
    let _ = fs::remove_file(&rt, name);
    let mut disk = FileDisk::new(
        rt.clone().expect(&rt, "refused"),
        String::from_str(alloc, name).expect(&rt, "refused"),
    );
    assert_eq!(rt; disk.len().expect(&rt, "refused"), 0);
    put(&mut disk, 0, b"abcdef").expect(&rt, "refused");
    put(&mut disk, 2, b"XYZ").expect(&rt, "refused");
    disk.sync().expect(&rt, "refused");
    cut(&mut disk, 5).expect(&rt, "refused");
    disk.fuse(0, 0);
    let held = content(&rt, alloc, &mut disk);
    assert_eq!(rt; held.as_slice(), b"abXYZ".as_slice());
    fs::remove_file(&rt, name).expect(&rt, "refused");
    let mut none = FileDisk::new(
        rt.clone().expect(&rt, "refused"),
        String::from_str(alloc, "no_such_folder/file").expect(&rt, "refused"),
    );
    assert!(rt; matches!(none.len(), Err(DiskError::Failed)));
}

#[test]
fn records_in_memory(rt: HostRuntime) {
    let alloc = rt.alloc();
    let mut records = MemRecords::new(alloc);
    for _ in 0..4096u64 {
        assert!(rt; !records.due());
        records.append(alloc, b"one").expect(&rt, "refused");
    }
    assert!(rt; records.due());
    if records.due() {
        records.replace(alloc, b"all").expect(&rt, "refused");
    }
    assert!(rt; !records.due());
    records.append(alloc, b"next").expect(&rt, "refused");
    assert_eq!(rt; records.count(), 2);
    assert!(rt; records.take_opened().is_empty());
    records.reopen().expect(&rt, "refused");
    let opened = records.take_opened();
    assert_eq!(rt; opened.len(), 2);
    assert_eq!(rt; opened[0].as_slice(), b"all".as_slice());
    assert_eq!(rt; opened[1].as_slice(), b"next".as_slice());
    assert!(rt; !matches!(records.append(alloc, b""), Err(RecordError::Spent)));
}

#[test]
fn versions_in_memory(rt: HostRuntime) {
    let alloc = rt.alloc();
    let mut versions = MemVersions::new(alloc);
    let keys = [b"b".as_slice(), b"a".as_slice(), b"c".as_slice()];
    for (place, key) in keys.iter().enumerate() {
        let key = Bytes::from_slice(alloc, key).expect(&rt, "refused");
        let row = Row::new(alloc, Items::new(alloc)).expect(&rt, "refused");
        versions
            .put(alloc, &key, Position(place as u64), Some(row))
            .expect(&rt, "refused");
    }
    let (a, c) = (
        Bytes::from_slice(alloc, b"a").expect(&rt, "refused"),
        Bytes::from_slice(alloc, b"c").expect(&rt, "refused"),
    );
    assert!(rt;
        versions
            .get(alloc, &a, Position(0))
            .expect(&rt, "refused")
            .is_none()
    );
    assert!(rt;
        versions
            .get(alloc, &a, Position(9))
            .expect(&rt, "refused")
            .is_some()
    );
    let rows = versions
        .scan(alloc, &a, &c, Position(1))
        .expect(&rt, "refused");
    assert_eq!(rt; rows.len(), 2);
    assert_eq!(rt; rows[0].0.as_slice(), b"a".as_slice());
    versions
        .put(alloc, &a, Position(3), None)
        .expect(&rt, "refused");
    assert!(rt; versions.latest(alloc, &a).expect(&rt, "refused").is_none());
    versions
        .clean(alloc, &a, &c, Position(2))
        .expect(&rt, "refused");
    versions.spill(alloc, &[]).expect(&rt, "refused");
    assert!(rt;
        versions
            .get(alloc, &a, Position(2))
            .expect(&rt, "refused")
            .is_some()
    );
    assert!(rt; !versions.full());
}
