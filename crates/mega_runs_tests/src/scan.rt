//! What a scan of a few keys reads of many runs.
use crate::asserted::same;
use crate::device::{key, row_of};
use mega_base::{Items, Position};
use mega_disk::MemDisk;
use mega_runs::{Run, RunFile, Version, can_write};
use std::alloc::Global;
use std::process::Abort;

/// The file on a device.
fn opened(rt: &impl Abort, alloc: Global, disk: MemDisk) -> RunFile<MemDisk> {
    match RunFile::open(alloc, disk) {
        Ok(file) => file,
        Err((error, _)) => panic!(rt; "refused: {error:?}"),
    }
}

/// A run of 1,024 keys, each tenth from a number on, with rows of 11 bytes.
fn tenths(rt: &impl Abort, alloc: Global, first: u64) -> Run {
    let mut versions = Items::new(alloc);
    for step in 0..1024u64 {
        let number = step.wrapping_mul(10).wrapping_add(first);
        let is_wanted = number >= 5003 && number < 5013;
        let version = Version {
            key: key(rt, alloc, number),
            at: Position(1),
            row: row_of(rt, alloc, if is_wanted { 7 } else { 0 }),
        };
        versions.push(version).expect(rt, "refused");
    }
    Run {
        is_base: false,
        marks: Items::new(alloc),
        versions,
    }
}

/// Ten runs, the tenths of the keys below 10,240.
fn ten_runs(rt: &impl Abort, alloc: Global) -> MemDisk {
    let mut file = opened(rt, alloc, MemDisk::new(alloc));
    for first in 0..10 {
        let run = tenths(rt, alloc, first);
        if !can_write(&run) {
            panic!(rt; "not a run");
        }
        file.add(alloc, run).expect(rt, "refused");
    }
    file.close()
}

/// Scans the keys from 5,003 on and before 5,013, one of each run.
fn scan(rt: &impl Abort, alloc: Global, file: &mut RunFile<MemDisk>) {
    let from = key(rt, alloc, 5003);
    let to = key(rt, alloc, 5013);
    let rows = file
        .scan(alloc, &from, &to, Position(1))
        .expect(rt, "refused");
    same(rt, rows.len(), 10);
    let mut number = 5003;
    for (found, _) in &rows {
        let is_next = *found == key(rt, alloc, number);
        same(rt, is_next, true);
        number = number.wrapping_add(1);
    }
}

#[test]
fn a_scan_of_ten_rows_reads_two_blocks_of_a_run_at_most(rt: HostRuntime) {
    let alloc = rt.alloc();
    let disk = ten_runs(&rt, alloc);
    let before = disk.read_bytes();
    let disk = opened(&rt, alloc, disk).close();
    let once = disk.read_bytes();
    let mut file = opened(&rt, alloc, disk);
    scan(&rt, alloc, &mut file);
    let twice = file.close().read_bytes();
    let opening = once.saturating_sub(before);
    let scanning = twice.saturating_sub(once).saturating_sub(opening);
    assert!(rt; opening > 215_000);
    assert!(rt; scanning >= 3_470, "{scanning}");
    assert!(rt; scanning <= 6_830, "{scanning}");
}
