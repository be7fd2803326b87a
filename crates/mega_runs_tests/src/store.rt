//! A store of runs, closed and opened again: what reads see and cost, and what a stop in a base leaves.
use crate::asserted::same;
use crate::device::{group, key, row_of};
use mega_base::{Position, Row, Value};
use mega_disk::{Disk, MemDisk, Versions};
use mega_runs::Runs;
use std::alloc::Global;
use std::process::Abort;

/// The store on a device.
fn opened(rt: &impl Abort, alloc: Global, disk: MemDisk) -> Runs<MemDisk> {
    match Runs::open(alloc, disk) {
        Ok(store) => store,
        Err((error, _)) => panic!(rt; "refused: {error:?}"),
    }
}

/// The number of a row, 0 for none.
fn number_of(row: Option<Row>) -> i32 {
    let Some(row) = row else {
        return 0;
    };
    match row.cells.as_slice() {
        [cell] => match cell.values.as_slice() {
            [Value::Int32(number)] => *number,
            _ => -1,
        },
        _ => -1,
    }
}

/// Puts the row of a number.
fn put(
    rt: &impl Abort,
    alloc: Global,
    store: &mut Runs<MemDisk>,
    number: u64,
    at: u64,
    value: i32,
) {
    let row = row_of(rt, alloc, value);
    let key = key(rt, alloc, number);
    store
        .put(alloc, &key, Position(at), row)
        .expect(rt, "refused");
}

/// The number of the row that a read sees.
fn read(rt: &impl Abort, alloc: Global, store: &mut Runs<MemDisk>, number: u64, at: u64) -> i32 {
    let key = key(rt, alloc, number);
    let row = store.get(alloc, &key, Position(at)).expect(rt, "refused");
    number_of(row)
}

/// Spills with this mark of a group; whether it was done.
fn spill(rt: &impl Abort, alloc: Global, store: &mut Runs<MemDisk>, mark: u64) -> bool {
    let marks = [(group(rt, alloc), Position(mark))];
    store.spill(alloc, &marks).is_ok()
}

/// The group's mark.
fn mark_of(rt: &impl Abort, alloc: Global, store: &Runs<MemDisk>) -> u64 {
    store.mark(&group(rt, alloc)).0
}

#[test]
fn versions_are_read_after_a_restart(rt: HostRuntime) {
    let alloc = rt.alloc();
    let mut store = opened(&rt, alloc, MemDisk::new(alloc));
    for (number, at, value) in [(5, 1, 10), (5, 3, 0), (6, 3, 20)] {
        put(&rt, alloc, &mut store, number, at, value);
    }
    same(&rt, spill(&rt, alloc, &mut store, 3), true);
    for (number, at, value) in [(5, 4, 30), (6, 3, 21)] {
        put(&rt, alloc, &mut store, number, at, value);
    }
    same(&rt, spill(&rt, alloc, &mut store, 4), true);
    put(&rt, alloc, &mut store, 7, 5, 40);
    same(&rt, read(&rt, alloc, &mut store, 7, 5), 40);
    let mut store = opened(&rt, alloc, store.close());
    same(&rt, mark_of(&rt, alloc, &store), 4);
    for (number, at, wanted) in [
        (5, 0, 0),
        (5, 1, 10),
        (5, 2, 10),
        (5, 3, 0),
        (5, 4, 30),
        (5, 9, 30),
        (6, 2, 0),
        (6, 3, 21),
        (7, 9, 0),
    ] {
        same(&rt, read(&rt, alloc, &mut store, number, at), wanted);
    }
}

/// Puts 1,024 deletions of keys from a number on, and spills them when the store is full.
fn fill(rt: &impl Abort, alloc: Global, store: &mut Runs<MemDisk>, from: u64) {
    for number in 0..1024 {
        same(rt, store.full(), false);
        put(rt, alloc, store, from.wrapping_add(number), 1, 0);
    }
    same(rt, store.full(), true);
    same(rt, spill(rt, alloc, store, 1), true);
    same(rt, store.full(), false);
}

#[test]
fn a_read_costs_little_more_than_an_opening(rt: HostRuntime) {
    let alloc = rt.alloc();
    let mut store = opened(&rt, alloc, MemDisk::new(alloc));
    fill(&rt, alloc, &mut store, 0);
    fill(&rt, alloc, &mut store, 1024);
    let disk = store.close();
    let before = disk.read_bytes();
    let disk = opened(&rt, alloc, disk).close();
    let once = disk.read_bytes();
    let mut store = opened(&rt, alloc, disk);
    same(&rt, read(&rt, alloc, &mut store, 5, 1), 0);
    let twice = store.close().read_bytes();
    let opening = once.saturating_sub(before);
    assert!(rt; opening > 42_000);
    assert!(rt; twice.saturating_sub(once) <= opening.saturating_add(8192));
}

/// A store with eight runs, each with a row of the key 1 and of one of the keys from 101 on, and a ninth row of the key 1. The reads
/// of the keys below 50 may differ below the position 5.
fn with_eight_runs(rt: &impl Abort, alloc: Global) -> Runs<MemDisk> {
    let mut store = opened(rt, alloc, MemDisk::new(alloc));
    for run in 1..9u8 {
        let at = u64::from(run);
        put(rt, alloc, &mut store, 1, at, i32::from(run));
        put(rt, alloc, &mut store, at.wrapping_add(100), at, 7);
        same(rt, spill(rt, alloc, &mut store, at), true);
    }
    let from = key(rt, alloc, 0);
    let to = key(rt, alloc, 50);
    store
        .clean(alloc, &from, &to, Position(5))
        .expect(rt, "refused");
    put(rt, alloc, &mut store, 1, 9, 9);
    store
}

/// Asserts that a store holds the eight runs, or the base with the ninth row, and tells whether it is the base.
fn check_eight_or_base(rt: &impl Abort, alloc: Global, store: &mut Runs<MemDisk>) -> bool {
    let is_base = mark_of(rt, alloc, store) == 9;
    same(rt, mark_of(rt, alloc, store), if is_base { 9 } else { 8 });
    same(
        rt,
        read(rt, alloc, store, 1, 9),
        if is_base { 9 } else { 8 },
    );
    same(
        rt,
        read(rt, alloc, store, 1, 4),
        if is_base { 0 } else { 4 },
    );
    for run in 5..9u8 {
        same(
            rt,
            read(rt, alloc, store, 1, u64::from(run)),
            i32::from(run),
        );
    }
    for number in 101..109 {
        same(rt, read(rt, alloc, store, number, 9), 7);
    }
    is_base
}

#[test]
fn a_stop_in_a_base_leaves_the_old_runs_or_the_base(rt: HostRuntime) {
    let alloc = rt.alloc();
    for image in 0..3u8 {
        let mut is_whole = false;
        for calls in 0..40u64 {
            let mut store = with_eight_runs(&rt, alloc);
            store.fuse(calls, image);
            is_whole = spill(&rt, alloc, &mut store, 9);
            let mut disk = store.close();
            disk.fuse(1000, 0);
            let mut store = opened(&rt, alloc, disk);
            let is_base = check_eight_or_base(&rt, alloc, &mut store);
            assert!(rt; is_base || !is_whole);
            if is_whole {
                break;
            }
        }
        same(&rt, is_whole, true);
    }
}
