//! A store over files whose growth was cut, or that are chains.
use crate::asserted::same;
use crate::device::{append_many, bytes_on, chain_on, count_on, device, opened};
use mega_disk::{Disk, MemDisk, Records};
use std::alloc::Global;
use std::process::Abort;

/// Writes bytes behind the end of a device, and gives its length before.
fn write_behind<D: Disk>(rt: &impl Abort, disk: &mut D, bytes: &[u8]) -> u64 {
    let Ok(size) = disk.len() else {
        panic!(rt; "no length");
    };
    disk.write(size, bytes).expect(rt, "refused");
    size
}

#[test]
fn a_growth_that_was_cut_is_made_whole(rt: HostRuntime) {
    let alloc = rt.alloc();
    let mut disk = MemDisk::new(alloc);
    same(&rt, append_many(&rt, alloc, &mut disk, 20), 20);
    let size = write_behind(&rt, &mut disk, &[0xa5; 100]);
    same(&rt, count_on(&rt, alloc, &mut disk), 20);
    same(&rt, disk.len(), Ok(size.saturating_add(8192)));
    same(&rt, append_many(&rt, alloc, &mut disk, 1), 21);
}

/// Appends the first record to a chain.
fn begin_chain<D: Disk + Drop>(rt: &impl Abort, alloc: Global, disk: &mut D) {
    let mut journal = chain_on(rt, alloc, disk);
    journal.append(alloc, b"first").expect(rt, "refused");
}

#[test]
fn a_chain_goes_on_as_a_chain(rt: HostRuntime) {
    let alloc = rt.alloc();
    let mut disk = MemDisk::new(alloc);
    begin_chain(&rt, alloc, &mut disk);
    same(&rt, append_many(&rt, alloc, &mut disk, 3), 4);
    let bytes = bytes_on(&rt, alloc, &mut disk);
    same(&rt, bytes.len(), 29);
    let mut store = opened(&rt, alloc, disk);
    same(&rt, store.due(), false);
    same(&rt, store.take_opened().len(), 4);
}

#[test]
fn a_torn_first_gate_is_closed(rt: HostRuntime) {
    let alloc = rt.alloc();
    let mut disk = device(&rt, alloc, b"\xa5\0\0\0\x03abc\0");
    same(&rt, count_on(&rt, alloc, &mut disk), 0);
    same(&rt, disk.len(), Ok(2));
    same(&rt, append_many(&rt, alloc, &mut disk, 2), 2);
    same(&rt, count_on(&rt, alloc, &mut disk), 2);
}
