//! Files that were changed at random: an opening finds what a plain reading of their bytes does, and nothing else.
use crate::asserted::same;
use crate::device::{append_many, bytes_on, chain_on, device, opened, records_on};
use crate::plain::records_in;
use mega_base::Bytes;
use mega_disk::{MemDisk, Records};
use mega_gen::DrawnNumbers;
use std::alloc::Global;
use std::process::Abort;

/// Changes a byte anywhere, a byte at the front of a page, or cuts the file.
fn change(draws: &mut DrawnNumbers, bytes: &mut Vec<u8>) {
    let size = bytes.len() as u64;
    let kind = draws.draw(8);
    if kind == 0 {
        let size = draws.draw(size) as usize;
        bytes.truncate(size);
        return;
    }
    let place = if kind < 4 {
        draws.draw(size)
    } else {
        draws.draw(3) * 4096 + draws.draw(16)
    };
    let value = if kind < 6 {
        draws.draw(256)
    } else {
        draws.draw(3)
    };
    if let Some(byte) = bytes.as_mut_slice().get_mut(place as usize) {
        *byte = value as u8;
    }
}

/// The file with one to three changes.
fn changed(rt: &impl Abort, alloc: Global, draws: &mut DrawnNumbers, file: &[u8]) -> Vec<u8> {
    let mut bytes = Vec::from_slice(alloc, file).expect(rt, "refused");
    for _ in 0..draws.draw(3) + 1 {
        change(draws, &mut bytes);
    }
    bytes
}

/// Whether two lists have the same texts.
fn are_same(found: &[Bytes], wanted: &[Bytes]) -> bool {
    if found.len() != wanted.len() {
        return false;
    }
    for (one, other) in found.iter().zip(wanted) {
        if one.as_slice() != other.as_slice() {
            return false;
        }
    }
    true
}

/// Asserts which records an opening finds.
fn check_records(
    rt: &impl Abort,
    alloc: Global,
    disk: &mut MemDisk,
    wanted: &[Bytes],
    number: u64,
) {
    let found = records_on(rt, alloc, disk);
    let is_wanted = are_same(found.as_slice(), wanted);
    assert!(rt; is_wanted, "file {number}");
}

/// Opens a file twice, appends to it, and opens it again.
fn assert_opens(rt: &impl Abort, alloc: Global, bytes: &[u8], number: u64) {
    let mut wanted = records_in(alloc, bytes).expect(rt, "refused");
    let mut disk = device(rt, alloc, bytes);
    check_records(rt, alloc, &mut disk, wanted.as_slice(), number);
    check_records(rt, alloc, &mut disk, wanted.as_slice(), number);
    append_many(rt, alloc, &mut disk, 1);
    let last = Bytes::from_slice(alloc, b"x").expect(rt, "refused");
    wanted.push(last).expect(rt, "refused");
    check_records(rt, alloc, &mut disk, wanted.as_slice(), number);
}

/// Changes a file so often, each time anew.
fn assert_all_open(rt: &impl Abort, alloc: Global, file: &[u8], count: u64) {
    let mut draws = DrawnNumbers::new(count);
    for number in 0..count {
        let bytes = changed(rt, alloc, &mut draws, file);
        assert_opens(rt, alloc, bytes.as_slice(), number);
    }
}

/// Appends records of many lengths.
fn append_drawn<R: Records>(rt: &impl Abort, alloc: Global, store: &mut R) {
    let body = [7u8; 400];
    let mut draws = DrawnNumbers::new(1);
    for _ in 0..40 {
        let size = draws.draw(400) as usize;
        if let Some(front) = body.get(..size) {
            store.append(alloc, front).expect(rt, "refused");
        }
    }
}

#[test]
fn changed_files_of_areas_open_as_their_bytes_say(rt: HostRuntime) {
    let alloc = rt.alloc();
    let mut store = opened(&rt, alloc, MemDisk::new(alloc));
    append_drawn(&rt, alloc, &mut store);
    let file = bytes_on(&rt, alloc, &mut store.close());
    same(&rt, file.len(), 20480);
    assert_all_open(&rt, alloc, file.as_slice(), 4000);
}

#[test]
fn changed_chains_open_as_their_bytes_say(rt: HostRuntime) {
    let alloc = rt.alloc();
    let mut journal = chain_on(&rt, alloc, MemDisk::new(alloc));
    append_drawn(&rt, alloc, &mut journal);
    let file = bytes_on(&rt, alloc, &mut journal.close());
    assert_all_open(&rt, alloc, file.as_slice(), 3000);
}

/// Replaces the records of a store by one, and appends others.
fn replace_and_append<R: Records>(rt: &impl Abort, alloc: Global, store: &mut R) {
    store.replace(alloc, b"all").expect(rt, "refused");
    append_drawn(rt, alloc, store);
}

#[test]
fn changed_files_with_a_replacement_open_as_their_bytes_say(rt: HostRuntime) {
    let alloc = rt.alloc();
    let mut disk = MemDisk::new(alloc);
    append_many(&rt, alloc, &mut disk, 4096);
    let mut store = opened(&rt, alloc, disk);
    replace_and_append(&rt, alloc, &mut store);
    let file = bytes_on(&rt, alloc, &mut store.close());
    assert_all_open(&rt, alloc, file.as_slice(), 3000);
}
