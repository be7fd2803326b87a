//! A journal over devices that stop at any call, and over any bytes.
use mega_base::Bytes;
use mega_disk::{Disk, FileDisk, MemDisk, MemRecords, RecordError, Records};
use mega_journal::Journal;
use std::alloc::Global;
use std::fs;
use std::process::Abort;

/// A device that holds these bytes.
fn device(rt: &impl Abort, alloc: Global, bytes: &[u8]) -> MemDisk {
    let mut disk = MemDisk::new(alloc);
    disk.write(0, bytes).expect(rt, "refused");
    disk.sync().expect(rt, "refused");
    disk
}

/// The records that an opening finds.
fn records_on<D: Disk + Drop>(alloc: Global, disk: &mut D) -> Result<Vec<Bytes>, RecordError> {
    match Journal::open(alloc, disk) {
        Ok(mut journal) => Ok(journal.take_opened()),
        Err((error, _)) => Err(error),
    }
}

/// A device with one record, `first`, on which an append of `second` was cut before its call `calls + 1`.
fn cut_append(rt: &impl Abort, alloc: Global, calls: u64, image: u8) -> (bool, MemDisk) {
    let mut disk = MemDisk::new(alloc);
    let kept = append_both(rt, alloc, &mut disk, calls, image);
    (kept, disk)
}

fn append_both(rt: &impl Abort, alloc: Global, disk: &mut MemDisk, calls: u64, image: u8) -> bool {
    let mut journal = match Journal::open(alloc, disk) {
        Ok(journal) => journal,
        Err((error, _)) => panic!(rt; "refused: {error:?}"),
    };
    journal.append(alloc, b"first").expect(rt, "refused");
    journal.fuse(calls, image);
    let answer = journal.append(alloc, b"second");
    answer.is_ok()
}

#[test]
fn an_append_is_kept_where_its_gate_was_written(rt: HostRuntime) {
    let alloc = rt.alloc();
    for calls in 0..5u64 {
        for image in 0..3u8 {
            let (acknowledged, mut disk) = cut_append(&rt, alloc, calls, image);
            let kept = calls == 4 || calls == 3 && image == 1;
            assert_eq!(rt; acknowledged, calls == 4);
            disk.fuse(1000, 0);
            let found = records_on(alloc, &mut disk).expect(&rt, "refused");
            assert_eq!(rt; found.len(), if kept { 2 } else { 1 }, "{calls} {image}");
            let again = records_on(alloc, &mut disk).expect(&rt, "refused");
            assert_eq!(rt; again.len(), found.len());
        }
    }
}

#[test]
fn a_refused_append_leaves_the_journal_spent(rt: HostRuntime) {
    let alloc = rt.alloc();
    for failing in 1..5u64 {
        let mut disk = MemDisk::new(alloc);
        disk.fail_at(4 + failing);
        let Ok(mut journal) = Journal::open(alloc, disk) else {
            return;
        };
        assert!(rt; matches!(journal.append(alloc, b"body"), Err(RecordError::DiskFault)));
        assert!(rt; matches!(journal.append(alloc, b"body"), Err(RecordError::Spent)));
        assert_eq!(rt; journal.count(), 0);
        let mut disk = journal.close();
        let found = records_on(alloc, &mut disk).expect(&rt, "refused");
        assert_eq!(rt; found.len(), if failing == 4 { 1 } else { 0 });
    }
}

#[test]
fn an_opening_that_is_cut_keeps_the_records(rt: HostRuntime) {
    let alloc = rt.alloc();
    let torn: [&[u8]; 3] = [b"\x01\0\0\0\x02ab\x01\0\0\0\x09x", b"\x01", b""];
    for (bytes, (records, needed)) in torn.iter().zip([(1, 5), (0, 5), (0, 4)]) {
        for calls in 0..6u64 {
            for image in 0..3u8 {
                let mut disk = device(&rt, alloc, bytes);
                disk.fuse(calls, image);
                let first = records_on(alloc, &mut disk);
                assert_eq!(rt; first.is_ok(), calls >= needed);
                disk.fuse(1000, 0);
                let found = records_on(alloc, &mut disk).expect(&rt, "refused");
                assert_eq!(rt; found.len(), records, "{calls} {image}");
            }
        }
    }
}

#[test]
fn a_file_is_read_up_to_its_first_closed_gate(rt: HostRuntime) {
    let alloc = rt.alloc();
    let name = "mega_journal_file_test";
    for length in 0..19u64 {
        let _ = fs::remove_file(&rt, name);
        let disk = FileDisk::new(
            rt.clone().expect(&rt, "refused"),
            String::from_str(alloc, name).expect(&rt, "refused"),
        );
        let Ok(mut journal) = Journal::open(alloc, disk) else {
            return;
        };
        journal.append(alloc, b"abc").expect(&rt, "refused");
        journal.append(alloc, b"defgh").expect(&rt, "refused");
        let mut disk = journal.close();
        let Ok(size) = disk.len() else {
            panic!(rt; "no length");
        };
        assert_eq!(rt; size, 19);
        if length <= size {
            disk.cut(length).expect(&rt, "refused");
        }
        let found = records_on(alloc, &mut disk).expect(&rt, "refused");
        let whole = if length < 9 { 0 } else { 1 };
        assert_eq!(rt; found.len(), whole, "{length}");
    }
    fs::remove_file(&rt, name).expect(&rt, "refused");
}

/// The number of records before the first gate that is closed or has no whole record behind it.
fn count_by_the_format(bytes: &[u8]) -> usize {
    let mut count = 0usize;
    let mut rest = bytes;
    for _ in 0..bytes.len() {
        let [1, a, b, c, d, more @ ..] = rest else {
            return count;
        };
        let size = u32::from_be_bytes([*a, *b, *c, *d]) as usize;
        if more.len() <= size {
            return count;
        }
        count = count.saturating_add(1);
        rest = &more[size..];
    }
    count
}

#[test]
fn any_bytes_open_to_what_the_format_says(rt: HostRuntime) {
    let alloc = rt.alloc();
    let mut state = 7u64;
    for _ in 0..300u32 {
        let mut bytes = Vec::new(alloc);
        for place in 0..40u64 {
            state = state
                .wrapping_mul(6364136223846793005)
                .wrapping_add(1442695040888963407);
            let drawn = (state >> 33) % 4;
            let high = place % 5 == 1 || place % 5 == 2 || place % 5 == 3;
            bytes
                .push(if high || drawn == 3 { 0 } else { 1 })
                .expect(&rt, "refused");
        }
        let mut disk = device(&rt, alloc, bytes.as_slice());
        let found = records_on(alloc, &mut disk).expect(&rt, "refused");
        assert_eq!(rt; found.len(), count_by_the_format(bytes.as_slice()));
    }
}

/// How many of three appends are acknowledged before the fuse burns.
fn appended<R: Records>(alloc: Global, records: &mut R, calls: u64, image: u8) -> u64 {
    records.fuse(calls, image);
    let mut count = 0u64;
    for _ in 0..3u8 {
        if records.append(alloc, b"body").is_err() {
            return count;
        }
        count = count.saturating_add(1);
    }
    count
}

#[test]
fn a_list_in_memory_is_cut_as_a_chain_is(rt: HostRuntime) {
    let alloc = rt.alloc();
    for calls in 0..13u64 {
        for image in 0..3u8 {
            let mut list = MemRecords::new(alloc);
            let count = appended(alloc, &mut list, calls, image);
            list.reopen().expect(&rt, "refused");
            let kept = list.take_opened();
            let mut disk = MemDisk::new(alloc);
            let Ok(mut journal) = Journal::open(alloc, &mut disk) else {
                return;
            };
            assert_eq!(rt; appended(alloc, &mut journal, calls, image), count);
            drop(journal);
            disk.fuse(1000, 0);
            let found = records_on(alloc, &mut disk).expect(&rt, "refused");
            assert_eq!(rt; found.len(), kept.len(), "{calls} {image}");
        }
    }
}
