//! Devices in memory that hold given bytes, and the records that an opening finds on them.
use mega_base::Bytes;
use mega_checkpoint::Checkpoint;
use mega_disk::{Disk, MemDisk, Records};
use mega_journal::Journal;
use std::alloc::Global;
use std::process::Abort;

/// A device that holds these bytes.
pub fn device(rt: &impl Abort, alloc: Global, bytes: &[u8]) -> MemDisk {
    let mut disk = MemDisk::new(alloc);
    disk.write(0, bytes).expect(rt, "refused");
    disk.sync().expect(rt, "refused");
    disk
}

/// The bytes that a device holds.
pub fn bytes_on(rt: &impl Abort, alloc: Global, disk: &mut MemDisk) -> Vec<u8> {
    let Ok(size) = disk.len() else {
        panic!(rt; "no length");
    };
    let Ok(mut bytes) = vec![in alloc; 0u8; size as usize] else {
        panic!(rt; "no memory");
    };
    disk.read(0, bytes.as_mut_slice()).expect(rt, "refused");
    bytes
}

/// The store on a device.
pub fn opened<D: Disk + Drop>(rt: &impl Abort, alloc: Global, disk: D) -> Checkpoint<D> {
    match Checkpoint::open(alloc, disk) {
        Ok(store) => store,
        Err((error, _)) => panic!(rt; "refused: {error:?}"),
    }
}

/// The chain on a device.
pub fn chain_on<D: Disk + Drop>(rt: &impl Abort, alloc: Global, disk: D) -> Journal<D> {
    match Journal::open(alloc, disk) {
        Ok(journal) => journal,
        Err((error, _)) => panic!(rt; "refused: {error:?}"),
    }
}

/// The records that an opening finds.
pub fn records_on<D: Disk + Drop>(rt: &impl Abort, alloc: Global, disk: &mut D) -> Vec<Bytes> {
    let mut store = opened(rt, alloc, disk);
    store.take_opened()
}

/// How many records an opening finds.
pub fn count_on<D: Disk + Drop>(rt: &impl Abort, alloc: Global, disk: &mut D) -> usize {
    let found = records_on(rt, alloc, disk);
    found.len()
}

/// Appends so many records of one byte; the number of all that are acknowledged.
pub fn append_many<D: Disk + Drop>(
    rt: &impl Abort,
    alloc: Global,
    disk: &mut D,
    count: u64,
) -> u64 {
    let mut store = opened(rt, alloc, disk);
    for _ in 0..count {
        store.append(alloc, b"x").expect(rt, "refused");
    }
    store.count()
}
