//! Devices in memory that hold given bytes, and what tests put on them.
use mega_base::{Bytes, Cell, GroupId, Items, Row, Value};
use mega_disk::{Disk, MemDisk};
use std::alloc::Global;
use std::process::Abort;

/// A device that holds these bytes.
pub fn device(rt: &impl Abort, alloc: Global, bytes: &[u8]) -> MemDisk {
    let mut disk = MemDisk::new(alloc);
    disk.write(0, bytes).expect(rt, "refused");
    disk.sync().expect(rt, "refused");
    disk
}

/// The bytes of a device.
pub fn bytes_of(rt: &impl Abort, alloc: Global, disk: &mut MemDisk) -> Vec<u8> {
    let Ok(size) = disk.len() else {
        panic!(rt; "no length");
    };
    let Ok(mut bytes) = vec![in alloc; 0; size as usize] else {
        panic!(rt; "no memory");
    };
    disk.read(0, bytes.as_mut_slice()).expect(rt, "refused");
    bytes
}

/// A key of eight bytes.
pub fn key(rt: &impl Abort, alloc: Global, number: u64) -> Bytes {
    Bytes::from_slice(alloc, &number.to_be_bytes()).expect(rt, "refused")
}

/// The group `b`.
pub fn group(rt: &impl Abort, alloc: Global) -> GroupId {
    let key = Bytes::from_slice(alloc, b"b").expect(rt, "refused");
    GroupId::new(alloc, key).expect(rt, "refused")
}

/// The row of one number, or none at 0.
pub fn row_of(rt: &impl Abort, alloc: Global, number: i32) -> Option<Row> {
    if number == 0 {
        return None;
    }
    let values = Items::from_vec(vec![in alloc; Value::Int32(number)].expect(rt, "refused"));
    let cell = Cell {
        property: 1,
        values,
    };
    let cells = Items::from_vec(vec![in alloc; cell].expect(rt, "refused"));
    Some(Row::new(alloc, cells).expect(rt, "refused"))
}
