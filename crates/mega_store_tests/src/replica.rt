//! The rows of a node over three entries: a row, nothing, and two writes of which one deletes that row.
use mega_base::{Bytes, GroupId, Items, NoMemory, NodeId, Position, Row};
use mega_disk::{MemRecords, MemVersions, Versions};
use mega_entry::{Content, Entry, Write};
use mega_replica::{StoredRows, after_portion, after_read, applied, writes_through};
use mega_wal::{LogFault, Logs};
use std::alloc::Global;

/// A write of an empty row, or a deletion.
fn write(alloc: Global, key: &[u8], there: bool) -> Result<Write, NoMemory> {
    let key = Bytes::from_slice(alloc, key)?;
    let row = if there {
        Some(Row::new(alloc, Items::new(alloc))?)
    } else {
        None
    };
    Ok(Write { key, row })
}

/// The group of these entries.
fn group(alloc: Global) -> Result<GroupId, NoMemory> {
    GroupId::new(alloc, Bytes::from_slice(alloc, b"g")?)
}

/// An entry of these writes.
fn entry(alloc: Global, writes: Items<Write>) -> Result<Entry, NoMemory> {
    let content = Content {
        id: None,
        leader: NodeId(1),
        writes,
        sends: Items::new(alloc),
        enters: Items::new(alloc),
        handles: Items::new(alloc),
        cuts: Items::new(alloc),
    };
    Entry::new(alloc, content)
}

/// Logs in which the three entries of the group are decided.
fn decided(alloc: Global, group: &GroupId) -> Result<Logs<MemRecords>, LogFault> {
    let mut logs = match Logs::open(alloc, MemRecords::new(alloc)) {
        Ok(logs) => logs,
        Err((fault, _)) => return Err(fault),
    };
    let mut first = Items::new(alloc);
    first.push(write(alloc, b"a", true)?)?;
    logs.decide(alloc, group, Position(1), entry(alloc, first)?)?;
    logs.decide(alloc, group, Position(2), entry(alloc, Items::new(alloc))?)?;
    let mut last = Items::new(alloc);
    last.push(write(alloc, b"b", true)?)?;
    last.push(write(alloc, b"a", false)?)?;
    logs.decide(alloc, group, Position(3), entry(alloc, last)?)?;
    Ok(logs)
}

#[test]
fn entries_are_applied_when_all_their_writes_are_stored(rt: HostRuntime) {
    let alloc = rt.alloc();
    let group = group(alloc).expect(&rt, "refused");
    let logs = decided(alloc, &group).expect(&rt, "refused");
    let mut stored = StoredRows::new(alloc, MemVersions::new(alloc));
    assert_eq!(rt; stored.applied(&group, &logs).0, 0);
    stored
        .apply_some(alloc, &group, &logs, 1)
        .expect(&rt, "refused");
    assert_eq!(rt; stored.applied(&group, &logs).0, 2);
    stored
        .apply_some(alloc, &group, &logs, 1)
        .expect(&rt, "refused");
    assert_eq!(rt; stored.applied(&group, &logs).0, 2);
    stored
        .apply_through(alloc, &group, &logs, Position(3))
        .expect(&rt, "refused");
    assert_eq!(rt; stored.applied(&group, &logs).0, 3);
}

#[test]
fn a_row_stands_at_the_position_of_its_entry(rt: HostRuntime) {
    let alloc = rt.alloc();
    let group = group(alloc).expect(&rt, "refused");
    let logs = decided(alloc, &group).expect(&rt, "refused");
    let mut stored = StoredRows::new(alloc, MemVersions::new(alloc));
    stored
        .apply_through(alloc, &group, &logs, Position(3))
        .expect(&rt, "refused");
    let key = Bytes::from_slice(alloc, b"a").expect(&rt, "refused");
    assert!(rt;
        stored
            .rows
            .get(alloc, &key, Position(0))
            .expect(&rt, "refused")
            .is_none()
    );
    assert!(rt;
        stored
            .rows
            .get(alloc, &key, Position(2))
            .expect(&rt, "refused")
            .is_some()
    );
    assert!(rt;
        stored
            .rows
            .get(alloc, &key, Position(3))
            .expect(&rt, "refused")
            .is_none()
    );
}

/// Entries with one, no and two deletions.
fn log(alloc: Global) -> Result<Items<Entry>, NoMemory> {
    let mut log = Items::new(alloc);
    for count in [1u8, 0, 2] {
        let mut writes = Items::new(alloc);
        for number in 0..count {
            writes.push(write(alloc, &[number], false)?)?;
        }
        log.push(entry(alloc, writes)?)?;
    }
    Ok(log)
}

#[test]
fn writes_are_counted(rt: HostRuntime) {
    let log = log(rt.alloc()).expect(&rt, "refused");
    assert_eq!(rt; applied(log.as_slice(), 2), 2);
    assert_eq!(rt; writes_through(3, log.as_slice()), Some(3));
    assert_eq!(rt; after_portion(5, log.as_slice(), 1), Some(3));
    assert_eq!(rt; after_read(1, log.as_slice(), 0), Some(1));
}
