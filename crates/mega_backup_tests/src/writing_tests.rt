//! What is written of a log.
ghost use Rattle.std.specs.Prelude.{length, IfOk, ◌≤◌};
ghost use Rattle.mega_base.specs.Codec.{IsNested};
ghost use Rattle.mega_entry.specs.Entries.{entry_text, IsEntry};
ghost use Rattle.mega_wal.specs.Compaction.{IsOfFormat};

use crate::samples;
use mega_backup::{BackupFault, write};
use mega_base::{Bytes, GroupId, NoMemory, Position};
use mega_disk::MemRecords;
use mega_entry::{Entry, EntryFault, decode};
use mega_io::MemSink;
use mega_wal::{LogFault, Logs};
use std::alloc::Global;
use std::test::Fail;

/// The group of user 101.
fn group(alloc: Global) -> Result<GroupId, NoMemory>
    ensures { IfOk result (λ group. length group.key ≤ 65536) }
{
    let key = Bytes::from_slice(alloc, &[1, 128, 0, 0, 0, 0, 0, 0, 101])?;
    GroupId::new(alloc, key)
}

/// The entry of this text.
fn entry(alloc: Global, text: &[u8]) -> Result<Entry, EntryFault>
    requires { length text.now ≤ 65536 }
    ensures { IfOk result (IsNested 65536 entry_text IsEntry) }
{
    let entry = decode(alloc, text)?;
    Ok(entry)
}

/// Logs with this entry decided at position 1.
fn logs_with(alloc: Global, group: &GroupId, entry: Entry) -> Result<Logs<MemRecords>, LogFault>
    requires group { length group.now.key ≤ 65536 }
    requires entry { IsNested 65536 entry_text IsEntry entry }
    ensures { IfOk result (λ logs. IsOfFormat logs.kept) }
{
    let mut logs = match Logs::open(alloc, MemRecords::new(alloc)) {
        Ok(logs) => logs,
        Err((fault, _)) => return Err(fault),
    };
    logs.decide(alloc, group, Position(1), entry)?;
    Ok(logs)
}

/// Logs with the entry of user 101.
fn logs(alloc: Global, group: &GroupId) -> Result<Logs<MemRecords>, Fail>
    requires { length group.now.key ≤ 65536 }
    ensures { IfOk result (λ logs. IsOfFormat logs.kept) }
{
    let text = hex::decode(alloc, samples::USER_ENTRY.as_bytes())?;
    if 65536 < text.len() {
        return Err("a long entry".into());
    }
    let entry = entry(alloc, text.as_slice())?;
    Ok(logs_with(alloc, group, entry)?)
}

#[test]
fn a_log_is_written(rt: HostRuntime) -> Result<(), Fail> {
    let alloc = rt.alloc();
    let group = group(alloc)?;
    let logs = logs(alloc, &group)?;
    let mut sink = MemSink::new(alloc, Vec::new(alloc));
    let done = write(alloc, &logs, &group, Position(1), &mut sink);
    assert!(rt; done.is_ok());
    assert_eq!(rt; sink.bytes(), samples::USER_BACKUP.as_bytes());
    Ok(())
}

#[test]
fn a_backup_beyond_the_log_is_short(rt: HostRuntime) -> Result<(), Fail> {
    let alloc = rt.alloc();
    let group = group(alloc)?;
    let logs = logs(alloc, &group)?;
    let mut sink = MemSink::new(alloc, Vec::new(alloc));
    let done = write(alloc, &logs, &group, Position(2), &mut sink);
    assert!(rt; matches!(done, Err(BackupFault::Short { has: Position(1) })));
    assert!(rt; sink.bytes().is_empty());
    Ok(())
}

#[test]
fn a_sink_that_fails_is_told(rt: HostRuntime) -> Result<(), Fail> {
    let alloc = rt.alloc();
    let group = group(alloc)?;
    let logs = logs(alloc, &group)?;
    let mut sink = MemSink::new(alloc, vec![in alloc; 2]?);
    let done = write(alloc, &logs, &group, Position(1), &mut sink);
    assert!(rt; matches!(done, Err(BackupFault::SinkFault)));
    assert_eq!(rt; sink.bytes(), b"backup 018000000000000065 1\n".as_slice());
    Ok(())
}
