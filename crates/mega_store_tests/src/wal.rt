//! A voter's logs, opened again and compacted.
ghost use Rattle.std.specs.Prelude.{◌≡◌, ◌≤◌, [], length, IfOk, OnOk};
ghost use Rattle.mega_entry.specs.Entries.{entry_text, IsEntry};
ghost use Rattle.mega_base.specs.Codec.{IsNested};
ghost use Rattle.mega_wal.specs.declared.item.JournalItem.TheVariants.{Accept, Promise};
ghost use Rattle.mega_wal.specs.Compaction.{IsOfFormat};
ghost use Rattle.mega_wal.specs.Items.{IsItem};

use mega_ballot::Ballot;
use mega_base::{Bytes, GroupId, NodeId, OpId, Position};
use mega_disk::{MemRecords, Records};
use mega_entry::{Entry, EntryFault, decode};
use mega_wal::{LogFault, Logs, Promised, Voted};
use std::alloc::Global;
use std::test::Fail;

const PLACE: Position = Position(1);

const OF_ONE: OpId = OpId {
    node: NodeId(1),
    start: 1,
    number: 1,
};

const FIRST: Ballot = Ballot {
    round: 1,
    op: OF_ONE,
};

/// The entry of this text.
fn entry(alloc: Global, text: &[u8]) -> Result<Entry, EntryFault>
    requires { length text.now ≤ 65536 }
    ensures { IfOk result (IsNested 65536 entry_text IsEntry) }
{
    let entry = decode(alloc, text)?;
    Ok(entry)
}

/// An entry with nothing in it, whose next leader is this node.
fn empty_entry(alloc: Global, leader: u8) -> Result<Entry, EntryFault>
    ensures { IfOk result (IsNested 65536 entry_text IsEntry) }
{
    entry(
        alloc,
        &[1, 0, leader, 0, 0, 0, 0, 0, 0, 0, 0, 0, 0, 0, 0, 0, 0, 0, 0],
    )
}

/// Logs over an empty list.
fn fresh(alloc: Global) -> Result<Logs<MemRecords>, LogFault>
    ensures staged { IfOk result (λ logs. logs.staged.items ≡ []) }
    ensures format { IfOk result (λ logs. IsOfFormat logs.kept) }
{
    match Logs::open(alloc, MemRecords::new(alloc)) {
        Ok(logs) => Ok(logs),
        Err((fault, _)) => Err(fault),
    }
}

/// The same logs, opened again.
fn reopened(alloc: Global, logs: Logs<MemRecords>) -> Result<Logs<MemRecords>, LogFault>
    ensures { IfOk result (λ logs. logs.staged.items ≡ []) }
{
    let mut records = logs.close();
    records.reopen()?;
    match Logs::open(alloc, records) {
        Ok(logs) => Ok(logs),
        Err((fault, _)) => Err(fault),
    }
}

/// Promises a ballot, and makes a record of it.
fn prepare(
    alloc: Global,
    logs: &mut Logs<MemRecords>,
    group: &GroupId,
    ballot: Ballot,
) -> Result<Promised, LogFault>
    requires staged { logs.old.staged.items ≡ [] }
    requires item { IsItem (Promise group.now PLACE ballot) }
    ensures { OnOk result (logs.new.staged.items ≡ []) }
{
    let promised = logs.promise(alloc, group, PLACE, ballot)?;
    logs.flush(alloc)?;
    Ok(promised)
}

/// Accepts an entry, and makes a record of it.
fn vote(
    alloc: Global,
    logs: &mut Logs<MemRecords>,
    group: &GroupId,
    ballot: Ballot,
    entry: Entry,
) -> Result<Voted, LogFault>
    requires staged { logs.old.staged.items ≡ [] }
    requires item { IsItem (Accept group.now PLACE ballot entry) }
    ensures { OnOk result (logs.new.staged.items ≡ []) }
{
    let voted = logs.accept(alloc, group, PLACE, ballot, entry)?;
    logs.flush(alloc)?;
    Ok(voted)
}

/// Starts once more, and makes a record of it.
fn start(alloc: Global, logs: &mut Logs<MemRecords>) -> Result<(), LogFault>
    requires staged { logs.old.staged.items ≡ [] }
    requires format { IsOfFormat logs.old.kept }
    ensures staged { OnOk result (logs.new.staged.items ≡ []) }
    ensures format { OnOk result (IsOfFormat logs.new.kept) }
{
    if logs.starts() == u32::MAX {
        return Ok(());
    }
    logs.begin(alloc)?;
    logs.flush(alloc)?;
    Ok(())
}

/// The only record of these logs.
fn only_record(mut records: MemRecords) -> Result<Vec<Bytes>, LogFault> {
    records.reopen()?;
    Ok(records.take_opened())
}

/// The node that leads the next position by the other entry that a voter tells, or 0.
fn other_leader(voted: &Voted) -> u8 {
    match voted {
        Voted::Other(entry) => entry.content().leader.0,
        _ => 0,
    }
}

#[test]
fn a_promise_stands_over_a_reopening(rt: HostRuntime) -> Result<(), Fail> {
    let alloc = rt.alloc();
    let group = GroupId::new(alloc, Bytes::from_slice(alloc, b"g")?)?;
    let mut logs = fresh(alloc)?;
    let promised = prepare(alloc, &mut logs, &group, FIRST)?;
    assert!(rt; matches!(promised, Promised::Yes(None)));
    let mut logs = reopened(alloc, logs)?;
    let entry = empty_entry(alloc, 1)?;
    match vote(alloc, &mut logs, &group, Ballot::ZERO, entry)? {
        Voted::Shown(shown) => assert_eq!(rt; shown, FIRST),
        _ => assert!(rt; false),
    }
    Ok(())
}

#[test]
fn another_entry_at_zero_is_refused_over_a_reopening(rt: HostRuntime) -> Result<(), Fail> {
    let alloc = rt.alloc();
    let group = GroupId::new(alloc, Bytes::from_slice(alloc, b"g")?)?;
    let mut logs = fresh(alloc)?;
    for (leader, other) in [(1, 0), (1, 0), (2, 1)] {
        let entry = empty_entry(alloc, leader)?;
        let voted = vote(alloc, &mut logs, &group, Ballot::ZERO, entry)?;
        assert_eq!(rt; other_leader(&voted), other);
        logs = reopened(alloc, logs)?;
    }
    Ok(())
}

#[test]
fn many_starts_become_one_record(rt: HostRuntime) -> Result<(), Fail> {
    let alloc = rt.alloc();
    let mut logs = fresh(alloc)?;
    for _ in 0..4096 {
        start(alloc, &mut logs)?;
    }
    assert!(rt; logs.due());
    logs.compact(alloc)?;
    assert_eq!(rt; logs.starts(), 4096);
    assert_eq!(rt; logs.records(), 1);
    for record in only_record(logs.close())? {
        assert_eq!(rt;
            record.as_slice(),
            [0, 0, 0, 1, 7, 0, 0, 0x10, 0].as_slice()
        );
    }
    Ok(())
}
