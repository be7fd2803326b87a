//! Drawn calls of a voter's logs beside a list that keeps everything.
ghost use Rattle.std.specs.Prelude.{◌≡◌, ◌≤◌, ◌+◌, All, length, IfOk, OnOk};
ghost use Rattle.mega_wal.specs.declared.item.JournalItem.TheVariants.{Accept, Decide, Grant, Lapse, Promise};
ghost use Rattle.mega_wal.specs.Compaction.{IsOfFormat};
ghost use Rattle.mega_wal.specs.Items.{IsItem};

use crate::calls::{Call, Kind, ballot, entry_of, epoch, group, node, number_of, position};
use crate::plain::{CallResult, Plain, Seen};
use mega_ballot::Ballot;
use mega_base::{Epoch, GroupId, NodeId, Position};
use mega_disk::MemRecords;
use mega_entry::Entry;
use mega_gen::DrawnNumbers;
use mega_wal::{LogFault, Logs, Promised, Voted};
use std::alloc::Global;
use std::process::Abort;
use std::test::Fail;

/// Logs over a list of records.
#[tactic(auto, using(crate::proofs::Staged::none_each, crate::proofs::Staged::none_few))]
fn opened(alloc: Global, records: MemRecords) -> Result<Logs<MemRecords>, LogFault>
    ensures few { IfOk result (λ logs. length logs.staged.items ≡ 0) }
    ensures each { IfOk result (λ logs. All IsItem logs.staged.items) }
    ensures format { IfOk result (λ logs. IsOfFormat logs.kept) }
{
    match Logs::open(alloc, records) {
        Ok(logs) => Ok(logs),
        Err((fault, _)) => Err(fault),
    }
}

/// The same logs, opened again.
fn reopened(alloc: Global, logs: Logs<MemRecords>) -> Result<Logs<MemRecords>, LogFault>
    ensures few { IfOk result (λ logs. length logs.staged.items ≡ 0) }
    ensures each { IfOk result (λ logs. All IsItem logs.staged.items) }
    ensures format { IfOk result (λ logs. IsOfFormat logs.kept) }
{
    let mut records = logs.close();
    records.reopen()?;
    opened(alloc, records)
}

/// Makes a record of what waits, and compacts the records where they are due for it.
#[tactic(auto, using(crate::proofs::Staged::none_each, crate::proofs::Staged::none_few))]
fn flush(alloc: Global, logs: &mut Logs<MemRecords>) -> Result<(), LogFault>
    requires few { length logs.old.staged.items ≤ 1000 }
    requires each { All IsItem logs.old.staged.items }
    requires format { IsOfFormat logs.old.kept }
    ensures few { OnOk result (length logs.new.staged.items ≡ 0) }
    ensures each { OnOk result (All IsItem logs.new.staged.items) }
    ensures format { OnOk result (IsOfFormat logs.new.kept) }
{
    logs.flush(alloc)?;
    if logs.due() {
        logs.compact(alloc)?;
    }
    Ok(())
}

#[tactic(auto, using(crate::proofs::Staged::promise_each, crate::proofs::Staged::promise_few))]
fn promise(
    alloc: Global,
    logs: &mut Logs<MemRecords>,
    group: &GroupId,
    position: Position,
    ballot: Ballot,
) -> Result<CallResult, LogFault>
    requires item { IsItem (Promise group.now position ballot) }
    requires each { All IsItem logs.old.staged.items }
    requires format { IsOfFormat logs.old.kept }
    ensures few { OnOk result (length logs.new.staged.items ≤ length logs.old.staged.items + 1) }
    ensures each { OnOk result (All IsItem logs.new.staged.items) }
    ensures format { OnOk result (IsOfFormat logs.new.kept) }
{
    let promised = logs.promise(alloc, group, position, ballot)?;
    Ok(told_promise(&promised))
}

fn told_promise(promised: &Promised) -> CallResult {
    match promised {
        Promised::Yes(Some((ballot, entry))) => CallResult::Kept(Some((*ballot, number_of(entry)))),
        Promised::Yes(None) => CallResult::Kept(None),
        Promised::Shown(ballot) => CallResult::Shown(*ballot),
    }
}

#[tactic(auto, using(crate::proofs::Staged::accept_each, crate::proofs::Staged::accept_few))]
fn accept(
    alloc: Global,
    logs: &mut Logs<MemRecords>,
    group: &GroupId,
    position: Position,
    ballot: Ballot,
    entry: Entry,
) -> Result<CallResult, LogFault>
    requires item { IsItem (Accept group.now position ballot entry) }
    requires each { All IsItem logs.old.staged.items }
    requires format { IsOfFormat logs.old.kept }
    ensures few { OnOk result (length logs.new.staged.items ≤ length logs.old.staged.items + 1) }
    ensures each { OnOk result (All IsItem logs.new.staged.items) }
    ensures format { OnOk result (IsOfFormat logs.new.kept) }
{
    let voted = logs.accept(alloc, group, position, ballot, entry)?;
    Ok(told_vote(&voted))
}

fn told_vote(voted: &Voted) -> CallResult {
    match voted {
        Voted::Yes => CallResult::Kept(None),
        Voted::Shown(ballot) => CallResult::Shown(*ballot),
        Voted::Other(entry) => CallResult::Other(number_of(entry)),
    }
}

#[tactic(auto, using(crate::proofs::Staged::decide_each, crate::proofs::Staged::decide_few))]
fn decide(
    alloc: Global,
    logs: &mut Logs<MemRecords>,
    group: &GroupId,
    position: Position,
    entry: Entry,
) -> Result<CallResult, LogFault>
    requires item { IsItem (Decide group.now position entry) }
    requires each { All IsItem logs.old.staged.items }
    requires format { IsOfFormat logs.old.kept }
    ensures few { OnOk result (length logs.new.staged.items ≤ length logs.old.staged.items + 1) }
    ensures each { OnOk result (All IsItem logs.new.staged.items) }
    ensures format { OnOk result (IsOfFormat logs.new.kept) }
{
    let new = logs.decide(alloc, group, position, entry)?;
    if new {
        return Ok(CallResult::Kept(None));
    }
    Ok(CallResult::Decided)
}

#[tactic(auto, using(crate::proofs::Staged::one_each, crate::proofs::Staged::one_few))]
fn grant(
    alloc: Global,
    logs: &mut Logs<MemRecords>,
    node: NodeId,
    epoch: Epoch,
) -> Result<CallResult, LogFault>
    requires item { IsItem (Grant node epoch) }
    requires each { All IsItem logs.old.staged.items }
    requires format { IsOfFormat logs.old.kept }
    ensures few { OnOk result (length logs.new.staged.items ≤ length logs.old.staged.items + 1) }
    ensures each { OnOk result (All IsItem logs.new.staged.items) }
    ensures format { OnOk result (IsOfFormat logs.new.kept) }
{
    logs.grant(alloc, node, epoch)?;
    Ok(CallResult::Kept(None))
}

#[tactic(auto, using(crate::proofs::Staged::one_each, crate::proofs::Staged::one_few))]
fn lapse(
    alloc: Global,
    logs: &mut Logs<MemRecords>,
    node: NodeId,
    epoch: Epoch,
) -> Result<CallResult, LogFault>
    requires item { IsItem (Lapse node epoch) }
    requires each { All IsItem logs.old.staged.items }
    requires format { IsOfFormat logs.old.kept }
    ensures few { OnOk result (length logs.new.staged.items ≤ length logs.old.staged.items + 1) }
    ensures each { OnOk result (All IsItem logs.new.staged.items) }
    ensures format { OnOk result (IsOfFormat logs.new.kept) }
{
    logs.lapse(alloc, node, epoch)?;
    Ok(CallResult::Kept(None))
}

#[tactic(auto, using(crate::proofs::Staged::start_each, crate::proofs::Staged::one_few))]
fn begin(alloc: Global, logs: &mut Logs<MemRecords>) -> Result<CallResult, LogFault>
    requires each { All IsItem logs.old.staged.items }
    requires format { IsOfFormat logs.old.kept }
    ensures few { OnOk result (length logs.new.staged.items ≤ length logs.old.staged.items + 1) }
    ensures each { OnOk result (All IsItem logs.new.staged.items) }
    ensures format { OnOk result (IsOfFormat logs.new.kept) }
{
    if logs.starts() == u32::MAX {
        return Ok(CallResult::Decided);
    }
    logs.begin(alloc)?;
    Ok(CallResult::Kept(None))
}

/// Asks the logs.
fn ask(alloc: Global, logs: &mut Logs<MemRecords>, call: Call) -> Result<CallResult, Fail>
    requires each { All IsItem logs.old.staged.items }
    requires format { IsOfFormat logs.old.kept }
    ensures few { OnOk result (length logs.new.staged.items ≤ length logs.old.staged.items + 1) }
    ensures each { OnOk result (All IsItem logs.new.staged.items) }
    ensures format { OnOk result (IsOfFormat logs.new.kept) }
{
    let group = group(alloc, call.group)?;
    let entry = entry_of(alloc, call.entry)?;
    let (position, ballot) = (position(call.place), ballot(call.ballot));
    match call.kind {
        Kind::Promise => Ok(promise(alloc, logs, &group, position, ballot)?),
        Kind::Accept => Ok(accept(alloc, logs, &group, position, ballot, entry)?),
        Kind::Decide => Ok(decide(alloc, logs, &group, position, entry)?),
        Kind::Grant => Ok(grant(alloc, logs, node(call.node), epoch(call.epoch))?),
        Kind::Lapse => Ok(lapse(alloc, logs, node(call.node), epoch(call.epoch))?),
        Kind::Begin => Ok(begin(alloc, logs)?),
    }
}

/// What the logs' readers tell of the place, the group and the node of a call.
fn seen(alloc: Global, logs: &Logs<MemRecords>, at: Call) -> Result<Seen, Fail> {
    let group = group(alloc, at.group)?;
    let place = position(at.place);
    let accepted = match logs.accepted(&group, place) {
        Some((ballot, entry)) => Some((*ballot, number_of(entry))),
        None => None,
    };
    let decided = match logs.decided(&group, place) {
        Some(entry) => Some(number_of(entry)),
        None => None,
    };
    Ok(Seen {
        promised: logs.promised(&group, place),
        accepted,
        decided,
        top: logs.top(&group).0,
        newest: logs.newest(&group).0,
        prefix: logs.prefix(&group).0,
        granted: logs.granted(node(at.node)),
        starts: logs.starts(),
    })
}

/// Logs over so many records, each of one start.
fn worn(alloc: Global, starts: u32) -> Result<Logs<MemRecords>, LogFault>
    ensures few { IfOk result (λ logs. length logs.staged.items ≡ 0) }
    ensures each { IfOk result (λ logs. All IsItem logs.staged.items) }
    ensures format { IfOk result (λ logs. IsOfFormat logs.kept) }
{
    let mut logs = opened(alloc, MemRecords::new(alloc))?;
    for _ in 0..starts {
        let _ = begin(alloc, &mut logs)?;
        flush(alloc, &mut logs)?;
    }
    Ok(logs)
}

/// Five hundred drawn calls, with a flush after half of them and an opening after some; what is not flushed is gone at
/// an opening. After so many flushes the records are due to be compacted.
fn run(rt: &impl Abort, alloc: Global, seed: u64, flushes: u32) -> Result<(), Fail>
    requires { flushes ≤ 4096 }
{
    let before = 4096 - flushes;
    let mut draws = DrawnNumbers::new(seed);
    let mut logs = worn(alloc, before)?;
    let mut plain = Plain {
        before,
        calls: Vec::new(alloc),
    };
    let mut flushed = 0;
    let mut waiting = 0u32;
    for number in 0..500u32 {
        let call = Call::drawn(&mut draws, (number / 8 % 64) as u8);
        let told = ask(alloc, &mut logs, call)?;
        assert_eq!(rt; told, plain.ask(call)?, "call {number} of seed {seed}");
        waiting += 1;
        if waiting >= 8 || draws.draw(2) == 0 {
            flush(alloc, &mut logs)?;
            waiting = 0;
            flushed = plain.calls.len();
        }
        if draws.draw(32) == 0 {
            logs = reopened(alloc, logs)?;
            waiting = 0;
            plain.calls.truncate(flushed);
        }
        let seen = seen(alloc, &logs, call)?;
        assert_eq!(rt;
            seen,
            plain.seen(call),
            "after call {number} of seed {seed}"
        );
    }
    Ok(())
}

#[test]
fn ten_thousand_calls_beside_a_list_that_keeps_everything(rt: HostRuntime) -> Result<(), Fail> {
    let alloc = rt.alloc();
    for seed in 1..=20u32 {
        run(&rt, alloc, u64::from(seed), seed * 9)?;
    }
    Ok(())
}
