//! The records of nodes: worked, of strange datagrams, and over devices that were used before.

use crate::called::{Called, call, datagrams, empty, passed_on, records_on};
use crate::talk::{Talk, alone};
use crate::{samples, talk_samples};
use mega_base::Bytes;
use mega_disk::{MemDisk, Pair};
use mega_link::MemClock;
use std::alloc::Global;
use std::process::Abort;
use std::test::Fail;

/// A clock that shows 0.
fn still(alloc: Global) -> MemClock {
    MemClock::new(Vec::new(alloc))
}

/// A clock that shows 5 and then 60.
fn moving(alloc: Global) -> Result<MemClock, Fail> {
    Ok(MemClock::new(vec![in alloc; 5u64, 60]?))
}

#[test]
fn one_node_asks_its_cell_at_each_tick_that_is_due(rt: HostRuntime) -> Result<(), Fail> {
    let alloc = rt.alloc();
    let made = call(
        alloc,
        1,
        2,
        samples::ONE,
        Vec::new(alloc),
        moving(alloc)?,
        empty(alloc),
    )?;
    assert_eq!(rt; made.status, 0);
    assert_eq!(rt; made.text.as_slice(), samples::WORKED.as_bytes());
    assert_eq!(rt; made.link.sent().len(), 2);
    Ok(())
}

#[test]
fn a_node_counts_its_starts_on_its_log(rt: HostRuntime) -> Result<(), Fail> {
    let alloc = rt.alloc();
    let first = call(
        alloc,
        1,
        0,
        samples::ONE,
        Vec::new(alloc),
        still(alloc),
        empty(alloc),
    )?;
    let devices = first.devices.ok_or("no devices")?;
    let second = call(
        alloc,
        1,
        0,
        samples::ONE,
        Vec::new(alloc),
        still(alloc),
        devices,
    )?;
    assert_eq!(rt; first.text.as_slice(), b"start 1 1\n".as_slice());
    assert_eq!(rt; second.text.as_slice(), b"start 1 2\n".as_slice());
    Ok(())
}

/// Calls node 1 of three over these devices, to which one datagram comes in each turn.
fn called(alloc: Global, turns: u64, coming: &str, devices: Pair<MemDisk>) -> Result<Called, Fail> {
    let coming = datagrams(alloc, coming)?;
    call(
        alloc,
        1,
        turns,
        samples::THREE,
        coming,
        still(alloc),
        devices,
    )
}

/// Asserts that a call ended well, sent so much, and recorded these texts one behind the other.
fn check(
    rt: &impl Abort,
    alloc: Global,
    made: &Called,
    sent: usize,
    front: &str,
    rest: &[u8],
) -> Result<(), Fail> {
    let mut whole = Bytes::from_slice(alloc, front.as_bytes())?;
    whole.extend_from_slice(rest)?;
    assert_eq!(rt; made.text.as_slice(), whole.as_slice());
    assert_eq!(rt; made.status, 0);
    assert_eq!(rt; made.link.sent().len(), sent);
    Ok(())
}

/// What a node records of datagrams that change nothing, one a turn.
fn got(alloc: Global, coming: &str) -> Result<Bytes, Fail> {
    let mut text = Bytes::new(alloc);
    for line in coming.lines() {
        if !text.as_slice().is_empty() {
            text.extend_from_slice(b"tick 1 0\n")?;
        }
        let (title, rest) = match line.strip_prefix('c') {
            Some(rest) => ("got client ", rest),
            None => ("got ", line),
        };
        text.extend_from_slice(title.as_bytes())?;
        text.extend_from_slice(rest.as_bytes())?;
        text.extend_from_slice(b"\n")?;
    }
    Ok(text)
}

/// In its start 1 node 1 began an operation and asked for its locks; in start 2 neither an answer to that operation nor a grant of that epoch is for it.
#[test]
fn strange_datagrams_change_nothing(rt: HostRuntime) -> Result<(), Fail> {
    let alloc = rt.alloc();
    let first = called(alloc, 1, samples::PUT_ASKED, empty(alloc))?;
    assert_eq!(rt; first.link.sent().len(), 6);
    let devices = first.devices.ok_or("no devices")?;
    let made = called(alloc, 16, samples::STRANGE, devices)?;
    let wanted = got(alloc, samples::STRANGE)?;
    check(
        &rt,
        alloc,
        &made,
        3,
        samples::SECOND_START,
        wanted.as_slice(),
    )?;
    let devices = made.devices.ok_or("no devices")?;
    assert_eq!(rt; records_on(alloc, devices.log)?, 2);
    Ok(())
}

/// The messages that strange ones are made from are served: the `where` is answered.
#[test]
fn a_whole_where_is_answered(rt: HostRuntime) -> Result<(), Fail> {
    let alloc = rt.alloc();
    let made = called(alloc, 1, samples::WHERE, empty(alloc))?;
    let wanted = samples::WHERE_RECORD.as_bytes();
    check(&rt, alloc, &made, 4, samples::FIRST_TICK, wanted)
}

#[test]
fn a_client_that_asks_for_nothing_is_told_why_not(rt: HostRuntime) -> Result<(), Fail> {
    let alloc = rt.alloc();
    let made = called(alloc, 1, samples::NOTHING_ASKED, empty(alloc))?;
    let wanted = samples::NOTHING_ASKED_RECORD.as_bytes();
    check(&rt, alloc, &made, 4, samples::FIRST_TICK, wanted)
}

#[test]
fn a_node_grants_what_another_asked_of_its_cell(rt: HostRuntime) -> Result<(), Fail> {
    let alloc = rt.alloc();
    let first = call(
        alloc,
        1,
        1,
        samples::THREE,
        Vec::new(alloc),
        still(alloc),
        empty(alloc),
    )?;
    let coming = passed_on(alloc, first.link.sent(), 1, 2)?;
    let second = call(
        alloc,
        2,
        1,
        samples::THREE,
        coming,
        still(alloc),
        empty(alloc),
    )?;
    assert_eq!(rt; second.text.as_slice(), samples::GRANTING.as_bytes());
    Ok(())
}

#[test]
fn a_witness_invalidates_nothing(rt: HostRuntime) -> Result<(), Fail> {
    let alloc = rt.alloc();
    let coming = datagrams(alloc, samples::INVALIDATE)?;
    let made = call(
        alloc,
        3,
        1,
        samples::THREE,
        coming,
        still(alloc),
        empty(alloc),
    )?;
    assert_eq!(rt; made.text.as_slice(), samples::INVALIDATE_RECORD.as_bytes());
    assert_eq!(rt; made.link.sent().len(), 0);
    Ok(())
}

#[test]
fn three_nodes_commit_a_put_and_their_records_stand(rt: HostRuntime) -> Result<(), Fail> {
    let alloc = rt.alloc();
    let talk = Talk::begun(alloc, datagrams(alloc, samples::PUT_ASKED)?);
    let records = talk.records(alloc, 12)?;
    assert_eq!(rt; records.as_slice(), talk_samples::RECORDS.as_bytes());
    Ok(())
}

#[test]
fn a_schema_that_grew_shows_what_was_there(rt: HostRuntime) -> Result<(), Fail> {
    let alloc = rt.alloc();
    let asked = datagrams(alloc, samples::PUT_ASKED)?;
    let first = alone(alloc, samples::ONE, asked, 8)?;
    let devices = first.devices.ok_or("no devices")?;
    let asked = datagrams(alloc, samples::READ_ASKED)?;
    let grown = call(alloc, 1, 1, samples::GROWN, asked, still(alloc), devices)?;
    assert_eq!(rt; grown.text.as_slice(), samples::GROWN_RECORD.as_bytes());
    Ok(())
}
