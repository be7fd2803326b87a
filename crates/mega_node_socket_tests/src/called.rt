//! A call of a node over what is in memory, and what it came to.
ghost use Rattle.std.specs.Prelude.{◌≤◌};

use mega_base::{Bytes, Copied, NodeId};
use mega_checkpoint::Checkpoint;
use mega_disk::{MemDisk, Pair, Records};
use mega_io::{MemSink, MemSource};
use mega_link::{MemClock, MemLink, Peer};
use mega_meanings::BuiltIn;
use mega_node::mega_server::Number;
use mega_node::run_node;
use std::alloc::Global;
use std::test::Fail;

/// What a call came to: its status, what it wrote, its link, and its devices.
#[derive(Drop)]
pub struct Called {
    pub status: u8,
    pub text: Bytes,
    pub link: MemLink,
    pub devices: Option<Pair<MemDisk>>,
}

/// Devices that hold nothing.
pub fn empty(alloc: Global) -> Pair<MemDisk> {
    Pair {
        log: MemDisk::new(alloc),
        runs: MemDisk::new(alloc),
    }
}

/// The number of records on a log device.
pub fn records_on(alloc: Global, log: MemDisk) -> Result<u64, Fail> {
    match Checkpoint::open(alloc, log) {
        Ok(store) => Ok(store.count()),
        Err(_) => Err(Fail::from("not opened")),
    }
}

/// The other end of a datagram: a node, or a client behind the letter `c`.
fn peer_of(text: &str) -> Result<Peer, Fail> {
    match text.strip_prefix('c') {
        Some(client) => Ok(Peer::Client(client.parse::<u32>()?)),
        None => Ok(Peer::Node(NodeId(text.parse::<u8>()?))),
    }
}

/// The datagrams of a text, a line for each.
pub fn datagrams(alloc: Global, text: &str) -> Result<Vec<Option<(Peer, Bytes)>>, Fail> {
    let mut all = Vec::new(alloc);
    for line in text.lines() {
        let (peer, hex) = line.split_once(' ').ok_or("no peer")?;
        let bytes = hex::decode(alloc, hex.as_bytes())?;
        all.push(Some((peer_of(peer)?, Bytes::from_vec(bytes))))?;
    }
    Ok(all)
}

/// What was sent to a node, as it comes to it from another.
pub fn passed_on(
    alloc: Global,
    sent: &[(Peer, Bytes)],
    from: u8,
    to: u8,
) -> Result<Vec<Option<(Peer, Bytes)>>, Fail> {
    let mut all = Vec::new(alloc);
    for one in sent {
        if is_node(one.0, to) {
            all.push(Some((Peer::Node(NodeId(from)), one.1.copy(alloc)?)))?;
        }
    }
    Ok(all)
}

/// Whether this is a node of this number.
pub fn is_node(peer: Peer, number: u8) -> bool {
    match peer {
        Peer::Node(node) => node.0 == number,
        Peer::Client(_) => false,
    }
}

/// Calls the node of this number, to which these datagrams come.
pub fn call(
    alloc: Global,
    number: u8,
    turns: u64,
    header: &str,
    coming: Vec<Option<(Peer, Bytes)>>,
    clock: MemClock,
    devices: Pair<MemDisk>,
) -> Result<Called, Fail>
    requires least { 1 ≤ number }
    requires most { number ≤ 9 }
{
    let header = Bytes::from_slice(alloc, header.as_bytes())?;
    let mut input = MemSource::new(header.into_vec(), Vec::new(alloc));
    let mut out = MemSink::new(alloc, Vec::new(alloc));
    let mut link = MemLink::new(alloc, coming);
    let mut clock = clock;
    let outcome = run_node(
        alloc,
        Number::new(number),
        turns,
        &mut input,
        &mut out,
        devices,
        &mut link,
        &mut clock,
        BuiltIn::new(),
    );
    Ok(Called {
        status: outcome.status(),
        text: Bytes::from_slice(alloc, out.bytes())?,
        link,
        devices: outcome.devices,
    })
}
