//! Runs of which each call of a source, of a sink and of a node's devices fails in turn: the status and the front that was written.

use mega_base::{Bytes, NodeId, Text};
use mega_disk::{MemDisk, Pair};
use mega_io::{MemSink, MemSource};
use mega_link::{MemClock, MemLink, Peer};
use mega_replay::run;
use std::alloc::Global;
use std::io;

/// What fails.
#[derive(Clone, Copy, PartialEq, Eq, Drop)]
enum Edge {
    Source,
    Sink,
    Log,
    Rows,
}

impl Edge {
    fn word(self) -> &'static str {
        match self {
            Edge::Source => "source",
            Edge::Sink => "sink",
            Edge::Log => "log",
            Edge::Rows => "rows",
        }
    }
}

/// Runs whose calls fail in turn: their words, what is read, what client 1 asks, and what comes to node 1 from itself.
#[derive(Drop)]
pub struct Sweep {
    pub words: Vec<Text>,
    pub input: Vec<u8>,
    pub asked: Vec<u8>,
    pub own: Vec<Bytes>,
}

/// What a run came to.
#[derive(Drop)]
struct Stopped {
    status: u8,
    text: Vec<u8>,
    own: Vec<Bytes>,
}

/// The call that fails, where it is of this edge.
fn failing(alloc: Global, fails: bool, call: u64) -> io::Result<Vec<u64>> {
    let mut calls = Vec::new(alloc);
    if fails {
        calls.push(call)?;
    }
    Ok(calls)
}

/// A device of which this call fails; none is call 0.
fn device(alloc: Global, fails: bool, call: u64) -> MemDisk {
    let mut made = MemDisk::new(alloc);
    if fails {
        made.fail_at(call);
    }
    made
}

/// A copy of bytes.
fn copied(alloc: Global, bytes: &[u8]) -> io::Result<Vec<u8>> {
    let mut made = Vec::new(alloc);
    made.extend_from_slice(bytes)?;
    Ok(made)
}

/// Adds copies of the datagrams that are for node 1, as they come to it from itself.
fn add_own(alloc: Global, sent: &[(Peer, Bytes)], all: &mut Vec<Bytes>) -> io::Result<()> {
    for one in sent {
        if one.0 == Peer::Node(NodeId(1)) {
            all.push(Bytes::from_vec(copied(alloc, one.1.as_slice())?))?;
        }
    }
    Ok(())
}

impl Sweep {
    /// What comes, one datagram for each receive.
    fn coming(&self, alloc: Global) -> io::Result<Vec<Option<(Peer, Bytes)>>> {
        let mut made = Vec::new(alloc);
        let asked = Bytes::from_vec(copied(alloc, self.asked.as_slice())?);
        made.push(Some((Peer::Client(1), asked)))?;
        for one in self.own.as_slice() {
            let bytes = Bytes::from_vec(copied(alloc, one.as_slice())?);
            made.push(Some((Peer::Node(NodeId(1)), bytes)))?;
        }
        Ok(made)
    }

    /// The run in which this call of this edge fails.
    fn run(&self, alloc: Global, edge: Edge, call: u64) -> io::Result<Stopped> {
        let source = failing(alloc, edge == Edge::Source, call)?;
        let sink = failing(alloc, edge == Edge::Sink, call)?;
        let mut input = MemSource::new(copied(alloc, self.input.as_slice())?, source);
        let mut out = MemSink::new(alloc, sink);
        let devices = Pair {
            log: device(alloc, edge == Edge::Log, call),
            runs: device(alloc, edge == Edge::Rows, call),
        };
        let mut link = MemLink::new(alloc, self.coming(alloc)?);
        let mut clock = MemClock::new(Vec::new(alloc));
        let words = self.words.as_slice();
        let ended = run(
            alloc, words, &mut input, &mut out, devices, &mut link, &mut clock,
        );
        let mut own = Vec::new(alloc);
        add_own(alloc, link.sent(), &mut own)?;
        Ok(Stopped {
            status: ended.status,
            text: copied(alloc, out.bytes())?,
            own,
        })
    }

    /// The whole run, in which no call fails.
    fn whole(&self, alloc: Global) -> io::Result<Stopped> {
        self.run(alloc, Edge::Source, 0)
    }

    /// Tells of each call of the edge what comes of it that it fails, up to the first that is not made.
    fn tell(&self, rt: &HostRuntime, edge: Edge, wanted: &[u8]) -> io::Result<()> {
        for call in 1..100u64 {
            let stopped = self.run(rt.alloc(), edge, call)?;
            let text = stopped.text.as_slice();
            let front = if wanted.starts_with(text) {
                "a front"
            } else {
                "no front"
            };
            println!(rt;
                "{} call {}: status {}, {}",
                edge.word(),
                call,
                stopped.status,
                front
            )?;
            if text.len() == wanted.len() && stopped.status == 0 {
                return Ok(());
            }
        }
        Ok(())
    }
}

/// Fails each call of the source and of the sink of a replay.
pub fn of_replay(rt: &HostRuntime, sweep: &Sweep) -> io::Result<()> {
    let whole = sweep.whole(rt.alloc())?;
    sweep.tell(rt, Edge::Source, whole.text.as_slice())?;
    sweep.tell(rt, Edge::Sink, whole.text.as_slice())
}

/// Lets what a node alone sends to itself come to it, round by round, and then fails each call of its edges and devices.
pub fn of_node(rt: &HostRuntime, mut sweep: Sweep) -> io::Result<()> {
    for _ in 0..8u8 {
        let made = sweep.whole(rt.alloc())?;
        sweep.own = made.own;
    }
    let whole = sweep.whole(rt.alloc())?;
    for edge in [Edge::Source, Edge::Sink, Edge::Log, Edge::Rows] {
        sweep.tell(rt, edge, whole.text.as_slice())?;
    }
    Ok(())
}
