//! Three nodes that talk over links in memory, one called after the other.
ghost use Rattle.std.specs.Prelude.{◌≤◌};

use crate::called::{Called, call, empty, is_node};
use crate::samples;
use mega_base::{Bytes, Copied, NodeId};
use mega_link::{MemClock, Peer};
use std::alloc::Global;
use std::test::Fail;

type Mail = Vec<Option<(Peer, Bytes)>>;

/// What came to each node so far, in order.
#[derive(Drop)]
pub struct Talk {
    one: Mail,
    two: Mail,
    three: Mail,
}

/// A copy of what came.
fn copied(alloc: Global, mail: &[Option<(Peer, Bytes)>]) -> Result<Mail, Fail> {
    let mut all = Vec::new(alloc);
    for item in mail {
        if let Some((peer, bytes)) = item {
            all.push(Some((*peer, bytes.copy(alloc)?)))?;
        }
    }
    Ok(all)
}

/// Calls a node over devices that hold nothing, with a clock that shows 0, for as many turns as datagrams come to it.
fn called(
    alloc: Global,
    number: u8,
    header: &str,
    mail: &[Option<(Peer, Bytes)>],
) -> Result<Called, Fail>
    requires least { 1 ≤ number }
    requires most { number ≤ 9 }
{
    let coming = copied(alloc, mail)?;
    let turns = coming.len() as u64;
    let clock = MemClock::new(Vec::new(alloc));
    call(alloc, number, turns, header, coming, clock, empty(alloc))
}

/// A node that talks to itself: it is called so often with all that came to it before.
pub fn alone(alloc: Global, header: &str, first: Mail, rounds: u64) -> Result<Called, Fail> {
    let mut mail = first;
    let mut seen = 0;
    for _ in 0..rounds {
        let made = called(alloc, 1, header, &mail)?;
        let sent = made.link.sent();
        for one in sent.iter().skip(seen) {
            if is_node(one.0, 1) {
                mail.push(Some((Peer::Node(NodeId(1)), one.1.copy(alloc)?)))?;
            }
        }
        seen = sent.len();
    }
    called(alloc, 1, header, &mail)
}

/// Puts the record of a node, called with all that came to it, behind its title.
fn put_record(
    alloc: Global,
    records: &mut Bytes,
    title: &[u8],
    number: u8,
    mail: &[Option<(Peer, Bytes)>],
) -> Result<(), Fail>
    requires least { 1 ≤ number }
    requires most { number ≤ 9 }
{
    records.extend_from_slice(title)?;
    let made = called(alloc, number, samples::FULL, mail)?;
    records.extend_from_slice(made.text.as_slice())?;
    Ok(())
}

impl Talk {
    /// What these datagrams begin, which come to node 1.
    pub fn begun(alloc: Global, first: Mail) -> Talk {
        Talk {
            one: first,
            two: Vec::new(alloc),
            three: Vec::new(alloc),
        }
    }

    /// Hands on what a node sent behind so many datagrams, and tells how many it sent.
    fn pass(&mut self, alloc: Global, made: &Called, from: u8, seen: usize) -> Result<usize, Fail> {
        let sent = made.link.sent();
        for one in sent.iter().skip(seen) {
            let item = Some((Peer::Node(NodeId(from)), one.1.copy(alloc)?));
            match one.0 {
                Peer::Node(NodeId(1)) => self.one.push(item)?,
                Peer::Node(NodeId(2)) => self.two.push(item)?,
                Peer::Node(_) => self.three.push(item)?,
                Peer::Client(_) => {}
            }
        }
        Ok(sent.len())
    }

    /// Hands on what the three nodes sent, each behind so many datagrams, and tells how many each sent.
    fn pass_all(
        &mut self,
        alloc: Global,
        one: &Called,
        two: &Called,
        three: &Called,
        seen: (usize, usize, usize),
    ) -> Result<(usize, usize, usize), Fail> {
        let first = self.pass(alloc, one, 1, seen.0)?;
        let second = self.pass(alloc, two, 2, seen.1)?;
        let third = self.pass(alloc, three, 3, seen.2)?;
        Ok((first, second, third))
    }

    /// Calls each node with all that came to it before, and hands on what it sent behind so many datagrams.
    fn go_on(
        &mut self,
        alloc: Global,
        seen: (usize, usize, usize),
    ) -> Result<(usize, usize, usize), Fail> {
        let one = called(alloc, 1, samples::FULL, &self.one)?;
        let two = called(alloc, 2, samples::FULL, &self.two)?;
        let three = called(alloc, 3, samples::FULL, &self.three)?;
        self.pass_all(alloc, &one, &two, &three, seen)
    }

    /// The records of the three nodes, once each was called so often with all that came to it before: what it did before it does again, and goes on.
    pub fn records(self, alloc: Global, rounds: u64) -> Result<Bytes, Fail> {
        let mut talk = self;
        let mut seen = (0, 0, 0);
        for _ in 0..rounds {
            seen = talk.go_on(alloc, seen)?;
        }
        let mut records = Bytes::new(alloc);
        put_record(alloc, &mut records, b"record 1\n", 1, &talk.one)?;
        put_record(alloc, &mut records, b"record 2\n", 2, &talk.two)?;
        put_record(alloc, &mut records, b"record 3\n", 3, &talk.three)?;
        Ok(records)
    }
}
