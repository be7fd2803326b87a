//! A link in memory, to which given datagrams come and which keeps what is sent.
ghost use Rattle.std.specs.Prelude.{◌≡◌, ◌≤◌, ◌<◌, [], ◌++◌, ◌∷◌, drop, length, take, slice_index_or, slice_set, Some, None, IfSome, OnOk, OnErr};
ghost use Rattle.mega_link.specs.Datagrams.{Gains, cut, given};
ghost use Rattle.mega_link.specs.GivenList.{next_or};

use crate::link::Link;
use crate::peer::{Failed, Peer};
use mega_base::{Bytes, NoMemory, NodeId, Text};
use std::alloc::Global;
use std::marker::Model;
use std::mem;

/// A link in memory: each call of `receive` takes one item of a list, and nothing after the last.
#[derive(Drop)]
pub struct MemLink {
    alloc: Global,
    incoming: Vec<Option<(Peer, Bytes)>>,
    index: usize,
    extra: u64,
    sent: Vec<(Peer, Bytes)>,
}

impl Model for MemLink {
    ghost use Rattle.std.specs.Prelude.{◌≡◌, ◌≤◌, ◌<◌, drop, length, None};
    ghost use Rattle.mega_link.specs.Memory.{Exchange};
    ghost use Rattle.mega_link.specs.GivenList.{told};

    ghost Value = { Exchange };

    ghost view = { λ link. record { coming = drop link.index link.incoming.items; taken = told link.incoming.items link.index link.extra None; sent = link.sent.items } };

    ghost invariant = { λ link. (link.index ≤ length link.incoming.items) × (link.index < length link.incoming.items → link.extra ≡ 0) };
}

/// Copies the first bytes that fit into the buffer, and keeps those alone. It tells how many they are.
fn fill(bytes: &mut Bytes, into: &mut [u8]) -> usize
    ensures kept { bytes.new ≡ take (length into.old) bytes.old }
    ensures filled { take result into.new ≡ take (length into.old) bytes.old }
    ensures bound { result ≤ length into.new }
{
    bytes.truncate(into.len());
    let count = bytes.len();
    into[..count].copy_from_slice(bytes.as_slice());
    count
}

/// Takes the item at this place into the buffer, and keeps of it what fits.
fn take_at(
    incoming: &mut Vec<Option<(Peer, Bytes)>>,
    index: usize,
    into: &mut [u8],
) -> Option<(Peer, usize)>
    requires { index < length incoming.old.items }
    ensures given { given result into.new ≡ cut (length into.old) (slice_index_or incoming.old.items index None) }
    ensures kept { incoming.new.items ≡ slice_set incoming.old.items index (given result into.new) }
    ensures bound { IfSome result (λ found. found.1 ≤ length into.new) }
{
    match mem::replace(&mut incoming[index], None) {
        Some((peer, mut bytes)) => {
            let count = fill(&mut bytes, into);
            incoming[index] = Some((peer, bytes));
            Some((peer, count))
        }
        None => None,
    }
}

impl MemLink {
    /// A link to which these items come, one for each call of `receive`. It takes no memory.
    pub fn new(alloc: Global, incoming: Vec<Option<(Peer, Bytes)>>) -> MemLink
        ensures { result ≡ record { coming = incoming.items; taken = Some []; sent = [] } }
    {
        MemLink {
            alloc,
            incoming,
            index: 0,
            extra: 0,
            sent: Vec::new(alloc),
        }
    }

    /// What was sent, in order.
    pub fn sent(&self) -> &[(Peer, Bytes)]
        ensures { result.now ≡ self.now.sent }
    {
        self.sent.as_slice()
    }
}

impl Link for MemLink {
    ghost faults = { λ _. 0 };

    ghost taken = { λ link. link.taken };

    ghost sent = { λ link. Some link.sent };

    fn bind(&mut self, _own: NodeId, _addresses: &[Text]) -> Result<(), Failed> {
        Ok(())
    }

    fn send(&mut self, to: Peer, bytes: &[u8]) -> Result<(), NoMemory> {
        let bytes = Bytes::from_slice(self.alloc, bytes)?;
        self.sent.push((to, bytes))?;
        Ok(())
    }

    fn receive(&mut self, into: &mut [u8]) -> Option<(Peer, usize)>
        requires { 65507 ≤ length into.old }
        ensures bound { IfSome result (λ found. found.1 ≤ length into.new) }
        ensures taken { Gains self.old.taken self.new.taken (given result into.new) }
        ensures sent { self.new.sent ≡ self.old.sent }
        ensures next { given result into.new ≡ cut (length into.old) (next_or self.old.coming None) }
        ensures coming { self.new.coming ≡ drop 1 self.old.coming }
    {
        if self.index == self.incoming.len() {
            self.extra = self.extra.saturating_add(1);
            return None;
        }
        let index = self.index;
        self.index += 1;
        take_at(&mut self.incoming, index, into)
    }
}
