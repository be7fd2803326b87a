//! A link that cannot be bound.
ghost use Rattle.std.specs.Prelude.{None};

use mega_base::{NoMemory, NodeId, Text};
use mega_link::{Failed, Link, Peer};

/// A link that cannot be bound, and loses all.
#[derive(Drop)]
pub struct Unbound {
    faults: u64,
}

impl Unbound {
    /// A link that was not tried yet.
    pub fn new() -> Unbound {
        Unbound { faults: 0 }
    }
}

impl Link for Unbound {
    ghost faults = { λ link. link.faults };

    ghost taken = { λ _. None };

    ghost sent = { λ _. None };

    fn bind(&mut self, _own: NodeId, _addresses: &[Text]) -> Result<(), Failed> {
        self.faults = self.faults.saturating_add(1);
        Err(Failed)
    }

    fn send(&mut self, _to: Peer, _bytes: &[u8]) -> Result<(), NoMemory> {
        Ok(())
    }

    fn receive(&mut self, _into: &mut [u8]) -> Option<(Peer, usize)> {
        None
    }
}
