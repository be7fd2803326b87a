//! A change as it is driven over a link: its present request is sent, and is answered or lost.
ghost use Rattle.std.specs.Prelude.{◌≡◌, ◌+◌, ◌++◌, IfOk, OnOk, OnErr, None, Some, option_map};
ghost use Rattle.mega_two_driver.specs.Driver.{asks, taken};
ghost use Rattle.mega_two_turns.specs.Turns.{came_in, driving, is_due, requests, sends, start, proceeds_out};

use crate::messages::{reply_from, request_text};
use mega_base::{Bytes, NoMemory, NodeId};
use mega_link::{Link, Peer};
use mega_two_driver::Two;
use std::alloc::Global;

/// A change, the token of the last request that was sent, 0 before the first, and when the present one was sent, where
/// it is under way.
#[derive(Drop)]
pub struct Driving {
    pub two: Two,
    pub token: u64,
    pub since: Option<u64>,
}

/// Whether a request that was sent then is lost now.
fn is_due(patience: u64, since: u64, now: u64) -> bool
    ensures { result ≡ is_due patience since now }
{
    since <= now && patience <= (now - since) / 2
}

/// The token behind this one.
fn token_behind(token: u64) -> Result<u64, NoMemory>
    ensures { IfOk result (λ next. next ≡ token + 1) }
{
    match token.checked_add(1) {
        Some(next) => Ok(next),
        None => Err(NoMemory),
    }
}

/// Sends a node the present request of a change under a token, if it has one.
fn send<L: Link>(
    alloc: Global,
    node: u8,
    token: u64,
    two: &Two,
    link: &mut L,
) -> Result<(), NoMemory>
    ensures sent { OnOk result (L.sent link.new ≡ option_map (λ all. all ++ requests node token (asks two.now)) (L.sent link.old)) }
    ensures kept { OnErr result (L.sent link.new ≡ L.sent link.old) }
    ensures taken { L.taken link.new ≡ L.taken link.old }
    ensures faults { L.faults link.new ≡ L.faults link.old }
{
    match two.ask() {
        Some(json) => {
            let text = request_text(alloc, node, token, json)?;
            link.send(Peer::Node(NodeId(node)), text.as_slice())
        }
        None => Ok(()),
    }
}

impl Driving {
    /// A change of which nothing was sent yet.
    pub(crate) fn new(two: Two) -> Driving
        ensures { result ≡ start two }
    {
        Driving {
            two,
            token: 0,
            since: None,
        }
    }

    /// Sends the present request where it is not under way, and takes its loss where it is lost.
    pub(crate) fn go_out<L: Link>(
        &mut self,
        alloc: Global,
        node: u8,
        patience: u64,
        now: u64,
        link: &mut L,
    ) -> Result<(), NoMemory>
        ensures driven { OnOk result (self.new ≡ proceeds_out patience self.old now) }
        ensures sent { OnOk result (L.sent link.new ≡ option_map (λ all. all ++ sends node self.old) (L.sent link.old)) }
        ensures kept { OnErr result (L.sent link.new ≡ L.sent link.old) }
        ensures taken { L.taken link.new ≡ L.taken link.old }
        ensures faults { L.faults link.new ≡ L.faults link.old }
    {
        match self.since {
            None => {
                let token = token_behind(self.token)?;
                send(alloc, node, token, &self.two, link)?;
                self.token = token;
                self.since = Some(now);
                Ok(())
            }
            Some(since) => {
                self.lose(patience, since, now);
                Ok(())
            }
        }
    }

    /// Takes the loss of a request that was sent then, where it is lost now.
    fn lose(&mut self, patience: u64, since: u64, now: u64)
        requires { self.old.since ≡ Some since }
        ensures { self.new ≡ proceeds_out patience self.old now }
    {
        if is_due(patience, since, now) {
            let _done = self.two.lost();
            self.since = None;
        }
    }

    /// Takes a datagram, where it is the reply to the present request.
    pub(crate) fn come_in(
        &mut self,
        alloc: Global,
        node: u8,
        peer: Peer,
        bytes: &[u8],
    ) -> Result<(), NoMemory>
        ensures { OnOk result (self.new ≡ came_in node self.old (Some (peer, bytes.now))) }
    {
        if self.since.is_none() {
            return Ok(());
        }
        match reply_from(alloc, node, self.token, peer, bytes)? {
            Some(text) => self.answer(alloc, &text),
            None => Ok(()),
        }
    }

    /// Takes the reply to the present request.
    fn answer(&mut self, alloc: Global, text: &Bytes) -> Result<(), NoMemory>
        ensures { OnOk result (self.new ≡ driving (taken self.old.two text.now) self.old.token None) }
    {
        self.two.take(alloc, text.as_slice())?;
        self.since = None;
        Ok(())
    }
}
