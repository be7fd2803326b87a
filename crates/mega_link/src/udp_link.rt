//! A link over UDP, between addresses of nodes and of clients.
ghost use Rattle.std.specs.Prelude.{◌≡◌, ◌≤◌, length, IfSome, None};

use crate::link::Link;
use crate::peer::{Failed, Peer};
use indexmap::IndexSet;
use mega_base::{NoMemory, NodeId, Text};
use std::alloc::Global;
use std::net::{Ipv4Addr, Net, SocketAddr, ToSocketAddrs, UdpSocket};
use std::time::{Clock as SystemClock, Duration, Instant};
use std::{io, thread};

/// How many milliseconds a receive waits. The system rounds them up to its own ticks, and they stay below
/// 10 then.
const WAIT: u64 = 4;

/// How many microseconds a receive polls before it waits, where the one before gave something.
const SPIN: u64 = 50;

/// How often it polls at most.
const MOST_POLLS: u32 = 1_000;

/// A link over UDP. A datagram from no address of a node is a client's. Number 0 is no node: it is bound to
/// a free port of the loopback address.
#[derive(Drop)]
pub struct UdpLink<R> {
    system: R,
    socket: Option<UdpSocket>,
    /// Whether the next receive polls before it waits. The socket does not block then.
    polls: bool,
    nodes: [Option<SocketAddr>; 9],
    clients: IndexSet<SocketAddr>,
    faults: u64,
}

/// The first address that a text stands for.
fn resolve<R: Net>(system: &R, address: &Text) -> Option<SocketAddr> {
    address.as_str().to_socket_addrs(system).ok()?.next()
}

/// The addresses of the nodes, by node from 1, or `None` where one stands for no address.
fn resolve_all<R: Net>(system: &R, addresses: &[Text]) -> Option<[Option<SocketAddr>; 9]> {
    let mut nodes = [None; 9];
    for (node, address) in nodes.iter_mut().zip(addresses) {
        *node = Some(resolve(system, address)?);
    }
    Some(nodes)
}

/// A socket at this address, whose receives wait for a short time.
fn listen<R: Net>(system: &R, at: SocketAddr) -> io::Result<UdpSocket> {
    let socket = UdpSocket::bind(system, at)?;
    socket.set_read_timeout(Some(Duration::from_millis(WAIT)))?;
    Ok(socket)
}

/// Whether the polls that began at this time are to end.
fn is_over<R: SystemClock>(system: &R, begun: Instant) -> bool {
    match begun.elapsed(system) {
        Ok(elapsed) => elapsed >= Duration::from_micros(SPIN),
        Err(_) => true,
    }
}

/// What comes within a short time to a socket that does not block. Between two polls others may have the processor.
fn poll<R: SystemClock>(
    system: &R,
    socket: &UdpSocket,
    into: &mut [u8],
) -> Option<(usize, SocketAddr)>
    ensures { IfSome result (λ found. found.0 ≤ length into.new) }
{
    let begun = Instant::now(system).ok()?;
    for _ in 0..MOST_POLLS {
        if let Ok(found) = socket.recv_from(into) {
            return Some(found);
        }
        if is_over(system, begun) {
            return None;
        }
        thread::yield_now();
    }
    None
}

impl<R: Net + SystemClock + Drop> UdpLink<R> {
    /// A link that is not bound. It takes no memory.
    pub fn new(alloc: Global, system: R) -> UdpLink<R>
        ensures { ⟦<UdpLink<R> as Link>⟧.faults result ≡ 0 }
    {
        UdpLink {
            system,
            socket: None,
            polls: false,
            nodes: [None; 9],
            clients: IndexSet::new(alloc),
            faults: 0,
        }
    }

    /// Where the link listens, once it is bound.
    pub fn local_address(&self) -> Option<SocketAddr> {
        self.socket.as_ref()?.local_addr().ok()
    }

    /// The address of a peer.
    fn address_of(&self, peer: Peer) -> Option<SocketAddr> {
        match peer {
            Peer::Node(node) => *self.nodes.get(usize::from(node.0).checked_sub(1)?)?,
            Peer::Client(client) => {
                let index = client.checked_sub(1)? as usize;
                self.clients.get_index(index).copied()
            }
        }
    }

    /// The peer at an address: a node, or else a client, which is new where it was not seen before.
    fn peer_at(&mut self, address: SocketAddr) -> Option<Peer>
        ensures { self.new.faults ≡ self.old.faults }
    {
        for (index, node) in self.nodes.iter().enumerate() {
            if *node == Some(address) {
                return Some(Peer::Node(NodeId(index as u8 + 1)));
            }
        }
        let (index, _) = self.clients.insert_full(address).ok()?;
        let client = u32::try_from(index).ok()?.checked_add(1)?;
        Some(Peer::Client(client))
    }

    /// Listens at the address of the node `own`, where all addresses stand for one.
    fn open(&mut self, own: NodeId, addresses: &[Text]) -> Option<()>
        ensures { self.new.faults ≡ self.old.faults }
    {
        self.nodes = resolve_all(&self.system, addresses)?;
        let at = if own.0 == 0 {
            SocketAddr::from((Ipv4Addr::LOCALHOST, 0))
        } else {
            self.address_of(Peer::Node(own))?
        };
        self.socket = Some(listen(&self.system, at).ok()?);
        self.polls = false;
        Some(())
    }

    /// What the socket gives: while datagrams come at short distances by polls, and else by a wait.
    fn take(&mut self, into: &mut [u8]) -> Option<(usize, SocketAddr)>
        ensures faults { self.new.faults ≡ self.old.faults }
        ensures bound { IfSome result (λ found. found.0 ≤ length into.new) }
    {
        let socket = self.socket.as_ref()?;
        if self.polls {
            if let Some(found) = poll(&self.system, socket, into) {
                return Some(found);
            }
            self.polls = socket.set_nonblocking(false).is_err();
        }
        let found = socket.recv_from(into).ok()?;
        self.polls = socket.set_nonblocking(true).is_ok();
        Some(found)
    }
}

impl<R: Net + SystemClock + Drop> Link for UdpLink<R> {
    ghost faults = { λ link. link.faults };

    ghost taken = { λ _. None };

    ghost sent = { λ _. None };

    fn bind(&mut self, own: NodeId, addresses: &[Text]) -> Result<(), Failed> {
        if self.open(own, addresses).is_some() {
            return Ok(());
        }
        self.faults = self.faults.saturating_add(1);
        Err(Failed)
    }

    fn send(&mut self, to: Peer, bytes: &[u8]) -> Result<(), NoMemory> {
        if let (Some(socket), Some(address)) = (&self.socket, self.address_of(to)) {
            let _ = socket.send_to(bytes, address);
        }
        Ok(())
    }

    fn receive(&mut self, into: &mut [u8]) -> Option<(Peer, usize)> {
        let (count, from) = self.take(into)?;
        let peer = self.peer_at(from)?;
        Some((peer, count))
    }
}
