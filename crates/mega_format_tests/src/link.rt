//! Links and clocks, in memory and of the system.
ghost use Rattle.std.specs.Prelude.{◌≡◌, ◌≤◌, length};

use crate::asserted::same;
use mega_base::{Bytes, NodeId, Text};
use mega_link::{Clock, Link, MemClock, MemLink, Outbox, Peer, StdClock, UdpLink};
use std::alloc::Global;
use std::net::{Net, UdpSocket};
use std::process::Abort;
use std::time::Clock as SystemClock;

const ROOM: usize = 65_507;

/// Room for one datagram.
fn room(rt: &impl Abort, alloc: Global) -> Vec<u8>
    ensures { length result.items ≡ 65507 }
{
    vec![in alloc; 0u8; ROOM].expect(rt, "no memory")
}

#[test]
fn a_link_in_memory_gives_its_items(rt: HostRuntime) {
    let bytes = Bytes::from_slice(rt.alloc(), b"ab").expect(&rt, "refused");
    let items = vec![in rt.alloc(); None, Some((Peer::Client(1), bytes))].expect(&rt, "refused");
    let mut link = MemLink::new(rt.alloc(), items);
    let mut buffer = room(&rt, rt.alloc());
    link.bind(NodeId(1), &[]).expect(&rt, "refused");
    let received = [
        link.receive(buffer.as_mut_slice()),
        link.receive(buffer.as_mut_slice()),
        link.receive(buffer.as_mut_slice()),
    ];
    same(&rt, received, [None, Some((Peer::Client(1), 2)), None]);
}

#[test]
fn an_outbox_sends_what_it_collects(rt: HostRuntime) {
    let mut outbox = Outbox::new(rt.alloc());
    let mut link = MemLink::new(rt.alloc(), Vec::new(rt.alloc()));
    outbox.send(Peer::Client(7), b"yz").expect(&rt, "refused");
    outbox.send_all(&mut link).expect(&rt, "refused");
    same(&rt, link.sent().len(), outbox.len());
    outbox.clear();
    same(&rt, outbox.is_empty(), true);
    same(&rt, outbox.as_slice().len(), 0);
}

#[test]
fn a_clock_in_memory_stays_at_its_last_reading(rt: HostRuntime) {
    let readings = vec![in rt.alloc(); 5, 60].expect(&rt, "no memory");
    let mut clock = MemClock::new(readings);
    let read = [clock.now(), clock.now(), clock.now()];
    same(&rt, read, [5, 60, 60]);
}

/// Sends a datagram from a socket to a link and back, and tells who the link takes the socket for.
fn exchange<R: Net + SystemClock + Drop>(
    rt: &impl Abort,
    link: &mut UdpLink<R>,
    socket: &UdpSocket,
    buffer: &mut [u8],
) -> Option<Peer>
    requires { 65507 ≤ length buffer.old }
{
    socket.send_to(b"ping", link.local_address()?).ok()?;
    let (peer, count) = link.receive(buffer)?;
    same(rt, &buffer[..count], b"ping".as_slice());
    link.send(peer, b"welcome").ok()?;
    let (count, _) = socket.recv_from(buffer).ok()?;
    same(rt, &buffer[..count], b"welcome".as_slice());
    Some(peer)
}

/// A socket of the loopback.
fn socket<R: Net + Abort>(rt: &R) -> UdpSocket {
    UdpSocket::bind(rt, "127.0.0.1:0").ok().expect(rt, "socket")
}

/// The address of a socket.
fn address(rt: &impl Abort, alloc: Global, socket: &UdpSocket) -> Text {
    let place = socket.local_addr().ok().expect(rt, "address");
    Text::from_string(place.to_string(alloc).expect(rt, "refused"))
}

#[test]
fn datagrams_cross_the_loopback(rt: HostRuntime) {
    let node = socket(&rt);
    let client = socket(&rt);
    let address = address(&rt, rt.alloc(), &node);
    let mut link = UdpLink::new(rt.alloc(), &rt);
    link.bind(NodeId(0), &[address]).expect(&rt, "refused");
    let mut buffer = room(&rt, rt.alloc());
    let first = exchange(&rt, &mut link, &node, buffer.as_mut_slice());
    same(&rt, first, Some(Peer::Node(NodeId(1))));
    let second = exchange(&rt, &mut link, &client, buffer.as_mut_slice());
    same(&rt, second, Some(Peer::Client(1)));
    same(&rt, link.receive(buffer.as_mut_slice()), None);
    let third = exchange(&rt, &mut link, &client, buffer.as_mut_slice());
    same(&rt, third, second);
    same(&rt, link.bind(NodeId(2), &[]).is_err(), true);
}

#[test]
fn the_clock_of_the_system_never_goes_back(rt: HostRuntime) {
    let mut clock = StdClock::new(&rt);
    let first = clock.now();
    let second = clock.now();
    assert!(rt; first <= second);
}
