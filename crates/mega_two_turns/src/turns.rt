//! The turns in which a change is driven: in each one reading of the clock, and exactly one receive.
ghost use Rattle.std.specs.Prelude.{◌≡◌, ◌≤◌, ◌∷◌, [], ℕ, List, Option, length, take, true, IfOk, IfSome, OnOk, is_none};
ghost use Rattle.mega_link.specs.Datagrams.{Datagram, Gains, given};
ghost use Rattle.mega_two_turns.specs.declared.driving.Driving.{Driving as Drivings};
ghost use Rattle.mega_two_turns.specs.Turns.{Drives, IsWhole, came_in, ending, start};

use crate::driving::Driving;
use mega_base::NoMemory;
use mega_link::{Clock, Link, Peer};
use mega_two_driver::Two;
use std::alloc::Global;

/// The room that a receive asks for.
const ROOM: usize = 65_507;

/// Room for a datagram.
fn room_of(alloc: Global) -> Result<Vec<u8>, NoMemory>
    ensures { IfOk result (λ room. length room.items ≡ 65507) }
{
    Ok(vec![in alloc; 0u8; ROOM]?)
}

/// A datagram that is there, and how many of its bytes lie in the room.
fn hear<L: Link>(link: &mut L, room: &mut [u8]) -> Option<(Peer, usize)>
    requires { 65507 ≤ length room.old }
    ensures room { length room.new ≡ length room.old }
    ensures bound { IfSome result (λ found. found.1 ≤ length room.new) }
    ensures taken { Gains (L.taken link.old) (L.taken link.new) (given result room.new) }
    ensures sent { L.sent link.new ≡ L.sent link.old }
    ensures faults { L.faults link.new ≡ L.faults link.old }
{
    link.receive(room)
}

/// The first so many bytes.
fn front(room: &[u8], count: usize) -> &[u8]
    requires { count ≤ length room.now }
    ensures { result.now ≡ take count room.now }
{
    let (bytes, _rest) = room.split_at(count);
    bytes
}

/// Takes what a receive gives, if anything.
fn receive<L: Link>(
    alloc: Global,
    node: u8,
    driving: &mut Driving,
    room: &mut [u8],
    link: &mut L,
) -> Result<(), NoMemory>
    requires { 65507 ≤ length room.old }
    ensures room { length room.new ≡ length room.old }
    ensures driven { OnOk result ((got : Option Datagram) × (Gains (L.taken link.old) (L.taken link.new) got × (driving.new ≡ came_in node driving.old got))) }
    ensures sent { L.sent link.new ≡ L.sent link.old }
    ensures faults { L.faults link.new ≡ L.faults link.old }
{
    match hear(link, room) {
        Some(found) => driving.come_in(alloc, node, found.0, front(room, found.1)),
        None => Ok(()),
    }
}

/// One turn: a reading of the clock, by which a request is sent or lost, and one receive.
fn turn<L: Link, C: Clock>(
    alloc: Global,
    node: u8,
    patience: u64,
    driving: &mut Driving,
    room: &mut [u8],
    link: &mut L,
    clock: &mut C,
) -> Result<(), NoMemory>
    requires { 65507 ≤ length room.old }
    ensures room { length room.new ≡ length room.old }
    ensures driven { OnOk result (is_none (ending driving.old.two) ≡ true → (one : ℕ × Option Datagram) × Drives node patience driving.old driving.new (C.readings clock.old) (C.readings clock.new) (L.taken link.old) (L.taken link.new) (L.sent link.old) (L.sent link.new) (one ∷ [])) }
    ensures faults { L.faults link.new ≡ L.faults link.old }
{
    let now = clock.now();
    driving.go_out(alloc, node, patience, now, link)?;
    receive(alloc, node, driving, room, link)
}

/// So many turns, or fewer where the change ends before.
fn turn_often<L: Link, C: Clock>(
    alloc: Global,
    node: u8,
    patience: u64,
    turns: u64,
    driving: &mut Driving,
    room: &mut [u8],
    link: &mut L,
    clock: &mut C,
) -> Result<(), NoMemory>
    requires { 65507 ≤ length room.old }
    ensures driven { OnOk result ((given : List (ℕ × Option Datagram)) × (Drives node patience driving.old driving.new (C.readings clock.old) (C.readings clock.new) (L.taken link.old) (L.taken link.new) (L.sent link.old) (L.sent link.new) given × IsWhole turns driving.new.two given)) }
    ensures faults { L.faults link.new ≡ L.faults link.old }
{
    let mut done = 0;
    while done < turns && driving.two.ended().is_none() {
        turn(alloc, node, patience, driving, room, link, clock)?;
        done += 1;
    }
    Ok(())
}

/// Drives a change for so many turns, or until it ends. Its requests go to a node, one at a time; one is lost where twice the patience
/// passed since it was sent.
pub fn drive<L: Link, C: Clock>(
    alloc: Global,
    node: u8,
    patience: u64,
    turns: u64,
    two: Two,
    link: &mut L,
    clock: &mut C,
) -> Result<Two, NoMemory>
    ensures driven { IfOk result (λ last. (given : List (ℕ × Option Datagram)) × ((end : Drivings) × (Drives node patience (start two) end (C.readings clock.old) (C.readings clock.new) (L.taken link.old) (L.taken link.new) (L.sent link.old) (L.sent link.new) given × (end.two ≡ last) × IsWhole turns last given))) }
    ensures faults { L.faults link.new ≡ L.faults link.old }
{
    let mut room = room_of(alloc)?;
    let mut driving = Driving::new(two);
    turn_often(
        alloc,
        node,
        patience,
        turns,
        &mut driving,
        room.as_mut_slice(),
        link,
        clock,
    )?;
    let Driving { two, .. } = driving;
    Ok(two)
}
