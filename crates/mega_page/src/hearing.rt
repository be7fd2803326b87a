//! One receive of a link.
ghost use Rattle.std.specs.Prelude.{◌≡◌, ◌≤◌, length, IfSome};
ghost use Rattle.mega_link.specs.Datagrams.{Gains, given};

use mega_link::{Link, Peer};

/// A datagram that is there, and how many of its bytes lie in the room.
pub fn hear<L: Link>(link: &mut L, room: &mut [u8]) -> Option<(Peer, usize)>
    requires { 65507 ≤ length room.old }
    ensures room { length room.new ≡ length room.old }
    ensures bound { IfSome result (λ found. found.1 ≤ length room.new) }
    ensures taken { Gains (L.taken link.old) (L.taken link.new) (given result room.new) }
    ensures sent { L.sent link.new ≡ L.sent link.old }
{
    link.receive(room)
}
