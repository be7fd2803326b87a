//! The node that the words ask for, over its socket.
ghost use Rattle.std.specs.Prelude.{◌≡◌, ◌≤◌};
ghost use Rattle.mega_base.specs.Causes.{Rose};
ghost use Rattle.mega_meanings.specs.BuiltIn.{built_in};
ghost use Rattle.mega_node.specs.Calls.{AtHandlers};
ghost use Rattle.mega_node.specs.Outside.{told_by};
ghost use Rattle.mega_replay.specs.Run.{HasRunNode};
ghost use Rattle.mega_replay.specs.Statuses.{IsNodeStatus};

use crate::ended::Ended;
use mega_disk::{Disk, Pair};
use mega_io::{Sink, Source};
use mega_link::{Clock, Link};
use mega_meanings::{BuiltIn, QueueHandlers};
use mega_node::mega_server::Number;
use mega_node::run_node;
use std::alloc::Global;

/// Runs a node, and gives the status with which the program then ends.
fn serve_with<I: Source, O: Sink, D: Disk + Drop, L: Link, C: Clock, H: QueueHandlers + Drop>(
    alloc: Global,
    number: Number,
    turns: u64,
    input: &mut I,
    out: &mut O,
    devices: Pair<D>,
    link: &mut L,
    clock: &mut C,
    handlers: H,
) -> Ended<D>
    ensures node { AtHandlers (H.meant handlers) (λ h. HasRunNode D.Disk h number.of turns (I.left input.old) (I.left input.new) devices result.devices (told_by L.Link C.Clock O.Sink link.old clock.old out.old) (told_by L.Link C.Clock O.Sink link.new clock.new out.new) result.status) }
    ensures source { result.status ≡ 5 → Rose (I.faults input.old) (I.faults input.new) }
    ensures sink { result.status ≡ 6 → Rose (O.faults out.old) (O.faults out.new) }
    ensures link { result.status ≡ 9 → Rose (L.faults link.old) (L.faults link.new) }
    ensures only { IsNodeStatus result.status }
    ensures inputs { I.faults input.old ≤ I.faults input.new }
    ensures outs { O.faults out.old ≤ O.faults out.new }
{
    let outcome = run_node(
        alloc, number, turns, input, out, devices, link, clock, handlers,
    );
    Ended {
        status: outcome.status(),
        devices: outcome.devices,
    }
}

/// Runs a node with the handlers that the store brings.
pub fn serve_node<I: Source, O: Sink, D: Disk + Drop, L: Link, C: Clock>(
    alloc: Global,
    number: Number,
    turns: u64,
    input: &mut I,
    out: &mut O,
    devices: Pair<D>,
    link: &mut L,
    clock: &mut C,
) -> Ended<D>
    ensures node { HasRunNode D.Disk built_in number.of turns (I.left input.old) (I.left input.new) devices result.devices (told_by L.Link C.Clock O.Sink link.old clock.old out.old) (told_by L.Link C.Clock O.Sink link.new clock.new out.new) result.status }
    ensures source { result.status ≡ 5 → Rose (I.faults input.old) (I.faults input.new) }
    ensures sink { result.status ≡ 6 → Rose (O.faults out.old) (O.faults out.new) }
    ensures link { result.status ≡ 9 → Rose (L.faults link.old) (L.faults link.new) }
    ensures only { IsNodeStatus result.status }
    ensures inputs { I.faults input.old ≤ I.faults input.new }
    ensures outs { O.faults out.old ≤ O.faults out.new }
{
    let handlers = BuiltIn::new();
    serve_with(
        alloc, number, turns, input, out, devices, link, clock, handlers,
    )
}
