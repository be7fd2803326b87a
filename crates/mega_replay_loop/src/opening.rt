//! The nodes of a cluster that was read start.
ghost use Rattle.std.specs.Prelude.{◌≡◌, [], All, IfErr, IfOk, OnOk};
ghost use Rattle.mega_transcript.specs.Lines.{HasLine};
ghost use Rattle.mega_transcript.specs.Tape.{newest};
ghost use Rattle.mega_replay_loop.specs.Known.{IsRead};
ghost use Rattle.mega_line_events.specs.Running.{StandsAfter, stood};
ghost use Rattle.mega_replay_output.specs.Stops.{IsOpeningStop};

use mega_cluster::Cluster;
use mega_line_events::mega_world::World;
use mega_replay_output::Stop;
use mega_transcript::Tape;
use std::alloc::Global;

/// Starts the nodes of a cluster, and puts that on the tape, which is empty before.
pub fn opened(alloc: Global, cluster: &Cluster, tape: &mut Tape) -> Result<World, Stop>
    requires read { IsRead cluster.now }
    requires tape { tape.old.items ≡ [] }
    ensures state { IfOk result (λ world. StandsAfter cluster.now [] [] world) }
    ensures tape { OnOk result (tape.new.items ≡ newest (stood cluster.now []).tape) }
    ensures lines { OnOk result (All HasLine tape.new.items) }
    ensures only { IfErr result IsOpeningStop }
{
    match World::new(alloc, cluster, tape) {
        Ok(world) => Ok(world),
        Err(_) => Err(Stop::NoMemory),
    }
}
