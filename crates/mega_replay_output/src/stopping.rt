//! What waits and the last line of a stop, on their way to the sink.
ghost use Rattle.std.specs.Prelude.{◌≡◌, ◌≤◌, ◌⊎◌, ◌++◌};
ghost use Rattle.std.specs.Io.KnownBytes.{Appends};
ghost use Rattle.mega_base.specs.Causes.{Rose};
ghost use Rattle.mega_io.specs.Pieces.{AppendsFront};
ghost use Rattle.mega_replay_output.specs.LastLines.{last_line};
ghost use Rattle.mega_replay_output.specs.Stops.{IsTold, IsWriteStop};

use crate::status::Stop;
use crate::writing::write_on;
use mega_base::Bytes;
use mega_io::Sink;
use std::alloc::Global;

/// Writes what waits and the last line of the stop, and gives the stop that was met first. A stop that
/// has a last line is met once that is written; want of memory is told of before a fault of the source.
pub fn write_stop<O: Sink>(alloc: Global, stop: Stop, out: &mut O, waiting: &mut Bytes) -> Stop
    ensures told { IsTold result → (result ≡ stop) × Appends (O.held out.old) (O.held out.new) (waiting.old ++ last_line stop) }
    ensures front { AppendsFront (O.held out.old) (O.held out.new) (waiting.old ++ last_line stop) }
    ensures broken { result ≡ Stop.Source → (stop ≡ Stop.Source) × (Appends (O.held out.old) (O.held out.new) waiting.old ⊎ Rose (O.faults out.old) (O.faults out.new)) }
    ensures sink { result ≡ Stop.Sink → (stop ≡ Stop.Sink) ⊎ Rose (O.faults out.old) (O.faults out.new) }
    ensures count { O.faults out.old ≤ O.faults out.new }
{
    match stop.tell(alloc, waiting) {
        Ok(()) => {}
        Err(_) => {
            let _ = write_on(out, waiting);
            return Stop::NoMemory;
        }
    }
    match write_on(out, waiting) {
        Ok(()) => stop,
        Err(fault) => first_met(stop, fault),
    }
}

/// Of a stop and a later fault of writing, the one that was met first.
fn first_met(stop: Stop, fault: Stop) -> Stop
    requires { IsWriteStop fault }
    ensures untold { IsTold result → ⊥ }
    ensures source { result ≡ Stop.Source → (stop ≡ Stop.Source) × (fault ≡ Stop.Sink) }
    ensures sink { result ≡ Stop.Sink → (stop ≡ Stop.Sink) ⊎ (fault ≡ Stop.Sink) }
{
    match (stop, fault) {
        (Stop::Source, Stop::Sink) => stop,
        (Stop::Sink, _) => stop,
        _ => fault,
    }
}
