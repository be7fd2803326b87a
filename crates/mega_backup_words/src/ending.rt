//! How the program ends: a stop's last line is written, and its status is given.
ghost use Rattle.std.specs.Prelude.{◌≡◌, ◌≤◌, ◌⊎◌, List, ℕ, Option, false};
ghost use Rattle.std.specs.Io.KnownBytes.{Appends};
ghost use Rattle.mega_base.specs.Causes.{Rose};
ghost use Rattle.mega_io.specs.Pieces.{AppendsFront};
ghost use Rattle.mega_backup_words.specs.Endings.{Ending, Ends, EndsBy, end_status, is_cut, status_of};

use crate::stop::Stop;
use mega_io::{Sink, SinkError, put};
use std::alloc::Global;

/// Writes a last line, and gives this status where the sink took it.
#[tactic(auto, using(crate::proofs::Endings::all_front))]
fn write_last<O: Sink>(status: u8, line: &[u8], out: &mut O) -> u8
    ensures whole { is_cut result ≡ false → (result ≡ status) × Appends (O.held out.old) (O.held out.new) line.now }
    ensures front { AppendsFront (O.held out.old) (O.held out.new) line.now }
    ensures status { (result ≡ status) ⊎ (result ≡ 6) ⊎ (result ≡ 8) }
    ensures sink { result ≡ 6 → (status ≡ 6) ⊎ Rose (O.faults out.old) (O.faults out.new) }
    ensures count { O.faults out.old ≤ O.faults out.new }
{
    match put(out, line) {
        Ok(()) => status,
        Err(SinkError::Failed) => 6,
        Err(SinkError::NoMemory) => 8,
    }
}

/// Writes the last line of a stop, where it has one, and gives its status.
fn tell<O: Sink>(alloc: Global, stop: &Stop, out: &mut O) -> u8
    ensures whole { is_cut result ≡ false → (ending : Ending) (before : Option (List ℕ)) → EndsBy ending before (O.held out.old) stop.now → (result ≡ ending.status) × Appends before (O.held out.new) ending.text }
    ensures front { (ending : Ending) (before : Option (List ℕ)) → EndsBy ending before (O.held out.old) stop.now → AppendsFront before (O.held out.new) ending.text }
    ensures status { (result ≡ status_of stop.now) ⊎ (result ≡ 6) ⊎ (result ≡ 8) }
    ensures sink { result ≡ 6 → (status_of stop.now ≡ 6) ⊎ Rose (O.faults out.old) (O.faults out.new) }
    ensures count { O.faults out.old ≤ O.faults out.new }
{
    match stop.last_line(alloc) {
        Ok(line) => write_last(stop.status(), line.as_slice(), out),
        Err(_) => 8,
    }
}

/// Ends the program: a stop's last line is written, where it has one, and the status is given.
pub fn finish<O: Sink>(alloc: Global, ended: Result<(), Stop>, out: &mut O) -> u8
    ensures whole { is_cut result ≡ false → (ending : Ending) (before : Option (List ℕ)) → Ends ending before (O.held out.old) ended → (result ≡ ending.status) × Appends before (O.held out.new) ending.text }
    ensures front { (ending : Ending) (before : Option (List ℕ)) → Ends ending before (O.held out.old) ended → AppendsFront before (O.held out.new) ending.text }
    ensures status { (result ≡ end_status ended) ⊎ (result ≡ 6) ⊎ (result ≡ 8) }
    ensures sink { result ≡ 6 → (end_status ended ≡ 6) ⊎ Rose (O.faults out.old) (O.faults out.new) }
    ensures count { O.faults out.old ≤ O.faults out.new }
{
    match ended {
        Ok(()) => 0,
        Err(stop) => tell(alloc, &stop, out),
    }
}
