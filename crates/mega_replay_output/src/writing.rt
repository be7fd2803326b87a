//! What a replay tells of its tape, on its way to the sink.
ghost use Rattle.std.specs.Prelude.{◌≡◌, ◌≤◌, ◌++◌, [], Ok, Err, IfErr, List, OnOk, OnErr, All};
ghost use Rattle.std.specs.Io.KnownBytes.{Appends};
ghost use Rattle.mega_base.specs.Causes.{Rose};
ghost use Rattle.mega_io.specs.Pieces.{AppendsFront};
ghost use Rattle.mega_tally.specs.Counting.{Counts};
ghost use Rattle.mega_transcript.specs.declared.item.Item.{Item as OnTape};
ghost use Rattle.mega_transcript.specs.Lines.{HasLine, line as line_of, lines as text_of};
ghost use Rattle.mega_replay_output.specs.Progress.{Writes, WritesFront};
ghost use Rattle.mega_replay_output.specs.Stops.{IsWriteStop};
ghost use Rattle.mega_replay_output.specs.Texts.{IsTallied, at_end, so_far};

use crate::status::Stop;
use mega_base::Bytes;
use mega_io::{Sink, SinkError, put};
use mega_schema::Schema;
use mega_tally::Tally;
use mega_transcript::{Item, text};
use mega_words::Report;
use std::alloc::Global;

/// How many bytes wait before they are written on.
const PIECE: usize = 65_536;

/// Writes on all that waits. After a refusal a front of it was written. Then nothing waits.
pub fn write_on<O: Sink>(out: &mut O, waiting: &mut Bytes) -> Result<(), Stop>
    ensures ok { OnOk result (Appends (O.held out.old) (O.held out.new) waiting.old) }
    ensures err { OnErr result (AppendsFront (O.held out.old) (O.held out.new) waiting.old) }
    ensures empty { waiting.new ≡ [] }
    ensures sink { result ≡ Err Stop.Sink → Rose (O.faults out.old) (O.faults out.new) }
    ensures only { IfErr result IsWriteStop }
    ensures count { O.faults out.old ≤ O.faults out.new }
{
    let written = put(out, waiting.as_slice());
    waiting.clear();
    match written {
        Ok(()) => Ok(()),
        Err(SinkError::Failed) => Err(Stop::Sink),
        Err(SinkError::NoMemory) => Err(Stop::NoMemory),
    }
}

/// Writes on what waits, where that is a whole piece.
pub fn write_piece<O: Sink>(out: &mut O, waiting: &mut Bytes) -> Result<(), Stop>
    ensures ok { OnOk result (Writes (O.held out.old) (O.held out.new) waiting.new waiting.old) }
    ensures err { OnErr result (WritesFront (O.held out.old) (O.held out.new) waiting.new waiting.old) }
    ensures sink { result ≡ Err Stop.Sink → Rose (O.faults out.old) (O.faults out.new) }
    ensures only { IfErr result IsWriteStop }
    ensures count { O.faults out.old ≤ O.faults out.new }
{
    if waiting.len() < PIECE {
        return Ok(());
    }
    match write_on(out, waiting) {
        Ok(()) => Ok(()),
        Err(stop) => Err(stop),
    }
}

/// Writes the lines of items.
fn write_lines<O: Sink>(
    alloc: Global,
    schema: &Schema,
    items: &[Item],
    out: &mut O,
    waiting: &mut Bytes,
) -> Result<(), Stop>
    requires { All HasLine items.now }
    ensures text { OnOk result (Writes (O.held out.old) (O.held out.new) waiting.new (waiting.old ++ text_of schema.now items.now)) }
    ensures cut { OnErr result (WritesFront (O.held out.old) (O.held out.new) waiting.new (waiting.old ++ text_of schema.now items.now)) }
    ensures sink { result ≡ Err Stop.Sink → Rose (O.faults out.old) (O.faults out.new) }
    ensures only { IfErr result IsWriteStop }
    ensures count { O.faults out.old ≤ O.faults out.new }
{
    for item in items {
        match write_item(alloc, schema, item, out, waiting) {
            Ok(()) => {}
            Err(stop) => return Err(stop),
        }
    }
    Ok(())
}

/// Counts items, which come behind those that were counted before.
fn count_items(alloc: Global, items: &[Item], tally: &mut Tally) -> Result<(), Stop>
    ensures counts { OnOk result ((before : List OnTape) → Counts tally.old before → Counts tally.new (before ++ items.now)) }
    ensures only { IfErr result (λ stop. stop ≡ Stop.NoMemory) }
{
    for item in items {
        match tally.count(alloc, item) {
            Ok(()) => {}
            Err(_) => return Err(Stop::NoMemory),
        }
    }
    Ok(())
}

/// Tells what came onto the tape: a transcript has its lines, and for a summary it is counted.
#[tactic(auto, using(crate::proofs::Progress::nothing_added))]
pub fn tell<O: Sink>(
    alloc: Global,
    report: Report,
    schema: &Schema,
    items: &[Item],
    tally: &mut Tally,
    out: &mut O,
    waiting: &mut Bytes,
) -> Result<(), Stop>
    requires { All HasLine items.now }
    ensures text { OnOk result (Writes (O.held out.old) (O.held out.new) waiting.new (waiting.old ++ so_far report schema.now items.now)) }
    ensures tallied { OnOk result ((before : List OnTape) → IsTallied report tally.old before → IsTallied report tally.new (before ++ items.now)) }
    ensures cut { OnErr result (WritesFront (O.held out.old) (O.held out.new) waiting.new (waiting.old ++ so_far report schema.now items.now)) }
    ensures sink { result ≡ Err Stop.Sink → Rose (O.faults out.old) (O.faults out.new) }
    ensures only { IfErr result IsWriteStop }
    ensures count { O.faults out.old ≤ O.faults out.new }
{
    match report {
        Report::Transcript => write_lines(alloc, schema, items, out, waiting),
        Report::Summary => count_items(alloc, items, tally),
    }
}

/// Adds what the report has at the end of a replay of so many lines: a summary is all there.
pub fn write_end(report: Report, tally: &Tally, lines: u64, waiting: &mut Bytes) -> Result<(), Stop>
    ensures ok { OnOk result ((items : List OnTape) → IsTallied report tally.now items → waiting.new ≡ waiting.old ++ at_end report items lines) }
    ensures err { OnErr result (waiting.new ≡ waiting.old) }
    ensures only { IfErr result (λ stop. stop ≡ Stop.NoMemory) }
{
    match report {
        Report::Transcript => Ok(()),
        Report::Summary => match tally.tell(lines, waiting) {
            Ok(()) => Ok(()),
            Err(_) => Err(Stop::NoMemory),
        },
    }
}

/// Writes the line of an item.
fn write_item<O: Sink>(
    alloc: Global,
    schema: &Schema,
    item: &Item,
    out: &mut O,
    waiting: &mut Bytes,
) -> Result<(), Stop>
    requires { HasLine item.now }
    ensures text { OnOk result (Writes (O.held out.old) (O.held out.new) waiting.new (waiting.old ++ line_of schema.now item.now)) }
    ensures cut { OnErr result (WritesFront (O.held out.old) (O.held out.new) waiting.new (waiting.old ++ line_of schema.now item.now)) }
    ensures sink { result ≡ Err Stop.Sink → Rose (O.faults out.old) (O.faults out.new) }
    ensures only { IfErr result IsWriteStop }
    ensures count { O.faults out.old ≤ O.faults out.new }
{
    match write_piece(out, waiting) {
        Ok(()) => {}
        Err(stop) => return Err(stop),
    }
    match text(alloc, schema, item, waiting) {
        Ok(()) => Ok(()),
        Err(_) => Err(Stop::NoMemory),
    }
}
