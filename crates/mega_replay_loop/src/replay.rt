//! A replay: the header, then the lines of the schedule, one after another.
ghost use Rattle.std.specs.Prelude.{◌≡◌, ◌≤◌, ◌++◌, ◌+◌, ◌⊎◌, [], ℕ, List, Option, Ok, Err, IfErr, OnOk, OnErr, IfOk, true, false};
ghost use Rattle.std.specs.Io.KnownBytes.{prepend_known, IsAtEnd};
ghost use Rattle.mega_base.specs.Causes.{Rose};
ghost use Rattle.mega_io.specs.TextLines.{BreaksOff};
ghost use Rattle.mega_meanings.specs.BuiltIn.{built_in};
ghost use Rattle.mega_meanings.specs.Means.{Means};
ghost use Rattle.mega_transcript.specs.Tape.{newest};
ghost use Rattle.mega_schedule.specs.Events.{event_of};
ghost use Rattle.mega_line_events.specs.of_promises.Runs.{Happening};
ghost use Rattle.mega_replay_output.specs.Progress.{Writes, WritesFront};
ghost use Rattle.mega_line_events.specs.Running.{StandsAfter, IsStanding, stood};
ghost use Rattle.mega_line_events.specs.Refusals.{IsRefused, IsPastLast};
ghost use Rattle.mega_replay_loop.specs.Replaying.{text_at};
ghost use Rattle.mega_header.specs.Known.{Ends, Follows};
ghost use Rattle.mega_replay_loop.specs.Known.{StopsNext, LeftRanOut, LeftIsDone, LeftIsBegun, LeftStops, LeftFails, CutsLine, DoesLine, IsRead, InputDone, InputBegun, InputBroken, InputFailed, InputNoEvent, InputRefused, InputPastLast};
ghost use Rattle.mega_replay_output.specs.Stops.{IsBeforeWriting, IsScheduleStop};
ghost use Rattle.mega_replay_output.specs.Texts.{IsTallied};

use crate::heading::read_header;
use crate::input::{Next, next_line};
use crate::opening::opened;
use mega_base::{Bytes, Items};
use mega_cluster::Cluster;
use mega_io::{LineReader, Sink, Source};
use mega_line_events::mega_world::World;
use mega_line_events::take_line;
use mega_meanings::QueueHandlers;
use mega_replay_output::{Stop, tell, write_end};
use mega_tally::Tally;
use mega_transcript::Tape;
use mega_words::Report;
use std::alloc::Global;

/// How many lines a schedule may have.
const LINES: u64 = 1_000_000;

/// Does the next line of the schedule and tells what happened, or tells that there is none.
fn do_line<I: Source, O: Sink, H: QueueHandlers>(
    alloc: Global,
    report: Report,
    cluster: &Cluster,
    handlers: &mut H,
    reader: &mut LineReader,
    input: &mut I,
    line: &mut Bytes,
    number: u64,
    world: &mut World,
    tally: &mut Tally,
    out: &mut O,
    waiting: &mut Bytes,
) -> Result<bool, Stop>
    requires meant { Means (H.meant handlers.old) built_in }
    requires standing { IsStanding cluster.now world.old }
    ensures step { result ≡ Ok true → DoesLine report cluster.now number (prepend_known reader.old (I.left input.old)) (prepend_known reader.new (I.left input.new)) line.new world.old world.new tally.old tally.new (Writes (O.held out.old) (O.held out.new) waiting.new) waiting.old }
    ensures still { result ≡ Ok false → (tally.new ≡ tally.old) × (O.held out.new ≡ O.held out.old) × (waiting.new ≡ waiting.old) }
    ensures handlers { H.meant handlers.new ≡ H.meant handlers.old }
    ensures end { result ≡ Ok false → Ends (prepend_known reader.old (I.left input.old)) × IsAtEnd (I.left input.new) }
    ensures none { (at reason : ℕ) → result ≡ Err (Stop.Schedule at reason) → (at ≡ number) × StopsNext (prepend_known reader.old (I.left input.old)) (λ line. event_of (cluster.now).schema number line ≡ Err reason) }
    ensures limit { (at : ℕ) → result ≡ Err (Stop.Limit at) → (done : List (List ℕ)) (events : List Happening) → StandsAfter cluster.now done events world.old → (at ≡ number) × StopsNext (prepend_known reader.old (I.left input.old)) (λ line. IsPastLast cluster.now number line (stood cluster.now events)) }
    ensures refused { (at why : ℕ) → result ≡ Err (Stop.Refused at why) → (done : List (List ℕ)) (events : List Happening) → StandsAfter cluster.now done events world.old → (at ≡ number) × StopsNext (prepend_known reader.old (I.left input.old)) (λ line. IsRefused cluster.now number line (stood cluster.now events) why) }
    ensures kept { IfErr result (λ stop. IsBeforeWriting stop → (O.held out.new ≡ O.held out.old) × (waiting.new ≡ waiting.old)) }
    ensures cut { OnErr result ((done : List (List ℕ)) (events : List Happening) → StandsAfter cluster.now done events world.old → CutsLine report cluster.now number (prepend_known reader.old (I.left input.old)) (prepend_known reader.new (I.left input.new)) line.new events world.new (WritesFront (O.held out.old) (O.held out.new) waiting.new) waiting.old) }
    ensures fault { result ≡ Err Stop.Source → BreaksOff (prepend_known reader.old (I.left input.old)) reader.new (I.left input.new) line.new }
    ensures source { result ≡ Err Stop.Source → Rose (I.faults input.old) (I.faults input.new) }
    ensures sink { result ≡ Err Stop.Sink → Rose (O.faults out.old) (O.faults out.new) }
    ensures only { IfErr result IsScheduleStop }
    ensures inputs { I.faults input.old ≤ I.faults input.new }
    ensures outs { O.faults out.old ≤ O.faults out.new }
{
    match next_line(reader, input, line) {
        Ok(Next::Line) => {}
        Ok(Next::End) => return Ok(false),
        Ok(Next::Long) => return Err(Stop::Schedule {
            line: number,
            reason: 7,
        }),
        Err(stop) => return Err(stop),
    }
    let added = match take_line(alloc, cluster, handlers, number, line.as_slice(), world) {
        Ok(added) => added,
        Err(stop) => return Err(stop),
    };
    match tell(
        alloc,
        report,
        &cluster.schema,
        added.items.as_slice(),
        tally,
        out,
        waiting,
    ) {
        Ok(()) => Ok(true),
        Err(stop) => Err(stop),
    }
}

/// Does the lines of the schedule, to the input's end, and gives how many they were.
fn run_lines<I: Source, O: Sink, H: QueueHandlers>(
    alloc: Global,
    report: Report,
    cluster: &Cluster,
    handlers: &mut H,
    reader: &mut LineReader,
    input: &mut I,
    line: &mut Bytes,
    world: &mut World,
    tally: &mut Tally,
    out: &mut O,
    waiting: &mut Bytes,
) -> Result<u64, Stop>
    requires meant { Means (H.meant handlers.old) built_in }
    requires standing { StandsAfter cluster.now [] [] world.old }
    requires tallied { IsTallied report tally.old (newest (stood cluster.now []).tape) }
    ensures done { IfOk result (λ count. (first : Option (List ℕ)) → Writes first (O.held out.old) waiting.old (text_at report cluster.now []) → LeftRanOut report cluster.now (prepend_known reader.old (I.left input.old)) tally.new count (Writes first (O.held out.new) waiting.new)) }
    ensures end { OnOk result (IsAtEnd (I.left input.new)) }
    ensures none { (at reason : ℕ) → result ≡ Err (Stop.Schedule at reason) → (first : Option (List ℕ)) → Writes first (O.held out.old) waiting.old (text_at report cluster.now []) → LeftStops report cluster.now (prepend_known reader.old (I.left input.old)) at (λ line now. event_of (cluster.now).schema at line ≡ Err reason) (Writes first (O.held out.new) waiting.new) }
    ensures limit { (at : ℕ) → result ≡ Err (Stop.Limit at) → (first : Option (List ℕ)) → Writes first (O.held out.old) waiting.old (text_at report cluster.now []) → LeftStops report cluster.now (prepend_known reader.old (I.left input.old)) at (λ line now. IsPastLast cluster.now at line now) (Writes first (O.held out.new) waiting.new) }
    ensures refused { (at why : ℕ) → result ≡ Err (Stop.Refused at why) → (first : Option (List ℕ)) → Writes first (O.held out.old) waiting.old (text_at report cluster.now []) → LeftStops report cluster.now (prepend_known reader.old (I.left input.old)) at (λ line now. IsRefused cluster.now at line now why) (Writes first (O.held out.new) waiting.new) }
    ensures broken { result ≡ Err Stop.Source → (first : Option (List ℕ)) → Writes first (O.held out.old) waiting.old (text_at report cluster.now []) → LeftFails report cluster.now (prepend_known reader.old (I.left input.old)) (I.left input.new) (Writes first (O.held out.new) waiting.new) }
    ensures cut { OnErr result ((first : Option (List ℕ)) → Writes first (O.held out.old) waiting.old (text_at report cluster.now []) → LeftIsBegun report cluster.now (prepend_known reader.old (I.left input.old)) (WritesFront first (O.held out.new) waiting.new)) }
    ensures source { result ≡ Err Stop.Source → Rose (I.faults input.old) (I.faults input.new) }
    ensures sink { result ≡ Err Stop.Sink → Rose (O.faults out.old) (O.faults out.new) }
    ensures only { IfErr result IsScheduleStop }
    ensures inputs { I.faults input.old ≤ I.faults input.new }
    ensures outs { O.faults out.old ≤ O.faults out.new }
{
    for count in 0..LINES {
        match do_line(
            alloc,
            report,
            cluster,
            handlers,
            reader,
            input,
            line,
            count + 1,
            world,
            tally,
            out,
            waiting,
        ) {
            Ok(true) => {}
            Ok(false) => return Ok(count),
            Err(stop) => return Err(stop),
        }
    }
    match next_line(reader, input, line) {
        Ok(Next::End) => Ok(LINES),
        Ok(Next::Line) => Err(Stop::Schedule {
            line: LINES + 1,
            reason: 8,
        }),
        Ok(Next::Long) => Err(Stop::Schedule {
            line: LINES + 1,
            reason: 7,
        }),
        Err(stop) => Err(stop),
    }
}

/// Does the lines of the schedule, to the input's end, and adds what the report has there.
fn run_whole<I: Source, O: Sink, H: QueueHandlers>(
    alloc: Global,
    report: Report,
    cluster: &Cluster,
    handlers: &mut H,
    reader: &mut LineReader,
    input: &mut I,
    line: &mut Bytes,
    world: &mut World,
    tally: &mut Tally,
    out: &mut O,
    waiting: &mut Bytes,
) -> Result<(), Stop>
    requires meant { Means (H.meant handlers.old) built_in }
    requires standing { StandsAfter cluster.now [] [] world.old }
    requires tallied { IsTallied report tally.old (newest (stood cluster.now []).tape) }
    ensures done { OnOk result ((first : Option (List ℕ)) → Writes first (O.held out.old) waiting.old (text_at report cluster.now []) → LeftIsDone report cluster.now (prepend_known reader.old (I.left input.old)) (Writes first (O.held out.new) waiting.new)) }
    ensures end { OnOk result (IsAtEnd (I.left input.new)) }
    ensures none { (at reason : ℕ) → result ≡ Err (Stop.Schedule at reason) → (first : Option (List ℕ)) → Writes first (O.held out.old) waiting.old (text_at report cluster.now []) → LeftStops report cluster.now (prepend_known reader.old (I.left input.old)) at (λ line now. event_of (cluster.now).schema at line ≡ Err reason) (Writes first (O.held out.new) waiting.new) }
    ensures limit { (at : ℕ) → result ≡ Err (Stop.Limit at) → (first : Option (List ℕ)) → Writes first (O.held out.old) waiting.old (text_at report cluster.now []) → LeftStops report cluster.now (prepend_known reader.old (I.left input.old)) at (λ line now. IsPastLast cluster.now at line now) (Writes first (O.held out.new) waiting.new) }
    ensures refused { (at why : ℕ) → result ≡ Err (Stop.Refused at why) → (first : Option (List ℕ)) → Writes first (O.held out.old) waiting.old (text_at report cluster.now []) → LeftStops report cluster.now (prepend_known reader.old (I.left input.old)) at (λ line now. IsRefused cluster.now at line now why) (Writes first (O.held out.new) waiting.new) }
    ensures broken { result ≡ Err Stop.Source → (first : Option (List ℕ)) → Writes first (O.held out.old) waiting.old (text_at report cluster.now []) → LeftFails report cluster.now (prepend_known reader.old (I.left input.old)) (I.left input.new) (Writes first (O.held out.new) waiting.new) }
    ensures cut { OnErr result ((first : Option (List ℕ)) → Writes first (O.held out.old) waiting.old (text_at report cluster.now []) → LeftIsBegun report cluster.now (prepend_known reader.old (I.left input.old)) (WritesFront first (O.held out.new) waiting.new)) }
    ensures source { result ≡ Err Stop.Source → Rose (I.faults input.old) (I.faults input.new) }
    ensures sink { result ≡ Err Stop.Sink → Rose (O.faults out.old) (O.faults out.new) }
    ensures only { IfErr result IsScheduleStop }
    ensures inputs { I.faults input.old ≤ I.faults input.new }
    ensures outs { O.faults out.old ≤ O.faults out.new }
{
    let count = match run_lines(
        alloc, report, cluster, handlers, reader, input, line, world, tally, out, waiting,
    ) {
        Ok(count) => count,
        Err(stop) => return Err(stop),
    };
    match write_end(report, tally, count, waiting) {
        Ok(()) => Ok(()),
        Err(stop) => Err(stop),
    }
}

/// Starts the nodes, writes that, and does the lines of the schedule.
fn run_schedule<I: Source, O: Sink, H: QueueHandlers>(
    alloc: Global,
    report: Report,
    cluster: &Cluster,
    handlers: &mut H,
    reader: &mut LineReader,
    input: &mut I,
    line: &mut Bytes,
    out: &mut O,
    waiting: &mut Bytes,
) -> Result<(), Stop>
    requires meant { Means (H.meant handlers.old) built_in }
    requires read { IsRead cluster.now }
    requires none_waits { waiting.old ≡ [] }
    ensures done { OnOk result (LeftIsDone report cluster.now (prepend_known reader.old (I.left input.old)) (Writes (O.held out.old) (O.held out.new) waiting.new)) }
    ensures end { OnOk result (IsAtEnd (I.left input.new)) }
    ensures none { (at reason : ℕ) → result ≡ Err (Stop.Schedule at reason) → LeftStops report cluster.now (prepend_known reader.old (I.left input.old)) at (λ line now. event_of (cluster.now).schema at line ≡ Err reason) (Writes (O.held out.old) (O.held out.new) waiting.new) }
    ensures limit { (at : ℕ) → result ≡ Err (Stop.Limit at) → LeftStops report cluster.now (prepend_known reader.old (I.left input.old)) at (λ line now. IsPastLast cluster.now at line now) (Writes (O.held out.old) (O.held out.new) waiting.new) }
    ensures refused { (at why : ℕ) → result ≡ Err (Stop.Refused at why) → LeftStops report cluster.now (prepend_known reader.old (I.left input.old)) at (λ line now. IsRefused cluster.now at line now why) (Writes (O.held out.old) (O.held out.new) waiting.new) }
    ensures broken { result ≡ Err Stop.Source → LeftFails report cluster.now (prepend_known reader.old (I.left input.old)) (I.left input.new) (Writes (O.held out.old) (O.held out.new) waiting.new) }
    ensures cut { OnErr result (LeftIsBegun report cluster.now (prepend_known reader.old (I.left input.old)) (WritesFront (O.held out.old) (O.held out.new) waiting.new)) }
    ensures source { result ≡ Err Stop.Source → Rose (I.faults input.old) (I.faults input.new) }
    ensures sink { result ≡ Err Stop.Sink → Rose (O.faults out.old) (O.faults out.new) }
    ensures only { IfErr result IsScheduleStop }
    ensures inputs { I.faults input.old ≤ I.faults input.new }
    ensures outs { O.faults out.old ≤ O.faults out.new }
{
    let mut tape = Tape {
        items: Items::new(alloc),
    };
    let mut world = match opened(alloc, cluster, &mut tape) {
        Ok(world) => world,
        Err(stop) => return Err(stop),
    };
    let mut tally = Tally::new(alloc);
    match tell(
        alloc,
        report,
        &cluster.schema,
        tape.items.as_slice(),
        &mut tally,
        out,
        waiting,
    ) {
        Ok(()) => {}
        Err(stop) => return Err(stop),
    }
    run_whole(
        alloc, report, cluster, handlers, reader, input, line, &mut world, &mut tally, out, waiting,
    )
}

/// Reads a header and a schedule, and writes the report of what happens; its last bytes may wait.
/// It is done exactly where the header reads as a cluster and every line is an event that happens; it
/// stops at a header that breaks a rule, and else at the first line that is no event, is refused, or is
/// a start past the last one.
pub fn replay<I: Source, O: Sink, H: QueueHandlers>(
    alloc: Global,
    report: Report,
    handlers: &mut H,
    input: &mut I,
    out: &mut O,
    waiting: &mut Bytes,
) -> Result<(), Stop>
    requires meant { Means (H.meant handlers.old) built_in }
    requires none_waits { waiting.old ≡ [] }
    ensures done { OnOk result (InputDone report (I.left input.old) (Writes (O.held out.old) (O.held out.new) waiting.new)) }
    ensures end { OnOk result (IsAtEnd (I.left input.new)) }
    ensures header { (rule : ℕ) → result ≡ Err (Stop.Header rule) → InputBroken (I.left input.old) rule (Writes (O.held out.old) (O.held out.new) waiting.new) }
    ensures none { (at reason : ℕ) → result ≡ Err (Stop.Schedule at reason) → InputNoEvent report (I.left input.old) at reason (Writes (O.held out.old) (O.held out.new) waiting.new) }
    ensures limit { (at : ℕ) → result ≡ Err (Stop.Limit at) → InputPastLast report (I.left input.old) at (Writes (O.held out.old) (O.held out.new) waiting.new) }
    ensures refused { (at why : ℕ) → result ≡ Err (Stop.Refused at why) → InputRefused report (I.left input.old) at why (Writes (O.held out.old) (O.held out.new) waiting.new) }
    ensures broken { result ≡ Err Stop.Source → InputFailed report (I.left input.old) (I.left input.new) (Writes (O.held out.old) (O.held out.new) waiting.new) }
    ensures cut { OnErr result (InputBegun report (I.left input.old) (WritesFront (O.held out.old) (O.held out.new) waiting.new)) }
    ensures source { result ≡ Err Stop.Source → Rose (I.faults input.old) (I.faults input.new) }
    ensures sink { result ≡ Err Stop.Sink → Rose (O.faults out.old) (O.faults out.new) }
    ensures inputs { I.faults input.old ≤ I.faults input.new }
    ensures outs { O.faults out.old ≤ O.faults out.new }
{
    let mut reader = match LineReader::new(alloc) {
        Ok(reader) => reader,
        Err(_) => return Err(Stop::NoMemory),
    };
    let mut line = Bytes::new(alloc);
    let cluster = match read_header(alloc, &mut reader, input, &mut line) {
        Ok(cluster) => cluster,
        Err(stop) => return Err(stop),
    };
    run_schedule(
        alloc,
        report,
        &cluster,
        handlers,
        &mut reader,
        input,
        &mut line,
        out,
        waiting,
    )
}
