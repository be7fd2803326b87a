//! The event of a line happens in the world, or the line stops the replay.
ghost use Rattle.std.specs.Prelude.{◌≡◌, ℕ, List, Ok, Err, IfErr, IfOk, All};
ghost use Rattle.mega_meanings.specs.BuiltIn.{built_in};
ghost use Rattle.mega_meanings.specs.Means.{Means};
ghost use Rattle.mega_schedule.specs.Events.{event_of};
ghost use Rattle.mega_transcript.specs.Lines.{HasLine};
ghost use Rattle.mega_shown_laws.specs.of_promises.Runs.{Happening};
ghost use Rattle.mega_line_events.specs.Running.{IsStanding, StandsAfter, Proceeds, stood};
ghost use Rattle.mega_line_events.specs.Refusals.{IsRefused, IsPastLast};
ghost use Rattle.mega_replay_output.specs.Stops.{IsEventStop, IsLineStop, IsWorldStop};

use mega_cluster::Cluster;
use mega_field_ranges::hold;
use mega_meanings::QueueHandlers;
use mega_replay_output::Stop;
use mega_schedule::{LineFault, WorldEvent, event};
use mega_schema::Schema;
use mega_transcript::Tape;
use mega_world::{World, WorldFault};
use std::alloc::Global;

/// The event that the line of this number spells.
fn event_of(alloc: Global, schema: &Schema, number: u64, line: &[u8]) -> Result<WorldEvent, Stop>
    ensures spelled { IfOk result (λ event. event_of schema.now number line.now ≡ Ok event) }
    ensures none { (at reason : ℕ) → result ≡ Err (Stop.Schedule at reason) → (at ≡ number) × (event_of schema.now number line.now ≡ Err reason) }
    ensures only { IfErr result IsEventStop }
{
    match event(alloc, line, number, schema) {
        Ok(event) => Ok(event),
        Err(LineFault::Refused { reason }) => Err(Stop::Schedule {
            line: number,
            reason,
        }),
        Err(LineFault::NoMemory) => Err(Stop::NoMemory),
    }
}

/// Makes the event happen that the line of this number spells, and gives the items that it adds to the tape.
fn happen<H: QueueHandlers>(
    alloc: Global,
    cluster: &Cluster,
    handlers: &mut H,
    number: u64,
    line: &[u8],
    event: WorldEvent,
    world: &mut World,
) -> Result<Tape, Stop>
    requires meant { Means (H.meant handlers.old) built_in }
    requires standing { IsStanding cluster.now world.old }
    requires spelled { event_of (cluster.now).schema number line.now ≡ Ok event }
    ensures state { IfOk result (λ added. (done : List (List ℕ)) (events : List Happening) → StandsAfter cluster.now done events world.old → Proceeds cluster.now number line.now events world.new added.items) }
    ensures limit { (at : ℕ) → result ≡ Err (Stop.Limit at) → (done : List (List ℕ)) (events : List Happening) → StandsAfter cluster.now done events world.old → (at ≡ number) × IsPastLast cluster.now number line.now (stood cluster.now events) }
    ensures refused { (at why : ℕ) → result ≡ Err (Stop.Refused at why) → (done : List (List ℕ)) (events : List Happening) → StandsAfter cluster.now done events world.old → (at ≡ number) × IsRefused cluster.now number line.now (stood cluster.now events) why }
    ensures only { IfErr result IsWorldStop }
    ensures lines { IfOk result (λ added. All HasLine added.items) }
    ensures handlers { H.meant handlers.new ≡ H.meant handlers.old }
{
    match world.apply(alloc, handlers, event) {
        Ok(added) => {
            hold(added.items.as_slice());
            Ok(added)
        }
        Err(WorldFault::Refused { why }) => Err(Stop::Refused { line: number, why }),
        Err(WorldFault::Limit) => Err(Stop::Limit { line: number }),
        Err(WorldFault::NoMemory) => Err(Stop::NoMemory),
    }
}

/// Makes what the line of this number spells happen, and gives the items that it adds to the tape.
pub fn take_line<H: QueueHandlers>(
    alloc: Global,
    cluster: &Cluster,
    handlers: &mut H,
    number: u64,
    line: &[u8],
    world: &mut World,
) -> Result<Tape, Stop>
    requires meant { Means (H.meant handlers.old) built_in }
    requires standing { IsStanding cluster.now world.old }
    ensures state { IfOk result (λ added. (done : List (List ℕ)) (events : List Happening) → StandsAfter cluster.now done events world.old → Proceeds cluster.now number line.now events world.new added.items) }
    ensures none { (at reason : ℕ) → result ≡ Err (Stop.Schedule at reason) → (at ≡ number) × (event_of (cluster.now).schema number line.now ≡ Err reason) }
    ensures limit { (at : ℕ) → result ≡ Err (Stop.Limit at) → (done : List (List ℕ)) (events : List Happening) → StandsAfter cluster.now done events world.old → (at ≡ number) × IsPastLast cluster.now number line.now (stood cluster.now events) }
    ensures refused { (at why : ℕ) → result ≡ Err (Stop.Refused at why) → (done : List (List ℕ)) (events : List Happening) → StandsAfter cluster.now done events world.old → (at ≡ number) × IsRefused cluster.now number line.now (stood cluster.now events) why }
    ensures only { IfErr result IsLineStop }
    ensures lines { IfOk result (λ added. All HasLine added.items) }
    ensures handlers { H.meant handlers.new ≡ H.meant handlers.old }
{
    match event_of(alloc, &cluster.schema, number, line) {
        Ok(event) => happen(alloc, cluster, handlers, number, line, event, world),
        Err(stop) => Err(stop),
    }
}
