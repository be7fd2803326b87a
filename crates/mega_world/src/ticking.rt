//! The clock of a node shows a time, unless it showed a later one.
ghost use Rattle.std.specs.Prelude.{◌≡◌, ◌≢◌, ◌≤◌, ℕ, length, IfNone, OnOk, Err, Some, None, true, ◌++◌, List};
ghost use Rattle.std.specs.Prelude.{All};
ghost use Rattle.mega_cluster.specs.declared.cluster.Cluster.{Cluster};
ghost use Rattle.mega_places.specs.of_handler.Named.{Meanings};
ghost use Rattle.mega_places.specs.of_promises.of_schedule.declared.world_event.WorldEvent.TheVariants as event;
ghost use Rattle.mega_places.specs.of_promises.of_transcript.declared.item.Item.{Item as OnTape};
ghost use Rattle.mega_places.specs.of_promises.of_transcript.Lines.{HasLine};
ghost use Rattle.mega_places.specs.of_voter.of_rules.Clock.{clock_of};
ghost use Rattle.mega_places.specs.of_voter.of_rules.Operations.{Node as RuleNode};
ghost use Rattle.mega_places.specs.of_promises.Runs.{Standing, after_event, by_fuse, refusal};
ghost use Rattle.mega_places.specs.declared.fault.WorldFault.TheVariants.{Limit, Refused};
ghost use Rattle.mega_world.specs.Formed.{IsSound};
ghost use Rattle.mega_places.specs.Members.{AreMembers, is_up_at};
ghost use Rattle.mega_world.specs.AtRun.{StandsWith, IsDue, MayCome};

use crate::world::World;
use mega_base::NodeId;
use mega_places::mega_durable::mega_core::mega_step_parts::Event;
use mega_places::mega_meanings::QueueHandlers;
use mega_places::mega_transcript::{Item, Tape};
use mega_places::{Place, WorldFault, is_node, is_up, member_of, step_at};
use std::alloc::Global;

/// The last time that the clock of a node showed in this start; 0 of a node that is down.
fn clock_of(places: &[Place], me: u8) -> u64
    ensures { (c : Cluster) (ruled : ℕ → RuleNode) → AreMembers c places.now ruled → is_up_at places.now me ≡ true → result ≡ clock_of (ruled me).met }
{
    match member_of(places, usize::from(me)) {
        Some(member) => member.clock(),
        None => 0,
    }
}

/// Why the clock of a node does not show a time: 6, there is no such node; 1, it is down; 5, it showed a later one in this start.
fn refusal(places: &[Place], node: NodeId, clock: u64) -> Option<u8>
    ensures least { IfNone result (1 ≤ node.0) }
    ensures most { IfNone result (node.0 ≤ length places.now) }
    ensures up { IfNone result (is_up_at places.now node.0 ≡ true) }
    ensures value { (c : Cluster) (now : Standing) → AreMembers c places.now now.node → result ≡ refusal c now (event.Tick node clock) }
{
    if !is_node(places.len(), node.0) {
        return Some(6);
    }
    if !is_up(places, node.0) {
        return Some(1);
    }
    if clock < clock_of(places, node.0) {
        return Some(5);
    }
    None
}

impl World {
    /// The clock of a node shows a time, in milliseconds, unless that is refused.
    pub(crate) fn tick<H: QueueHandlers>(
        &mut self,
        alloc: Global,
        handlers: &mut H,
        node: NodeId,
        clock: u64,
        tape: &mut Tape,
    ) -> Result<(), WorldFault>
        requires known { MayCome (H.meant handlers.old) self.old tape.old.items (event.Tick node clock) }
        ensures state { OnOk result ((c : Cluster) (h : Meanings) (earlier : List OnTape) (now : Standing) → StandsWith c self.old (earlier ++ tape.old.items) now → IsSound (H.meant handlers.old) c h now (event.Tick node clock) →
            StandsWith c self.new (earlier ++ tape.new.items) (after_event c h by_fuse now (event.Tick node clock))) }
        ensures lines { OnOk result ((c : Cluster) (h : Meanings) (earlier : List OnTape) (now : Standing) → StandsWith c self.old (earlier ++ tape.old.items) now → IsSound (H.meant handlers.old) c h now (event.Tick node clock) →
            All HasLine tape.old.items → All HasLine tape.new.items) }
        ensures handlers { H.meant handlers.new ≡ H.meant handlers.old }
        ensures happens { OnOk result ((c : Cluster) (items : List OnTape) (now : Standing) → StandsWith c self.old items now → refusal c now (event.Tick node clock) ≡ None) }
        ensures refused { (why : ℕ) → result ≡ Err (Refused why) → (c : Cluster) (items : List OnTape) (now : Standing) → StandsWith c self.old items now → refusal c now (event.Tick node clock) ≡ Some why }
        ensures world { (why : ℕ) → result ≡ Err (Refused why) → self.new ≡ self.old }
        ensures limited { result ≢ Err Limit }
    {
        match refusal(self.places.as_slice(), node, clock) {
            Some(why) => Err(WorldFault::Refused { why }),
            None => self.ticks(alloc, handlers, node, clock, tape),
        }
    }

    /// The clock of a node that is up shows a time.
    fn ticks<H: QueueHandlers>(
        &mut self,
        alloc: Global,
        handlers: &mut H,
        node: NodeId,
        clock: u64,
        tape: &mut Tape,
    ) -> Result<(), WorldFault>
        requires least { 1 ≤ node.0 }
        requires most { node.0 ≤ length self.old.places.items }
        requires up { is_up_at self.old.places.items node.0 ≡ true }
        requires known { IsDue (H.meant handlers.old) self.old tape.old.items (event.Tick node clock) }
        ensures state { OnOk result ((c : Cluster) (h : Meanings) (earlier : List OnTape) (now : Standing) → StandsWith c self.old (earlier ++ tape.old.items) now → IsSound (H.meant handlers.old) c h now (event.Tick node clock) →
            StandsWith c self.new (earlier ++ tape.new.items) (after_event c h by_fuse now (event.Tick node clock))) }
        ensures lines { OnOk result ((c : Cluster) (h : Meanings) (earlier : List OnTape) (now : Standing) → StandsWith c self.old (earlier ++ tape.old.items) now → IsSound (H.meant handlers.old) c h now (event.Tick node clock) →
            All HasLine tape.old.items → All HasLine tape.new.items) }
        ensures handlers { H.meant handlers.new ≡ H.meant handlers.old }
        ensures served { (why : ℕ) → result ≢ Err (Refused why) }
        ensures limited { result ≢ Err Limit }
    {
        let made = match step_at(
            alloc,
            handlers,
            &mut self.places,
            node.0,
            Event::Tick(clock),
        ) {
            Ok(made) => made,
            Err(fault) => return Err(fault),
        };
        tape.items.push(Item::Tick { node, now: clock })?;
        self.show_step(alloc, node.0, made, tape)?;
        Ok(())
    }
}
