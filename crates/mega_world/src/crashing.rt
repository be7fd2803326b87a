//! A node goes down.
ghost use Rattle.std.specs.Prelude.{◌≡◌, ◌≢◌, ◌≤◌, ℕ, length, IfNone, OnOk, Err, Some, None, true, ◌++◌, List};
ghost use Rattle.std.specs.Prelude.{All};
ghost use Rattle.mega_cluster.specs.declared.cluster.Cluster.{Cluster};
ghost use Rattle.mega_places.specs.of_handler.Named.{Meanings};
ghost use Rattle.mega_places.specs.of_promises.of_schedule.declared.world_event.WorldEvent.TheVariants as event;
ghost use Rattle.mega_places.specs.of_promises.of_transcript.declared.item.Item.{Item as OnTape};
ghost use Rattle.mega_places.specs.of_promises.of_transcript.Lines.{HasLine};
ghost use Rattle.mega_places.specs.of_promises.Runs.{Standing, after_event, by_fuse, refusal};
ghost use Rattle.mega_places.specs.declared.fault.WorldFault.TheVariants.{Limit, Refused};
ghost use Rattle.mega_places.specs.Members.{AreMembers, is_up_at};
ghost use Rattle.mega_world.specs.AtRun.{StandsWith};

use crate::world::World;
use mega_base::{NoMemory, NodeId};
use mega_places::mega_transcript::{Item, Tape};
use mega_places::{Place, WorldFault, is_node, is_up, take_down};
use std::alloc::Global;

/// Why a node does not go down: 6, there is no such node; 1, it is down.
fn refusal(places: &[Place], node: NodeId) -> Option<u8>
    ensures least { IfNone result (1 ≤ node.0) }
    ensures most { IfNone result (node.0 ≤ length places.now) }
    ensures up { IfNone result (is_up_at places.now node.0 ≡ true) }
    ensures value { (c : Cluster) (now : Standing) → AreMembers c places.now now.node → result ≡ refusal c now (event.Crash node) }
{
    if !is_node(places.len(), node.0) {
        return Some(6);
    }
    if !is_up(places, node.0) {
        return Some(1);
    }
    None
}

impl World {
    /// A node goes down, with its open operations and all that it counted, unless that is refused.
    pub(crate) fn crash(
        &mut self,
        alloc: Global,
        node: NodeId,
        tape: &mut Tape,
    ) -> Result<(), WorldFault>
        ensures state { OnOk result ((c : Cluster) (h : Meanings) (earlier : List OnTape) (now : Standing) → StandsWith c self.old (earlier ++ tape.old.items) now →
            StandsWith c self.new (earlier ++ tape.new.items) (after_event c h by_fuse now (event.Crash node))) }
        ensures lines { OnOk result (All HasLine tape.old.items → All HasLine tape.new.items) }
        ensures happens { OnOk result ((c : Cluster) (items : List OnTape) (now : Standing) → StandsWith c self.old items now → refusal c now (event.Crash node) ≡ None) }
        ensures refused { (why : ℕ) → result ≡ Err (Refused why) → (c : Cluster) (items : List OnTape) (now : Standing) → StandsWith c self.old items now → refusal c now (event.Crash node) ≡ Some why }
        ensures world { (why : ℕ) → result ≡ Err (Refused why) → self.new ≡ self.old }
        ensures limited { result ≢ Err Limit }
    {
        match refusal(self.places.as_slice(), node) {
            Some(why) => Err(WorldFault::Refused { why }),
            None => {
                self.crashes(alloc, node, tape)?;
                Ok(())
            }
        }
    }

    /// A node that is there goes down.
    fn crashes(&mut self, alloc: Global, node: NodeId, tape: &mut Tape) -> Result<(), NoMemory>
        requires least { 1 ≤ node.0 }
        requires most { node.0 ≤ length self.old.places.items }
        requires up { is_up_at self.old.places.items node.0 ≡ true }
        ensures state { OnOk result ((c : Cluster) (h : Meanings) (earlier : List OnTape) (now : Standing) → StandsWith c self.old (earlier ++ tape.old.items) now →
            StandsWith c self.new (earlier ++ tape.new.items) (after_event c h by_fuse now (event.Crash node))) }
        ensures lines { OnOk result (All HasLine tape.old.items → All HasLine tape.new.items) }
    {
        tape.items.push(Item::Crash { node })?;
        take_down(alloc, &mut self.places, node.0);
        Ok(())
    }
}
