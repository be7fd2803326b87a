//! An operation begins at a node, or is refused.
ghost use Rattle.std.specs.Prelude.{◌≡◌, ◌≢◌, ◌≤◌, ℕ, List, length, IfNone, OnOk, Err, Some, None, true, false, ◌++◌};
ghost use Rattle.std.specs.Prelude.{All};
ghost use Rattle.mega_cluster.specs.declared.cluster.Cluster.{Cluster};
ghost use Rattle.mega_places.specs.of_handler.Named.{Meanings};
ghost use Rattle.mega_places.specs.of_promises.of_schedule.declared.world_event.WorldEvent.TheVariants as event;
ghost use Rattle.mega_places.specs.of_promises.of_transcript.declared.item.Item.{Item as OnTape};
ghost use Rattle.mega_places.specs.of_promises.of_transcript.Lines.{HasLine};
ghost use Rattle.mega_places.specs.of_promises.Runs.{Standing, after_event, by_fuse, refusal};
ghost use Rattle.mega_places.specs.declared.fault.WorldFault.TheVariants.{Limit, Refused};
ghost use Rattle.mega_world.specs.Formed.{IsSound};
ghost use Rattle.mega_places.specs.Members.{AreMembers, is_up_at};
ghost use Rattle.mega_world.specs.AtRun.{StandsWith, IsDue, MayCome};

use crate::world::World;
use mega_base::{NodeId, Text};
use mega_places::mega_meanings::QueueHandlers;
use mega_places::mega_outcome::{Request, names_nothing};
use mega_places::mega_transcript::{Item, Tape};
use mega_places::{Place, WorldFault, begin_at, is_node, is_up};
use std::alloc::Global;

/// Why an operation does not begin: 6, there is no such node; 1, it is down; 7, its request names no group or no index.
fn refusal(places: &[Place], node: NodeId, request: &Request) -> Option<u8>
    ensures least { IfNone result (1 ≤ node.0) }
    ensures most { IfNone result (node.0 ≤ length places.now) }
    ensures up { IfNone result (is_up_at places.now node.0 ≡ true) }
    ensures value { (c : Cluster) (now : Standing) (text : List ℕ) → AreMembers c places.now now.node → result ≡ refusal c now (event.Begin node request.now text) }
{
    if !is_node(places.len(), node.0) {
        return Some(6);
    }
    if !is_up(places, node.0) {
        return Some(1);
    }
    if names_nothing(request) {
        return Some(7);
    }
    None
}

impl World {
    /// An operation begins at a node.
    pub(crate) fn begin<H: QueueHandlers>(
        &mut self,
        alloc: Global,
        handlers: &mut H,
        node: NodeId,
        request: Request,
        text: Text,
        tape: &mut Tape,
    ) -> Result<(), WorldFault>
        requires known { MayCome (H.meant handlers.old) self.old tape.old.items (event.Begin node request text) }
        ensures state { OnOk result ((c : Cluster) (h : Meanings) (earlier : List OnTape) (now : Standing) → StandsWith c self.old (earlier ++ tape.old.items) now → IsSound (H.meant handlers.old) c h now (event.Begin node request text) →
            StandsWith c self.new (earlier ++ tape.new.items) (after_event c h by_fuse now (event.Begin node request text))) }
        ensures lines { OnOk result ((c : Cluster) (h : Meanings) (earlier : List OnTape) (now : Standing) → StandsWith c self.old (earlier ++ tape.old.items) now → IsSound (H.meant handlers.old) c h now (event.Begin node request text) →
            All HasLine tape.old.items → All HasLine tape.new.items) }
        ensures handlers { H.meant handlers.new ≡ H.meant handlers.old }
        ensures happens { OnOk result ((c : Cluster) (items : List OnTape) (now : Standing) → StandsWith c self.old items now → refusal c now (event.Begin node request text) ≡ None) }
        ensures refused { (why : ℕ) → result ≡ Err (Refused why) → (c : Cluster) (items : List OnTape) (now : Standing) → StandsWith c self.old items now → refusal c now (event.Begin node request text) ≡ Some why }
        ensures world { (why : ℕ) → result ≡ Err (Refused why) → self.new ≡ self.old }
        ensures limited { result ≢ Err Limit }
    {
        match refusal(self.places.as_slice(), node, &request) {
            Some(why) => Err(WorldFault::Refused { why }),
            None => self.begins(alloc, handlers, node, request, text, tape),
        }
    }

    /// An operation begins at a node that is up.
    fn begins<H: QueueHandlers>(
        &mut self,
        alloc: Global,
        handlers: &mut H,
        node: NodeId,
        request: Request,
        text: Text,
        tape: &mut Tape,
    ) -> Result<(), WorldFault>
        requires least { 1 ≤ node.0 }
        requires most { node.0 ≤ length self.old.places.items }
        requires up { is_up_at self.old.places.items node.0 ≡ true }
        requires known { IsDue (H.meant handlers.old) self.old tape.old.items (event.Begin node request text) }
        ensures state { OnOk result ((c : Cluster) (h : Meanings) (earlier : List OnTape) (now : Standing) → StandsWith c self.old (earlier ++ tape.old.items) now → IsSound (H.meant handlers.old) c h now (event.Begin node request text) →
            StandsWith c self.new (earlier ++ tape.new.items) (after_event c h by_fuse now (event.Begin node request text))) }
        ensures lines { OnOk result ((c : Cluster) (h : Meanings) (earlier : List OnTape) (now : Standing) → StandsWith c self.old (earlier ++ tape.old.items) now → IsSound (H.meant handlers.old) c h now (event.Begin node request text) →
            All HasLine tape.old.items → All HasLine tape.new.items) }
        ensures handlers { H.meant handlers.new ≡ H.meant handlers.old }
        ensures served { (why : ℕ) → result ≢ Err (Refused why) }
        ensures limited { result ≢ Err Limit }
    {
        let (op, made) = match begin_at(alloc, handlers, &mut self.places, node.0, request, &text) {
            Ok(begun) => begun,
            Err(fault) => return Err(fault),
        };
        tape.items.push(Item::Begin { op, text })?;
        self.show_step(alloc, node.0, made, tape)?;
        Ok(())
    }
}
