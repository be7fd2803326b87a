//! Makes one event happen in a world of nodes, and gives its items.
ghost use Rattle.std.specs.Prelude.{◌≡◌, [], ℕ, OnOk, IfOk, Err, Some, None, ◌++◌, List};
ghost use Rattle.std.specs.Prelude.{All};
ghost use Rattle.mega_cluster.specs.declared.cluster.Cluster.{Cluster};
ghost use Rattle.mega_places.specs.of_handler.Named.{Meanings};
ghost use Rattle.mega_places.specs.of_promises.of_transcript.declared.item.Item.{Item as OnTape};
ghost use Rattle.mega_places.specs.of_promises.of_transcript.Lines.{HasLine};
ghost use Rattle.mega_places.specs.of_promises.of_transcript.Tape.{onto};
ghost use Rattle.mega_places.specs.of_promises.Runs.{Standing, after_event, by_fuse, refusal};
ghost use Rattle.mega_places.specs.declared.fault.WorldFault.TheVariants.{Limit, Refused};
ghost use Rattle.mega_world.specs.Formed.{IsSound};
ghost use Rattle.mega_world.specs.AtRun.{IsAt, MayCome, StandsWith};
ghost use Rattle.mega_world.specs.Last.{IsPastLast};

use crate::world::World;
use mega_base::Items;
use mega_places::WorldFault;
use mega_places::mega_meanings::QueueHandlers;
use mega_places::mega_schedule::WorldEvent;
use mega_places::mega_transcript::Tape;
use std::alloc::Global;

impl World {
    /// Makes an event happen, and puts its items behind those in hand. A refusal leaves the world.
    fn happen<H: QueueHandlers>(
        &mut self,
        alloc: Global,
        handlers: &mut H,
        event: WorldEvent,
        tape: &mut Tape,
    ) -> Result<(), WorldFault>
        requires known { MayCome (H.meant handlers.old) self.old tape.old.items event }
        ensures state { OnOk result ((c : Cluster) (h : Meanings) (earlier : List OnTape) (now : Standing) → StandsWith c self.old (earlier ++ tape.old.items) now → IsSound (H.meant handlers.old) c h now event →
            StandsWith c self.new (earlier ++ tape.new.items) (after_event c h by_fuse now event)) }
        ensures lines { OnOk result ((c : Cluster) (h : Meanings) (earlier : List OnTape) (now : Standing) → StandsWith c self.old (earlier ++ tape.old.items) now → IsSound (H.meant handlers.old) c h now event →
            All HasLine tape.old.items → All HasLine tape.new.items) }
        ensures handlers { H.meant handlers.new ≡ H.meant handlers.old }
        ensures happens { OnOk result ((c : Cluster) (items : List OnTape) (now : Standing) → StandsWith c self.old items now → refusal c now event ≡ None) }
        ensures refused { (why : ℕ) → result ≡ Err (Refused why) → (c : Cluster) (items : List OnTape) (now : Standing) → StandsWith c self.old items now → refusal c now event ≡ Some why }
        ensures world { (why : ℕ) → result ≡ Err (Refused why) → self.new ≡ self.old }
        ensures limit { result ≡ Err Limit → (c : Cluster) (items : List OnTape) (now : Standing) → StandsWith c self.old items now → IsPastLast c now event }
    {
        match event {
            WorldEvent::Deliver { message } => self.deliver(alloc, handlers, message, tape),
            WorldEvent::Begin {
                node,
                request,
                text,
            } => self.begin(alloc, handlers, node, request, text, tape),
            WorldEvent::Drop { message } => self.drop_message(message, tape),
            WorldEvent::Drain { most } => self.drain(alloc, handlers, most, tape),
            WorldEvent::Tick { node, now } => self.tick(alloc, handlers, node, now, tape),
            WorldEvent::Crash { node } => self.crash(alloc, node, tape),
            WorldEvent::Start { node } => self.start(alloc, node, tape),
            WorldEvent::Fuse {
                node,
                calls,
                image,
                device,
            } => self.fuse(node, calls, image, device),
        }
    }

    /// Makes an event happen, and gives its items: those that it adds to the tape of the run. The world stands then as the run does
    /// after the event, and keeps none of the tape; an event that the run refuses leaves the world as it was.
    pub fn apply<H: QueueHandlers>(
        &mut self,
        alloc: Global,
        handlers: &mut H,
        event: WorldEvent,
    ) -> Result<Tape, WorldFault>
        requires known { MayCome (H.meant handlers.old) self.old [] event }
        ensures state { OnOk result ((c : Cluster) (h : Meanings) (now : Standing) → IsAt c self.old now → IsSound (H.meant handlers.old) c h now event → IsAt c self.new (after_event c h by_fuse now event)) }
        ensures tape { IfOk result (λ added. (c : Cluster) (h : Meanings) (now : Standing) → IsAt c self.old now → IsSound (H.meant handlers.old) c h now event →
            (after_event c h by_fuse now event).tape ≡ onto added.items now.tape) }
        ensures lines { IfOk result (λ added. (c : Cluster) (h : Meanings) (now : Standing) → IsAt c self.old now → IsSound (H.meant handlers.old) c h now event → All HasLine added.items) }
        ensures handlers { H.meant handlers.new ≡ H.meant handlers.old }
        ensures happens { OnOk result ((c : Cluster) (now : Standing) → IsAt c self.old now → refusal c now event ≡ None) }
        ensures refused { (why : ℕ) → result ≡ Err (Refused why) → (c : Cluster) (now : Standing) → IsAt c self.old now → refusal c now event ≡ Some why }
        ensures world { (why : ℕ) → result ≡ Err (Refused why) → self.new ≡ self.old }
        ensures limit { result ≡ Err Limit → (c : Cluster) (now : Standing) → IsAt c self.old now → IsPastLast c now event }
    {
        let mut added = Tape {
            items: Items::new(alloc),
        };
        match self.happen(alloc, handlers, event, &mut added) {
            Ok(()) => Ok(added),
            Err(fault) => Err(fault),
        }
    }
}
