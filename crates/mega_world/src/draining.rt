//! Waiting messages are delivered, the smallest number first, up to a limit.
ghost use Rattle.std.specs.Prelude.{◌≡◌, ◌≢◌, ℕ, OnOk, Err, ◌++◌, List};
ghost use Rattle.std.specs.Prelude.{All};
ghost use Rattle.mega_cluster.specs.declared.cluster.Cluster.{Cluster};
ghost use Rattle.mega_places.specs.of_handler.Named.{Meanings};
ghost use Rattle.mega_places.specs.of_promises.of_schedule.declared.world_event.WorldEvent.TheVariants as event;
ghost use Rattle.mega_places.specs.of_promises.of_transcript.declared.item.Item.{Item as OnTape};
ghost use Rattle.mega_places.specs.of_promises.of_transcript.Lines.{HasLine};
ghost use Rattle.mega_places.specs.of_promises.Runs.{Standing, after_event, by_fuse};
ghost use Rattle.mega_places.specs.declared.fault.WorldFault.TheVariants.{Limit, Refused};
ghost use Rattle.mega_world.specs.Formed.{IsSound};
ghost use Rattle.mega_world.specs.AtRun.{StandsWith, IsDue};

use crate::world::World;
use mega_places::WorldFault;
use mega_places::mega_meanings::QueueHandlers;
use mega_places::mega_transcript::{Item, Tape};
use std::alloc::Global;

impl World {
    /// Messages that wait are delivered, the smallest number first, at most so many; where one is left then, the drain is cut.
    pub(crate) fn drain<H: QueueHandlers>(
        &mut self,
        alloc: Global,
        handlers: &mut H,
        most: u64,
        tape: &mut Tape,
    ) -> Result<(), WorldFault>
        requires known { IsDue (H.meant handlers.old) self.old tape.old.items (event.Drain most) }
        ensures state { OnOk result ((c : Cluster) (h : Meanings) (earlier : List OnTape) (now : Standing) → StandsWith c self.old (earlier ++ tape.old.items) now → IsSound (H.meant handlers.old) c h now (event.Drain most) →
            StandsWith c self.new (earlier ++ tape.new.items) (after_event c h by_fuse now (event.Drain most))) }
        ensures lines { OnOk result ((c : Cluster) (h : Meanings) (earlier : List OnTape) (now : Standing) → StandsWith c self.old (earlier ++ tape.old.items) now → IsSound (H.meant handlers.old) c h now (event.Drain most) →
            All HasLine tape.old.items → All HasLine tape.new.items) }
        ensures handlers { H.meant handlers.new ≡ H.meant handlers.old }
        ensures served { (why : ℕ) → result ≢ Err (Refused why) }
        ensures limited { result ≢ Err Limit }
    {
        for _turn in 0..most {
            let number = match self.mail.next_delivery(self.places.as_slice()) {
                Some(number) => number,
                None => return Ok(()),
            };
            match self.hand(alloc, handlers, number, tape) {
                Ok(()) => {}
                Err(fault) => return Err(fault),
            }
        }
        match self.mail.next_delivery(self.places.as_slice()) {
            Some(_number) => {
                tape.items.push(Item::Cut)?;
                Ok(())
            }
            None => Ok(()),
        }
    }
}
