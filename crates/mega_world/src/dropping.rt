//! A message is never delivered from now on.
ghost use Rattle.std.specs.Prelude.{◌≡◌, ◌≢◌, ℕ, OnOk, Err, Some, None, ◌++◌, List};
ghost use Rattle.std.specs.Prelude.{All};
ghost use Rattle.mega_cluster.specs.declared.cluster.Cluster.{Cluster};
ghost use Rattle.mega_places.specs.of_handler.Named.{Meanings};
ghost use Rattle.mega_places.specs.of_promises.of_schedule.declared.world_event.WorldEvent.TheVariants as event;
ghost use Rattle.mega_places.specs.of_promises.of_transcript.declared.item.Item.{Item as OnTape};
ghost use Rattle.mega_places.specs.of_promises.of_transcript.Lines.{HasLine};
ghost use Rattle.mega_places.specs.of_promises.Runs.{Standing, after_event, by_fuse, refusal};
ghost use Rattle.mega_places.specs.declared.fault.WorldFault.TheVariants.{Limit, Refused};
ghost use Rattle.mega_world.specs.AtRun.{StandsWith};

use crate::world::World;
use mega_places::WorldFault;
use mega_places::mega_transcript::{Item, Tape};

impl World {
    /// The message of a number is never delivered from now on.
    pub(crate) fn drop_message(&mut self, number: u64, tape: &mut Tape) -> Result<(), WorldFault>
        ensures state { OnOk result ((c : Cluster) (h : Meanings) (earlier : List OnTape) (now : Standing) → StandsWith c self.old (earlier ++ tape.old.items) now →
            StandsWith c self.new (earlier ++ tape.new.items) (after_event c h by_fuse now (event.Drop number))) }
        ensures lines { OnOk result (All HasLine tape.old.items → All HasLine tape.new.items) }
        ensures happens { OnOk result ((c : Cluster) (items : List OnTape) (now : Standing) → StandsWith c self.old items now → refusal c now (event.Drop number) ≡ None) }
        ensures refused { (why : ℕ) → result ≡ Err (Refused why) → (c : Cluster) (items : List OnTape) (now : Standing) → StandsWith c self.old items now → refusal c now (event.Drop number) ≡ Some why }
        ensures world { (why : ℕ) → result ≡ Err (Refused why) → self.new ≡ self.old }
        ensures limited { result ≢ Err Limit }
    {
        let refusal = self.mail.drop_message(number)?;
        match refusal {
            Some(why) => Err(WorldFault::Refused { why }),
            None => {
                tape.items.push(Item::Dropped { number })?;
                Ok(())
            }
        }
    }
}
