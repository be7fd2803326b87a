//! A message is handed to its receiver, or is refused.
ghost use Rattle.std.specs.Prelude.{◌≡◌, ◌≢◌, ◌≤◌, ℕ, length, IfNone, IfSome, OnOk, Err, Some, None, true, ◌++◌, List};
ghost use Rattle.std.specs.Prelude.{All};
ghost use Rattle.mega_cluster.specs.declared.cluster.Cluster.{Cluster};
ghost use Rattle.mega_places.specs.of_handler.Named.{Meanings};
ghost use Rattle.mega_places.specs.of_promises.of_schedule.declared.world_event.WorldEvent.TheVariants as event;
ghost use Rattle.mega_places.specs.of_promises.of_transcript.declared.item.Item.{Item as OnTape};
ghost use Rattle.mega_places.specs.of_promises.of_transcript.Lines.{HasLine};
ghost use Rattle.mega_places.specs.of_promises.of_transcript.Tape.{is_sent};
ghost use Rattle.mega_places.specs.of_promises.Messages.{message_of};
ghost use Rattle.mega_places.specs.of_promises.Runs.{Standing, after_event, by_fuse, refusal, up};
ghost use Rattle.mega_places.specs.Carries.{Carries};
ghost use Rattle.mega_places.specs.declared.fault.WorldFault.TheVariants.{Limit, Refused};
ghost use Rattle.mega_world.specs.Formed.{IsSound};
ghost use Rattle.mega_places.specs.Members.{is_up_at};
ghost use Rattle.mega_world.specs.AtRun.{IsAllowed, StandsWith, MayCome};

use crate::world::World;
use mega_places::mega_durable::mega_core::mega_step_parts::Event;
use mega_places::mega_meanings::QueueHandlers;
use mega_places::mega_transcript::{Item, Tape};
use mega_places::{Mail, Place, WorldFault, is_up, step_at};
use mega_wire::Message;
use std::alloc::Global;

/// The message of a number, where one was sent to a node that is up.
fn sent_to<'a>(mail: &'a Mail, places: &[Place], number: u64) -> Option<&'a Message>
    ensures least { IfSome result (λ message. 1 ≤ message.now.to) }
    ensures most { IfSome result (λ message. message.now.to ≤ length places.now) }
    ensures up { IfSome result (λ message. is_up_at places.now message.now.to ≡ true) }
    ensures found { IfSome result (λ message. (now : Standing) → Carries mail.now now.tape → message_of now.tape number ≡ Some message.now) }
    ensures sent { IfSome result (λ message. (now : Standing) → Carries mail.now now.tape → is_sent now.tape number ≡ true) }
    ensures none { IfNone result ((c : Cluster) (now : Standing) → Carries mail.now now.tape → ((me : ℕ) → up now me ≡ is_up_at places.now me) → refusal c now (event.Deliver number) ≢ None) }
{
    match mail.message(number) {
        Some(message) => {
            if !is_up(places, message.to) {
                return None;
            }
            Some(message)
        }
        None => None,
    }
}

impl World {
    /// The message of a number is handed to its receiver, which is up.
    pub(crate) fn hand<H: QueueHandlers>(
        &mut self,
        alloc: Global,
        handlers: &mut H,
        number: u64,
        tape: &mut Tape,
    ) -> Result<(), WorldFault>
        requires known { IsAllowed (H.meant handlers.old) self.old tape.old.items number }
        ensures state { OnOk result ((c : Cluster) (h : Meanings) (earlier : List OnTape) (now : Standing) → StandsWith c self.old (earlier ++ tape.old.items) now → IsSound (H.meant handlers.old) c h now (event.Deliver number) →
            StandsWith c self.new (earlier ++ tape.new.items) (after_event c h by_fuse now (event.Deliver number))) }
        ensures lines { OnOk result ((c : Cluster) (h : Meanings) (earlier : List OnTape) (now : Standing) → StandsWith c self.old (earlier ++ tape.old.items) now → IsSound (H.meant handlers.old) c h now (event.Deliver number) →
            All HasLine tape.old.items → All HasLine tape.new.items) }
        ensures handlers { H.meant handlers.new ≡ H.meant handlers.old }
        ensures served { (why : ℕ) → result ≢ Err (Refused why) }
        ensures limited { result ≢ Err Limit }
    {
        let message = match sent_to(&self.mail, self.places.as_slice(), number) {
            Some(message) => message,
            None => unreachable!(),
        };
        let me = message.to;
        let made = match step_at(
            alloc,
            handlers,
            &mut self.places,
            message.to,
            Event::Take(message),
        ) {
            Ok(made) => made,
            Err(fault) => return Err(fault),
        };
        self.mail.take(number);
        tape.items.push(Item::Taken { number })?;
        self.show_step(alloc, me, made, tape)?;
        Ok(())
    }

    /// The message of a number is handed to its receiver, unless that is refused.
    pub(crate) fn deliver<H: QueueHandlers>(
        &mut self,
        alloc: Global,
        handlers: &mut H,
        number: u64,
        tape: &mut Tape,
    ) -> Result<(), WorldFault>
        requires known { MayCome (H.meant handlers.old) self.old tape.old.items (event.Deliver number) }
        ensures state { OnOk result ((c : Cluster) (h : Meanings) (earlier : List OnTape) (now : Standing) → StandsWith c self.old (earlier ++ tape.old.items) now → IsSound (H.meant handlers.old) c h now (event.Deliver number) →
            StandsWith c self.new (earlier ++ tape.new.items) (after_event c h by_fuse now (event.Deliver number))) }
        ensures lines { OnOk result ((c : Cluster) (h : Meanings) (earlier : List OnTape) (now : Standing) → StandsWith c self.old (earlier ++ tape.old.items) now → IsSound (H.meant handlers.old) c h now (event.Deliver number) →
            All HasLine tape.old.items → All HasLine tape.new.items) }
        ensures handlers { H.meant handlers.new ≡ H.meant handlers.old }
        ensures happens { OnOk result ((c : Cluster) (items : List OnTape) (now : Standing) → StandsWith c self.old items now → refusal c now (event.Deliver number) ≡ None) }
        ensures refused { (why : ℕ) → result ≡ Err (Refused why) → (c : Cluster) (items : List OnTape) (now : Standing) → StandsWith c self.old items now → refusal c now (event.Deliver number) ≡ Some why }
        ensures world { (why : ℕ) → result ≡ Err (Refused why) → self.new ≡ self.old }
        ensures limited { result ≢ Err Limit }
    {
        match self.mail.delivery_refusal(self.places.as_slice(), number) {
            Some(why) => Err(WorldFault::Refused { why }),
            None => self.hand(alloc, handlers, number, tape),
        }
    }
}
