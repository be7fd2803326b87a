//! Why a message is not delivered.
ghost use Rattle.std.specs.Prelude.{◌≡◌, ℕ};
ghost use Rattle.mega_cluster.specs.declared.cluster.Cluster.{Cluster};
ghost use Rattle.mega_promises.specs.Messages.{message_of};
ghost use Rattle.mega_promises.specs.Runs.{Standing, receiver_down, refusal, up};
ghost use Rattle.mega_schedule.specs.declared.world_event.WorldEvent.TheVariants as event;
ghost use Rattle.mega_places.specs.Carries.{Carries};
ghost use Rattle.mega_places.specs.Members.{is_up_at};

use crate::mail::Mail;
use crate::place::Place;
use crate::places::is_up;
use mega_verdicts::delivery_refusal;

impl Mail {
    /// Whether the receiver of the message of a number is down, where one was sent.
    fn is_receiver_down(&self, places: &[Place], number: u64) -> bool
        ensures { (now : Standing) → Carries self.now now.tape → ((me : ℕ) → up now me ≡ is_up_at places.now me) → result ≡ receiver_down now (message_of now.tape number) }
    {
        match self.message(number) {
            Some(message) => !is_up(places, message.to),
            None => false,
        }
    }

    /// Why a message is not delivered: 3, none of this number was sent; 4, it was dropped; 1, its receiver is down.
    pub fn delivery_refusal(&self, places: &[Place], number: u64) -> Option<u8>
        ensures { (c : Cluster) (now : Standing) → Carries self.now now.tape → ((me : ℕ) → up now me ≡ is_up_at places.now me) → result ≡ refusal c now (event.Deliver number) }
    {
        let is_sent = self.is_sent(number);
        let is_dropped = self.is_dropped(number);
        let is_down = self.is_receiver_down(places, number);
        delivery_refusal(is_sent, is_dropped, is_down)
    }
}
